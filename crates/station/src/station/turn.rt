//! What a station does in a turn.

ghost use Rattle.std.specs.Prelude.{◌≡◌, ◌<◌, ◌/◌, ◌%◌, IfSome, IfNone, Some, None, option_map, is_none, if◌then◌else◌};
ghost use Rattle.agreement.specs.Station.{bit as bit_number, Rules, with_prepared, after_act, admitting, closing, speech, Idle};
ghost use Rattle.acts.specs.Values.{number, values as values_of};
ghost use Rattle.acts.specs.Gradings.{in_numbers};
ghost use Rattle.acts.specs.Payloads.{payload_of};
ghost use Rattle.acts.specs.Acts.{act_of};
ghost use Rattle.acts.specs.declared.payload.Payload.TheVariants.{Commit};
ghost use Rattle.station.specs.Stations.{read};
ghost use Rattle.station.specs.Turns.{rules_of, DoesDueAct, HasDone, CanDo, with_next_stage, with_committed};

use super::Station;
use acts::act::{Act, Turn};
use acts::payload::Payload;
use acts::rounds::Rounds;
use acts::value::{Grading, Value, ValueSet};
use coins::Coin;
use faults::rule::FaultRule;

impl Station {
    /// Does the act that is due, and answers it with what is to be said to all stations; none where no act applies.
    pub fn turn<F: FaultRule, C: Coin>(
        &mut self,
        rule: &F,
        coin: &C,
        rounds: Rounds,
    ) -> Option<Turn>
        ensures due { IfSome result (DoesDueAct (rules_of (F.families rule.now) rounds.count (C.bits coin.now)) (read self.old) (read self.new)) }
        ensures idle { IfNone result (Idle (rules_of (F.families rule.now) rounds.count (C.bits coin.now)) (read self.old)) }
        ensures unchanged { IfNone result (self.new ≡ self.old) }
    {
        let act = self.due(rule, rounds)?;
        let says = self.perform(act, coin);
        Some(Turn { act, says })
    }

    // Does an act that applies, and answers what it says.
    fn perform<C: Coin>(&mut self, act: Act, coin: &C) -> Option<Payload>
        requires { CanDo act self.old }
        ensures state { HasDone (C.bits coin.now) (act_of act) (read self.old) (read self.new) }
        ensures says { option_map payload_of result ≡ speech (act_of act) (read self.old) }
    {
        match act {
            Act::Open { stage, value } | Act::Join { stage, value } => {
                self.prepare(stage, value);
                Some(Payload::Prepare { stage, value })
            }
            Act::Admit { stage, value } => self.admit(stage, value),
            Act::Close { values, .. } => self.close(values, coin),
            Act::Decide { bit } => {
                self.decision = Some(bit);
                None
            }
        }
    }

    fn prepare(&mut self, stage: u8, value: Value)
        requires { stage < 32 }
        ensures { read self.new ≡ with_prepared stage (number value) (read self.old) }
    {
        self.stages[stage as usize].prepare(value);
    }

    // Admits a value, and proposes it where it is the stage's first.
    fn admit(&mut self, stage: u8, value: Value) -> Option<Payload>
        requires { stage < 32 }
        ensures state { (g : Rules) → read self.new ≡ after_act g (admitting stage (number value)) (read self.old) }
        ensures says { option_map payload_of result ≡ speech (admitting stage (number value)) (read self.old) }
    {
        let is_first = self.stages[stage as usize].admit(value);
        is_first.then_some(Payload::Propose { stage, value })
    }

    // Closes the current stage, by its quarter and its proposal set together, and answers what is committed by that, if
    // anything. Quarters 1 and 3 leave the set's grading.
    fn close<C: Coin>(&mut self, values: ValueSet, coin: &C) -> Option<Payload>
        requires { self.old.current < 32 }
        ensures state { HasDone (C.bits coin.now) (closing self.old.current (values_of values)) (read self.old) (read self.new) }
        ensures says { option_map payload_of result ≡ speech (closing self.old.current (values_of values)) (read self.old) }
    {
        let grading = values.grading();
        match (self.quarter(), values) {
            (0 | 2, ValueSet::Bit(bit)) => self.advance(None, bit.into()),
            (0 | 2, _) => self.advance(None, Value::Blank),
            (1, ValueSet::Bit(bit)) => self.advance(Some(grading), bit.into()),
            (1, _) => self.advance(Some(grading), coin.toss(self.round()).into()),
            (3, ValueSet::Bit(bit)) => {
                self.advance(Some(grading), bit.into());
                return self.commit(bit);
            }
            (3, ValueSet::BitAndBlank(bit)) => self.advance(Some(grading), bit.into()),
            // Quarter 3, with any other set.
            (_, _) => {
                let held = self.stages[self.current as usize - 1].input;
                self.advance(Some(grading), held);
            }
        }
        None
    }

    // The current stage's round.
    fn round(&self) -> u8
        ensures { result ≡ self.now.current / 4 }
    {
        self.current / Rounds::QUARTERS
    }

    // The current stage's quarter: 0 to 3.
    fn quarter(&self) -> u8
        ensures { result ≡ self.now.current % 4 }
    {
        self.current % Rounds::QUARTERS
    }

    // Leaves the current stage with a grading, if it gives one, and comes into the next with an input.
    fn advance(&mut self, grading: Option<Grading>, input: Value)
        requires { self.old.current < 32 }
        ensures { read self.new ≡ with_next_stage (option_map in_numbers grading) (number input) (read self.old) }
    {
        self.stages[self.current as usize].grading = grading;
        self.current += 1;
        self.stages[self.current as usize].input = input;
    }

    // Commits a bit, unless one was committed.
    fn commit(&mut self, bit: bool) -> Option<Payload>
        ensures state { read self.new ≡ with_committed (bit_number bit) (read self.old) }
        ensures says { result ≡ (if is_none (read self.old).committed then Some (Commit bit) else None) }
    {
        if self.committed.is_some() {
            return None;
        }
        self.committed = Some(bit);
        Some(Payload::Commit { bit })
    }
}
