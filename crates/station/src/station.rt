//! One own station.

ghost use Rattle.std.specs.Prelude.{◌≡◌, ℕ, Bool, ◌*◌, ◌<◌, false, true, not, is_none, ◌≢◌, ◌↔◌, option_map};
ghost use Rattle.agreement.specs.Messages.{message as message_of, prepare, propose, commit};
ghost use Rattle.agreement.specs.Station.{bit as bit_number, fresh_station, with_message, after_message, Idle};
ghost use Rattle.acts.specs.Values.{number, value_of_bit};
ghost use Rattle.acts.specs.Gradings.{in_numbers};
ghost use Rattle.station.specs.Stations.{read};
ghost use Rattle.station.specs.Turns.{rules_of};

mod due;
mod turn;

use crate::stage::StageRecord;
use acts::payload::Payload;
use acts::rounds::Rounds;
use acts::value::{Grading, Value};
use agreement::Message;
use faults::rule::FaultRule;
use stations::StationSet;

/// What an own station keeps: of what it heard, and of what it did.
#[derive(Clone, Copy, PartialEq, Eq, Debug)]
pub struct Station {
    /// Each stage's record.
    stages: [StageRecord; Station::RECORDS],
    /// Who committed each bit.
    committers: [StationSet; 2],
    /// The current stage.
    current: u8,
    /// The bit that this station committed.
    committed: Option<bool>,
    /// The bit that it decided.
    decision: Option<bool>,
}

impl Station {
    /// How many records a station has: one for each of the 32 stages of eight rounds, and one more for the input with which
    /// it finishes them.
    const RECORDS: usize = 33;

    /// A station that opens with a bit.
    pub fn new(opening: bool) -> Station
        ensures { read result ≡ fresh_station opening }
    {
        Station::with_input(opening.into())
    }

    // A station that opens with a bit as its input.
    fn with_input(input: Value) -> Station
        ensures { (opening : Bool) → input ≡ value_of_bit opening → read result ≡ fresh_station opening }
    {
        let mut stages = [StageRecord::new(); Station::RECORDS];
        stages[0].input = input;
        Station {
            stages,
            committers: [StationSet::EMPTY; 2],
            current: 0,
            committed: None,
            decision: None,
        }
    }

    /// Records a message, unless it is ignored, and answers whether the record changed.
    pub fn hear<F: FaultRule>(&mut self, rule: &F, rounds: Rounds, message: Message) -> bool
        ensures record { read self.new ≡ after_message (F.families rule.now).n (4 * rounds.count) message (read self.old) }
        ensures changed { result ≡ true → read self.new ≢ read self.old }
        ensures unchanged { result ≡ false → self.new ≡ self.old }
    {
        let sender = message.sender;
        match Payload::from_message(message, rule.size(), rounds) {
            Some(Payload::Prepare { stage, value }) => self.hear_prepare(sender, stage, value),
            Some(Payload::Propose { stage, value }) => self.hear_propose(sender, stage, value),
            Some(Payload::Commit { bit }) => self.hear_commit(sender, bit),
            None => false,
        }
    }

    fn hear_prepare(&mut self, sender: u8, stage: u8, value: Value) -> bool
        requires { (sender < 10) × (stage < 32) }
        ensures record { read self.new ≡ with_message (message_of sender 0 (prepare stage (number value))) (read self.old) }
        ensures unchanged { result ≡ false → self.new ≡ self.old }
        ensures changed { result ≡ true → read self.new ≢ read self.old }
    {
        self.stages[stage as usize].hear_prepare(sender, value)
    }

    fn hear_propose(&mut self, sender: u8, stage: u8, value: Value) -> bool
        requires { (sender < 10) × (stage < 32) }
        ensures record { read self.new ≡ with_message (message_of sender 0 (propose stage (number value))) (read self.old) }
        ensures unchanged { result ≡ false → self.new ≡ self.old }
        ensures changed { result ≡ true → read self.new ≢ read self.old }
    {
        self.stages[stage as usize].hear_propose(sender, value)
    }

    fn hear_commit(&mut self, sender: u8, bit: bool) -> bool
        requires { sender < 10 }
        ensures record { read self.new ≡ with_message (message_of sender 0 (commit (bit_number bit))) (read self.old) }
        ensures unchanged { result ≡ false → self.new ≡ self.old }
        ensures changed { result ≡ true → read self.new ≢ read self.old }
    {
        self.committers[bit as usize].insert(sender)
    }

    /// Whether no act applies.
    pub fn is_idle<F: FaultRule>(&self, rule: &F, rounds: Rounds) -> bool
        ensures { (coin : ℕ → Bool)
            → (result ≡ true) ↔ Idle (rules_of (F.families rule.now) rounds.count coin) (read self.now) }
    {
        self.due(rule, rounds).is_none()
    }

    /// The current stage; four times the number of rounds where the station has finished.
    pub fn stage(&self) -> u8
        ensures { result ≡ (read self.now).stage }
    {
        self.current
    }

    /// The grading that closing a stage gave: none where it is not closed, or gives none.
    pub fn grading(&self, stage: u8) -> Option<Grading>
        ensures { option_map in_numbers result ≡ (read self.now).grading stage }
    {
        self.stages.get(stage as usize)?.grading
    }

    /// The bit that the station decided.
    pub fn decision(&self) -> Option<bool>
        ensures { option_map bit_number result ≡ (read self.now).decision }
    {
        self.decision
    }
}
