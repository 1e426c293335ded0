//! What a station keeps of a stage.

ghost use Rattle.std.specs.Prelude.{◌≡◌, ◌<◌, ◌≤◌, false, true, not, length, ℕ, is_none};
ghost use Rattle.std.specs.List.{list_all};
ghost use Rattle.agreement.specs.Sets.{either, only};
ghost use Rattle.stations.specs.Members.{members};
ghost use Rattle.acts.specs.Values.{number};
ghost use Rattle.station.specs.Stages.{empty_value, new_stage, value_of, proposal_of, AddsPreparer, with_proposal};
ghost use Rattle.station.specs.Stages.{with_value_prepared, with_value_admitted, opening_act, to_join, to_admit, is_settled};
ghost use Rattle.station.specs.Stages.{backed_proposal, backers, FirstValue, FirstServed, AreBacked, Closes};

use acts::act::Act;
use acts::value::{Grading, Value, ValueSet};
use faults::rule::FaultRule;
use stations::StationSet;

/// What a station keeps of one value in one stage.
#[derive(Clone, Copy, PartialEq, Eq, Debug)]
pub(crate) struct ValueRecord {
    /// Who prepared it.
    preparers: StationSet,
    /// Whether this station prepared it.
    prepared: bool,
    /// Whether it admitted it.
    admitted: bool,
}

/// What a station keeps of one stage.
#[derive(Clone, Copy, PartialEq, Eq, Debug)]
pub(crate) struct StageRecord {
    /// Each value's record, by its number.
    values: [ValueRecord; 3],
    /// Each sender's first proposal.
    proposals: [Option<Value>; 10],
    /// The value that this station came into the stage with.
    pub(crate) input: Value,
    /// What it proposed: the first value that it admitted.
    proposed: Option<Value>,
    /// The grading that closing the stage gave.
    pub(crate) grading: Option<Grading>,
}

impl ValueRecord {
    // The record of a value that nobody prepared or admitted.
    fn new() -> ValueRecord
        ensures { result ≡ empty_value }
    {
        ValueRecord {
            preparers: StationSet::EMPTY,
            prepared: false,
            admitted: false,
        }
    }

    // Records that a sender prepared the value, and answers whether that is new.
    fn hear_prepare(&mut self, sender: u8) -> bool
        requires { sender < 10 }
        ensures others { self.new ≡ record self.old { preparers = self.new.preparers } }
        ensures preparers { members self.new.preparers ≡ either (members self.old.preparers) (only sender) }
        ensures changed { result ≡ not (members self.old.preparers sender) }
        ensures unchanged { result ≡ false → self.new ≡ self.old }
    {
        self.preparers.insert(sender)
    }

    // Whether rule 2 prepares it.
    fn is_to_join<F: FaultRule>(&self, rule: &F) -> bool
        ensures { result ≡ to_join (F.families rule.now) self.now }
    {
        !self.prepared && rule.is_blocking(self.preparers)
    }

    // Whether rule 3 admits it.
    fn is_to_admit<F: FaultRule>(&self, rule: &F) -> bool
        ensures { result ≡ to_admit (F.families rule.now) self.now }
    {
        !self.admitted && rule.is_quorum(self.preparers)
    }

    // Whether rules 2 and 3 have nothing to do with it: nobody prepared it, or this station prepared and admitted it.
    fn is_settled(&self) -> bool
        ensures { result ≡ is_settled self.now }
    {
        self.preparers == StationSet::EMPTY || self.prepared && self.admitted
    }
}

// A clause named `within` says that an index is in range: an array's length does not reach a caller's proof by itself.
impl StageRecord {
    /// The record of a stage in which nothing was heard or done.
    pub(crate) fn new() -> StageRecord
        ensures { result ≡ new_stage }
    {
        StageRecord {
            values: [ValueRecord::new(); 3],
            proposals: [None; 10],
            input: Value::Zero,
            proposed: None,
            grading: None,
        }
    }

    /// Records that a sender prepared a value, and answers whether that is new.
    pub(crate) fn hear_prepare(&mut self, sender: u8, value: Value) -> bool
        requires { sender < 10 }
        ensures record { AddsPreparer sender (number value) self.old self.new }
        ensures changed { result ≡ not (members (value_of self.old (number value)).preparers sender) }
        ensures unchanged { result ≡ false → self.new ≡ self.old }
    {
        self.values[value as usize].hear_prepare(sender)
    }

    /// Records a sender's first proposal, and answers whether this is it.
    pub(crate) fn hear_propose(&mut self, sender: u8, value: Value) -> bool
        requires { sender < 10 }
        ensures record { self.new ≡ with_proposal sender value self.old }
        ensures changed { result ≡ is_none (proposal_of self.old sender) }
        ensures within { sender < length self.old.proposals }
    {
        if self.proposals[sender as usize].is_some() {
            return false;
        }
        self.proposals[sender as usize] = Some(value);
        true
    }

    /// Prepares a value.
    pub(crate) fn prepare(&mut self, value: Value)
        ensures record { self.new ≡ with_value_prepared (number value) self.old }
        ensures within { number value < length self.old.values }
    {
        self.values[value as usize].prepared = true;
    }

    /// Admits a value, and answers whether it is the first, which is to be proposed.
    pub(crate) fn admit(&mut self, value: Value) -> bool
        ensures record { self.new ≡ with_value_admitted value self.old }
        ensures first { result ≡ is_none self.old.proposed }
        ensures within { number value < length self.old.values }
    {
        self.values[value as usize].admitted = true;
        if self.proposed.is_some() {
            return false;
        }
        self.proposed = Some(value);
        true
    }

    /// The act of rule 1, if it applies in the current stage, as this is its record.
    pub(crate) fn opening(&self, stage: u8) -> Option<Act>
        ensures { result ≡ opening_act self.now stage }
    {
        if self.values[self.input as usize].prepared {
            return None;
        }
        Some(Act::Open {
            stage,
            value: self.input,
        })
    }

    // The first value that rule 2 prepares.
    fn first_to_join<F: FaultRule>(&self, rule: &F) -> Option<Value>
        ensures { FirstValue (λ v. to_join (F.families rule.now) (value_of self.now v)) result }
    {
        let place = self.values.iter().position(|value| value.is_to_join(rule))?;
        Value::from_number(place as u8)
    }

    // The first value that rule 3 admits.
    fn first_to_admit<F: FaultRule>(&self, rule: &F) -> Option<Value>
        ensures { FirstValue (λ v. to_admit (F.families rule.now) (value_of self.now v)) result }
    {
        let place = self
            .values
            .iter()
            .position(|value| value.is_to_admit(rule))?;
        Value::from_number(place as u8)
    }

    // Whether every value is settled.
    fn is_settled(&self) -> bool
        ensures all { result ≡ list_all is_settled self.now.values }
        ensures each { result ≡ true → (v : ℕ) → is_settled (value_of self.now v) ≡ true }
    {
        self.values.iter().all(|value| value.is_settled())
    }

    /// The first act that applies by rules 2 and 3, as this is the record of that stage. Where all values are settled a
    /// cheap test shows that none does, with no question to the fault rule.
    pub(crate) fn serving<F: FaultRule>(&self, rule: &F, stage: u8) -> Option<Act>
        ensures { FirstServed (F.families rule.now) self.now stage result }
    {
        if self.is_settled() {
            return None;
        }
        if let Some(value) = self.first_to_join(rule) {
            return Some(Act::Join { stage, value });
        }
        let value = self.first_to_admit(rule)?;
        Some(Act::Admit { stage, value })
    }

    /// The act of rule 4, if it applies in the current stage, as this is its record.
    pub(crate) fn closing<F: FaultRule>(&self, rule: &F, stage: u8) -> Option<Act>
        ensures { Closes (F.families rule.now) self.now stage result }
    {
        let (senders, values) = self.backing(rule.size());
        if rule.is_quorum(senders) {
            Some(Act::Close { stage, values })
        } else {
            None
        }
    }

    // A sender's recorded proposal, if it is an admitted value.
    fn backed_proposal(&self, sender: u8) -> Option<Value>
        requires { sender < 10 }
        ensures { result ≡ backed_proposal self.now sender }
    {
        let value = self.proposals[sender as usize]?;
        if self.values[value as usize].admitted {
            Some(value)
        } else {
            None
        }
    }

    // The senders below a number whose recorded proposal is an admitted value, and those values.
    fn backing(&self, size: u8) -> (StationSet, ValueSet)
        requires { size ≤ 10 }
        ensures senders { members result.0 ≡ backers size self.now }
        ensures values { AreBacked self.now size result.1 }
    {
        let mut senders = StationSet::EMPTY;
        let mut values = ValueSet::Empty;
        for sender in 0..size {
            if let Some(value) = self.backed_proposal(sender) {
                senders = senders.with(sender);
                values = values.with(value);
            }
        }
        (senders, values)
    }
}
