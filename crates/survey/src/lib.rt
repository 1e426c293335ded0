//! The largest sets of guests that a fault rule tolerates.

#![tactic(auto)]

ghost use Rattle.std.specs.Prelude.{◌≡◌, ◌^◌, ◌<◌, filter, IfOk};
ghost use Rattle.std.specs.List.{range_with_len};
ghost use Rattle.stations.specs.Members.{members};
ghost use Rattle.survey.specs.Largest.{cannot_gain, cannot_grow, maximal, AllLargest};

use faults::rule::{FaultRule, Sense};
use stations::StationSet;
use std::alloc::{AllocError, Global};

// What a rule tolerates in one sense.
#[derive(Drop)]
struct Family<'a, F: FaultRule> {
    rule: &'a F,
    sense: Sense,
}

impl<F: FaultRule> Family<'_, F> {
    // Whether x has the station, or is not tolerable with it. Of stations from 16 on nothing is said: `with` adds none.
    fn cannot_gain(&self, x: StationSet, station: u8) -> bool
        ensures { station < 16
            → result ≡ cannot_gain (F.FaultRule.families self.now.rule.now) self.now.sense (members x) station }
    {
        x.has(station) || !self.rule.tolerates(self.sense, x.with(station))
    }

    // Whether no set with one station more is tolerable.
    fn cannot_grow(&self, x: StationSet) -> bool
        ensures { result ≡ cannot_grow (F.FaultRule.families self.now.rule.now) self.now.sense (members x) }
    {
        (0..self.rule.size()).all(|station| self.cannot_gain(x, station))
    }

    // Whether x is tolerable and cannot grow by one station.
    fn is_maximal(&self, x: StationSet) -> bool
        ensures { result ≡ maximal (F.FaultRule.families self.now.rule.now) self.now.sense (members x) }
    {
        self.rule.tolerates(self.sense, x) && self.cannot_grow(x)
    }

    // The tolerable sets that cannot grow by one station, in ascending order of their numbers.
    fn maximal_sets(&self, heap: Global) -> Result<Vec<StationSet>, AllocError>
        ensures { IfOk result (λ v. v.items ≡ filter
            (λ x. maximal (F.FaultRule.families self.now.rule.now) self.now.sense (members x))
            (range_with_len 0 (2 ^ (F.FaultRule.families self.now.rule.now).n))) }
    {
        (0..1u16 << self.rule.size())
            .map(StationSet::from)
            .filter(|x| self.is_maximal(*x))
            .collect(heap)
    }
}

// The rule and the sense, as a caller has them: `Family` is for the search alone.
/// The largest sets that a rule tolerates in one sense: those that no tolerable set properly contains,
/// each once, in ascending order of their numbers.
#[tactic(auto, using(crate::proofs::Listing::all_largest))]
pub fn largest_sets<F: FaultRule>(
    heap: Global,
    rule: &F,
    sense: Sense,
) -> Result<Vec<StationSet>, AllocError>
    ensures { IfOk result (λ v. AllLargest (F.FaultRule.families rule.now) sense v.items) }
{
    Family { rule, sense }.maximal_sets(heap)
}
