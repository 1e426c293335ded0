//! Two fault rules in one.

ghost use Rattle.faults.specs.Rules.{both_of};
ghost use Rattle.faults.specs.RuleLaws.{both_laws};

use crate::rule::{FaultRule, Sense};
use stations::StationSet;

/// What both sides tolerate, over the stations of the first side.
#[derive(Drop)]
pub struct Both<P: FaultRule, Q: FaultRule> {
    pub first: P,
    pub second: Q,
}

impl<P: FaultRule, Q: FaultRule> FaultRule for Both<P, Q> {
    ghost families = { λ b. both_of (P.FaultRule.families b.first) (Q.FaultRule.families b.second) };

    ghost sized = { λ b. P.FaultRule.sized b.first };

    ghost laws = { λ b.
        both_laws (P.FaultRule.families b.first) (Q.FaultRule.families b.second)
        (P.FaultRule.laws b.first) (Q.FaultRule.laws b.second) };

    fn size(&self) -> u8 {
        self.first.size()
    }

    fn tolerates(&self, sense: Sense, x: StationSet) -> bool {
        self.first.tolerates(sense, x) && self.second.tolerates(sense, x.up_to(self.first.size()))
    }
}
