//! A rule of either kind.

ghost use Rattle.rulebody.specs.Kinds.{meant};
ghost use Rattle.rulebody.specs.declared.rule.Rule.TheVariants.{Threshold, Listed};
ghost use Rattle.rulebody.specs.KindLaws.{sized, laws};

use faults::listed::Listed;
use faults::rule::{FaultRule, Sense};
use faults::threshold::Threshold;
use stations::StationSet;

/// A fault rule of one of the two kinds that a rule body can say.
#[derive(Drop)]
pub enum Rule {
    Threshold(Threshold),
    Listed(Listed),
}

impl FaultRule for Rule {
    ghost families = { meant };

    ghost sized = { sized };

    ghost laws = { laws };

    // Each kind is asked by name, and no dyn: the gate refuses a function that hands one out, as `make` would.
    fn size(&self) -> u8 {
        match self {
            Rule::Threshold(rule) => rule.size(),
            Rule::Listed(rule) => rule.size(),
        }
    }

    fn tolerates(&self, sense: Sense, x: StationSet) -> bool {
        match self {
            Rule::Threshold(rule) => rule.tolerates(sense, x),
            Rule::Listed(rule) => rule.tolerates(sense, x),
        }
    }
}
