//! Fault rules by counting.

ghost use Rattle.std.specs.Prelude.{◌+◌, ◌*◌, ◌<◌, ◌≤◌};

use crate::fault::Fault;
use crate::rule::{FaultRule, Sense};
use crate::size::RuleSize;
use stations::StationSet;

/// At most s stations may be guests in the wide sense, and at most a in the narrow one.
#[derive(Clone, Copy)]
pub struct Threshold {
    size: RuleSize,
    s: u8,
    a: u8,
    ghost nested: { a ≤ s },
    ghost apart: { a + 2 * s < size.n },
}

impl Threshold {
    ghost use Rattle.faults.specs.Made.{ThresholdMade};

    // Three numbers, as a caller has them; together they stand in a case of `RuleBody`, in a crate above this one.
    /// The rule of n stations that tolerates at most s guests in the wide sense and at most a in the narrow one.
    pub fn new(n: u8, s: u8, a: u8) -> Result<Threshold, Fault>
        ensures { ThresholdMade n s a result }
    {
        let size = RuleSize::try_from(n)?;
        if a > s {
            return Err(Fault::NarrowBeyondWide);
        }
        if a as u16 + 2 * s as u16 >= n as u16 {
            return Err(Fault::Cover);
        }
        Ok(Threshold { size, s, a })
    }
}

impl FaultRule for Threshold {
    ghost use Rattle.faults.specs.Rules.{threshold};
    ghost use Rattle.faults.specs.RuleLaws.{threshold_laws};

    ghost families = { λ t. threshold t.size.n t.s t.a };

    ghost sized = { λ t. t.size.sized };

    ghost laws = { λ t. threshold_laws t.size.n t.s t.a t.nested t.apart };

    fn size(&self) -> u8 {
        self.size.n
    }

    fn tolerates(&self, sense: Sense, x: StationSet) -> bool {
        // A match says which is which; a helper with two arguments of one type would not.
        let most = match sense {
            Sense::Wide => self.s,
            Sense::Narrow => self.a,
        };
        x.has_at_most(most, self.size.n)
    }
}
