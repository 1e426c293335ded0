//! Fault rules by lists of sets.

ghost use Rattle.std.specs.Prelude.{◌≡◌, ◌<◌, ◌↔◌, length, IsTrue};
ghost use Rattle.stations.specs.Members.{members};
ghost use Rattle.faults.specs.Rules.{within};
ghost use Rattle.faults.specs.Lists.{Proper, Nested, Apart, CoverFound};

use crate::fault::{Fault, Three};
use crate::rule::{FaultRule, Sense};
use crate::size::RuleSize;
use stations::StationSet;
use std::alloc::Global;

/// Guests are tolerable where they lie inside a listed set.
#[derive(Drop)]
pub struct Listed {
    size: RuleSize,
    wide: Vec<StationSet>,
    narrow: Vec<StationSet>,
    ghost some: { 0 < length narrow.items },
    ghost nested: { Nested size.n narrow.items wide.items },
    ghost apart: { Apart size.n narrow.items wide.items },
}

// The two lists of a rule that is to be made, and its size. Not one type with `Listed`: these are borrowed, and may have
// any fault.
#[derive(Clone, Copy)]
struct Lists<'a> {
    size: RuleSize,
    wide: &'a [StationSet],
    narrow: &'a [StationSet],
}

// Whether x lies inside a listed set.
fn lies_within(x: StationSet, list: &[StationSet], size: RuleSize) -> bool
    ensures { result ≡ within size.n list.now (members x) }
{
    list.iter().any(|set| x.is_inside(*set, size.n))
}

// Whether a list has one to eight sets, none with a station that the rule does not have.
fn is_proper(list: &[StationSet], size: RuleSize) -> bool
    ensures { IsTrue result ↔ Proper size.n list.now }
{
    !list.is_empty() && list.len() <= 8 && list.iter().all(|set| set.is_below(size.n))
}

impl Lists<'_> {
    ghost use Rattle.faults.specs.Made.{ListsChecked};

    // Whether each narrow set lies inside a wide one.
    fn are_nested(&self) -> bool
        ensures { IsTrue result ↔ Nested self.now.size.n self.now.narrow.now self.now.wide.now }
    {
        self.narrow
            .iter()
            .all(|set| lies_within(*set, self.wide, self.size))
    }

    // The first narrow and two wide sets, by place, that together hold every station. The search is nested and left by its
    // label, as the project asks (docs/DECISIONS.md, Forms); as three closures in one another it is no plainer.
    fn first_cover(&self) -> Option<Three>
        ensures { CoverFound self.now.size.n self.now.narrow.now self.now.wide.now result }
    {
        'search: {
            for (narrow, x) in self.narrow.iter().enumerate() {
                for (first, y) in self.wide.iter().enumerate() {
                    for (second, z) in self.wide.iter().enumerate() {
                        if StationSet::cover(*x, *y, *z, self.size.n) {
                            let wide = (first, second);
                            break 'search Some(Three { narrow, wide });
                        }
                    }
                }
            }
            None
        }
    }

    // The first fault of the rule that the lists would make.
    fn check(&self) -> Result<(), Fault>
        ensures { ListsChecked self.now.size.n self.now.wide.now self.now.narrow.now result }
    {
        if !is_proper(self.wide, self.size) || !is_proper(self.narrow, self.size) {
            return Err(Fault::Lists);
        }
        if !self.are_nested() {
            return Err(Fault::NarrowBeyondWide);
        }
        match self.first_cover() {
            Some(three) => Err(Fault::CoveredBy(three)),
            None => Ok(()),
        }
    }
}

impl Listed {
    ghost use Rattle.faults.specs.Made.{ListedMade};

    // Size and lists, as a caller has them; together they stand in a case of `RuleBody`, in a crate above this one.
    /// The rule of n stations that tolerates what lies inside a set of the wide list, and in the narrow
    /// sense what lies inside a set of the narrow list.
    pub fn new(
        heap: Global,
        n: u8,
        wide: &[StationSet],
        narrow: &[StationSet],
    ) -> Result<Listed, Fault>
        ensures { ListedMade n wide.now narrow.now result }
    {
        let size = RuleSize::try_from(n)?;
        Lists { size, wide, narrow }.check()?;
        let wide = Vec::from_slice(heap, wide)?;
        let narrow = Vec::from_slice(heap, narrow)?;
        Ok(Listed { size, wide, narrow })
    }
}

impl FaultRule for Listed {
    ghost use Rattle.faults.specs.Rules.{listed};
    ghost use Rattle.faults.specs.RuleLaws.{listed_laws};

    ghost families = { λ t. listed t.size.n t.wide.items t.narrow.items };

    ghost sized = { λ t. t.size.sized };

    ghost laws = { λ t. listed_laws t.size.n t.wide.items t.narrow.items t.some t.nested t.apart };

    fn size(&self) -> u8 {
        self.size.n
    }

    fn tolerates(&self, sense: Sense, x: StationSet) -> bool {
        // A match says which is which; a helper with two arguments of one type would not.
        let list = match sense {
            Sense::Wide => self.wide.as_slice(),
            Sense::Narrow => self.narrow.as_slice(),
        };
        lies_within(x, list, self.size)
    }
}
