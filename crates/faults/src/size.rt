//! How many stations a rule has.

ghost use Rattle.faults.specs.Sizes.{Sized};

use crate::fault::Fault;

/// How many stations a rule has: one to ten.
#[derive(Clone, Copy, Debug, PartialEq, Eq)]
pub struct RuleSize {
    pub n: u8,
    ghost sized: { Sized n },
}

/// This many stations, if a rule can have so many.
impl TryFrom<u8> for RuleSize {
    type Error = Fault;

    ghost use Rattle.faults.specs.Made.{SizeMade};

    ghost try_from_gives = { SizeMade };

    fn try_from(n: u8) -> Result<RuleSize, Fault> {
        if (1..=10).contains(&n) {
            Ok(RuleSize { n })
        } else {
            Err(Fault::Size)
        }
    }
}
