//! What a rule body says.

use stations::StationSet;

/// A rule as it is written, which may still be refused.
#[derive(Drop)]
pub enum RuleBody {
    /// The numbers of a threshold rule.
    Threshold {
        n: u8,
        s: u8,
        a: u8,
    },
    /// The size and the two lists of a listed rule.
    Listed {
        n: u8,
        wide: Vec<StationSet>,
        narrow: Vec<StationSet>,
    },
}
