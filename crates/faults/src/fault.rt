//! Why a fault rule is refused.

ghost use Rattle.std.specs.Prelude.{◌≡◌, Some};
ghost use Rattle.faults.specs.Faults.{number, reason};
ghost use Rattle.faults.specs.declared.fault.Fault.TheVariants.{Memory};

use std::alloc::AllocError;
use std::error::Error;
use std::fmt;

/// A narrow set and two wide ones that together hold every station, each by its place in its list. The two
/// wide ones may be the same.
#[derive(Clone, Copy, PartialEq, Eq, Debug)]
pub struct Three {
    pub narrow: usize,
    pub wide: (usize, usize),
}

/// Why a fault rule is refused.
#[derive(Clone, Copy, PartialEq, Eq, Debug)]
pub enum Fault {
    /// The rule has no station, or more than ten.
    Size,
    /// Some narrow-tolerable set would not be wide-tolerable.
    NarrowBeyondWide,
    /// Two wide-tolerable sets and a narrow-tolerable one could hold every station.
    Cover,
    /// These listed sets hold every station.
    CoveredBy(Three),
    /// A list has no set, more than eight, or a set with a station that the rule does not have.
    Lists,
    /// The bytes are not a rule body.
    Form,
    /// There is no memory for the rule.
    Memory,
}

impl Fault {
    // A method and no `From`: `fault.number()` says what the number is, `u8::from(fault)` doesn't.
    /// The number by which the fault is reported.
    pub fn number(self) -> u8
        ensures { result ≡ number self }
    {
        match self {
            Fault::Size => 1,
            Fault::NarrowBeyondWide => 2,
            Fault::Cover | Fault::CoveredBy(_) => 3,
            Fault::Lists => 4,
            Fault::Form => 24,
            Fault::Memory => 51,
        }
    }
}

// By hand, as the `From` below: what the crate thiserror writes has no contract.
/// The reason in words, with no full stop.
impl fmt::Display for Fault {
    ghost output = { λ f. Some (reason f) };

    fn fmt<W: fmt::Write>(&self, f: &mut fmt::Formatter<W>) -> fmt::Result {
        f.write_str(match self {
            Fault::Size => "a rule has 1 to 10 stations",
            Fault::NarrowBeyondWide => "some narrow guests would not be wide guests too",
            Fault::Cover =>
                "two sets of wide guests and one of narrow guests could be all the stations",
            Fault::CoveredBy(_) =>
                "these sets, two wide and one narrow, hold all the stations (places count from 0)",
            Fault::Lists => "a list must have 1 to 8 sets, all of stations that the rule has",
            Fault::Form => "these bytes are not a rule body",
            Fault::Memory => "there is no memory for the rule",
        })
    }
}

impl Error for Fault {}

// By hand, for the contract.
impl From<AllocError> for Fault {
    ghost from_gives = { λ _ r. r ≡ Memory };

    fn from(_: AllocError) -> Fault {
        Fault::Memory
    }
}
