//! Why a line is refused.

ghost use Rattle.std.specs.Prelude.{◌≡◌, Some};
ghost use Rattle.transcript.specs.Faults.{number, reason};

use std::error::Error;
use std::fmt;

/// Why a line is not written.
#[derive(Clone, Copy, PartialEq, Eq, Debug)]
pub enum LineFault {
    /// The buffer has fewer than 32 bytes.
    Short,
}

impl LineFault {
    /// The number by which the fault is reported.
    pub fn number(self) -> u8
        ensures { result ≡ number self }
    {
        match self {
            LineFault::Short => 31,
        }
    }
}

/// The reason in words, with no full stop.
impl fmt::Display for LineFault {
    ghost output = { λ f. Some (reason f) };

    fn fmt<W: fmt::Write>(&self, f: &mut fmt::Formatter<W>) -> fmt::Result {
        f.write_str(match self {
            LineFault::Short => "a line needs a buffer of 32 bytes or more",
        })
    }
}

impl Error for LineFault {}
