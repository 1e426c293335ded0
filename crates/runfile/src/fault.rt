//! Why a run file is refused.

ghost use Rattle.std.specs.Prelude.{◌≡◌, Some};
ghost use Rattle.runfile.specs.Faults.{number, place, reason};
ghost use Rattle.runfile.specs.declared.fault.FileFault.TheVariants.{Rule as RuleRefused, Setup as SetupRefused};

use faults::fault::Fault;
use rig::SetupFault;
use std::error::Error;
use std::fmt;

/// Why a run file is refused, and at which place: by bytes from its beginning.
#[derive(Clone, Copy, PartialEq, Eq, Debug)]
pub enum FileFault {
    /// The file has under 12 bytes, or over 40,000.
    Size,
    /// At this place the contents have another kind of body than comes there.
    Kind { place: u16 },
    /// The lengths in the contents do not add up to the file.
    Lengths,
    /// The rule is refused; its body is at this place.
    Rule { fault: Fault, place: u16 },
    /// The stations or the coin at this place have a wrong length, an unknown code, or a set with a bit above 9. A rule body
    /// has its own fault for that.
    Form { place: u16 },
    /// The setup is refused; the stations' body is at this place.
    Setup { fault: SetupFault, place: u16 },
    /// At this place stands a call that is unknown or cut off.
    Call { place: u16 },
    /// There is no memory for the calls; their body is at this place.
    Memory { place: u16 },
}

/// A fault of a body, with the body's place.
#[derive(Clone, Copy, PartialEq, Eq, Debug)]
pub(crate) struct Placed<E> {
    pub(crate) fault: E,
    pub(crate) place: u16,
}

impl From<Placed<Fault>> for FileFault {
    ghost from_gives = { λ e r. r ≡ RuleRefused e.fault e.place };

    fn from(e: Placed<Fault>) -> FileFault {
        FileFault::Rule {
            fault: e.fault,
            place: e.place,
        }
    }
}

impl From<Placed<SetupFault>> for FileFault {
    ghost from_gives = { λ e r. r ≡ SetupRefused e.fault e.place };

    fn from(e: Placed<SetupFault>) -> FileFault {
        FileFault::Setup {
            fault: e.fault,
            place: e.place,
        }
    }
}

impl FileFault {
    /// The number by which the fault is reported.
    pub fn number(self) -> u8
        ensures { result ≡ number self }
    {
        match self {
            FileFault::Size => 21,
            FileFault::Kind { .. } => 22,
            FileFault::Lengths => 23,
            FileFault::Rule { fault, .. } => fault.number(),
            FileFault::Form { .. } => 24,
            FileFault::Setup { fault, .. } => fault.number(),
            FileFault::Call { .. } => 25,
            FileFault::Memory { .. } => 51,
        }
    }

    /// The place by which the fault is reported.
    pub fn place(self) -> u16
        ensures { result ≡ place self }
    {
        match self {
            FileFault::Size => 0,
            FileFault::Lengths => 12,
            FileFault::Kind { place }
            | FileFault::Rule { place, .. }
            | FileFault::Form { place }
            | FileFault::Setup { place, .. }
            | FileFault::Call { place }
            | FileFault::Memory { place } => place,
        }
    }
}

/// The reason in words, with no full stop: of a rule or a setup that is refused, its own.
impl fmt::Display for FileFault {
    ghost output = { λ f. Some (reason f) };

    fn fmt<W: fmt::Write>(&self, f: &mut fmt::Formatter<W>) -> fmt::Result {
        f.write_str(match self {
            FileFault::Size => "a run file has 12 to 40,000 bytes",
            FileFault::Kind { .. } =>
                "the bodies are a rule, stations, a coin and calls, in this order",
            FileFault::Lengths => "the lengths do not add up to the file",
            FileFault::Rule { fault, .. } => return fault.fmt(f),
            FileFault::Form { .. } =>
                "these bytes are no such body: a wrong length, an unknown code, or a set bit above 9",
            FileFault::Setup { fault, .. } => return fault.fmt(f),
            FileFault::Call { .. } => "this call is unknown or cut off",
            FileFault::Memory { .. } => "there is no memory for the calls",
        })
    }
}

impl Error for FileFault {}
