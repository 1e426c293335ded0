//! Why a call is refused.

ghost use Rattle.std.specs.Prelude.{◌≡◌, Some};
ghost use Rattle.rig.specs.Faults.{setup_number, setup_reason, number, reason};
ghost use Rattle.rig.specs.declared.fault.CallFault.TheVariants.{TurnedAway as WasTurnedAway};

use network::TurnedAway;
use std::error::Error;
use std::fmt;

/// Why a setup is refused, or an entry into one.
#[derive(Clone, Copy, PartialEq, Eq, Debug)]
pub enum SetupFault {
    /// A rig has one to eight rounds.
    Rounds,
    /// No rig has a station with this number.
    Station,
    /// An opening bit is 0 or 1.
    Bit,
}

/// Why a call or a question is refused.
#[derive(Clone, Copy, PartialEq, Eq, Debug)]
pub enum CallFault {
    /// The rig has no station with this number.
    NoStation,
    /// The station is a guest, and does not follow the rules.
    Guest,
    /// No rule applies at the station.
    NothingDue,
    /// No message waits.
    NothingWaits,
    /// The sender is an own station, for which nobody else speaks.
    OwnSender,
    /// The network turned the message away.
    TurnedAway,
    /// The rig has no such round, or a round no such half.
    NoGrading,
}

impl SetupFault {
    /// The number by which the fault is reported.
    pub fn number(self) -> u8
        ensures { result ≡ setup_number self }
    {
        match self {
            SetupFault::Rounds => 5,
            SetupFault::Station => 6,
            SetupFault::Bit => 7,
        }
    }
}

impl CallFault {
    /// The number by which the fault is reported.
    pub fn number(self) -> u8
        ensures { result ≡ number self }
    {
        match self {
            CallFault::NoStation => 11,
            CallFault::Guest => 12,
            CallFault::NothingDue => 13,
            CallFault::NothingWaits => 14,
            CallFault::OwnSender => 15,
            CallFault::TurnedAway => 16,
            CallFault::NoGrading => 18,
        }
    }
}

/// The reason in words, with no full stop.
impl fmt::Display for SetupFault {
    ghost output = { λ f. Some (setup_reason f) };

    fn fmt<W: fmt::Write>(&self, f: &mut fmt::Formatter<W>) -> fmt::Result {
        f.write_str(match self {
            SetupFault::Rounds => "a rig has 1 to 8 rounds",
            SetupFault::Station => "stations are numbered 0 to 9",
            SetupFault::Bit => "an opening bit is 0 or 1",
        })
    }
}

/// The reason in words, with no full stop.
impl fmt::Display for CallFault {
    ghost output = { λ f. Some (reason f) };

    fn fmt<W: fmt::Write>(&self, f: &mut fmt::Formatter<W>) -> fmt::Result {
        f.write_str(match self {
            CallFault::NoStation => "the rig has no such station",
            CallFault::Guest => "the station is a guest",
            CallFault::NothingDue => "the station has nothing to do",
            CallFault::NothingWaits => "no message waits",
            CallFault::OwnSender => "the sender is no guest",
            CallFault::TurnedAway => "the network turned the message away",
            CallFault::NoGrading => "the rig has no such round, or the round no such half",
        })
    }
}

impl Error for SetupFault {}

impl Error for CallFault {}

// By hand, for the contract.
impl From<TurnedAway> for CallFault {
    ghost from_gives = { λ _ f. f ≡ WasTurnedAway };

    fn from(_: TurnedAway) -> CallFault {
        CallFault::TurnedAway
    }
}
