//! What is entered before a rig is opened.

ghost use Rattle.std.specs.Prelude.{◌≡◌, IfOk, OnOk, OnErr};
ghost use Rattle.std.specs.Result.{result_err};
ghost use Rattle.agreement.specs.Sets.{either, only, below, outside, without};
ghost use Rattle.stations.specs.Members.{members};
ghost use Rattle.rig.specs.Settings.{among, between};
ghost use Rattle.rig.specs.Setups.{new_fault, guest_fault, opening_fault, with_opening};

use crate::fault::SetupFault;
use acts::rounds::Rounds;
use agreement::Message;
use faults::rule::FaultRule;
use stations::StationSet;

/// What is entered for a rig before it is opened: how many rounds it has, who is a guest, and who opens with 1. A station
/// that is not named is own, and opens with 0. What is entered for a station that the rig turns out not to have is of no
/// effect, and neither is a guest's bit.
#[derive(Drop, PartialEq, Eq, Debug)]
pub struct Setup {
    pub(crate) rounds: Rounds,
    pub(crate) guests: StationSet,
    pub(crate) openings: StationSet,
}

impl Setup {
    /// How many stations a rig has at most.
    pub const STATIONS: usize = 10;

    /// A setup for so many rounds, in which no station is named.
    pub fn new(rounds: u8) -> Result<Setup, SetupFault>
        ensures fault { result_err result ≡ new_fault rounds }
        ensures rounds { IfOk result (λ s. s.rounds.count ≡ rounds) }
        ensures guests { IfOk result (λ s. s.guests ≡ 0) }
        ensures openings { IfOk result (λ s. s.openings ≡ 0) }
    {
        let rounds = Rounds::new(rounds).ok_or(SetupFault::Rounds)?;
        Ok(Setup {
            rounds,
            guests: StationSet::EMPTY,
            openings: StationSet::EMPTY,
        })
    }

    /// Enters a station as a guest.
    pub fn enter_guest(&mut self, station: u8) -> Result<(), SetupFault>
        ensures fault { result_err result ≡ guest_fault station }
        ensures guests { OnOk result (members self.new.guests ≡ either (members self.old.guests) (only station)) }
        ensures others { (self.new.rounds ≡ self.old.rounds) × (self.new.openings ≡ self.old.openings) }
        ensures refused { OnErr result (self.new ≡ self.old) }
    {
        Setup::check_station(station)?;
        self.guests = self.guests.with(station);
        Ok(())
    }

    /// Enters the bit with which a station opens, in place of any entered before.
    pub fn enter_opening(&mut self, station: u8, bit: u8) -> Result<(), SetupFault>
        ensures fault { result_err result ≡ opening_fault station bit }
        ensures openings { OnOk result (members self.new.openings ≡ with_opening station bit (members self.old.openings)) }
        ensures others { (self.new.rounds ≡ self.old.rounds) × (self.new.guests ≡ self.old.guests) }
        ensures refused { OnErr result (self.new ≡ self.old) }
    {
        Setup::check_station(station)?;
        self.openings = match bit {
            0 => self.openings.without(station),
            1 => self.openings.with(station),
            _ => return Err(SetupFault::Bit),
        };
        Ok(())
    }

    // Refuses a station that no rig has.
    fn check_station(station: u8) -> Result<(), SetupFault>
        ensures { result_err result ≡ guest_fault station }
    {
        if (station as usize) < Setup::STATIONS {
            Ok(())
        } else {
            Err(SetupFault::Station)
        }
    }

    /// The own stations of a rig of this rule.
    pub(crate) fn own<F: FaultRule>(&self, rule: &F) -> StationSet
        ensures { among result ≡ below (F.families rule.now).n (outside (members self.now.guests)) }
    {
        self.guests.rest(rule.size())
    }

    /// The own stations of a rig of this rule that open with 1.
    pub(crate) fn opening_with_1<F: FaultRule>(&self, rule: &F) -> StationSet
        ensures { among result ≡ below (F.families rule.now).n (without (members self.now.openings) (members self.now.guests)) }
    {
        self.openings.difference(self.guests).up_to(rule.size())
    }
}

/// Whether a station is one of a set, and one that a rig can have.
pub(crate) fn is_among(stations: StationSet, station: u8) -> bool
    ensures { result ≡ among stations station }
{
    (station as usize) < Setup::STATIONS && stations.has(station)
}

/// Whether a message goes from a station of a set to one of that set.
pub(crate) fn is_between(stations: StationSet, message: Message) -> bool
    ensures { result ≡ between (among stations) message }
{
    is_among(stations, message.sender) && is_among(stations, message.addressee)
}
