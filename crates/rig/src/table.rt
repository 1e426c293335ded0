//! The stations' records.

ghost use Rattle.std.specs.Prelude.{◌≡◌, ◌≢◌, ◌<◌, ◌*◌, ◌↔◌, true, false, IfSome, IfNone, ℕ, Bool};
ghost use Rattle.agreement.specs.Station.{Idle};
ghost use Rattle.rig.specs.Settings.{among};
ghost use Rattle.station.specs.Stations.{read};
ghost use Rattle.station.specs.Turns.{rules_of};
ghost use Rattle.rig.specs.Tables.{station_in, AreOpened, Records, Receives, DoesDueActAt, AllIdle};

use crate::setup::{Setup, is_among};
use acts::act::Turn;
use acts::rounds::Rounds;
use agreement::Message;
use coins::Coin;
use faults::rule::FaultRule;
use station::station::Station;
use stations::StationSet;

/// A record for each station that a rig can have. Of guests, and from the rig's size on, none ever changes.
#[derive(Clone, Copy, PartialEq, Eq, Debug)]
pub(crate) struct StationTable {
    records: [Station; Setup::STATIONS],
}

impl StationTable {
    /// The records of stations as they are opened, those of a set with 1.
    pub(crate) fn new(openings: StationSet) -> StationTable
        ensures { AreOpened (among openings) result }
    {
        let mut records = [Station::new(false); Setup::STATIONS];
        for station in 0..Setup::STATIONS as u8 {
            records[station as usize] = Station::new(is_among(openings, station));
        }
        StationTable { records }
    }

    /// Puts a message into its addressee's record, if that is one of the own stations, and answers whether it changed.
    pub(crate) fn deliver<F: FaultRule>(
        &mut self,
        rule: &F,
        rounds: Rounds,
        own: StationSet,
        message: Message,
    ) -> bool
        ensures record { Receives (among own) (F.families rule.now).n (4 * rounds.count) message self.old self.new }
        ensures changed { result ≡ true → station_in self.new message.addressee ≢ station_in self.old message.addressee }
        ensures unchanged { result ≡ false → self.new ≡ self.old }
    {
        if !is_among(own, message.addressee) {
            return false;
        }
        self.hear(rule, rounds, message)
    }

    // Puts a message into its addressee's record, and answers whether that changed.
    fn hear<F: FaultRule>(&mut self, rule: &F, rounds: Rounds, message: Message) -> bool
        requires { message.addressee < 10 }
        ensures record { Records (F.families rule.now).n (4 * rounds.count) message self.old self.new }
        ensures changed { result ≡ true → station_in self.new message.addressee ≢ station_in self.old message.addressee }
        ensures unchanged { result ≡ false → self.new ≡ self.old }
    {
        self.records[message.addressee as usize].hear(rule, rounds, message)
    }

    /// Has a station do the act that is due, and answers what that was; none where no act applies.
    pub(crate) fn turn<F: FaultRule, C: Coin>(
        &mut self,
        station: u8,
        rule: &F,
        coin: &C,
        rounds: Rounds,
    ) -> Option<Turn>
        requires { station < 10 }
        ensures due { IfSome result (DoesDueActAt station (rules_of (F.families rule.now) rounds.count (C.bits coin.now)) self.old self.new) }
        ensures idle { IfNone result (Idle (rules_of (F.families rule.now) rounds.count (C.bits coin.now)) (station_in self.old station)) }
        ensures unchanged { IfNone result (self.new ≡ self.old) }
    {
        self.records[station as usize].turn(rule, coin, rounds)
    }

    /// A station's record.
    pub(crate) fn record(&self, station: u8) -> &Station
        requires { station < 10 }
        ensures { read result.now ≡ station_in self.now station }
    {
        &self.records[station as usize]
    }

    /// Whether no act applies at any of the own stations.
    pub(crate) fn is_idle<F: FaultRule>(&self, rule: &F, rounds: Rounds, own: StationSet) -> bool
        ensures { (coin : ℕ → Bool) → (result ≡ true)
            ↔ AllIdle (rules_of (F.families rule.now) rounds.count coin) (among own) self.now }
    {
        for station in 0..Setup::STATIONS as u8 {
            if is_among(own, station) && !self.record(station).is_idle(rule, rounds) {
                return false;
            }
        }
        true
    }
}
