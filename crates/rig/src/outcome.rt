//! What a rig came to.

ghost use Rattle.station.specs.Stations.{read};
ghost use Rattle.rig.specs.Settings.{among};
ghost use Rattle.rig.specs.Tables.{station_in};
ghost use Rattle.rig.specs.Outcomes.{TellsStation, TellsAll};

use crate::setup::{Setup, is_among};
use crate::table::StationTable;
use acts::rounds::Rounds;
use acts::value::Grading;
use station::station::Station;
use stations::StationSet;

/// What an own station came to.
#[derive(Clone, Copy, PartialEq, Eq, Debug)]
pub struct StationOutcome {
    /// Its current stage; four times the number of rounds where it has finished.
    pub stage: u8,
    /// The gradings that it made, by round and half.
    pub gradings: [[Option<Grading>; StationOutcome::HALVES]; StationOutcome::ROUNDS],
    /// The bit that it decided.
    pub decision: Option<bool>,
}

/// What a rig came to.
#[derive(Clone, Copy, PartialEq, Eq, Debug)]
pub struct Outcome {
    /// What each own station came to; none for a guest, and from the rig's size on.
    pub stations: [Option<StationOutcome>; Setup::STATIONS],
    /// How many messages turns handed to the network.
    pub posted: u16,
    /// How many from own to own stations were turned away in a turn or lost; it stops at 4,294,967,295.
    pub missing: u32,
}

impl StationOutcome {
    /// How many rounds a rig has at most.
    pub const ROUNDS: usize = 8;

    /// How many halves a round has.
    pub const HALVES: usize = 2;

    // What a station came to, in so many rounds.
    fn of(station: &Station, rounds: Rounds) -> StationOutcome
        ensures { TellsStation rounds.count (read station.now) result }
    {
        let mut gradings = [[None; StationOutcome::HALVES]; StationOutcome::ROUNDS];
        for round in 0..rounds.count {
            let stage = Rounds::QUARTERS * round + 1;
            gradings[round as usize] = [station.grading(stage), station.grading(stage + 2)];
        }
        StationOutcome {
            stage: station.stage(),
            gradings,
            decision: station.decision(),
        }
    }
}

impl StationTable {
    /// What each of the own stations came to, in so many rounds.
    pub(crate) fn outcomes(
        &self,
        own: StationSet,
        rounds: Rounds,
    ) -> [Option<StationOutcome>; Setup::STATIONS]
        ensures { TellsAll (among own) rounds.count (station_in self.now) result }
    {
        let mut outcomes = [None; Setup::STATIONS];
        for station in 0..Setup::STATIONS as u8 {
            if is_among(own, station) {
                let outcome = StationOutcome::of(self.record(station), rounds);
                outcomes[station as usize] = Some(outcome);
            }
        }
        outcomes
    }
}
