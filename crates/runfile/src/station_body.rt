//! The stations of a run file.

ghost use Rattle.std.specs.Prelude.{◌≡◌, ◌<◌, IsOk, IfOk};
ghost use Rattle.std.specs.Result.{result_err};
ghost use Rattle.stations.specs.Members.{members};
ghost use Rattle.rig.specs.Setups.{new_fault};
ghost use Rattle.runfile.specs.Stations.{StationsRead, with_guest};

use rig::{Setup, SetupFault};
use stations::StationSet;

/// Which network carries the messages.
#[derive(Clone, Copy, PartialEq, Eq, Debug)]
pub enum NetworkKind {
    Bag,
    Lanes,
}

/// What a stations body says.
#[derive(Clone, Copy)]
pub(crate) struct Stations {
    pub(crate) network: NetworkKind,
    rounds: u8,
    guests: StationSet,
    openings: StationSet,
}

impl Stations {
    /// What stands in a stations body; none where the body has another length, an unknown network, or a set with a bit
    /// above 9.
    pub(crate) fn read(body: &[u8]) -> Option<Stations>
        ensures { StationsRead body.now result }
    {
        let [code, rounds, a, b, c, d] = body else {
            return None;
        };
        let network = match code {
            1 => NetworkKind::Bag,
            2 => NetworkKind::Lanes,
            _ => return None,
        };
        let guests = u16::from_le_bytes([*a, *b]);
        let openings = u16::from_le_bytes([*c, *d]);
        if guests >= 1024 || openings >= 1024 {
            return None;
        }
        Some(Stations {
            network,
            rounds: *rounds,
            guests: StationSet::from(guests),
            openings: StationSet::from(openings),
        })
    }

    /// The setup with these rounds, guests and openings; refused where a rig can't have so many rounds.
    pub(crate) fn setup(&self) -> Result<Setup, SetupFault>
        requires { (self.now.guests < 1024) × (self.now.openings < 1024) }
        ensures fault { result_err result ≡ new_fault self.now.rounds }
        ensures rounds { IfOk result (λ s. s.rounds.count ≡ self.now.rounds) }
        ensures guests { IfOk result (λ s. members s.guests ≡ members self.now.guests) }
        ensures openings { IfOk result (λ s. members s.openings ≡ members self.now.openings) }
    {
        let mut setup = Setup::new(self.rounds)?;
        for station in 0..Setup::STATIONS as u8 {
            self.enter_if_guest(&mut setup, station)?;
            setup.enter_opening(station, self.openings.has(station) as u8)?;
        }
        Ok(setup)
    }

    // Enters a station as a guest, if it is to be one.
    fn enter_if_guest(&self, setup: &mut Setup, station: u8) -> Result<(), SetupFault>
        requires { station < 10 }
        ensures ok { IsOk result }
        ensures guests { members setup.new.guests ≡ with_guest (members self.now.guests station) station (members setup.old.guests) }
        ensures others { (setup.new.rounds ≡ setup.old.rounds) × (setup.new.openings ≡ setup.old.openings) }
    {
        if self.guests.has(station) {
            setup.enter_guest(station)?;
        }
        Ok(())
    }
}
