//! A rig.

ghost use Rattle.std.specs.Prelude.{◌≡◌, ◌≤◌, ◌*◌, ◌+◌, ◌^◌};
ghost use Rattle.agreement.specs.Said.{said_by_all};
ghost use Rattle.agreement.specs.Rig.{Opened};
ghost use Rattle.std.specs.Result.{result_err};
ghost use Rattle.rig.specs.Calls.{station_fault};
ghost use Rattle.rig.specs.Tables.{station_in};
ghost use Rattle.agreement.specs.Station.{is_own};
ghost use Rattle.rig.specs.Settings.{setting_of, among, count_between};

mod calls;
mod questions;

use crate::fault::CallFault;
use crate::outcome::Outcome;
use crate::setup::Setup;
use crate::table::StationTable;
use agreement::Message;
pub use calls::Delivery;
use coins::Coin;
use faults::rule::FaultRule;
use network::Network;
use stations::StationSet;

/// n stations round one cue, the network that carries their messages, and a coin.
#[derive(Drop)]
pub struct Rig<F: FaultRule, N: Network, C: Coin> {
    rule: F,
    network: N,
    coin: C,
    setup: Setup,
    stations: StationTable,
    /// The message delivered last.
    last: Option<Message>,
    /// How many messages turns handed to the network.
    posted: u16,
    /// How many from own to own stations were turned away in a turn or lost; it stops at 4,294,967,295.
    missing: u32,
    /// How many from own to own stations wait.
    under_way: u16,
    // Turns posted one message to each station for each thing that was said.
    ghost posted_is: { posted ≡ (F.families rule).n * said_by_all (F.families rule).n (4 * setup.rounds.count) (station_in stations) },
    // `under_way` is how many messages between own stations wait.
    ghost under_way_is: { under_way ≡ count_between (is_own (setting_of (F.families rule) setup (C.bits coin))) (N.net.waiting network) },
    // Turns posted every one of them.
    ghost under_way_posted: { under_way ≤ posted },
}

impl Setup {
    ghost use Rattle.rig.specs.Rigs.{setting, view};

    /// Opens a rig, of as many stations as the rule has, over a network that is cleared. What was entered for stations
    /// from the rule's size on, and guests' bits, have no effect.
    pub fn open<F: FaultRule, N: Network, C: Coin>(
        self,
        rule: F,
        mut network: N,
        coin: C,
    ) -> Rig<F, N, C>
        ensures opened { Opened N.net (setting result) network (view result) }
        ensures rule { result.rule ≡ rule }
        ensures coin { result.coin ≡ coin }
        ensures setup { result.setup ≡ self }
        ensures floor { N.floor result.network ≡ N.floor network }
    {
        network.clear();
        let stations = StationTable::new(self.opening_with_1(&rule));
        Rig {
            rule,
            network,
            coin,
            setup: self,
            stations,
            last: None,
            posted: 0,
            missing: 0,
            under_way: 0,
        }
    }
}

impl<F: FaultRule, N: Network, C: Coin> Rig<F, N, C> {
    ghost use Rattle.rig.specs.Rigs.{setting, view};

    // The own stations.
    fn own(&self) -> StationSet
        ensures { among result ≡ is_own (setting self.now) }
    {
        self.setup.own(&self.rule)
    }

    // Refuses a station that is not an own station of the rig.
    fn check_own(&self, station: u8) -> Result<(), CallFault>
        ensures { result_err result ≡ station_fault (setting self.now) station }
    {
        if station >= self.rule.size() {
            return Err(CallFault::NoStation);
        }
        if self.setup.guests.has(station) {
            return Err(CallFault::Guest);
        }
        Ok(())
    }
}

impl<F: FaultRule + Drop, N: Network, C: Coin + Drop> Rig<F, N, C> {
    ghost use Rattle.rig.specs.Rigs.{setting, view};
    ghost use Rattle.agreement.specs.Station.{size};
    ghost use Rattle.rig.specs.Outcomes.{Tells};

    /// Closes the rig, and gives back its network and what the rig came to. Its rule and its coin are let go.
    pub fn close(self) -> (N, Outcome)
        ensures network { result.0 ≡ self.network }
        ensures outcome { Tells (setting self) (view self) result.1 }
        ensures bound { result.1.posted ≤ size (setting self).rules ^ 2 * (16 * (setting self).rounds + 1) }
    {
        let outcome = Outcome {
            stations: self.stations.outcomes(self.own(), self.setup.rounds),
            posted: self.posted,
            missing: self.missing,
        };
        (self.network, outcome)
    }
}
