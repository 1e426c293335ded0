//! A cue in which nothing is called.

ghost use Rattle.std.specs.Prelude.{◌≡◌, ◌&&◌};
ghost use Rattle.agreement.specs.Station.{fresh_station, is_own};
ghost use Rattle.rig.specs.Settings.{setting_of};
ghost use Rattle.rig.specs.Outcomes.{TellsAll};

use coins::Coin;
use faults::rule::FaultRule;
use network::Network;
use rig::{Outcome, Setup};

/// Opens a rig and closes it: setup and rig each lie in a place, out of which they are taken to be used up.
pub fn idle_cue<F: FaultRule + Drop, N: Network + Drop, C: Coin + Drop>(
    setup: Setup,
    rule: F,
    network: N,
    coin: C,
) -> (N, Outcome)
    ensures network { result.0 ≡ N.net.cleared network }
    ensures stations { let g = setting_of (F.families rule) setup (C.bits coin) in
        TellsAll (is_own g) g.rounds (λ i. fresh_station (is_own g i && g.opens i)) result.1.stations }
    ensures posted { result.1.posted ≡ 0 }
    ensures missing { result.1.missing ≡ 0 }
{
    let mut setup = Some(setup);
    let opened = setup.take().unwrap().open(rule, network, coin);
    let mut rig = Some(opened);
    rig.take().unwrap().close()
}
