//! Plays until nothing is left to do.

use super::{message, set_up, threshold};
use acts::value::{Grade, Grading};
use coins::{Coin, SeedCoin, TableCoin};
use faults::both::Both;
use faults::listed::Listed;
use faults::rule::FaultRule;
use network::Network;
use network::bag::Bag;
use network::lanes::Lanes;
use rig::{Outcome, Rig, StationOutcome};
use stations::StationSet;
use std::process::Abort;

// Every station acts while it can, twelve messages come, and so on; answers how often, until a time without any. With
// losses, the fourth of each twelve is lost.
pub(super) fn play<F: FaultRule, N: Network, C: Coin>(
    rig: &mut Rig<F, N, C>,
    size: u8,
    loses: bool,
) -> Option<u16> {
    let mut hint = 5u8;
    for times in 0..2000 {
        if rest(rig, size) && rig.waiting() == 0 {
            return Some(times);
        }
        for place in 0..12 {
            if loses && place == 3 {
                let _ = rig.lose(hint);
            } else {
                let _ = rig.deliver(hint);
            }
            hint = hint.wrapping_add(37);
        }
    }
    None
}

// Lets every station act while it can, and answers whether none could.
fn rest<F: FaultRule, N: Network, C: Coin>(rig: &mut Rig<F, N, C>, size: u8) -> bool {
    let mut none = true;
    for station in 0..size {
        for _ in 0..200 {
            if rig.turn(station).is_err() {
                break;
            }
            none = false;
        }
    }
    none
}

// A guest prepares and proposes another value to each own station, 0, 1 and blank, in every stage of two rounds; it
// commits both bits.
pub(super) fn tell_everyone_another<F: FaultRule, N: Network, C: Coin>(
    rig: &mut Rig<F, N, C>,
    guest: u8,
) {
    for stage in 0..8 {
        for to in 0..3 {
            let _ = rig.send(message(guest, to, 1, stage, to));
            let _ = rig.send(message(guest, to, 2, stage, to));
        }
    }
    for to in 0..3 {
        let _ = rig.send(message(guest, to, 3, 0, 0));
        let _ = rig.send(message(guest, to, 3, 0, 1));
    }
}

// A station with these first gradings that decided a bit, and that had it at grade 2 in all the others of its rounds.
pub(super) fn finished(rounds: u8, first: Grading, bit: bool) -> Option<StationOutcome> {
    let mut gradings = [[None; 2]; 8];
    for round in 0..rounds.min(8) {
        gradings[round as usize] = [Some((Some(bit), Grade::Two)); 2];
    }
    gradings[0][0] = Some(first);
    Some(StationOutcome {
        stage: 4 * rounds.min(8),
        gradings,
        decision: Some(bit),
    })
}

// The outcomes of stations below n that all came to the same.
pub(super) fn same(outcome: Option<StationOutcome>, n: u8) -> [Option<StationOutcome>; 10] {
    let mut stations = [None; 10];
    for station in 0..n.min(10) {
        stations[station as usize] = outcome;
    }
    stations
}

// Four stations of which one may be a guest, two rounds, and a coin that is 1 in the first: how long they play,
// whether they are quiet then, and what they come to.
fn play_four<N: Network + Drop>(
    rt: &impl Abort,
    network: N,
    openings: &[u8],
    loses: bool,
) -> (Option<u16>, bool, Outcome) {
    let coin = TableCoin { table: 0b01 };
    let mut rig = set_up(rt, 2, &[], openings).open(threshold(rt, 4, 1, 1), network, coin);
    let times = play(&mut rig, 4, loses);
    (times, rig.is_quiet(), rig.close().1)
}

#[test]
fn four_stations_finish(rt: HostRuntime) {
    let (some, one) = ([0, 1, 3], [2]);
    for (openings, bit) in [(&some[..], true), (&one[..], false)] {
        let stations = same(finished(2, (Some(bit), Grade::Two), bit), 4);
        let outcome = Outcome {
            stations,
            posted: 276,
            missing: 0,
        };
        let bag = Bag::new(rt.alloc()).expect(&rt, "there is memory");
        assert_eq!(rt;
            play_four(&rt, bag, openings, false),
            (Some(24), true, outcome)
        );
        let lanes = Lanes::new(rt.alloc()).expect(&rt, "there is memory");
        assert_eq!(rt;
            play_four(&rt, lanes, openings, false),
            (Some(25), true, outcome)
        );
    }
}

// What a station came to that made only this first grading.
fn stuck(stage: u8, first: Option<Grading>) -> Option<StationOutcome> {
    let mut gradings = [[None; 2]; 8];
    gradings[0][0] = first;
    Some(StationOutcome {
        stage,
        gradings,
        decision: None,
    })
}

#[test]
fn losses_are_missing(rt: HostRuntime) {
    let first = Some((Some(true), Grade::Two));
    let mut stations = same(stuck(3, first), 4);
    stations[0] = stuck(2, first);
    let outcome = Outcome {
        stations,
        posted: 120,
        missing: 11,
    };
    let bag = Bag::new(rt.alloc()).expect(&rt, "there is memory");
    assert_eq!(rt;
        play_four(&rt, bag, &[0, 1, 3], true),
        (Some(11), true, outcome)
    );
    let mut stations = same(stuck(1, None), 4);
    stations[0] = stuck(0, None);
    let outcome = Outcome {
        stations,
        posted: 56,
        missing: 6,
    };
    let lanes = Lanes::new(rt.alloc()).expect(&rt, "there is memory");
    assert_eq!(rt;
        play_four(&rt, lanes, &[0, 1, 3], true),
        (Some(6), true, outcome)
    );
}

// The same with a guest, and a coin that is 1 in the second round.
fn play_with_guest<N: Network + Drop>(
    rt: &impl Abort,
    network: N,
    openings: &[u8],
) -> (u16, Option<u16>, bool, Outcome) {
    let coin = TableCoin { table: 0b10 };
    let mut rig = set_up(rt, 2, &[3], openings).open(threshold(rt, 4, 1, 1), network, coin);
    tell_everyone_another(&mut rig, 3);
    let sent = rig.waiting();
    let times = play(&mut rig, 4, false);
    (sent, times, rig.is_quiet(), rig.close().1)
}

pub(super) const ONE: Grading = (Some(true), Grade::Two);

const NOTHING: Grading = (None, Grade::Zero);

#[test]
fn a_guest_of_many_tongues_splits_nobody_over_a_bag(rt: HostRuntime) {
    let (some, all) = ([0, 2], [0, 1, 2]);
    let mut stations = same(finished(2, ONE, true), 3);
    let outcome = Outcome {
        stations,
        posted: 204,
        missing: 0,
    };
    let bag = Bag::new(rt.alloc()).expect(&rt, "there is memory");
    assert_eq!(rt;
        play_with_guest(&rt, bag, &all),
        (54, Some(25), true, outcome)
    );
    // Of these three one has 1 at a lower grade than the others, and the second grading has no bit.
    for (station, first) in [(0, ONE), (1, ONE), (2, (Some(true), Grade::One))] {
        let mut gradings = [[None; 2]; 8];
        gradings[0] = [Some(first), Some(NOTHING)];
        gradings[1] = [Some(NOTHING), Some(ONE)];
        stations[station] = Some(StationOutcome {
            stage: 8,
            gradings,
            decision: Some(true),
        });
    }
    let outcome = Outcome {
        stations,
        posted: 252,
        missing: 0,
    };
    let bag = Bag::new(rt.alloc()).expect(&rt, "there is memory");
    assert_eq!(rt;
        play_with_guest(&rt, bag, &some),
        (54, Some(27), true, outcome)
    );
}

#[test]
fn a_guest_of_many_tongues_splits_nobody_over_lanes(rt: HostRuntime) {
    let outcome = |first, bit, posted| Outcome {
        stations: same(finished(2, first, bit), 3),
        posted,
        missing: 0,
    };
    let lanes = Lanes::new(rt.alloc()).expect(&rt, "there is memory");
    let wanted = outcome(ONE, true, 204);
    assert_eq!(rt;
        play_with_guest(&rt, lanes, &[0, 1, 2]),
        (54, Some(23), true, wanted)
    );
    let lanes = Lanes::new(rt.alloc()).expect(&rt, "there is memory");
    let wanted = outcome(NOTHING, false, 216);
    assert_eq!(rt;
        play_with_guest(&rt, lanes, &[0, 2]),
        (54, Some(24), true, wanted)
    );
}

// The largest rig: ten stations, one of them a silent guest, and eight rounds; the coin is 1 in every other round.
fn play_ten<N: Network + Drop>(rt: &impl Abort, network: N) -> (Option<u16>, bool, Outcome) {
    let coin = TableCoin { table: 0b1010_1010 };
    let setup = set_up(rt, 8, &[9], &[0, 2, 3, 6, 7]);
    let mut rig = setup.open(threshold(rt, 10, 3, 3), network, coin);
    let times = play(&mut rig, 10, false);
    (times, rig.is_quiet(), rig.close().1)
}

#[test]
fn ten_stations_finish(rt: HostRuntime) {
    let agreed = |first, bit| Outcome {
        stations: same(finished(8, first, bit), 9),
        posted: 5940,
        missing: 0,
    };
    let outcome = agreed(NOTHING, false);
    let bag = Bag::new(rt.alloc()).expect(&rt, "there is memory");
    assert_eq!(rt; play_ten(&rt, bag), (Some(496), true, outcome));
    let outcome = agreed(ONE, true);
    let lanes = Lanes::new(rt.alloc()).expect(&rt, "there is memory");
    assert_eq!(rt; play_ten(&rt, lanes), (Some(495), true, outcome));
}

// Five stations under any rule, of which 3 is a silent guest; the others open with 1. One round, and a coin by a seed.
fn play_alike<F: FaultRule + Drop>(rt: &impl Abort, rule: F, lanes: Lanes) -> (bool, Outcome) {
    let setup = set_up(rt, 1, &[3], &[0, 1, 2, 4]);
    let mut rig = setup.open(rule, lanes, SeedCoin { seed: 1 });
    let _ = play(&mut rig, 5, false);
    (rig.is_quiet(), rig.close().1)
}

#[test]
fn stations_that_open_alike_decide_so_under_any_rule(rt: HostRuntime) {
    let wide = [
        StationSet::from(0b0011),
        StationSet::from(0b0100),
        StationSet::from(0b1000),
    ];
    let narrow = [StationSet::from(0b1000)];
    let mut stations = same(finished(1, ONE, true), 5);
    stations[3] = None;
    // Each prepares and proposes in four stages and commits, to five stations.
    let outcome = Outcome {
        stations,
        posted: 4 * 5 * 9,
        missing: 0,
    };
    let lanes = Lanes::new(rt.alloc()).expect(&rt, "there is memory");
    let listed = Listed::new(rt.alloc(), 5, &wide, &narrow).expect(&rt, "there is such a rule");
    assert_eq!(rt; play_alike(&rt, listed, lanes), (true, outcome));
    let lanes = Lanes::new(rt.alloc()).expect(&rt, "there is memory");
    let second = Listed::new(rt.alloc(), 5, &wide, &narrow).expect(&rt, "there is such a rule");
    let both = Both {
        first: threshold(&rt, 5, 1, 1),
        second,
    };
    assert_eq!(rt; play_alike(&rt, both, lanes), (true, outcome));
}
