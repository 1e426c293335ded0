//! A bag that is lent to a rig.

use super::plays::{ONE, finished, play, same, tell_everyone_another};
use super::{message, set_up, threshold};
use coins::TableCoin;
use network::Network;
use network::bag::Bag;
use rig::Outcome;
use std::process::Abort;

// Four stations with a guest, two rounds: how long they play, and what they come to. At the end the guest sends each
// own station one message more.
fn play_over<N: Network + Drop>(rt: &impl Abort, network: N) -> (Option<u16>, Outcome) {
    let coin = TableCoin { table: 0b10 };
    let mut rig = set_up(rt, 2, &[3], &[0, 1, 2]).open(threshold(rt, 4, 1, 1), network, coin);
    tell_everyone_another(&mut rig, 3);
    let times = play(&mut rig, 4, false);
    for to in 0..3 {
        assert_eq!(rt; rig.send(message(3, to, 9, 0, 0)), Ok(()));
    }
    (times, rig.close().1)
}

#[test]
fn a_lent_bag_is_there_after_a_play(rt: HostRuntime) {
    let outcome = Outcome {
        stations: same(finished(2, ONE, true), 3),
        posted: 204,
        missing: 0,
    };
    let mut bag = Bag::new(rt.alloc()).expect(&rt, "there is memory");
    // What is left of a play goes when the next is opened.
    for _ in 0..2 {
        assert_eq!(rt; play_over(&rt, &mut bag), (Some(25), outcome));
        assert_eq!(rt; bag.count(), 3);
    }
    for to in [0, 2, 1] {
        assert_eq!(rt; bag.take(0), Some(message(3, to, 9, 0, 0)));
    }
    assert_eq!(rt; bag.take(0), None);
}
