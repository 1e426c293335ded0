//! What is posted and what is missing, on networks that are full and that lose messages.

use super::{ZEROS, message, set_up, threshold};
use acts::act::Act;
use acts::value::Value;
use network::Network;
use network::bag::Bag;
use network::lanes::Lanes;

#[test]
fn a_turn_on_a_full_bag_stands(rt: HostRuntime) {
    let bag = Bag::new(rt.alloc()).expect(&rt, "there is memory");
    let rule = threshold(&rt, 4, 1, 1);
    let mut rig = set_up(&rt, 1, &[2], &[0]).open(rule, bag, ZEROS);
    for _ in 0..4095 {
        assert_eq!(rt; rig.send(message(2, 1, 0, 0, 0)), Ok(()));
    }
    // The message to station 0 waits, those to 1 and 3 are missing, and that to the guest is not.
    let (stage, value) = (0, Value::One);
    assert_eq!(rt; rig.turn(0), Ok(Act::Open { stage, value }));
    assert_eq!(rt; (rig.posted(), rig.missing(), rig.waiting()), (4, 2, 4096));
    // All four are turned away, and the act stands.
    let value = Value::Zero;
    assert_eq!(rt; rig.turn(1), Ok(Act::Open { stage, value }));
    assert_eq!(rt; (rig.posted(), rig.missing(), rig.waiting()), (8, 5, 4096));
    assert_eq!(rt; rig.turn(1).is_err(), true);
    assert_eq!(rt; rig.is_quiet(), false);
    // The last place of the bag has the message to station 0.
    assert_eq!(rt;
        rig.deliver(255).map(|d| d.message),
        Ok(message(2, 1, 0, 0, 0))
    );
    assert_eq!(rt; rig.waiting(), 4095);
}

#[test]
fn the_rest_is_posted_past_a_full_lane(rt: HostRuntime) {
    let lanes = Lanes::new(rt.alloc()).expect(&rt, "there is memory");
    let rule = threshold(&rt, 5, 1, 1);
    let mut rig = set_up(&rt, 1, &[4], &[]).open(rule, lanes, ZEROS);
    for _ in 0..40 {
        assert_eq!(rt; rig.send(message(4, 1, 0, 0, 0)), Ok(()));
        assert_eq!(rt; rig.send(message(4, 4, 0, 0, 0)), Ok(()));
    }
    let (stage, value) = (0, Value::Zero);
    assert_eq!(rt; rig.turn(3), Ok(Act::Open { stage, value }));
    assert_eq!(rt; (rig.posted(), rig.missing(), rig.waiting()), (5, 1, 83));
    for addressee in [0, 2, 3] {
        let came = rig.deliver(addressee).map(|d| (d.message, d.changed));
        assert_eq!(rt; came, Ok((message(3, addressee, 1, 0, 0), true)));
    }
}

#[test]
fn lost_messages_are_missing_between_own_stations(rt: HostRuntime) {
    let lanes = Lanes::new(rt.alloc()).expect(&rt, "there is memory");
    let rule = threshold(&rt, 4, 1, 1);
    let mut rig = set_up(&rt, 1, &[2], &[]).open(rule, lanes, ZEROS);
    assert_eq!(rt; rig.turn(1).is_ok(), true);
    assert_eq!(rt; rig.send(message(2, 3, 1, 0, 0)), Ok(()));
    assert_eq!(rt; rig.lose(0), Ok(message(1, 0, 1, 0, 0)));
    assert_eq!(rt; rig.missing(), 1);
    // To a guest, and from one.
    assert_eq!(rt; rig.lose(2), Ok(message(1, 2, 1, 0, 0)));
    assert_eq!(rt; rig.lose(3), Ok(message(1, 3, 1, 0, 0)));
    assert_eq!(rt; rig.lose(3), Ok(message(2, 3, 1, 0, 0)));
    assert_eq!(rt; rig.missing(), 2);
    assert_eq!(rt; rig.lose(1), Ok(message(1, 1, 1, 0, 0)));
    assert_eq!(rt; (rig.posted(), rig.missing(), rig.waiting()), (4, 3, 0));
}

#[test]
fn opening_clears_the_network(rt: HostRuntime) {
    let mut bag = Bag::new(rt.alloc()).expect(&rt, "there is memory");
    for _ in 0..3 {
        assert_eq!(rt; bag.post(message(0, 0, 1, 0, 0)), Ok(()));
    }
    let mut rig = set_up(&rt, 1, &[], &[]).open(threshold(&rt, 1, 0, 0), bag, ZEROS);
    assert_eq!(rt; (rig.posted(), rig.missing(), rig.waiting()), (0, 0, 0));
    assert_eq!(rt; rig.turn(0).is_ok(), true);
    let (bag, outcome) = rig.close();
    assert_eq!(rt; bag.count(), 1);
    assert_eq!(rt; (outcome.posted, outcome.missing), (1, 0));
}
