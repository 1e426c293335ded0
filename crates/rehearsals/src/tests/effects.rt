//! What has an effect, and what has none.

use super::{ZEROS, message, set_up, threshold};
use crate::idle_cue::idle_cue;
use acts::act::Act;
use acts::value::{Grade, Value};
use network::bag::Bag;
use network::lanes::Lanes;
use rig::{Delivery, StationOutcome};

#[test]
fn a_station_opens_with_its_last_bit(rt: HostRuntime) {
    let mut setup = set_up(&rt, 1, &[3, 8], &[0, 1, 3, 9]);
    for (station, bit) in [(1, 0), (2, 0), (2, 1), (0, 1)] {
        assert_eq!(rt; setup.enter_opening(station, bit), Ok(()));
    }
    let bag = Bag::new(rt.alloc()).expect(&rt, "there is memory");
    let mut rig = setup.open(threshold(&rt, 5, 1, 1), bag, ZEROS);
    let stage = 0;
    for (station, value) in [
        (0, Value::One),
        (1, Value::Zero),
        (2, Value::One),
        (4, Value::Zero),
    ] {
        assert_eq!(rt; rig.turn(station), Ok(Act::Open { stage, value }));
    }
    assert_eq!(rt; rig.waiting(), 20);
}

#[test]
fn deliveries_say_whether_a_record_changed(rt: HostRuntime) {
    let bag = Bag::new(rt.alloc()).expect(&rt, "there is memory");
    let mut rig = set_up(&rt, 2, &[3], &[]).open(threshold(&rt, 4, 1, 1), bag, ZEROS);
    for (message, changed) in [
        (message(3, 0, 1, 7, 2), true),
        // Once more, and to another station.
        (message(3, 0, 1, 7, 2), false),
        (message(3, 1, 1, 7, 2), true),
        // Of two proposals the first counts.
        (message(3, 0, 2, 0, 1), true),
        (message(3, 0, 2, 0, 0), false),
        (message(3, 0, 3, 0, 1), true),
        (message(3, 0, 3, 0, 0), true),
        // Ignored: for its kind, stage, value, or a commit's value or stage.
        (message(3, 0, 4, 0, 0), false),
        (message(3, 0, 0, 0, 0), false),
        (message(3, 0, 1, 8, 0), false),
        (message(3, 0, 1, 0, 3), false),
        (message(3, 0, 3, 0, 2), false),
        (message(3, 0, 3, 1, 0), false),
        // To a guest.
        (message(3, 3, 1, 0, 0), false),
    ] {
        assert_eq!(rt; rig.send(message), Ok(()));
        assert_eq!(rt; rig.deliver(0), Ok(Delivery { message, changed }));
    }
    assert_eq!(rt; rig.is_quiet(), false);
}

#[test]
fn a_rig_of_guests_is_quiet(rt: HostRuntime) {
    let lanes = Lanes::new(rt.alloc()).expect(&rt, "there is memory");
    let mut rig = set_up(&rt, 1, &[0, 1], &[]).open(threshold(&rt, 2, 0, 0), lanes, ZEROS);
    assert_eq!(rt; rig.is_quiet(), true);
    assert_eq!(rt; rig.send(message(0, 1, 1, 0, 0)), Ok(()));
    assert_eq!(rt; rig.is_quiet(), true);
    assert_eq!(rt; rig.close().1.stations, [None; 10]);
}

#[test]
fn what_waits_between_own_stations_is_not_quiet(rt: HostRuntime) {
    let lanes = Lanes::new(rt.alloc()).expect(&rt, "there is memory");
    let mut rig = set_up(&rt, 1, &[1], &[]).open(threshold(&rt, 2, 0, 0), lanes, ZEROS);
    assert_eq!(rt; rig.turn(0).is_ok(), true);
    assert_eq!(rt; rig.is_quiet(), false);
    assert_eq!(rt; rig.lose(0), Ok(message(0, 0, 1, 0, 0)));
    // The message to the guest still waits.
    assert_eq!(rt; (rig.waiting(), rig.is_quiet()), (1, true));
}

#[test]
fn gradings_are_those_of_their_half(rt: HostRuntime) {
    let lanes = Lanes::new(rt.alloc()).expect(&rt, "there is memory");
    let mut rig = set_up(&rt, 1, &[1, 2], &[0]).open(threshold(&rt, 3, 0, 0), lanes, ZEROS);
    // Only all three stations are a quorum. Both guests stand for 1, but that in stage 1 one of them proposes blank.
    for (stage, value) in [(0, 1), (1, 1), (1, 2), (2, 1), (3, 1)] {
        for sender in [1, 2] {
            assert_eq!(rt; rig.send(message(sender, 0, 1, stage, value)), Ok(()));
        }
    }
    for (sender, stage, value) in [
        (1, 0, 1),
        (2, 0, 1),
        (1, 1, 1),
        (2, 1, 2),
        (1, 2, 1),
        (2, 2, 1),
        (1, 3, 1),
        (2, 3, 1),
    ] {
        assert_eq!(rt; rig.send(message(sender, 0, 2, stage, value)), Ok(()));
    }
    assert_eq!(rt; rig.grading(0, 0, 0), Ok(None));
    for _ in 0..100 {
        let _ = rig.turn(0);
        let _ = rig.deliver(0);
    }
    let (first, second) = ((Some(true), Grade::One), (Some(true), Grade::Two));
    assert_eq!(rt; rig.grading(0, 0, 0), Ok(Some(first)));
    assert_eq!(rt; rig.grading(0, 0, 1), Ok(Some(second)));
    let mut gradings = [[None; 2]; 8];
    gradings[0] = [Some(first), Some(second)];
    let outcome = StationOutcome {
        stage: 4,
        gradings,
        decision: rig.decision(0).expect(&rt, "station 0 is own"),
    };
    assert_eq!(rt; outcome.decision, Some(true));
    assert_eq!(rt; rig.close().1.stations[0], Some(outcome));
}

#[test]
fn an_idle_cue_comes_to_nothing(rt: HostRuntime) {
    let bag = Bag::new(rt.alloc()).expect(&rt, "there is memory");
    let setup = set_up(&rt, 8, &[1], &[0, 2]);
    let outcome = idle_cue(setup, threshold(&rt, 3, 0, 0), bag, ZEROS).1;
    let fresh = StationOutcome {
        stage: 0,
        gradings: [[None; 2]; 8],
        decision: None,
    };
    let mut stations = [None; 10];
    stations[0] = Some(fresh);
    stations[2] = Some(fresh);
    assert_eq!(rt; outcome.stations, stations);
    assert_eq!(rt; (outcome.posted, outcome.missing), (0, 0));
}
