//! The gate: shut and open, alone and under a rig.

use super::plays::{ONE, finished, play, same};
use super::{ZEROS, message, set_up, threshold};
use crate::gate::Gate;
use acts::act::Act;
use acts::value::Value;
use coins::TableCoin;
use network::{Network, TurnedAway};
use rig::{CallFault, Outcome};

#[test]
fn a_gate_shuts_at_40_and_opens_below_16(rt: HostRuntime) {
    let mut gate = Gate::new(rt.alloc()).expect(&rt, "there is memory");
    for k in 0..40 {
        assert_eq!(rt; gate.post(message(k, 0, 1, 0, 0)), Ok(()));
    }
    assert_eq!(rt; gate.post(message(40, 0, 1, 0, 0)), Err(TurnedAway));
    for k in 0..24 {
        assert_eq!(rt; gate.take(k), Some(message(k, 0, 1, 0, 0)));
        assert_eq!(rt; gate.post(message(40, 0, 1, 0, 0)), Err(TurnedAway));
    }
    assert_eq!(rt; gate.count(), 16);
    assert_eq!(rt; gate.take(255), Some(message(24, 0, 1, 0, 0)));
    // It is open from here on, until 40 wait again.
    for k in 40..65 {
        assert_eq!(rt; gate.post(message(k, 0, 1, 0, 0)), Ok(()));
    }
    assert_eq!(rt; gate.count(), 40);
    assert_eq!(rt; gate.post(message(65, 0, 1, 0, 0)), Err(TurnedAway));
    gate.clear();
    assert_eq!(rt; (gate.count(), gate.take(0)), (0, None));
    for _ in 0..17 {
        assert_eq!(rt; gate.post(message(0, 0, 1, 0, 0)), Ok(()));
    }
}

#[test]
fn a_shut_gate_refuses_guests_and_loses_turns(rt: HostRuntime) {
    let gate = Gate::new(rt.alloc()).expect(&rt, "there is memory");
    let mut rig = set_up(&rt, 1, &[3], &[]).open(threshold(&rt, 4, 1, 1), gate, ZEROS);
    let told = message(3, 1, 0, 0, 0);
    for _ in 0..40 {
        assert_eq!(rt; rig.send(told), Ok(()));
    }
    assert_eq!(rt; rig.send(told), Err(CallFault::TurnedAway));
    for hint in 0..24 {
        assert_eq!(rt; rig.deliver(hint).map(|d| d.message), Ok(told));
    }
    // With 16 messages it is shut still: a guest's are refused, and those of a turn to own stations are missing.
    assert_eq!(rt; rig.send(told), Err(CallFault::TurnedAway));
    let (stage, value) = (0, Value::Zero);
    assert_eq!(rt; rig.turn(0), Ok(Act::Open { stage, value }));
    assert_eq!(rt; (rig.posted(), rig.missing(), rig.waiting()), (4, 3, 16));
    // With 15 it is open, and stays so.
    assert_eq!(rt; rig.lose(0), Ok(told));
    assert_eq!(rt; rig.send(told), Ok(()));
    assert_eq!(rt; rig.turn(1), Ok(Act::Open { stage, value }));
    assert_eq!(rt; rig.send(told), Ok(()));
    assert_eq!(rt; (rig.posted(), rig.missing(), rig.waiting()), (8, 3, 21));
}

// Five stations and two rounds. While the gate is shut seven messages are turned away; it opens, and all decide alike.
#[test]
fn five_stations_finish_past_a_gate_that_shuts(rt: HostRuntime) {
    let gate = Gate::new(rt.alloc()).expect(&rt, "there is memory");
    let coin = TableCoin { table: 0b01 };
    let mut rig = set_up(&rt, 2, &[], &[0, 1]).open(threshold(&rt, 5, 1, 1), gate, coin);
    assert_eq!(rt; play(&mut rig, 5, false), Some(38));
    assert_eq!(rt; rig.is_quiet(), true);
    let outcome = Outcome {
        stations: same(finished(2, ONE, true), 5),
        posted: 450,
        missing: 7,
    };
    assert_eq!(rt; rig.close().1, outcome);
}
