//! That a station does what the protocol page says, on cases worked by hand. Most have the rule of four stations of which one
//! may be a guest: two stations are blocking, three are a quorum.

use crate::station::Station;
use acts::act::{Act, Turn};
use acts::payload::Payload;
use acts::rounds::Rounds;
use acts::value::{Grade, Grading, Value, ValueSet};
use agreement::Message;
use coins::TableCoin;
use faults::threshold::Threshold;
use std::process::Abort;
use std::test::Fail;

// An own station with what it goes by.
#[derive(Clone, Copy)]
struct Own {
    station: Station,
    rule: Threshold,
    coin: TableCoin,
    rounds: Rounds,
}

impl Own {
    fn new(opening: bool, rule: Threshold, rounds: Rounds, table: u8) -> Own {
        Own {
            station: Station::new(opening),
            rule,
            coin: TableCoin { table },
            rounds,
        }
    }

    fn hear(&mut self, sender: u8, kind: u8, stage: u8, value: u8) -> bool {
        let message = Message {
            sender,
            addressee: 0,
            kind,
            stage,
            value,
        };
        self.station.hear(&self.rule, self.rounds, message)
    }

    // Hears the same from some senders.
    fn hear_all(&mut self, senders: &[u8], kind: u8, stage: u8, value: u8) {
        for sender in senders {
            self.hear(*sender, kind, stage, value);
        }
    }

    fn turn(&mut self) -> Option<Turn> {
        self.station.turn(&self.rule, &self.coin, self.rounds)
    }

    // Takes turns until a stage is closed, and answers its proposal set.
    fn close_next(&mut self) -> Option<ValueSet> {
        for _ in 0..10 {
            if let Act::Close { values, .. } = self.turn()?.act {
                return Some(values);
            }
        }
        None
    }

    // Closes a stage in which everybody prepared every value, and three proposed these.
    fn close_with(&mut self, stage: u8, proposed: [u8; 3]) -> Option<ValueSet> {
        for value in 0..3 {
            self.hear_all(&[0, 1, 2, 3], 1, stage, value);
        }
        for (sender, value) in proposed.into_iter().enumerate() {
            self.hear(sender as u8, 2, stage, value);
        }
        self.close_next()
    }
}

fn two_rounds(rt: &impl Abort) -> Rounds {
    Rounds::new(2).expect(rt, "a rig can have two rounds")
}

fn open(stage: u8, value: Value) -> Option<Turn> {
    Some(Turn {
        act: Act::Open { stage, value },
        says: Some(Payload::Prepare { stage, value }),
    })
}

fn join(stage: u8, value: Value) -> Option<Turn> {
    Some(Turn {
        act: Act::Join { stage, value },
        says: Some(Payload::Prepare { stage, value }),
    })
}

fn admit(stage: u8, value: Value, is_first: bool) -> Option<Turn> {
    Some(Turn {
        act: Act::Admit { stage, value },
        says: is_first.then_some(Payload::Propose { stage, value }),
    })
}

fn close(stage: u8, values: ValueSet, commits: Option<bool>) -> Option<Turn> {
    Some(Turn {
        act: Act::Close { stage, values },
        says: commits.map(|bit| Payload::Commit { bit }),
    })
}

fn decide(bit: bool) -> Option<Turn> {
    Some(Turn {
        act: Act::Decide { bit },
        says: None,
    })
}

#[test]
fn a_station_alone_agrees_with_itself(rt: HostRuntime) -> Result<(), Fail> {
    let rounds = Rounds::new(1).expect(&rt, "a rig can have one round");
    let mut own = Own::new(true, Threshold::new(1, 0, 0)?, rounds, 0);
    for stage in 0..4 {
        assert_eq!(rt; own.station.stage(), stage);
        assert_eq!(rt; own.station.decision(), None);
        assert_eq!(rt; own.turn(), open(stage, Value::One));
        assert_eq!(rt; own.turn(), None);
        assert!(rt; own.hear(0, 1, stage, 1));
        assert_eq!(rt; own.turn(), admit(stage, Value::One, true));
        assert_eq!(rt; own.turn(), None);
        assert!(rt; own.hear(0, 2, stage, 1));
        let commits = if stage == 3 { Some(true) } else { None };
        assert_eq!(rt; own.turn(), close(stage, ValueSet::Bit(true), commits));
    }
    assert_eq!(rt; own.turn(), None);
    assert!(rt; own.hear(0, 3, 0, 1));
    assert_eq!(rt; own.station.decision(), None);
    assert_eq!(rt; own.turn(), decide(true));
    assert_eq!(rt; own.turn(), None);
    assert_eq!(rt; own.station.stage(), 4);
    assert_eq!(rt; own.station.decision(), Some(true));
    let gradings = [0, 1, 2, 3, 4, 255].map(|stage| own.station.grading(stage));
    let sure = Some((Some(true), Grade::Two));
    assert_eq!(rt; gradings, [None, sure, None, sure, None, None]);
    Ok(())
}

#[test]
fn rules_are_tried_in_order(rt: HostRuntime) -> Result<(), Fail> {
    let four = Threshold::new(4, 1, 1)?;
    let mut own = Own::new(false, four, two_rounds(&rt), 0);
    // Rule 1 before 2, and no joining by one station alone.
    assert!(rt; own.hear(1, 1, 0, 1));
    assert_eq!(rt; own.turn(), open(0, Value::Zero));
    assert_eq!(rt; own.turn(), None);
    assert!(rt; own.hear(2, 1, 0, 1));
    assert!(rt; own.hear(1, 1, 0, 2));
    assert!(rt; own.hear(2, 1, 0, 2));
    // Rule 2 by values, ascending, and before 3.
    assert!(rt; own.hear(3, 1, 0, 2));
    assert_eq!(rt; own.turn(), join(0, Value::One));
    assert_eq!(rt; own.turn(), join(0, Value::Blank));
    assert_eq!(rt; own.turn(), admit(0, Value::Blank, true));
    assert_eq!(rt; own.turn(), None);
    // Only the first admitted value is proposed.
    assert!(rt; own.hear(3, 1, 0, 1));
    assert_eq!(rt; own.turn(), admit(0, Value::One, false));
    // Rule 4 by a quorum of admitted proposals, and not by three proposals.
    own.hear_all(&[1, 2], 2, 0, 1);
    assert!(rt; own.hear(3, 2, 0, 0));
    assert_eq!(rt; own.turn(), None);
    // Rule 5 by two, and after the others.
    own.hear_all(&[2, 3], 3, 0, 1);
    assert!(rt; own.hear(0, 2, 0, 2));
    assert_eq!(rt; own.turn(), close(0, ValueSet::BitAndBlank(true), None));
    assert_eq!(rt; own.turn(), open(1, Value::Blank));
    assert_eq!(rt; own.turn(), decide(true));
    assert_eq!(rt; own.turn(), None);
    Ok(())
}

#[test]
fn earlier_stages_are_served_first(rt: HostRuntime) -> Result<(), Fail> {
    let four = Threshold::new(4, 1, 1)?;
    let mut own = Own::new(true, four, two_rounds(&rt), 0);
    own.hear_all(&[0, 1, 2], 1, 0, 1);
    own.hear_all(&[0, 1, 2], 2, 0, 1);
    assert_eq!(rt; own.close_next(), Some(ValueSet::Bit(true)));
    own.hear_all(&[1, 2, 3], 1, 0, 2);
    own.hear_all(&[0, 2, 3], 1, 0, 0);
    own.hear_all(&[2, 3], 1, 1, 0);
    own.hear_all(&[1, 3], 3, 0, 1);
    // Nothing is open yet in stage 1. Joins come before admits, both by values.
    assert_eq!(rt; own.turn(), join(0, Value::Zero));
    assert_eq!(rt; own.turn(), join(0, Value::Blank));
    assert_eq!(rt; own.turn(), admit(0, Value::Zero, false));
    assert_eq!(rt; own.turn(), admit(0, Value::Blank, false));
    assert_eq!(rt; own.turn(), open(1, Value::One));
    assert_eq!(rt; own.turn(), join(1, Value::Zero));
    assert_eq!(rt; own.turn(), decide(true));
    assert_eq!(rt; own.turn(), None);
    // A decision stays.
    own.hear_all(&[0, 1], 3, 0, 0);
    assert_eq!(rt; own.turn(), None);
    assert_eq!(rt; own.station.decision(), Some(true));
    Ok(())
}

#[test]
fn zero_is_decided_before_one(rt: HostRuntime) -> Result<(), Fail> {
    let four = Threshold::new(4, 1, 1)?;
    let mut own = Own::new(true, four, two_rounds(&rt), 0);
    assert_eq!(rt; own.turn(), open(0, Value::One));
    own.hear_all(&[0, 1, 2, 3], 3, 0, 1);
    own.hear_all(&[2], 3, 0, 0);
    let mut other = own.station;
    assert_eq!(rt; other.turn(&own.rule, &own.coin, own.rounds), decide(true));
    own.hear_all(&[1], 3, 0, 0);
    assert_eq!(rt; own.turn(), decide(false));
    assert_eq!(rt; own.turn(), None);
    Ok(())
}

// Closes the stages before this one with blank alone, so that the coin is the input of quarter 2, and blank that of
// quarters 1 and 3; then this one with the values, and answers the next input and the grading.
fn closed_in(own: &mut Own, stage: u8, proposed: [u8; 3]) -> Option<(Value, Option<Grading>)> {
    for earlier in 0..stage {
        own.close_with(earlier, [2, 2, 2])?;
    }
    own.close_with(stage, proposed)?;
    let Act::Open { value, .. } = own.turn()?.act else {
        return None;
    };
    Some((value, own.station.grading(stage)))
}

#[test]
fn closing_goes_by_quarter_and_set(rt: HostRuntime) -> Result<(), Fail> {
    let four = Threshold::new(4, 1, 1)?;
    let (zero, one, blank) = (Value::Zero, Value::One, Value::Blank);
    let sure = |bit| (Some(bit), Grade::Two);
    let likely = |bit| (Some(bit), Grade::One);
    let none = (None, Grade::Zero);
    // For each set: its grading, and the next input after each quarter. The coin is 1 in round 0, so that is also the
    // input of quarter 2.
    for (proposed, grading, next) in [
        ([0, 0, 0], sure(false), [zero, zero, zero, zero]),
        ([1, 1, 1], sure(true), [one, one, one, one]),
        ([0, 2, 0], likely(false), [blank, one, blank, zero]),
        ([2, 1, 1], likely(true), [blank, one, blank, one]),
        ([2, 2, 2], none, [blank, one, blank, one]),
        ([0, 1, 0], none, [blank, one, blank, one]),
        ([2, 1, 0], none, [blank, one, blank, one]),
    ] {
        for stage in 0..4 {
            let mut own = Own::new(false, four, two_rounds(&rt), 1);
            let want = if stage % 2 == 1 { Some(grading) } else { None };
            assert_eq!(rt;
                closed_in(&mut own, stage, proposed),
                Some((next[stage as usize % 4], want))
            );
        }
    }
    Ok(())
}

#[test]
fn each_round_has_its_coin(rt: HostRuntime) -> Result<(), Fail> {
    let four = Threshold::new(4, 1, 1)?;
    let (zero, one) = (Value::Zero, Value::One);
    // After quarter 1 of round 0 or 1, under a coin of 1 in round 1 alone: the coin where no bit is alone.
    for (stage, proposed, next) in [
        (1, [1, 1, 1], one),
        (1, [1, 2, 1], zero),
        (1, [0, 1, 2], zero),
        (5, [0, 0, 0], zero),
        (5, [0, 2, 0], one),
        (5, [2, 2, 2], one),
    ] {
        let mut own = Own::new(true, four, two_rounds(&rt), 2);
        let input = closed_in(&mut own, stage, proposed).map(|(value, _)| value);
        assert_eq!(rt; input, Some(next));
    }
    Ok(())
}

#[test]
fn quarter_2s_input_is_held(rt: HostRuntime) -> Result<(), Fail> {
    let four = Threshold::new(4, 1, 1)?;
    // Quarter 2 has input 0, quarter 3 blank, and the coin is 1.
    for proposed in [[2, 2, 2], [0, 1, 1], [2, 1, 0]] {
        let mut own = Own::new(true, four, two_rounds(&rt), 1);
        for (stage, values) in [[2, 2, 2], [0, 0, 0], [2, 2, 2], proposed]
            .into_iter()
            .enumerate()
        {
            assert!(rt; own.close_with(stage as u8, values).is_some());
        }
        assert_eq!(rt; own.station.grading(3), Some((None, Grade::Zero)));
        assert_eq!(rt; own.turn(), open(4, Value::Zero));
    }
    Ok(())
}

#[test]
fn a_bit_is_committed_once(rt: HostRuntime) -> Result<(), Fail> {
    let four = Threshold::new(4, 1, 1)?;
    let mut own = Own::new(false, four, two_rounds(&rt), 0);
    for stage in 0..8 {
        for value in 0..3 {
            own.hear_all(&[0, 1, 2, 3], 1, stage, value);
        }
        // Each half ends with a bit alone: 1 in the first round, 0 in the second.
        let bit = if stage < 4 { 1 } else { 0 };
        own.hear_all(&[0, 1, 2], 2, stage, bit);
        for _ in 0..6 {
            assert!(rt; own.turn().is_some());
        }
        let commits = if stage == 3 { Some(true) } else { None };
        assert_eq!(rt; own.turn(), close(stage, ValueSet::Bit(bit == 1), commits));
    }
    assert_eq!(rt; own.turn(), None);
    assert_eq!(rt; own.station.grading(7), Some((Some(false), Grade::Two)));
    Ok(())
}

#[test]
fn a_finished_station_serves_the_others(rt: HostRuntime) -> Result<(), Fail> {
    let four = Threshold::new(4, 1, 1)?;
    let mut own = Own::new(true, four, two_rounds(&rt), 0);
    for stage in 0..8 {
        own.hear_all(&[0, 1, 2], 1, stage, 1);
        own.hear_all(&[0, 1, 2], 2, stage, 1);
        assert_eq!(rt; own.close_next(), Some(ValueSet::Bit(true)));
    }
    assert_eq!(rt; own.station.stage(), 8);
    assert_eq!(rt; own.turn(), None);
    own.hear_all(&[1, 2, 3], 1, 6, 0);
    own.hear_all(&[1, 2], 3, 0, 1);
    assert_eq!(rt; own.turn(), join(6, Value::Zero));
    assert_eq!(rt; own.turn(), admit(6, Value::Zero, false));
    assert_eq!(rt; own.turn(), decide(true));
    assert_eq!(rt; own.turn(), None);
    Ok(())
}

#[test]
fn a_guest_may_contradict_itself(rt: HostRuntime) -> Result<(), Fail> {
    let four = Threshold::new(4, 1, 1)?;
    let mut own = Own::new(true, four, two_rounds(&rt), 0);
    // Station 3 prepares both bits, which counts for both, and proposes one after the other, which doesn't.
    assert!(rt; own.hear(3, 1, 0, 0));
    assert!(rt; own.hear(3, 1, 0, 1));
    assert!(rt; own.hear(3, 2, 0, 0));
    assert!(rt; !own.hear(3, 2, 0, 1));
    // With one more that prepares 0 it's joined. With two more that prepare and propose 1 the stage isn't closed, since
    // what station 3 proposed isn't admitted.
    assert!(rt; own.hear(2, 1, 0, 0));
    own.hear_all(&[0, 1], 1, 0, 1);
    own.hear_all(&[0, 1], 2, 0, 1);
    assert_eq!(rt; own.turn(), open(0, Value::One));
    assert_eq!(rt; own.turn(), join(0, Value::Zero));
    assert_eq!(rt; own.turn(), admit(0, Value::One, true));
    assert_eq!(rt; own.turn(), None);
    assert!(rt; own.hear(2, 2, 0, 1));
    assert_eq!(rt; own.turn(), close(0, ValueSet::Bit(true), None));
    Ok(())
}

#[test]
fn repeated_and_ignored_messages_change_nothing(rt: HostRuntime) -> Result<(), Fail> {
    let four = Threshold::new(4, 1, 1)?;
    let mut own = Own::new(true, four, two_rounds(&rt), 0);
    assert!(rt; own.hear(3, 1, 0, 0));
    assert!(rt; own.hear(3, 2, 0, 0));
    assert!(rt; own.hear(3, 3, 0, 0));
    assert!(rt; own.hear(3, 3, 0, 1));
    let before = own.station;
    for (sender, kind, stage, value) in [
        (3, 1, 0, 0),
        (3, 2, 0, 0),
        (3, 2, 0, 1),
        (3, 2, 0, 2),
        (3, 3, 0, 0),
        (3, 0, 0, 0),
        (3, 4, 0, 0),
        (3, 1, 0, 3),
        (3, 2, 1, 255),
        (3, 3, 0, 2),
        (3, 1, 8, 0),
        (3, 2, 255, 0),
        (3, 3, 1, 0),
        (4, 1, 0, 0),
        (255, 1, 0, 0),
    ] {
        assert!(rt; !own.hear(sender, kind, stage, value));
        assert_eq!(rt; own.station, before);
    }
    Ok(())
}
