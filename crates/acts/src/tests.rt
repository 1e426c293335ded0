//! That numbers, sets and messages are the ones meant.

use crate::act::Act;
use crate::payload::Payload;
use crate::rounds::Rounds;
use crate::value::{Grade, Value, ValueSet};
use agreement::Message;

fn message(sender: u8, kind: u8, stage: u8, value: u8) -> Message {
    Message {
        sender,
        addressee: 2,
        kind,
        stage,
        value,
    }
}

// The values in the order of their numbers.
const VALUES: [Value; 3] = [Value::Zero, Value::One, Value::Blank];

#[test]
fn values_have_numbers(rt: HostRuntime) {
    for (number, value) in VALUES.into_iter().enumerate() {
        assert_eq!(rt; Value::from_number(number as u8), Some(value));
    }
    assert_eq!(rt; Value::from_number(3), None);
    assert_eq!(rt; Value::from_number(255), None);
    assert_eq!(rt; Value::from(false), Value::Zero);
    assert_eq!(rt; Value::from(true), Value::One);
}

// The sets of values in the order of their numbers, in which 0 counts 1, 1 counts 2 and blank counts 4, with their gradings.
const SETS: [(ValueSet, Option<bool>, Grade); 8] = [
    (ValueSet::Empty, None, Grade::Zero),
    (ValueSet::Bit(false), Some(false), Grade::Two),
    (ValueSet::Bit(true), Some(true), Grade::Two),
    (ValueSet::Bits, None, Grade::Zero),
    (ValueSet::Blank, None, Grade::Zero),
    (ValueSet::BitAndBlank(false), Some(false), Grade::One),
    (ValueSet::BitAndBlank(true), Some(true), Grade::One),
    (ValueSet::All, None, Grade::Zero),
];

#[test]
fn sets_are_what_was_put_in(rt: HostRuntime) {
    for (number, (set, bit, grade)) in SETS.into_iter().enumerate() {
        for (place, value) in VALUES.into_iter().enumerate() {
            let counts = [1, 2, 4][place];
            assert_eq!(rt; set.has(value), number & counts != 0);
            assert_eq!(rt; set.with(value), SETS[(number | counts) % 8].0);
        }
        assert_eq!(rt; set.number() as usize, number);
        assert_eq!(rt; set.grading(), (bit, grade));
    }
}

#[test]
fn a_rig_has_one_to_eight_rounds(rt: HostRuntime) {
    for count in 0..=255 {
        let rounds = Rounds::new(count);
        assert_eq!(rt; rounds.is_some(), count >= 1 && count <= 8);
        if let Some(rounds) = rounds {
            assert_eq!(rt; rounds.stages(), 4 * count);
        }
    }
}

fn prepare(stage: u8, value: Value) -> Option<Payload> {
    Some(Payload::Prepare { stage, value })
}

fn propose(stage: u8, value: Value) -> Option<Payload> {
    Some(Payload::Propose { stage, value })
}

fn commit(bit: bool) -> Option<Payload> {
    Some(Payload::Commit { bit })
}

#[test]
fn messages_are_read_or_ignored(rt: HostRuntime) {
    let rounds = Rounds::new(2).expect(&rt, "a rig can have two rounds");
    // In a rig of four stations: sender, kind, stage, value.
    for (sender, kind, stage, value, want) in [
        (0, 1, 0, 0, prepare(0, Value::Zero)),
        (3, 1, 7, 2, prepare(7, Value::Blank)),
        (3, 2, 7, 1, propose(7, Value::One)),
        (1, 2, 0, 2, propose(0, Value::Blank)),
        (2, 3, 0, 0, commit(false)),
        (2, 3, 0, 1, commit(true)),
        // Each of the others breaks one rule alone.
        (4, 1, 0, 0, None),
        (255, 1, 0, 0, None),
        (0, 0, 0, 0, None),
        (0, 4, 0, 0, None),
        (0, 255, 0, 0, None),
        (0, 1, 0, 3, None),
        (0, 2, 0, 255, None),
        (0, 3, 0, 2, None),
        (0, 1, 8, 0, None),
        (0, 2, 8, 0, None),
        (0, 1, 255, 0, None),
        (0, 3, 1, 0, None),
        (0, 3, 8, 1, None),
    ] {
        let message = message(sender, kind, stage, value);
        let says = Payload::from_message(message, 4, rounds);
        assert_eq!(rt; says, want);
        if let Some(says) = says {
            assert_eq!(rt; says.to_message(sender, 2), message);
        }
    }
}

#[test]
fn acts_have_numbers(rt: HostRuntime) {
    let (stage, value) = (30, Value::Blank);
    let values = ValueSet::BitAndBlank(true);
    assert_eq!(rt; Act::Open { stage, value }.numbers(), (1, 30, 2));
    assert_eq!(rt; Act::Join { stage, value }.numbers(), (2, 30, 2));
    assert_eq!(rt; Act::Admit { stage, value }.numbers(), (3, 30, 2));
    assert_eq!(rt; Act::Close { stage, values }.numbers(), (4, 30, 6));
    assert_eq!(rt; Act::Decide { bit: true }.numbers(), (5, 0, 1));
    assert_eq!(rt; Act::Decide { bit: false }.numbers(), (5, 0, 0));
}
