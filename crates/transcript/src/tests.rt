//! That lines are the ones meant.

use crate::{LineFault, play_call, put_answer, put_missing, put_refusal, put_station};
use acts::act::Act;
use acts::value::ValueSet;
use agreement::Message;
use calls::answer::Answer;
use calls::call::Call;
use coins::TableCoin;
use faults::threshold::Threshold;
use network::bag::Bag;
use rig::{CallFault, Delivery, Setup, StationOutcome};
use std::test::Fail;

const LARGEST: Message = Message {
    sender: 255,
    addressee: 255,
    kind: 255,
    stage: 255,
    value: 255,
};

// Calls, what they came to, and their lines.
const LINES: [(Call, Result<Answer, CallFault>, &[u8]); 8] = [
    (
        Call::Turn { station: 9 },
        Ok(Answer::Acted {
            station: 9,
            act: Act::Decide { bit: true },
        }),
        b"t 9 5 0 1\n",
    ),
    (
        Call::Turn { station: 3 },
        Ok(Answer::Acted {
            station: 3,
            act: Act::Close {
                stage: 31,
                values: ValueSet::BitAndBlank(true),
            },
        }),
        b"t 3 4 31 6\n",
    ),
    (
        Call::Turn { station: 9 },
        Err(CallFault::NoStation),
        b"t 9 no 11\n",
    ),
    (
        Call::Deliver { hint: 7 },
        Ok(Answer::Delivered {
            delivery: Delivery {
                message: LARGEST,
                changed: true,
            },
        }),
        b"d 255 255 255 255 255 1\n",
    ),
    (
        Call::Deliver { hint: 7 },
        Err(CallFault::NothingWaits),
        b"d no 14\n",
    ),
    (Call::Send { message: LARGEST }, Ok(Answer::Sent), b"f ok\n"),
    (
        Call::Send { message: LARGEST },
        Err(CallFault::OwnSender),
        b"f no 15\n",
    ),
    (
        Call::Lose { hint: 0 },
        Ok(Answer::Lost {
            message: Message {
                sender: 10,
                addressee: 9,
                kind: 1,
                stage: 100,
                value: 99,
            },
        }),
        b"l 10 9 1 100 99\n",
    ),
];

// Whether a buffer begins with a line, and has only dots after it.
fn begins_with(buffer: &[u8], line: &[u8]) -> bool {
    buffer
        .strip_prefix(line)
        .is_some_and(|rest| rest.iter().all(|byte| *byte == b'.'))
}

#[test]
fn calls_have_lines(rt: HostRuntime) {
    for (call, made, line) in LINES {
        let mut buffer = [b'.'; 33];
        assert_eq!(rt;
            put_answer(&mut buffer[..31], call, made),
            Err(LineFault::Short)
        );
        assert!(rt; begins_with(&buffer, b""));
        assert_eq!(rt; put_answer(&mut buffer[..32], call, made), Ok(line.len()));
        assert!(rt; begins_with(&buffer, line));
        let mut buffer = [b'.'; 33];
        assert_eq!(rt; put_answer(&mut buffer, call, made), Ok(line.len()));
        assert!(rt; begins_with(&buffer, line));
    }
}

#[test]
fn files_end_with_lines(rt: HostRuntime) {
    let mut buffer = [b'.'; 32];
    assert_eq!(rt; put_missing(&mut buffer, 4_294_967_295), Ok(13));
    assert!(rt; begins_with(&buffer, b"m 4294967295\n"));
    let mut buffer = [b'.'; 32];
    assert_eq!(rt; put_refusal(&mut buffer, 24, 65535), Ok(12));
    assert!(rt; begins_with(&buffer, b"no 24 65535\n"));
}

#[test]
fn stations_have_lines(rt: HostRuntime) {
    for (decision, line) in [
        (None, b"s 9 32 -\n".as_slice()),
        (Some(false), b"s 9 32 0\n".as_slice()),
        (Some(true), b"s 9 32 1\n".as_slice()),
    ] {
        let outcome = StationOutcome {
            stage: 32,
            gradings: [[None; StationOutcome::HALVES]; StationOutcome::ROUNDS],
            decision,
        };
        let mut buffer = [b'.'; 32];
        assert_eq!(rt; put_station(&mut buffer, 9, &outcome), Ok(line.len()));
        assert!(rt; begins_with(&buffer, line));
    }
}

#[test]
fn a_short_buffer_is_refused_before_the_call(rt: HostRuntime) -> Result<(), Fail> {
    let rule = Threshold::new(1, 0, 0)?;
    let network = Bag::new(rt.alloc())?;
    let mut rig = Setup::new(1)?.open(rule, network, TableCoin { table: 0 });
    let call = Call::Turn { station: 0 };
    let mut buffer = [b'.'; 33];
    assert_eq!(rt;
        play_call(&mut rig, call, &mut buffer[..31]),
        Err(LineFault::Short)
    );
    assert!(rt; begins_with(&buffer, b""));
    assert_eq!(rt; rig.posted(), 0);
    assert_eq!(rt; play_call(&mut rig, call, &mut buffer[..32]), Ok(10));
    assert!(rt; begins_with(&buffer, b"t 0 1 0 0\n"));
    assert_eq!(rt; rig.posted(), 1);
    Ok(())
}
