//! What files say, and how they are refused.

use crate::{FileCoin, NetworkKind, RunFile};
use calls::call::Call;
use coins::{Coin, SeedCoin, TableCoin};
use faults::rule::FaultRule;

// One station that opens with 1, in one round, over a bag: a turn and a delivery.
const FILE: [u8; 27] = [
    1, 4, 0, 2, 6, 0, 3, 1, 0, 4, 4, 0, 1, 1, 0, 0, 1, 1, 0, 0, 1, 0, 5, b't', 0, b'd', 7,
];

#[test]
fn a_file_says_what_stands_in_it(rt: HostRuntime) {
    let run = RunFile::read(rt.alloc(), &FILE);
    assert!(rt; run.is_ok());
    if let Ok(run) = run {
        assert_eq!(rt; run.rule.size(), 1);
        assert_eq!(rt; run.network, NetworkKind::Bag);
        assert_eq!(rt; run.coin, FileCoin::Table(TableCoin { table: 5 }));
        assert!(rt; run.coin.toss(0) && !run.coin.toss(1) && run.coin.toss(2));
        assert_eq!(rt; run.calls.len(), 2);
        assert_eq!(rt; run.calls[0], Call::Turn { station: 0 });
        assert_eq!(rt; run.calls[1], Call::Deliver { hint: 7 });
    }
}

#[test]
fn a_seed_has_its_low_byte_first(rt: HostRuntime) {
    let coin = FileCoin::read(&[1, 2, 0, 0, 0, 0, 0, 4]);
    let seed = 1 + 2 * 256 + 4 * 72057594037927936;
    assert_eq!(rt; coin, Some(FileCoin::Seed(SeedCoin { seed })));
    assert!(rt; coin.is_some_and(|coin| coin.toss(0) == SeedCoin { seed }.toss(0)));
    assert_eq!(rt; FileCoin::read(&[1, 2, 0, 0, 0, 0, 0]), None);
    assert_eq!(rt; FileCoin::read(&[]), None);
}

// The number and the place of the first fault of a file that is refused.
fn fault(rt: &HostRuntime, file: &[u8]) -> Option<(u8, u16)> {
    let fault = RunFile::read(rt.alloc(), file).err()?;
    Some((fault.number(), fault.place()))
}

// A place of the file, the byte that stands there instead, and the number and the place of the first fault then.
const REFUSALS: [(usize, u8, u8, u16); 20] = [
    (0, 2, 22, 0),
    (3, 3, 22, 3),
    (6, 4, 22, 6),
    (9, 1, 22, 9),
    (1, 5, 23, 12),
    (4, 5, 23, 12),
    (8, 1, 23, 12),
    (10, 3, 23, 12),
    (12, 3, 24, 12),
    (13, 0, 1, 12),
    (13, 11, 1, 12),
    (15, 1, 2, 12),
    (14, 1, 3, 12),
    (16, 3, 24, 16),
    (17, 0, 5, 16),
    (17, 9, 5, 16),
    (19, 4, 24, 16),
    (21, 128, 24, 16),
    (23, b'x', 25, 23),
    (25, b'f', 25, 25),
];

#[test]
fn other_bytes_are_refused(rt: HostRuntime) {
    for (at, byte, number, place) in REFUSALS {
        let mut file = FILE;
        if at < FILE.len() {
            file[at] = byte;
        }
        assert_eq!(rt; fault(&rt, &file), Some((number, place)));
    }
}

#[test]
fn sizes_come_first(rt: HostRuntime) {
    assert_eq!(rt; fault(&rt, &FILE), None);
    assert_eq!(rt; fault(&rt, &[]), Some((21, 0)));
    assert_eq!(rt; fault(&rt, &FILE[..11]), Some((21, 0)));
    assert_eq!(rt; fault(&rt, &FILE[..12]), Some((23, 12)));
    assert_eq!(rt; fault(&rt, &FILE[..26]), Some((23, 12)));
    assert_eq!(rt; fault(&rt, &[0; 40000]), Some((22, 0)));
    assert_eq!(rt; fault(&rt, &[0; 40001]), Some((21, 0)));
}

#[test]
fn a_cut_off_call_is_refused_at_its_letter(rt: HostRuntime) {
    let mut file = FILE;
    file[10] = 3;
    assert_eq!(rt; fault(&rt, &file[..26]), Some((25, 25)));
    file[10] = 2;
    assert_eq!(rt; fault(&rt, &file[..25]), None);
    file[10] = 0;
    assert_eq!(rt; fault(&rt, &file[..23]), None);
}

#[test]
fn a_coin_has_one_byte_or_eight(rt: HostRuntime) {
    let mut file = FILE;
    file[7] = 2;
    file[10] = 3;
    assert_eq!(rt; fault(&rt, &file), Some((24, 22)));
}

// The size of a rule by two lists of one set each, both sets, and the number of the first fault.
const LISTS: [(u8, u8, u8, u8); 4] = [(11, 3, 3, 1), (1, 3, 1, 4), (4, 3, 12, 2), (2, 3, 3, 3)];

#[test]
fn rules_by_lists_are_refused_at_their_place(rt: HostRuntime) {
    for (n, wide, narrow, number) in LISTS {
        let file = [
            1, 8, 0, 2, 6, 0, 3, 1, 0, 4, 0, 0, 2, n, 1, 1, wide, 0, narrow, 0, 1, 1, 0, 0, 1, 0, 5,
        ];
        assert_eq!(rt; fault(&rt, &file), Some((number, 12)));
    }
}
