//! That the coins meant are these. The wanted bits are those that `tools/expected.py` prints.

use crate::{Coin, SeedCoin, TableCoin};

// The bits of the rounds 0 to 7, that of round r as 2^r.
fn bits<C: Coin>(coin: &C) -> u8 {
    let mut bits = 0;
    for round in 0..8 {
        if coin.toss(round) {
            bits |= 1u8.wrapping_shl(round as u32);
        }
    }
    bits
}

#[test]
fn a_table_is_its_bits(rt: HostRuntime) {
    for table in 0..=255 {
        let coin = TableCoin { table };
        assert_eq!(rt; bits(&coin), table);
        assert!(rt; !coin.toss(8) && !coin.toss(255));
    }
}

#[test]
fn a_seed_gives_these_bits(rt: HostRuntime) {
    for (seed, want) in [
        (0, 154),
        (1, 212),
        (u64::MAX, 216),
        (7046029254386353131, 52),
        (7046029254923224044, 223),
        (81985529216486895, 146),
        (20261127, 108),
    ] {
        assert_eq!(rt; bits(&SeedCoin { seed }), want);
    }
}

#[test]
fn two_seeds_worked_by_hand_give_these_first_bits(rt: HostRuntime) {
    let zero = SeedCoin {
        seed: 7046029254386353131,
    };
    let one = SeedCoin {
        seed: 7046029254923224044,
    };
    assert!(rt; !zero.toss(0));
    assert!(rt; one.toss(0));
}

#[test]
fn later_rounds_have_bits_too(rt: HostRuntime) {
    let coin = SeedCoin { seed: 1 };
    for (round, want) in [(8, false), (9, true), (10, true), (11, false), (255, false)] {
        assert_eq!(rt; coin.toss(round), want);
    }
}
