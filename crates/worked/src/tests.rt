//! Cases that are run.

use faults::both::Both;
use faults::fault::{Fault, Three};
use faults::listed::Listed;
use faults::rule::{FaultRule, Sense};
use faults::threshold::Threshold;
use rulebody::body::RuleBody;
use stations::StationSet;
use std::alloc::Global;
use std::test::Fail;
use survey::largest_sets;

// The number of the refusal, or 0 where the rule is made. No `Option`: the tables keep the values that they had.
fn number<T: Drop>(made: Result<T, Fault>) -> u8 {
    made.err().map_or(0, Fault::number)
}

fn set(bits: u16) -> StationSet {
    StationSet::from(bits)
}

// The number that reading and making a body come to.
fn body_number(heap: Global, bytes: &[u8]) -> u8 {
    number(RuleBody::read(heap, bytes).and_then(|body| body.make(heap)))
}

#[test]
fn thresholds_are_made_or_refused(rt: HostRuntime) {
    let cases = [
        (0, 0, 0, 1),
        (11, 0, 0, 1),
        (255, 255, 255, 1),
        (0, 1, 2, 1),
        (10, 1, 2, 2),
        (10, 0, 255, 2),
        (10, 255, 0, 3),
        (10, 255, 255, 3),
        (10, 128, 0, 3),
        (1, 0, 0, 0),
        (10, 3, 3, 0),
        (10, 4, 1, 0),
        (10, 4, 2, 3),
    ];
    for (n, s, a, want) in cases {
        assert_eq!(rt; number(Threshold::new(n, s, a)), want);
    }
}

#[test]
fn lists_are_made_or_refused(rt: HostRuntime) {
    let heap = rt.alloc();
    let one = [set(1)];
    let nine = [1, 2, 4, 8, 16, 32, 64, 128, 256].map(StationSet::from);
    let eight = &nine[..8];
    assert_eq!(rt; number(Listed::new(heap, 0, &[], &[])), 1);
    assert_eq!(rt; number(Listed::new(heap, 255, &one, &one)), 1);
    assert_eq!(rt; number(Listed::new(heap, 10, &[], &one)), 4);
    assert_eq!(rt; number(Listed::new(heap, 10, &one, &[])), 4);
    assert_eq!(rt; number(Listed::new(heap, 10, &nine, &one)), 4);
    assert_eq!(rt; number(Listed::new(heap, 10, &one, &nine)), 4);
    assert_eq!(rt; number(Listed::new(heap, 4, &[set(16)], &one)), 4);
    assert_eq!(rt; number(Listed::new(heap, 4, &one, &[set(32768)])), 4);
    assert_eq!(rt; number(Listed::new(heap, 10, &one, &[set(2)])), 2);
    assert_eq!(rt;
        number(Listed::new(heap, 2, &[set(1), set(3)], &[set(2), set(3)])),
        3
    );
    assert_eq!(rt; number(Listed::new(heap, 10, eight, eight)), 0);
}

#[test]
fn the_first_three_are_named(rt: HostRuntime) {
    let wide = [set(1), set(3), set(12), set(15)];
    let narrow = [set(1), set(3)];
    let three = Three {
        narrow: 0,
        wide: (0, 3),
    };
    assert_eq!(rt;
        Listed::new(rt.alloc(), 4, &wide, &narrow).err(),
        Some(Fault::CoveredBy(three))
    );
}

#[test]
fn sets_are_cut_to_the_size(rt: HostRuntime) -> Result<(), Fail> {
    let rule = Threshold::new(4, 1, 1)?;
    assert!(rt; rule.is_wide(set(8)));
    assert!(rt; rule.is_wide(set(0xfff8)));
    assert!(rt; !rule.is_wide(set(9)));
    assert!(rt; rule.is_blocking(set(9)));
    assert!(rt; rule.is_quorum(set(7)));
    assert!(rt; !rule.is_quorum(set(0xfff3)));
    assert_eq!(rt; set(0xfff9).rest(4), set(6));
    assert_eq!(rt; set(0xfff9).up_to(4), set(9));
    Ok(())
}

#[test]
fn both_ask_both_sides(rt: HostRuntime) -> Result<(), Fail> {
    let heap = rt.alloc();
    let larger = Both {
        first: Threshold::new(5, 2, 0)?,
        second: Listed::new(heap, 10, &[set(3), set(992)], &[set(1)])?,
    };
    assert_eq!(rt; larger.size(), 5);
    assert!(rt; larger.is_wide(set(3)));
    assert!(rt; larger.is_wide(set(0xffe3)));
    assert!(rt; !larger.is_wide(set(5)));
    assert!(rt; larger.is_quorum(set(28)));
    assert!(rt; !larger.is_narrow(set(1)));
    let smaller = Both {
        first: Threshold::new(6, 2, 1)?,
        second: Threshold::new(2, 0, 0)?,
    };
    assert!(rt; smaller.is_wide(set(12)));
    assert!(rt; !smaller.is_wide(set(5)));
    assert!(rt; smaller.is_narrow(set(4)));
    assert!(rt; !smaller.is_narrow(set(12)));
    Ok(())
}

#[test]
fn bodies_are_read_or_refused(rt: HostRuntime) {
    let heap = rt.alloc();
    assert_eq!(rt; body_number(heap, &[]), 24);
    assert_eq!(rt; body_number(heap, &[1, 4, 1]), 24);
    assert_eq!(rt; body_number(heap, &[1, 4, 1, 1, 0]), 24);
    assert_eq!(rt; body_number(heap, &[3, 4, 1, 1]), 24);
    assert_eq!(rt; body_number(heap, &[2, 4, 1, 1, 1, 0, 1]), 24);
    assert_eq!(rt; body_number(heap, &[2, 4, 1, 1, 1, 0, 1, 0, 0]), 24);
    assert_eq!(rt; body_number(heap, &[2, 4, 255, 255]), 24);
    assert_eq!(rt; body_number(heap, &[2, 0, 1, 1, 1, 4, 1, 0]), 24);
    assert_eq!(rt; body_number(heap, &[2, 4, 1, 1, 1, 0, 1, 128]), 24);
    assert_eq!(rt; body_number(heap, &[1, 255, 255, 255]), 1);
    assert_eq!(rt; body_number(heap, &[2, 0, 0, 0]), 1);
    assert_eq!(rt; body_number(heap, &[2, 4, 0, 0]), 4);
    assert_eq!(rt; body_number(heap, &[2, 4, 1, 1, 16, 0, 1, 0]), 4);
    assert_eq!(rt; body_number(heap, &[2, 4, 1, 1, 1, 2, 1, 0]), 4);
    assert_eq!(rt; body_number(heap, &[2, 4, 1, 1, 1, 0, 2, 0]), 2);
    assert_eq!(rt; body_number(heap, &[2, 4, 2, 1, 3, 0, 12, 0, 3, 0]), 3);
    assert_eq!(rt; body_number(heap, &[2, 10, 1, 1, 1, 3, 1, 2]), 0);
    let mut long = [0u8; 24];
    long[0] = 2;
    long[1] = 4;
    long[2] = 9;
    long[3] = 1;
    assert_eq!(rt; body_number(heap, &long), 4);
    long[2] = 1;
    long[3] = 9;
    assert_eq!(rt; body_number(heap, &long), 4);
}

#[test]
fn lists_stand_wide_before_narrow(rt: HostRuntime) -> Result<(), Fail> {
    let body = RuleBody::read(rt.alloc(), &[2, 10, 2, 1, 1, 3, 4, 0, 0, 2])?;
    match body {
        RuleBody::Listed {
            n: 10,
            wide,
            narrow,
        } => {
            assert!(rt; wide.len() == 2 && narrow.len() == 1);
            assert_eq!(rt; wide[0], set(769));
            assert_eq!(rt; wide[1], set(4));
            assert_eq!(rt; narrow[0], set(512));
            Ok(())
        }
        _ => Err(Fail::new("a listed rule of ten stations")),
    }
}

#[test]
fn seven_stations_are_surveyed(rt: HostRuntime) -> Result<(), Fail> {
    let rule = RuleBody::read(rt.alloc(), &[1, 7, 3, 0])?.make(rt.alloc())?;
    let narrow = largest_sets(rt.alloc(), &rule, Sense::Narrow)?;
    assert!(rt; narrow.len() == 1);
    assert_eq!(rt; narrow[0], set(0));
    let wide = largest_sets(rt.alloc(), &rule, Sense::Wide)?;
    assert!(rt; wide.len() == 35);
    assert_eq!(rt; wide[0], set(7));
    assert_eq!(rt; wide[1], set(11));
    assert_eq!(rt; wide[34], set(112));
    Ok(())
}

#[test]
fn ten_stations_are_surveyed(rt: HostRuntime) -> Result<(), Fail> {
    let rule = Threshold::new(10, 4, 1)?;
    let narrow = largest_sets(rt.alloc(), &rule, Sense::Narrow)?;
    assert_eq!(rt; narrow.len(), 10);
    let wide = largest_sets(rt.alloc(), &rule, Sense::Wide)?;
    assert!(rt; wide.len() == 210);
    assert_eq!(rt; wide[209], set(960));
    Ok(())
}

#[test]
fn listed_parts_are_not_largest(rt: HostRuntime) -> Result<(), Fail> {
    let rule = Listed::new(rt.alloc(), 5, &[set(12), set(3), set(1), set(3)], &[set(0)])?;
    let wide = largest_sets(rt.alloc(), &rule, Sense::Wide)?;
    assert!(rt; wide.len() == 2);
    assert_eq!(rt; wide[0], set(3));
    assert_eq!(rt; wide[1], set(12));
    Ok(())
}

#[test]
fn sets_are_shown(rt: HostRuntime) -> Result<(), Fail> {
    let none = set(0);
    let two = set(9);
    let high = set(0x8401);
    let text = format!(in rt.alloc(); "{none} {two} {high}")?;
    assert!(rt; text.as_str() == "{} {0,3} {0,10,15}");
    Ok(())
}
