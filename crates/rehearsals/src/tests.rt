//! That rigs do what the pages say. Plays to the end are held to what `tools/rig.py` prints; everything else was worked
//! by hand.

use agreement::Message;
use coins::TableCoin;
use faults::threshold::Threshold;
use rig::Setup;
use std::process::Abort;

mod counts;
mod effects;
mod gates;
mod lent;
mod plays;
mod refusals;
mod single;

// A setup with these guests and these stations opening with 1.
fn set_up(rt: &impl Abort, rounds: u8, guests: &[u8], openings: &[u8]) -> Setup {
    let mut setup = Setup::new(rounds).expect(rt, "a rig can have so many rounds");
    for guest in guests {
        setup
            .enter_guest(*guest)
            .expect(rt, "a rig can have such a guest");
    }
    for station in openings {
        setup
            .enter_opening(*station, 1)
            .expect(rt, "a station can open with 1");
    }
    setup
}

fn threshold(rt: &impl Abort, n: u8, s: u8, a: u8) -> Threshold {
    Threshold::new(n, s, a).expect(rt, "there is such a rule")
}

// A coin that is 0 in every round.
const ZEROS: TableCoin = TableCoin { table: 0 };

fn message(sender: u8, addressee: u8, kind: u8, stage: u8, value: u8) -> Message {
    Message {
        sender,
        addressee,
        kind,
        stage,
        value,
    }
}
