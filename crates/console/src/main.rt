//! Reads a run file on standard input, and prints its transcript; or, of a file that is refused, `no`, the number and the
//! place.

#![tactic(auto)]

use playback::printout;
use std::io::{Read, Write};

// How many bytes are read: one more than a run file has at most, so that whatever follows changes nothing.
const MOST: u64 = 40001;

fn main(rt: HostRuntime) -> anyhow::Result<()> {
    let mut file = Vec::new(rt.alloc());
    rt.stdin().take(MOST).read_to_end(&mut file)?;
    let text = printout(rt.alloc(), file.as_slice())?;
    rt.stdout().write_all(text.as_slice())?;
    Ok(())
}
