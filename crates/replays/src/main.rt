//! Plays stored run files, and compares what is printed of each with what another program printed of it.

#![tactic(auto)]

use playback::printout;
use std::fs;

fn main(rt: HostRuntime) -> anyhow::Result<()> {
    let names = fs::read_to_string(&rt, "names")?;
    let mut replayed = 0u64;
    let mut failed = 0u64;
    for name in names.lines() {
        let file = fs::read(&rt, format!(in rt.alloc(); "{name}.run")?.as_str())?;
        let wanted = fs::read(&rt, format!(in rt.alloc(); "{name}.out")?.as_str())?;
        let text = printout(rt.alloc(), file.as_slice())?;
        replayed = replayed.saturating_add(1);
        if text.as_slice() != wanted.as_slice() {
            println!(rt; "{name}: other lines were printed")?;
            failed = failed.saturating_add(1);
        }
    }
    println!(rt; "{replayed} run files replayed, {failed} printed otherwise")?;
    Ok(())
}
