//! The contents of a run file, and its bodies.

ghost use Rattle.std.specs.Prelude.{◌≡◌, ◌<◌, ◌≤◌, length, IsOk, ◌↔◌};
ghost use Rattle.rulebody.specs.Format.{word};
ghost use Rattle.runfile.specs.Format.{length_of, HasSize, HasLengths};
ghost use Rattle.runfile.specs.Bodies.{KindsRead, BodiesRead};

use crate::body::Body;
use crate::fault::FileFault;

// How many bodies there are, and how many bytes the contents have for each: its kind, and its length.
const BODIES: usize = 4;

const ENTRY: usize = 3;

// How long the contents are.
pub(crate) const CONTENTS: usize = BODIES * ENTRY;

// How many bytes a file has at most.
const LARGEST: usize = 40000;

// Refuses contents with another kind than comes there: the kinds are 1 to 4, in this order.
fn check_kinds(file: &[u8]) -> Result<(), FileFault>
    requires { 12 ≤ length file.now }
    ensures { KindsRead file.now result }
{
    for entry in 0..BODIES {
        let place = ENTRY * entry;
        if file[place] as usize != entry + 1 {
            return Err(FileFault::Kind {
                place: place as u16,
            });
        }
    }
    Ok(())
}

// The length that an entry of the contents says.
fn length_of(file: &[u8], entry: usize) -> usize
    requires { (entry < 4) × (12 ≤ length file.now) }
    ensures { result ≡ length_of file.now entry }
{
    let place = ENTRY * entry;
    u16::from_le_bytes([file[place + 1], file[place + 2]]) as usize
}

/// The four bodies of a run file, in their order; or why it has none. A tuple and no array: no `Result` can hold an array of
/// what borrows (docs/DECISIONS.md, Forms).
pub fn bodies(file: &[u8]) -> Result<(Body<'_>, Body<'_>, Body<'_>, Body<'_>), FileFault>
    ensures { BodiesRead file.now result }
{
    if file.len() < CONTENTS || file.len() > LARGEST {
        return Err(FileFault::Size);
    }
    check_kinds(file)?;
    let rule = length_of(file, 0);
    let stations = length_of(file, 1);
    let coin = length_of(file, 2);
    let calls = length_of(file, 3);
    if CONTENTS + rule + stations + coin + calls != file.len() {
        return Err(FileFault::Lengths);
    }
    let (rule, rest) = file[CONTENTS..].split_at(rule);
    let (stations, rest) = rest.split_at(stations);
    let (coin, calls) = rest.split_at(coin);
    Ok((
        Body::Rule(rule),
        Body::Stations(stations),
        Body::Coin(coin),
        Body::Calls(calls),
    ))
}
