//! Reading a rule body.

ghost use Rattle.std.specs.Prelude.{◌≡◌, ◌<◌, ◌↔◌, length, map, All, IsTrue, MatchOption, MatchResult};
ghost use Rattle.rulebody.specs.Format.{word, IsOdd, ArePairs};
ghost use Rattle.rulebody.specs.Bodies.{BodyRead, ListsRead};

use crate::body::RuleBody;
use faults::fault::Fault;
use stations::StationSet;
use std::alloc::{AllocError, Global};

// The first byte of a body, of a rule by numbers or by lists. No enum: a pattern with the byte's name reads and tells it in
// one step.
const THRESHOLD: u8 = 1;

const LISTED: u8 = 2;

// The bytes two by two, if none is left over.
fn pairs(bytes: &[u8]) -> Option<&[[u8; 2]]>
    ensures { MatchOption result (IsOdd (length bytes.now)) (λ p. ArePairs p.now bytes.now) }
{
    let (pairs, rest) = bytes.as_chunks();
    rest.is_empty().then_some(pairs)
}

// The number that two bytes say, low byte first.
fn number(pair: [u8; 2]) -> u16
    ensures { result ≡ word pair 0 }
{
    u16::from_le_bytes(pair)
}

// Whether none of the numbers has a bit above 9.
fn are_low(pairs: &[[u8; 2]]) -> bool
    ensures { IsTrue result ↔ All (λ p. word p 0 < 1024) pairs.now }
{
    pairs.iter().all(|pair| number(*pair) < 1024)
}

// The sets with these numbers.
fn read_sets(heap: Global, pairs: &[[u8; 2]]) -> Result<Vec<StationSet>, AllocError>
    ensures { MatchResult result (λ v. v.items ≡ map (λ p. word p 0) pairs.now) (λ _. 0 < length pairs.now) }
{
    // No `collect`: its contract doesn't say that it succeeds where nothing is to be kept.
    let mut list = Vec::new(heap);
    for pair in pairs {
        list.push(StationSet::from(number(*pair)))?;
    }
    Ok(list)
}

// The listed rule of n stations with these sets, first the wide ones, if they are as many as both counts say and none has
// a bit above 9.
fn read_lists(
    heap: Global,
    n: u8,
    wide: u8,
    narrow: u8,
    pairs: &[[u8; 2]],
) -> Result<RuleBody, Fault>
    ensures { ListsRead n wide narrow pairs.now result }
{
    // Both counts are beside the bytes, as the format has them.
    let middle = wide as usize;
    if pairs.len() != middle + narrow as usize || !are_low(pairs) {
        return Err(Fault::Form);
    }
    let (wide, narrow) = pairs.split_at(middle);
    let wide = read_sets(heap, wide)?;
    let narrow = read_sets(heap, narrow)?;
    Ok(RuleBody::Listed { n, wide, narrow })
}

impl RuleBody {
    /// The body that stands in the bytes; refused with 24 where none can, and with 51 for want of memory.
    pub fn read(heap: Global, bytes: &[u8]) -> Result<RuleBody, Fault>
        ensures { BodyRead bytes.now result }
    {
        // Each case returns by itself: the value of one match over all three would be put together, and copied, at its end.
        if let [THRESHOLD, n, s, a] = bytes {
            return Ok(RuleBody::Threshold {
                n: *n,
                s: *s,
                a: *a,
            });
        }
        if let [LISTED, n, wide, narrow, sets @ ..] = bytes {
            let pairs = pairs(sets).ok_or(Fault::Form)?;
            return read_lists(heap, *n, *wide, *narrow, pairs);
        }
        Err(Fault::Form)
    }
}
