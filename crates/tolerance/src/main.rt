//! Says which guests a fault rule tolerates: reads a rule body on standard input.

#![tactic(auto)]

use faults::rule::Sense;
use rulebody::body::RuleBody;
use std::alloc::{AllocError, Global};
use std::io::Read;
use survey::largest_sets;

mod words;

use crate::words::{Body, Cover, Largest, Refusal};

#[cfg(test)]
mod tests;

fn main(rt: HostRuntime) -> anyhow::Result<()> {
    let mut bytes = Vec::new(rt.alloc());
    rt.stdin().read_to_end(&mut bytes)?;
    let text = report(rt.alloc(), bytes.as_slice())?;
    print!(rt; "{text}")?;
    Ok(())
}

// What is said of the bytes: the rule that they are, and the guests that it tolerates or why it is refused.
fn report(heap: Global, bytes: &[u8]) -> Result<String, AllocError> {
    match RuleBody::read(heap, bytes) {
        Ok(body) => report_body(heap, &body),
        Err(fault) => format!(in heap; "{}", Refusal(fault)),
    }
}

// The rule in words, then the guests that it tolerates or why it is refused.
fn report_body(heap: Global, body: &RuleBody) -> Result<String, AllocError> {
    let mut text = format!(in heap; "{}", Body(body))?;
    match body.make(heap) {
        Ok(rule) => {
            for sense in [Sense::Narrow, Sense::Wide] {
                let sets = largest_sets(heap, &rule, sense)?;
                write!(text, "{}", Largest { sense, sets: &sets })?;
            }
        }
        Err(fault) => write!(text, "{}{}", Refusal(fault), Cover { body, fault })?,
    }
    Ok(text)
}
