//! One own station: what it keeps of what it heard and did, and what it does in a turn.

#![tactic(auto)]

mod stage;
pub mod station;
#[cfg(test)]
mod tests;
