//! Rigs played from end to end. The tests are all that this crate is for, with what they need: a cue in which nothing
//! is called, and a network that shuts and opens.

#![tactic(auto)]

pub mod gate;
pub mod idle_cue;
#[cfg(test)]
mod tests;
