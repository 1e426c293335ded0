//! Fault rules: which sets of guests the own stations tolerate.

#![tactic(auto)]

pub mod both;
pub mod fault;
pub mod listed;
pub mod rule;
pub mod size;
pub mod threshold;

pub use stations::StationSet;
