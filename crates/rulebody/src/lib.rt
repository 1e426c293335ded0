//! Rules as bytes.

#![tactic(auto)]

pub mod body;
pub mod making;
pub mod reading;
pub mod rule;
