//! What own stations deal in: values and sets of them, gradings, rounds, what is said, and acts.

#![tactic(auto)]

pub mod act;
pub mod payload;
pub mod rounds;
#[cfg(test)]
mod tests;
pub mod value;
