//! The lines of a transcript.

#![tactic(auto)]

mod fault;
mod field;
mod lines;
mod playing;

pub use fault::LineFault;
pub use lines::{LINE, put_answer, put_missing, put_refusal, put_station};
pub use playing::play_call;

#[cfg(test)]
mod tests;
