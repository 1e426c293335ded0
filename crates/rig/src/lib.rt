//! The rig: own and guest stations round one cue, over a fault rule, a network and a coin.

#![tactic(auto)]

mod fault;
mod outcome;
mod posts;
mod rig;
mod setup;
mod table;

pub use fault::{CallFault, SetupFault};
pub use outcome::{Outcome, StationOutcome};
pub use rig::{Delivery, Rig};
pub use setup::Setup;
