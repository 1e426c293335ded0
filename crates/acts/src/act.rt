//! What stations do in their turns.

ghost use Rattle.std.specs.Prelude.{◌≡◌};
ghost use Rattle.acts.specs.Acts.{act_of, numbers};

use crate::payload::Payload;
use crate::value::{Value, ValueSet};

/// An act, by the protocol's rules 1 to 5.
#[derive(Clone, Copy, PartialEq, Eq, Debug)]
pub enum Act {
    /// Prepares its input in the current stage.
    Open { stage: u8, value: Value },
    /// Prepares a value in a stage, since those who prepared it are blocking.
    Join { stage: u8, value: Value },
    /// Admits a value in a stage, since those who prepared it are a quorum.
    Admit { stage: u8, value: Value },
    /// Closes the current stage with its proposal set.
    Close { stage: u8, values: ValueSet },
    /// Decides a bit.
    Decide { bit: bool },
}

impl Act {
    /// The act in numbers: its rule, 1 to 5; its stage, 0 for rule 5; and its value, or the number of its proposal set.
    pub fn numbers(self) -> (u8, u8, u8)
        ensures { result ≡ numbers (act_of self) }
    {
        match self {
            Act::Open { stage, value } => (1, stage, value as u8),
            Act::Join { stage, value } => (2, stage, value as u8),
            Act::Admit { stage, value } => (3, stage, value as u8),
            Act::Close { stage, values } => (4, stage, values.number()),
            Act::Decide { bit } => (5, 0, bit as u8),
        }
    }
}

/// What a turn came to: the act done, and what is to be said to all stations, if anything.
#[derive(Clone, Copy, PartialEq, Eq, Debug)]
pub struct Turn {
    pub act: Act,
    pub says: Option<Payload>,
}
