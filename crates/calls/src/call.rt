//! What is asked of a rig.

use agreement::Message;

/// A call of a rig.
#[derive(Clone, Copy, PartialEq, Eq, Debug)]
pub enum Call {
    /// Has a station take its turn.
    Turn { station: u8 },
    /// Delivers the message that the network picks by a hint.
    Deliver { hint: u8 },
    /// Posts a guest's message.
    Send { message: Message },
    /// Loses the message that the network picks by a hint.
    Lose { hint: u8 },
}
