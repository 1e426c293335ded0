//! What a rig answers.

use acts::act::Act;
use agreement::Message;
use rig::Delivery;

/// What a call of a rig came to, if it was not refused.
#[derive(Clone, Copy, PartialEq, Eq, Debug)]
pub enum Answer {
    /// The station did this in its turn.
    Acted { station: u8, act: Act },
    /// A message was delivered.
    Delivered { delivery: Delivery },
    /// The guest's message waits.
    Sent,
    /// This message was lost.
    Lost { message: Message },
}
