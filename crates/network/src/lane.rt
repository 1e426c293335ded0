//! A queue of messages.

ghost use Rattle.std.specs.Prelude.{◌≡◌, ◌≤◌, if◌then◌else◌, nat_le, ◌==◌, [], ◌∷◌, ◌++◌, length, drop, slice_get, is_ok, is_err, IfOk};

use crate::TurnedAway;
use agreement::Message;
use circular_buffer::HeapCircularBuffer;
use std::alloc::{AllocError, Global};
use std::marker::Model;

/// At most 40 messages.
#[derive(Drop)]
pub(crate) struct Lane {
    queue: HeapCircularBuffer<Message>,
}

/// Clauses see a lane as its messages, the oldest first.
impl Model for Lane {
    ghost use Rattle.std.specs.Prelude.{◌≡◌, List};
    ghost use Rattle.agreement.specs.declared.message.Message.{Message as Sent};

    ghost Value = { List Sent };

    ghost view = { λ l. l.queue.items };

    ghost invariant = { λ l. l.queue.capacity ≡ 40 };
}

impl Lane {
    /// How many messages a lane holds.
    const HOLDS: usize = 40;

    /// An empty lane, with memory for all that it can hold.
    pub(crate) fn new(heap: Global) -> Result<Lane, AllocError>
        ensures { IfOk result (λ l. l ≡ []) }
    {
        Ok(Lane {
            queue: HeapCircularBuffer::with_capacity(heap, Lane::HOLDS)?,
        })
    }

    /// How many messages wait here.
    pub(crate) fn len(&self) -> u16
        ensures len { result ≡ length self.now }
        ensures within { result ≤ 40 }
    {
        self.queue.len() as u16
    }

    /// Whether no message waits here.
    pub(crate) fn is_empty(&self) -> bool
        ensures { result ≡ (length self.now == 0) }
    {
        self.queue.is_empty()
    }

    /// Puts a message behind the others, or turns it away where 40 wait.
    pub(crate) fn put(&mut self, message: Message) -> Result<(), TurnedAway>
        ensures variant { is_err result ≡ nat_le 40 (length self.old) }
        ensures items { self.new ≡ (if is_ok result then self.old ++ message ∷ [] else self.old) }
    {
        self.queue.try_push_back(message).map_err(|_| TurnedAway)
    }

    /// Takes off the oldest message, if one waits here.
    pub(crate) fn take_oldest(&mut self) -> Option<Message>
        ensures oldest { result ≡ slice_get self.old 0 }
        ensures rest { self.new ≡ drop 1 self.old }
    {
        self.queue.pop_front()
    }

    /// Lets go of all that waits here.
    pub(crate) fn clear(&mut self)
        ensures { self.new ≡ [] }
    {
        self.queue.clear();
    }
}
