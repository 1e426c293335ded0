//! Messages in places.

ghost use Rattle.std.specs.Prelude.{◌≡◌, nat_le, [], length, IfSome, IfNone, is_err, IfOk, OnOk, OnErr};
ghost use Rattle.agreement.specs.Networks.{Enters, Exits};
ghost use Rattle.network.specs.Bags.{bag, bag_holds, bag_pick};

use crate::{Network, TurnedAway};
use agreement::Message;
use std::alloc::{AllocError, Global};
use std::marker::Model;

/// At most 4,096 messages, each at a place.
#[derive(Drop)]
pub struct Bag {
    messages: Vec<Message>,
}

/// Clauses see a bag as its messages, by place.
impl Model for Bag {
    ghost use Rattle.std.specs.Prelude.{◌≡◌, ◌≤◌, List};
    ghost use Rattle.std.specs.Vec.{vec_len, vec_capacity};
    ghost use Rattle.agreement.specs.declared.message.Message.{Message as Sent};

    ghost Value = { List Sent };

    ghost view = { λ b. b.messages.items };

    ghost invariant = { λ b. (vec_len b.messages ≤ 4096) × (vec_capacity b.messages ≡ 4096) };
}

impl Bag {
    /// How many messages a bag holds.
    const HOLDS: usize = 4096;

    /// An empty bag, with memory for all that it can hold: no later call allocates.
    pub fn new(heap: Global) -> Result<Bag, AllocError>
        ensures { IfOk result (λ b. b ≡ []) }
    {
        Ok(Bag {
            messages: Vec::with_capacity(heap, Bag::HOLDS)?,
        })
    }
}

impl Network for Bag {
    ghost use Rattle.network.specs.BagLemmas.{bag_roomy};

    ghost net = { bag };

    ghost floor = { λ b. bag_holds };

    ghost roomy = { bag_roomy };

    fn clear(&mut self) {
        self.messages.clear();
    }

    /// A message that is posted comes last.
    fn post(&mut self, message: Message) -> Result<(), TurnedAway>
        ensures variant { is_err result ≡ nat_le bag_holds (length self.old) }
        ensures ok { OnOk result (Enters bag message self.old self.new) }
        ensures err { OnErr result (self.new ≡ self.old) }
    {
        if self.messages.len() >= Bag::HOLDS {
            return Err(TurnedAway);
        }
        self.messages.push_reserved(message);
        Ok(())
    }

    /// The message at place hint mod count; the last one moves into its place.
    fn take(&mut self, hint: u8) -> Option<Message>
        ensures choice { result ≡ bag_pick self.old hint }
        ensures some { IfSome result (λ m. Exits bag hint m self.old self.new) }
        ensures none { IfNone result ((self.old ≡ []) × (self.new ≡ self.old)) }
    {
        let count = self.messages.len();
        if count == 0 {
            return None;
        }
        Some(self.messages.swap_remove(hint as usize % count))
    }

    fn count(&self) -> u16 {
        self.messages.len() as u16
    }
}
