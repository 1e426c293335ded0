//! A network that no list of what waits could tell.

ghost use Rattle.std.specs.Prelude.{◌≡◌, [], true, false, IfSome, IfNone, is_err, IfOk, OnOk, OnErr};
ghost use Rattle.agreement.specs.declared.message.Message.{Message as Sent};
ghost use Rattle.agreement.specs.Networks.{Enters, Exits, Carries};
ghost use Rattle.agreement.specs.Exact.{TurnAwayAlike};
ghost use Rattle.rehearsals.specs.Gates.{GateState, IsGate, gate, opens_below};

use agreement::Message;
use network::{Network, TurnedAway};
use std::alloc::{AllocError, Global};
use std::marker::Model;

/// A gate shuts when 40 messages wait, and opens again when fewer than 16 do. While it is shut it turns every message
/// away.
#[derive(Drop)]
pub struct Gate {
    messages: Vec<Message>,
    shut: bool,
}

/// Clauses see a gate as its messages, the oldest first, and whether it is shut.
impl Model for Gate {
    ghost use Rattle.std.specs.Prelude.{◌≡◌};
    ghost use Rattle.std.specs.Vec.{vec_capacity};
    ghost use Rattle.rehearsals.specs.Gates.{GateState, IsGate, shuts_at};

    ghost Value = { GateState };

    ghost view = { λ g. record { waiting = g.messages.items; shut = g.shut } };

    ghost invariant = { λ g. IsGate (record { waiting = g.messages.items; shut = g.shut })
        × (vec_capacity g.messages ≡ shuts_at) };
}

impl Gate {
    /// How many messages wait when it shuts.
    const SHUTS_AT: usize = 40;

    /// Fewer than so many wait when it opens again.
    const OPENS_BELOW: usize = 16;

    /// An open gate at which nothing waits, with memory for all that it can hold: no later call allocates.
    pub fn new(heap: Global) -> Result<Gate, AllocError>
        ensures { IfOk result (λ g. g ≡ record { waiting = []; shut = false }) }
    {
        Ok(Gate {
            messages: Vec::with_capacity(heap, Gate::SHUTS_AT)?,
            shut: false,
        })
    }
}

impl Network for Gate {
    ghost use Rattle.rehearsals.specs.GateLemmas.{gate_roomy};

    ghost net = { gate };

    ghost floor = { λ g. opens_below };

    ghost roomy = { gate_roomy };

    fn clear(&mut self) {
        self.messages.clear();
        self.shut = false;
    }

    /// A message that is posted is the newest.
    fn post(&mut self, message: Message) -> Result<(), TurnedAway>
        ensures variant { is_err result ≡ gate.turns_away self.old message }
        ensures ok { OnOk result (Enters gate message self.old self.new) }
        ensures err { OnErr result (self.new ≡ self.old) }
    {
        if self.shut {
            return Err(TurnedAway);
        }
        self.messages.push_reserved(message);
        self.shut = self.messages.len() >= Gate::SHUTS_AT;
        Ok(())
    }

    /// The oldest message, whatever the hint.
    fn take(&mut self, hint: u8) -> Option<Message>
        ensures choice { result ≡ gate.picks self.old hint }
        ensures some { IfSome result (λ m. Exits gate hint m self.old self.new) }
        ensures none { IfNone result ((self.old.waiting ≡ []) × (self.new ≡ self.old)) }
    {
        if self.messages.is_empty() {
            return None;
        }
        let oldest = self.messages.remove(0);
        self.shut = self.shut && self.messages.len() >= Gate::OPENS_BELOW;
        Some(oldest)
    }

    fn count(&self) -> u16 {
        self.messages.len() as u16
    }
}

/// There are two gates at which the same messages wait, the one shut and the other open: which messages it turns away
/// does not follow from what waits. So gates do not turn away alike where the same messages wait.
#[tactic(auto, using(crate::proofs::Gates::more_than_what_waits, crate::proofs::Gates::not_alike))]
pub fn a_gate_goes_by_more_than_what_waits()
    ensures two { (v : GateState) × (w : GateState) × (m : Sent) × IsGate v × IsGate w × (v.waiting ≡ w.waiting)
        × (gate.turns_away v m ≡ true) × (gate.turns_away w m ≡ false) }
    ensures not_alike { ¬ TurnAwayAlike gate gate }
{}

/// A gate that is shut turns every message away, and one that is open none.
#[tactic(auto, using(crate::proofs::Gates::away_while_shut))]
pub fn a_gate_turns_away_while_shut()
    ensures { (w : GateState) (m : Sent) → IsGate w → gate.turns_away w m ≡ w.shut }
{}

/// A gate carries messages, in whatever state.
#[tactic(auto, using(crate::proofs::Gates::gate_carries))]
pub fn gates_carry_messages()
    ensures { Carries gate (λ _. true) }
{}
