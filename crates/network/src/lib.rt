//! Networks: what carries the stations' messages.

#![tactic(auto)]

ghost use Rattle.std.specs.Prelude.{◌≡◌, ℕ, ◌<◌, ◌≤◌, min, Bool, true, false, [], ◌∷◌, length, codes};
ghost use Rattle.std.specs.Prelude.{Option, Some, IfSome, IfNone, is_err, IfOk, IsOk, OnOk, OnErr};
ghost use Rattle.agreement.specs.declared.message.Message.{Message as Sent};
ghost use Rattle.agreement.specs.Messages.{Same};
ghost use Rattle.agreement.specs.Networks.{Network as NetworkOf, Clears, Enters, Exits, Carries};
ghost use Rattle.agreement.specs.Exact.{TurnAwayAlike};
ghost use Rattle.network.specs.Floors.{Roomy};
ghost use Rattle.network.specs.Bags.{bag};
ghost use Rattle.network.specs.Lanes.{ten_lanes, are_ten};
ghost use Rattle.network.specs.Lent.{lent};

pub mod bag;
mod lane;
pub mod lanes;
pub mod lent;

pub use agreement::Message;
use std::error::Error;
use std::fmt;

/// A message was turned away: it does not wait once more, and its network is as it was.
#[derive(Clone, Copy, PartialEq, Eq, Debug)]
pub struct TurnedAway;

impl fmt::Display for TurnedAway {
    ghost output = { λ _. Some (codes "the network turned the message away") };

    fn fmt<W: fmt::Write>(&self, f: &mut fmt::Formatter<W>) -> fmt::Result {
        f.write_str("the network turned the message away")
    }
}

impl Error for TurnedAway {}

/// A network carries messages. What it means is which messages wait, each as often as it waits; the order in which
/// `waiting` lists them is no part of that. From the same state it goes on the same: its state tells which messages it
/// turns away, which message a take picks by a hint, and the states that follow.
pub trait Network {
    // What waits, what is turned away and picked, and the states that calls leave.
    ghost net: { NetworkOf Self };

    // With fewer messages waiting than its floor it turns none away.
    ghost floor: { Self → ℕ };

    /// Lets go of all that waits.
    fn clear(&mut self)
        ensures cleared { Clears net self.old self.new }
        ensures floor { floor self.new ≡ floor self.old };

    /// Has a message wait once more, or turns it away, and then nothing changes.
    fn post(&mut self, message: Message) -> Result<(), TurnedAway>
        ensures variant { is_err result ≡ net.turns_away self.old message }
        ensures ok { OnOk result (Enters net message self.old self.new) }
        ensures err { OnErr result (self.new ≡ self.old) }
        ensures floor { floor self.new ≡ floor self.old };

    /// Takes off a message that waits, which one being the network's choice by a hint. There is none exactly when nothing
    /// waits, and then nothing changes.
    fn take(&mut self, hint: u8) -> Option<Message>
        ensures choice { result ≡ net.picks self.old hint }
        ensures some { IfSome result (λ m. Exits net hint m self.old self.new) }
        ensures none { IfNone result ((net.waiting self.old ≡ []) × (self.new ≡ self.old)) }
        ensures floor { floor self.new ≡ floor self.old };

    /// How many messages wait, or 65,535 if more do.
    fn count(&self) -> u16
        ensures { result ≡ min 65535 (length (net.waiting self.now)) };

    // No network turns messages away below its floor, which is at least 16.
    ghost roomy: { (w : Self) → Roomy net (floor w) w };
}

/// Every network has a floor of at least 16, and turns no message away below it.
pub fn keeps_laws<N: Network>(network: &N)
    ensures at_least_16 { 16 ≤ N.floor network.now }
    ensures below_floor { (m : Sent) → length (N.net.waiting network.now) < N.floor network.now
        → N.net.turns_away network.now m ≡ false }
{}

/// A bag carries messages, in whatever state: what it does not turn away enters it, and by each hint a message exits,
/// if any waits. What it turns away goes by how often each message waits, and not by their order.
pub fn bags_carry_messages()
    ensures carries { Carries bag (λ _. true) }
    ensures by_what_waits { TurnAwayAlike bag bag }
{}

/// So do ten lanes.
pub fn lanes_carry_messages()
    ensures carries { Carries ten_lanes are_ten }
    ensures by_what_waits { TurnAwayAlike ten_lanes ten_lanes }
{}

/// So does each loan of a network that carries messages; and it turns away what the network lent does.
#[tactic(auto, using(crate::proofs::Carrying::lent_carries, crate::proofs::Carrying::lent_alike))]
pub fn loans_carry_messages<N>()
    ensures carries { (net : NetworkOf N) (fit : N → Bool) → Carries net fit → Carries (lent net) (λ r. fit r.now) }
    ensures by_what_waits { (net : NetworkOf N) → TurnAwayAlike net net → TurnAwayAlike (lent net) net }
{}

/// Posts a message and takes one off, the same or another: with fewer messages waiting than the floor there always is
/// one.
#[tactic(auto, using(agreement::proofs::Copies::not_empty))]
pub fn exchange<N: Network>(
    network: &mut N,
    message: Message,
    hint: u8,
) -> Result<Message, TurnedAway>
    ensures variant { is_err result ≡ N.net.turns_away network.old message }
    ensures ok { IfOk result
        (λ m. Same (message ∷ N.net.waiting network.old) (m ∷ N.net.waiting network.new)) }
    ensures choice { IfOk result (λ m. N.net.picks (N.net.posted network.old message) hint ≡ Some m) }
    ensures state { OnOk result (network.new ≡ N.net.taken (N.net.posted network.old message) hint) }
    ensures err { OnErr result (network.new ≡ network.old) }
    ensures below_floor { length (N.net.waiting network.old) < N.floor network.old → IsOk result }
    ensures floor { N.floor network.new ≡ N.floor network.old }
{
    network.post(message)?;
    Ok(network.take(hint).unwrap())
}

#[cfg(test)]
mod tests;
