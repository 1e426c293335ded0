//! The calls: turn, deliver, lose, and a guest's message.

ghost use Rattle.std.specs.Prelude.{◌≡◌, [], IfOk, IfErr, OnErr};
ghost use Rattle.agreement.specs.Rig as call;
ghost use Rattle.agreement.specs.Rig.{Step, acted, delivered, lost, sent};
ghost use Rattle.acts.specs.Acts.{act_of};
ghost use Rattle.rig.specs.Calls.{answer};
ghost use Rattle.rig.specs.Rigs.{setting, view, Kept, TakenOff};
ghost use Rattle.rig.specs.declared.fault.CallFault.TheVariants.{NothingWaits};

use super::Rig;
use crate::fault::CallFault;
use crate::posts::Posts;
use crate::setup::is_between;
use acts::act::Act;
use agreement::Message;
use coins::Coin;
use faults::rule::FaultRule;
use network::Network;

/// What a delivery came to.
#[derive(Clone, Copy, PartialEq, Eq, Debug)]
pub struct Delivery {
    /// The message that was delivered.
    pub message: Message,
    /// Whether its addressee's record changed.
    pub changed: bool,
}

impl<F: FaultRule, N: Network, C: Coin> Rig<F, N, C> {
    /// Has an own station do the act that is due there. What that says is posted to each station in ascending order, the
    /// station itself included; the act stands, and the other messages are posted, also where some are turned away.
    pub fn turn(&mut self, station: u8) -> Result<Act, CallFault>
        ensures step { Step N.net (setting self.old) (call.turn station) (answer (λ act. acted station (act_of act)) result) (view self.old) (view self.new) }
        ensures kept { Kept self.old self.new }
        ensures refused { OnErr result (self.new ≡ self.old) }
    {
        self.check_own(station)?;
        let own = self.own();
        let rounds = self.setup.rounds;
        let Some(turn) = self.stations.turn(station, &self.rule, &self.coin, rounds) else {
            return Err(CallFault::NothingDue);
        };
        if let Some(payload) = turn.says {
            let size = self.rule.size();
            let posts = Posts::broadcast(&mut self.network, own, station, payload, size);
            self.posted += size as u16;
            self.under_way += posts.entered;
            self.missing = self.missing.saturating_add(posts.away as u32);
        }
        Ok(turn.act)
    }

    /// Delivers a message that waits, the one that the network picks by a hint. It goes into the record of an own station,
    /// and has no effect on a guest.
    pub fn deliver(&mut self, hint: u8) -> Result<Delivery, CallFault>
        ensures step { Step N.net (setting self.old) (call.deliver hint) (answer (λ d. delivered d.message d.changed) result) (view self.old) (view self.new) }
        ensures kept { Kept self.old self.new }
        ensures refused { OnErr result (self.new ≡ self.old) }
    {
        let own = self.own();
        let message = self.take(hint)?;
        let rounds = self.setup.rounds;
        let changed = self.stations.deliver(&self.rule, rounds, own, message);
        self.last = Some(message);
        Ok(Delivery { message, changed })
    }

    /// Loses a message that waits, the one that the network picks by a hint: it is gone.
    pub fn lose(&mut self, hint: u8) -> Result<Message, CallFault>
        ensures step { Step N.net (setting self.old) (call.lose hint) (answer lost result) (view self.old) (view self.new) }
        ensures kept { Kept self.old self.new }
        ensures refused { OnErr result (self.new ≡ self.old) }
    {
        let own = self.own();
        let message = self.take(hint)?;
        self.missing = self.missing.saturating_add(is_between(own, message) as u32);
        Ok(message)
    }

    // Takes a message off the network.
    fn take(&mut self, hint: u8) -> Result<Message, CallFault>
        ensures taken { IfOk result (λ m. TakenOff hint m self.old self.new) }
        ensures none { IfErr result (λ e. (e ≡ NothingWaits) × (N.net.waiting self.old.network ≡ [])) }
        ensures refused { OnErr result (self.new ≡ self.old) }
    {
        let own = self.own();
        let Some(message) = self.network.take(hint) else {
            return Err(CallFault::NothingWaits);
        };
        self.under_way -= is_between(own, message) as u16;
        Ok(message)
    }

    /// Posts a guest's message, whatever it says.
    pub fn send(&mut self, message: Message) -> Result<(), CallFault>
        ensures step { Step N.net (setting self.old) (call.send message) (answer (λ _. sent) result) (view self.old) (view self.new) }
        ensures kept { Kept self.old self.new }
        ensures refused { OnErr result (self.new ≡ self.old) }
    {
        let size = self.rule.size();
        if message.sender >= size || message.addressee >= size {
            return Err(CallFault::NoStation);
        }
        if !self.setup.guests.has(message.sender) {
            return Err(CallFault::OwnSender);
        }
        self.network.post(message)?;
        Ok(())
    }
}
