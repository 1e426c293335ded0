//! Making calls.

ghost use Rattle.calls.specs.Making.{Made};

use crate::answer::Answer;
use crate::call::Call;
use coins::Coin;
use faults::rule::FaultRule;
use network::Network;
use rig::{CallFault, Rig};

impl Call {
    /// Makes the call of a rig.
    pub fn make<F: FaultRule, N: Network, C: Coin>(
        self,
        rig: &mut Rig<F, N, C>,
    ) -> Result<Answer, CallFault>
        ensures { Made self result rig.old rig.new }
    {
        match self {
            Call::Turn { station } => rig.turn(station).map(|act| Answer::Acted { station, act }),
            Call::Deliver { hint } => {
                rig.deliver(hint)
                    .map(|delivery| Answer::Delivered { delivery })
            }
            Call::Send { message } => rig.send(message).map(|()| Answer::Sent),
            Call::Lose { hint } => rig.lose(hint).map(|message| Answer::Lost { message }),
        }
    }
}
