//! Networks that are lent.

ghost use Rattle.network.specs.Lent.{lent};

use crate::{Message, Network, TurnedAway};

/// A loan of a network is a network too: what is posted to it waits on the network lent, and is taken off there.
impl<N: Network> Network for &mut N {
    ghost use Rattle.network.specs.LentLemmas.{lent_roomy};

    ghost net = { lent N.net };

    ghost floor = { λ r. N.floor r.now };

    ghost roomy = { λ r. lent_roomy N.net (N.floor r.now) r (N.roomy r.now) };

    fn clear(&mut self) {
        (**self).clear();
    }

    fn post(&mut self, message: Message) -> Result<(), TurnedAway> {
        (**self).post(message)
    }

    fn take(&mut self, hint: u8) -> Option<Message> {
        (**self).take(hint)
    }

    fn count(&self) -> u16 {
        (**self).count()
    }
}
