//! What a station says to all.

ghost use Rattle.std.specs.Prelude.{◌≡◌, true};
ghost use Rattle.acts.specs.Payloads.{payload_of};
ghost use Rattle.rig.specs.Settings.{among};
ghost use Rattle.rig.specs.Posts.{Told};

use crate::setup::is_among;
use acts::payload::Payload;
use network::Network;
use stations::StationSet;

/// What became of the messages to own stations by which one of them said something to all.
#[derive(Drop)]
pub(crate) struct Posts {
    /// How many wait once more.
    pub(crate) entered: u16,
    /// How many were turned away.
    pub(crate) away: u16,
}

impl Posts {
    /// Posts what an own station says to each of so many stations, in ascending order, also past a message that is turned
    /// away.
    pub(crate) fn broadcast<N: Network>(
        network: &mut N,
        own: StationSet,
        sender: u8,
        payload: Payload,
        size: u8,
    ) -> Posts
        requires { among own sender ≡ true }
        ensures told { Told N.net (among own) sender (payload_of payload) size network.old network.new result }
        ensures floor { N.floor network.new ≡ N.floor network.old }
    {
        let mut posts = Posts {
            entered: 0,
            away: 0,
        };
        for addressee in 0..size {
            let waits = network.post(payload.to_message(sender, addressee)).is_ok();
            let is_own = is_among(own, addressee);
            posts.entered += (is_own & waits) as u16;
            posts.away += (is_own & !waits) as u16;
        }
        posts
    }
}
