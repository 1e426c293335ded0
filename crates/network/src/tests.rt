//! What clauses cannot show: that networks can be made, and that the places and lanes meant are these. The wanted values
//! are those that `tools/expected.py` prints. That `count` stops at 65,535 is out of reach: a bag comes to 4,096, lanes
//! to 400.

ghost use Rattle.std.specs.Prelude.{◌≡◌, ◌∷◌, Some, IfOk, OnOk, OnErr, is_err};
ghost use Rattle.agreement.specs.Messages.{Same};

use crate::bag::Bag;
use crate::lanes::Lanes;
use crate::{Message, Network, TurnedAway, exchange};

// The message to an addressee with the number k in two of its fields.
fn numbered(addressee: u8, k: u16) -> Message {
    Message {
        sender: (k / 256) as u8,
        addressee,
        kind: 1,
        stage: 0,
        value: (k % 256) as u8,
    }
}

fn number(message: Message) -> u16 {
    message.sender as u16 * 256 + message.value as u16
}

// Takes off all that waits, with the hints 11, 48, 85 and so on, and answers how many messages came and a digest of their
// numbers in the order in which they came.
fn empty<N: Network>(network: &mut N) -> (u16, u32) {
    let mut digest = 0u32;
    let mut hint = 11u8;
    for taken in 0..5000 {
        let Some(message) = network.take(hint) else {
            return (taken, digest);
        };
        digest = digest.wrapping_mul(31).wrapping_add(number(message) as u32) % 1_000_003;
        hint = hint.wrapping_add(37);
    }
    (5000, digest)
}

#[test]
fn a_bag_answers_by_place(rt: HostRuntime) {
    let mut bag = Bag::new(rt.alloc()).expect(&rt, "there is memory");
    for k in 0..6 {
        assert_eq!(rt; bag.post(numbered(0, k)), Ok(()));
    }
    for (hint, want) in [(7, 1), (0, 0), (255, 3), (3, 4), (1, 5), (9, 2)] {
        assert_eq!(rt; bag.take(hint), Some(numbered(0, want)));
    }
    assert_eq!(rt; bag.take(200), None);
}

#[test]
fn a_full_bag_turns_away(rt: HostRuntime) {
    let mut bag = Bag::new(rt.alloc()).expect(&rt, "there is memory");
    for k in 0..4096 {
        assert_eq!(rt; bag.post(numbered(0, k)), Ok(()));
    }
    assert_eq!(rt; bag.post(numbered(0, 0)), Err(TurnedAway));
    assert_eq!(rt; bag.count(), 4096);
    assert_eq!(rt; empty(&mut bag), (4096, 652475));
    assert_eq!(rt; bag.count(), 0);
    assert_eq!(rt; bag.post(numbered(0, 0)), Ok(()));
}

#[test]
fn lanes_answer_the_oldest_going_round(rt: HostRuntime) {
    let mut lanes = Lanes::new(rt.alloc()).expect(&rt, "there is memory");
    for (addressee, k) in [(3, 0), (13, 1), (7, 2), (0, 3), (255, 4), (9, 5), (3, 6)] {
        assert_eq!(rt; lanes.post(numbered(addressee, k)), Ok(()));
    }
    for (hint, addressee, want) in [
        (3, 3, 0),
        (4, 255, 4),
        (8, 9, 5),
        (19, 0, 3),
        (255, 7, 2),
        (1, 13, 1),
        (2, 3, 6),
    ] {
        assert_eq!(rt; lanes.take(hint), Some(numbered(addressee, want)));
    }
    assert_eq!(rt; lanes.take(0), None);
}

#[test]
fn full_lanes_turn_away(rt: HostRuntime) {
    let mut lanes = Lanes::new(rt.alloc()).expect(&rt, "there is memory");
    for k in 0..400 {
        assert_eq!(rt; lanes.post(numbered((k % 250) as u8, k)), Ok(()));
    }
    for addressee in 0..=255 {
        assert_eq!(rt; lanes.post(numbered(addressee, 0)), Err(TurnedAway));
    }
    assert_eq!(rt; lanes.count(), 400);
    assert_eq!(rt; empty(&mut lanes), (400, 750349));
    assert_eq!(rt; lanes.count(), 0);
}

// Posts twelve messages, from the first number on or from the last, takes off all that waits with one hint, and answers
// how many waited and which numbers came, number k as 2^k.
fn post_and_empty<N: Network>(network: &mut N, backward: bool, hint: u8) -> (u16, u32) {
    for k in 0..12 {
        let k = if backward { 11 - k } else { k };
        let _ = network.post(numbered(k as u8, k));
    }
    let count = network.count();
    let mut numbers = 0;
    for _ in 0..count {
        let Some(message) = network.take(hint) else {
            break;
        };
        numbers |= 1u32.wrapping_shl(number(message) as u32);
    }
    (count, numbers)
}

#[test]
fn what_waits_does_not_go_by_order(rt: HostRuntime) {
    let mut bag = Bag::new(rt.alloc()).expect(&rt, "there is memory");
    let mut lanes = Lanes::new(rt.alloc()).expect(&rt, "there is memory");
    for hint in [0, 5, 200] {
        for backward in [false, true] {
            assert_eq!(rt; post_and_empty(&mut bag, backward, hint), (12, 4095));
            assert_eq!(rt; post_and_empty(&mut lanes, backward, hint), (12, 4095));
        }
    }
}

// How many messages wait after one was posted and all were let go of, and what a take answers then.
fn post_and_clear<N: Network>(network: &mut N) -> (u16, Option<Message>) {
    let _ = network.post(numbered(3, 1));
    network.clear();
    (network.count(), network.take(0))
}

#[test]
fn nothing_waits_once_cleared(rt: HostRuntime) {
    let mut bag = Bag::new(rt.alloc()).expect(&rt, "there is memory");
    let mut lanes = Lanes::new(rt.alloc()).expect(&rt, "there is memory");
    assert_eq!(rt; post_and_clear(&mut bag), (0, None));
    assert_eq!(rt; post_and_clear(&mut lanes), (0, None));
}

// Over a network that is lent on, an exchange leaves that network as it would over the network itself.
fn exchange_lent<N: Network>(
    network: &mut N,
    message: Message,
    hint: u8,
) -> Result<Message, TurnedAway>
    ensures variant { is_err result ≡ N.net.turns_away network.old message }
    ensures ok { IfOk result
        (λ m. Same (message ∷ N.net.waiting network.old) (m ∷ N.net.waiting network.new)) }
    ensures choice { IfOk result (λ m. N.net.picks (N.net.posted network.old message) hint ≡ Some m) }
    ensures state { OnOk result (network.new ≡ N.net.taken (N.net.posted network.old message) hint) }
    ensures err { OnErr result (network.new ≡ network.old) }
{
    exchange(&mut &mut *network, message, hint)
}

#[test]
fn a_message_is_exchanged_for_another(rt: HostRuntime) {
    let mut lanes = Lanes::new(rt.alloc()).expect(&rt, "there is memory");
    let (old, new) = (numbered(4, 1), numbered(4, 2));
    assert_eq!(rt; exchange(&mut lanes, old, 9), Ok(old));
    assert_eq!(rt; lanes.post(old), Ok(()));
    assert_eq!(rt; exchange(&mut lanes, new, 9), Ok(old));
    assert_eq!(rt; lanes.count(), 1);
    assert_eq!(rt; exchange(&mut lanes, numbered(9, 3), 9), Ok(numbered(9, 3)));
    assert_eq!(rt; lanes.count(), 1);
    for _ in 0..39 {
        assert_eq!(rt; lanes.post(old), Ok(()));
    }
    assert_eq!(rt; exchange(&mut lanes, new, 9), Err(TurnedAway));
    assert_eq!(rt; lanes.count(), 40);
}

#[test]
fn a_lent_bag_carries_for_the_bag(rt: HostRuntime) {
    let mut bag = Bag::new(rt.alloc()).expect(&rt, "there is memory");
    let mut lent = &mut bag;
    for k in 0..6 {
        assert_eq!(rt; Network::post(&mut lent, numbered(0, k)), Ok(()));
    }
    for (hint, want) in [(7, 1), (0, 0)] {
        assert_eq!(rt; Network::take(&mut lent, hint), Some(numbered(0, want)));
    }
    assert_eq!(rt; Network::count(&lent), 4);
    for (hint, want) in [(255, 3), (3, 4)] {
        assert_eq!(rt; bag.take(hint), Some(numbered(0, want)));
    }
    assert_eq!(rt;
        exchange(&mut &mut bag, numbered(0, 6), 1),
        Ok(numbered(0, 5))
    );
    assert_eq!(rt;
        exchange_lent(&mut bag, numbered(0, 7), 0),
        Ok(numbered(0, 2))
    );
    assert_eq!(rt; bag.count(), 2);
    assert_eq!(rt; bag.take(0), Some(numbered(0, 7)));
    assert_eq!(rt; bag.count(), 1);
    Network::clear(&mut &mut bag);
    assert_eq!(rt; bag.count(), 0);
    assert_eq!(rt; bag.take(0), None);
}

#[test]
fn being_turned_away_has_words(rt: HostRuntime) {
    let text = format!(in rt.alloc(); "{TurnedAway}").expect(&rt, "there is memory");
    assert_eq!(rt; text.as_str(), "the network turned the message away");
}
