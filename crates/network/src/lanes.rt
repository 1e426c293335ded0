//! Messages in ten queues, by addressee.

ghost use Rattle.std.specs.Prelude.{◌≡◌, ◌+◌, ◌%◌, ◌<◌, nat_le, [], length, replicate, IfSome, IfNone, is_err, IfOk, OnOk, OnErr};
ghost use Rattle.agreement.specs.Networks.{Clears, Enters, Exits};
ghost use Rattle.network.specs.Lanes.{lane_of, in_lane, all_lanes, load, ten_lanes, lane_holds, first_filled, lanes_pick};

use crate::lane::Lane;
use crate::{Network, TurnedAway};
use agreement::Message;
use std::alloc::{AllocError, Global};
use std::array;
use std::marker::Model;

/// Ten lanes of at most 40 messages, by addressee mod 10.
#[derive(Drop)]
pub struct Lanes {
    lanes: [Lane; Lanes::COUNT],
}

/// Clauses see the ten lanes, each with its oldest message first.
impl Model for Lanes {
    ghost use Rattle.std.specs.Prelude.{List};
    ghost use Rattle.agreement.specs.declared.message.Message.{Message as Sent};
    ghost use Rattle.network.specs.Lanes.{AreLanes};

    ghost Value = { List (List Sent) };

    ghost view = { λ l. l.lanes };

    ghost invariant = { λ l. AreLanes l.lanes };
}

impl Lanes {
    /// How many lanes there are.
    const COUNT: usize = 10;

    /// Ten empty lanes, with memory for all that they can hold: no later call allocates.
    pub fn new(heap: Global) -> Result<Lanes, AllocError>
        ensures { IfOk result (λ l. l ≡ replicate 10 []) }
    {
        Ok(Lanes {
            lanes: array::try_from_fn(|_| Lane::new(heap))?,
        })
    }
}

// The lane of a message.
fn lane_of(message: Message) -> usize
    ensures { result ≡ lane_of message }
{
    message.addressee as usize % Lanes::COUNT
}

// The lane so many places after another, going round.
fn lane_after(lane: usize, places: usize) -> usize
    requires { (lane < 10) × (places < 10) }
    ensures { result ≡ (lane + places) % 10 }
{
    (lane + places) % Lanes::COUNT
}

// The first lane in which a message waits, from a lane on, going round.
fn first_filled(lanes: &[Lane; Lanes::COUNT], start: usize) -> Option<usize>
    requires { start < 10 }
    ensures lane { IfSome result (λ i. i ≡ first_filled lanes.now start) }
    ensures filled { IfSome result (λ i. (i < 10) × (0 < length (in_lane lanes.now i))) }
    ensures none { IfNone result (all_lanes lanes.now ≡ []) }
{
    for passed in 0..Lanes::COUNT {
        let lane = lane_after(start, passed);
        if !lanes[lane].is_empty() {
            return Some(lane);
        }
    }
    None
}

impl Network for Lanes {
    ghost use Rattle.network.specs.LanesLemmas.{lanes_roomy};

    ghost net = { ten_lanes };

    ghost floor = { λ l. lane_holds };

    ghost roomy = { lanes_roomy };

    fn clear(&mut self)
        ensures cleared { Clears ten_lanes self.old self.new }
    {
        for lane in self.lanes.iter_mut() {
            lane.clear();
        }
    }

    /// A message that is posted is the newest of its lane.
    #[tactic(auto, using(crate::proofs::Queues::full_lane))]
    fn post(&mut self, message: Message) -> Result<(), TurnedAway>
        ensures variant { is_err result ≡ nat_le lane_holds (load (lane_of message) (all_lanes self.old)) }
        ensures ok { OnOk result (Enters ten_lanes message self.old self.new) }
        ensures err { OnErr result (self.new ≡ self.old) }
    {
        self.lanes[lane_of(message)].put(message)
    }

    /// The oldest message of the first lane with one, from lane hint mod 10 on, going round.
    fn take(&mut self, hint: u8) -> Option<Message>
        ensures choice { result ≡ lanes_pick self.old hint }
        ensures some { IfSome result (λ m. Exits ten_lanes hint m self.old self.new) }
        ensures none { IfNone result ((all_lanes self.old ≡ []) × (self.new ≡ self.old)) }
    {
        let lane = first_filled(&self.lanes, hint as usize % Lanes::COUNT)?;
        self.lanes[lane].take_oldest()
    }

    fn count(&self) -> u16 {
        self.lanes.iter().map(|lane| lane.len()).sum()
    }
}
