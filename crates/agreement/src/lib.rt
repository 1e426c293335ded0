//! The model of the agreement protocol: sets of stations and fault families; one station and its rules; networks; the
//! rig, its calls and their runs; and the law that every run keeps.
//!
//! `specs/` has the definitions. A function here has no work to do: its contract is a theorem, and the check asks for
//! the proof.

#![tactic(auto)]

ghost use Rattle.agreement.specs.Quorums.{QuorumsMeet, QuorumBlocks, BlockingReachesOut, QuorumReachesOut};
ghost use Rattle.agreement.specs.Quorums.{ComplementSuffices, OneBlocks, UpwardClosed, ClosedIgnores};
ghost use Rattle.agreement.specs.Sets.{NumbersAreSets, SetsAreNumbers};
ghost use Rattle.agreement.specs.Law.{EveryRun};
ghost use Rattle.agreement.specs.Theorems.{OneActDue, DueOrIdle, IdleIsServed, OrderOfTrying, SaidOnce};
ghost use Rattle.agreement.specs.Theorems.{Gradings, ClosingsByQuarter, CapAt32Bits, MissingFits, MissingGrows};
ghost use Rattle.agreement.specs.Exact.{CallsAreAnswered, StepsAreDetermined, RunsAreDetermined};
ghost use Rattle.agreement.specs.Exact.{HistoriesLeadOn, HistoriesTell};
ghost use Rattle.agreement.specs.Exact.{OnlyTakesAreOpen, RunsGoByTakes, FreeRunsGoByTakes};
ghost use Rattle.agreement.specs.Theorems.{StationsFollowRules, OpensBeforeClosing, NothingAhead, DecisionsLast};
ghost use Rattle.agreement.specs.Theorems.{MessagesStayWithin, PostedIsSaid, PostedBounded};
ghost use Rattle.agreement.specs.Example.{SingleRun, QuietRun};
ghost use Rattle.agreement.specs.Guests.{GuestRun};

pub mod message;

pub use message::Message;

/// Sets of stations below n and numbers below 2 ^ n are the same thing: station i counts 2 ^ i.
#[tactic(auto, using(crate::proofs::Numbers::numbers_are_sets, crate::proofs::Numbers::sets_are_numbers))]
pub fn sets_are_numbers()
    ensures each_number_is_a_set { NumbersAreSets }
    ensures each_set_has_a_number { SetsAreNumbers }
{}

/// What the four laws say of quorums and blocking sets, for every pair of families that keeps them; and that stations from
/// n on are ignored.
pub fn laws_give_quorums()
    ensures quorums_meet { QuorumsMeet }
    ensures quorum_outside_narrow_blocks { QuorumBlocks }
    ensures blocking_reaches_outside_wide { BlockingReachesOut }
    ensures quorum_reaches_outside_wide { QuorumReachesOut }
    ensures rest_of_wide_suffices { ComplementSuffices }
    ensures one_of_two_blocks { OneBlocks }
    ensures larger_sets_too { UpwardClosed }
    ensures stations_from_n_ignored { ClosedIgnores }
{}

/// The law of every run of calls on an opened rig, for every lawful fault rule, one round or more, and any guests,
/// openings, coin and network. The calls were answered as said, and each own station is where the rules led it. Under
/// narrow guests no two own stations decided differently, and gradings are at most one grade apart with one bit. Under
/// wide guests and one opening bit every grading and decision is that bit. In either case a quiet rig with nothing
/// missing has finished; it has decided in the second case, and in the first where some round's coin was unopposed.
/// Turns posted at most n² × (16 R + 1) messages.
pub fn every_run_keeps_the_law<N>()
    ensures { EveryRun N }
{}

/// After every run an own station is in the state that the rules give for its opening bit, its turns and the messages
/// that came to it, in their order. No law of the fault rule is needed.
#[tactic(auto, using(crate::proofs::Histories::stations_follow_rules))]
pub fn stations_follow_the_rules<N>()
    ensures { StationsFollowRules N }
{}

/// A station's decision, once made, stays through whatever calls follow.
#[tactic(auto, using(crate::proofs::Lasting::decisions_last))]
pub fn decisions_never_change<N>()
    ensures { DecisionsLast N }
{}

/// Opening comes before closing: after every run an own station has prepared its input in each stage that it has closed.
#[tactic(auto, using(crate::proofs::Lasting::opens_before_closing))]
pub fn stations_open_before_they_close<N>()
    ensures { OpensBeforeClosing N }
{}

/// After every run an own station has done nothing in a stage ahead of its own: prepared, admitted, proposed or graded.
pub fn stations_do_nothing_ahead<N>()
    ensures { NothingAhead N }
{}

/// At most one act is due at a station.
#[tactic(auto, using(crate::proofs::Due::one_act_due))]
pub fn one_act_is_due()
    ensures { OneActDue }
{}

/// Either some act is due at a station or none applies: so a turn is refused for want of an act exactly where none does.
pub fn an_act_is_due_or_none_applies()
    ensures { DueOrIdle }
{}

/// No act applies at a station exactly where it has done all that the rules ask of it.
#[tactic(auto, using(crate::proofs::Due::idle_is_served))]
pub fn idle_stations_have_done_their_part()
    ensures { IdleIsServed }
{}

/// An earlier stage goes first; in a stage opening, joining by value, admitting by value, closing; deciding comes last.
pub fn acts_are_tried_in_order()
    ensures { OrderOfTrying }
{}

/// A station says each thing once: just what an act makes it do for the first time.
#[tactic(auto, using(crate::proofs::Says::said_once))]
pub fn each_thing_is_said_once()
    ensures { SaidOnce }
{}

/// How a proposal set is graded, and what closing makes of the grading in each quarter.
pub fn closing_goes_by_set_and_quarter()
    ensures of_sets { Gradings }
    ensures by_quarter { ClosingsByQuarter }
{}

/// The count of missing messages never falls and never goes past the largest number of 32 bits; below that the cap changes
/// nothing.
#[tactic(auto, using(crate::proofs::Missing::missing_fits, crate::proofs::Missing::missing_grows))]
pub fn missing_stops_at_32_bits<N>()
    ensures cap { CapAt32Bits }
    ensures never_past { MissingFits N }
    ensures never_less { MissingGrows N }
{}

/// Every call on any rig has an answer, over a network that carries messages: it is refused with a number or done.
#[tactic(auto, using(crate::proofs::Answered::calls_are_answered))]
pub fn every_call_is_answered<N>()
    ensures { CallsAreAnswered N }
{}

/// A call's answer, and the rig after it, are determined by the rig before it, its network's state included. So is a whole
/// run by what its rig was opened with and over.
#[tactic(auto, using(crate::proofs::Exact::steps_are_determined, crate::proofs::Exact::runs_are_determined))]
pub fn calls_are_determined<N>()
    ensures of_a_step { StepsAreDetermined N }
    ensures of_a_run { RunsAreDetermined N }
{}

/// An own station's state is a function of its opening bit, its turns and the messages that came to it, in their order:
/// they lead to one state and no other, whatever else happened on its rig, and over whichever network.
#[tactic(auto, using(crate::proofs::Histories::histories_lead_on, crate::proofs::Histories::histories_tell))]
pub fn histories_determine_stations<N, M>()
    ensures one_state { HistoriesLeadOn }
    ensures in_any_run { HistoriesTell N M }
{}

/// Over two networks, be they of different kinds, that turn away the same messages where the same messages wait, only the
/// message that a delivery or a loss takes off is open: runs of the same calls in which the same messages were taken off
/// have the same answers and end with the same stations and counts. So have, over any two networks, runs in which no
/// message was turned away.
pub fn only_takes_are_open<N, M>()
    ensures of_a_step { OnlyTakesAreOpen N M }
    ensures of_a_run { RunsGoByTakes N M }
    ensures of_a_free_run { FreeRunsGoByTakes N M }
{}

/// After every run, what waits goes from a station of the rig to a station of the rig.
pub fn messages_stay_within_the_rig<N>()
    ensures { MessagesStayWithin N }
{}

/// After every run turns have posted just n messages for each thing that a station said, and so at most n² × (16 R + 1),
/// whatever the fault rule and the guests.
#[tactic(auto, using(crate::proofs::Cost::posted_is_said, crate::proofs::Cost::posted_bounded))]
pub fn posted_is_what_was_said<N>()
    ensures exactly { PostedIsSaid N }
    ensures bound { PostedBounded N }
{}

/// A rig of a single station: its first six calls with their answers, and a run to the end, where it is quiet, finished
/// and decided with nothing missing, opened alike and with an unopposed coin. So neither the definitions nor the premises
/// of the law are empty.
#[tactic(auto, using(crate::proofs::Example::single_run, crate::proofs::Example::quiet_run))]
pub fn a_single_station_plays()
    ensures to_the_next_stage { SingleRun }
    ensures to_a_quiet_rig { QuietRun }
{}

/// A rig of two own stations and a guest, on a small network: a run with every refusal but 13, which the single station's
/// run has, with messages that are ignored, with losses and repeats, and what it leads to.
#[tactic(auto, using(crate::proofs::Guests::guest_run))]
pub fn a_rig_with_a_guest_plays()
    ensures { GuestRun }
{}
