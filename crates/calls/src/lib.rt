//! Calls of a rig as values, their answers, and calls as bytes.

#![tactic(auto)]

ghost use Rattle.calls.specs.Theorems.{CallsInOneWay, BrokenAreNoCalls, BreakInOnePlace};

pub mod answer;
pub mod call;
pub mod fault;
pub mod making;
pub mod reading;

/// Bytes are read in one way only: they are calls, and only these; or they break, and only there; and never both. The
/// function has no work to do: its contract is a theorem, and the check asks for the proof.
pub fn bytes_are_read_in_one_way()
    ensures calls { CallsInOneWay }
    ensures not_both { BrokenAreNoCalls }
    ensures place { BreakInOnePlace }
{}
