//! Transcripts: what a rig prints that is opened, called and closed.

#![tactic(auto)]

ghost use Rattle.playback.specs.Theorems.{RunsPrintOneText, OneText};

mod of_file;
mod playing;

pub use of_file::printout;
pub use playing::play;

/// A run prints one text: the same calls, on rigs that are opened alike over a network in one state, print the same.
/// The function has no work to do: its contract is a theorem, and the check asks for the proof.
pub fn runs_are_printed_in_one_way<N>()
    ensures { RunsPrintOneText N }
{}

/// Of a file is printed one text, or that memory is short. As above, the contract is a theorem.
pub fn files_are_printed_in_one_way()
    ensures { OneText }
{}
