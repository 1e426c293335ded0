//! Run files: a fault rule, stations, a coin and calls, as bytes.

#![tactic(auto)]

ghost use Rattle.runfile.specs.Theorems.{SaidIsWellFormed, WellFormedHasNoFault, SaidHasNoFault, OneFirstFault, OneRun};

mod body;
mod coin;
mod contents;
mod fault;
mod file;
mod station_body;
#[cfg(test)]
mod tests;

pub use body::Body;
pub use coin::FileCoin;
pub use contents::bodies;
pub use fault::FileFault;
pub use file::RunFile;
pub use station_body::NetworkKind;

/// What is read of a file is determined by the file: one run, or one first fault, and never both, except that memory may
/// be short. The function has no work to do: its contract is a theorem, and the check asks for the proof.
pub fn files_are_read_in_one_way()
    ensures said_well_formed { SaidIsWellFormed }
    ensures well_formed_faultless { WellFormedHasNoFault }
    ensures said_faultless { SaidHasNoFault }
    ensures fault { OneFirstFault }
    ensures run { OneRun }
{}
