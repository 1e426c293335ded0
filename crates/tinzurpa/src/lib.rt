//! For programs in C: whether bytes are a run file.

#![tactic(auto)]

ghost use Rattle.std.specs.Prelude.{◌≡◌, ◌⊎◌, MatchResult};
ghost use Rattle.runfile.specs.Faults.{number as number_of};
ghost use Rattle.runfile.specs.Files.{WellFormed};
ghost use Rattle.tinzurpa.specs.Checked.{Checked};

use runfile::{FileFault, RunFile};
use std::alloc::Global;

// 0 for a run file, else the number of the fault.
fn number(read: Result<RunFile, FileFault>) -> u32
    ensures { MatchResult read (λ _. result ≡ 0) (λ e. result ≡ number_of e) }
{
    match read {
        Ok(_) => 0,
        Err(fault) => fault.number() as u32,
    }
}

/// 0 where the bytes are a run file; else the number of their first fault. A run file is refused with no number but 51. In C the
/// function has two parameters, where the bytes are and how many: the first one here has no size.
#[unsafe(no_mangle)]
pub extern "C" fn tinzurpa_check(heap: Global, file: &[u8]) -> u32
    ensures checked { Checked file.now result }
    ensures zero { result ≡ 0 → WellFormed file.now }
    ensures well_formed { WellFormed file.now → (result ≡ 0) ⊎ (result ≡ 51) }
{
    number(RunFile::read(heap, file))
}
