//! Why bytes are not calls.

ghost use Rattle.std.specs.Prelude.{◌≡◌};
ghost use Rattle.calls.specs.declared.fault.ReadFault.TheVariants.{Memory};

use crate::call::Call;
use std::alloc::AllocFailed;

/// Why bytes are not read as calls.
#[derive(Clone, Copy, PartialEq, Eq, Debug)]
pub enum ReadFault {
    /// At this place the next call has an unknown letter, or is cut off.
    Broken { place: usize },
    /// There is no memory for the calls.
    Memory,
}

// By hand, for the contract.
impl From<AllocFailed<Call>> for ReadFault {
    ghost from_gives = { λ _ r. r ≡ Memory };

    fn from(_: AllocFailed<Call>) -> ReadFault {
        ReadFault::Memory
    }
}
