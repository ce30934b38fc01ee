//! Why a call did not do its work.
ghost use Rattle.std.specs.Prelude.{◌≡◌, ◌≤◌};
ghost use Rattle.pssm_base.specs.Faults.{raised};
ghost use Rattle.pssm_base.specs.declared.fault.WholeFault.TheVariants.{ReadFault, NoMemory as Memory};

use std::alloc::AllocFailed;
use thiserror::Error;

/// The allocator had no memory left.
pub use std::alloc::AllocError as NoMemory;

/// The outside did not do what it was asked: the bytes could not be read, or could not be written.
#[derive(Clone, Copy, Debug, PartialEq, Eq, Error)]
#[error("reading or writing failed")]
pub struct Failed;

/// Why the whole of a path could not be read. Nothing of it is kept.
#[derive(Clone, Copy, Debug, PartialEq, Eq, Error)]
pub enum WholeFault {
    /// The path holds more bytes than the limit.
    #[error("too large")]
    TooLarge,
    /// A read failed: the count of the path's faults rose.
    #[error("a read failed")]
    ReadFault,
    /// There was no memory for the bytes.
    #[error("no memory")]
    NoMemory,
}

impl From<Failed> for WholeFault {
    ghost from_gives = { λ _ e. e ≡ ReadFault };

    fn from(_: Failed) -> Self {
        WholeFault::ReadFault
    }
}

impl From<NoMemory> for WholeFault {
    ghost from_gives = { λ _ e. e ≡ Memory };

    fn from(_: NoMemory) -> Self {
        WholeFault::NoMemory
    }
}

impl<T: Drop> From<AllocFailed<T>> for WholeFault {
    ghost from_gives = { λ _ e. e ≡ Memory };

    fn from(_: AllocFailed<T>) -> Self {
        WholeFault::NoMemory
    }
}

// Counts a fault.
pub(crate) fn raise(faults: &mut u64) -> Failed
    ensures raised { faults.new ≡ raised faults.old }
    ensures kept { faults.old ≤ faults.new }
{
    *faults = faults.saturating_add(1);
    Failed
}
