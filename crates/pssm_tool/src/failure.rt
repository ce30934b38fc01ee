//! Why the program has no answer.
ghost use Rattle.std.specs.Prelude.{◌≡◌};
ghost use Rattle.pssm_tool.specs.declared.failure.Failure.TheVariants.{NoMemory as Memory};

use std::alloc::AllocError;

/// Why there is no answer to the words. Nothing is written.
#[derive(Clone, Copy, PartialEq, Eq)]
pub enum Failure {
    /// A file could not be read: the count of its path's faults rose.
    ReadFault,
    /// There was not enough memory.
    NoMemory,
}

impl From<AllocError> for Failure {
    ghost from_gives = { λ _ e. e ≡ Memory };

    fn from(_: AllocError) -> Failure {
        Failure::NoMemory
    }
}
