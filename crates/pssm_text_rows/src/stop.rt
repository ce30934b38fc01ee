//! Why a line of a file of texts gives no answer.

use pssm_acts::ActFault;
use pssm_cases::SpellFault;
use std::alloc::{AllocError, AllocFailed};

// Why there is no answer to a line: memory ran out, the line is none that can stand there, or its text is refused.
#[derive(Drop)]
pub(crate) enum Stop {
    NoMemory,
    Unread,
    Refused(ActFault),
}

impl From<AllocError> for Stop {
    fn from(_e: AllocError) -> Stop {
        Stop::NoMemory
    }
}

impl<T: Drop> From<AllocFailed<T>> for Stop {
    fn from(_e: AllocFailed<T>) -> Stop {
        Stop::NoMemory
    }
}

impl From<SpellFault> for Stop {
    fn from(fault: SpellFault) -> Stop {
        match fault {
            SpellFault::NoEscape => Stop::Unread,
            SpellFault::NoMemory => Stop::NoMemory,
        }
    }
}

impl From<ActFault> for Stop {
    fn from(fault: ActFault) -> Stop {
        match fault {
            ActFault::NoMemory => Stop::NoMemory,
            other => Stop::Refused(other),
        }
    }
}
