//! Why the texts of a machine cannot be read.
ghost use Rattle.std.specs.Prelude.{◌≡◌};
ghost use Rattle.pssm_bodies.specs.declared.body_fault.BodyFault.TheVariants.{NoMemory};
ghost use Rattle.pssm_bodies.specs.inner.Counts.{fault_of};

use pssm_acts::ActFault;
use std::alloc::AllocError;

/// Why the texts of a machine cannot be read.
///
/// `At`: the body of this number is the first, in the order of the file, that has a fault; its fault, at a byte of its
/// text. `NoMemory`: memory ran out before the texts were read.
#[derive(Clone, Copy, PartialEq, Eq)]
pub enum BodyFault {
    At { number: u32, fault: ActFault },
    NoMemory,
}

impl From<AllocError> for BodyFault {
    ghost from_gives = { λ _ e. e ≡ NoMemory };

    fn from(_e: AllocError) -> BodyFault {
        BodyFault::NoMemory
    }
}

/// The fault of the body with this number.
pub(crate) fn fault_at(number: u32, fault: ActFault) -> BodyFault
    ensures { result ≡ fault_of number fault }
{
    match fault {
        ActFault::NoMemory => BodyFault::NoMemory,
        fault => BodyFault::At { number, fault },
    }
}
