//! Why a text is no model.
ghost use Rattle.std.specs.Prelude.{◌≡◌};
ghost use Rattle.pssm_flat.specs.declared.fault.FlatFault.TheVariants.{NoMemory};

use pssm_acts::ActFault;
use pssm_model::Shape;
use std::alloc::AllocError;

/// Why a flat text could not be read (this profile's choice).
///
/// `BadLine`: the line, counted from 1, is the first that cannot stand there. `Shape`: a machine lacks the shape of
/// one, and the element that the fault names stands on the line. `Act`: the action text of the line has this first
/// fault, at a byte of the text from 0; with a right text in its place the line could stand there. `NoMemory`: memory
/// ran out before the text was read; no other variant carries it.
#[derive(Clone, Copy, PartialEq, Eq)]
pub enum FlatFault {
    BadLine { line: u32 },
    Shape { line: u32, shape: Shape },
    Act { line: u32, fault: ActFault },
    NoMemory,
}

impl From<AllocError> for FlatFault {
    ghost from_gives = { λ _ e. e ≡ NoMemory };

    fn from(_e: AllocError) -> FlatFault {
        FlatFault::NoMemory
    }
}
