//! Why a machine cannot be flattened.
ghost use Rattle.std.specs.Prelude.{◌≡◌};
ghost use Rattle.pssm_heritage.specs.declared.fault.RedefFault.TheVariants.{NoMemory};

use pssm_model::Text;
use std::alloc::AllocError;

/// Why a machine cannot be flattened over the machines that it extends (UML 2.5.1, 14.3.3).
///
/// `Cycle`: the machine with the id extends itself, directly or through others. `Leaf`, `Twice`, `NotInherited`,
/// `ChangedSource` and `ChangedTriggers`: the element with the id breaks that rule of redefinition. `NoMemory`: memory
/// ran out; no other variant carries it.
#[derive(Drop)]
pub enum RedefFault {
    Leaf { id: Text },
    Cycle { id: Text },
    Twice { id: Text },
    NotInherited { id: Text },
    ChangedSource { id: Text },
    ChangedTriggers { id: Text },
    NoMemory,
}

impl From<AllocError> for RedefFault {
    ghost from_gives = { λ _ e. e ≡ NoMemory };

    fn from(_e: AllocError) -> RedefFault {
        RedefFault::NoMemory
    }
}
