//! Why a draft has no setting.
ghost use Rattle.std.specs.Prelude.{◌≡◌};
ghost use Rattle.pssm_settings.specs.declared.fault.DraftFault.TheVariants.{NoMemory as Memory};

use pssm_acts::ActFault;
use pssm_heritage::RedefFault;
use pssm_model::{Shape, Text};
use std::alloc::AllocError;

/// Why a class of a draft gives no machine.
///
/// `Redef`: its machine cannot be flattened over those that it extends. `Act`: the behaviour or guard with the id has
/// this fault in its text. `Shape`: the machine of the class with this name lacks the shape of one. `NoMemory`: memory
/// ran out; no other variant carries it.
#[derive(Drop)]
pub enum DraftFault {
    Redef(RedefFault),
    Act { id: Text, fault: ActFault },
    Shape { class: Text, shape: Shape },
    NoMemory,
}

impl From<AllocError> for DraftFault {
    ghost from_gives = { λ _ e. e ≡ Memory };

    fn from(_: AllocError) -> DraftFault {
        DraftFault::NoMemory
    }
}
