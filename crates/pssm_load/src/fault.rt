//! Why the bytes of a model give no setting.
ghost use Rattle.std.specs.Prelude.{◌≡◌};
ghost use Rattle.pssm_load.specs.declared.fault.LoadFault.TheVariants.{NoMemory as Memory};

use pssm_acts::ActFault;
use pssm_flat::FlatFault;
use pssm_heritage::RedefFault;
use pssm_model::{Row, Shape, Text};
use pssm_profile::XmiFault;
use pssm_wellformed::Fault;
use std::alloc::AllocError;

/// A rule that the machine of a class breaks. `class` is the name of the class.
#[derive(Drop)]
pub struct ClassFault {
    pub class: Text,
    pub fault: Fault,
}

/// Why the bytes of a model give no setting (this profile's choice).
///
/// `Flat`: they begin as a flat text and are none. `Xmi`: they are no model file that is read. `Redef`: the machine of
/// a class cannot be flattened over those that it extends. `Act`: the behaviour or guard with the id has this fault in
/// its text. `Shape`: the machine of the class lacks the shape of one. `Faults`: the machines break these rules of
/// models, in the order of the classes and of `check`. `NoMemory`: memory ran out; no other variant carries it.
#[derive(Drop)]
pub enum LoadFault {
    Flat(FlatFault),
    Xmi(XmiFault),
    Redef(RedefFault),
    Act { id: Text, fault: ActFault },
    Shape { class: Text, shape: Shape },
    Faults { list: Row<ClassFault> },
    NoMemory,
}

impl From<AllocError> for LoadFault {
    ghost from_gives = { λ _ e. e ≡ Memory };

    fn from(_: AllocError) -> LoadFault {
        LoadFault::NoMemory
    }
}
