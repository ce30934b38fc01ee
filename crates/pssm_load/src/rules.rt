//! The rules of models that the machines of classes break.
ghost use Rattle.std.specs.Prelude.{◌≡◌, ◌++◌, [], map, IfOk, IfErr, OnOk};
ghost use Rattle.pssm_load.specs.Loads.{in_class, AreClassFaults};
ghost use Rattle.pssm_load.specs.inner.Loading.{BreakRules};

use crate::fault::{ClassFault, LoadFault};
use pssm_model::{Row, Text};
use pssm_semantics::{Class, Setting};
use pssm_wellformed::{Fault, check};
use std::alloc::{AllocError, Global};

/// The setting, where its machines keep the rules of models.
pub(crate) fn well_formed(alloc: Global, setting: Setting) -> Result<Setting, LoadFault>
    ensures same { IfOk result (λ kept. kept ≡ setting) }
    ensures rules { IfOk result (λ _. AreClassFaults setting.classes []) }
    ensures broken { IfErr result (BreakRules setting.classes) }
{
    let list = class_faults(alloc, setting.classes.as_slice())?;
    if list.is_empty() {
        drop(list);
        Ok(setting)
    } else {
        drop(setting);
        Err(LoadFault::Faults {
            list: Row::from_vec(list),
        })
    }
}

// The rules of models that the machines of these classes break.
fn class_faults(alloc: Global, classes: &[Class]) -> Result<Vec<ClassFault>, AllocError>
    ensures { IfOk result (λ list. AreClassFaults classes.now list.items) }
{
    let mut list = Vec::new(alloc);
    for class in classes {
        let faults = check(alloc, &class.machine)?;
        put_faults(alloc, &mut list, class.name.as_slice(), faults.as_slice())?;
    }
    Ok(list)
}

// Adds the faults of the machine of the class with this name.
fn put_faults(
    alloc: Global,
    list: &mut Vec<ClassFault>,
    class: &[u8],
    faults: &[Fault],
) -> Result<(), AllocError>
    ensures { OnOk result (list.new.items ≡ list.old.items ++ map (in_class class.now) faults.now) }
{
    for fault in faults {
        let class = Text::from_vec(class.to_vec(alloc)?);
        list.push(ClassFault {
            class,
            fault: *fault,
        })?;
    }
    Ok(())
}
