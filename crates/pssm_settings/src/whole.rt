//! The setting of a draft: its signals, classes and objects.
ghost use Rattle.std.specs.Prelude.{◌≡◌, ◌⊎◌, ◌++◌, ◌∷◌, [], map, length, IfOk, IfErr};
ghost use Rattle.pssm_model.specs.DraftSettings.{IsInRange};
ghost use Rattle.pssm_settings.specs.Settings.{object_of, AreLoadedClasses, IsSettingOf};
ghost use Rattle.pssm_settings.specs.Failures.{IsFirstFailure};

use crate::classes::{class_of, indexes_of, signals_of};
use crate::fault::DraftFault;
use pssm_model::{Draft, DraftObject, Row};
use pssm_semantics::{Class, ObjectDecl, Setting};
use std::alloc::{AllocError as NoMemory, Global};

// An object of a setting.
fn object(alloc: Global, of: &DraftObject) -> Result<ObjectDecl, NoMemory>
    ensures { IfOk result (λ object. object ≡ object_of of.now) }
{
    Ok(ObjectDecl {
        name: of.name.copy(alloc)?,
        class: of.class,
    })
}

// The objects of a setting.
fn objects_of(alloc: Global, objects: &[DraftObject]) -> Result<Vec<ObjectDecl>, NoMemory>
    ensures { IfOk result (λ all. all.items ≡ map object_of objects.now) }
{
    let mut all = Vec::new(alloc);
    for of in objects {
        all.push(object(alloc, of)?)?;
    }
    Ok(all)
}

// One class more behind others.
fn with_class(mut classes: Vec<Class>, class: Class) -> Result<Vec<Class>, NoMemory>
    ensures { IfOk result (λ all. all.items ≡ classes.items ++ class ∷ []) }
{
    classes.push(class)?;
    Ok(classes)
}

// The classes of a draft, or why the first that fails gives none.
fn classes_of(alloc: Global, draft: &Draft) -> Result<Vec<Class>, DraftFault>
    requires { IsInRange draft.now }
    ensures all { IfOk result (λ classes. length classes.items ≡ length draft.now.classes) }
    ensures loaded { IfOk result (λ classes. AreLoadedClasses draft.now classes.items) }
    ensures fault { IfErr result (λ fault. (fault ≡ DraftFault.NoMemory) ⊎ IsFirstFailure draft.now fault) }
{
    let indexes = indexes_of(alloc, draft)?;
    let mut classes = Vec::new(alloc);
    for number in 0..draft.classes.as_slice().len() {
        let class = match class_of(alloc, draft, &indexes, number as u8) {
            Ok(class) => class,
            Err(fault) => return Err(fault),
        };
        classes = with_class(classes, class)?;
    }
    Ok(classes)
}

/// The setting of a draft, or why the first of its classes that fails gives none.
pub fn setting_of(alloc: Global, draft: &Draft) -> Result<Setting, DraftFault>
    requires { IsInRange draft.now }
    ensures setting { IfOk result (IsSettingOf draft.now) }
    ensures fault { IfErr result (λ fault. (fault ≡ DraftFault.NoMemory) ⊎ IsFirstFailure draft.now fault) }
{
    let classes = classes_of(alloc, draft)?;
    let signals = signals_of(alloc, draft.signals.as_slice())?;
    let objects = objects_of(alloc, draft.objects.as_slice())?;
    Ok(Setting {
        signals: Row::from_vec(signals),
        classes: Row::from_vec(classes),
        objects: Row::from_vec(objects),
    })
}
