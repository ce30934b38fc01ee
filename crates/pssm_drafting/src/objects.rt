//! The objects of a draft.
ghost use Rattle.std.specs.Prelude.{◌≡◌, ◌<◌, ◌≤◌, ◌++◌, ◌∷◌, [], cond, length, map, unwrap_or, IfOk, IfSome};
ghost use Rattle.std.specs.List.{All};
ghost use Rattle.pssm_numbering.specs.Numbering.{with_role, is_instance, classes as classes_in};
ghost use Rattle.pssm_numbering.specs.Meanings.{class_of_instance as class_meant, instances, concrete_classes};
ghost use Rattle.pssm_drafting.specs.Drafts as drafts;
ghost use Rattle.pssm_drafting.specs.Fitting.{FitsDraft};
ghost use Rattle.pssm_drafting.specs.inner.Objects.{of_instance, of_class};

use pssm_model::{DraftObject, Row};
use pssm_numbering::{File, Kind, Numbering, class_of_instance, with_kind};
use pssm_values::clean_name;
use std::alloc::{AllocError as NoMemory, Global};

/// An object that has the name of this element, and this class.
pub fn object_with(
    alloc: Global,
    file: &File,
    numbering: &Numbering,
    n: u32,
    class: u32,
) -> Result<DraftObject, NoMemory>
    requires same { numbering.now ≡ file.now }
    requires within { n < length file.now.doc }
    requires class { class < length file.now.doc }
    requires few { length (classes_in file.now) ≤ 64 }
    ensures { IfOk result (λ object. object ≡ drafts.object_with file.now n class) }
{
    Ok(DraftObject {
        name: clean_name(alloc, file.value_or_empty(n, b"name"))?,
        class: numbering.class_place(class) as u8,
    })
}

// Adds the object of an instance specification, where its class is an active one.
fn with_instance(
    row: Row<DraftObject>,
    alloc: Global,
    file: &File,
    numbering: &Numbering,
    n: u32,
) -> Result<Row<DraftObject>, NoMemory>
    requires same { numbering.now ≡ file.now }
    requires within { n < length file.now.doc }
    requires few { length (classes_in file.now) ≤ 64 }
    ensures { IfOk result (λ more. more ≡ row ++ of_instance file.now n) }
{
    let mut more = row;
    if let Some(class) = class_of_instance(alloc, file, n)? {
        more.push(object_with(alloc, file, numbering, n, class)?)?;
    }
    Ok(more)
}

// The instance specifications of a file.
#[tactic(auto, using(crate::proofs::ListLaws::with_role_within))]
fn instance_places(alloc: Global, file: &File) -> Result<Vec<u32>, NoMemory>
    ensures list { IfOk result (λ list. list.items ≡ with_role is_instance file.now) }
    ensures within { IfOk result (λ list. All (λ n. n < length file.now.doc) list.items) }
{
    with_kind(alloc, file, Kind::Instance)
}

// The objects of the instance specifications.
#[tactic(auto, using(crate::proofs::ListLaws::kept_more))]
fn instances_of(
    alloc: Global,
    file: &File,
    numbering: &Numbering,
) -> Result<Row<DraftObject>, NoMemory>
    requires same { numbering.now ≡ file.now }
    requires few { length (classes_in file.now) ≤ 64 }
    ensures { IfOk result (λ row. row ≡ map (drafts.object_at file.now) (instances file.now)) }
{
    let list = instance_places(alloc, file)?;
    let mut row = Row::from_vec(Vec::new(alloc));
    for n in list.as_slice() {
        row = with_instance(row, alloc, file, numbering, *n)?;
    }
    Ok(row)
}

// Adds an object of a class, where the class is not abstract.
fn with_class(
    row: Row<DraftObject>,
    alloc: Global,
    file: &File,
    numbering: &Numbering,
    c: u32,
) -> Result<Row<DraftObject>, NoMemory>
    requires same { numbering.now ≡ file.now }
    requires within { c < length file.now.doc }
    requires few { length (classes_in file.now) ≤ 64 }
    ensures { IfOk result (λ more. more ≡ row ++ of_class file.now c) }
{
    let mut more = row;
    if !file.is_true(c, b"isAbstract") {
        more.push(object_with(alloc, file, numbering, c, c)?)?;
    }
    Ok(more)
}

// An object of each class that is not abstract.
#[tactic(auto, using(crate::proofs::ListLaws::kept_more))]
fn concrete_of(
    alloc: Global,
    file: &File,
    numbering: &Numbering,
) -> Result<Row<DraftObject>, NoMemory>
    requires same { numbering.now ≡ file.now }
    requires few { length (classes_in file.now) ≤ 64 }
    ensures { IfOk result (λ row. row ≡ map (λ c. drafts.object_with file.now c c) (concrete_classes file.now)) }
{
    let mut row = Row::from_vec(Vec::new(alloc));
    for c in numbering.classes() {
        row = with_class(row, alloc, file, numbering, *c)?;
    }
    Ok(row)
}

/// The objects: those of the instance specifications, and where there are none one of each class that is not abstract
/// (this profile's choice).
#[tactic(auto, using(crate::proofs::ObjectLaws::of_classes, crate::proofs::ObjectLaws::of_instances))]
pub fn objects_of(
    alloc: Global,
    file: &File,
    numbering: &Numbering,
) -> Result<Row<DraftObject>, NoMemory>
    requires same { numbering.now ≡ file.now }
    requires few { length (classes_in file.now) ≤ 64 }
    ensures { IfOk result (λ row. row ≡ drafts.objects_of file.now) }
{
    let row = instances_of(alloc, file, numbering)?;
    if row.as_slice().is_empty() {
        concrete_of(alloc, file, numbering)
    } else {
        Ok(row)
    }
}
