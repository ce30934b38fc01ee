//! The names of the variables that a class has or inherits.
ghost use Rattle.std.specs.Prelude.{◌≡◌, ◌<◌, ◌∷◌, ◌++◌, [], ℕ, List, length, map, IfOk, IsTrue, ◌↔◌};
ghost use Rattle.std.specs.List.{All};
ghost use Rattle.pssm_model.specs.DraftSettings.{HasFewVariables};
ghost use Rattle.pssm_totals.specs.Totals.{ExtendWithin, extends_of};
ghost use Rattle.pssm_drafting.specs.Drafts.{draft_of, class_at};
ghost use Rattle.pssm_limits.specs.inner.Variables.{HoldClasses, AreNames, name_of as name_at, belongs};
ghost use Rattle.pssm_limits.specs.inner.Variables.{has_name as is_name, with_taken};

use crate::classes::{Classes, machine_of_class};
use crate::ways::{extended_by, reached};
use pssm_numbering::{File, Numbering, known_roles};
use std::alloc::{AllocError as NoMemory, Global};

// One above the limit of variables.
const TOO_MANY: usize = 65;

// Whether one of the variables has this name.
fn has_name(file: &File, found: &[u32], name: &[u8]) -> bool
    requires { All (λ m. m < length file.now.doc) found.now }
    ensures { result ≡ is_name (name_at file.now) found.now name.now }
{
    for m in found {
        if file.value_or_empty(*m, b"name") == name {
            return true;
        }
    }
    false
}

// Adds a variable, where its name is new and the limit is not passed yet.
fn with_name(found: Vec<u32>, file: &File, n: u32) -> Result<Vec<u32>, NoMemory>
    requires within { n < length file.now.doc }
    requires found { All (λ m. m < length file.now.doc) found.items }
    ensures names { IfOk result (λ more. more.items ≡ with_taken (name_at file.now) found.items n) }
    ensures within { IfOk result (λ more. All (λ m. m < length file.now.doc) more.items) }
{
    if found.len() >= TOO_MANY
        || has_name(file, found.as_slice(), file.value_or_empty(n, b"name"))
    {
        return Ok(found);
    }
    let mut more = found;
    more.push(n)?;
    Ok(more)
}

// Adds a variable, where the class has or inherits it.
fn with_next(
    found: Vec<u32>,
    classes: &Classes,
    file: &File,
    numbering: &Numbering,
    marks: &[bool],
    c: u32,
    n: u32,
) -> Result<Vec<u32>, NoMemory>
    requires same { numbering.now ≡ file.now }
    requires classes { HoldClasses file.now classes.now }
    requires within { n < length file.now.doc }
    requires found { All (λ m. m < length file.now.doc) found.items }
    ensures names { IfOk result (λ more. (seen : List ℕ)
        → AreNames (name_at file.now) (belongs file.now marks.now c) seen found.items
        → AreNames (name_at file.now) (belongs file.now marks.now c) (seen ++ n ∷ []) more.items) }
    ensures within { IfOk result (λ more. All (λ m. m < length file.now.doc) more.items) }
{
    if !classes.belongs(file, numbering, marks, c, n) {
        return Ok(found);
    }
    with_name(found, file, n)
}

// Of the variables that the class has or inherits one for each name, up to one above the limit.
fn names_of(
    alloc: Global,
    classes: &Classes,
    file: &File,
    numbering: &Numbering,
    marks: &[bool],
    c: u32,
) -> Result<Vec<u32>, NoMemory>
    requires same { numbering.now ≡ file.now }
    requires classes { HoldClasses file.now classes.now }
    ensures { IfOk result (λ found.
        AreNames (name_at file.now) (belongs file.now marks.now c) classes.now.variables.items found.items) }
{
    let mut found = Vec::new(alloc);
    for n in classes.variables.as_slice() {
        found = with_next(found, classes, file, numbering, marks, c, *n)?;
    }
    Ok(found)
}

/// Whether the class keeps the limit of variables.
pub(crate) fn has_few_variables(
    alloc: Global,
    classes: &Classes,
    file: &File,
    numbering: &Numbering,
    extends: &[Option<u32>],
    c: u32,
) -> Result<bool, NoMemory>
    requires same { numbering.now ≡ file.now }
    requires classes { HoldClasses file.now classes.now }
    requires extends { extends.now ≡ extends_of (draft_of file.now) }
    requires extends_within { ExtendWithin extends.now }
    requires within { c < length file.now.doc }
    ensures { IfOk result (λ few. IsTrue few ↔ HasFewVariables (draft_of file.now) (class_at file.now c)) }
{
    known_roles(file);
    let machine = machine_of_class(alloc, file, numbering, c)?;
    let marks = reached(alloc, extends, extended_by(extends, machine))?;
    let found = names_of(alloc, classes, file, numbering, marks.as_slice(), c)?;
    Ok(found.len() < TOO_MANY)
}
