//! `first_unmet`: the first reference of a file that does not mean what it must.
ghost use Rattle.std.specs.Prelude.{◌≡◌, ◌<◌, length, IfOk, MatchOption};
ghost use Rattle.pssm_unmet.specs.Unmet.{HasNoUnmet, IsFirstUnmet};
ghost use Rattle.pssm_unmet.specs.inner.Found.{named, with_name, with_element, first_before};

use crate::following::{Followed, followed_of};
use crate::meaning::unmet_at;
use crate::unmet::{Unmet, earlier};
use pssm_numbering::{File, known_roles};
use pssm_roles::references_of;
use std::alloc::{AllocError as NoMemory, Global};

// The first fault, with those of the references that the element has under this name.
fn first_of_name(
    alloc: Global,
    file: &File,
    n: u32,
    followed: Followed,
    so_far: Option<Unmet>,
) -> Result<Option<Unmet>, NoMemory>
    requires { n < length file.now.doc }
    ensures { IfOk result (λ found. found ≡ with_name file.now n so_far (named followed)) }
{
    let references = references_of(alloc, file.elements(), n, followed.name)?;
    let mut first = so_far;
    for reference in &references {
        first = earlier(first, unmet_at(file, followed.target, n, reference));
    }
    Ok(first)
}

// The first fault, with those of the references of the element.
fn first_of_element(
    alloc: Global,
    file: &File,
    n: u32,
    so_far: Option<Unmet>,
) -> Result<Option<Unmet>, NoMemory>
    requires { n < length file.now.doc }
    ensures { IfOk result (λ found. found ≡ with_element file.now so_far n) }
{
    let mut first = so_far;
    for followed in followed_of(file.role(n)) {
        first = first_of_name(alloc, file, n, *followed, first)?;
    }
    Ok(first)
}

// The first fault of all elements.
fn first_of_all(alloc: Global, file: &File) -> Result<Option<Unmet>, NoMemory>
    ensures { IfOk result (λ found. found ≡ first_before file.now (length file.now.doc)) }
{
    let mut first = None;
    for n in 0..file.len() {
        first = first_of_element(alloc, file, n, first)?;
    }
    Ok(first)
}

/// The first reference of a file that means no element that it may mean, and whether it means an
/// event of another type.
#[tactic(auto, using(crate::proofs::UnmetLaws::first_found))]
pub fn first_unmet(alloc: Global, file: &File) -> Result<Option<Unmet>, NoMemory>
    ensures { IfOk result (λ found.
        MatchOption found (HasNoUnmet file.now) (λ one. IsFirstUnmet file.now one)) }
{
    known_roles(file);
    let found = first_of_all(alloc, file)?;
    Ok(found)
}
