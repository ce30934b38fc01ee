//! What elements refer to, and which attributes are variables.
ghost use Rattle.std.specs.Prelude.{◌≡◌, ◌<◌, map, length, IfOk, IfSome};
ghost use Rattle.pssm_roles.specs.inner.Seen.{seen};
ghost use Rattle.pssm_numbering.specs.Kinds.{is_of as of_kind};
ghost use Rattle.pssm_numbering.specs.Meanings as meanings;

use crate::file::File;
use crate::kinds::{Kind, is_of};
use crate::laws::{known_roles, one_notion_of_variable};
use pssm_roles::{Ids, Reference, Role, references_of};
use std::alloc::{AllocError as NoMemory, Global};

// The element that the first of the references means.
fn first_meant(ids: &Ids, found: &[Reference]) -> Option<u32>
    ensures first { result ≡ meanings.first_meant ids.now (map seen found.now) }
    ensures within { IfSome result (λ m. m < length ids.now) }
{
    match found.first() {
        None => None,
        Some(reference) => ids.find(reference.id),
    }
}

/// The element to which an element refers under a name (XMI 2.5.1, 7.10, linking).
pub fn meant(alloc: Global, file: &File, n: u32, name: &[u8]) -> Result<Option<u32>, NoMemory>
    requires { n < length file.now.doc }
    ensures means { IfOk result (λ found. found ≡ meanings.meant name.now file.now n) }
    ensures within { IfOk result (λ found. IfSome found (λ m. m < length file.now.doc)) }
{
    let found = references_of(alloc, file.elements(), n, name)?;
    Ok(first_meant(file.ids(), &found))
}

// The element, where there is one and it is of the kind.
fn if_of(file: &File, found: Option<u32>, kind: Kind) -> Option<u32>
    requires { IfSome found (λ m. m < length file.now.doc) }
    ensures of { result ≡ meanings.if_with (of_kind kind) file.now found }
    ensures within { IfSome result (λ m. m < length file.now.doc) }
{
    match found {
        None => None,
        Some(m) => if is_of(kind, file.role(m)) {
            found
        } else {
            None
        },
    }
}

/// The same, where that element is of this kind.
pub fn meant_with(
    alloc: Global,
    file: &File,
    n: u32,
    name: &[u8],
    kind: Kind,
) -> Result<Option<u32>, NoMemory>
    requires { n < length file.now.doc }
    ensures means { IfOk result (λ found. found ≡ meanings.meant_with (of_kind kind) name.now file.now n) }
    ensures within { IfOk result (λ found. IfSome found (λ m. m < length file.now.doc)) }
{
    let found = meant(alloc, file, n, name)?;
    Ok(if_of(file, found, kind))
}

/// The vertex that a State redefines (UML 2.5.1, 14.5.9, redefinedState, and 14.5.14, redefinedVertex).
pub fn redefined_vertex(alloc: Global, file: &File, n: u32) -> Result<Option<u32>, NoMemory>
    requires { n < length file.now.doc }
    ensures means { IfOk result (λ found. found ≡ meanings.redefined_vertex file.now n) }
    ensures within { IfOk result (λ found. IfSome found (λ m. m < length file.now.doc)) }
{
    match meant(alloc, file, n, b"redefinedState")? {
        Some(vertex) => Ok(Some(vertex)),
        None => meant(alloc, file, n, b"redefinedVertex"),
    }
}

/// The signal whose coming a trigger waits for: that of its event (UML 2.5.1, 13.4.14, event, and 13.4.10, signal).
pub fn signal_of_trigger(alloc: Global, file: &File, n: u32) -> Result<Option<u32>, NoMemory>
    requires { n < length file.now.doc }
    ensures means { IfOk result (λ found. found ≡ meanings.signal_of_trigger file.now n) }
    ensures within { IfOk result (λ found. IfSome found (λ m. m < length file.now.doc)) }
{
    match meant_with(alloc, file, n, b"event", Kind::SignalEvent)? {
        None => Ok(None),
        Some(event) => meant_with(alloc, file, event, b"signal", Kind::Signal),
    }
}

/// The machine of an active class: the one that is its behaviour, and a machine that is a class too is its own
/// (UML 2.5.1, 10.5.1, classifierBehavior).
pub fn behaviour_of(alloc: Global, file: &File, c: u32) -> Result<Option<u32>, NoMemory>
    requires { c < length file.now.doc }
    ensures means { IfOk result (λ found. found ≡ meanings.behaviour_of file.now c) }
    ensures within { IfOk result (λ found. IfSome found (λ m. m < length file.now.doc)) }
{
    match file.role(c) {
        Role::ClassMachine => Ok(Some(c)),
        _ => meant(alloc, file, c, b"classifierBehavior"),
    }
}

/// The active class of an instance specification; none where its classifier is another element (UML 2.5.1, 9.9.9,
/// classifier).
pub fn class_of_instance(alloc: Global, file: &File, n: u32) -> Result<Option<u32>, NoMemory>
    requires { n < length file.now.doc }
    ensures means { IfOk result (λ found. found ≡ meanings.class_of_instance file.now n) }
    ensures within { IfOk result (λ found. IfSome found (λ m. m < length file.now.doc)) }
{
    meant_with(alloc, file, n, b"classifier", Kind::Class)
}

/// Whether the element is a variable (this profile's choice).
pub fn is_variable(file: &File, n: u32) -> bool
    requires { n < length file.now.doc }
    ensures { result ≡ meanings.is_variable file.now n }
{
    one_notion_of_variable();
    known_roles(file);
    pssm_profile::is_variable(file.elements(), file.ids(), n, file.role(n))
}
