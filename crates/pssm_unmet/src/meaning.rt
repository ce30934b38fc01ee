//! What a reference means, and what is wrong with it.
ghost use Rattle.std.specs.Prelude.{◌≡◌, ◌<◌, length};
ghost use Rattle.pssm_roles.specs.Roles as roles;
ghost use Rattle.pssm_roles.specs.inner.Asked.{Gives};
ghost use Rattle.pssm_roles.specs.inner.Seen.{seen};
ghost use Rattle.pssm_unmet.specs.References as references;
ghost use Rattle.pssm_unmet.specs.inner.Found as found;

use crate::following::Target;
use crate::unmet::Unmet;
use pssm_numbering::{File, Kind, is_of};
use pssm_roles::Reference;

// Whether a reference of the element `n` may mean the element `m`.
fn may_mean(file: &File, target: Target, n: u32, m: u32) -> bool
    requires { m < length file.now.doc }
    ensures { result ≡ references.may_mean file.now target n m }
{
    match target {
        Target::AnyElement => true,
        Target::Signal => is_of(Kind::Signal, file.role(m)),
        Target::SignalEvent => is_of(Kind::SignalEvent, file.role(m)),
        Target::Machine => is_of(Kind::Machine, file.role(m)),
        Target::Region => is_of(Kind::Region, file.role(m)),
        Target::Vertex => is_of(Kind::Vertex, file.role(m)),
        Target::Transition => is_of(Kind::Transition, file.role(m)),
        Target::Rule => file.is_named(m, n, b"ownedRule"),
    }
}

// Whether the id means an element that a reference of this one may mean.
fn is_known(file: &File, target: Target, n: u32, id: &[u8]) -> bool
    ensures { result ≡ references.is_known file.now target n id.now }
{
    match file.ids().find(id) {
        None => false,
        Some(m) => may_mean(file, target, n, m),
    }
}

// Whether the element has this type.
fn is_typed(file: &File, m: u32, kind: &[u8]) -> bool
    requires { m < length file.now.doc }
    ensures { Gives file.now.doc m (roles.is_typed kind.now) result }
{
    file.value_or_empty(m, b"xmi:type") == kind
}

// Whether the element is the event of a call, a change, a time or any message (UML 2.5.1, 13.4).
fn is_other_event(file: &File, m: u32) -> bool
    requires { m < length file.now.doc }
    ensures { Gives file.now.doc m references.is_other_event result }
{
    is_typed(file, m, b"uml:CallEvent")
        || is_typed(file, m, b"uml:ChangeEvent")
        || is_typed(file, m, b"uml:TimeEvent")
        || is_typed(file, m, b"uml:AnyReceiveEvent")
}

// Whether a reference to an event means such an event.
fn means_other_event(file: &File, target: Target, id: &[u8]) -> bool
    ensures { result ≡ references.means_other_event file.now target id.now }
{
    if target != Target::SignalEvent {
        return false;
    }
    match file.ids().find(id) {
        None => false,
        Some(m) => is_other_event(file, m),
    }
}

// What is wrong with a reference of the element.
pub(crate) fn unmet_at(
    file: &File,
    target: Target,
    n: u32,
    reference: &Reference<'_>,
) -> Option<Unmet>
    requires { reference.now.at < length file.now.doc }
    ensures { result ≡ found.unmet_at file.now target n (seen reference.now) }
{
    if is_known(file, target, n, reference.id) {
        return None;
    }
    let at = file.at(reference.at);
    if means_other_event(file, target, reference.id) {
        Some(Unmet::Event { at })
    } else {
        Some(Unmet::Unknown { at })
    }
}
