//! What the whole file adds to the table of roles: active classes, transitions that are passed over, and rules that
//! are guards.
ghost use Rattle.std.specs.Prelude.{◌≡◌, ◌<◌, length, map, codes, IfOk};
ghost use Rattle.std.specs.List.{list_any};
ghost use Rattle.pssm_roles.specs.Roles as roles;
ghost use Rattle.pssm_roles.specs.inner.Asked.{Gives};
ghost use Rattle.pssm_roles.specs.inner.Guards.{AreGuards};
ghost use Rattle.pssm_roles.specs.inner.Seen.{seen};

use crate::asked::{guard_role, is_owned_machine, is_point, reference_role, type_at};
use crate::guards::is_named_rule;
use crate::ids::Ids;
use crate::references::{Reference, references_of};
use crate::role::Role;
use crate::table::row_of;
use pssm_xml::Elements;
use std::alloc::{AllocError as NoMemory, Global};

// Whether the id means a state machine that the class owns.
fn owns_machine(elements: &Elements, ids: &Ids, class: u32, id: &[u8]) -> bool
    requires { ids.now ≡ elements.now }
    ensures { result ≡ roles.owns_machine elements.now class id.now }
{
    match ids.find(id) {
        None => false,
        Some(m) => is_owned_machine(elements, class, m),
    }
}

// Whether one of the references is to a state machine that the class owns.
fn any_owned(elements: &Elements, ids: &Ids, class: u32, found: &[Reference]) -> bool
    requires { ids.now ≡ elements.now }
    ensures { result ≡ list_any (λ r. roles.owns_machine elements.now class r.1) (map seen found.now) }
{
    for reference in found {
        if owns_machine(elements, ids, class, reference.id) {
            return true;
        }
    }
    false
}

// Whether the class is active.
fn is_active(alloc: Global, elements: &Elements, ids: &Ids, class: u32) -> Result<bool, NoMemory>
    requires same { ids.now ≡ elements.now }
    requires within { class < length elements.now }
    ensures { IfOk result (λ active. active ≡ roles.is_active elements.now class) }
{
    let found = references_of(alloc, elements, class, b"classifierBehavior")?;
    Ok(any_owned(elements, ids, class, &found))
}

// Whether the id means a connection point of a state machine.
fn is_machine_point(elements: &Elements, ids: &Ids, id: &[u8]) -> bool
    requires { ids.now ≡ elements.now }
    ensures { result ≡ roles.is_machine_point elements.now id.now }
{
    match ids.find(id) {
        None => false,
        Some(v) => is_point(elements, v),
    }
}

// Whether one of the references is to a connection point of a state machine.
fn any_point(elements: &Elements, ids: &Ids, found: &[Reference]) -> bool
    requires { ids.now ≡ elements.now }
    ensures { result ≡ list_any (λ r. roles.is_machine_point elements.now r.1) (map seen found.now) }
{
    for reference in found {
        if is_machine_point(elements, ids, reference.id) {
            return true;
        }
    }
    false
}

// Whether an end of the transition is a connection point of a state machine.
fn ends_on_machine(alloc: Global, elements: &Elements, ids: &Ids, t: u32) -> Result<bool, NoMemory>
    requires same { ids.now ≡ elements.now }
    requires within { t < length elements.now }
    ensures { IfOk result (λ ends. ends ≡ roles.ends_on_machine elements.now t) }
{
    let sources = references_of(alloc, elements, t, b"source")?;
    let targets = references_of(alloc, elements, t, b"target")?;
    let begins = any_point(elements, ids, &sources);
    let ends = any_point(elements, ids, &targets);
    Ok(begins || ends)
}

// The role of the element, where the table says this of it.
fn settled(
    alloc: Global,
    elements: &Elements,
    ids: &Ids,
    guards: &[Option<Reference>],
    parent: u32,
    n: u32,
    row: Role,
) -> Result<Role, NoMemory>
    requires same { ids.now ≡ elements.now }
    requires parent { parent < length elements.now }
    requires within { n < length elements.now }
    requires known { AreGuards elements.now (length elements.now) guards.now }
    ensures { IfOk result (λ role. role ≡ roles.settled elements.now parent n row) }
{
    match row {
        Role::OtherClass => {
            let active = is_active(alloc, elements, ids, n)?;
            Ok(if active {
                Role::ActiveClass
            } else {
                Role::OtherClass
            })
        }
        Role::Transition => {
            let passed = ends_on_machine(alloc, elements, ids, n)?;
            Ok(if passed {
                Role::Passed
            } else {
                Role::Transition
            })
        }
        Role::IdleRule => {
            let named = is_named_rule(elements, guards, parent, n);
            Ok(if named { Role::Guard } else { Role::IdleRule })
        }
        _ => Ok(row),
    }
}

// The role of an element that stands in an element with this role.
pub(crate) fn role_in(
    alloc: Global,
    elements: &Elements,
    ids: &Ids,
    guards: &[Option<Reference>],
    above: Role,
    parent: u32,
    n: u32,
) -> Result<Role, NoMemory>
    requires same { ids.now ≡ elements.now }
    requires parent { parent < length elements.now }
    requires within { n < length elements.now }
    requires known { AreGuards elements.now (length elements.now) guards.now }
    ensures { IfOk result (Gives elements.now n (roles.role_in elements.now above parent n)) }
{
    let reference = reference_role(elements, n);
    let guard = guard_role(elements, n);
    let row = row_of(
        above,
        elements.name(n),
        type_at(elements, n),
        reference,
        guard,
    );
    settled(alloc, elements, ids, guards, parent, n, row)
}
