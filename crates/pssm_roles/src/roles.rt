//! `roles_of`: the role of every element.
ghost use Rattle.std.specs.Prelude.{◌≡◌, ◌<◌, length, IfOk};
ghost use Rattle.pssm_roles.specs.Roles.{AreRolesOf, HasRole};
ghost use Rattle.pssm_roles.specs.inner.Asked.{AreFirst};
ghost use Rattle.pssm_roles.specs.inner.Guards.{AreGuards};

use crate::guards::guards_of;
use crate::ids::Ids;
use crate::references::Reference;
use crate::role::Role;
use crate::settling::role_in;
use crate::table::root_role;
use pssm_xml::Elements;
use std::alloc::{AllocError as NoMemory, Global};

// The role of the element behind those whose roles are known.
fn role_at(
    alloc: Global,
    elements: &Elements,
    ids: &Ids,
    guards: &[Option<Reference>],
    roles: &[Role],
    n: u32,
) -> Result<Role, NoMemory>
    requires same { ids.now ≡ elements.now }
    requires within { n < length elements.now }
    requires known { AreGuards elements.now (length elements.now) guards.now }
    requires first { AreFirst elements.now n roles.now }
    ensures { IfOk result (HasRole elements.now n) }
{
    match elements.parent(n) {
        None => Ok(root_role(elements.name(n))),
        Some(parent) => {
            let above = roles[parent as usize];
            role_in(alloc, elements, ids, guards, above, parent, n)
        }
    }
}

/// The role of every element, in document order (which roles are read is this profile's choice). The references of an
/// element under a name are sought once, so that the steps this takes grow as the file does, but for looking up ids.
pub fn roles_of(alloc: Global, elements: &Elements, ids: &Ids) -> Result<Vec<Role>, NoMemory>
    requires same { ids.now ≡ elements.now }
    ensures { IfOk result (λ roles. AreRolesOf elements.now roles.items) }
{
    let guards = guards_of(alloc, elements)?;
    let mut roles = Vec::new(alloc);
    for n in 0..elements.len() {
        let role = role_at(alloc, elements, ids, &guards, &roles, n)?;
        roles.push(role)?;
    }
    Ok(roles)
}
