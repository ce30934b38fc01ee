//! Which instance specifications are objects.
ghost use Rattle.std.specs.Prelude.{◌≡◌, ◌↔◌, ◌<◌, length, map, codes, IfOk, IsTrue};
ghost use Rattle.pssm_roles.specs.Roles.{AreRolesOf, HasRole};
ghost use Rattle.pssm_roles.specs.declared.role.Role.TheVariants as roles_are;
ghost use Rattle.pssm_roles.specs.inner.Seen.{seen};
ghost use Rattle.pssm_profile.specs.Kinds.{IsInstance};
ghost use Rattle.pssm_tally.specs.inner.Objects.{MeansActive, OneMeansActive};

use crate::roles::{is_active_class, role_at};
use pssm_roles::{Ids, Reference, Role, references_of};
use pssm_xml::Elements;
use std::alloc::{AllocError as NoMemory, Global};

// Whether the id means an active class.
fn means_active(elements: &Elements, ids: &Ids, roles: &[Role], id: &[u8]) -> bool
    requires same { ids.now ≡ elements.now }
    requires roles { AreRolesOf elements.now roles.now }
    ensures { IsTrue result ↔ MeansActive elements.now id.now }
{
    match ids.find(id) {
        None => false,
        Some(m) => is_active_class(elements, m, role_at(elements, roles, m)),
    }
}

// Whether the id of one of the references does.
fn any_means_active(elements: &Elements, ids: &Ids, roles: &[Role], found: &[Reference]) -> bool
    requires same { ids.now ≡ elements.now }
    requires roles { AreRolesOf elements.now roles.now }
    ensures { IsTrue result ↔ OneMeansActive elements.now (map seen found.now) }
{
    for reference in found {
        if means_active(elements, ids, roles, reference.id) {
            return true;
        }
    }
    false
}

// Whether the instance specification is an object: a classifier of it is an active class.
pub(crate) fn is_object(
    alloc: Global,
    elements: &Elements,
    ids: &Ids,
    roles: &[Role],
    n: u32,
) -> Result<bool, NoMemory>
    requires same { ids.now ≡ elements.now }
    requires roles { AreRolesOf elements.now roles.now }
    requires within { n < length elements.now }
    requires instance { HasRole elements.now n roles_are.Instance }
    ensures { IfOk result (λ object. IsTrue object ↔ IsInstance elements.now n) }
{
    let found = references_of(alloc, elements, n, b"classifier")?;
    Ok(any_means_active(elements, ids, roles, &found))
}
