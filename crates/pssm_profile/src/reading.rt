//! Which elements are read.
ghost use Rattle.std.specs.Prelude.{◌≡◌, ◌↔◌, ◌<◌, length, IsTrue};
ghost use Rattle.pssm_roles.specs.Roles.{AreRolesOf, HasRole};
ghost use Rattle.pssm_roles.specs.declared.role.Role.TheVariants as variants;
ghost use Rattle.pssm_profile.specs.Flaws.{IsRead};
ghost use Rattle.pssm_profile.specs.Kinds.{IsDefaultOfVariable};

use crate::variables::is_variable;
use pssm_roles::{Ids, Role};
use pssm_xml::Elements;

// The role of the element.
fn role_at(elements: &Elements, roles: &[Role], n: u32) -> Role
    requires within { n < length elements.now }
    requires roles { AreRolesOf elements.now roles.now }
    ensures { HasRole elements.now n result }
{
    roles[n as usize]
}

// Whether the default belongs to a variable.
fn is_default_of_variable(elements: &Elements, ids: &Ids, roles: &[Role], n: u32) -> bool
    requires same { ids.now ≡ elements.now }
    requires within { n < length elements.now }
    requires roles { AreRolesOf elements.now roles.now }
    requires role { HasRole elements.now n variants.Default }
    ensures { IsTrue result ↔ IsDefaultOfVariable elements.now n }
{
    match elements.parent(n) {
        None => false,
        Some(p) => is_variable(elements, ids, p, role_at(elements, roles, p)),
    }
}

/// Whether the element of this role is read, so that it is asked for faults (this profile's choice).
pub fn is_read(elements: &Elements, ids: &Ids, roles: &[Role], n: u32, role: Role) -> bool
    requires same { ids.now ≡ elements.now }
    requires within { n < length elements.now }
    requires roles { AreRolesOf elements.now roles.now }
    requires role { HasRole elements.now n role }
    ensures { IsTrue result ↔ IsRead elements.now n role }
{
    match role {
        Role::Attribute => is_variable(elements, ids, n, role),
        Role::Default => is_default_of_variable(elements, ids, roles, n),
        _ => role.is_read(),
    }
}
