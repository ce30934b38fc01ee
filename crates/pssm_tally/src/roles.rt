//! What the role of an element says.
ghost use Rattle.std.specs.Prelude.{◌≡◌, ◌↔◌, ◌⊎◌, ◌<◌, length, IsTrue};
ghost use Rattle.pssm_roles.specs.Roles.{AreRolesOf, HasRole};
ghost use Rattle.pssm_roles.specs.declared.role.Role.TheVariants as roles_are;
ghost use Rattle.pssm_profile.specs.Kinds.{IsActiveClass};

use pssm_roles::{Role, one_role};
use pssm_xml::Elements;

// The role of the element.
pub(crate) fn role_at(elements: &Elements, roles: &[Role], n: u32) -> Role
    requires roles { AreRolesOf elements.now roles.now }
    requires within { n < length elements.now }
    ensures { HasRole elements.now n result }
{
    roles[n as usize]
}

// Whether it is the role of an active class.
fn is_active(role: Role) -> bool
    ensures { IsTrue result ↔ ((role ≡ roles_are.ActiveClass) ⊎ (role ≡ roles_are.ClassMachine)) }
{
    role == Role::ActiveClass || role == Role::ClassMachine
}

// Whether the element is an active class.
pub(crate) fn is_active_class(elements: &Elements, n: u32, role: Role) -> bool
    requires { HasRole elements.now n role }
    ensures { IsTrue result ↔ IsActiveClass elements.now n }
{
    one_role();
    is_active(role)
}

// Whether the element is a parameter of a signal.
pub(crate) fn is_parameter(elements: &Elements, n: u32, role: Role) -> bool
    requires { HasRole elements.now n role }
    ensures { IsTrue result ↔ HasRole elements.now n roles_are.Parameter }
{
    one_role();
    role == Role::Parameter
}
