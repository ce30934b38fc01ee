//! How many parameters of a signal stand before another.
ghost use Rattle.std.specs.Prelude.{◌≡◌, ◌↔◌, ◌<◌, length, IsTrue, if◌then◌else◌};
ghost use Rattle.pssm_roles.specs.Roles.{AreRolesOf, HasRole};
ghost use Rattle.pssm_roles.specs.declared.role.Role.TheVariants as roles_are;
ghost use Rattle.pssm_profile.specs.Kinds.{StandBefore};
ghost use Rattle.pssm_profile.specs.Flaws.{IsParameterOf};
ghost use Rattle.pssm_tally.specs.inner.Parameters.{PassesParameters};

use crate::roles::{is_parameter, role_at};
use pssm_roles::Role;
use pssm_values::PARAMETERS_AT_MOST;
use pssm_xml::Elements;

// One where it is so, and otherwise none.
fn one_if(so: bool) -> u32
    ensures { result ≡ (if so then 1 else 0) }
{
    if so { 1 } else { 0 }
}

// How many parameters of the signal stand before the element, which takes a step for each child before it.
fn parameters_before(elements: &Elements, roles: &[Role], signal: u32, n: u32) -> u32
    requires roles { AreRolesOf elements.now roles.now }
    requires signal { signal < length elements.now }
    requires within { n < length elements.now }
    ensures { StandBefore (IsParameterOf elements.now signal) n result }
{
    let mut count = 0u32;
    let mut next = elements.first_child(signal);
    'children: while let Some(child) = next {
        if child >= n {
            return count;
        }
        count += one_if(is_parameter(elements, child, role_at(elements, roles, child)));
        next = elements.next_sibling(child);
    }
    count
}

// Whether as many parameters as there can be stand in its signal before the parameter.
fn has_full_signal(elements: &Elements, roles: &[Role], n: u32) -> bool
    requires roles { AreRolesOf elements.now roles.now }
    requires within { n < length elements.now }
    requires own { HasRole elements.now n roles_are.Parameter }
    ensures { IsTrue result ↔ PassesParameters elements.now n }
{
    match elements.parent(n) {
        None => false,
        Some(signal) => parameters_before(elements, roles, signal, n) == PARAMETERS_AT_MOST,
    }
}

// Whether with this element its signal has more parameters than it can have, and without it has not.
pub(crate) fn passes_parameters(elements: &Elements, roles: &[Role], n: u32) -> bool
    requires roles { AreRolesOf elements.now roles.now }
    requires within { n < length elements.now }
    ensures { IsTrue result ↔ PassesParameters elements.now n }
{
    is_parameter(elements, n, role_at(elements, roles, n)) && has_full_signal(elements, roles, n)
}
