//! What is asked of one element by its number.
ghost use Rattle.std.specs.Prelude.{◌≡◌, ◌<◌, ◌==◌, false, length, bytes_eq};
ghost use Rattle.std.specs.Option.{option_map_or};
ghost use Rattle.pssm_xml.specs.Elements.{is_child_of};
ghost use Rattle.pssm_roles.specs.Ids as ids;
ghost use Rattle.pssm_roles.specs.Roles as roles;
ghost use Rattle.pssm_roles.specs.inner.Asked as asked;
ghost use Rattle.pssm_roles.specs.inner.Asked.{Gives};

use crate::references::value_at;
use crate::role::Role;
use pssm_xml::Elements;

// The `xmi:type` of an element; empty where it has none.
pub(crate) fn type_at(elements: &Elements, n: u32) -> &[u8]
    requires { n < length elements.now }
    ensures { Gives elements.now n roles.type_of result.now }
{
    value_at(elements, n, b"xmi:type")
}

// Whether the element is called so.
fn is_called(elements: &Elements, n: u32, name: &[u8]) -> bool
    requires { n < length elements.now }
    ensures { Gives elements.now n (λ e. bytes_eq e.name name.now) result }
{
    elements.name(n) == name
}

// Whether it has this type.
fn is_typed(elements: &Elements, n: u32, kind: &[u8]) -> bool
    requires { n < length elements.now }
    ensures { Gives elements.now n (roles.is_typed kind.now) result }
{
    type_at(elements, n) == kind
}

// Whether it has this attribute.
fn has_attribute(elements: &Elements, n: u32, name: &[u8]) -> bool
    requires { n < length elements.now }
    ensures { Gives elements.now n (roles.has_attribute name.now) result }
{
    match elements.value_of(n, name) {
        None => false,
        Some(_value) => true,
    }
}

// Whether it has this id.
pub(crate) fn has_id(elements: &Elements, n: u32, id: &[u8]) -> bool
    requires { n < length elements.now }
    ensures { Gives elements.now n (ids.has_id id.now) result }
{
    match elements.value_of(n, b"xmi:id") {
        None => false,
        Some(own) => own == id,
    }
}

// Whether it stands in the element with this number.
fn stands_in(elements: &Elements, n: u32, p: u32) -> bool
    requires { n < length elements.now }
    ensures { Gives elements.now n (λ e. option_map_or (λ q. q == p) e.parent false) result }
{
    match elements.parent(n) {
        None => false,
        Some(q) => q == p,
    }
}

// Whether it is a child of this name.
fn is_child(elements: &Elements, n: u32, p: u32, name: &[u8]) -> bool
    requires { n < length elements.now }
    ensures { Gives elements.now n (is_child_of p name.now) result }
{
    stands_in(elements, n, p) && is_called(elements, n, name)
}

// Whether it is a state machine that the class owns.
pub(crate) fn is_owned_machine(elements: &Elements, class: u32, m: u32) -> bool
    requires { m < length elements.now }
    ensures { Gives elements.now m (asked.is_owned_machine class) result }
{
    is_child(elements, m, class, b"ownedBehavior") && is_typed(elements, m, b"uml:StateMachine")
}

// Whether it stands in a state machine.
fn stands_in_machine(elements: &Elements, n: u32) -> bool
    requires { n < length elements.now }
    ensures { Gives elements.now n (roles.stands_in_machine elements.now) result }
{
    match elements.parent(n) {
        None => false,
        Some(p) => is_typed(elements, p, b"uml:StateMachine"),
    }
}

// Whether it is a connection point of a state machine.
pub(crate) fn is_point(elements: &Elements, n: u32) -> bool
    requires { n < length elements.now }
    ensures { Gives elements.now n (asked.is_point elements.now) result }
{
    is_called(elements, n, b"connectionPoint") && stands_in_machine(elements, n)
}

// What it is as a child that refers to elements.
pub(crate) fn reference_role(elements: &Elements, n: u32) -> Role
    requires { n < length elements.now }
    ensures { Gives elements.now n roles.reference_role result }
{
    if has_attribute(elements, n, b"xmi:idref") || has_attribute(elements, n, b"href") {
        Role::Reference
    } else {
        Role::Passed
    }
}

// What it is as a guard.
pub(crate) fn guard_role(elements: &Elements, n: u32) -> Role
    requires { n < length elements.now }
    ensures { Gives elements.now n roles.guard_role result }
{
    if has_attribute(elements, n, b"xmi:idref") {
        Role::Reference
    } else {
        Role::Guard
    }
}
