//! Which attributes of active classes are variables.
ghost use Rattle.std.specs.Prelude.{◌≡◌, ◌↔◌, ◌<◌, ◌&&◌, true, length, codes, IsTrue};
ghost use Rattle.std.specs.List.{list_all};
ghost use Rattle.pssm_xml.specs.Elements.{children, value_or_empty};
ghost use Rattle.pssm_values.specs.Ids.{ids_in};
ghost use Rattle.pssm_roles.specs.Roles.{HasRole, is_typed as typed};
ghost use Rattle.pssm_roles.specs.declared.role.Role.TheVariants as attributes;
ghost use Rattle.pssm_profile.specs.Kinds.{HasPrimitiveType, HasIntegerDefault, IsVariable};
ghost use Rattle.pssm_profile.specs.inner.Children.{named_child};
ghost use Rattle.pssm_profile.specs.inner.Texts.{means_primitive};

use crate::counting::{children_count, is_called};
use crate::lacking::refers_to_nothing;
use crate::values::is_typed;
use pssm_roles::{Ids, Role, one_role};
use pssm_values::{can_name_variable, first_id};
use pssm_xml::Elements;

// The value of an attribute; empty where the element has none.
fn value_at<'a>(elements: &'a Elements, n: u32, name: &[u8]) -> &'a [u8]
    requires { n < length elements.now }
    ensures { result.now ≡ value_or_empty elements.now n name.now }
{
    match elements.value_of(n, name) {
        None => b"",
        Some(value) => value,
    }
}

// Whether the id means a primitive type or nothing.
#[tactic(auto, using(crate::proofs::VariableLaws::primitive_there))]
fn is_primitive(elements: &Elements, ids: &Ids, id: &[u8]) -> bool
    requires { ids.now ≡ elements.now }
    ensures { result ≡ means_primitive elements.now id.now }
{
    match ids.find(id) {
        None => true,
        Some(m) => is_typed(elements, m, b"uml:PrimitiveType"),
    }
}

// Whether all ids that the value holds do so.
fn are_primitive(elements: &Elements, ids: &Ids, value: &[u8]) -> bool
    requires { ids.now ≡ elements.now }
    ensures { result ≡ list_all (means_primitive elements.now) (ids_in value.now) }
{
    let mut rest = value;
    'ids: while let Some((id, others)) = first_id(rest) {
        if !is_primitive(elements, ids, id) {
            return false;
        }
        rest = others;
    }
    true
}

// Whether the type of the attribute is primitive or none.
fn has_primitive_type(elements: &Elements, ids: &Ids, n: u32) -> bool
    requires same { ids.now ≡ elements.now }
    requires within { n < length elements.now }
    ensures { IsTrue result ↔ HasPrimitiveType elements.now n }
{
    are_primitive(elements, ids, value_at(elements, n, b"type"))
}

// Whether the child is an integer, where it is a default.
#[tactic(auto, using(crate::proofs::VariableLaws::typed_child, crate::proofs::VariableLaws::other_child))]
fn is_integer_child(elements: &Elements, child: u32) -> bool
    requires { child < length elements.now }
    ensures { result ≡ list_all (typed (codes "uml:LiteralInteger"))
        (named_child elements.now (codes "defaultValue") child) }
{
    !is_called(elements, child, b"defaultValue") || is_typed(elements, child, b"uml:LiteralInteger")
}

// Whether both are so.
fn are_both(one: bool, other: bool) -> bool
    ensures { result ≡ (one && other) }
{
    one && other
}

// Whether all defaults are integers.
fn all_integers(elements: &Elements, p: u32) -> bool
    requires { p < length elements.now }
    ensures { result ≡ list_all (typed (codes "uml:LiteralInteger")) (children elements.now p (codes "defaultValue")) }
{
    let mut all = true;
    let mut next = elements.first_child(p);
    'children: while let Some(child) = next {
        all = are_both(all, is_integer_child(elements, child));
        next = elements.next_sibling(child);
    }
    all
}

// Whether the default is an integer, where there is one alone.
#[tactic(auto, using(crate::proofs::VariableLaws::one_default))]
fn has_integer_default(elements: &Elements, n: u32) -> bool
    requires { n < length elements.now }
    ensures { IsTrue result ↔ HasIntegerDefault elements.now n }
{
    children_count(elements, n, b"defaultValue") != 1 || all_integers(elements, n)
}

// Whether an attribute of an active class is a variable.
fn can_be_variable(elements: &Elements, ids: &Ids, n: u32) -> bool
    requires same { ids.now ≡ elements.now }
    requires within { n < length elements.now }
    requires role { HasRole elements.now n attributes.Attribute }
    ensures { IsTrue result ↔ IsVariable elements.now n }
{
    can_name_variable(value_at(elements, n, b"name"))
        && refers_to_nothing(elements, n, b"association")
        && has_primitive_type(elements, ids, n)
        && has_integer_default(elements, n)
}

/// Whether the element is a variable (UML 2.5.1, 9.5.3, properties; this profile's choice).
pub fn is_variable(elements: &Elements, ids: &Ids, n: u32, role: Role) -> bool
    requires same { ids.now ≡ elements.now }
    requires within { n < length elements.now }
    requires role { HasRole elements.now n role }
    ensures { IsTrue result ↔ IsVariable elements.now n }
{
    one_role();
    role == Role::Attribute && can_be_variable(elements, ids, n)
}
