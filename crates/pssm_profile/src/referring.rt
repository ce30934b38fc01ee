//! How many references an element has under a name.
ghost use Rattle.std.specs.Prelude.{◌≡◌, ◌<◌, ◌+◌, ℕ, sum, map, length, codes};
ghost use Rattle.pssm_roles.specs.inner.Asked.{Gives};
ghost use Rattle.pssm_roles.specs.Roles as roles;
ghost use Rattle.pssm_xml.specs.Elements.{children};
ghost use Rattle.pssm_profile.specs.Counts.{held, referred, references_count, guards_count};
ghost use Rattle.pssm_profile.specs.inner.Numbers.{number_of as number_for};
ghost use Rattle.pssm_profile.specs.inner.Children.{named_child, weight};

use crate::counting::{held_count, is_called};
use crate::number::{Number, number_of};
use pssm_xml::Elements;

// Whether the element has this attribute.
fn has_attribute(elements: &Elements, n: u32, name: &[u8]) -> bool
    requires { n < length elements.now }
    ensures { Gives elements.now n (roles.has_attribute name.now) result }
{
    match elements.value_of(n, name) {
        None => false,
        Some(_value) => true,
    }
}

// How many a child counts that refers.
fn referred_number(elements: &Elements, n: u32) -> Number
    requires { n < length elements.now }
    ensures { Gives elements.now n (λ e. number_for (referred e)) result }
{
    let ids = held_count(elements, n, b"xmi:idref");
    if has_attribute(elements, n, b"href") && ids == 0 {
        return Number::One;
    }
    number_of(ids)
}

// How many a child counts, as a guard or as any reference.
fn weight_number(elements: &Elements, n: u32, as_guard: bool) -> Number
    requires { n < length elements.now }
    ensures { Gives elements.now n (λ e. number_for (weight as_guard e)) result }
{
    if as_guard && !has_attribute(elements, n, b"xmi:idref") {
        return Number::One;
    }
    referred_number(elements, n)
}

// How many a child counts, where it has this name.
fn child_number(elements: &Elements, n: u32, name: &[u8], as_guard: bool) -> Number
    requires { n < length elements.now }
    ensures { result ≡ number_for (sum (map (weight as_guard) (named_child elements.now name.now n))) }
{
    if is_called(elements, n, name) {
        weight_number(elements, n, as_guard)
    } else {
        Number::Nothing
    }
}

// How many the children of this name count.
fn children_number(elements: &Elements, p: u32, name: &[u8], as_guard: bool) -> Number
    requires { p < length elements.now }
    ensures { result ≡ number_for (sum (map (weight as_guard) (children elements.now p name.now))) }
{
    let mut number = Number::Nothing;
    let mut next = elements.first_child(p);
    'children: while let Some(child) = next {
        number = number.and(child_number(elements, child, name, as_guard));
        next = elements.next_sibling(child);
    }
    number
}

/// How many references the element has under this name: in its attribute and in its children (XMI 2.5.1, 7.10,
/// linking).
#[tactic(auto, using(crate::proofs::ChildLaws::both_number))]
pub fn references_number(elements: &Elements, n: u32, name: &[u8]) -> Number
    requires { n < length elements.now }
    ensures { result ≡ number_for (references_count elements.now n name.now) }
{
    let own = number_of(held_count(elements, n, name));
    own.and(children_number(elements, n, name, false))
}

/// How many guards a transition has: in its attribute and in its children (UML 2.5.1, 14.2.3.8, transitions).
#[tactic(auto, using(crate::proofs::ChildLaws::both_number))]
pub fn guards_number(elements: &Elements, n: u32) -> Number
    requires { n < length elements.now }
    ensures { result ≡ number_for (guards_count elements.now n) }
{
    let own = number_of(held_count(elements, n, b"guard"));
    own.and(children_number(elements, n, b"guard", true))
}
