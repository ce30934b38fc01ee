//! Whether more than one stands where one can be.
ghost use Rattle.std.specs.Prelude.{◌≡◌, ◌<◌, ◌+◌, ℕ, length, nat_lt, codes};
ghost use Rattle.std.specs.List.{list_any};
ghost use Rattle.pssm_profile.specs.Counts.{references_count, children_count as count_of, guards_count};
ghost use Rattle.pssm_profile.specs.inner.Numbers.{number_of as number_for};
ghost use Rattle.pssm_profile.specs.Flaws.{counts_of_class, counts_of_machine, counts_of_state, counts_of_transition, has_several};

use crate::counting::children_count;
use crate::number::Number;
use crate::referring::{guards_number, references_number};
use pssm_roles::Role;
use pssm_xml::Elements;

// Whether the number is several.
fn is_several(number: Number) -> bool
    ensures { (count : ℕ) → number ≡ number_for count → result ≡ nat_lt 1 count }
{
    matches!(number, Number::Several)
}

// Whether the element has several references under this name.
fn refers_to_several(elements: &Elements, n: u32, name: &[u8]) -> bool
    requires { n < length elements.now }
    ensures { result ≡ nat_lt 1 (references_count elements.now n name.now) }
{
    is_several(references_number(elements, n, name))
}

// Whether the element has several children of this name.
fn has_children(elements: &Elements, n: u32, name: &[u8]) -> bool
    requires { n < length elements.now }
    ensures { result ≡ nat_lt 1 (count_of elements.now n name.now) }
{
    children_count(elements, n, name) > 1
}

// Whether the State redefines several.
#[tactic(auto, using(crate::proofs::ChildLaws::both_number))]
fn redefines_several(elements: &Elements, n: u32) -> bool
    requires { n < length elements.now }
    ensures { result ≡ nat_lt 1 (references_count elements.now n (codes "redefinedState")
        + references_count elements.now n (codes "redefinedVertex")) }
{
    let states = references_number(elements, n, b"redefinedState");
    let vertices = references_number(elements, n, b"redefinedVertex");
    is_several(states.and(vertices))
}

// Whether the transition has several guards.
fn has_guards(elements: &Elements, n: u32) -> bool
    requires { n < length elements.now }
    ensures { result ≡ nat_lt 1 (guards_count elements.now n) }
{
    is_several(guards_number(elements, n))
}

// Whether it is so at a State.
fn several_at_state(elements: &Elements, n: u32) -> bool
    requires { n < length elements.now }
    ensures { result ≡ list_any (nat_lt 1) (counts_of_state elements.now n) }
{
    redefines_several(elements, n)
        || has_children(elements, n, b"entry")
        || has_children(elements, n, b"exit")
        || has_children(elements, n, b"doActivity")
}

// Whether it is so at a transition.
fn several_at_transition(elements: &Elements, n: u32) -> bool
    requires { n < length elements.now }
    ensures { result ≡ list_any (nat_lt 1) (counts_of_transition elements.now n) }
{
    refers_to_several(elements, n, b"source")
        || refers_to_several(elements, n, b"target")
        || has_guards(elements, n)
        || has_children(elements, n, b"effect")
        || refers_to_several(elements, n, b"redefinedTransition")
}

/// Whether more than one stands at an element of this role in a place where one can be (this profile's choice).
pub fn several_at(elements: &Elements, n: u32, role: Role) -> bool
    requires { n < length elements.now }
    ensures { result ≡ has_several elements.now n role }
{
    match role {
        Role::ActiveClass | Role::OtherClass => refers_to_several(
            elements,
            n,
            b"classifierBehavior",
        ),
        Role::ClassMachine => {
            refers_to_several(elements, n, b"classifierBehavior")
                || refers_to_several(elements, n, b"extendedStateMachine")
        }
        Role::Machine => refers_to_several(elements, n, b"extendedStateMachine"),
        Role::Region => refers_to_several(elements, n, b"extendedRegion"),
        Role::State | Role::FinalState => several_at_state(elements, n),
        Role::Transition => several_at_transition(elements, n),
        Role::Trigger => refers_to_several(elements, n, b"event"),
        Role::SignalEvent => refers_to_several(elements, n, b"signal"),
        Role::Instance => refers_to_several(elements, n, b"classifier"),
        Role::Guard => has_children(elements, n, b"specification"),
        Role::Attribute => has_children(elements, n, b"defaultValue"),
        _ => false,
    }
}
