//! What an element lacks.
ghost use Rattle.std.specs.Prelude.{◌≡◌, ◌↔◌, ◌<◌, ℕ, length, IsTrue, codes};
ghost use Rattle.pssm_xml.specs.Elements.{HasNoValue};
ghost use Rattle.pssm_profile.specs.Counts.{RefersToNothing};
ghost use Rattle.pssm_profile.specs.Flaws.{Lacks};
ghost use Rattle.pssm_profile.specs.inner.Numbers.{number_of as number_for};

use crate::flaw::Owed;
use crate::naming::lacks_id;
use crate::number::Number;
use crate::referring::references_number;
use pssm_roles::Role;
use pssm_xml::Elements;

// Whether the number is nothing.
#[tactic(auto, using(crate::proofs::ChildLaws::nothing_is))]
fn is_nothing(number: Number) -> bool
    ensures { (count : ℕ) → number ≡ number_for count → (IsTrue result ↔ (count ≡ 0)) }
{
    matches!(number, Number::Nothing)
}

/// Whether the attribute and the children of this name refer to nothing (XMI 2.5.1, 7.10, linking).
pub fn refers_to_nothing(elements: &Elements, n: u32, name: &[u8]) -> bool
    requires { n < length elements.now }
    ensures { IsTrue result ↔ RefersToNothing elements.now n name.now }
{
    is_nothing(references_number(elements, n, name))
}

// Whether the element has no `xmi:type`.
fn lacks_type(elements: &Elements, n: u32) -> bool
    requires { n < length elements.now }
    ensures { IsTrue result ↔ HasNoValue elements.now n (codes "xmi:type") }
{
    elements.value_of(n, b"xmi:type").is_none()
}

/// Whether the element of this role owes this (this profile's choice).
pub fn lacks(elements: &Elements, n: u32, role: Role, what: Owed) -> bool
    requires { n < length elements.now }
    ensures { IsTrue result ↔ Lacks elements.now n role what }
{
    match what {
        Owed::Type => role == Role::OtherVertex && lacks_type(elements, n),
        Owed::Source => role == Role::Transition && refers_to_nothing(elements, n, b"source"),
        Owed::Target => role == Role::Transition && refers_to_nothing(elements, n, b"target"),
        Owed::Event => role == Role::Trigger && refers_to_nothing(elements, n, b"event"),
        Owed::Signal => role == Role::SignalEvent && refers_to_nothing(elements, n, b"signal"),
        Owed::Id => role.needs_id() && lacks_id(elements, n),
    }
}
