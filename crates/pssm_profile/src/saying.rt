//! Whether the values of an element say what can stand there.
ghost use Rattle.std.specs.Prelude.{◌≡◌, ◌↔◌, ◌<◌, ℤ, length, IsTrue, codes};
ghost use Rattle.std.specs.Option.{option_copied};
ghost use Rattle.pssm_values.specs.Integers.{SaysInteger};
ghost use Rattle.pssm_values.specs.Kinds.{pseudostate_said, transition_said};
ghost use Rattle.pssm_values.specs.Truths.{truth_said};
ghost use Rattle.pssm_profile.specs.Counts.{said};

use pssm_values::{integer, pseudostate_kind, transition_kind, truth};
use pssm_xml::Elements;

// What the attribute of this name says.
fn value_said<'a>(elements: &'a Elements, n: u32, name: &[u8]) -> Option<&'a [u8]>
    requires { n < length elements.now }
    ensures { option_copied result ≡ said elements.now n name.now }
{
    elements.value_of(n, name)
}

/// Whether the attribute `kind` of a pseudostate spells no kind.
pub fn says_no_pseudostate_kind(elements: &Elements, n: u32) -> bool
    requires { n < length elements.now }
    ensures { IsTrue result ↔ (pseudostate_said (said elements.now n (codes "kind")) ≡ None) }
{
    pseudostate_kind(elements.value_of(n, b"kind")).is_none()
}

/// Whether the attribute `kind` of a transition spells no kind.
pub fn says_no_transition_kind(elements: &Elements, n: u32) -> bool
    requires { n < length elements.now }
    ensures { IsTrue result ↔ (transition_said (said elements.now n (codes "kind")) ≡ None) }
{
    transition_kind(elements.value_of(n, b"kind")).is_none()
}

/// Whether the attribute of this name spells no truth value.
pub fn says_no_truth(elements: &Elements, n: u32, name: &[u8]) -> bool
    requires { n < length elements.now }
    ensures { IsTrue result ↔ (truth_said (said elements.now n name.now) ≡ None) }
{
    truth(elements.value_of(n, name)).is_none()
}

/// Whether the attribute `value` spells no integer.
pub fn says_no_integer(elements: &Elements, n: u32) -> bool
    requires { n < length elements.now }
    ensures { IsTrue result ↔ ((i : ℤ) → SaysInteger (said elements.now n (codes "value")) i → ⊥) }
{
    match integer(value_said(elements, n, b"value")) {
        Some(_) => false,
        None => true,
    }
}
