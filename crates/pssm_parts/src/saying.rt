//! What single attributes of an element say: the kind and the label of a vertex, the kind of a transition, and the
//! first value of a variable.
ghost use Rattle.std.specs.Prelude.{◌≡◌, ◌<◌, ℤ, pos, length, codes, IfOk, IfSome};
ghost use Rattle.std.specs.Option.{option_map_or, option_and_then};
ghost use Rattle.pssm_values.specs.Integers.{SaysInteger};
ghost use Rattle.pssm_values.specs.Kinds.{transition_spelled};
ghost use Rattle.pssm_numbering.specs.Numbering.{child_named};
ghost use Rattle.pssm_numbering.specs.Meanings.{value};
ghost use Rattle.pssm_parts.specs.Elements as elements;
ghost use Rattle.pssm_parts.specs.FirstValues as values;

use pssm_model::{Text, TransKind, VertexKind};
use pssm_numbering::File;
use pssm_roles::Role;
use pssm_values::{integer, label, pseudostate_kind, transition_of};
use std::alloc::{AllocError as NoMemory, Global};

/// The kind of the vertex: that of a pseudostate and of a connection point is said by `kind` (UML 2.5.1, 14.5.6 and
/// 14.5.7, Pseudostate and PseudostateKind).
pub fn kind_of(file: &File, n: u32) -> VertexKind
    requires { n < length file.now.doc }
    ensures { result ≡ elements.kind_of file.now n }
{
    match file.role(n) {
        Role::State => VertexKind::State,
        Role::FinalState => VertexKind::Final,
        _ => pseudostate_kind(file.value(n, b"kind")).unwrap_or(VertexKind::Initial),
    }
}

/// The label of the vertex: only a State that is not final has one (this profile's choice).
pub fn label_of(alloc: Global, file: &File, n: u32) -> Result<Option<Text>, NoMemory>
    requires { n < length file.now.doc }
    ensures { IfOk result (λ label. label ≡ elements.label_of file.now n) }
{
    if file.role(n) == Role::State {
        label(alloc, file.value(n, b"name"))
    } else {
        Ok(None)
    }
}

/// The kind of the transition, where it says one (UML 2.5.1, 14.5.12, TransitionKind).
pub fn transition_kind(file: &File, n: u32) -> Option<TransKind>
    requires { n < length file.now.doc }
    ensures { result ≡ option_and_then transition_spelled (value (codes "kind") file.now n) }
{
    match file.value(n, b"kind") {
        None => None,
        Some(word) => transition_of(word),
    }
}

// The integer that the default says.
fn default_value(file: &File, default: u32) -> i64
    requires within { default < length file.now.doc }
    requires spelled { (i : ℤ) × SaysInteger (value (codes "value") file.now default) i }
    ensures { result ≡ option_map_or values.integer_spelled (value (codes "value") file.now default) (pos 0) }
{
    match integer(file.value(default, b"value")) {
        Some(i) => i,
        None => 0,
    }
}

/// The first value of a variable: that of its default, where a missing `value` is 0, and 0 without one (UML 2.5.1,
/// 9.9.17, defaultValue, and 8.6.12, LiteralInteger).
pub fn first_value(file: &File, n: u32) -> i64
    requires within { n < length file.now.doc }
    requires spelled { IfSome (child_named (codes "defaultValue") file.now n)
        (λ d. (i : ℤ) × SaysInteger (value (codes "value") file.now d) i) }
    ensures { result ≡ values.first_value file.now n }
{
    match file.child_named(n, b"defaultValue") {
        None => 0,
        Some(default) => default_value(file, default),
    }
}
