//! The pieces of lines, written behind a text.
ghost use Rattle.std.specs.Prelude.{◌≡◌, ◌++◌, OnOk, codes};
ghost use Rattle.std.specs.Fmt.{decimal, signed_decimal};
ghost use Rattle.pssm_flat.specs.Text.{line, owner_word, transition_word, label_text, signal_name, class_name, signal_line, object_line, var_line, region_line, vertex_line, transition_line};

use crate::words::{name_of_kind, name_of_transition};
use pssm_model::{Owner, SignalId, TransKind, Transition, Vertex, VertexId};
use pssm_semantics::{Class, ObjectDecl, SignalDecl, VarDecl};
use pssm_spelling::{put_number, put_signed};
use std::alloc::{AllocError, Global};

// Writes two words, one behind the other.
fn put_pair(text: &mut Vec<u8>, first: &[u8], second: &[u8]) -> Result<(), AllocError>
    ensures { OnOk result (text.new.items ≡ text.old.items ++ (first.now ++ second.now)) }
{
    text.extend_from_slice(first)?;
    text.extend_from_slice(second)
}

// Writes a word and a number.
fn put_numbered(
    alloc: Global,
    text: &mut Vec<u8>,
    word: &[u8],
    number: u64,
) -> Result<(), AllocError>
    ensures { OnOk result (text.new.items ≡ text.old.items ++ (word.now ++ decimal number)) }
{
    text.extend_from_slice(word)?;
    put_number(alloc, text, number)
}

/// Writes the line of a word and a name.
pub(crate) fn put_named(text: &mut Vec<u8>, word: &[u8], name: &[u8]) -> Result<(), AllocError>
    ensures { OnOk result (text.new.items ≡ text.old.items ++ line (word.now ++ name.now)) }
{
    put_pair(text, word, name)?;
    text.extend_from_slice(b"\n")
}

/// The name of a signal, empty where there is none with the number.
pub(crate) fn name_of_signal(signals: &[SignalDecl], signal: SignalId) -> &[u8]
    ensures { result.now ≡ signal_name signals.now signal }
{
    match signals.get(usize::from(signal.0)) {
        Some(declared) => declared.name.as_slice(),
        None => b"",
    }
}

fn name_of_class(classes: &[Class], number: u8) -> &[u8]
    ensures { result.now ≡ class_name classes.now number }
{
    match classes.get(usize::from(number)) {
        Some(class) => class.name.as_slice(),
        None => b"",
    }
}

fn put_owner(alloc: Global, text: &mut Vec<u8>, owner: Owner) -> Result<(), AllocError>
    ensures { OnOk result (text.new.items ≡ text.old.items ++ owner_word owner) }
{
    match owner {
        Owner::Top => text.extend_from_slice(b"top"),
        Owner::Region(r) => put_numbered(alloc, text, b"r", u64::from(r.0)),
        Owner::State(v) => put_numbered(alloc, text, b"v", u64::from(v.0)),
    }
}

// Writes an owner behind a blank.
fn put_owner_behind(alloc: Global, text: &mut Vec<u8>, owner: Owner) -> Result<(), AllocError>
    ensures { OnOk result (text.new.items ≡ text.old.items ++ (codes " " ++ owner_word owner)) }
{
    text.push(b' ')?;
    put_owner(alloc, text, owner)
}

// Writes a label behind one blank, and nothing for an empty one.
fn put_label(text: &mut Vec<u8>, label: &[u8]) -> Result<(), AllocError>
    ensures { OnOk result (text.new.items ≡ text.old.items ++ label_text label.now) }
{
    match label {
        [] => Ok(()),
        _ => put_pair(text, b" ", label),
    }
}

/// Writes `signal NAME COUNT`.
pub(crate) fn put_signal(
    alloc: Global,
    text: &mut Vec<u8>,
    signal: &SignalDecl,
) -> Result<(), AllocError>
    ensures { OnOk result (text.new.items ≡ text.old.items ++ line (signal_line signal.now)) }
{
    put_pair(text, b"signal ", signal.name.as_slice())?;
    put_numbered(alloc, text, b" ", u64::from(signal.count))?;
    text.extend_from_slice(b"\n")
}

/// Writes `object NAME CLASS`.
pub(crate) fn put_object(
    text: &mut Vec<u8>,
    classes: &[Class],
    object: &ObjectDecl,
) -> Result<(), AllocError>
    ensures { OnOk result (text.new.items ≡ text.old.items ++ line (object_line classes.now object.now)) }
{
    put_pair(text, b"object ", object.name.as_slice())?;
    put_named(text, b" ", name_of_class(classes, object.class))
}

/// Writes `var NAME INT`.
pub(crate) fn put_var(
    alloc: Global,
    text: &mut Vec<u8>,
    variable: &VarDecl,
) -> Result<(), AllocError>
    ensures { OnOk result (text.new.items ≡ text.old.items ++ line (var_line variable.now)) }
{
    put_pair(text, b"var ", variable.name.as_slice())?;
    text.push(b' ')?;
    put_signed(alloc, text, variable.first)?;
    text.extend_from_slice(b"\n")
}

/// Writes `region rI OWNER`.
pub(crate) fn put_region(
    alloc: Global,
    text: &mut Vec<u8>,
    number: usize,
    owner: Owner,
) -> Result<(), AllocError>
    ensures { OnOk result (text.new.items ≡ text.old.items ++ line (region_line number owner)) }
{
    put_numbered(alloc, text, b"region r", number as u64)?;
    put_owner_behind(alloc, text, owner)?;
    text.extend_from_slice(b"\n")
}

/// Writes `vertex vI OWNER KIND`, with the label behind it.
pub(crate) fn put_vertex_line(
    alloc: Global,
    text: &mut Vec<u8>,
    number: usize,
    vertex: &Vertex,
) -> Result<(), AllocError>
    ensures { OnOk result (text.new.items ≡ text.old.items ++ line (vertex_line number vertex.now)) }
{
    put_numbered(alloc, text, b"vertex v", number as u64)?;
    put_owner_behind(alloc, text, vertex.owner)?;
    put_pair(text, b" ", name_of_kind(vertex.kind))?;
    put_label(text, vertex.label.as_slice())?;
    text.extend_from_slice(b"\n")
}

// Writes a vertex by its number, behind a blank.
fn put_end(alloc: Global, text: &mut Vec<u8>, vertex: VertexId) -> Result<(), AllocError>
    ensures { OnOk result (text.new.items ≡ text.old.items ++ (codes " v" ++ decimal vertex.0)) }
{
    put_numbered(alloc, text, b" v", u64::from(vertex.0))
}

// Writes the ends of a transition.
fn put_ends(
    alloc: Global,
    text: &mut Vec<u8>,
    source: VertexId,
    target: VertexId,
) -> Result<(), AllocError>
    ensures { OnOk result
        (text.new.items ≡ text.old.items ++ (codes " v" ++ (decimal source.0 ++ (codes " v" ++ decimal target.0)))) }
{
    put_end(alloc, text, source)?;
    put_end(alloc, text, target)
}

// Writes the kind of a transition behind a blank, and the end of the line.
fn put_kind(text: &mut Vec<u8>, kind: TransKind) -> Result<(), AllocError>
    ensures { OnOk result (text.new.items ≡ text.old.items ++ line (codes " " ++ transition_word kind)) }
{
    put_named(text, b" ", name_of_transition(kind))
}

/// Writes `transition tI vS vT KIND`.
pub(crate) fn put_transition_line(
    alloc: Global,
    text: &mut Vec<u8>,
    number: usize,
    transition: &Transition,
) -> Result<(), AllocError>
    ensures { OnOk result (text.new.items ≡ text.old.items ++ line (transition_line number transition.now)) }
{
    put_numbered(alloc, text, b"transition t", number as u64)?;
    put_ends(alloc, text, transition.source, transition.target)?;
    put_kind(text, transition.kind)?;
    Ok(())
}

/// Writes the line of a word, a blank and a spelling.
pub(crate) fn put_spelled(
    text: &mut Vec<u8>,
    word: &[u8],
    spelled: &Vec<u8>,
) -> Result<(), AllocError>
    ensures { OnOk result (text.new.items ≡ text.old.items ++ line (word.now ++ (codes " " ++ spelled.now.items))) }
{
    put_pair(text, word, b" ")?;
    put_named(text, spelled.as_slice(), b"")
}
