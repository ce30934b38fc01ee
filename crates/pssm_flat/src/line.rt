//! The lines of the flat form, one by one.
ghost use Rattle.std.specs.Prelude.{◌≡◌, IfOk};
ghost use Rattle.std.specs.Option.{option_map};
ghost use Rattle.pssm_flat.specs.inner.Lines.{signal_taken, object_taken, var_taken, region_line_taken, vertex_line_taken, transition_line_taken, head_line_taken, element_line_taken, part_line_taken, line_taken};

use crate::action::{ActionLine, action_at};
use crate::parts::{count_at, end_at, first_at, label_at, named, owner_at};
use crate::words::{kind_of, transition_of};
use pssm_model::{Owner, Text, TransKind, VertexId, VertexKind};
use pssm_spelling::{index_at, name_at, strip};
use std::alloc::{AllocError, Global};

/// A line of the grammar (this profile's choice). `EmptyStep` is the line `step`, and `Otherwise` the line `else`.
#[derive(Drop)]
pub(crate) enum Line {
    Header,
    Signal {
        name: Text,
        count: u8,
    },
    Class {
        name: Text,
    },
    Object {
        name: Text,
        class: Text,
    },
    Machine {
        name: Text,
    },
    Var {
        name: Text,
        first: i64,
    },
    Region {
        number: u16,
        owner: Owner,
    },
    Vertex {
        number: u16,
        owner: Owner,
        kind: VertexKind,
        label: Text,
    },
    Defer {
        signal: Text,
    },
    Transition {
        number: u16,
        source: VertexId,
        target: VertexId,
        kind: TransKind,
    },
    On {
        signal: Text,
    },
    Action {
        word: ActionLine,
        text: Text,
    },
    EmptyStep,
    Otherwise,
    End,
}

fn text_of(alloc: Global, bytes: &[u8]) -> Result<Text, AllocError>
    ensures { IfOk result (λ t. t ≡ bytes.now) }
{
    Ok(Text::from_vec(bytes.to_vec(alloc)?))
}

/// `signal NAME COUNT`: the name and the count.
#[tactic(auto, unfolding(crate::specs::inner::Lines::signal_taken))]
fn signal_at(bytes: &[u8]) -> Option<(&[u8], u8)>
    ensures { option_map (λ x. (x.0.now, x.1)) result ≡ signal_taken bytes.now }
{
    let rest = strip(bytes, b"signal ")?;
    let (name, rest) = name_at(rest)?;
    let digit = strip(rest, b" ")?;
    let count = count_at(digit)?;
    Some((name, count))
}

/// `object NAME CLASS`: both names.
#[tactic(auto, unfolding(crate::specs::inner::Lines::object_taken))]
fn object_at(bytes: &[u8]) -> Option<(&[u8], &[u8])>
    ensures { option_map (λ x. (x.0.now, x.1.now)) result ≡ object_taken bytes.now }
{
    let rest = strip(bytes, b"object ")?;
    let (name, rest) = name_at(rest)?;
    let class = named(b" ", rest)?;
    Some((name, class))
}

/// `var NAME INT`: the name and the first value.
#[tactic(auto, unfolding(crate::specs::inner::Lines::var_taken))]
fn var_at(bytes: &[u8]) -> Option<(&[u8], i64)>
    ensures { option_map (λ x. (x.0.now, x.1)) result ≡ var_taken bytes.now }
{
    let rest = strip(bytes, b"var ")?;
    let (name, rest) = name_at(rest)?;
    let word = strip(rest, b" ")?;
    let first = first_at(word)?;
    Some((name, first))
}

/// `region rI OWNER`.
#[tactic(auto, unfolding(crate::specs::inner::Lines::region_line_taken))]
fn region_at(bytes: &[u8]) -> Option<Line>
    ensures { result ≡ region_line_taken bytes.now }
{
    let digits = strip(bytes, b"region r")?;
    let (number, rest) = index_at(digits)?;
    let rest = strip(rest, b" ")?;
    let (owner, end) = owner_at(rest)?;
    if end.is_empty() {
        Some(Line::Region { number, owner })
    } else {
        None
    }
}

/// `vertex vI OWNER KIND`, or `vertex vI OWNER KIND LABEL`: the four parts.
#[tactic(auto, unfolding(crate::specs::inner::Lines::vertex_line_taken))]
fn vertex_at(bytes: &[u8]) -> Option<(u16, Owner, VertexKind, &[u8])>
    ensures { option_map (λ x. (x.0, x.1, x.2, x.3.now)) result ≡ vertex_line_taken bytes.now }
{
    let digits = strip(bytes, b"vertex v")?;
    let (number, rest) = index_at(digits)?;
    let rest = strip(rest, b" ")?;
    let (owner, rest) = owner_at(rest)?;
    let word = strip(rest, b" ")?;
    let (name, rest) = name_at(word)?;
    let kind = kind_of(name)?;
    let label = label_at(rest)?;
    Some((number, owner, kind, label))
}

/// `transition tI vS vT KIND`: the four parts.
#[tactic(auto, unfolding(crate::specs::inner::Lines::transition_line_taken))]
fn transition_at(bytes: &[u8]) -> Option<(u16, u16, u16, TransKind)>
    ensures { result ≡ transition_line_taken bytes.now }
{
    let digits = strip(bytes, b"transition t")?;
    let (number, rest) = index_at(digits)?;
    let (source, rest) = end_at(rest)?;
    let (target, rest) = end_at(rest)?;
    let word = strip(rest, b" ")?;
    let kind = transition_of(word)?;
    Some((number, source, target, kind))
}

/// A line of the head: the header, a signal, a class, an object, or the first line of a block.
#[tactic(auto, unfolding(crate::specs::inner::Lines::head_line_taken))]
fn head_line_of(alloc: Global, bytes: &[u8]) -> Result<Option<Line>, AllocError>
    ensures { IfOk result (λ l. l ≡ head_line_taken bytes.now) }
{
    if bytes == b"pssm-flat 1".as_slice() {
        return Ok(Some(Line::Header));
    }
    if let Some((name, count)) = signal_at(bytes) {
        let name = text_of(alloc, name)?;
        return Ok(Some(Line::Signal { name, count }));
    }
    if let Some(name) = named(b"class ", bytes) {
        let name = text_of(alloc, name)?;
        return Ok(Some(Line::Class { name }));
    }
    if let Some((name, class)) = object_at(bytes) {
        let name = text_of(alloc, name)?;
        let class = text_of(alloc, class)?;
        return Ok(Some(Line::Object { name, class }));
    }
    if let Some(name) = named(b"machine ", bytes) {
        let name = text_of(alloc, name)?;
        return Ok(Some(Line::Machine { name }));
    }
    Ok(None)
}

/// A line of a variable or an element.
#[tactic(auto, unfolding(crate::specs::inner::Lines::element_line_taken))]
fn element_line_of(alloc: Global, bytes: &[u8]) -> Result<Option<Line>, AllocError>
    ensures { IfOk result (λ l. l ≡ element_line_taken bytes.now) }
{
    if let Some((name, first)) = var_at(bytes) {
        let name = text_of(alloc, name)?;
        return Ok(Some(Line::Var { name, first }));
    }
    if let Some(line) = region_at(bytes) {
        return Ok(Some(line));
    }
    if let Some((number, owner, kind, label)) = vertex_at(bytes) {
        let label = text_of(alloc, label)?;
        return Ok(Some(Line::Vertex {
            number,
            owner,
            kind,
            label,
        }));
    }
    if let Some((number, source, target, kind)) = transition_at(bytes) {
        return Ok(Some(Line::Transition {
            number,
            source: VertexId(source),
            target: VertexId(target),
            kind,
        }));
    }
    Ok(None)
}

/// A line of a part of the element before it, or the last line of the text.
#[tactic(auto, unfolding(crate::specs::inner::Lines::part_line_taken))]
fn part_line_of(alloc: Global, bytes: &[u8]) -> Result<Option<Line>, AllocError>
    ensures { IfOk result (λ l. l ≡ part_line_taken bytes.now) }
{
    if let Some(signal) = named(b"defer ", bytes) {
        let signal = text_of(alloc, signal)?;
        return Ok(Some(Line::Defer { signal }));
    }
    if let Some(signal) = named(b"on ", bytes) {
        let signal = text_of(alloc, signal)?;
        return Ok(Some(Line::On { signal }));
    }
    if let Some((word, text)) = action_at(bytes) {
        let text = text_of(alloc, text)?;
        return Ok(Some(Line::Action { word, text }));
    }
    if bytes == b"step".as_slice() {
        return Ok(Some(Line::EmptyStep));
    }
    if bytes == b"else".as_slice() {
        return Ok(Some(Line::Otherwise));
    }
    if bytes == b"end".as_slice() {
        return Ok(Some(Line::End));
    }
    Ok(None)
}

/// The line that the bytes spell, which are those of a line without its line feed. None where they spell none.
#[tactic(auto, unfolding(crate::specs::inner::Lines::line_taken))]
pub(crate) fn line_of(alloc: Global, bytes: &[u8]) -> Result<Option<Line>, AllocError>
    ensures { IfOk result (λ l. l ≡ line_taken bytes.now) }
{
    if let Some(line) = head_line_of(alloc, bytes)? {
        return Ok(Some(line));
    }
    if let Some(line) = element_line_of(alloc, bytes)? {
        return Ok(Some(line));
    }
    part_line_of(alloc, bytes)
}
