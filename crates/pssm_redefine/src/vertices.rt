//! The vertices of a flattened machine.
ghost use Rattle.std.specs.Prelude.{◌≡◌, ◌≤◌, ◌<◌, IfOk, length, slice_index_or, unwrap_or, []};
ghost use Rattle.pssm_redefine.specs.Forms.{last_given, given_label};
ghost use Rattle.pssm_redefine.specs.Merging.{first_kind, steps_numbered, IsMergedVertex, AreMergedVertices};
ghost use Rattle.pssm_redefine.specs.inner.Merges.{IsVertexNumbered};

use crate::defers::united_defers;
use crate::forms::last_label;
use pssm_heritage::vertex_at;
use pssm_model::{ActId, Draft, ElementRef, Owner, Row, Text, Vertex, VertexKind};
use std::alloc::{AllocError as NoMemory, Global};

// The number of a slot.
pub(crate) fn number_at(numbers: &[u16], slot: usize) -> u16
    ensures { result ≡ slice_index_or numbers.now slot 0 }
{
    numbers.get(slot).copied().unwrap_or(0)
}

// The kind of the first form.
fn kind_of(draft: &Draft, forms: &[ElementRef]) -> VertexKind
    ensures { result ≡ first_kind draft.now forms.now }
{
    let Some(first) = forms.first() else {
        return VertexKind::State;
    };
    match vertex_at(draft, *first) {
        Some(vertex) => vertex.kind,
        None => VertexKind::State,
    }
}

// The label of the last form that gives one; empty where none does.
fn label_of(alloc: Global, draft: &Draft, forms: &[ElementRef]) -> Result<Text, NoMemory>
    ensures { IfOk result (λ label. label ≡ unwrap_or (last_given (given_label draft.now) forms.now) []) }
{
    match last_label(draft, forms) {
        Some(label) => label.copy(alloc),
        None => Ok(Text::from_vec(Vec::new(alloc))),
    }
}

// The one step that has the text of all steps, where there is one.
fn steps_of(alloc: Global, number: u16) -> Result<Row<ActId>, NoMemory>
    ensures { IfOk result (λ steps. steps ≡ steps_numbered number) }
{
    let mut steps = Row::from_vec(Vec::new(alloc));
    if number != 0 {
        steps.push(ActId(number))?;
    }
    Ok(steps)
}

// The numbers of a vertex's behaviours.
#[derive(Clone, Copy)]
pub(crate) struct Behaviours {
    pub(crate) entry: u16,
    pub(crate) exit: u16,
    pub(crate) steps: u16,
}

// A vertex, put together from its forms.
fn merged_vertex(
    alloc: Global,
    draft: &Draft,
    owner: Owner,
    behaviours: Behaviours,
    forms: &[ElementRef],
) -> Result<Vertex, NoMemory>
    ensures { IfOk result (λ vertex. IsMergedVertex draft.now owner behaviours.entry behaviours.exit
        behaviours.steps forms.now vertex) }
{
    Ok(Vertex {
        owner,
        kind: kind_of(draft, forms),
        label: label_of(alloc, draft, forms)?,
        entry: ActId(behaviours.entry),
        exit: ActId(behaviours.exit),
        steps: steps_of(alloc, behaviours.steps)?,
        defers: Row::from_vec(united_defers(alloc, draft, forms)?),
    })
}

// The vertex with a number.
fn vertex_numbered(
    alloc: Global,
    draft: &Draft,
    numbers: &[u16],
    owners: &[Owner],
    forms: &[Row<ElementRef>],
    number: usize,
) -> Result<Vertex, NoMemory>
    requires owner { number < length owners.now }
    requires form { number < length forms.now }
    requires few { number < 65535 }
    ensures { IfOk result (λ vertex. IsVertexNumbered draft.now (λ slot. slice_index_or numbers.now slot 0)
        owners.now forms.now number vertex) }
{
    let behaviours = Behaviours {
        entry: number_at(numbers, 3 * number),
        exit: number_at(numbers, 3 * number + 1),
        steps: number_at(numbers, 3 * number + 2),
    };
    let vertex = merged_vertex(
        alloc,
        draft,
        owners[number],
        behaviours,
        forms[number].as_slice(),
    )?;
    Ok(vertex)
}

// All of them.
pub(crate) fn merged_vertices(
    alloc: Global,
    draft: &Draft,
    numbers: &[u16],
    owners: &[Owner],
    forms: &[Row<ElementRef>],
) -> Result<Vec<Vertex>, NoMemory>
    requires owners { length owners.now ≡ length forms.now }
    requires few { length forms.now ≤ 65535 }
    ensures { IfOk result (λ vertices. AreMergedVertices draft.now (λ slot. slice_index_or numbers.now slot 0)
        owners.now forms.now vertices.items) }
{
    let mut vertices = Vec::new(alloc);
    for number in 0..forms.len() {
        vertices.push(vertex_numbered(alloc, draft, numbers, owners, forms, number)?)?;
    }
    Ok(vertices)
}
