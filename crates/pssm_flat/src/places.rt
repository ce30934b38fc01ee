//! The lines on which the elements of a machine stand.
ghost use Rattle.std.specs.Prelude.{◌≡◌, ◌<◌, ◌≤◌, ◌+◌, ◌^◌, take, sum_by};
ghost use Rattle.pssm_flat.specs.inner.Places.{act_size, vertex_size, guard_size, transition_size, machine_size, size_before, element_line, fault_of};

use crate::elements::is_empty;
use crate::fault::FlatFault;
use pssm_model::{ActId, DraftMachine, Element, Guard, Shape, Transition, Vertex};

/// The first of these, at most so many.
fn first<T>(items: &[T], count: usize) -> &[T]
    ensures { result.now ≡ take count items.now }
{
    if count < items.len() {
        let (before, _) = items.split_at(count);
        before
    } else {
        items
    }
}

/// How many lines a behaviour has.
fn act_lines(act: ActId) -> usize
    ensures { result ≡ act_size act }
{
    if is_empty(act) { 0 } else { 1 }
}

/// How many lines these vertices have.
fn vertex_lines(vertices: &[Vertex]) -> usize
    requires { sum_by vertex_size vertices.now < 2 ^ 32 }
    ensures { result ≡ sum_by vertex_size vertices.now }
{
    let mut lines = 0;
    for vertex in vertices {
        let parts = vertex.steps.as_slice().len() + vertex.defers.as_slice().len();
        lines += act_lines(vertex.entry) + act_lines(vertex.exit) + parts + 1;
    }
    lines
}

/// How many lines a guard has.
fn guard_lines(guard: Guard) -> usize
    ensures { result ≡ guard_size guard }
{
    match guard {
        Guard::Otherwise | Guard::When(_) => 1,
        Guard::Always => 0,
    }
}

/// How many lines these transitions have.
fn transition_lines(transitions: &[Transition]) -> usize
    requires { sum_by transition_size transitions.now < 2 ^ 32 }
    ensures { result ≡ sum_by transition_size transitions.now }
{
    let mut lines = 0;
    for transition in transitions {
        let parts = guard_lines(transition.guard) + act_lines(transition.effect);
        lines += transition.triggers.as_slice().len() + parts + 1;
    }
    lines
}

/// How many lines the elements have.
fn element_lines(draft: &DraftMachine) -> usize
    requires { machine_size draft.now < 2 ^ 32 }
    ensures { result ≡ machine_size draft.now }
{
    draft.regions.as_slice().len()
        + vertex_lines(draft.vertices.as_slice())
        + transition_lines(draft.transitions.as_slice())
}

/// How many lines stand before an element among those of the elements.
fn lines_before(draft: &DraftMachine, element: Element) -> usize
    requires { machine_size draft.now < 2 ^ 32 }
    ensures before { result ≡ size_before draft.now element }
    ensures within { result ≤ machine_size draft.now }
{
    let regions = draft.regions.as_slice();
    let vertices = draft.vertices.as_slice();
    let transitions = draft.transitions.as_slice();
    match element {
        Element::Region(r) => first(regions, usize::from(r.0)).len(),
        Element::Vertex(v) => regions.len() + vertex_lines(first(vertices, usize::from(v.0))),
        Element::Transition(t) => {
            regions.len()
                + vertex_lines(vertices)
                + transition_lines(first(transitions, usize::from(t.0)))
        }
    }
}

/// The line of an element of a machine, counted from the line behind its block.
fn line_of(behind: u32, draft: &DraftMachine, element: Element) -> u32
    requires { machine_size draft.now ≤ behind }
    ensures { result ≡ element_line behind draft.now element }
{
    (behind as usize - element_lines(draft) + lines_before(draft, element)) as u32
}

/// The fault of a text whose machine is no machine, with the line of the element that is named.
pub(crate) fn shape_fault(behind: u32, draft: &DraftMachine, shape: Shape) -> FlatFault
    requires { machine_size draft.now ≤ behind }
    ensures { result ≡ fault_of behind draft.now shape }
{
    let element = match shape {
        Shape::BadOwner(element)
        | Shape::BadEnd(element)
        | Shape::TooMany(element)
        | Shape::TooDeep(element) => element,
        Shape::NoMemory => return FlatFault::NoMemory,
    };
    FlatFault::Shape {
        line: line_of(behind, draft, element),
        shape,
    }
}
