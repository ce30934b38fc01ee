//! Whether a draft has the shape of a machine, and otherwise the first thing that is wrong with it.
ghost use Rattle.std.specs.Prelude.{◌≡◌, ◌⊎◌, ◌↔◌, ◌<◌, length, IsTrue, IfOk, IfErr, OnOk};
ghost use Rattle.pssm_model.specs.declared.elements.VertexKind.TheVariants as kinds;
ghost use Rattle.pssm_model.specs.Forest.{HasKind, HasRegionsAbove};
ghost use Rattle.pssm_model.specs.Legs.{IsPoint};
ghost use Rattle.pssm_model.specs.Shapes.{place_of as place_named, OwnsRegion, OwnsVertex, MayHaveOwner};
ghost use Rattle.pssm_model.specs.inner.Depths.{AreDepths, IsPlace};
ghost use Rattle.pssm_model.specs.inner.Faultless.{place_element, place_count, transition_element, IsFaultless, IsFaultOf, IsFirstFault, AreFaultless, AreDepthsOf, IsShallowBy, IsNumberedPast};

use crate::depths::{Depth, Depths, owner_of};
use crate::elements::{DraftMachine, Element, Owner, Shape, Transition, VertexKind};
use crate::ids::{RegionId, TransId, VertexId};
use std::alloc::Global;

/// Elements that have an owner.
#[derive(Clone, Copy)]
pub enum PlaceKind {
    Regions,
    Vertices,
}

/// The region or vertex of a number.
fn element_at(kind: PlaceKind, number: u16) -> Element
    ensures { result ≡ place_element kind number }
{
    match kind {
        PlaceKind::Regions => Element::Region(RegionId(number)),
        PlaceKind::Vertices => Element::Vertex(VertexId(number)),
    }
}

/// How many there are.
fn count_of(draft: &DraftMachine, kind: PlaceKind) -> usize
    ensures { result ≡ place_count draft.now kind }
{
    match kind {
        PlaceKind::Regions => draft.regions.as_slice().len(),
        PlaceKind::Vertices => draft.vertices.as_slice().len(),
    }
}

/// The element as a place that has an owner; a transition has none here.
fn place_of(element: Element) -> Owner
    ensures { result ≡ place_named element }
{
    match element {
        Element::Region(r) => Owner::Region(r),
        Element::Vertex(v) => Owner::State(v),
        Element::Transition(_) => Owner::Top,
    }
}

/// Whether the vertex is there and a State.
fn is_state(draft: &DraftMachine, v: VertexId) -> bool
    ensures { IsTrue result ↔ HasKind draft.now v kinds.State }
{
    match draft.vertices.as_slice().get(v.0 as usize) {
        Some(vertex) => vertex.kind == VertexKind::State,
        None => false,
    }
}

/// Whether the vertex is there and an entry or exit point.
fn is_point(draft: &DraftMachine, v: VertexId) -> bool
    ensures { IsTrue result ↔ IsPoint draft.now v }
{
    match draft.vertices.as_slice().get(v.0 as usize) {
        Some(vertex) => matches!(vertex.kind, VertexKind::EntryPoint | VertexKind::ExitPoint),
        None => false,
    }
}

/// Whether this may own a region.
fn owns_region(draft: &DraftMachine, owner: Owner) -> bool
    ensures { IsTrue result ↔ OwnsRegion draft.now owner }
{
    match owner {
        Owner::Top => true,
        Owner::Region(_) => false,
        Owner::State(s) => is_state(draft, s),
    }
}

/// Whether this may own the vertex.
fn owns_vertex(draft: &DraftMachine, v: VertexId, owner: Owner) -> bool
    ensures { IsTrue result ↔ OwnsVertex draft.now v owner }
{
    match owner {
        Owner::Top => false,
        Owner::Region(r) => !is_point(draft, v) && (r.0 as usize) < draft.regions.as_slice().len(),
        Owner::State(s) => is_point(draft, v) && is_state(draft, s),
    }
}

/// Whether the element may have this owner.
fn may_have_owner(draft: &DraftMachine, element: Element, owner: Owner) -> bool
    ensures { IsTrue result ↔ MayHaveOwner draft.now element owner }
{
    match element {
        Element::Region(_) => owns_region(draft, owner),
        Element::Vertex(v) => owns_vertex(draft, v, owner),
        Element::Transition(_) => true,
    }
}

/// Whether the element's number is past the limit of its kind.
fn is_past_limit(element: Element) -> bool
    ensures { IsTrue result ↔ IsNumberedPast element }
{
    match element {
        Element::Region(r) => r.0 >= 1024,
        Element::Vertex(v) => v.0 >= 4096,
        Element::Transition(t) => t.0 >= 8192,
    }
}

/// How many regions stand on the owner chain of a region or vertex, or what is wrong with it.
fn check_place(
    alloc: Global,
    draft: &DraftMachine,
    depths: &mut Depths,
    element: Element,
) -> Result<u16, Shape>
    requires place { IsPlace draft.now (place_named element) }
    requires depths { AreDepths draft.now depths.old }
    ensures sound { IfOk result (λ _. IsFaultless draft.now element) }
    ensures depth { IfOk result (IsShallowBy draft.now (place_named element)) }
    ensures kept { OnOk result (AreDepths draft.now depths.new) }
    ensures fault { IfErr result (λ fault. (fault ≡ Shape.NoMemory) ⊎ IsFaultOf draft.now element fault) }
{
    let place = place_of(element);
    let owner = owner_of(draft, place);
    let depth = depths.find(alloc, draft, place)?;
    if !may_have_owner(draft, element, owner) || depth == Depth::Nowhere {
        return Err(Shape::BadOwner(element));
    }
    if is_past_limit(element) {
        return Err(Shape::TooMany(element));
    }
    match depth {
        Depth::Within(n) => Ok(n),
        _ => Err(Shape::TooDeep(element)),
    }
}

/// How many regions stand on the owner chain of each region or of each vertex, or what is wrong with the first of them
/// with which something is.
pub fn check_places(
    alloc: Global,
    draft: &DraftMachine,
    depths: &mut Depths,
    kind: PlaceKind,
) -> Result<Vec<u16>, Shape>
    requires { AreDepths draft.now depths.old }
    ensures sound { OnOk result (AreFaultless draft.now (place_element kind) (place_count draft.now kind)) }
    ensures all { IfOk result (λ found. length found.items ≡ place_count draft.now kind) }
    ensures right { IfOk result (λ found. AreDepthsOf draft.now kind found.items) }
    ensures kept { OnOk result (AreDepths draft.now depths.new) }
    ensures fault { IfErr result (λ fault. (fault ≡ Shape.NoMemory) ⊎ IsFirstFault draft.now (place_element kind) fault) }
{
    let mut found = Vec::new(alloc);
    for number in 0..count_of(draft, kind) {
        let depth = check_place(alloc, draft, depths, element_at(kind, number as u16))?;
        found.push(depth).map_err(|_| Shape::NoMemory)?;
    }
    Ok(found)
}

/// Whether both ends of the transition are vertices.
fn has_ends(draft: &DraftMachine, transition: &Transition) -> bool
    ensures { IsTrue result ↔ ((transition.now.source.0 < length draft.now.vertices) × (transition.now.target.0 < length draft.now.vertices)) }
{
    let count = draft.vertices.as_slice().len();
    (transition.source.0 as usize) < count && (transition.target.0 as usize) < count
}

/// What is wrong with the first transition with which something is.
pub fn check_transitions(draft: &DraftMachine) -> Result<(), Shape>
    ensures sound { OnOk result (AreFaultless draft.now transition_element (length draft.now.transitions)) }
    ensures fault { IfErr result (IsFirstFault draft.now transition_element) }
{
    for (number, transition) in draft.transitions.as_slice().iter().enumerate() {
        let element = Element::Transition(TransId(number as u16));
        if !has_ends(draft, transition) {
            return Err(Shape::BadEnd(element));
        }
        if is_past_limit(element) {
            return Err(Shape::TooMany(element));
        }
    }
    Ok(())
}
