//! Where elements stand in the flattened machine, by their numbers.
ghost use Rattle.std.specs.Prelude.{◌≡◌, IfOk, map};
ghost use Rattle.pssm_heritage.specs.Heritages.{number_in};
ghost use Rattle.pssm_redefine.specs.Gathering.{number_or_none, owner_in, region_owner, vertex_owner, end_in, ends_in};

use crate::parts::Ends;
use pssm_heritage::{ElementKind, Heritage, region_at, transition_at, vertex_at};
use pssm_model::{Draft, ElementRef, End, Owner, RegionId, Row, VertexId};
use std::alloc::{AllocError as NoMemory, Global};

// The number, and 65,535 where there is none.
fn or_none(number: Option<usize>) -> u16
    ensures { result ≡ number_or_none number }
{
    match number {
        None => 65535,
        Some(n) => { if n < 65535 { n as u16 } else { 65535 } }
    }
}

// The number of a region.
fn region_number(heritage: &Heritage, e: ElementRef) -> RegionId
    ensures { result.0 ≡ number_or_none (number_in heritage.now.regions e) }
{
    RegionId(or_none(heritage.number_of(ElementKind::Region, e)))
}

// The number of a vertex.
fn vertex_number(heritage: &Heritage, e: ElementRef) -> VertexId
    ensures { result.0 ≡ number_or_none (number_in heritage.now.vertices e) }
{
    VertexId(or_none(heritage.number_of(ElementKind::Vertex, e)))
}

// An owner in this machine.
fn owner_of(heritage: &Heritage, machine: u32, owner: Owner) -> Owner
    ensures { result ≡ owner_in heritage.now machine owner }
{
    match owner {
        Owner::Top => Owner::Top,
        Owner::Region(region) => {
            let element = region.0 as u32;
            Owner::Region(region_number(heritage, ElementRef { machine, element }))
        }
        Owner::State(state) => {
            let element = state.0 as u32;
            Owner::State(vertex_number(heritage, ElementRef { machine, element }))
        }
    }
}

// The owner of a region.
fn owner_of_region(draft: &Draft, heritage: &Heritage, first: ElementRef) -> Owner
    ensures { result ≡ region_owner draft.now heritage.now first }
{
    match region_at(draft, first) {
        Some(region) => owner_of(heritage, first.machine, region.owner),
        None => Owner::Top,
    }
}

// The owner of a vertex.
fn owner_of_vertex(draft: &Draft, heritage: &Heritage, first: ElementRef) -> Owner
    ensures { result ≡ vertex_owner draft.now heritage.now first }
{
    match vertex_at(draft, first) {
        Some(vertex) => owner_of(heritage, first.machine, vertex.owner),
        None => Owner::Top,
    }
}

// The owners of all regions.
pub(crate) fn region_owners(
    alloc: Global,
    draft: &Draft,
    heritage: &Heritage,
) -> Result<Vec<Owner>, NoMemory>
    ensures { IfOk result (λ owners. owners.items
        ≡ map (region_owner draft.now heritage.now) heritage.now.regions.firsts) }
{
    let mut owners = Vec::new(alloc);
    for first in heritage.firsts(ElementKind::Region) {
        owners.push(owner_of_region(draft, heritage, *first))?;
    }
    Ok(owners)
}

// The owners of all vertices.
pub(crate) fn vertex_owners(
    alloc: Global,
    draft: &Draft,
    heritage: &Heritage,
) -> Result<Vec<Owner>, NoMemory>
    ensures { IfOk result (λ owners. owners.items
        ≡ map (vertex_owner draft.now heritage.now) heritage.now.vertices.firsts) }
{
    let mut owners = Vec::new(alloc);
    for first in heritage.firsts(ElementKind::Vertex) {
        owners.push(owner_of_vertex(draft, heritage, *first))?;
    }
    Ok(owners)
}

// An end of a transition.
fn end_of(heritage: &Heritage, end: End) -> VertexId
    ensures { result ≡ end_in heritage.now end }
{
    match end {
        End::Vertex(vertex) => vertex_number(heritage, vertex),
        End::Connection { state: _, index: _ } => VertexId(65535),
    }
}

// The source of the first form.
fn source_of(draft: &Draft, heritage: &Heritage, forms: &[ElementRef]) -> VertexId
    ensures { result ≡ (ends_in draft.now heritage.now forms.now).source }
{
    let Some(first) = forms.first() else {
        return VertexId(65535);
    };
    match transition_at(draft, *first) {
        Some(transition) => end_of(heritage, transition.source),
        None => VertexId(65535),
    }
}

// The target of the last form.
fn target_of(draft: &Draft, heritage: &Heritage, forms: &[ElementRef]) -> VertexId
    ensures { result ≡ (ends_in draft.now heritage.now forms.now).target }
{
    let Some(last) = forms.last() else {
        return VertexId(65535);
    };
    match transition_at(draft, *last) {
        Some(transition) => end_of(heritage, transition.target),
        None => VertexId(65535),
    }
}

// The ends of a transition with these forms.
fn ends_of(draft: &Draft, heritage: &Heritage, forms: &[ElementRef]) -> Ends
    ensures { result ≡ ends_in draft.now heritage.now forms.now }
{
    Ends {
        source: source_of(draft, heritage, forms),
        target: target_of(draft, heritage, forms),
    }
}

// The ends of all transitions.
pub(crate) fn all_ends(
    alloc: Global,
    draft: &Draft,
    heritage: &Heritage,
    transitions: &[Row<ElementRef>],
) -> Result<Vec<Ends>, NoMemory>
    ensures { IfOk result (λ ends. ends.items ≡ map (ends_in draft.now heritage.now) transitions.now) }
{
    let mut ends = Vec::new(alloc);
    for forms in transitions {
        ends.push(ends_of(draft, heritage, forms.as_slice()))?;
    }
    Ok(ends)
}
