//! How deep places stand, and up to which level places hold two vertices.
ghost use Rattle.std.specs.Prelude.{◌≡◌, ◌↔◌, ◌<◌, ◌≤◌, ℕ, Some, Contains, length, IfOk, IsTrue};
ghost use Rattle.pssm_model.specs.Forest.{owner_of};
ghost use Rattle.pssm_model.specs.Shapes.{HasShape};
ghost use Rattle.pssm_wellformed.specs.inner.Reach.{StaysWithin};
ghost use Rattle.pssm_wellformed.specs.inner.Walks.{LiesIn, IsThere};
ghost use Rattle.pssm_wellformed.specs.inner.Levels.{IsLevel, IsHome, IsCommonLevel, IsLowestLevel, AreLevelsBelow, AreLowestLevels};

use crate::lists::list_of;
use pssm_model::{Machine, Owner, RegionId, VertexId};
use std::alloc::{AllocError as NoMemory, Global};

/// Whether the vertex lies in the region or State.
pub fn lies_in(machine: &Machine, vertex: VertexId, place: Owner) -> bool
    requires vertex { vertex.0 < length machine.now.vertices }
    requires place { IsThere machine.now place }
    ensures { IsTrue result ↔ LiesIn machine.now vertex place }
{
    match place {
        Owner::Top => true,
        Owner::Region(region) => machine.lies_in_region(vertex, region),
        Owner::State(state) => machine.lies_in_state(vertex, state),
    }
}

/// What owns the region or State.
pub fn owner(machine: &Machine, place: Owner) -> Owner
    requires place { IsThere machine.now place }
    requires owned { place ≡ Owner.Top → ⊥ }
    ensures { owner_of machine.now place ≡ Some result }
{
    match place {
        Owner::Top => unreachable!(),
        Owner::Region(region) => machine.region_owner(region),
        Owner::State(state) => machine.vertex(state).owner,
    }
}

/// How many places stand over the region.
fn region_level(machine: &Machine, region: RegionId) -> u16
    requires shape { HasShape machine.now }
    requires there { region.0 < length machine.now.regions }
    ensures level { IsLevel machine.now (Owner.Region region) result }
    ensures at_most { result ≤ 65 }
{
    match machine.region_owner(region) {
        Owner::State(state) => 2 * machine.depth(state) + 1,
        _ => 1,
    }
}

/// How many places stand over the place.
pub fn level(machine: &Machine, place: Owner) -> u16
    requires shape { HasShape machine.now }
    requires place { IsThere machine.now place }
    ensures level { IsLevel machine.now place result }
    ensures at_most { result ≤ 65 }
{
    match place {
        Owner::Top => 0,
        Owner::Region(region) => region_level(machine, region),
        Owner::State(state) => 2 * machine.depth(state),
    }
}

/// The innermost region in which the vertex lies.
pub fn home(machine: &Machine, vertex: VertexId) -> Owner
    requires shape { HasShape machine.now }
    requires there { vertex.0 < length machine.now.vertices }
    ensures { IsHome machine.now vertex result }
{
    match machine.vertex(vertex).owner {
        Owner::State(state) => machine.vertex(state).owner,
        region => region,
    }
}

/// The level of the innermost place in which both vertices lie. Of the innermost places of each the
/// deeper one is left, until they meet.
pub fn common_level(machine: &Machine, vertex: VertexId, other: VertexId) -> u16
    requires shape { HasShape machine.now }
    requires vertex { vertex.0 < length machine.now.vertices }
    requires other { other.0 < length machine.now.vertices }
    ensures level { IsCommonLevel machine.now vertex other result }
    ensures at_most { result ≤ 65 }
{
    let mut place = home(machine, vertex);
    let mut height = level(machine, place);
    let mut other_place = home(machine, other);
    let mut other_height = level(machine, other_place);
    while place != other_place {
        if height < other_height {
            other_place = owner(machine, other_place);
            other_height -= 1;
        } else {
            place = owner(machine, place);
            height -= 1;
        }
    }
    height
}

/// The level of the innermost place in which the vertex and all of the others lie.
fn lowest_level(machine: &Machine, vertex: VertexId, others: &[u16]) -> u16
    requires shape { HasShape machine.now }
    requires vertex { vertex.0 < length machine.now.vertices }
    requires others { (b : ℕ) → Contains others.now b → b < length machine.now.vertices }
    ensures { IsLowestLevel machine.now vertex others.now result }
{
    let mut lowest = common_level(machine, vertex, vertex);
    for number in others {
        let common = common_level(machine, vertex, VertexId(*number));
        if common < lowest {
            lowest = common;
        }
    }
    lowest
}

/// By vertex the level of the innermost place in which it lies with all to which its arrows lead.
pub fn lowest_levels(
    alloc: Global,
    machine: &Machine,
    onward: &Vec<Vec<u16>>,
) -> Result<Vec<u16>, NoMemory>
    requires shape { HasShape machine.now }
    requires width { length onward.now.items ≡ length machine.now.vertices }
    requires within { StaysWithin onward.now.items }
    ensures { IfOk result
        (λ lowest. AreLowestLevels machine.now onward.now.items
        (length machine.now.vertices) lowest.items) }
{
    let mut lowest = Vec::new(alloc);
    for number in 0..machine.vertices() {
        lowest.push(lowest_level(machine, VertexId(number), list_of(onward, number)))?;
    }
    Ok(lowest)
}

/// One more than the greatest level of a place in which a vertex lies, and 0 where there are no vertices.
pub fn count_levels(machine: &Machine) -> u16
    requires { HasShape machine.now }
    ensures { AreLevelsBelow machine.now (length machine.now.vertices) result }
{
    let mut count = 0;
    for number in 0..machine.vertices() {
        let own = common_level(machine, VertexId(number), VertexId(number));
        if count <= own {
            count = own + 1;
        }
    }
    count
}
