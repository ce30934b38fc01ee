//! Where vertices lie, as the rules ask of it.
ghost use Rattle.std.specs.Prelude.{◌≡◌, ◌↔◌, ◌<◌, Some, length, IsTrue, MatchOption};
ghost use Rattle.pssm_model.specs.declared.elements.Owner.TheVariants.{Region, State};
ghost use Rattle.pssm_model.specs.Forest.{owner_of, LiesInRegion, LiesInState, OwnsOfKind};
ghost use Rattle.pssm_model.specs.Shapes.{HasShape};
ghost use Rattle.pssm_wellformed.specs.inner.Levels.{IsPartWith};

use crate::levels::{common_level, home, level, owner};
use pssm_model::{Machine, Owner, RegionId, VertexId, VertexKind};

/// The region, where the place is one.
fn as_region(place: Owner) -> Option<RegionId>
    ensures { MatchOption result ((r : RegionId) → place ≡ Region r → ⊥) (λ r. place ≡ Region r) }
{
    match place {
        Owner::Region(region) => Some(region),
        _ => None,
    }
}

/// The State, where the place is one.
fn as_state(place: Owner) -> Option<VertexId>
    ensures { MatchOption result ((s : VertexId) → place ≡ State s → ⊥) (λ s. place ≡ State s) }
{
    match place {
        Owner::State(state) => Some(state),
        _ => None,
    }
}

/// The part of the place in which the vertex lies, where there is one: what the place owns and what holds the vertex.
fn part_inside(machine: &Machine, vertex: VertexId, whole: Owner) -> Option<Owner>
    requires shape { HasShape machine.now }
    requires there { vertex.0 < length machine.now.vertices }
    ensures { MatchOption result ((p : Owner) → IsPartWith machine.now vertex whole p → ⊥)
        (λ p. IsPartWith machine.now vertex whole p) }
{
    let mut place = home(machine, vertex);
    let mut height = level(machine, place);
    while height > 0 {
        let above = owner(machine, place);
        if above == whole {
            return Some(place);
        }
        place = above;
        height -= 1;
    }
    None
}

/// The region of the State in which the vertex lies, where there is one.
pub fn region_inside(machine: &Machine, vertex: VertexId, state: VertexId) -> Option<RegionId>
    requires shape { HasShape machine.now }
    requires there { vertex.0 < length machine.now.vertices }
    ensures { MatchOption result (LiesInState machine.now vertex state → ⊥)
        (λ r. (owner_of machine.now (Region r) ≡ Some (State state)) × LiesInRegion machine.now vertex r) }
{
    match part_inside(machine, vertex, Owner::State(state)) {
        Some(part) => as_region(part),
        None => None,
    }
}

/// The State that the region owns and in which the vertex lies, where there is one.
pub fn state_inside(machine: &Machine, vertex: VertexId, region: RegionId) -> Option<VertexId>
    requires shape { HasShape machine.now }
    requires there { vertex.0 < length machine.now.vertices }
    ensures { MatchOption result
        ((s : VertexId) → OwnsOfKind machine.now region VertexKind.State s
        → LiesInState machine.now vertex s → ⊥)
        (λ s. OwnsOfKind machine.now region VertexKind.State s × LiesInState machine.now vertex s) }
{
    match part_inside(machine, vertex, Owner::Region(region)) {
        Some(part) => as_state(part),
        None => None,
    }
}

/// Whether some region has both vertices in it.
pub fn share_region(machine: &Machine, vertex: VertexId, other: VertexId) -> bool
    requires shape { HasShape machine.now }
    requires vertex { vertex.0 < length machine.now.vertices }
    requires other { other.0 < length machine.now.vertices }
    ensures { IsTrue result
        ↔ ((r : RegionId) × LiesInRegion machine.now vertex r × LiesInRegion machine.now other r) }
{
    common_level(machine, vertex, other) > 0
}
