//! Whether the ends of the transitions that meet at a vertex lie in different regions of a State,
//! marked once for all vertices.
//!
//! Each region has a stamp: one more than the number of the last vertex across which an end was
//! found in it, and 0 before there is one. So an end that comes to a region with its own vertex's
//! stamp comes to it second, and each transition is looked at once.
ghost use Rattle.std.specs.Prelude.{◌≡◌, ◌↔◌, ◌<◌, ◌+◌, ℕ, All, AllPairs, Contains, length, slice_index_or, IfOk, IsTrue, MatchOption};
ghost use Rattle.pssm_model.specs.Shapes.{HasShape};
ghost use Rattle.pssm_model.specs.WellFormed.{LieApart};
ghost use Rattle.pssm_model.specs.Forest.{OwnsOfKind};
ghost use Rattle.pssm_wellformed.specs.inner.Ends.{HasRegion};
ghost use Rattle.pssm_wellformed.specs.inner.Apart.{EndLiesIn, EndLiesInside, AreEnds, IsAround, LieApartAround, IsFitting, AreApartMarks, AreStamps};

use crate::ends::{End, end_of, meeting};
use crate::inside::{region_inside, state_inside};
use pssm_model::{Machine, Owner, RegionId, TransId, VertexId, VertexKind};
use std::alloc::{AllocError as NoMemory, Global};

/// The region of the State in which the transition's end lies, where there is one.
fn region_of_end(
    machine: &Machine,
    transition: TransId,
    end: End,
    state: VertexId,
) -> Option<RegionId>
    requires shape { HasShape machine.now }
    requires there { transition.0 < length machine.now.transitions }
    ensures { MatchOption result (EndLiesInside machine.now end state transition → ⊥)
        (λ r. HasRegion machine.now state.0 r.0 × EndLiesIn machine.now end r transition) }
{
    region_inside(machine, end_of(machine, transition, end), state)
}

/// Puts the stamp on the region. Whether it had it before.
fn put_stamp(stamps: &mut Vec<u16>, region: RegionId, stamp: u16) -> bool
    requires { region.0 < length stamps.old.items }
    ensures before { IsTrue result ↔ (slice_index_or stamps.old.items region.0 0 ≡ stamp) }
    ensures width { length stamps.new.items ≡ length stamps.old.items }
    ensures here { slice_index_or stamps.new.items region.0 0 ≡ stamp }
    ensures elsewhere { (r : ℕ) → (r ≡ region.0 → ⊥) → slice_index_or stamps.new.items r 0
        ≡ slice_index_or stamps.old.items r 0 }
{
    let before = stamps[region.0 as usize] == stamp;
    stamps[region.0 as usize] = stamp;
    before
}

/// Whether the ends of these transitions lie in different regions of the State. The regions met get
/// a stamp later than the last.
fn lie_apart(
    machine: &Machine,
    transitions: &[TransId],
    end: End,
    state: VertexId,
    stamps: &mut Vec<u16>,
    last: u16,
) -> bool
    requires shape { HasShape machine.now }
    requires there { All (λ t. t.0 < length machine.now.transitions) transitions.now }
    requires ascending { AllPairs (λ t u. t.0 < u.0) transitions.now }
    requires stamps { AreStamps machine.now last stamps.old.items }
    requires few { last < 65535 }
    ensures apart { IsTrue result ↔ LieApart machine.now state (AreEnds machine.now end transitions.now) }
    ensures stamps { AreStamps machine.now (last + 1) stamps.new.items }
{
    for transition in transitions {
        match region_of_end(machine, *transition, end, state) {
            Some(region) => {
                if put_stamp(stamps, region, last + 1) {
                    return false;
                }
            }
            None => return false,
        }
    }
    true
}

/// A State that the region owns, where it owns any.
fn some_state(machine: &Machine, region: RegionId) -> Option<VertexId>
    requires { region.0 < length machine.now.regions }
    ensures { MatchOption result
        ((s : VertexId) → OwnsOfKind machine.now region VertexKind.State s → ⊥)
        (λ s. OwnsOfKind machine.now region VertexKind.State s) }
{
    machine.states_of(region).get(0).copied()
}

/// A State that the region owns, and in whose regions the ends of these transitions lie apart, if
/// they do so in those of any.
fn state_beside(
    machine: &Machine,
    region: RegionId,
    transitions: &[TransId],
    end: End,
) -> Option<VertexId>
    requires shape { HasShape machine.now }
    requires region { region.0 < length machine.now.regions }
    requires there { All (λ t. t.0 < length machine.now.transitions) transitions.now }
    ensures { MatchOption result
        ((s : VertexId) → OwnsOfKind machine.now region VertexKind.State s → LieApart machine.now s
        (AreEnds machine.now end transitions.now) → ⊥)
        (λ s. IsFitting machine.now (λ q. OwnsOfKind machine.now region VertexKind.State q)
        (AreEnds machine.now end transitions.now) s) }
{
    if transitions.is_empty() {
        return some_state(machine, region);
    }
    let first = end_of(machine, transitions[0], end);
    state_inside(machine, first, region)
}

/// A State around the vertex, in whose regions the ends of these transitions lie apart, if they do so in those of any.
fn state_around(
    machine: &Machine,
    vertex: VertexId,
    transitions: &[TransId],
    end: End,
) -> Option<VertexId>
    requires shape { HasShape machine.now }
    requires vertex { vertex.0 < length machine.now.vertices }
    requires there { All (λ t. t.0 < length machine.now.transitions) transitions.now }
    ensures { MatchOption result
        ((s : VertexId) → IsAround machine.now vertex s → LieApart machine.now s
        (AreEnds machine.now end transitions.now) → ⊥)
        (λ s. IsFitting machine.now (λ q. IsAround machine.now vertex q)
        (AreEnds machine.now end transitions.now) s) }
{
    match machine.vertex(vertex).owner {
        Owner::Region(region) => state_beside(machine, region, transitions, end),
        Owner::State(state) => Some(state),
        Owner::Top => None,
    }
}

/// Whether the ends across the vertex lie in different regions of a State around it.
fn lie_apart_around(
    machine: &Machine,
    vertex: VertexId,
    near: End,
    far: End,
    stamps: &mut Vec<u16>,
) -> bool
    requires shape { HasShape machine.now }
    requires there { vertex.0 < length machine.now.vertices }
    requires stamps { AreStamps machine.now vertex.0 stamps.old.items }
    ensures apart { IsTrue result ↔ LieApartAround machine.now near far vertex }
    ensures stamps { AreStamps machine.now (vertex.0 + 1) stamps.new.items }
{
    let transitions = meeting(machine, vertex, near);
    match state_around(machine, vertex, transitions, far) {
        Some(state) => lie_apart(machine, transitions, far, state, stamps, vertex.0),
        None => false,
    }
}

/// A mark for each vertex across which the ends lie in different regions of a State around it.
pub fn apart_marks(
    alloc: Global,
    machine: &Machine,
    near: End,
    far: End,
) -> Result<Vec<bool>, NoMemory>
    requires { HasShape machine.now }
    ensures { IfOk result (λ marks. AreApartMarks machine.now near far (length machine.now.vertices) marks.items) }
{
    let mut stamps = vec![in alloc; 0; machine.regions() as usize]?;
    let mut marks = Vec::new(alloc);
    for number in 0..machine.vertices() {
        let apart = lie_apart_around(machine, VertexId(number), near, far, &mut stamps);
        marks.push(apart)?;
    }
    Ok(marks)
}
