//! The rule of paths that stay inside, E20.
ghost use Rattle.std.specs.Prelude.{◌↔◌, ◌⊎◌, ◌<◌, All, Contains, length, IsTrue};
ghost use Rattle.pssm_model.specs.Forest.{HasKind};
ghost use Rattle.pssm_model.specs.FiringSets.{IsLateOrigin};
ghost use Rattle.pssm_model.specs.declared.ids.TransId.{TransId};
ghost use Rattle.pssm_model.specs.WellFormed.{LeavesRegion, GoesOutside};
ghost use Rattle.pssm_wellformed.specs.inner.Walks.{IsThere};
ghost use Rattle.pssm_wellformed.specs.inner.Strays.{LeavesItsRegion, StraysFrom};

use crate::elements::{has_kind, is_late_origin};
use crate::ends::{End, end_of, meeting};
use crate::inside::region_inside;
use crate::marks::strays;
use crate::paths::Marked;
use pssm_model::{Machine, Owner, RegionId, TransId, VertexId, VertexKind};

/// Whether an inner path that begins with the transition leaves the region.
fn leaves_region(marked: &Marked, transition: TransId, region: RegionId) -> bool
    requires there { transition.0 < length marked.now.transitions }
    requires region { region.0 < length marked.now.regions }
    ensures { IsTrue result ↔ LeavesRegion marked.now transition region }
{
    let target = end_of(marked.machine, transition, End::Target);
    strays(
        marked.machine,
        marked.marks.inner.as_slice(),
        target,
        Owner::Region(region),
    )
}

/// Whether an inner path that begins with the transition leaves the region of the State in which the transition ends.
fn leaves_its_region(marked: &Marked, transition: TransId, state: VertexId) -> bool
    requires there { transition.0 < length marked.now.transitions }
    ensures { IsTrue result ↔ LeavesItsRegion marked.now transition state }
{
    let target = end_of(marked.machine, transition, End::Target);
    match region_inside(marked.machine, target, state) {
        Some(region) => leaves_region(marked, transition, region),
        None => false,
    }
}

/// Whether an inner path that begins with the transition strays from what owns its source.
fn strays_from(marked: &Marked, transition: TransId, owner: Owner) -> bool
    requires there { transition.0 < length marked.now.transitions }
    requires owner { IsThere marked.now owner }
    ensures { IsTrue result ↔ StraysFrom marked.now owner transition }
{
    match owner {
        Owner::Region(region) => leaves_region(marked, transition, region),
        Owner::State(state) => leaves_its_region(marked, transition, state),
        Owner::Top => false,
    }
}

/// Whether that is so for one of these transitions.
fn some_stray_from(marked: &Marked, transitions: &[TransId], owner: Owner) -> bool
    requires there { All (λ t. t.0 < length marked.now.transitions) transitions.now }
    requires owner { IsThere marked.now owner }
    ensures { IsTrue result
        ↔ ((t : TransId) × Contains transitions.now t × StraysFrom marked.now owner t) }
{
    for transition in transitions {
        if strays_from(marked, *transition, owner) {
            return true;
        }
    }
    false
}

/// Whether inner paths begin at the vertex that may not leave a region: it is an initial, history
/// or choice vertex or an entry point.
fn is_bound(machine: &Machine, vertex: VertexId) -> bool
    requires { vertex.0 < length machine.now.vertices }
    ensures { IsTrue result ↔ (IsLateOrigin machine.now vertex ⊎ HasKind machine.now vertex VertexKind.EntryPoint) }
{
    is_late_origin(machine, vertex) || has_kind(machine, vertex, VertexKind::EntryPoint)
}

/// E20: whether an inner path from an initial, history or choice vertex leaves its region, or one
/// from an entry point the region of its State in which the path's first transition ends.
pub fn goes_outside(marked: &Marked, vertex: VertexId) -> bool
    requires there { vertex.0 < length marked.now.vertices }
    ensures { IsTrue result ↔ GoesOutside marked.now vertex }
{
    if !is_bound(marked.machine, vertex) {
        return false;
    }
    let owner = marked.machine.vertex(vertex).owner;
    some_stray_from(marked, meeting(marked.machine, vertex, End::Source), owner)
}
