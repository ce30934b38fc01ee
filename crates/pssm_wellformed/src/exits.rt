//! The rule of exit points, E16.
ghost use Rattle.std.specs.Prelude.{◌≡◌, ◌↔◌, ◌<◌, Some, All, Contains, length, IsTrue};
ghost use Rattle.pssm_model.specs.declared.ids.TransId.{TransId};
ghost use Rattle.pssm_model.specs.declared.elements.Owner.TheVariants.{State};
ghost use Rattle.pssm_model.specs.Forest.{HasKind, owner_of};
ghost use Rattle.pssm_model.specs.Legs.{Enters};
ghost use Rattle.pssm_model.specs.Shapes.{HasShape};
ghost use Rattle.pssm_model.specs.WellFormed.{StaysInside, HasStrayPathIn, IsBadExitPoint};
ghost use Rattle.pssm_wellformed.specs.inner.Strays.{ComesFromAfar};

use crate::counts::lacks_one;
use crate::elements::has_kind;
use crate::ends::{End, end_of, meeting};
use crate::inside::region_inside;
use crate::marks::strays;
use crate::paths::Marked;
use crate::questions::{Question, holds_at};
use pssm_model::{Machine, Owner, TransId, VertexId, VertexKind};

/// Whether the other vertices of some junction path to the vertex that ends with the transition do
/// not all lie in one region of the State.
fn comes_from_afar(marked: &Marked, transition: TransId, vertex: VertexId, state: VertexId) -> bool
    requires there { transition.0 < length marked.now.transitions }
    requires enters { Enters marked.now transition vertex }
    requires point { HasKind marked.now vertex VertexKind.ExitPoint }
    requires owner { owner_of marked.now (State vertex) ≡ Some (State state) }
    requires leaves { StaysInside marked.now vertex → ⊥ }
    ensures { IsTrue result ↔ ComesFromAfar marked.now vertex state transition }
{
    let source = end_of(marked.machine, transition, End::Source);
    // A path that ends with a transition from the exit point to itself has no other vertex, so any
    // region of the State holds it.
    if source.0 == vertex.0 {
        return marked.machine.regions_of(state).is_empty();
    }
    match region_inside(marked.machine, source, state) {
        Some(region) => strays(
            marked.machine,
            marked.marks.back.as_slice(),
            source,
            Owner::Region(region),
        ),
        None => true,
    }
}

/// Whether that is so for one of these transitions.
fn some_come_from_afar(
    marked: &Marked,
    transitions: &[TransId],
    vertex: VertexId,
    state: VertexId,
) -> bool
    requires there { All (λ t. t.0 < length marked.now.transitions) transitions.now }
    requires enter { (t : TransId) → Contains transitions.now t → Enters marked.now t vertex }
    requires point { HasKind marked.now vertex VertexKind.ExitPoint }
    requires owner { owner_of marked.now (State vertex) ≡ Some (State state) }
    requires leaves { StaysInside marked.now vertex → ⊥ }
    ensures { IsTrue result
        ↔ ((t : TransId) × Contains transitions.now t × ComesFromAfar marked.now vertex state t) }
{
    for transition in transitions {
        if comes_from_afar(marked, *transition, vertex, state) {
            return true;
        }
    }
    false
}

/// Whether the other vertices of some junction path to the exit point do not all lie in one region of its State.
fn has_stray_path_in(marked: &Marked, vertex: VertexId) -> bool
    requires point { HasKind marked.now vertex VertexKind.ExitPoint }
    requires there { vertex.0 < length marked.now.vertices }
    requires leaves { StaysInside marked.now vertex → ⊥ }
    ensures { IsTrue result ↔ HasStrayPathIn marked.now vertex }
{
    match marked.machine.vertex(vertex).owner {
        Owner::State(state) => some_come_from_afar(
            marked,
            meeting(marked.machine, vertex, End::Target),
            vertex,
            state,
        ),
        _ => false,
    }
}

/// Whether a transition out of the exit point ends in its State.
fn stays_inside(machine: &Machine, vertex: VertexId) -> bool
    requires shape { HasShape machine.now }
    requires there { vertex.0 < length machine.now.vertices }
    ensures { IsTrue result ↔ StaysInside machine.now vertex }
{
    match machine.vertex(vertex).owner {
        Owner::State(state) => holds_at(machine, vertex, End::Source, Question::EndsInside(state)),
        _ => false,
    }
}

/// E16: whether it is an exit point with not exactly one transition out, or with one that ends in
/// its State, or to which some junction path comes from more than one region of its State, or from
/// outside.
pub fn is_bad_exit_point(marked: &Marked, vertex: VertexId) -> bool
    requires there { vertex.0 < length marked.now.vertices }
    ensures { IsTrue result ↔ IsBadExitPoint marked.now vertex }
{
    if !has_kind(marked.machine, vertex, VertexKind::ExitPoint) {
        return false;
    }
    if lacks_one(marked.machine, vertex, End::Source) || stays_inside(marked.machine, vertex) {
        return true;
    }
    has_stray_path_in(marked, vertex)
}
