//! What a route does at a vertex: whether it goes on through it, and whether it ends there (UML
//! 2.5.1, 14.2.3.7, pseudostates, and 14.2.3.8, compound transitions).
ghost use Rattle.std.specs.Prelude.{◌↔◌, ◌<◌, length, IsTrue};
ghost use Rattle.pssm_model.specs.declared.ids.VertexId.{VertexId};
ghost use Rattle.pssm_model.specs.declared.elements.VertexKind.TheVariants as kinds;
ghost use Rattle.pssm_model.specs.Forest.{HasKind};
ghost use Rattle.pssm_model.specs.Legs.{Enters, IsCut};
ghost use Rattle.pssm_enabled.specs.Fitting.{IsThrough, HasEveryBy, PassesBy};
ghost use Rattle.pssm_enabled.specs.Ways.{IsPassedOver, EndsInside};
ghost use Rattle.pssm_enabled.specs.inner.Fitting.{EndsAlone};

use pssm_model::{Machine, TransId, VertexId, VertexKind};

/// Whether the vertex is a junction.
pub(crate) fn is_junction(machine: &Machine, v: VertexId) -> bool
    requires there { v.0 < length machine.now.vertices }
    ensures { IsTrue result ↔ HasKind machine.now v kinds.Junction }
{
    machine.vertex(v).kind == VertexKind::Junction
}

/// Whether the vertex is a join (UML 2.5.1, 14.2.3.7, join).
pub fn is_join(machine: &Machine, v: VertexId) -> bool
    requires there { v.0 < length machine.now.vertices }
    ensures { IsTrue result ↔ HasKind machine.now v kinds.Join }
{
    machine.vertex(v).kind == VertexKind::Join
}

/// Whether the vertex is an entry point.
pub(crate) fn is_entry_point(machine: &Machine, v: VertexId) -> bool
    requires { v.0 < length machine.now.vertices }
    ensures { IsTrue result ↔ HasKind machine.now v kinds.EntryPoint }
{
    machine.vertex(v).kind == VertexKind::EntryPoint
}

/// Whether the vertex is a fork, join, entry or exit point.
pub(crate) fn is_cut(machine: &Machine, v: VertexId) -> bool
    requires there { v.0 < length machine.now.vertices }
    ensures { IsTrue result ↔ IsCut machine.now v }
{
    match machine.vertex(v).kind {
        VertexKind::Fork => true,
        VertexKind::Join => true,
        VertexKind::EntryPoint => true,
        VertexKind::ExitPoint => true,
        _ => false,
    }
}

/// Whether a route goes on through the vertex.
pub(crate) fn is_through(machine: &Machine, v: VertexId) -> bool
    requires there { v.0 < length machine.now.vertices }
    ensures { IsTrue result ↔ IsThrough machine.now v }
{
    is_junction(machine, v) || is_cut(machine, v)
}

/// Whether the vertex is a junction or exit point: a route goes on from it over one transition (UML
/// 2.5.1, 14.2.3.7, junction and exitPoint).
pub fn is_passed_over(machine: &Machine, v: VertexId) -> bool
    requires { v.0 < length machine.now.vertices }
    ensures { IsTrue result ↔ IsPassedOver machine.now v }
{
    match machine.vertex(v).kind {
        VertexKind::Junction => true,
        VertexKind::ExitPoint => true,
        _ => false,
    }
}

/// Whether no transition leaves the vertex.
pub(crate) fn has_no_out(machine: &Machine, v: VertexId) -> bool
    requires there { v.0 < length machine.now.vertices }
    ensures { IsTrue result ↔ HasEveryBy machine.now (λ t. ⊥) v }
{
    machine.outgoing(v).is_empty()
}

/// Whether a route ends at the vertex with the transition that comes to it.
pub(crate) fn ends_at(machine: &Machine, v: VertexId) -> bool
    requires there { v.0 < length machine.now.vertices }
    ensures { IsTrue result ↔ PassesBy machine.now (λ t. ⊥) v }
{
    if is_junction(machine, v) {
        return false;
    }
    if is_cut(machine, v) {
        return has_no_out(machine, v);
    }
    true
}

/// Whether a route ends with the transition.
pub(crate) fn ends_alone(machine: &Machine, t: TransId) -> bool
    requires there { t.0 < length machine.now.transitions }
    ensures { IsTrue result ↔ EndsAlone machine.now t }
{
    ends_at(machine, machine.target(t))
}

/// Whether a route can have the transition as its one start: it ends on no join (UML 2.5.1, 14.2.3.7,
/// join: the transitions into it are taken together).
pub fn starts_alone(machine: &Machine, t: TransId) -> bool
    requires there { t.0 < length machine.now.transitions }
    ensures { IsTrue result ↔ ((v : VertexId) → Enters machine.now t v → HasKind machine.now v kinds.Join → ⊥) }
{
    !is_join(machine, machine.target(t))
}

/// Whether the transition ends on a junction or exit point: a route goes on behind it (UML 2.5.1,
/// 14.2.3.7, junction and exitPoint).
pub fn ends_inside(machine: &Machine, t: TransId) -> bool
    requires { t.0 < length machine.now.transitions }
    ensures { IsTrue result ↔ EndsInside machine.now t }
{
    is_passed_over(machine, machine.target(t))
}
