//! How a route goes on behind a fork, and behind entry points that lead to one another, where it
//! ends with the transitions out of the last (UML 2.5.1, 14.2.3.7, fork and entryPoint). It needs no
//! marks.
ghost use Rattle.std.specs.Prelude.{◌↔◌, ◌⊎◌, ◌<◌, length, IsTrue, IfOk, IfSome};
ghost use Rattle.pssm_model.specs.declared.elements.VertexKind.TheVariants as kinds;
ghost use Rattle.pssm_model.specs.Forest.{HasKind};
ghost use Rattle.pssm_model.specs.Routes.{Truth};
ghost use Rattle.pssm_model.specs.WellFormed.{KeepsModelRules};
ghost use Rattle.pssm_enabled.specs.Behind.{CanGoOn, GoesOnFrom};
ghost use Rattle.pssm_enabled.specs.inner.Down.{AllEndAlone, IsStepDown, IsDown};

use crate::vertices::{ends_alone, is_entry_point};
use pssm_model::{Machine, TransId, VertexId, VertexKind};
use std::alloc::{AllocError as NoMemory, Global};

// The transitions over entry points, one after another, and the vertex to which they lead.
#[derive(Drop)]
struct Descent {
    over: Vec<TransId>,
    to: VertexId,
}

// Whether a route goes on from the vertex over all transitions out of it: it is a fork or an entry
// point.
fn goes_down(machine: &Machine, v: VertexId) -> bool
    requires there { v.0 < length machine.now.vertices }
    ensures { IsTrue result ↔ (HasKind machine.now v kinds.Fork ⊎ HasKind machine.now v kinds.EntryPoint) }
{
    match machine.vertex(v).kind {
        VertexKind::Fork => true,
        VertexKind::EntryPoint => true,
        _ => false,
    }
}

// Whether a route ends with each transition out of the vertex.
fn all_end_alone(machine: &Machine, v: VertexId) -> bool
    requires there { v.0 < length machine.now.vertices }
    ensures { IsTrue result → AllEndAlone machine.now v }
{
    for t in machine.outgoing(v) {
        if !ends_alone(machine, *t) {
            return false;
        }
    }
    true
}

// The one transition out of an entry point, where it leads to another.
fn step_down(machine: &Machine, v: VertexId) -> Option<TransId>
    requires there { v.0 < length machine.now.vertices }
    ensures there { IfSome result (λ t. t.0 < length machine.now.transitions) }
    ensures step { IfSome result (IsStepDown machine.now v) }
{
    let _shaped = machine.regions();
    let [t] = machine.outgoing(v) else {
        return None;
    };
    if is_entry_point(machine, v) && is_entry_point(machine, machine.target(*t)) {
        Some(*t)
    } else {
        None
    }
}

// The transitions from the vertex over entry points, as far as each has one that leads to another.
// No more than 32 States stand around one another.
fn descend(alloc: Global, machine: &Machine, v: VertexId) -> Result<Descent, NoMemory>
    requires rules { KeepsModelRules machine.now }
    requires there { v.0 < length machine.now.vertices }
    ensures there { IfOk result (λ descent. descent.to.0 < length machine.now.vertices) }
    ensures down { (values : Truth)
        → IfOk result (λ descent. IsDown machine.now values v descent.over.items descent.to) }
{
    let _shaped = machine.regions();
    let mut over = Vec::new(alloc);
    let mut to = v;
    let mut left: u16 = 32;
    while left > 0 {
        let Some(t) = step_down(machine, to) else {
            return Ok(Descent { over, to });
        };
        over.push(t)?;
        to = machine.target(t);
        left -= 1;
    }
    Ok(Descent { over, to })
}

/// The transitions by which a route goes on from the vertex, where it is a fork, or an entry point
/// from which others lead on, and a route ends with the transitions out of the last. It is left open
/// elsewhere.
///
/// `NoMemory`: memory ran out.
pub(crate) fn transitions_down(
    alloc: Global,
    machine: &Machine,
    v: VertexId,
) -> Result<Option<Vec<TransId>>, NoMemory>
    requires rules { KeepsModelRules machine.now }
    requires there { v.0 < length machine.now.vertices }
    ensures { (values : Truth) → CanGoOn machine.now values v
        → IfOk result (λ told. IfSome told (λ found. GoesOnFrom machine.now values v found.items)) }
{
    let Descent { mut over, to } = descend(alloc, machine, v)?;
    if !goes_down(machine, to) || !all_end_alone(machine, to) {
        return Ok(None);
    }
    over.extend_from_slice(machine.outgoing(to))?;
    Ok(Some(over))
}
