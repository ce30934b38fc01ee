//! The rules of single transitions: E10, E13, E17 and E21.
ghost use Rattle.std.specs.Prelude.{◌↔◌, ◌<◌, AllPairs, Contains, length, IsTrue};
ghost use Rattle.pssm_model.specs.declared.ids.TransId.{TransId};
ghost use Rattle.pssm_model.specs.Legs.{Goes};
ghost use Rattle.pssm_model.specs.Shapes.{HasShape};
ghost use Rattle.pssm_model.specs.WellFormed.{IsTriggeredWrongly, IsBadInternal, IsBadElse, ConnectsBadly};

use crate::elements::{
    has_else, has_guard, has_kind, has_trigger, is_branch, is_pseudostate, is_unguarded_kind,
};
use crate::ends::{End, end_of};
use crate::inside::share_region;
use pssm_model::{Machine, TransId, TransKind, VertexKind};

/// Whether the transition is of the kind.
pub fn goes(machine: &Machine, transition: TransId, kind: TransKind) -> bool
    requires { transition.0 < length machine.now.transitions }
    ensures { IsTrue result ↔ Goes machine.now transition kind }
{
    machine.transition(transition).kind == kind
}

/// E10: whether it leaves a pseudostate and has a trigger, or leaves an initial, history or entry
/// point and has a guard.
pub fn is_triggered_wrongly(machine: &Machine, transition: TransId) -> bool
    requires { transition.0 < length machine.now.transitions }
    ensures { IsTrue result ↔ IsTriggeredWrongly machine.now transition }
{
    let source = end_of(machine, transition, End::Source);
    (is_pseudostate(machine, source) && has_trigger(machine, transition))
        || (is_unguarded_kind(machine, source) && has_guard(machine, transition))
}

/// E13: whether it is internal, and its source is no State or is not its target.
pub fn is_bad_internal(machine: &Machine, transition: TransId) -> bool
    requires { transition.0 < length machine.now.transitions }
    ensures { IsTrue result ↔ IsBadInternal machine.now transition }
{
    let source = end_of(machine, transition, End::Source);
    let target = end_of(machine, transition, End::Target);
    goes(machine, transition, TransKind::Internal)
        && (!has_kind(machine, source, VertexKind::State) || target.0 != source.0)
}

/// Whether one of these transitions is earlier.
fn some_earlier(transitions: &[TransId], transition: TransId) -> bool
    requires { AllPairs (λ t u. t.0 < u.0) transitions.now }
    ensures { IsTrue result ↔ ((t : TransId) × Contains transitions.now t × (t.0 < transition.0)) }
{
    match transitions.get(0) {
        Some(first) => first.0 < transition.0,
        None => false,
    }
}

/// E17: whether it has `else` and leaves no junction or choice, or is not the first such of its source.
pub fn is_bad_else(machine: &Machine, transition: TransId) -> bool
    requires { transition.0 < length machine.now.transitions }
    ensures { IsTrue result ↔ IsBadElse machine.now transition }
{
    let source = end_of(machine, transition, End::Source);
    has_else(machine, transition)
        && (!is_branch(machine, source) || some_earlier(machine.elses_of(source), transition))
}

/// E21: whether its ends lie in no common region, or it ends on a join and leaves no State.
pub fn connects_badly(machine: &Machine, transition: TransId) -> bool
    requires shape { HasShape machine.now }
    requires there { transition.0 < length machine.now.transitions }
    ensures { IsTrue result ↔ ConnectsBadly machine.now transition }
{
    let source = end_of(machine, transition, End::Source);
    let target = end_of(machine, transition, End::Target);
    !share_region(machine, source, target)
        || (has_kind(machine, target, VertexKind::Join)
            && !has_kind(machine, source, VertexKind::State))
}
