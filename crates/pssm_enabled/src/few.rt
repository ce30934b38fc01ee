//! Whether a route of few transitions fits together: its lists are looked through where a longer one
//! wants marks (UML 2.5.1, 14.2.3.8, compound transitions).
ghost use Rattle.std.specs.Prelude.{◌↔◌, ◌<◌, length, All, Contains, IsTrue};
ghost use Rattle.pssm_model.specs.declared.ids.VertexId.{VertexId};
ghost use Rattle.pssm_model.specs.declared.ids.TransId.{TransId};
ghost use Rattle.pssm_model.specs.Legs.{Leaves, Enters, On};
ghost use Rattle.pssm_enabled.specs.Fitting.{route_with, HasOneBy, HasEveryBy, PassesBy};
ghost use Rattle.pssm_enabled.specs.inner.Fitting.{FitsTogether, IsOrOff, GoesOnBehind, LeavesEntered};

use crate::vertices::{is_cut, is_junction, is_through};
use pssm_model::{Machine, TransId, VertexId};

// Whether the transition is one of these.
fn is_one_of(transitions: &[TransId], t: TransId) -> bool
    ensures { IsTrue result ↔ Contains transitions.now t }
{
    transitions.contains(&t)
}

// Whether the transition is one of the starts or of the others.
fn is_on(starts: &[TransId], rest: &[TransId], t: TransId) -> bool
    ensures { IsTrue result ↔ On (route_with starts.now rest.now) t }
{
    is_one_of(starts, t) || is_one_of(rest, t)
}

// Whether the transition is this one or not on the route.
fn is_or_off(starts: &[TransId], rest: &[TransId], t: TransId, u: TransId) -> bool
    ensures { IsTrue result ↔ IsOrOff (On (route_with starts.now rest.now)) t u }
{
    u == t || !is_on(starts, rest, u)
}

// Whether no other transition out of the vertex is on the route.
fn is_only(machine: &Machine, starts: &[TransId], rest: &[TransId], v: VertexId, t: TransId) -> bool
    requires there { v.0 < length machine.now.vertices }
    ensures { IsTrue result ↔ ((u : TransId) → Leaves machine.now u v
        → IsOrOff (On (route_with starts.now rest.now)) t u) }
{
    for u in machine.outgoing(v) {
        if !is_or_off(starts, rest, t, *u) {
            return false;
        }
    }
    true
}

// Whether exactly one transition out of the vertex is on the route.
fn has_one(machine: &Machine, starts: &[TransId], rest: &[TransId], v: VertexId) -> bool
    requires there { v.0 < length machine.now.vertices }
    ensures { IsTrue result ↔ HasOneBy machine.now (On (route_with starts.now rest.now)) v }
{
    for t in machine.outgoing(v) {
        if is_on(starts, rest, *t) {
            return is_only(machine, starts, rest, v, *t);
        }
    }
    false
}

// Whether all transitions out of the vertex are on the route.
fn has_every(machine: &Machine, starts: &[TransId], rest: &[TransId], v: VertexId) -> bool
    requires there { v.0 < length machine.now.vertices }
    ensures { IsTrue result ↔ HasEveryBy machine.now (On (route_with starts.now rest.now)) v }
{
    for t in machine.outgoing(v) {
        if !is_on(starts, rest, *t) {
            return false;
        }
    }
    true
}

// Whether the route goes on from the vertex.
fn passes(machine: &Machine, starts: &[TransId], rest: &[TransId], v: VertexId) -> bool
    requires there { v.0 < length machine.now.vertices }
    ensures { IsTrue result ↔ PassesBy machine.now (On (route_with starts.now rest.now)) v }
{
    if is_junction(machine, v) {
        return has_one(machine, starts, rest, v);
    }
    if is_cut(machine, v) {
        return has_every(machine, starts, rest, v);
    }
    true
}

// Whether the route goes on behind the transition.
fn goes_on_behind(machine: &Machine, starts: &[TransId], rest: &[TransId], t: TransId) -> bool
    requires there { t.0 < length machine.now.transitions }
    ensures { IsTrue result ↔ GoesOnBehind machine.now (On (route_with starts.now rest.now)) t }
{
    passes(machine, starts, rest, machine.target(t))
}

// Whether the route goes on behind each of some of its transitions.
fn go_on_behind(machine: &Machine, starts: &[TransId], rest: &[TransId], some: &[TransId]) -> bool
    requires there { All (λ t. t.0 < length machine.now.transitions) some.now }
    ensures { IsTrue result ↔ ((t : TransId) → Contains some.now t
        → GoesOnBehind machine.now (On (route_with starts.now rest.now)) t) }
{
    for t in some {
        if !goes_on_behind(machine, starts, rest, *t) {
            return false;
        }
    }
    true
}

// Whether a transition of the route ends on the vertex.
fn is_entered(machine: &Machine, starts: &[TransId], rest: &[TransId], v: VertexId) -> bool
    requires there { v.0 < length machine.now.vertices }
    ensures { IsTrue result ↔ ((u : TransId) × On (route_with starts.now rest.now) u × Enters machine.now u v) }
{
    for u in machine.incoming(v) {
        if is_on(starts, rest, *u) {
            return true;
        }
    }
    false
}

// Whether the transition leaves a vertex through which a route goes on, and on which one of this route ends.
fn leaves_entered(machine: &Machine, starts: &[TransId], rest: &[TransId], t: TransId) -> bool
    requires there { t.0 < length machine.now.transitions }
    ensures { IsTrue result ↔ LeavesEntered machine.now (On (route_with starts.now rest.now)) t }
{
    let v = machine.source(t);
    is_through(machine, v) && is_entered(machine, starts, rest, v)
}

// Whether each of some transitions does so.
fn leave_entered(machine: &Machine, starts: &[TransId], rest: &[TransId], some: &[TransId]) -> bool
    requires there { All (λ t. t.0 < length machine.now.transitions) some.now }
    ensures { IsTrue result ↔ ((t : TransId) → Contains some.now t
        → LeavesEntered machine.now (On (route_with starts.now rest.now)) t) }
{
    for t in some {
        if !leaves_entered(machine, starts, rest, *t) {
            return false;
        }
    }
    true
}

/// Whether the starts fit together with the other transitions.
pub(crate) fn fit_few(machine: &Machine, starts: &[TransId], rest: &[TransId]) -> bool
    requires starts { All (λ t. t.0 < length machine.now.transitions) starts.now }
    requires rest { All (λ t. t.0 < length machine.now.transitions) rest.now }
    ensures { IsTrue result ↔ FitsTogether machine.now (route_with starts.now rest.now) }
{
    if !go_on_behind(machine, starts, rest, starts) {
        return false;
    }
    if !go_on_behind(machine, starts, rest, rest) {
        return false;
    }
    leave_entered(machine, starts, rest, rest)
}
