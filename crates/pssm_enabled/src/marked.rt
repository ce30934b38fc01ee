//! Whether a route of many transitions fits together: its transitions, and the vertices to which it
//! comes, are marked (UML 2.5.1, 14.2.3.8, compound transitions).
ghost use Rattle.std.specs.Prelude.{◌≡◌, ◌↔◌, ◌<◌, List, length, All, Contains, IsTrue, IsFalse};
ghost use Rattle.pssm_model.specs.declared.ids.TransId.{TransId};
ghost use Rattle.pssm_model.specs.Legs.{Leaves, On};
ghost use Rattle.pssm_enabled.specs.Fitting.{route_with, HasOneBy, HasEveryBy, PassesBy};
ghost use Rattle.pssm_enabled.specs.inner.Fitting.{FitsTogether, IsMarked, IsMarkedTransition, IsOrUnmarked};
ghost use Rattle.pssm_enabled.specs.inner.Fitting.{IsSet, AreSet, IsBegun, ComesTo, AreComeTo};
ghost use Rattle.pssm_enabled.specs.inner.Fitting.{HasDeadEnd, LeavesMarked};

use crate::vertices::{is_cut, is_junction, is_through};
use pssm_model::{Machine, TransId, VertexId};

// Whether the transition is marked.
fn is_marked(machine: &Machine, on: &[bool; 8192], t: TransId) -> bool
    requires there { t.0 < length machine.now.transitions }
    ensures { IsTrue result ↔ IsMarkedTransition on.now t }
{
    let _shaped = machine.regions();
    on[t.0 as usize]
}

// Whether the transition is this one or not marked.
fn is_or_unmarked(machine: &Machine, on: &[bool; 8192], t: TransId, u: TransId) -> bool
    requires there { u.0 < length machine.now.transitions }
    ensures { IsTrue result ↔ IsOrUnmarked on.now t u }
{
    u == t || !is_marked(machine, on, u)
}

// Whether no other transition out of the vertex is marked.
fn is_only(machine: &Machine, on: &[bool; 8192], v: VertexId, t: TransId) -> bool
    requires there { v.0 < length machine.now.vertices }
    ensures { IsTrue result ↔ ((u : TransId) → Leaves machine.now u v → IsOrUnmarked on.now t u) }
{
    for u in machine.outgoing(v) {
        if !is_or_unmarked(machine, on, t, *u) {
            return false;
        }
    }
    true
}

// Whether exactly one transition out of the vertex is marked.
fn has_one(machine: &Machine, on: &[bool; 8192], v: VertexId) -> bool
    requires there { v.0 < length machine.now.vertices }
    ensures { IsTrue result ↔ HasOneBy machine.now (IsMarkedTransition on.now) v }
{
    for t in machine.outgoing(v) {
        if is_marked(machine, on, *t) {
            return is_only(machine, on, v, *t);
        }
    }
    false
}

// Whether all transitions out of the vertex are marked.
fn has_every(machine: &Machine, on: &[bool; 8192], v: VertexId) -> bool
    requires there { v.0 < length machine.now.vertices }
    ensures { IsTrue result ↔ HasEveryBy machine.now (IsMarkedTransition on.now) v }
{
    for t in machine.outgoing(v) {
        if !is_marked(machine, on, *t) {
            return false;
        }
    }
    true
}

// Whether the route whose transitions are marked goes on from the vertex.
fn passes(machine: &Machine, on: &[bool; 8192], v: VertexId) -> bool
    requires there { v.0 < length machine.now.vertices }
    ensures { IsTrue result ↔ PassesBy machine.now (IsMarkedTransition on.now) v }
{
    if is_junction(machine, v) {
        return has_one(machine, on, v);
    }
    if is_cut(machine, v) {
        return has_every(machine, on, v);
    }
    true
}

// Marks a transition.
fn mark_one(machine: &Machine, on: &mut [bool; 8192], t: TransId)
    requires there { t.0 < length machine.now.transitions }
    ensures { IsSet on.old on.new t.0 }
{
    let _shaped = machine.regions();
    on[t.0 as usize] = true;
}

// Marks the transitions.
fn mark(machine: &Machine, on: &mut [bool; 8192], transitions: &[TransId])
    requires there { All (λ t. t.0 < length machine.now.transitions) transitions.now }
    ensures { AreSet on.old on.new transitions.now }
{
    for t in transitions {
        mark_one(machine, on, *t);
    }
}

// Marks the vertex. It answers whether it had no mark before.
fn mark_vertex(machine: &Machine, seen: &mut [bool; 4096], v: VertexId) -> bool
    requires there { v.0 < length machine.now.vertices }
    ensures set { IsTrue result → IsSet seen.old seen.new v.0 }
    ensures old { IsFalse result → IsMarked seen.old v.0 × (seen.new ≡ seen.old) }
{
    let _shaped = machine.regions();
    if seen[v.0 as usize] {
        return false;
    }
    seen[v.0 as usize] = true;
    true
}

// Marks the vertex on which the transition ends. It answers whether the route goes on from there, if
// it had no mark before.
fn come_to(machine: &Machine, on: &[bool; 8192], seen: &mut [bool; 4096], t: TransId) -> bool
    requires there { t.0 < length machine.now.transitions }
    ensures { ComesTo machine.now on.now seen.old seen.new t result }
{
    let v = machine.target(t);
    if !mark_vertex(machine, seen, v) {
        return true;
    }
    passes(machine, on, v)
}

// Marks the vertices on which the transitions end. It answers whether the route goes on from each
// that had no mark before.
fn come_to_all(
    machine: &Machine,
    on: &[bool; 8192],
    seen: &mut [bool; 4096],
    transitions: &[TransId],
) -> bool
    requires there { All (λ t. t.0 < length machine.now.transitions) transitions.now }
    ensures all { IsTrue result → AreComeTo machine.now on.now seen.old seen.new transitions.now }
    ensures dead { IsFalse result → HasDeadEnd machine.now on.now transitions.now }
{
    for t in transitions {
        if !come_to(machine, on, seen, *t) {
            return false;
        }
    }
    true
}

/// Whether the vertex is marked.
pub(crate) fn is_seen(machine: &Machine, seen: &[bool; 4096], v: VertexId) -> bool
    requires there { v.0 < length machine.now.vertices }
    ensures { IsTrue result ↔ IsMarked seen.now v.0 }
{
    let _shaped = machine.regions();
    seen[v.0 as usize]
}

// Whether the transition leaves a marked vertex through which a route goes on.
fn leaves_seen(machine: &Machine, seen: &[bool; 4096], t: TransId) -> bool
    requires there { t.0 < length machine.now.transitions }
    ensures { IsTrue result ↔ LeavesMarked machine.now seen.now t }
{
    let v = machine.source(t);
    is_through(machine, v) && is_seen(machine, seen, v)
}

// Whether all the transitions do so.
fn leave_seen(machine: &Machine, seen: &[bool; 4096], transitions: &[TransId]) -> bool
    requires there { All (λ t. t.0 < length machine.now.transitions) transitions.now }
    ensures { IsTrue result ↔ ((t : TransId) → Contains transitions.now t → LeavesMarked machine.now seen.now t) }
{
    for t in transitions {
        if !leaves_seen(machine, seen, *t) {
            return false;
        }
    }
    true
}

// Whether the transitions of a route fit together, where they and the ends of its starts are
// marked.
fn fit_seen(machine: &Machine, on: &[bool; 8192], seen: &mut [bool; 4096], rest: &[TransId]) -> bool
    requires rest { All (λ t. t.0 < length machine.now.transitions) rest.now }
    ensures { (starts : List TransId) → IsBegun machine.now on.now seen.old starts rest.now
        → (IsTrue result ↔ FitsTogether machine.now (route_with starts rest.now)) }
{
    if !come_to_all(machine, on, seen, rest) {
        return false;
    }
    leave_seen(machine, seen, rest)
}

// Whether the transitions of a route, which are marked, fit together.
fn fit_marked(machine: &Machine, on: &[bool; 8192], starts: &[TransId], rest: &[TransId]) -> bool
    requires starts { All (λ t. t.0 < length machine.now.transitions) starts.now }
    requires rest { All (λ t. t.0 < length machine.now.transitions) rest.now }
    requires on { (t : TransId) → IsMarkedTransition on.now t ↔ On (route_with starts.now rest.now) t }
    ensures { IsTrue result ↔ FitsTogether machine.now (route_with starts.now rest.now) }
{
    let mut seen = [false; 4096];
    if !come_to_all(machine, on, &mut seen, starts) {
        return false;
    }
    fit_seen(machine, on, &mut seen, rest)
}

// Whether the starts, which are marked, fit together with the other transitions.
fn fit_rest(machine: &Machine, on: &mut [bool; 8192], starts: &[TransId], rest: &[TransId]) -> bool
    requires starts { All (λ t. t.0 < length machine.now.transitions) starts.now }
    requires rest { All (λ t. t.0 < length machine.now.transitions) rest.now }
    requires on { (t : TransId) → IsMarkedTransition on.old t ↔ Contains starts.now t }
    ensures { IsTrue result ↔ FitsTogether machine.now (route_with starts.now rest.now) }
{
    mark(machine, on, rest);
    fit_marked(machine, on, starts, rest)
}

/// Whether the starts fit together with the other transitions. What is marked stands in this call alone.
#[inline(never)]
pub(crate) fn fit_over(machine: &Machine, starts: &[TransId], rest: &[TransId]) -> bool
    requires starts { All (λ t. t.0 < length machine.now.transitions) starts.now }
    requires rest { All (λ t. t.0 < length machine.now.transitions) rest.now }
    ensures { IsTrue result ↔ FitsTogether machine.now (route_with starts.now rest.now) }
{
    let mut on = [false; 8192];
    mark(machine, &mut on, starts);
    fit_rest(machine, &mut on, starts, rest)
}
