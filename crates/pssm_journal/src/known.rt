//! The first rule of a run: an entry names what the setting has.
ghost use Rattle.std.specs.Prelude.{◌≡◌, ◌↔◌, ◌<◌, IsTrue, All, List, length, Some};
ghost use Rattle.pssm_model.specs.declared.ids.TransId.{TransId};
ghost use Rattle.pssm_semantics.specs.Settings.{HasCount};
ghost use Rattle.pssm_semantics.specs.Journal.{object_of as its_object};
ghost use Rattle.pssm_semantics.specs.Known.{IsRouteOf, IsFiringOf, IsVertexOf, IsWayOf, IsOutOf, NamesKnown};
ghost use Rattle.pssm_journal.specs.Entries.{KeepsNames};

use crate::names::class_at;
use pssm_model::{Firing, How, Machine, Route, SignalId, TransId, VertexId};
use pssm_semantics::{Class, Entry, ObjectId, Out, Setting};

/// Whether the signal is one of the setting and has this many parameters.
#[inline(always)]
pub fn has_count(setting: &Setting, signal: SignalId, count: usize) -> bool
    ensures { IsTrue result ↔ HasCount setting.now signal count }
{
    match setting.signals.as_slice().get(signal.0 as usize) {
        Some(declared) => declared.count as usize == count,
        None => false,
    }
}

fn are_transitions_of(machine: &Machine, transitions: &[TransId]) -> bool
    ensures { IsTrue result ↔ All (λ t. t.0 < length machine.now.transitions) transitions.now }
{
    let count = machine.transitions();
    transitions.iter().all(|t| t.0 < count)
}

fn is_route_of(machine: &Machine, route: &Route) -> bool
    ensures { IsTrue result ↔ IsRouteOf machine.now route.now }
{
    are_transitions_of(machine, route.starts.as_slice())
        && are_transitions_of(machine, route.rest.as_slice())
}

fn is_firing_of(machine: &Machine, firing: &Firing) -> bool
    ensures { IsTrue result ↔ IsFiringOf machine.now firing.now }
{
    firing
        .routes
        .as_slice()
        .iter()
        .all(|r| is_route_of(machine, r))
}

/// Whether the machine has the transition.
#[inline(always)]
pub fn is_transition_of(machine: &Machine, transition: TransId) -> bool
    ensures { IsTrue result ↔ (transition.0 < length machine.now.transitions) }
{
    transition.0 < machine.transitions()
}

/// Whether the machine has the vertex.
#[inline(always)]
pub fn is_vertex_of(machine: &Machine, vertex: VertexId) -> bool
    ensures { IsTrue result ↔ IsVertexOf machine.now vertex }
{
    vertex.0 < machine.vertices()
}

fn is_way_of(machine: &Machine, how: &How) -> bool
    ensures { IsTrue result ↔ IsWayOf machine.now how.now }
{
    match how {
        How::By(route) => is_route_of(machine, route),
        How::Restore(state) => is_vertex_of(machine, *state),
        How::Nothing => true,
    }
}

fn is_out_of(setting: &Setting, class: &Class, out: &Out) -> bool
    ensures { IsTrue result ↔ IsOutOf setting.now class.now out.now }
{
    match out {
        Out::Mark { mark, .. } => (mark.0 as usize) < class.program.marks.as_slice().len(),
        Out::Send {
            object,
            signal,
            args,
        } => {
            (object.0 as usize) < setting.objects.as_slice().len()
                && has_count(setting, *signal, args.as_slice().len())
        }
    }
}

fn are_outs_of(setting: &Setting, class: &Class, outs: &[Out]) -> bool
    ensures { IsTrue result ↔ All (IsOutOf setting.now class.now) outs.now }
{
    outs.iter().all(|out| is_out_of(setting, class, out))
}

/// Whether what the entry of an object of the class names is the setting's.
fn are_names_known(setting: &Setting, class: &Class, entry: &Entry) -> bool
    ensures { IsTrue result ↔ NamesKnown setting.now class.now entry.now }
{
    let machine = &class.machine;
    match entry {
        Entry::Post { signal, args, .. } => has_count(setting, *signal, args.as_slice().len()),
        Entry::Start { .. } => true,
        Entry::Take { firing, .. } => is_firing_of(machine, firing),
        Entry::Done { state, firing, .. } => {
            is_vertex_of(machine, *state) && is_firing_of(machine, firing)
        }
        Entry::Exit { state, outs, .. }
        | Entry::Enter { state, outs, .. }
        | Entry::DoStep { state, outs, .. } => {
            is_vertex_of(machine, *state) && are_outs_of(setting, class, outs.as_slice())
        }
        Entry::Effect {
            transition,
            outs,
            ..
        } => {
            transition.0 < machine.transitions() && are_outs_of(setting, class, outs.as_slice())
        }
        Entry::Opened { region, how, .. } => region.0 < machine.regions()
            && is_way_of(machine, how),
        Entry::Pick { choice, route, .. } => {
            is_vertex_of(machine, *choice) && is_route_of(machine, route)
        }
    }
}

/// The object of an entry.
pub fn object_of(entry: &Entry) -> ObjectId
    ensures { result ≡ its_object entry.now }
{
    match entry {
        Entry::Post { object, .. }
        | Entry::Start { object }
        | Entry::Take { object, .. }
        | Entry::Done { object, .. }
        | Entry::Exit { object, .. }
        | Entry::Effect { object, .. }
        | Entry::Enter { object, .. }
        | Entry::Opened { object, .. }
        | Entry::Pick { object, .. }
        | Entry::DoStep { object, .. } => *object,
    }
}

/// Whether the entry keeps the first rule.
pub fn keeps_names(setting: &Setting, entry: &Entry) -> bool
    ensures { IsTrue result ↔ KeepsNames setting.now entry.now }
{
    match class_at(setting, object_of(entry)) {
        Some(class) => are_names_known(setting, class, entry),
        None => false,
    }
}
