//! Whether all that comes before an item is another one, or comes before that: effects of transitions that meet on a
//! junction.
ghost use Rattle.std.specs.Prelude.{◌<◌, IsTrue, Contains, length};
ghost use Rattle.pssm_model.specs.declared.steps.Item.{Item as Called};
ghost use Rattle.pssm_model.specs.Legs.{Leaves};
ghost use Rattle.pssm_model.specs.WellFormed.{KeepsModelRules};
ghost use Rattle.pssm_legs.specs.Calls.{IsItemIn};
ghost use Rattle.pssm_plan.specs.declared.ways.Way.{Way as TakenWay};
ghost use Rattle.pssm_plan.specs.Ways.{AreWaysIn};
ghost use Rattle.pssm_plan.specs.inner.ByWays.{calls_by};
ghost use Rattle.pssm_plan.specs.inner.Sequence.{IsSequence};
ghost use Rattle.pssm_plan.specs.inner.Clear.{AreMeeting, LeadsTo};

use crate::apart::has_kind;
use crate::ways::{Way, way_calls, ways_of};
use pssm_model::{Item, Machine, TransId, VertexId, VertexKind};

// Whether a transition leaves a vertex.
#[inline(always)]
fn leaves(machine: &Machine, t: TransId, v: VertexId) -> bool
    requires transition { t.0 < length machine.now.transitions }
    ensures { IsTrue result → Leaves machine.now t v }
{
    machine.source(t) == v
}

// Whether the second of two transitions goes on from the junction on which the first ends.
#[inline(always)]
fn are_meeting(machine: &Machine, t: TransId, u: TransId) -> bool
    requires first { t.0 < length machine.now.transitions }
    requires second { u.0 < length machine.now.transitions }
    ensures { IsTrue result → AreMeeting machine.now t u }
{
    let v = machine.target(t);
    leaves(machine, u, v) && has_kind(machine, v, VertexKind::Junction)
}

// Whether each of the ways has a transition.
#[inline(always)]
fn all_call(machine: &Machine, ways: &[Way], t: TransId) -> bool
    requires rules { KeepsModelRules machine.now }
    requires ways { AreWaysIn machine.now ways.now }
    requires transition { t.0 < length machine.now.transitions }
    ensures { IsTrue result → (way : TakenWay) → Contains ways.now way → calls_by machine.now way (Called.Effect t) }
{
    for way in ways {
        if !way_calls(machine, way, Item::Effect(t)) {
            return false;
        }
    }
    true
}

// Whether all ways among which those are that have the second of two transitions have the first.
#[inline(always)]
fn all_go_on(machine: &Machine, ways: &[Way], t: TransId, u: TransId) -> bool
    requires rules { KeepsModelRules machine.now }
    requires ways { AreWaysIn machine.now ways.now }
    requires first { t.0 < length machine.now.transitions }
    requires second { u.0 < length machine.now.transitions }
    ensures { IsTrue result → (way : TakenWay) → Contains ways.now way → calls_by machine.now way (Called.Effect u)
        → calls_by machine.now way (Called.Effect t) }
{
    let near = ways_of(machine, ways, &Item::Effect(u));
    all_call(machine, near, t)
}

// Whether what comes before the effect of the second of two transitions is that of the first, or comes before it.
#[inline(always)]
fn effect_leads(machine: &Machine, ways: &[Way], t: TransId, u: TransId) -> bool
    requires rules { KeepsModelRules machine.now }
    requires ways { AreWaysIn machine.now ways.now }
    requires first { t.0 < length machine.now.transitions }
    requires second { u.0 < length machine.now.transitions }
    ensures { IsTrue result → LeadsTo (IsSequence machine.now ways.now) (Called.Effect t) (Called.Effect u) }
{
    let _shaped = machine.regions();
    are_meeting(machine, t, u) && all_go_on(machine, ways, t, u)
}

/// Whether what comes before the second of two items is the first, or comes before it, as far as is asked.
#[inline(always)]
pub fn leads_to(machine: &Machine, ways: &[Way], first: Item, second: Item) -> bool
    requires rules { KeepsModelRules machine.now }
    requires ways { AreWaysIn machine.now ways.now }
    requires first { IsItemIn machine.now first }
    requires second { IsItemIn machine.now second }
    ensures { IsTrue result → LeadsTo (IsSequence machine.now ways.now) first second }
{
    match (first, second) {
        (Item::Effect(t), Item::Effect(u)) => effect_leads(machine, ways, t, u),
        _ => false,
    }
}
