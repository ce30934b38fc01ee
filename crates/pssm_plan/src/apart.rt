//! Pairs of items of which no way puts the first before the second, as is seen at once.
ghost use Rattle.std.specs.Prelude.{◌⊎◌, ◌↔◌, ◌<◌, IsTrue, length};
ghost use Rattle.pssm_model.specs.declared.steps.Item.{Item as Called};
ghost use Rattle.pssm_model.specs.declared.elements.VertexKind.TheVariants as kinds;
ghost use Rattle.pssm_model.specs.Forest.{HasKind};
ghost use Rattle.pssm_model.specs.WellFormed.{KeepsModelRules};
ghost use Rattle.pssm_legs.specs.Calls.{IsItemIn};
ghost use Rattle.pssm_plan.specs.Ways.{IsWayIn, AreWaysIn};
ghost use Rattle.pssm_plan.specs.inner.ByWays.{orders_by};
ghost use Rattle.pssm_plan.specs.inner.Sequence.{IsOrderedBySome};
ghost use Rattle.pssm_plan.specs.inner.Clear.{LeavesKind, EntersKind};

use crate::ways::Way;
use pssm_legs::covers;
use pssm_model::{Item, Machine, TransId, VertexId, VertexKind};

/// Whether a vertex is of a kind.
#[inline(always)]
pub fn has_kind(machine: &Machine, v: VertexId, kind: VertexKind) -> bool
    requires vertex { v.0 < length machine.now.vertices }
    ensures { IsTrue result ↔ HasKind machine.now v kind }
{
    machine.vertex(v).kind == kind
}

// Whether a transition leaves a fork.
#[inline(always)]
fn leaves_fork(machine: &Machine, t: TransId) -> bool
    requires transition { t.0 < length machine.now.transitions }
    ensures { IsTrue result → LeavesKind machine.now t kinds.Fork }
{
    has_kind(machine, machine.source(t), VertexKind::Fork)
}

// Whether a transition enters a join.
#[inline(always)]
fn enters_join(machine: &Machine, t: TransId) -> bool
    requires transition { t.0 < length machine.now.transitions }
    ensures { IsTrue result → EntersKind machine.now t kinds.Join }
{
    has_kind(machine, machine.target(t), VertexKind::Join)
}

// Whether the first of two transitions leaves a fork or the second enters a join, so that no way puts the effect of the
// first before that of the second.
#[inline(always)]
fn is_of_star(machine: &Machine, t: TransId, u: TransId) -> bool
    requires first { t.0 < length machine.now.transitions }
    requires second { u.0 < length machine.now.transitions }
    ensures { IsTrue result → LeavesKind machine.now t kinds.Fork ⊎ EntersKind machine.now u kinds.Join }
{
    leaves_fork(machine, t) || enters_join(machine, u)
}

/// Whether a way may put the effect of a transition before an item: not before another effect from which a fork or join
/// parts it.
#[inline(always)]
pub fn may_follow(machine: &Machine, way: &Way, t: TransId, item: Item) -> bool
    requires rules { KeepsModelRules machine.now }
    requires way { IsWayIn machine.now way.now }
    requires first { t.0 < length machine.now.transitions }
    requires item { IsItemIn machine.now item }
    ensures { orders_by machine.now way.now (Called.Effect t) item → IsTrue result }
{
    let _shaped = machine.regions();
    match item {
        Item::Effect(u) => !is_of_star(machine, t, u),
        _ => true,
    }
}

/// Whether a way may put something before an item: not before the exit of a State that its first leg exits.
#[inline(always)]
pub fn may_be_led(machine: &Machine, way: &Way, item: Item) -> bool
    requires rules { KeepsModelRules machine.now }
    requires way { IsWayIn machine.now way.now }
    requires item { IsItemIn machine.now item }
    ensures { (x : Called) → orders_by machine.now way.now x item → IsTrue result }
{
    let _shaped = machine.regions();
    match item {
        Item::Exit(s) => !covers(machine, way.legs.first.area, s),
        _ => true,
    }
}

/// Whether one of the ways may put something before an item.
#[inline(always)]
pub fn some_may_be_led(machine: &Machine, ways: &[Way], item: Item) -> bool
    requires rules { KeepsModelRules machine.now }
    requires ways { AreWaysIn machine.now ways.now }
    requires item { IsItemIn machine.now item }
    ensures { (x : Called) → IsOrderedBySome machine.now ways.now x item → IsTrue result }
{
    for way in ways {
        if may_be_led(machine, way, item) {
            return true;
        }
    }
    false
}
