//! Whether a way calls what is listed already.
ghost use Rattle.std.specs.Prelude.{◌↔◌, ◌<◌, IsTrue, Contains, length};
ghost use Rattle.pssm_model.specs.declared.ids.VertexId.{VertexId as Place};
ghost use Rattle.pssm_model.specs.declared.ids.TransId.{TransId as Transition};
ghost use Rattle.pssm_model.specs.declared.elements.DraftMachine.{DraftMachine as TheMachine};
ghost use Rattle.pssm_model.specs.declared.steps.Item.{Item as Called};
ghost use Rattle.pssm_model.specs.Configuration.{IsDirect as IsPlaced};
ghost use Rattle.pssm_model.specs.WellFormed.{KeepsModelRules};
ghost use Rattle.pssm_config.specs.Tables.{Fits, configuration_of};
ghost use Rattle.pssm_legs.specs.Calls.{IsItemIn};
ghost use Rattle.pssm_plan.specs.Ways.{IsWayIn};
ghost use Rattle.pssm_plan.specs.inner.ByWays.{calls_by};
ghost use Rattle.pssm_plan.specs.inner.Calling.{IsNoExit};
ghost use Rattle.pssm_plan.specs.inner.Marks.{IsListed};
ghost use Rattle.pssm_plan.specs.inner.Direct.{IsDirect, HasNoneInside, MayCallDirectly};

use crate::calls::Calls;
use crate::direct::{direct_region, may_call, may_call_directly, quiet_region};
use crate::roster::Call;
use crate::ways::{Way, way_calls};
use pssm_config::Config;
use pssm_model::{Item, Machine, Mode, RegionId, TransId};

// So many calls are asked one after another; of more it is asked where those stand that the way may call.
const FEW_CALLS: usize = 16;

// Whether a listed item is one that a way may call, which ends in the region where it exits and enters.
#[inline(always)]
fn walk_directly(machine: &Machine, calls: &[Call], way: &Way, r: RegionId) -> bool
    requires rules { KeepsModelRules machine.now }
    requires way { IsWayIn machine.now way.now }
    requires direct { IsDirect machine.now way.now r }
    ensures { ((x : Called) × IsListed calls.now x × calls_by machine.now way.now x) → IsTrue result }
{
    let _shaped = machine.regions();
    for call in calls {
        if may_call_directly(way, r, call.item) {
            return true;
        }
    }
    false
}

// Whether a listed item may be one that the way calls. It is asked of each.
#[inline(always)]
fn meets_each(machine: &Machine, calls: &[Call], way: &Way) -> bool
    requires rules { KeepsModelRules machine.now }
    requires way { IsWayIn machine.now way.now }
    requires items { (x : Called) → IsListed calls.now x → IsItemIn machine.now x }
    ensures { ((x : Called) × IsListed calls.now x × calls_by machine.now way.now x) → IsTrue result }
{
    for call in calls {
        if may_call(machine, way, call.item) {
            return true;
        }
    }
    false
}

// Whether the effect of one of the transitions is listed.
#[inline(never)]
fn some_effect_listed(calls: &Calls, transitions: &[TransId]) -> bool
    ensures { (t : Transition) → Contains transitions.now t → IsListed calls.now.items (Called.Effect t)
        → IsTrue result }
{
    for t in transitions {
        if calls.is_listed(Item::Effect(*t)) {
            return true;
        }
    }
    false
}

// Whether an effect is listed of a transition of the first leg of a way.
#[inline(always)]
fn own_effect_listed(calls: &Calls, way: &Way) -> bool
    ensures named { IsListed calls.now.items (Called.Effect way.now.legs.first.named) → IsTrue result }
    ensures further { (t : Transition) → Contains way.now.legs.first.further.items t
        → IsListed calls.now.items (Called.Effect t) → IsTrue result }
{
    let leg = &way.legs.first;
    calls.is_listed(Item::Effect(leg.named)) || some_effect_listed(calls, leg.further.as_slice())
}

// Whether an opening of a region is listed by which a history opens.
#[inline(always)]
fn history_listed(calls: &Calls, r: RegionId) -> bool
    ensures shallow { IsListed calls.now.items (Called.Opened r Mode.Shallow) → IsTrue result }
    ensures deep { IsListed calls.now.items (Called.Opened r Mode.Deep) → IsTrue result }
{
    calls.is_listed(Item::Opened(r, Mode::Shallow)) || calls.is_listed(Item::Opened(r, Mode::Deep))
}

// Whether the entry or the pick is listed of what the first leg of a way ends on.
#[inline(always)]
fn own_end_listed(calls: &Calls, way: &Way) -> bool
    ensures entry { IsListed calls.now.items (Called.Enter way.now.legs.first.last) → IsTrue result }
    ensures pick { IsListed calls.now.items (Called.Pick way.now.legs.first.last) → IsTrue result }
{
    let last = way.legs.first.last;
    calls.is_listed(Item::Enter(last)) || calls.is_listed(Item::Pick(last))
}

// Whether an effect of the first leg of a way is listed, or the entry or the pick of what it ends on.
#[inline(always)]
fn own_listed(calls: &Calls, way: &Way) -> bool
    ensures named { IsListed calls.now.items (Called.Effect way.now.legs.first.named) → IsTrue result }
    ensures further { (t : Transition) → Contains way.now.legs.first.further.items t
        → IsListed calls.now.items (Called.Effect t) → IsTrue result }
    ensures entry { IsListed calls.now.items (Called.Enter way.now.legs.first.last) → IsTrue result }
    ensures pick { IsListed calls.now.items (Called.Pick way.now.legs.first.last) → IsTrue result }
{
    own_effect_listed(calls, way) || own_end_listed(calls, way)
}

// Whether an item other than an exit is listed that a way may call, which ends in the region where it exits and enters.
#[inline(never)]
fn other_listed(calls: &Calls, way: &Way, r: RegionId) -> bool
    ensures { (x : Called) → IsListed calls.now.items x → IsNoExit x → MayCallDirectly way.now r x → IsTrue result }
{
    own_listed(calls, way) || history_listed(calls, r)
}

// Whether the calls are asked one after another: they are few, or the way fires and so may call exits.
#[inline(always)]
fn are_walked(calls: &Calls, way: &Way) -> bool
    ensures { (IsTrue result → ⊥) → IsTrue way.now.fires → ⊥ }
{
    way.fires || calls.len() <= FEW_CALLS
}

// Whether a listed item is one that a way may call, which ends in the region where it exits and enters.
#[inline(always)]
fn meets_directly(machine: &Machine, calls: &Calls, way: &Way, r: RegionId) -> bool
    requires rules { KeepsModelRules machine.now }
    requires way { IsWayIn machine.now way.now }
    requires direct { IsDirect machine.now way.now r }
    ensures { ((x : Called) × IsListed calls.now.items x × calls_by machine.now way.now x) → IsTrue result }
{
    let _shaped = machine.regions();
    if are_walked(calls, way) {
        walk_directly(machine, calls.as_slice(), way, r)
    } else {
        other_listed(calls, way, r)
    }
}

/// Whether a listed item may be one that the way calls.
#[inline(always)]
pub fn meets(machine: &Machine, calls: &Calls, way: &Way) -> bool
    requires rules { KeepsModelRules machine.now }
    requires way { IsWayIn machine.now way.now }
    requires items { (x : Called) → IsListed calls.now.items x → IsItemIn machine.now x }
    ensures { ((x : Called) × IsListed calls.now.items x × calls_by machine.now way.now x) → IsTrue result }
{
    match direct_region(machine, way) {
        Some(r) => meets_directly(machine, calls, way, r),
        None => meets_somewhere(machine, calls.as_slice(), way),
    }
}

// Whether the exit of the active vertex of a region is listed.
#[inline(always)]
fn exit_listed(config: &Config, calls: &Calls, r: RegionId) -> bool
    requires region { r.0 < length config.now.held }
    ensures { (m : TheMachine) (s : Place) → Fits m config.now → IsPlaced m s r → (configuration_of config.now).Active s
        → IsListed calls.now.items (Called.Exit s) → IsTrue result }
{
    match config.active_in(r) {
        Some(s) => calls.is_listed(Item::Exit(s)),
        None => false,
    }
}

// Whether a listed item is one that a way may call, which ends in the region where it exits and enters, and in which no
// other region lies.
#[inline(always)]
fn meets_quietly(machine: &Machine, config: &Config, calls: &Calls, way: &Way, r: RegionId) -> bool
    requires rules { KeepsModelRules machine.now }
    requires fits { Fits machine.now config.now }
    requires way { IsWayIn machine.now way.now }
    requires direct { IsDirect machine.now way.now r }
    requires quiet { HasNoneInside machine.now r }
    requires active { (s : Place) → IsListed calls.now.items (Called.Exit s) → (configuration_of config.now).Active s }
    ensures { ((x : Called) × IsListed calls.now.items x × calls_by machine.now way.now x) → IsTrue result }
{
    let _shaped = machine.regions();
    exit_listed(config, calls, r) || other_listed(calls, way, r)
}

/// Whether a listed item may be one that calls a way that fires, where the listed exits are of what is active.
#[inline(always)]
pub fn meets_fired(machine: &Machine, config: &Config, calls: &Calls, way: &Way) -> bool
    requires rules { KeepsModelRules machine.now }
    requires fits { Fits machine.now config.now }
    requires way { IsWayIn machine.now way.now }
    requires items { (x : Called) → IsListed calls.now.items x → IsItemIn machine.now x }
    requires active { (s : Place) → IsListed calls.now.items (Called.Exit s) → (configuration_of config.now).Active s }
    ensures { ((x : Called) × IsListed calls.now.items x × calls_by machine.now way.now x) → IsTrue result }
{
    if calls.len() <= FEW_CALLS {
        return meets_each(machine, calls.as_slice(), way);
    }
    match quiet_region(machine, way) {
        Some(r) => meets_quietly(machine, config, calls, way, r),
        None => meets_each(machine, calls.as_slice(), way),
    }
}

// Whether a listed item is one that the way calls.
#[inline(never)]
fn meets_somewhere(machine: &Machine, calls: &[Call], way: &Way) -> bool
    requires rules { KeepsModelRules machine.now }
    requires way { IsWayIn machine.now way.now }
    requires items { (x : Called) → IsListed calls.now x → IsItemIn machine.now x }
    ensures { IsTrue result ↔ ((x : Called) × IsListed calls.now x × calls_by machine.now way.now x) }
{
    for call in calls {
        if way_calls(machine, way, call.item) {
            return true;
        }
    }
    false
}
