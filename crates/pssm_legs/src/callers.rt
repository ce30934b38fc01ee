//! Which leg calls an effect or entry, and which of two items comes first by that. One leg of a route alone calls them.
ghost use Rattle.std.specs.Prelude.{◌↔◌, ◌<◌, IfSome, IsTrue, length};
ghost use Rattle.pssm_model.specs.declared.steps.Item.TheVariants.{Exit};
ghost use Rattle.pssm_model.specs.WellFormed.{KeepsModelRules};
ghost use Rattle.pssm_legs.specs.Calls.{IsItemIn};
ghost use Rattle.pssm_legs.specs.LegsOf.{IsAt, IsLegIn, AreLegsIn};
ghost use Rattle.pssm_legs.specs.inner.Told.{HasTransition, IsEntered, IsCalledAsTold, ComesBeforeLater};
ghost use Rattle.pssm_legs.specs.inner.Callers.{HasOneCaller, IsSuchAt, IsFurtherPlace, IsPlaceOf, IsAheadOf, TellsOrder};

use crate::ahead::{comes_first, is_exit_ahead};
use crate::asking::{is_called, is_later};
use crate::entering::{enters_at_end, has_transition, is_entered};
use crate::legs::{Leg, Legs, leg_at};
use crate::ordering::{are_path_pair, comes_before_later, follows};
use pssm_model::{Item, Machine, TransId, VertexId};

/// Whether the item is an effect or entry.
#[inline(always)]
pub fn has_one_caller(item: Item) -> bool
    ensures { IsTrue result ↔ HasOneCaller item }
{
    matches!(item, Item::Effect(_) | Item::Enter(_))
}

// The place of the first leg but that at the start which has the transition.
#[inline(never)]
fn further_with(legs: &Legs, t: TransId) -> Option<usize>
    ensures { IsFurtherPlace legs.now (λ i a. HasTransition a t) result }
{
    let more = legs.more.as_slice();
    for k in 0..more.len() {
        if has_transition(&more[k], t) {
            return Some(k + 1);
        }
    }
    None
}

// The place of the first leg that has the transition.
#[inline(always)]
fn leg_with(legs: &Legs, t: TransId) -> Option<usize>
    ensures { IsPlaceOf legs.now (λ i a. HasTransition a t) result }
{
    if has_transition(&legs.first, t) {
        Some(0)
    } else {
        further_with(legs, t)
    }
}

// The place of a leg but that at the start which enters the State.
#[inline(never)]
fn further_entering(machine: &Machine, legs: &Legs, s: VertexId) -> Option<usize>
    requires legs { AreLegsIn machine.now legs.now }
    requires state { s.0 < length machine.now.vertices }
    ensures { IsFurtherPlace legs.now (λ i a. IsEntered machine.now a s) result }
{
    let more = legs.more.as_slice();
    for k in 0..more.len() {
        if is_entered(machine, &more[k], s) {
            return Some(k + 1);
        }
    }
    None
}

// The place of the first leg but that at the start which ends on the State or an entry point of it and enters it.
#[inline(never)]
fn further_ending(machine: &Machine, legs: &Legs, s: VertexId) -> Option<usize>
    requires legs { AreLegsIn machine.now legs.now }
    requires state { s.0 < length machine.now.vertices }
    ensures { IfSome result (IsSuchAt legs.now (λ i a. IsEntered machine.now a s)) }
{
    let more = legs.more.as_slice();
    for k in 0..more.len() {
        if enters_at_end(machine, &more[k], s) {
            return Some(k + 1);
        }
    }
    None
}

// The place of a leg but that at the start which enters the State, where it is asked first whether a leg ends on the State or an entry point of it.
#[inline(always)]
fn more_entering(machine: &Machine, legs: &Legs, s: VertexId) -> Option<usize>
    requires legs { AreLegsIn machine.now legs.now }
    requires state { s.0 < length machine.now.vertices }
    ensures { IsFurtherPlace legs.now (λ i a. IsEntered machine.now a s) result }
{
    match further_ending(machine, legs, s) {
        Some(place) => Some(place),
        None => further_entering(machine, legs, s),
    }
}

// The place of a leg that enters the State.
#[inline(always)]
fn leg_entering(machine: &Machine, legs: &Legs, s: VertexId) -> Option<usize>
    requires legs { AreLegsIn machine.now legs.now }
    requires state { s.0 < length machine.now.vertices }
    ensures { IsPlaceOf legs.now (λ i a. IsEntered machine.now a s) result }
{
    if is_entered(machine, &legs.first, s) {
        Some(0)
    } else {
        more_entering(machine, legs, s)
    }
}

// The place of the leg that calls an effect or entry.
#[inline(always)]
fn caller_of(machine: &Machine, legs: &Legs, fires: bool, item: Item) -> Option<usize>
    requires legs { AreLegsIn machine.now legs.now }
    requires item { IsItemIn machine.now item }
    requires one { HasOneCaller item }
    ensures { IsPlaceOf legs.now (λ i a. IsCalledAsTold machine.now legs.now i a fires item) result }
{
    match item {
        Item::Effect(t) => leg_with(legs, t),
        Item::Enter(s) => leg_entering(machine, legs, s),
        Item::Exit(_) | Item::Opened(_, _) | Item::Pick(_) => unreachable!(),
    }
}

// Whether the first of two items stands before the second, where these are the places of the legs that call them.
#[inline(always)]
fn is_ahead_of(
    machine: &Machine,
    legs: &Legs,
    leg: &Leg,
    place: usize,
    other: usize,
    fires: bool,
    first: Item,
    second: Item,
) -> bool
    requires legs { AreLegsIn machine.now legs.now }
    requires other { IsAt legs.now other leg.now }
    requires leg { IsLegIn machine.now leg.now }
    requires first { IsItemIn machine.now first }
    ensures { IsTrue result ↔ IsAheadOf machine.now legs.now place other leg.now fires first second }
{
    are_path_pair(leg, first, second)
        || (comes_first(first, second) && is_called(machine, legs, leg, other, fires, first))
        || is_later(legs, leg, other, place)
}

// Whether a route puts one effect or entry before the one that the leg with the place calls.
#[inline(always)]
fn is_called_before_one(
    machine: &Machine,
    legs: &Legs,
    other: usize,
    fires: bool,
    first: Item,
    second: Item,
) -> bool
    requires rules { KeepsModelRules machine.now }
    requires legs { AreLegsIn machine.now legs.now }
    requires other { IsSuchAt legs.now (λ i a. IsCalledAsTold machine.now legs.now i a fires second) other }
    requires first { IsItemIn machine.now first }
    requires one { HasOneCaller first }
    requires two { HasOneCaller second }
    ensures { TellsOrder machine.now legs.now fires first second result }
{
    let _shaped = machine.regions();
    match caller_of(machine, legs, fires, first) {
        Some(place) => {
            let leg = leg_at(legs, other);
            is_ahead_of(machine, legs, leg, place, other, fires, first, second)
        }
        None => false,
    }
}

// Whether a route puts the exit of a State before the effect or entry that the leg with the place calls.
#[inline(always)]
fn is_exited_before_one(
    machine: &Machine,
    legs: &Legs,
    other: usize,
    fires: bool,
    s: VertexId,
    second: Item,
) -> bool
    requires rules { KeepsModelRules machine.now }
    requires legs { AreLegsIn machine.now legs.now }
    requires other { IsSuchAt legs.now (λ i a. IsCalledAsTold machine.now legs.now i a fires second) other }
    requires state { s.0 < length machine.now.vertices }
    requires two { HasOneCaller second }
    ensures { TellsOrder machine.now legs.now fires (Exit s) second result }
{
    let _shaped = machine.regions();
    let leg = leg_at(legs, other);
    is_exit_ahead(machine, legs, leg, other, fires, s, second)
}

// Whether a route puts an item before the effect or entry that the leg with the place calls.
#[inline(always)]
fn is_before_one(
    machine: &Machine,
    legs: &Legs,
    other: usize,
    fires: bool,
    first: Item,
    second: Item,
) -> bool
    requires rules { KeepsModelRules machine.now }
    requires legs { AreLegsIn machine.now legs.now }
    requires other { IsSuchAt legs.now (λ i a. IsCalledAsTold machine.now legs.now i a fires second) other }
    requires first { IsItemIn machine.now first }
    requires before { ComesBeforeLater first }
    requires two { HasOneCaller second }
    ensures { TellsOrder machine.now legs.now fires first second result }
{
    match first {
        Item::Exit(s) => is_exited_before_one(machine, legs, other, fires, s, second),
        _ => is_called_before_one(machine, legs, other, fires, first, second),
    }
}

/// Whether a route puts an exit, effect or entry before an effect or entry, where it is asked first which leg calls that.
#[inline(never)]
pub fn orders_to_one(machine: &Machine, legs: &Legs, fires: bool, first: Item, second: Item) -> bool
    requires rules { KeepsModelRules machine.now }
    requires legs { AreLegsIn machine.now legs.now }
    requires first { IsItemIn machine.now first }
    requires second { IsItemIn machine.now second }
    requires before { ComesBeforeLater first }
    requires two { HasOneCaller second }
    ensures { TellsOrder machine.now legs.now fires first second result }
{
    let _shaped = machine.regions();
    match caller_of(machine, legs, fires, second) {
        Some(other) => is_before_one(machine, legs, other, fires, first, second),
        None => false,
    }
}

// Whether a route puts the effect or entry that the leg with the place calls before an item.
#[inline(always)]
fn is_followed(
    machine: &Machine,
    legs: &Legs,
    place: usize,
    fires: bool,
    first: Item,
    second: Item,
) -> bool
    requires rules { KeepsModelRules machine.now }
    requires legs { AreLegsIn machine.now legs.now }
    requires place { IsSuchAt legs.now (λ i a. IsCalledAsTold machine.now legs.now i a fires first) place }
    requires second { IsItemIn machine.now second }
    requires one { HasOneCaller first }
    ensures { TellsOrder machine.now legs.now fires first second result }
{
    let _shaped = machine.regions();
    let leg = leg_at(legs, place);
    follows(machine, legs, leg, place, fires, first, second)
}

/// Whether a route puts an effect or entry before an item, where it is asked first which leg calls the effect or entry.
#[inline(never)]
pub fn orders_from_one(
    machine: &Machine,
    legs: &Legs,
    fires: bool,
    first: Item,
    second: Item,
) -> bool
    requires rules { KeepsModelRules machine.now }
    requires legs { AreLegsIn machine.now legs.now }
    requires first { IsItemIn machine.now first }
    requires second { IsItemIn machine.now second }
    requires one { HasOneCaller first }
    ensures { TellsOrder machine.now legs.now fires first second result }
{
    let _shaped = machine.regions();
    match caller_of(machine, legs, fires, first) {
        Some(place) => is_followed(machine, legs, place, fires, first, second),
        None => false,
    }
}
