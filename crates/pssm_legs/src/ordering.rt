//! Which of two items a route puts first.
ghost use Rattle.std.specs.Prelude.{◌⊎◌, ◌↔◌, IsTrue};
ghost use Rattle.pssm_model.specs.declared.steps.Route.{Route};
ghost use Rattle.pssm_model.specs.WellFormed.{KeepsModelRules};
ghost use Rattle.pssm_legs.specs.Calls.{IsItemIn, IsOrderedBy};
ghost use Rattle.pssm_legs.specs.LegsOf.{IsAt, IsLegIn, AreLegsIn, AreLegsOf};
ghost use Rattle.pssm_legs.specs.inner.Told.{HasBefore, IsCalledAsTold, IsCalledLater, ComesFirst, ComesBeforeLater, IsPathPair, HasLeg, HasFurther};
ghost use Rattle.pssm_legs.specs.inner.Callers.{TellsOrder};
ghost use Rattle.pssm_legs.specs.inner.Told.{ComesBehind, IsOrderedWithin, IsOrderedOver, IsOrderedAsTold, IsCoveredExit, IsInnerExit};

use crate::ahead::{are_called_from, comes_first, starts_ahead};
use crate::areas::covers;
use crate::asking::{is_called, is_called_later};
use crate::callers::{has_one_caller, orders_from_one, orders_to_one};
use crate::entering::lies_in;
use crate::legs::{Leg, Legs};
use pssm_model::{Item, Machine, TransId};

// Whether the leg has the first of two transitions before the second.
#[inline(never)]
fn has_before(leg: &Leg, t: TransId, u: TransId) -> bool
    ensures { IsTrue result ↔ HasBefore leg.now t u }
{
    (leg.named == t && leg.further.contains(u)) || leg.further.puts_before(t, u)
}

/// Whether the item is an exit, effect or entry, which comes before all that later legs call.
#[inline(always)]
pub fn comes_before_later(item: Item) -> bool
    ensures { IsTrue result ↔ ComesBeforeLater item }
{
    matches!(item, Item::Exit(_) | Item::Effect(_) | Item::Enter(_))
}

/// Whether the items are effects, the first of which stands in the leg before the second.
#[inline(always)]
pub fn are_path_pair(leg: &Leg, first: Item, second: Item) -> bool
    ensures { IsTrue result ↔ IsPathPair leg.now first second }
{
    match (first, second) {
        (Item::Effect(t), Item::Effect(u)) => leg.in_order && has_before(leg, t, u),
        _ => false,
    }
}

// Whether the leg calls both items, by what is told of it.
#[inline(always)]
fn are_both_called(
    machine: &Machine,
    legs: &Legs,
    leg: &Leg,
    place: usize,
    fires: bool,
    first: Item,
    second: Item,
) -> bool
    requires legs { AreLegsIn machine.now legs.now }
    requires place { IsAt legs.now place leg.now }
    requires leg { IsLegIn machine.now leg.now }
    requires first { IsItemIn machine.now first }
    requires second { IsItemIn machine.now second }
    ensures { IsTrue result ↔ (IsCalledAsTold machine.now legs.now place leg.now fires first
        × IsCalledAsTold machine.now legs.now place leg.now fires second) }
{
    is_called(machine, legs, leg, place, fires, first)
        && is_called(machine, legs, leg, place, fires, second)
}

// Whether the items come in this order by their kinds, and the leg calls both.
#[inline(always)]
fn are_called_in_order(
    machine: &Machine,
    legs: &Legs,
    leg: &Leg,
    place: usize,
    fires: bool,
    first: Item,
    second: Item,
) -> bool
    requires legs { AreLegsIn machine.now legs.now }
    requires place { IsAt legs.now place leg.now }
    requires leg { IsLegIn machine.now leg.now }
    requires first { IsItemIn machine.now first }
    requires second { IsItemIn machine.now second }
    ensures { IsTrue result ↔ (ComesFirst first second × IsCalledAsTold machine.now legs.now place leg.now fires first
        × IsCalledAsTold machine.now legs.now place leg.now fires second) }
{
    comes_first(first, second) && are_both_called(machine, legs, leg, place, fires, first, second)
}

// Whether the item is the exit of a State that lies where the leg exits, so that no later leg exits it.
#[inline(always)]
fn is_covered_exit(machine: &Machine, leg: &Leg, item: Item) -> bool
    requires leg { IsLegIn machine.now leg.now }
    requires item { IsItemIn machine.now item }
    ensures { IsTrue result ↔ IsCoveredExit machine.now leg.now item }
{
    match item {
        Item::Exit(s) => covers(machine, leg.area, s),
        Item::Effect(_) | Item::Enter(_) | Item::Opened(_, _) | Item::Pick(_) => false,
    }
}

// Whether a leg that stands later than the place calls the item; where no leg has a higher place, none does.
#[inline(always)]
fn is_called_after(machine: &Machine, legs: &Legs, place: usize, fires: bool, item: Item) -> bool
    requires legs { AreLegsIn machine.now legs.now }
    requires item { IsItemIn machine.now item }
    ensures { IsTrue result ↔ IsCalledLater machine.now legs.now place fires item }
{
    let last = legs.more.len() <= place;
    if last {
        false
    } else {
        is_called_later(machine, legs, place, fires, item)
    }
}

// Whether a leg that stands later than that with the place calls the item.
#[inline(always)]
#[tactic(auto, using(crate::proofs::CoveringLegs::covered_exit_not_later))]
fn is_called_behind(
    machine: &Machine,
    legs: &Legs,
    leg: &Leg,
    place: usize,
    fires: bool,
    item: Item,
) -> bool
    requires legs { AreLegsIn machine.now legs.now }
    requires place { IsAt legs.now place leg.now }
    requires leg { IsLegIn machine.now leg.now }
    requires item { IsItemIn machine.now item }
    ensures { IsTrue result ↔ IsCalledLater machine.now legs.now place fires item }
{
    !is_covered_exit(machine, leg, item) && is_called_after(machine, legs, place, fires, item)
}

// Whether the leg calls the first item, which comes before all that later legs call, and a later one the second.
#[inline(always)]
fn are_called_over_legs(
    machine: &Machine,
    legs: &Legs,
    leg: &Leg,
    place: usize,
    fires: bool,
    first: Item,
    second: Item,
) -> bool
    requires legs { AreLegsIn machine.now legs.now }
    requires place { IsAt legs.now place leg.now }
    requires leg { IsLegIn machine.now leg.now }
    requires first { IsItemIn machine.now first }
    requires second { IsItemIn machine.now second }
    ensures { IsTrue result ↔ (ComesBeforeLater first × IsCalledAsTold machine.now legs.now place leg.now fires first
        × IsCalledLater machine.now legs.now place fires second) }
{
    comes_before_later(first)
        && is_called(machine, legs, leg, place, fires, first)
        && is_called_behind(machine, legs, leg, place, fires, second)
}

// Whether the leg with the place orders the items so by itself, by what is told of it.
#[inline(always)]
fn are_ordered_within(
    machine: &Machine,
    legs: &Legs,
    leg: &Leg,
    place: usize,
    fires: bool,
    first: Item,
    second: Item,
) -> bool
    requires legs { AreLegsIn machine.now legs.now }
    requires place { IsAt legs.now place leg.now }
    requires leg { IsLegIn machine.now leg.now }
    requires first { IsItemIn machine.now first }
    requires second { IsItemIn machine.now second }
    ensures { IsTrue result ↔ IsOrderedWithin machine.now legs.now place leg.now fires first second }
{
    are_path_pair(leg, first, second)
        || are_called_in_order(machine, legs, leg, place, fires, first, second)
}

// Whether the second item comes behind the first where the leg with the place calls the first: the leg calls the second
// too, and they come in this order by their kinds, or a later leg calls it.
#[inline(always)]
fn comes_behind(
    machine: &Machine,
    legs: &Legs,
    leg: &Leg,
    place: usize,
    fires: bool,
    first: Item,
    second: Item,
) -> bool
    requires legs { AreLegsIn machine.now legs.now }
    requires place { IsAt legs.now place leg.now }
    requires leg { IsLegIn machine.now leg.now }
    requires second { IsItemIn machine.now second }
    ensures { IsTrue result ↔ ComesBehind machine.now legs.now place leg.now fires first second }
{
    (comes_first(first, second) && is_called(machine, legs, leg, place, fires, second))
        || (comes_before_later(first) && is_called_behind(machine, legs, leg, place, fires, second))
}

/// Whether the second item comes behind the first where the leg with the place calls the first: as effects of the leg do,
/// or otherwise.
#[inline(always)]
pub fn follows(
    machine: &Machine,
    legs: &Legs,
    leg: &Leg,
    place: usize,
    fires: bool,
    first: Item,
    second: Item,
) -> bool
    requires legs { AreLegsIn machine.now legs.now }
    requires place { IsAt legs.now place leg.now }
    requires leg { IsLegIn machine.now leg.now }
    requires second { IsItemIn machine.now second }
    ensures { IsTrue result ↔ (IsPathPair leg.now first second
        ⊎ ComesBehind machine.now legs.now place leg.now fires first second) }
{
    are_path_pair(leg, first, second)
        || comes_behind(machine, legs, leg, place, fires, first, second)
}

// Whether the leg with the place orders the items so, by what is told of it: it is asked first whether it calls the first.
#[inline(always)]
#[tactic(auto, using(crate::proofs::OrdersTold::ordered_so))]
fn are_ordered(
    machine: &Machine,
    legs: &Legs,
    leg: &Leg,
    place: usize,
    fires: bool,
    first: Item,
    second: Item,
) -> bool
    requires legs { AreLegsIn machine.now legs.now }
    requires place { IsAt legs.now place leg.now }
    requires leg { IsLegIn machine.now leg.now }
    requires first { IsItemIn machine.now first }
    requires second { IsItemIn machine.now second }
    ensures { IsTrue result ↔ IsOrderedAsTold machine.now legs.now place leg.now fires first second }
{
    is_called(machine, legs, leg, place, fires, first)
        && follows(machine, legs, leg, place, fires, first, second)
}

// Whether some leg but the first orders the items so, by what is told of it.
#[inline(never)]
fn are_ordered_further(
    machine: &Machine,
    legs: &Legs,
    fires: bool,
    first: Item,
    second: Item,
) -> bool
    requires legs { AreLegsIn machine.now legs.now }
    requires first { IsItemIn machine.now first }
    requires second { IsItemIn machine.now second }
    ensures { IsTrue result ↔ HasFurther legs.now (λ i a. IsOrderedAsTold machine.now legs.now i a fires first second) }
{
    let more = legs.more.as_slice();
    for k in 0..more.len() {
        if are_ordered(machine, legs, &more[k], k + 1, fires, first, second) {
            return true;
        }
    }
    false
}

// Whether the first leg orders the items over another one, or one but the first orders them, where it is asked first which
// leg calls the first item.
#[inline(always)]
fn are_ordered_forward(
    machine: &Machine,
    legs: &Legs,
    fires: bool,
    first: Item,
    second: Item,
) -> bool
    requires legs { AreLegsIn machine.now legs.now }
    requires first { IsItemIn machine.now first }
    requires second { IsItemIn machine.now second }
    ensures { IsTrue result ↔ (IsOrderedOver machine.now legs.now 0 legs.now.first fires first second
        ⊎ HasFurther legs.now (λ i a. IsOrderedAsTold machine.now legs.now i a fires first second)) }
{
    are_called_over_legs(machine, legs, &legs.first, 0, fires, first, second)
        || are_ordered_further(machine, legs, fires, first, second)
}

// Whether the first leg orders the items over another one, or one but the first orders them.
#[inline(never)]
fn are_ordered_over(machine: &Machine, legs: &Legs, fires: bool, first: Item, second: Item) -> bool
    requires legs { AreLegsIn machine.now legs.now }
    requires first { IsItemIn machine.now first }
    requires second { IsItemIn machine.now second }
    ensures { IsTrue result ↔ (IsOrderedOver machine.now legs.now 0 legs.now.first fires first second
        ⊎ HasFurther legs.now (λ i a. IsOrderedAsTold machine.now legs.now i a fires first second)) }
{
    if starts_ahead(first, second) {
        are_called_from(machine, legs, fires, first, second)
    } else {
        are_ordered_forward(machine, legs, fires, first, second)
    }
}

// Whether the items are exits, the second of a State in that of the first.
#[inline(always)]
fn is_inner_exit(machine: &Machine, first: Item, second: Item) -> bool
    requires first { IsItemIn machine.now first }
    requires second { IsItemIn machine.now second }
    ensures { IsTrue result ↔ IsInnerExit machine.now first second }
{
    match (first, second) {
        (Item::Exit(q), Item::Exit(s)) => lies_in(machine, s, q),
        _ => false,
    }
}

// The same, where it is asked first whether the items are exits from without to within: then none orders them.
#[inline(always)]
fn may_be_ordered_outward(
    machine: &Machine,
    legs: &Legs,
    fires: bool,
    first: Item,
    second: Item,
) -> bool
    requires legs { AreLegsIn machine.now legs.now }
    requires first { IsItemIn machine.now first }
    requires second { IsItemIn machine.now second }
    ensures { IsTrue result ↔ (IsOrderedOver machine.now legs.now 0 legs.now.first fires first second
        ⊎ HasFurther legs.now (λ i a. IsOrderedAsTold machine.now legs.now i a fires first second)) }
{
    if is_inner_exit(machine, first, second) {
        false
    } else {
        are_ordered_over(machine, legs, fires, first, second)
    }
}

// The same, where the kind of the first item is asked first: nothing comes behind an opening or a pick.
#[inline(always)]
#[tactic(auto, using(crate::proofs::OrdersTold::over_starts, crate::proofs::OrdersTold::further_starts))]
fn may_be_ordered_over(
    machine: &Machine,
    legs: &Legs,
    fires: bool,
    first: Item,
    second: Item,
) -> bool
    requires legs { AreLegsIn machine.now legs.now }
    requires first { IsItemIn machine.now first }
    requires second { IsItemIn machine.now second }
    ensures { IsTrue result ↔ (IsOrderedOver machine.now legs.now 0 legs.now.first fires first second
        ⊎ HasFurther legs.now (λ i a. IsOrderedAsTold machine.now legs.now i a fires first second)) }
{
    comes_before_later(first) && may_be_ordered_outward(machine, legs, fires, first, second)
}

// Whether there are several legs, and the first orders the items over another one, or one but the first orders them.
#[inline(always)]
fn are_ordered_by_more(
    machine: &Machine,
    legs: &Legs,
    fires: bool,
    first: Item,
    second: Item,
) -> bool
    requires legs { AreLegsIn machine.now legs.now }
    requires first { IsItemIn machine.now first }
    requires second { IsItemIn machine.now second }
    ensures { IsTrue result ↔ (IsOrderedOver machine.now legs.now 0 legs.now.first fires first second
        ⊎ HasFurther legs.now (λ i a. IsOrderedAsTold machine.now legs.now i a fires first second)) }
{
    let alone = legs.more.len() == 0;
    if alone {
        false
    } else {
        may_be_ordered_over(machine, legs, fires, first, second)
    }
}

// Whether some leg orders the items so, by what is told of it.
#[inline(always)]
fn are_ordered_by_some(
    machine: &Machine,
    legs: &Legs,
    fires: bool,
    first: Item,
    second: Item,
) -> bool
    requires legs { AreLegsIn machine.now legs.now }
    requires first { IsItemIn machine.now first }
    requires second { IsItemIn machine.now second }
    ensures { IsTrue result ↔ HasLeg legs.now (λ i a. IsOrderedAsTold machine.now legs.now i a fires first second) }
{
    are_ordered_within(machine, legs, &legs.first, 0, fires, first, second)
        || are_ordered_by_more(machine, legs, fires, first, second)
}

// Whether a route puts the first of two items before the second, by what is told of each leg.
#[inline(always)]
fn orders_as_told(machine: &Machine, legs: &Legs, fires: bool, first: Item, second: Item) -> bool
    requires rules { KeepsModelRules machine.now }
    requires legs { AreLegsIn machine.now legs.now }
    requires first { IsItemIn machine.now first }
    requires second { IsItemIn machine.now second }
    ensures { TellsOrder machine.now legs.now fires first second result }
{
    let _shaped = machine.regions();
    are_ordered_by_some(machine, legs, fires, first, second)
}

// Whether a route puts an exit, effect or entry before an exit, or before what is called at an end.
#[inline(always)]
fn orders_to_others(machine: &Machine, legs: &Legs, fires: bool, first: Item, second: Item) -> bool
    requires rules { KeepsModelRules machine.now }
    requires legs { AreLegsIn machine.now legs.now }
    requires first { IsItemIn machine.now first }
    requires second { IsItemIn machine.now second }
    requires before { ComesBeforeLater first }
    ensures { TellsOrder machine.now legs.now fires first second result }
{
    if has_one_caller(first) {
        orders_from_one(machine, legs, fires, first, second)
    } else {
        orders_as_told(machine, legs, fires, first, second)
    }
}

// Whether a route puts an exit, effect or entry before another item. It is asked first which leg calls one of them, where
// one leg alone does.
#[inline(always)]
fn orders_from_start(machine: &Machine, legs: &Legs, fires: bool, first: Item, second: Item) -> bool
    requires rules { KeepsModelRules machine.now }
    requires legs { AreLegsIn machine.now legs.now }
    requires first { IsItemIn machine.now first }
    requires second { IsItemIn machine.now second }
    requires before { ComesBeforeLater first }
    ensures { TellsOrder machine.now legs.now fires first second result }
{
    if has_one_caller(second) {
        orders_to_one(machine, legs, fires, first, second)
    } else {
        orders_to_others(machine, legs, fires, first, second)
    }
}

// Whether a route of several legs puts the first of two items before the second.
#[inline(always)]
fn orders_over_legs(machine: &Machine, legs: &Legs, fires: bool, first: Item, second: Item) -> bool
    requires rules { KeepsModelRules machine.now }
    requires legs { AreLegsIn machine.now legs.now }
    requires first { IsItemIn machine.now first }
    requires second { IsItemIn machine.now second }
    ensures { TellsOrder machine.now legs.now fires first second result }
{
    let _shaped = machine.regions();
    comes_before_later(first) && orders_from_start(machine, legs, fires, first, second)
}

/// Whether a route puts the first of two items before the second, since one of its legs calls both, or a later leg the
/// second (UML 2.5.1, 14.2.3.9, transition execution sequence).
#[inline(always)]
pub fn orders(machine: &Machine, legs: &Legs, fires: bool, first: Item, second: Item) -> bool
    requires rules { KeepsModelRules machine.now }
    requires legs { AreLegsIn machine.now legs.now }
    requires first { IsItemIn machine.now first }
    requires second { IsItemIn machine.now second }
    ensures { (p : Route) → AreLegsOf machine.now p legs.now
        → (IsTrue result ↔ IsOrderedBy machine.now fires p first second) }
{
    let alone = legs.more.len() == 0;
    if alone {
        orders_as_told(machine, legs, fires, first, second)
    } else {
        orders_over_legs(machine, legs, fires, first, second)
    }
}
