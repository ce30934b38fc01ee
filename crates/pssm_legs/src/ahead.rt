//! Which of two items is called ahead of the other, where it is asked first which leg calls the other.
ghost use Rattle.std.specs.Prelude.{◌↔◌, ◌<◌, IsTrue, length};
ghost use Rattle.pssm_model.specs.declared.steps.Item.TheVariants.{Exit};
ghost use Rattle.pssm_legs.specs.Calls.{IsItemIn};
ghost use Rattle.pssm_legs.specs.LegsOf.{IsAt, IsLegIn, AreLegsIn};
ghost use Rattle.pssm_legs.specs.inner.Told.{ComesFirst, IsCalledBefore, IsCoveredAhead, IsCalledAhead, IsCalledFrom, StartsAhead, HasFurther};

use crate::areas::covers;
use crate::asking::{is_called, is_covered_before};
use crate::legs::{Leg, Legs, leg_at};
use pssm_model::{Item, Machine, Mode, VertexId};

/// Whether items of these kinds come in this order where one leg calls both.
#[inline(always)]
pub fn comes_first(first: Item, second: Item) -> bool
    ensures { IsTrue result ↔ ComesFirst first second }
{
    match (first, second) {
        (Item::Exit(_), Item::Effect(_)) => true,
        (Item::Effect(_), Item::Enter(_)) => true,
        (Item::Effect(_), Item::Opened(_, _)) => true,
        (Item::Effect(_), Item::Pick(_)) => true,
        (Item::Enter(_), Item::Opened(_, Mode::Shallow)) => true,
        (Item::Enter(_), Item::Opened(_, Mode::Deep)) => true,
        (Item::Enter(_), Item::Pick(_)) => true,
        _ => false,
    }
}

// Whether a leg behind which that with the place stands calls the item.
#[inline(never)]
fn is_called_before(
    machine: &Machine,
    legs: &Legs,
    leg: &Leg,
    place: usize,
    fires: bool,
    item: Item,
) -> bool
    requires legs { AreLegsIn machine.now legs.now }
    requires place { IsAt legs.now place leg.now }
    requires item { IsItemIn machine.now item }
    ensures { IsTrue result ↔ IsCalledBefore machine.now legs.now place fires item }
{
    let mut before = leg.before;
    'up: while let Some(i) = before {
        let earlier = leg_at(legs, i);
        if is_called(machine, legs, earlier, i, fires, item) {
            return true;
        }
        before = earlier.before;
    }
    false
}

// Whether a State lies where the leg with the place exits, and the item is an effect, or where one behind which it stands
// exits.
#[inline(always)]
fn is_covered_ahead(
    machine: &Machine,
    legs: &Legs,
    leg: &Leg,
    place: usize,
    s: VertexId,
    second: Item,
) -> bool
    requires legs { AreLegsIn machine.now legs.now }
    requires place { IsAt legs.now place leg.now }
    requires leg { IsLegIn machine.now leg.now }
    requires state { s.0 < length machine.now.vertices }
    ensures { IsTrue result ↔ IsCoveredAhead machine.now legs.now place leg.now s second }
{
    (comes_first(Item::Exit(s), second) && covers(machine, leg.area, s))
        || is_covered_before(machine, legs, leg, place, s)
}

/// Whether the exit of a State comes ahead of an item that the leg with the place calls: where the State lies where this leg
/// exits, and the item is an effect, or where one behind which it stands exits. The first of them that does exits the State.
#[inline(always)]
pub fn is_exit_ahead(
    machine: &Machine,
    legs: &Legs,
    leg: &Leg,
    place: usize,
    fires: bool,
    s: VertexId,
    second: Item,
) -> bool
    requires legs { AreLegsIn machine.now legs.now }
    requires place { IsAt legs.now place leg.now }
    requires leg { IsLegIn machine.now leg.now }
    requires state { s.0 < length machine.now.vertices }
    ensures { IsTrue result ↔ IsCalledAhead machine.now legs.now place leg.now fires (Exit s) second }
{
    let _shaped = machine.regions();
    fires && is_covered_ahead(machine, legs, leg, place, s, second)
}

// Whether the first item is called ahead of the second, which the leg with the place calls: by this leg, where they come
// in this order by their kinds, or by one behind which it stands.
#[inline(always)]
fn is_called_ahead(
    machine: &Machine,
    legs: &Legs,
    leg: &Leg,
    place: usize,
    fires: bool,
    first: Item,
    second: Item,
) -> bool
    requires legs { AreLegsIn machine.now legs.now }
    requires place { IsAt legs.now place leg.now }
    requires leg { IsLegIn machine.now leg.now }
    requires first { IsItemIn machine.now first }
    ensures { IsTrue result ↔ IsCalledAhead machine.now legs.now place leg.now fires first second }
{
    match first {
        Item::Exit(s) => is_exit_ahead(machine, legs, leg, place, fires, s, second),
        _ => {
            (comes_first(first, second) && is_called(machine, legs, leg, place, fires, first))
                || is_called_before(machine, legs, leg, place, fires, first)
        }
    }
}

// Whether the leg with the place calls the second item, and the first is called ahead of it.
#[inline(always)]
fn is_called_from(
    machine: &Machine,
    legs: &Legs,
    leg: &Leg,
    place: usize,
    fires: bool,
    first: Item,
    second: Item,
) -> bool
    requires legs { AreLegsIn machine.now legs.now }
    requires place { IsAt legs.now place leg.now }
    requires leg { IsLegIn machine.now leg.now }
    requires first { IsItemIn machine.now first }
    requires second { IsItemIn machine.now second }
    ensures { IsTrue result ↔ IsCalledFrom machine.now legs.now place leg.now fires first second }
{
    is_called(machine, legs, leg, place, fires, second)
        && is_called_ahead(machine, legs, leg, place, fires, first, second)
}

/// Whether some leg but the first calls the second item, and the first is called ahead of it.
#[inline(never)]
pub fn are_called_from(
    machine: &Machine,
    legs: &Legs,
    fires: bool,
    first: Item,
    second: Item,
) -> bool
    requires legs { AreLegsIn machine.now legs.now }
    requires first { IsItemIn machine.now first }
    requires second { IsItemIn machine.now second }
    ensures { IsTrue result ↔ HasFurther legs.now (λ i a. IsCalledFrom machine.now legs.now i a fires first second) }
{
    let more = legs.more.as_slice();
    for k in 0..more.len() {
        if is_called_from(machine, legs, &more[k], k + 1, fires, first, second) {
            return true;
        }
    }
    false
}

/// Whether the first item is an exit or entry, and the second an effect or what is called at the end, whose leg is found
/// soon.
#[inline(always)]
pub fn starts_ahead(first: Item, second: Item) -> bool
    ensures { IsTrue result → StartsAhead first }
{
    matches!(first, Item::Exit(_) | Item::Enter(_))
        && !matches!(second, Item::Exit(_) | Item::Enter(_))
}
