//! A signal with a number, looked for where a take may find it.
ghost use Rattle.std.specs.Prelude.{◌≡◌, ◌<◌, ℕ, length, IfSome};
ghost use Rattle.pssm_links.specs.Chained.{IsSlotAt, list_of, slot_at};
ghost use Rattle.pssm_pool.specs.inner.Chaining.{values_of};
ghost use Rattle.pssm_pool.specs.inner.Fronts.{IsFront};
ghost use Rattle.pssm_pool.specs.Telling.{HasNumberAt};

use crate::front::Front;
use crate::pools::Waiting;
use pssm_links::{Chains, SlotId};

/// The slot of the first signal of the list, if it has this number.
#[inline(always)]
pub fn first_of_all(chains: &Chains<Waiting>, list: u32, number: u32) -> Option<SlotId>
    requires { list < length chains.now.lists }
    ensures { IfSome result (λ slot. (k : ℕ) × IsSlotAt chains.now.lists slot list k
        × HasNumberAt (values_of chains.now.lists list) k number) }
{
    let slot = chains.first(list)?;
    if chains.get(slot).number == number {
        Some(slot)
    } else {
        None
    }
}

/// The slot of a signal of the list with this number, if it is the first of a kind at the front of the list, or stands
/// behind the front.
pub fn first_numbered(
    chains: &Chains<Waiting>,
    front: &Front,
    list: u32,
    number: u32,
) -> Option<SlotId>
    requires list { list < length chains.now.lists }
    requires front { IsFront (list_of chains.now.lists list) front.now }
    ensures { IfSome result (λ slot. (k : ℕ) × IsSlotAt chains.now.lists slot list k
        × HasNumberAt (values_of chains.now.lists list) k number) }
{
    if let Some(slot) = numbered_kind(chains, front, list, number) {
        return Some(slot);
    }
    let next = front.behind(chains, list);
    numbered_from(chains, list, next, front.count, number)
}

// The slot of the first signal of a kind at the front that has this number, if there is one.
fn numbered_kind(chains: &Chains<Waiting>, front: &Front, list: u32, number: u32) -> Option<SlotId>
    requires { IsFront (list_of chains.now.lists list) front.now }
    ensures { IfSome result (λ slot. (k : ℕ) × IsSlotAt chains.now.lists slot list k
        × HasNumberAt (values_of chains.now.lists list) k number) }
{
    for i in 0..front.kinds.as_slice().len() {
        let slot = front.kinds[i].slot;
        if chains.get(slot).number == number {
            return Some(slot);
        }
    }
    None
}

// The slot of the first signal from a place of the list on that has this number, if there is one.
fn numbered_from(
    chains: &Chains<Waiting>,
    list: u32,
    from: Option<SlotId>,
    start: u32,
    number: u32,
) -> Option<SlotId>
    requires { from ≡ slot_at chains.now.lists list start }
    ensures { IfSome result (λ slot. (k : ℕ) × IsSlotAt chains.now.lists slot list k
        × HasNumberAt (values_of chains.now.lists list) k number) }
{
    chains.own_slots();
    let mut next = from;
    let mut place = start;
    while let Some(slot) = next {
        if chains.get(slot).number == number {
            return Some(slot);
        }
        next = chains.next(slot);
        place += 1;
    }
    None
}
