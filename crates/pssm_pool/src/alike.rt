//! The first signal for which a question is answered with false, where the answers are alike for alike signals.
ghost use Rattle.std.specs.Prelude.{◌≡◌, ◌<◌, ◌∷◌, [], ℕ, length, true, false, IsTrue, IfSome, IfNone};
ghost use Rattle.std.specs.Fn.{FnReturnsAt};
ghost use Rattle.std.specs.List.{AllByRecursion};
ghost use Rattle.pssm_links.specs.Chained.{IsSlotAt, list_of, slot_at};
ghost use Rattle.pssm_pool.specs.inner.Chaining.{values_of};
ghost use Rattle.pssm_pool.specs.inner.Fronts.{IsFront};
ghost use Rattle.pssm_pool.specs.inner.Looks.{AllBefore};
ghost use Rattle.pssm_pool.specs.Telling.{CanBeAsked, AreAlike, AnswersAlike, IsFirstNot};

use crate::front::Front;
use crate::pools::Waiting;
use pssm_links::{Chains, SlotId};

/// The slot of the first value of the list for which `held` answers false, if there is one. It is asked for the first of
/// all, then once for each kind of signals at the front of the list, and behind it once for signals that are alike and
/// stand one after the other.
#[inline(always)]
pub fn first_in_alike<T: Fn(&Waiting) -> bool>(
    chains: &Chains<Waiting>,
    front: &Front,
    list: u32,
    held: &T,
) -> Option<SlotId>
    requires list { list < length chains.now.lists }
    requires front { IsFront (list_of chains.now.lists list) front.now }
    requires asked { CanBeAsked (values_of chains.now.lists list) (T.pre held.now) }
    ensures first { IfSome result (λ slot. (k : ℕ) × IsSlotAt chains.now.lists slot list k
        × IsFirstNot (AnswersAlike (FnReturnsAt T.Fn held.now)) (values_of chains.now.lists list) k) }
    ensures none { IfNone result
        (AllByRecursion (λ w. AnswersAlike (FnReturnsAt T.Fn held.now) w true) (values_of chains.now.lists list)) }
{
    let Some(slot) = chains.first(list) else {
        return None;
    };
    if !held(chains.get(slot)) {
        return Some(slot);
    }
    first_behind(chains, front, list, held)
}

// The same without a look at the first of all.
#[inline(never)]
fn first_behind<T: Fn(&Waiting) -> bool>(
    chains: &Chains<Waiting>,
    front: &Front,
    list: u32,
    held: &T,
) -> Option<SlotId>
    requires list { list < length chains.now.lists }
    requires front { IsFront (list_of chains.now.lists list) front.now }
    requires asked { CanBeAsked (values_of chains.now.lists list) (T.pre held.now) }
    ensures first { IfSome result (λ slot. (k : ℕ) × IsSlotAt chains.now.lists slot list k
        × IsFirstNot (AnswersAlike (FnReturnsAt T.Fn held.now)) (values_of chains.now.lists list) k) }
    ensures none { IfNone result
        (AllByRecursion (λ w. AnswersAlike (FnReturnsAt T.Fn held.now) w true) (values_of chains.now.lists list)) }
{
    if let Some(slot) = first_kind(chains, front, list, held) {
        return Some(slot);
    }
    let next = front.behind(chains, list);
    first_from(chains, list, next, front.count, held)
}

// The slot of the first signal of the front for which `held` answers false, if there is one. It is asked for the first
// signal of each kind.
fn first_kind<T: Fn(&Waiting) -> bool>(
    chains: &Chains<Waiting>,
    front: &Front,
    list: u32,
    held: &T,
) -> Option<SlotId>
    requires front { IsFront (list_of chains.now.lists list) front.now }
    requires asked { CanBeAsked (values_of chains.now.lists list) (T.pre held.now) }
    ensures first { IfSome result (λ slot. (k : ℕ) × IsSlotAt chains.now.lists slot list k
        × IsFirstNot (AnswersAlike (FnReturnsAt T.Fn held.now)) (values_of chains.now.lists list) k) }
    ensures none { IfNone result
        (AllBefore (AnswersAlike (FnReturnsAt T.Fn held.now)) (values_of chains.now.lists list) front.now.count) }
{
    for i in 0..front.kinds.as_slice().len() {
        let slot = front.kinds[i].slot;
        if !held(chains.get(slot)) {
            return Some(slot);
        }
    }
    None
}

// The same from a place of the list on, before which all are held.
fn first_from<T: Fn(&Waiting) -> bool>(
    chains: &Chains<Waiting>,
    list: u32,
    from: Option<SlotId>,
    start: u32,
    held: &T,
) -> Option<SlotId>
    requires from { from ≡ slot_at chains.now.lists list start }
    requires before { AllBefore (AnswersAlike (FnReturnsAt T.Fn held.now)) (values_of chains.now.lists list) start }
    requires asked { CanBeAsked (values_of chains.now.lists list) (T.pre held.now) }
    ensures first { IfSome result (λ slot. (k : ℕ) × IsSlotAt chains.now.lists slot list k
        × IsFirstNot (AnswersAlike (FnReturnsAt T.Fn held.now)) (values_of chains.now.lists list) k) }
    ensures none { IfNone result
        (AllByRecursion (λ w. AnswersAlike (FnReturnsAt T.Fn held.now) w true) (values_of chains.now.lists list)) }
{
    chains.own_slots();
    let mut next = from;
    let mut last = None;
    let mut place = start;
    while let Some(slot) = next {
        let Some(by) = held_as(last, chains.get(slot), held) else {
            return Some(slot);
        };
        last = Some(by);
        next = chains.next(slot);
        place += 1;
    }
    None
}

// The signal by which this one is held: the last for which `held` answered true, where it is alike, else this one, where
// `held` answers true for it. None where it answers false.
#[inline(always)]
fn held_as<'a, T: Fn(&Waiting) -> bool>(
    last: Option<&'a Waiting>,
    waiting: &'a Waiting,
    held: &T,
) -> Option<&'a Waiting>
    requires last { IfSome last (λ v. FnReturnsAt T.Fn held.now v.now true) }
    requires asked { CanBeAsked (waiting.now ∷ []) (T.pre held.now) }
    ensures some { IfSome result (λ v. FnReturnsAt T.Fn held.now v.now true) }
    ensures held { IfSome result (λ v. AnswersAlike (FnReturnsAt T.Fn held.now) waiting.now true) }
    ensures none { IfNone result (AnswersAlike (FnReturnsAt T.Fn held.now) waiting.now false) }
{
    if let Some(other) = last {
        if are_alike(other, waiting) {
            return last;
        }
    }
    if held(waiting) {
        return Some(waiting);
    }
    None
}

/// Whether they are the same signal with the same arguments.
#[inline(always)]
pub fn are_alike(one: &Waiting, other: &Waiting) -> bool
    ensures { IsTrue result → AreAlike one.now other.now }
{
    one.signal == other.signal && one.args == other.args
}
