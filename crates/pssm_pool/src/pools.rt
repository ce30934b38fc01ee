//! `Pools`: the pools of all objects.
ghost use Rattle.std.specs.Prelude.{◌≡◌, ◌≤◌, ◌<◌, ◌+◌, ℕ, [], length};
ghost use Rattle.std.specs.Prelude.{Some, replicate, true, IfOk, OnOk, IfSome, IfNone};
ghost use Rattle.std.specs.Fn.{FnReturnsAt};
ghost use Rattle.std.specs.List.{AllByRecursion};
ghost use Rattle.pssm_semantics.specs.declared.entry.ObjectId.{ObjectId as Object};
ghost use Rattle.pssm_links.specs.Chained.{IsSlot as IsLinked, IsSlotAt, value_at, without as unlinked};
ghost use Rattle.pssm_pool.specs.Waits.{waiting_for, held_in, with_arrived, without};
ghost use Rattle.pssm_pool.specs.Waits.{IsSlotOf, IsSlot, StandsAt, HaveSlots, HaveOwnSlots};
ghost use Rattle.pssm_pool.specs.Telling.{CanBeAsked, AnswersAlike, IsFirstNot, HasNumberAt, HasNoNumber};
ghost use Rattle.pssm_pool.specs.inner.Chaining.{values_of};

use crate::alike::first_in_alike;
use crate::front::{Front, clear_all, new_fronts};
use crate::numbers::{first_numbered, first_of_all};
use pssm_links::{Chains, SlotId, Steps};
use pssm_model::SignalId;
use pssm_semantics::{Args, ObjectId};
use std::alloc::{AllocError as NoMemory, Global};
use std::marker::{Brand, Model};
use std::sync::ledger::{Blank, Ledger};

/// A signal that waits in an object's pool, with its number in the journal (UML 2.5.1, 14.2.3.9, event pool).
#[derive(Drop)]
pub struct Waiting {
    pub number: u32,
    pub signal: SignalId,
    pub args: Args,
}

/// The pools of all objects: for each, the signals that wait for it in the order in which they came.
///
/// A clause sees the signals that wait, a list for each object, the slots that they stand in, and `spare`: how many more
/// can come before memory has to be taken. No call but `new` and `reserve` takes memory.
#[derive(Drop)]
pub struct Pools {
    chains: Chains<Waiting>,
    objects: u8,
    // Of each pool the first signals, known by the first of each kind.
    fronts: Vec<Front>,
}

impl Model for Pools {
    ghost use Rattle.std.specs.Prelude.{◌≡◌, length};
    ghost use Rattle.pssm_pool.specs.Waits.{Waits};
    ghost use Rattle.pssm_pool.specs.inner.Chaining.{waits_of};
    ghost use Rattle.pssm_pool.specs.inner.Fronts.{AreFronts};

    ghost Value = { Waits };

    ghost view = { λ p. waits_of p.chains };

    ghost invariant = { λ p. (p.objects ≡ length p.chains.lists) × AreFronts p.chains.lists p.fronts.items };
}

impl Pools {
    /// The pools of so many objects, in which no signal waits.
    ///
    /// `NoMemory`: memory ran out.
    pub fn new(alloc: Global, objects: u8) -> Result<Pools, NoMemory>
        ensures { IfOk result (λ pools. pools.waiting ≡ replicate objects []) }
    {
        Ok(Pools {
            chains: Chains::new(alloc, u32::from(objects))?,
            objects,
            fronts: new_fronts(alloc, objects)?,
        })
    }

    /// Makes room for so many more signals, whichever objects they come to.
    ///
    /// Those and the signals that wait are fewer than 4,294,967,295. `NoMemory`: memory ran out. With both
    /// answers the same signals wait in the same slots.
    pub fn reserve(&mut self, n: u32) -> Result<(), NoMemory>
        requires few { held_in self.old.waiting + n < 4_294_967_295 }
        ensures waiting { self.new.waiting ≡ self.old.waiting }
        ensures slots { self.new.slots ≡ self.old.slots }
        ensures ok { OnOk result (n ≤ self.new.spare) }
    {
        self.chains.reserve(n)
    }

    /// A signal comes to the pool of the object: it waits there as the last.
    ///
    /// The object has a pool, and one signal can come without memory being taken.
    #[inline(always)]
    pub fn arrive(&mut self, object: ObjectId, waiting: Waiting)
        requires object { object.0 < length self.old.waiting }
        requires spare { 1 ≤ self.old.spare }
        ensures waiting { self.new.waiting ≡ with_arrived self.old.waiting object waiting }
        ensures spare { self.old.spare ≤ self.new.spare + 1 }
    {
        let _ = self.chains.push_back(u32::from(object.0), waiting);
    }

    /// The slot of the first signal of the object for which `held` answers false, if there is one.
    ///
    /// `held` may be asked of each signal that waits for the object. The answers are ones that it may give: false for
    /// the signal of the slot, and true for each before it; true for all of them where there is no slot.
    pub fn first_not<T: Fn(&Waiting) -> bool>(&self, object: ObjectId, held: &T) -> Option<SlotId>
        requires { CanBeAsked (waiting_for self.now.waiting object) (T.pre held.now) }
        ensures slot { IfSome result (IsSlot self.now) }
        ensures first { IfSome result (λ slot. (k : ℕ) × IsSlotOf self.now slot object k
            × IsFirstNot (FnReturnsAt T.Fn held.now) (waiting_for self.now.waiting object) k) }
        ensures none { IfNone result
            (AllByRecursion (λ w. FnReturnsAt T.Fn held.now w true) (waiting_for self.now.waiting object)) }
    {
        if object.0 >= self.objects {
            return None;
        }
        first_in(&self.chains, u32::from(object.0), held)
    }

    /// The same for a question whose answers are alike for alike signals: the same signal with the same arguments.
    ///
    /// `held` is asked once for each kind of signals at the front of the pool, those that `take_from` has passed by, and
    /// behind it once for signals that are alike and stand one after the other. The answers are ones that it may give
    /// for a signal that is alike.
    pub fn first_not_alike<T: Fn(&Waiting) -> bool>(
        &self,
        object: ObjectId,
        held: &T,
    ) -> Option<SlotId>
        requires { CanBeAsked (waiting_for self.now.waiting object) (T.pre held.now) }
        ensures slot { IfSome result (IsSlot self.now) }
        ensures first { IfSome result (λ slot. (k : ℕ) × IsSlotOf self.now slot object k
            × IsFirstNot (AnswersAlike (FnReturnsAt T.Fn held.now)) (waiting_for self.now.waiting object) k) }
        ensures none { IfNone result (AllByRecursion (λ w. AnswersAlike (FnReturnsAt T.Fn held.now) w true)
            (waiting_for self.now.waiting object)) }
    {
        if object.0 >= self.objects {
            return None;
        }
        let front = &self.fronts[usize::from(object.0)];
        first_in_alike(&self.chains, front, u32::from(object.0), held)
    }

    /// The slot of a signal of the object with this number, if one waits.
    ///
    /// It is looked for among the first of each kind at the front of the pool, those that `take_from` has passed by, and
    /// behind it, before all signals are looked through.
    #[inline(always)]
    pub fn numbered(&self, object: ObjectId, number: u32) -> Option<SlotId>
        ensures there { IfSome result (λ slot. (k : ℕ) × IsSlotOf self.now slot object k
            × HasNumberAt (waiting_for self.now.waiting object) k number) }
        ensures none { IfNone result (HasNoNumber (waiting_for self.now.waiting object) number) }
    {
        if object.0 >= self.objects {
            return None;
        }
        match first_of_all(&self.chains, u32::from(object.0), number) {
            Some(slot) => Some(slot),
            None => self.numbered_behind(object, number),
        }
    }

    // The same without a look at the first of all.
    #[inline(never)]
    fn numbered_behind(&self, object: ObjectId, number: u32) -> Option<SlotId>
        requires { object.0 < length self.now.waiting }
        ensures there { IfSome result (λ slot. (k : ℕ) × IsSlotOf self.now slot object k
            × HasNumberAt (waiting_for self.now.waiting object) k number) }
        ensures none { IfNone result (HasNoNumber (waiting_for self.now.waiting object) number) }
    {
        let front = &self.fronts[usize::from(object.0)];
        match first_numbered(&self.chains, front, u32::from(object.0), number) {
            Some(slot) => Some(slot),
            None => self.first_not(object, &|waiting: &Waiting| waiting.number != number),
        }
    }

    /// The signal that waits at the slot. One waits there.
    pub fn at(&self, slot: SlotId) -> &Waiting
        requires { IsSlot self.now slot }
        ensures { (o : Object) (k : ℕ) → IsSlotOf self.now slot o k → StandsAt self.now.waiting o k result.now }
    {
        self.chains.get(slot)
    }

    /// The signal that waits at the slot is taken. One waits there; all others wait as before, in the same order.
    pub fn take(&mut self, slot: SlotId) -> Waiting
        requires { IsSlot self.old slot }
        ensures taken { (o : Object) (k : ℕ) → IsSlotOf self.old slot o k → StandsAt self.old.waiting o k result }
        ensures waiting { (o : Object) (k : ℕ) → IsSlotOf self.old slot o k
            → self.new.waiting ≡ without self.old.waiting o k }
        ensures spare { self.old.spare ≤ self.new.spare }
    {
        clear_all(&mut self.fronts);
        unlink(&mut self.chains, slot)
    }

    /// The same of a signal of this object. It takes as long as there are signals before it that no take from this pool
    /// has passed by yet, so that looks need not ask for each of them again.
    #[inline(always)]
    pub fn take_from(&mut self, object: ObjectId, slot: SlotId) -> Waiting
        requires { (k : ℕ) × IsSlotOf self.old slot object k }
        ensures taken { (k : ℕ) → IsSlotOf self.old slot object k → StandsAt self.old.waiting object k result }
        ensures waiting { (k : ℕ) → IsSlotOf self.old slot object k
            → self.new.waiting ≡ without self.old.waiting object k }
        ensures spare { self.old.spare ≤ self.new.spare }
    {
        let list = u32::from(object.0);
        if self.fronts[usize::from(object.0)].is_before(&self.chains, list, slot) {
            return unlink(&mut self.chains, slot);
        }
        self.take_behind(object, slot)
    }

    // The same where the front may have to go on.
    #[inline(never)]
    fn take_behind(&mut self, object: ObjectId, slot: SlotId) -> Waiting
        requires { (k : ℕ) × IsSlotOf self.old slot object k }
        ensures taken { (k : ℕ) → IsSlotOf self.old slot object k → StandsAt self.old.waiting object k result }
        ensures waiting { (k : ℕ) → IsSlotOf self.old slot object k
            → self.new.waiting ≡ without self.old.waiting object k }
        ensures spare { self.old.spare ≤ self.new.spare }
    {
        let list = u32::from(object.0);
        self.fronts[usize::from(object.0)].let_go(&self.chains, list, slot);
        unlink(&mut self.chains, slot)
    }

    /// Each signal that waits has a slot, and no two have the same. It does nothing.
    pub fn own_slots(&self)
        ensures each { HaveSlots self.now }
        ensures own { HaveOwnSlots self.now }
    {
        self.chains.own_slots();
    }
}

// The slot of the first value of the list for which `held` answers false, if there is one.
fn first_in<T: Fn(&Waiting) -> bool>(
    chains: &Chains<Waiting>,
    list: u32,
    held: &T,
) -> Option<SlotId>
    requires list { list < length chains.now.lists }
    requires asked { CanBeAsked (values_of chains.now.lists list) (T.pre held.now) }
    ensures first { IfSome result (λ slot. (k : ℕ) × IsSlotAt chains.now.lists slot list k
        × IsFirstNot (FnReturnsAt T.Fn held.now) (values_of chains.now.lists list) k) }
    ensures none { IfNone result
        (AllByRecursion (λ w. FnReturnsAt T.Fn held.now w true) (values_of chains.now.lists list)) }
{
    chains.own_slots();
    let mut next = chains.first(list);
    let mut place = 0u32;
    while let Some(slot) = next {
        if !held(chains.get(slot)) {
            return Some(slot);
        }
        next = chains.next(slot);
        place += 1;
    }
    None
}

// The value that stands in the slot is taken out.
fn unlink(chains: &mut Chains<Waiting>, slot: SlotId) -> Waiting
    requires { IsLinked chains.old.lists slot }
    ensures taken { (l k : ℕ) → IsSlotAt chains.old.lists slot l k → value_at chains.old.lists l k ≡ Some result }
    ensures lists { (l k : ℕ) → IsSlotAt chains.old.lists slot l k → chains.new.lists ≡ unlinked chains.old.lists l k }
    ensures spare { chains.old.spare ≤ chains.new.spare }
{
    unlink_counted::<Brand>(chains, slot, Blank::new(1))
}

// The same, with the blank from which the count of its steps is opened.
fn unlink_counted<L: Ledger>(chains: &mut Chains<Waiting>, slot: SlotId, blank: Blank) -> Waiting
    requires name { blank.name ≡ L.name }
    requires parts { blank.parts ≡ L.parts }
    requires some { 0 < blank.parts }
    requires slot { IsLinked chains.old.lists slot }
    ensures taken { (l k : ℕ) → IsSlotAt chains.old.lists slot l k → value_at chains.old.lists l k ≡ Some result }
    ensures lists { (l k : ℕ) → IsSlotAt chains.old.lists slot l k → chains.new.lists ≡ unlinked chains.old.lists l k }
    ensures spare { chains.old.spare ≤ chains.new.spare }
{
    let mut steps = Steps::<L>::new(blank);
    chains.unlink(slot, &mut steps)
}
