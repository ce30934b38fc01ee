//! `Chains`: several lists in one array of slots.
ghost use Rattle.std.specs.Prelude.{◌≡◌, ◌≤◌, ◌<◌, ◌+◌, ℕ, [], length, replicate, Some, IfOk, OnOk};
ghost use Rattle.pssm_links.specs.Chained.{list_of, held_in, with_pushed, without, slot_at, value_at};
ghost use Rattle.pssm_links.specs.Chained.{IsSlotAt, IsSlot, HaveOwnSlots};

use crate::links::{
    LINKS, MOST, Slot, move_slot, new_ends, push_slot, put_value, room_of, take_value,
};
use crate::slot::SlotId;
use crate::steps::Steps;
use std::alloc::{AllocError as NoMemory, Global};
use std::marker::Model;
use std::sync::ledger::Ledger;

/// Several doubly linked lists in one array of slots.
///
/// A clause sees the lists, each as its values with the slots that they stand in, and `spare`: how many more values can
/// come before memory has to be taken. No call but `new` and `reserve` takes memory.
#[derive(Drop)]
pub struct Chains<T> {
    // The first slots are the ends of the lists, and the one after them that of the unused slots: each
    // is the slot before the first and after the last of its list. No value stands in them.
    slots: Vec<Slot<T>>,
    lists: u32,
    // How many slots no list uses, and how many more can be made without memory being taken.
    unused: u32,
    fresh: u32,
}

impl<T> Model for Chains<T> {
    ghost use Rattle.std.specs.Prelude.{◌≡◌, ◌≤◌, ◌+◌, length, vec_capacity};
    ghost use Rattle.pssm_links.specs.Chained.{Chained, chained_code};

    ghost Value = { Chained T };

    ghost coded = { chained_code T.code };

    ghost use Rattle.pssm_links.specs.inner.Rings.{lists_from, Hold};

    ghost view = { λ c. record { lists = lists_from c.slots.items 0 c.lists; spare = c.unused + c.fresh } };

    ghost invariant = { λ c. Hold c.slots.items (lists_from c.slots.items 0 c.lists) c.unused
        × (c.lists ≡ length (lists_from c.slots.items 0 c.lists))
        × (length c.slots.items + c.fresh ≤ vec_capacity c.slots)
        × (length c.slots.items + c.fresh ≤ 4_294_967_296) };
}

impl<T: Drop> Chains<T> {
    /// So many empty lists.
    ///
    /// `NoMemory`: memory ran out.
    pub fn new(alloc: Global, lists: u32) -> Result<Chains<T>, NoMemory>
        ensures { IfOk result (λ chains. chains.lists ≡ replicate lists []) }
    {
        let slots = new_ends(alloc, lists)?;
        Ok(Chains {
            slots,
            lists,
            unused: 0,
            fresh: 0,
        })
    }

    /// Makes room for so many more values, whichever lists they come to.
    ///
    /// Those and the values that are held are fewer than 4,294,967,295. `NoMemory`: memory ran out, or there are no
    /// numbers for so many slots; the lists are as before.
    pub fn reserve(&mut self, n: u32) -> Result<(), NoMemory>
        requires { held_in self.old.lists + n < 4_294_967_295 }
        ensures lists { self.new.lists ≡ self.old.lists }
        ensures spare { self.old.spare ≤ self.new.spare }
        ensures ok { OnOk result (n ≤ self.new.spare) }
    {
        if n <= self.unused {
            return Ok(());
        }
        let more = n - self.unused;
        if more <= self.fresh {
            return Ok(());
        }
        if more as usize > MOST - self.slots.len() {
            return Err(NoMemory);
        }
        self.slots.reserve(more as usize)?;
        self.fresh = room_of(&self.slots);
        Ok(())
    }

    /// A value comes as the last of the list; the slot that it stands in.
    ///
    /// One more can come without memory being taken.
    #[inline(always)]
    pub fn push_back(&mut self, list: u32, value: T) -> SlotId
        requires list { list < length self.old.lists }
        requires spare { 1 ≤ self.old.spare }
        ensures lists { self.new.lists ≡ with_pushed self.old.lists list result value }
        ensures spare { self.old.spare ≡ self.new.spare + 1 }
    {
        if self.unused == 0 {
            let slot = self.slots.len() as u32;
            push_slot(&mut self.slots, slot, list, value);
            self.fresh -= 1;
            return SlotId(slot);
        }
        let slot = self.slots[self.lists as usize].prev;
        let slots = self.slots.as_mut_slice();
        move_slot(slots, slot, list);
        put_value(slots, slot, value);
        self.unused -= 1;
        SlotId(slot)
    }

    /// The value that stands in the slot is taken out; the slot can be used again.
    ///
    /// A value stands there. All others stand as before, in the same order. A step is counted for each link that is
    /// written.
    pub fn unlink<L: Ledger>(&mut self, slot: SlotId, steps: &mut Steps<L>) -> T
        requires { IsSlot self.old.lists slot }
        ensures taken { (l k : ℕ) → IsSlotAt self.old.lists slot l k → value_at self.old.lists l k ≡ Some result }
        ensures lists { (l k : ℕ) → IsSlotAt self.old.lists slot l k → self.new.lists ≡ without self.old.lists l k }
        ensures spare { self.new.spare ≡ self.old.spare + 1 }
        ensures counted { steps.old ≤ steps.new }
        ensures at_most { steps.new ≤ steps.old + 6 }
    {
        steps.count(LINKS);
        let slots = self.slots.as_mut_slice();
        move_slot(slots, slot.0, self.lists);
        let value = take_value(slots, slot.0);
        self.unused += 1;
        value
    }

    /// The slot of the first value of the list; none if the list is empty.
    pub fn first(&self, list: u32) -> Option<SlotId>
        requires { list < length self.now.lists }
        ensures { result ≡ slot_at self.now.lists list 0 }
    {
        self.slot_or_end(self.slots[list as usize].next)
    }

    /// The slot of the value after the one that stands in the slot; none after the last of a list.
    ///
    /// A value stands there.
    pub fn next(&self, slot: SlotId) -> Option<SlotId>
        requires { IsSlot self.now.lists slot }
        ensures { (l k : ℕ) → IsSlotAt self.now.lists slot l k → result ≡ slot_at self.now.lists l (k + 1) }
    {
        self.slot_or_end(self.slots[slot.0 as usize].next)
    }

    /// The value that stands in the slot. One stands there.
    pub fn get(&self, slot: SlotId) -> &T
        requires { IsSlot self.now.lists slot }
        ensures { (l k : ℕ) → IsSlotAt self.now.lists slot l k → value_at self.now.lists l k ≡ Some result.now }
    {
        match &self.slots[slot.0 as usize].value {
            Some(value) => value,
            None => unreachable!(),
        }
    }

    /// No two values stand in the same slot, and no list holds more than there are numbers. It does nothing.
    pub fn own_slots(&self)
        ensures own { HaveOwnSlots self.now.lists }
        ensures short { (l : ℕ) → length (list_of self.now.lists l) < 4_294_967_296 }
    {
        // What is kept of the slots is known once they are looked into.
        let _lists = self.lists;
    }

    // The slot, or none where it is the end of a list.
    fn slot_or_end(&self, slot: u32) -> Option<SlotId>
        ensures end { slot ≤ length self.now.lists → result ≡ None }
        ensures slot { length self.now.lists < slot → result ≡ Some (record { 0 = slot }) }
    {
        if slot <= self.lists {
            return None;
        }
        Some(SlotId(slot))
    }
}
