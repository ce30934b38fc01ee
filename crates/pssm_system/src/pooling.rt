//! What an entry takes from the pools and adds to them.
ghost use Rattle.std.specs.Prelude.{◌≡◌, ◌≤◌, ◌<◌, ◌+◌, ◌^◌, length, IfSome, IfNone};
ghost use Rattle.std.specs.Option.{option_copied};
ghost use Rattle.pssm_semantics.specs.declared.entry.Entry.{Entry as AnEntry};
ghost use Rattle.pssm_semantics.specs.declared.entry.ObjectId.{ObjectId as AnObject};
ghost use Rattle.pssm_pool.specs.Waits.{waiting_for, IsSlot};
ghost use Rattle.pssm_system.specs.inner.Pooling.{HasNoNumber, HaveOwnNumbers, IsSlotWith, IsSlotTaken, HavePools, delivered, left_by, signal_taken};

use crate::entries::object_of;
use pssm_pool::{Pools, SlotId, Waiting};
use pssm_semantics::{Entry, ObjectId, Stimulus};

/// The signal that a take takes: the one in its object's pool with the number that the take names.
#[inline(always)]
pub fn taken_signal<'a>(pools: &'a Pools, entry: &Entry) -> Option<&'a Waiting>
    ensures { option_copied result ≡ signal_taken pools.now.waiting entry.now }
{
    match entry {
        Entry::Take { object, number, .. } => {
            let slot = numbered(pools, *object, *number)?;
            Some(pools.at(slot))
        }
        _ => None,
    }
}

/// The signal that a take takes leaves its pool, wherever it stands there.
#[inline(always)]
pub fn leave(pools: &mut Pools, entry: &Entry)
    ensures waiting { pools.new.waiting ≡ left_by entry.now pools.old.waiting }
    ensures spare { pools.old.spare ≤ pools.new.spare }
{
    if let Entry::Take { object, number, .. } = entry {
        if let Some(slot) = numbered(pools, *object, *number) {
            let _ = pools.take(slot);
        }
    }
}

/// The slot of the signal that a take takes, where it waits.
#[inline(always)]
pub fn taken_slot(pools: &Pools, entry: &Entry) -> Option<SlotId>
    requires { (o : AnObject) → HaveOwnNumbers (waiting_for pools.now.waiting o) }
    ensures { IsSlotTaken pools.now entry.now result }
{
    match entry {
        Entry::Take { object, number, .. } => pools.numbered(*object, *number),
        _ => None,
    }
}

/// The signal at the slot, where there is one.
#[inline(always)]
pub fn signal_at(pools: &Pools, slot: Option<SlotId>) -> Option<&Waiting>
    requires { IfSome slot (IsSlot pools.now) }
    ensures { (e : AnEntry) → IsSlotTaken pools.now e slot
        → option_copied result ≡ signal_taken pools.now.waiting e }
{
    match slot {
        Some(slot) => Some(pools.at(slot)),
        None => None,
    }
}

/// The signal at the slot, the one that the entry takes, leaves its pool, where there is one.
#[inline(always)]
pub fn leave_slot(pools: &mut Pools, entry: &Entry, slot: Option<SlotId>)
    requires { IsSlotTaken pools.old entry.now slot }
    ensures waiting { pools.new.waiting ≡ left_by entry.now pools.old.waiting }
    ensures spare { pools.old.spare ≤ pools.new.spare }
{
    if let Some(slot) = slot {
        drop(pools.take_from(object_of(entry), slot));
    }
}

/// The signals come to the pools of their objects, numbered in order after those that were told.
pub fn deliver(pools: &mut Pools, told: u32, signals: Vec<Stimulus>)
    requires there { HavePools signals.items (length pools.old.waiting) }
    requires spare { length signals.items ≤ pools.old.spare }
    requires few { told + length signals.items < 2 ^ 32 }
    ensures { pools.new.waiting ≡ delivered (told + 1) signals.items pools.old.waiting }
{
    let mut number = told;
    for signal in signals {
        number += 1;
        let waiting = Waiting {
            number,
            signal: signal.signal,
            args: signal.args,
        };
        pools.arrive(signal.object, waiting);
    }
}

// The slot of the signal of the object with the number, if it waits.
#[inline(always)]
fn numbered(pools: &Pools, object: ObjectId, number: u32) -> Option<SlotId>
    ensures there { IfSome result (IsSlotWith number pools.now object) }
    ensures none { IfNone result (HasNoNumber number (waiting_for pools.now.waiting object)) }
{
    pools.first_not(object, &|waiting: &Waiting| waiting.number != number)
}
