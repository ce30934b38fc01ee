//! Slots, and how they are linked.
ghost use Rattle.std.specs.Prelude.{◌≡◌, ◌≤◌, ◌<◌, ◌+◌, ◌++◌, ◌∷◌, [], ℕ, List, length, vec_capacity, IfOk, IsSome};
ghost use Rattle.pssm_links.specs.declared.links.Slot.{Slot as ASlot};
ghost use Rattle.pssm_links.specs.inner.Rings.{next_of, prev_of, value_of, last_slot, moved};
ghost use Rattle.pssm_links.specs.inner.Rings.{Joins, IsWritten, AreEnds, AreRings, CanMove};

use std::alloc::{AllocError as NoMemory, Global};

/// A slot: the numbers of the slots before and after it, and the value that stands in it.
#[derive(Drop)]
pub struct Slot<T> {
    pub prev: u32,
    pub next: u32,
    pub value: Option<T>,
}

/// How many links `detach` and `attach` write together.
pub const LINKS: u64 = 6;

/// The most slots that there are numbers for.
pub const MOST: usize = 4_294_967_296;

/// How many slots can be made without memory being taken: as many as the array has room for and there are
/// numbers for.
pub fn room_of<T>(slots: &Vec<Slot<T>>) -> u32
    requires { length slots.now.items ≤ 4_294_967_296 }
    ensures room { length slots.now.items + result ≤ vec_capacity slots.now }
    ensures numbers { length slots.now.items + result ≤ 4_294_967_296 }
    ensures all { (n : ℕ) → n < 4_294_967_296 → length slots.now.items + n ≤ vec_capacity slots.now
        → length slots.now.items + n ≤ 4_294_967_296 → n ≤ result }
{
    let most = slots.capacity().min(MOST);
    (most - slots.len()).min(u32::MAX as usize) as u32
}

/// The ends of so many lists, and after them that of the unused slots: each is linked to itself.
pub fn new_ends<T: Drop>(alloc: Global, lists: u32) -> Result<Vec<Slot<T>>, NoMemory>
    ensures { IfOk result (λ slots. AreEnds slots.items (lists + 1)) }
{
    let mut slots = Vec::with_capacity(alloc, lists as usize + 1)?;
    for number in 0..lists {
        slots.push(ring_of_one(number))?;
    }
    slots.push(ring_of_one(lists))?;
    Ok(slots)
}

/// The slot leaves its ring, and becomes the last of another. At most six links are written.
pub fn move_slot<T>(slots: &mut [Slot<T>], slot: u32, to: u32)
    requires { (rows : List (List ℕ)) × (r : ℕ) × (i : ℕ) × CanMove slots.old rows slot r i to }
    ensures rings { (rows : List (List ℕ)) (r i : ℕ) → CanMove slots.old rows slot r i to
        → AreRings slots.new (moved rows slot r i to) }
    ensures values { (k : ℕ) → value_of slots.new k ≡ value_of slots.old k }
    ensures size { length slots.new ≡ length slots.old }
{
    detach(slots, slot);
    attach(slots, slot, to);
}

// The slots before and after the slot are linked to each other. Two links are written.
fn detach<T>(slots: &mut [Slot<T>], slot: u32)
    requires here { slot < length slots.old }
    requires before { prev_of slots.old slot < length slots.old }
    requires after { next_of slots.old slot < length slots.old }
    ensures { Joins slots.old slots.new (prev_of slots.old slot) (next_of slots.old slot) }
{
    let (before, after) = neighbours(slots, slot);
    join(slots, before, after);
}

/// A new slot, in which the value stands, becomes the last of a ring. It comes with its own links, and two more
/// are written.
pub fn push_slot<T>(slots: &mut Vec<Slot<T>>, slot: u32, list: u32, value: T)
    requires last { slot ≡ length slots.old.items }
    requires room { slot < vec_capacity slots.old }
    requires after { list < length slots.old.items }
    requires before { prev_of slots.old.items list < length slots.old.items }
    ensures items { let new = slots.old.items ++ last_slot slots.old.items list value ∷ [] in
        (between : List (ASlot T)) × Joins new between (prev_of new list) slot × Joins between slots.new.items slot list }
    ensures size { length slots.new.items ≡ length slots.old.items + 1 }
    ensures capacity { vec_capacity slots.new ≡ vec_capacity slots.old }
{
    let (last, _) = neighbours(slots.as_slice(), list);
    slots.push_reserved(Slot {
        prev: last,
        next: list,
        value: Some(value),
    });
    enclose(slots.as_mut_slice(), last, slot, list);
}

// The slot comes between two others, as its own links say: the other two links are written.
fn enclose<T>(slots: &mut [Slot<T>], before: u32, slot: u32, after: u32)
    requires before { before < length slots.old }
    requires after { after < length slots.old }
    requires apart { before < slot }
    requires last { prev_of slots.old after ≡ before }
    requires prev { prev_of slots.old slot ≡ before }
    requires next { next_of slots.old slot ≡ after }
    ensures { (between : List (ASlot T)) × Joins slots.old between (prev_of slots.old after) slot
        × Joins between slots.new slot after }
{
    slots[before as usize].next = slot;
    slots[after as usize].prev = slot;
}

// The slot is linked between another and the one before that. Four links are written.
fn attach<T>(slots: &mut [Slot<T>], slot: u32, after: u32)
    requires here { slot < length slots.old }
    requires before { prev_of slots.old after < length slots.old }
    requires after { after < length slots.old }
    ensures { (between : List (ASlot T)) × Joins slots.old between (prev_of slots.old after) slot
        × Joins between slots.new slot after }
{
    let (before, _) = neighbours(slots, after);
    join(slots, before, slot);
    join(slots, slot, after);
}

/// The value that stands in the slot leaves it. One stands there.
pub fn take_value<T>(slots: &mut [Slot<T>], slot: u32) -> T
    requires here { slot < length slots.old }
    requires value { IsSome (value_of slots.old slot) }
    ensures value { value_of slots.old slot ≡ Some result }
    ensures slots { IsWritten slots.old slots.new slot None }
{
    match slots[slot as usize].value.take() {
        Some(value) => value,
        None => unreachable!(),
    }
}

/// A value is put into the slot, in which none stands.
pub fn put_value<T: Drop>(slots: &mut [Slot<T>], slot: u32, value: T)
    requires { slot < length slots.old }
    ensures { IsWritten slots.old slots.new slot (Some value) }
{
    slots[slot as usize].value = Some(value);
}

// The slot with this number, linked to itself, in which no value stands.
fn ring_of_one<T>(number: u32) -> Slot<T>
    ensures { result ≡ record { prev = number; next = number; value = None } }
{
    Slot {
        prev: number,
        next: number,
        value: None,
    }
}

// The numbers of the slots before and after the slot.
fn neighbours<T>(slots: &[Slot<T>], slot: u32) -> (u32, u32)
    requires { slot < length slots.now }
    ensures before { result.0 ≡ prev_of slots.now slot }
    ensures after { result.1 ≡ next_of slots.now slot }
{
    let slot = &slots[slot as usize];
    (slot.prev, slot.next)
}

// One slot comes before the other: two links are written.
fn join<T>(slots: &mut [Slot<T>], before: u32, after: u32)
    requires before { before < length slots.old }
    requires after { after < length slots.old }
    ensures { Joins slots.old slots.new before after }
{
    slots[before as usize].next = after;
    slots[after as usize].prev = before;
}
