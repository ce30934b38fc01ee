//! The calls of a step in their order, and where each of their items stands.
ghost use Rattle.std.specs.Prelude.{◌≡◌, ◌≢◌, ◌↔◌, ◌<◌, ◌≤◌, ◌++◌, ◌∷◌, [], ℕ, length, take, slice_index_or};
ghost use Rattle.std.specs.Prelude.{IsTrue, IfSome, MatchOption, Contains, OnOk, OnErr};
ghost use Rattle.pssm_model.specs.declared.steps.Item.{Item as Called};
ghost use Rattle.pssm_plan.specs.declared.roster.Call.{Call as Listed};
ghost use Rattle.pssm_plan.specs.inner.Marks.{IsListed, IsMarked};
ghost use Rattle.pssm_plan.specs.inner.Places.{ArePlaced, IsAdded, looked_through, place_in};

use crate::places::{Row, note, place_by};
use crate::roster::{Call, same_item};
use pssm_model::Item;
use std::alloc::{AllocError as NoMemory, Global};
use std::marker::Model;

// So many calls are looked through, before the table is asked.
const LOOKED_THROUGH: usize = 4;

/// The most calls of a step; for more there is no memory.
pub const MOST_CALLS: usize = 4_294_967_295;

/// The calls of a step.
///
/// A clause sees the list. A table tells where an item stands, which need not be cleared: a place counts only where the
/// call at it is of the item.
#[derive(Drop)]
pub struct Calls {
    pub list: Vec<Call>,
    pub rows: Vec<Row>,
}

impl Model for Calls {
    ghost use Rattle.pssm_plan.specs.inner.Places.{CallList, ArePlaced};

    ghost Value = { CallList };

    ghost view = { λ c. record { items = c.list.items } };

    ghost invariant = { λ c. ArePlaced c.list.items c.rows.items };
}

// The place of an item, where it is listed among the first few.
#[inline(always)]
fn early_place(calls: &[Call], item: Item) -> Option<usize>
    ensures { MatchOption result ((k : ℕ) (d : Listed) → k < looked_through → k < length calls.now
        → (slice_index_or calls.now k d).item ≡ item → ⊥)
        (λ k. (k < length calls.now) × ((d : Listed) → (slice_index_or calls.now k d).item ≡ item)) }
{
    for k in 0..calls.len() {
        if k >= LOOKED_THROUGH {
            return None;
        }
        if same_item(calls[k].item, item) {
            return Some(k);
        }
    }
    None
}

// The place of an item, where it is listed. It is asked of each call.
#[inline(always)]
fn first_place(calls: &[Call], item: Item) -> Option<usize>
    ensures { MatchOption result (IsListed calls.now item → ⊥)
        (λ k. (k < length calls.now) × ((d : Listed) → (slice_index_or calls.now k d).item ≡ item)) }
{
    for k in 0..calls.len() {
        if same_item(calls[k].item, item) {
            return Some(k);
        }
    }
    None
}

/// Whether the call at a place is one of the item.
#[inline(always)]
pub fn stands_at(calls: &[Call], place: usize, item: Item) -> bool
    ensures there { IsTrue result → (place < length calls.now)
        × ((d : Listed) → (slice_index_or calls.now place d).item ≡ item) }
    ensures none { (IsTrue result → ⊥) → place < length calls.now → (d : Listed)
        → (slice_index_or calls.now place d).item ≡ item → ⊥ }
{
    place < calls.len() && same_item(calls[place].item, item)
}

// The place of an item, where it is listed behind the first few, as the table tells.
#[inline(always)]
fn later_place(calls: &[Call], rows: &[Row], item: Item) -> Option<usize>
    requires { ArePlaced calls.now rows.now }
    ensures { MatchOption result ((k : ℕ) (d : Listed) → looked_through ≤ k → k < length calls.now
        → (slice_index_or calls.now k d).item ≡ item → ⊥)
        (λ k. (k < length calls.now) × ((d : Listed) → (slice_index_or calls.now k d).item ≡ item)) }
{
    let place = place_by(rows, item) as usize;
    if stands_at(calls, place, item) {
        Some(place)
    } else {
        None
    }
}

// The place of an item, where it is listed among more than a few.
#[inline(never)]
fn place_among_many(calls: &[Call], rows: &[Row], item: Item) -> Option<usize>
    requires { ArePlaced calls.now rows.now }
    ensures { MatchOption result (IsListed calls.now item → ⊥)
        (λ k. (k < length calls.now) × ((d : Listed) → (slice_index_or calls.now k d).item ≡ item)) }
{
    match early_place(calls, item) {
        Some(k) => Some(k),
        None => later_place(calls, rows, item),
    }
}

/// The place of an item, where it is listed.
#[inline(always)]
pub fn place_among(calls: &[Call], rows: &[Row], item: Item) -> Option<usize>
    requires { ArePlaced calls.now rows.now }
    ensures { MatchOption result (IsListed calls.now item → ⊥)
        (λ k. (k < length calls.now) × ((d : Listed) → (slice_index_or calls.now k d).item ≡ item)) }
{
    if calls.len() <= LOOKED_THROUGH {
        first_place(calls, item)
    } else {
        place_among_many(calls, rows, item)
    }
}

// Keeps the place of an item that comes behind so many calls, if they are not too many.
#[inline(always)]
fn note_later(rows: &mut Vec<Row>, item: Item, count: usize) -> Result<(), NoMemory>
    ensures others { (x : Called) → x ≢ item → place_in rows.new.items x ≡ place_in rows.old.items x }
    ensures noted { OnOk result (place_in rows.new.items item ≡ count) }
{
    if count > MOST_CALLS {
        return Err(NoMemory);
    }
    note(rows, item, count as u32)
}

impl Calls {
    /// No calls, which take no memory.
    #[tactic(auto, using(crate::proofs::PlacedCalls::placed_none))]
    pub fn new(alloc: Global) -> Calls
        ensures items { result.items ≡ [] }
    {
        Calls {
            list: Vec::new(alloc),
            rows: Vec::new(alloc),
        }
    }

    /// The calls in their order.
    #[inline(always)]
    pub fn as_slice(&self) -> &[Call]
        ensures value { result.now ≡ self.now.items }
    {
        self.list.as_slice()
    }

    /// How many there are.
    #[inline(always)]
    pub fn len(&self) -> usize
        ensures { result ≡ length self.now.items }
    {
        self.list.len()
    }

    /// Gives them all up.
    pub fn clear(&mut self)
        ensures items { self.new.items ≡ [] }
    {
        self.list.clear();
    }

    /// Gives up those from a place on.
    #[tactic(auto, using(crate::proofs::PlacedCalls::placed_take))]
    pub fn truncate(&mut self, count: usize)
        ensures items { self.new.items ≡ take count self.old.items }
    {
        self.list.truncate(count);
    }

    // Puts a call of an item that is not listed yet behind the first few, of which no place is kept.
    #[inline(always)]
    fn push_early(&mut self, call: Call) -> Result<(), NoMemory>
        requires few { length self.old.items < looked_through }
        requires fresh { IsListed self.old.items call.item → ⊥ }
        ensures pushed { OnOk result (self.new.items ≡ self.old.items ++ call ∷ []) }
        ensures refused { OnErr result (self.new.items ≡ self.old.items) }
    {
        self.list.push(call)?;
        Ok(())
    }

    // Puts a call of an item that is not listed yet behind the others, and keeps its place.
    #[inline(always)]
    fn push_later(&mut self, call: Call) -> Result<(), NoMemory>
        requires fresh { IsListed self.old.items call.item → ⊥ }
        ensures pushed { OnOk result (self.new.items ≡ self.old.items ++ call ∷ []) }
        ensures refused { OnErr result (self.new.items ≡ self.old.items) }
    {
        let count = self.list.len();
        note_later(&mut self.rows, call.item, count)?;
        self.list.push(call)?;
        Ok(())
    }

    // Puts a call behind the first few, where its item is not listed yet.
    #[inline(always)]
    fn add_early(&mut self, call: Call) -> Result<(), NoMemory>
        requires few { length self.old.items < looked_through }
        ensures added { OnOk result (IsAdded self.old.items call self.new.items) }
        ensures refused { OnErr result (self.new.items ≡ self.old.items) }
    {
        match first_place(self.list.as_slice(), call.item) {
            Some(_) => Ok(()),
            None => self.push_early(call),
        }
    }

    // Puts a call behind the others, where its item is not listed yet.
    #[inline(never)]
    fn add_later(&mut self, call: Call) -> Result<(), NoMemory>
        ensures added { OnOk result (IsAdded self.old.items call self.new.items) }
        ensures refused { OnErr result (self.new.items ≡ self.old.items) }
    {
        match self.place_of(call.item) {
            Some(_) => Ok(()),
            None => self.push_later(call),
        }
    }

    /// Puts a call behind the others, where its item is not listed yet.
    ///
    /// `NoMemory`: memory ran out; the calls are as before.
    #[inline(always)]
    pub fn add(&mut self, call: Call) -> Result<(), NoMemory>
        ensures added { OnOk result (IsAdded self.old.items call self.new.items) }
        ensures refused { OnErr result (self.new.items ≡ self.old.items) }
    {
        if self.list.len() < LOOKED_THROUGH {
            self.add_early(call)
        } else {
            self.add_later(call)
        }
    }

    /// The place of an item, where it is listed.
    #[inline(always)]
    pub fn place_of(&self, item: Item) -> Option<usize>
        ensures { MatchOption result (IsListed self.now.items item → ⊥)
            (λ k. (k < length self.now.items) × ((d : Listed) → (slice_index_or self.now.items k d).item ≡ item)) }
    {
        place_among(self.list.as_slice(), self.rows.as_slice(), item)
    }

    /// The place of an item, where it is listed: the hint where it stands there, else what the table tells.
    #[inline(always)]
    pub fn place_near(&self, item: Item, hint: usize) -> Option<usize>
        ensures { MatchOption result (IsListed self.now.items item → ⊥)
            (λ k. (k < length self.now.items) × ((d : Listed) → (slice_index_or self.now.items k d).item ≡ item)) }
    {
        if stands_at(self.list.as_slice(), hint, item) {
            Some(hint)
        } else {
            self.place_of(item)
        }
    }

    /// The call of an item, where it is listed. It is looked for at the hint first.
    #[inline(always)]
    pub fn call_near(&self, item: Item, hint: usize) -> Option<Call>
        ensures { MatchOption result (IsListed self.now.items item → ⊥)
            (λ call. Contains self.now.items call × (call.item ≡ item)) }
    {
        match self.place_near(item, hint) {
            Some(k) => Some(self.list.as_slice()[k]),
            None => None,
        }
    }

    /// Whether the item is listed.
    #[inline(always)]
    pub fn is_listed(&self, item: Item) -> bool
        ensures { IsTrue result ↔ IsListed self.now.items item }
    {
        match self.place_of(item) {
            Some(_) => true,
            None => false,
        }
    }

    /// Whether the item is listed as one that has run.
    #[inline(always)]
    pub fn has_run(&self, item: Item) -> bool
        ensures { IsTrue result ↔ IsMarked self.now.items item }
    {
        match self.place_of(item) {
            Some(k) => self.list.as_slice()[k].ran,
            None => false,
        }
    }
}
