//! `Front`: the first signals of a pool, known by one of each kind.
ghost use Rattle.std.specs.Prelude.{◌≡◌, ◌≤◌, ◌<◌, ◌+◌, ℕ, [], length, Contains, IsTrue, IfOk, MatchBool, Some, None};
ghost use Rattle.pssm_pool.specs.declared.front.Kind.{Kind as AKind};
ghost use Rattle.pssm_links.specs.Chained.{list_of, slot_at, IsSlotAt};
ghost use Rattle.pssm_pool.specs.inner.Fronts.{IsFront, AreKinds, IsKnownBy, IsEmpty, AreEmpty};

use crate::alike::are_alike;
use crate::pools::Waiting;
use pssm_links::{Chains, SlotId};
use std::alloc::{AllocError as NoMemory, Global};

/// The most kinds that are kept of a front.
const KINDS: usize = 32;

/// The first signal of a kind, and its place in the pool. Signals that are alike are of one kind.
#[derive(Clone, Copy, Drop)]
pub struct Kind {
    pub slot: SlotId,
    pub place: u32,
}

/// So many of the first signals of a pool: the first of each of their kinds in the order of the pool, and the slot of the
/// last of them.
#[derive(Drop)]
pub struct Front {
    pub kinds: Vec<Kind>,
    pub count: u32,
    pub end: Option<SlotId>,
}

/// Fronts of so many pools, all empty.
pub fn new_fronts(alloc: Global, pools: u8) -> Result<Vec<Front>, NoMemory>
    ensures count { IfOk result (λ fronts. length fronts.items ≡ pools) }
    ensures empty { IfOk result (λ fronts. AreEmpty fronts.items) }
{
    let mut fronts = Vec::with_capacity(alloc, usize::from(pools))?;
    for _ in 0..pools {
        fronts.push(Front::new(alloc)?)?;
    }
    Ok(fronts)
}

/// All fronts are emptied.
pub fn clear_all(fronts: &mut Vec<Front>)
    ensures count { length fronts.new.items ≡ length fronts.old.items }
    ensures empty { AreEmpty fronts.new.items }
{
    for i in 0..fronts.as_slice().len() {
        fronts[i].clear();
    }
}

impl Front {
    // A front of no signals.
    fn new(alloc: Global) -> Result<Front, NoMemory>
        ensures { IfOk result IsEmpty }
    {
        Ok(Front {
            kinds: Vec::with_capacity(alloc, KINDS)?,
            count: 0,
            end: None,
        })
    }

    // It has no signals any more.
    fn clear(&mut self)
        ensures { IsEmpty self.new }
    {
        self.kinds.clear();
        self.count = 0;
        self.end = None;
    }

    /// The slot of the first signal behind the front, if there is one.
    #[inline(always)]
    pub fn behind(&self, chains: &Chains<Waiting>, list: u32) -> Option<SlotId>
        requires list { list < length chains.now.lists }
        requires front { IsFront (list_of chains.now.lists list) self.now }
        ensures { result ≡ slot_at chains.now.lists list self.now.count }
    {
        match self.end {
            Some(slot) => chains.next(slot),
            None => chains.first(list),
        }
    }

    /// Whether the front has no signals, and this is the slot of the first of the pool.
    #[inline(always)]
    pub fn is_before(&self, chains: &Chains<Waiting>, list: u32, slot: SlotId) -> bool
        requires { list < length chains.now.lists }
        ensures { IsTrue result → self.now.count ≡ 0 }
    {
        self.count == 0 && chains.first(list) == Some(slot)
    }

    /// Makes ready for the signal in the slot to leave: the front goes on up to it, or has no signals any more. It has none
    /// where the signal is one of it, which is then the first of its kind.
    #[inline(always)]
    pub fn let_go(&mut self, chains: &Chains<Waiting>, list: u32, slot: SlotId)
        requires list { list < length chains.now.lists }
        requires front { IsFront (list_of chains.now.lists list) self.old }
        ensures front { IsFront (list_of chains.now.lists list) self.new }
        ensures ahead { (k : ℕ) → IsSlotAt chains.now.lists slot list k → self.new.count ≤ k }
    {
        if self.begins(slot) {
            self.clear();
        } else {
            self.pass_by(chains, list, slot);
        }
    }

    // Whether a kind begins at the slot.
    fn begins(&self, slot: SlotId) -> bool
        ensures { IsTrue result → (kind : AKind) × (Contains self.now.kinds.items kind × (kind.slot ≡ slot)) }
    {
        for i in 0..self.kinds.as_slice().len() {
            if self.kinds[i].slot == slot {
                return true;
            }
        }
        false
    }

    // The front goes on up to the signal in the slot; where it is not met, it has no signals any more.
    #[inline(always)]
    fn pass_by(&mut self, chains: &Chains<Waiting>, list: u32, slot: SlotId)
        requires list { list < length chains.now.lists }
        requires front { IsFront (list_of chains.now.lists list) self.old }
        ensures front { IsFront (list_of chains.now.lists list) self.new }
        ensures ahead { (k : ℕ) → IsSlotAt chains.now.lists slot list k → self.new.count ≤ k }
    {
        chains.own_slots();
        if !self.go_on(chains, list, slot) {
            self.clear();
        }
    }

    // The front goes on up to the signal in the slot; whether it was met.
    #[inline(never)]
    fn go_on(&mut self, chains: &Chains<Waiting>, list: u32, to: SlotId) -> bool
        requires list { list < length chains.now.lists }
        requires front { IsFront (list_of chains.now.lists list) self.old }
        ensures front { IsFront (list_of chains.now.lists list) self.new }
        ensures met { IsTrue result → IsSlotAt chains.now.lists to list self.new.count }
    {
        let mut next = self.behind(chains, list);
        while let Some(slot) = next {
            if slot == to {
                return true;
            }
            if !self.add(chains, list, slot) {
                return false;
            }
            next = chains.next(slot);
        }
        false
    }

    // The first signal behind the front comes to it, but where it is of a kind more than are kept.
    fn add(&mut self, chains: &Chains<Waiting>, list: u32, slot: SlotId) -> bool
        requires front { IsFront (list_of chains.now.lists list) self.old }
        requires next { IsSlotAt chains.now.lists slot list self.old.count }
        ensures front { IsFront (list_of chains.now.lists list) self.new }
        ensures added { IsTrue result → self.new.count ≡ self.old.count + 1 }
    {
        chains.own_slots();
        if !self.learn(chains, list, slot) {
            return false;
        }
        self.count += 1;
        self.end = Some(slot);
        true
    }

    // Whether the kind of the first signal behind the front is kept. It is kept where there is room for it.
    fn learn(&mut self, chains: &Chains<Waiting>, list: u32, slot: SlotId) -> bool
        requires kinds { AreKinds (list_of chains.now.lists list) self.old.kinds.items self.old.count }
        requires next { IsSlotAt chains.now.lists slot list self.old.count }
        ensures kinds { MatchBool result
            (AreKinds (list_of chains.now.lists list) self.new.kinds.items (self.old.count + 1))
            (AreKinds (list_of chains.now.lists list) self.new.kinds.items self.old.count) }
        ensures count { self.new.count ≡ self.old.count }
        ensures end { self.new.end ≡ self.old.end }
    {
        if self.knows(chains, list, chains.get(slot)) {
            return true;
        }
        if self.kinds.as_slice().len() == self.kinds.capacity() {
            return false;
        }
        self.kinds.push_reserved(Kind {
            slot,
            place: self.count,
        });
        true
    }

    // Whether a signal of the kind is kept.
    fn knows(&self, chains: &Chains<Waiting>, list: u32, waiting: &Waiting) -> bool
        requires { AreKinds (list_of chains.now.lists list) self.now.kinds.items self.now.count }
        ensures { IsTrue result
            → IsKnownBy (list_of chains.now.lists list) self.now.kinds.items self.now.count waiting.now }
    {
        for i in 0..self.kinds.as_slice().len() {
            if are_alike(chains.get(self.kinds[i].slot), waiting) {
                return true;
            }
        }
        false
    }
}
