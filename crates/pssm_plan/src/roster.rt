//! The items that a step calls.
ghost use Rattle.std.specs.Prelude.{◌≡◌, ◌≢◌, ◌↔◌, ◌<◌, ◌≤◌, ◌^◌, [], length, slice_index_or};
ghost use Rattle.std.specs.Prelude.{IsTrue, AllPairs, IfSome, MatchOption, Contains, OnOk};
ghost use Rattle.pssm_model.specs.declared.steps.Item.{Item};
ghost use Rattle.pssm_plan.specs.declared.roster.Call.{Call};
ghost use Rattle.pssm_plan.specs.inner.Marks.{IsListed, IsLonger, IsTold, AreForgotten, AreRunUpTo, IsPlaceOf, ArePairwise};
ghost use Rattle.pssm_legs.specs.Calls.{IsItemIn};
ghost use Rattle.pssm_plan.specs.inner.Sequence.{IsRoster, IsExtended};

use crate::calls::Calls;
use pssm_model::{Item, Machine};
use std::alloc::{AllocError as NoMemory, Global};

/// An item that a step calls: whether it has run, and whether an item that comes before it has not.
///
/// It looks from its own place down to the first call, and then at those behind its own. None that it meets before the
/// place that it has seen holds it up. Where it is blocked, the call at that place does; else it has seen them all.
#[derive(Clone, Copy)]
pub struct Call {
    pub item: Item,
    pub ran: bool,
    pub blocked: bool,
    pub seen: u32,
}

/// Whether two items are one and the same.
#[inline(always)]
pub fn same_item(a: Item, b: Item) -> bool
    ensures { IsTrue result ↔ (a ≡ b) }
{
    a == b
}

/// The call at a place of the list, where it has as many.
pub fn call_at(calls: &[Call], place: u32) -> Option<Call>
    ensures { MatchOption result (length calls.now ≤ place)
        (λ call. (place < length calls.now) × (slice_index_or calls.now place call ≡ call)) }
{
    match calls.get(place as usize) {
        Some(call) => Some(*call),
        None => None,
    }
}

// Whether the call at a place has not run.
#[inline(always)]
fn waits_at(calls: &[Call], place: usize) -> bool
    requires { place < length calls.now }
    ensures waits { IsTrue result → ((call : Call) → Contains calls.now call → IsTrue call.ran) → ⊥ }
    ensures ran { (IsTrue result → ⊥) → (d : Call) → IsTrue (slice_index_or calls.now place d).ran }
{
    !calls[place].ran
}

// Whether the last call has not run.
#[inline(always)]
fn last_waits(calls: &[Call]) -> bool
    ensures { IsTrue result → ((call : Call) → Contains calls.now call → IsTrue call.ran) → ⊥ }
{
    !calls.is_empty() && waits_at(calls, calls.len() - 1)
}

/// Whether all listed items have run. The last one is asked first, which most often runs last.
pub fn have_all_run(calls: &[Call]) -> bool
    ensures { IsTrue result ↔ ((call : Call) → Contains calls.now call → IsTrue call.ran) }
{
    if last_waits(calls) {
        return false;
    }
    for call in calls {
        if !call.ran {
            return false;
        }
    }
    true
}

// Says of the call of an item, which stands at this place where it is listed, that it has run. The result is that
// place; the place behind all where the item is not listed.
#[inline(always)]
fn tell_at(calls: &mut [Call], item: Item, place: Option<usize>) -> usize
    requires once { AllPairs (λ a b. a.item ≢ b.item) calls.old }
    requires place { MatchOption place (IsListed calls.old item → ⊥)
        (λ k. (k < length calls.old) × ((d : Call) → (slice_index_or calls.old k d).item ≡ item)) }
    ensures told { ArePairwise (IsTold item) calls.old calls.new }
    ensures place { IsPlaceOf calls.old item result }
{
    match place {
        Some(k) => {
            calls[k].ran = true;
            k
        }
        None => calls.len(),
    }
}

/// The first place from this one on at which a call stands that has not run; the place behind all where there is none.
#[inline(always)]
pub fn done_from(calls: &[Call], from: usize) -> usize
    requires { AreRunUpTo calls.now from }
    ensures { AreRunUpTo calls.now result }
{
    for k in from..calls.len() {
        if waits_at(calls, k) {
            return k;
        }
    }
    calls.len()
}

// Says of each call that it has not looked at the others yet.
fn forget_all(calls: &mut [Call])
    requires { length calls.old < 2 ^ 32 }
    ensures { AreForgotten calls.old calls.new }
{
    for k in 0..calls.len() {
        calls[k] = Call {
            blocked: false,
            seen: k as u32,
            ..calls[k]
        };
    }
}

/// The items that a step calls, each once.
#[derive(Drop)]
pub struct Roster {
    pub calls: Calls,
}

impl Roster {
    /// A roster without items.
    pub fn new(alloc: Global) -> Roster
        ensures calls { result.calls.items ≡ [] }
    {
        Roster {
            calls: Calls::new(alloc),
        }
    }

    // Lists an item where it is not listed yet.
    #[inline(never)]
    fn add_wanted(&mut self, machine: &Machine, item: Item) -> Result<(), NoMemory>
        requires roster { IsRoster machine.now self.old.calls.items }
        requires item { IsItemIn machine.now item }
        ensures calls { IsLonger self.old.calls.items self.new.calls.items }
        ensures added { OnOk result (IsExtended machine.now self.old.calls.items (λ x. x ≡ item) self.new.calls.items) }
    {
        self.calls.add(Call {
            item,
            ran: false,
            blocked: false,
            seen: 0,
        })
    }

    /// Lists an item where it is wanted and not listed yet.
    #[inline(always)]
    pub fn add(&mut self, machine: &Machine, item: Item, wanted: bool) -> Result<(), NoMemory>
        requires roster { IsRoster machine.now self.old.calls.items }
        requires item { IsTrue wanted → IsItemIn machine.now item }
        ensures calls { IsLonger self.old.calls.items self.new.calls.items }
        ensures added { OnOk result (IsExtended machine.now self.old.calls.items
            (λ x. IsTrue wanted × (x ≡ item)) self.new.calls.items) }
    {
        if wanted {
            self.add_wanted(machine, item)
        } else {
            Ok(())
        }
    }

    /// Says of each item that it has not looked at the others yet.
    pub fn forget(&mut self)
        requires few { length self.old.calls.items < 2 ^ 32 }
        ensures forgot { AreForgotten self.old.calls.items self.new.calls.items }
    {
        let calls = &mut self.calls;
        forget_all(calls.list.as_mut_slice());
    }

    /// Says of an item that it has run, and at which place it stands; the place behind all where it is not listed. It
    /// is looked for at the hint first.
    #[inline(always)]
    pub fn tell(&mut self, item: Item, hint: usize) -> usize
        requires once { AllPairs (λ a b. a.item ≢ b.item) self.old.calls.items }
        ensures told { ArePairwise (IsTold item) self.old.calls.items self.new.calls.items }
        ensures place { IsPlaceOf self.old.calls.items item result }
    {
        let place = self.calls.place_near(item, hint);
        let calls = &mut self.calls;
        tell_at(calls.list.as_mut_slice(), item, place)
    }
}
