//! Which of the listed items are ready.
ghost use Rattle.std.specs.Prelude.{◌≡◌, ◌<◌, ◌^◌, length, IfSome, IfNone, if◌then◌else◌};
ghost use Rattle.std.specs.List.{filter};
ghost use Rattle.pssm_plan.specs.Standings.{stands_ready, ready_before, IsItemAt, IsNextReady};

use crate::roster::Call;
use pssm_model::Item;

/// A ready item, and the place behind it in the plan's list.
#[derive(Clone, Copy, PartialEq, Eq)]
pub struct ReadyItem {
    pub item: Item,
    pub behind: u32,
}

// Whether the call is of an item that is ready.
fn is_ready(call: Call) -> bool
    ensures { result ≡ stands_ready call }
{
    !call.ran && !call.blocked
}

// One for a ready item, and nothing for another.
fn one_if_ready(call: Call) -> u32
    ensures { result ≡ (if stands_ready call then 1 else 0) }
{
    if is_ready(call) { 1 } else { 0 }
}

/// How many of the items are ready.
pub fn count_ready(calls: &[Call]) -> u32
    requires { length calls.now < 2 ^ 32 }
    ensures { result ≡ length (filter stands_ready calls.now) }
{
    let mut count = 0;
    for call in calls {
        count += one_if_ready(*call);
    }
    count
}

/// The ready item with a number, in the order of the list.
pub fn ready_item(calls: &[Call], i: u32) -> Item
    requires { i < length (filter stands_ready calls.now) }
    ensures { IsItemAt (filter stands_ready calls.now) i result }
{
    let mut rest = i;
    for call in calls {
        let one = one_if_ready(*call);
        if rest < one {
            return call.item;
        }
        rest -= one;
    }
    unreachable!()
}

/// The first ready item from a place of the list on, if there is one.
#[inline(always)]
pub fn next_ready(calls: &[Call], place: u32) -> Option<ReadyItem>
    requires { length calls.now < 2 ^ 32 }
    ensures some { IfSome result (IsNextReady calls.now place) }
    ensures none { IfNone result (ready_before calls.now place ≡ length (filter stands_ready calls.now)) }
{
    for k in place as usize..calls.len() {
        if is_ready(calls[k]) {
            return Some(ReadyItem {
                item: calls[k].item,
                behind: k as u32 + 1,
            });
        }
    }
    None
}
