//! The firing of a brief take, in the room of an earlier one.
ghost use Rattle.std.specs.Prelude.{◌≡◌, ◌∷◌, [], IfOk, IsTrue};
ghost use Rattle.pssm_lines.specs.Parts.{firing_of_one};

use pssm_journal::{Entry, firing_of};
use pssm_model::{Firing, Route, Row, TransId};
use std::alloc::{AllocError as NoMemory, Global};
use std::mem;

/// The firing of one route that has one start alone. It takes over the room of the spare one, where that is such a
/// firing too.
#[inline(always)]
pub fn firing_in(alloc: Global, spare: Option<Firing>, start: TransId) -> Result<Firing, NoMemory>
    ensures { IfOk result (λ firing. firing ≡ firing_of_one start) }
{
    let Some(Firing { routes }) = spare else {
        return firing_of(alloc, start);
    };
    let mut routes = routes.into_vec();
    if start_anew(alloc, routes.as_mut_slice(), start) {
        Ok(Firing {
            routes: Row::from_vec(routes),
        })
    } else {
        firing_of(alloc, start)
    }
}

// Gives the start to one route that has one start alone; where it is not such a route, it says so.
#[inline(always)]
fn start_anew(alloc: Global, routes: &mut [Route], start: TransId) -> bool
    ensures { IsTrue result → routes.new ≡ (firing_of_one start).routes }
{
    if routes.len() != 1 {
        return false;
    }
    let route = &mut routes[0];
    start_route(alloc, route, start)
}

// The same for the route itself.
#[inline(always)]
fn start_route(alloc: Global, route: &mut Route, start: TransId) -> bool
    ensures starts { IsTrue result → route.new.starts ≡ start ∷ [] }
    ensures rest { IsTrue result → route.new.rest ≡ [] }
{
    if !route.rest.as_slice().is_empty() {
        return false;
    }
    let none = Row::from_vec(Vec::new(alloc));
    let mut starts = mem::replace(&mut route.starts, none).into_vec();
    let alone = put_alone(starts.as_mut_slice(), start);
    route.starts = Row::from_vec(starts);
    alone
}

// Puts the start in the place of the only one; where there is not one alone, it says so.
#[inline(always)]
fn put_alone(starts: &mut [TransId], start: TransId) -> bool
    ensures { IsTrue result → starts.new ≡ start ∷ [] }
{
    if starts.len() != 1 {
        return false;
    }
    starts[0] = start;
    true
}

/// The firing of a take.
#[inline(always)]
pub fn firing_out(entry: Entry) -> Option<Firing> {
    match entry {
        Entry::Take { firing, .. } => Some(firing),
        other => {
            drop(other);
            None
        }
    }
}
