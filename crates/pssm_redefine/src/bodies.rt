//! The bodies of a flattened machine in the order of the file, and their numbers.
ghost use Rattle.std.specs.Prelude.{◌≡◌, ◌<◌, ◌≤◌, All, IsSome, IfOk, length};
ghost use Rattle.std.specs.Option.{option_copied};
ghost use Rattle.pssm_redefine.specs.Bodies.{body_in, places_from, empty_body, IsOrder, AreBodies};
ghost use Rattle.pssm_redefine.specs.inner.Gathered.{lent_bodies, AreNumbers};

use pssm_model::{Body, Text};
use std::alloc::{AllocError as NoMemory, Global};

// The most bodies that a machine has beside the empty one.
const MOST_BODIES: usize = 65535;

// Where a body stands: the byte of its element, and its slot.
#[derive(Clone, Copy, PartialEq, Eq, PartialOrd, Ord)]
pub(crate) struct Place {
    pub(crate) at: u32,
    pub(crate) slot: usize,
}

// A second body like this one.
fn copy_of(alloc: Global, body: &Body) -> Result<Body, NoMemory>
    ensures { IfOk result (λ other. other ≡ body.now) }
{
    Ok(Body {
        id: body.id.copy(alloc)?,
        at: body.at,
        text: body.text.copy(alloc)?,
    })
}

// Where the bodies stand.
fn places_of(alloc: Global, slots: &[Option<&Body>]) -> Result<Vec<Place>, NoMemory>
    ensures { IfOk result (λ places. places.items ≡ places_from 0 (lent_bodies slots.now)) }
{
    let mut places = Vec::new(alloc);
    for (slot, given) in slots.iter().enumerate() {
        match given {
            Some(body) => places.push(Place { at: body.at, slot })?,
            None => {}
        }
    }
    Ok(places)
}

// The same in the order of the bodies.
pub(crate) fn order_of(alloc: Global, slots: &[Option<&Body>]) -> Result<Vec<Place>, NoMemory>
    ensures { IfOk result (λ order. IsOrder (lent_bodies slots.now) order.items) }
{
    let mut places = places_of(alloc, slots)?;
    places.sort_unstable();
    Ok(places)
}

// The number of each slot.
pub(crate) fn numbers_of(alloc: Global, width: usize, order: &[Place]) -> Result<Vec<u16>, NoMemory>
    requires few { length order.now ≤ MOST_BODIES }
    requires within { All (λ p. p.slot < width) order.now }
    ensures { IfOk result (λ numbers. AreNumbers width 1 order.now numbers.items) }
{
    let mut numbers = vec![in alloc; 0u16; width]?;
    for place in (0..order.len()).rev() {
        let slot = order[place].slot;
        numbers[slot] = (place + 1) as u16;
    }
    Ok(numbers)
}

// The empty body.
fn empty(alloc: Global) -> Body
    ensures { result ≡ empty_body }
{
    Body {
        id: Text::from_vec(Vec::new(alloc)),
        at: 0,
        text: Text::from_vec(Vec::new(alloc)),
    }
}

// The body in a slot, where one stands there.
#[tactic(auto, using(crate::proofs::BodyLaws::lent_in))]
fn body_at<'a>(slots: &[Option<&'a Body>], slot: usize) -> Option<&'a Body>
    ensures { option_copied result ≡ body_in (lent_bodies slots.now) slot }
{
    *slots.get(slot)?
}

// The bodies in this order, behind the empty one.
pub(crate) fn bodies_of(
    alloc: Global,
    slots: &[Option<&Body>],
    order: &[Place],
) -> Result<Vec<Body>, NoMemory>
    requires { All (λ p. IsSome (body_in (lent_bodies slots.now) p.slot)) order.now }
    ensures { IfOk result (λ bodies. AreBodies (lent_bodies slots.now) order.now bodies.items) }
{
    let mut bodies = Vec::new(alloc);
    bodies.push(empty(alloc))?;
    for place in order {
        if let Some(body) = body_at(slots, place.slot) {
            bodies.push(copy_of(alloc, body)?)?;
        }
    }
    Ok(bodies)
}
