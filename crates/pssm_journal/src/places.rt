//! Where names stand among those of their kind.
ghost use Rattle.std.specs.Prelude.{◌≡◌, ℕ, List, IfOk, OnOk};
ghost use Rattle.pssm_journal.specs.inner.Places.{place_in, place_noted, HoldsPlaces};

use indexmap::{Equivalent, IndexMap};
use pssm_model::Text;
use pssm_semantics::{ObjectDecl, SignalDecl};
use pssm_spelling::{KeptName, LentName};
use std::alloc::{AllocError as NoMemory, Global};

/// What has a name.
pub trait Named {
    ghost name_of: { Self → List ℕ };

    fn name(&self) -> &[u8]
        ensures { result.now ≡ name_of self.now };
}

impl Named for ObjectDecl {
    ghost name_of = { λ d. d.name };

    fn name(&self) -> &[u8] {
        self.name.as_slice()
    }
}

impl Named for SignalDecl {
    ghost name_of = { λ d. d.name };

    fn name(&self) -> &[u8] {
        self.name.as_slice()
    }
}

impl Named for Text {
    ghost name_of = { λ t. t };

    fn name(&self) -> &[u8] {
        self.as_slice()
    }
}

// Among at most so many names one is found sooner by comparing them than by its hash.
const FEW: usize = 4;

// The place of a name among few, which are compared one after another.
fn place_among_few(places: &IndexMap<KeptName, usize>, name: &[u8]) -> Option<usize>
    ensures { result ≡ place_in places.now name.now }
{
    let sought = LentName { bytes: name };
    for (kept, place) in places.iter() {
        if sought.equivalent(kept) {
            return Some(*place);
        }
    }
    None
}

/// The place of a name.
pub fn place_of(places: &IndexMap<KeptName, usize>, name: &[u8]) -> Option<usize>
    ensures { result ≡ place_in places.now name.now }
{
    if places.len() <= FEW {
        place_among_few(places, name)
    } else {
        places.get(LentName { bytes: name }).copied()
    }
}

// Notes a name with its place, unless it has one.
#[tactic(auto, using(crate::proofs::PlaceLaws::noted_before, crate::proofs::PlaceLaws::noted_now))]
fn note(
    alloc: Global,
    places: &mut IndexMap<KeptName, usize>,
    name: &[u8],
    place: usize,
) -> Result<(), NoMemory>
    ensures { OnOk result ((other : List ℕ) → place_in places.new other
        ≡ place_noted (place_in places.old other) name.now place other) }
{
    if place_of(places, name).is_none() {
        places.insert(KeptName::of(alloc, name)?, place)?;
    }
    Ok(())
}

/// The place of each name among these things, the first where several have it. The names stand in the order in which
/// they are first seen: where all differ, the place of each is its index.
pub fn places_of<T: Named>(
    alloc: Global,
    named: &[T],
) -> Result<IndexMap<KeptName, usize>, NoMemory>
    ensures { IfOk result (λ places. HoldsPlaces T.name_of named.now places) }
{
    let mut places = IndexMap::with_capacity(alloc, named.len())?;
    let mut place = 0;
    while place < named.len() {
        note(alloc, &mut places, named[place].name(), place)?;
        place += 1;
    }
    Ok(places)
}
