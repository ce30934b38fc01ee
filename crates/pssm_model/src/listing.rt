//! What stands where in a draft, listed by number: each kind of list is made in one pass.
ghost use Rattle.std.specs.Prelude.{◌≡◌, ◌↔◌, ◌++◌, ◌∷◌, [], ◌<◌, ℕ, All, AllPairs, Contains, length, slice_set, IfOk, OnOk, MatchOption};
ghost use Rattle.pssm_model.specs.Shapes.{HasShape};
ghost use Rattle.pssm_model.specs.inner.Listed.{IsListed, AreLists, list_at, count_of as count_in, width_of as width_in};

use crate::elements::{DraftMachine, Guard, Owner, VertexKind};
use crate::ids::{RegionId, TransId, VertexId};
use crate::row::Row;
use std::alloc::{AllocError as NoMemory, Global};

/// What is listed, and where: transitions at their sources or targets, those with `else` at their sources, regions at the States that own them, the top
/// regions at 0, and the vertices of a kind at the regions that own them.
#[derive(Clone, Copy)]
pub enum Listing {
    Outgoing,
    Incoming,
    Elses,
    Regions,
    TopRegions,
    Vertices(VertexKind),
}

/// What is named by a number.
pub trait Numbered: Drop {
    ghost number_of: { Self → ℕ };

    /// What the number names.
    fn numbered(number: u16) -> Self
        ensures { number_of result ≡ number };

    // A number names one thing.
    ghost only: { (a b : Self) → number_of a ≡ number_of b → a ≡ b };
}

impl Numbered for TransId {
    ghost use Rattle.std.proofs.Common.{ap};
    ghost use Rattle.pssm_model.specs.inner.Listed.{transition_number};

    ghost number_of = { λ t. t.0 };

    ghost only = { λ a b e. ap transition_number e };

    fn numbered(number: u16) -> TransId {
        TransId(number)
    }
}

impl Numbered for RegionId {
    ghost use Rattle.std.proofs.Common.{ap};
    ghost use Rattle.pssm_model.specs.inner.Listed.{region_number};

    ghost number_of = { λ r. r.0 };

    ghost only = { λ a b e. ap region_number e };

    fn numbered(number: u16) -> RegionId {
        RegionId(number)
    }
}

impl Numbered for VertexId {
    ghost use Rattle.std.proofs.Common.{ap};
    ghost use Rattle.pssm_model.specs.inner.Listed.{vertex_number};

    ghost number_of = { λ v. v.0 };

    ghost only = { λ a b e. ap vertex_number e };

    fn numbered(number: u16) -> VertexId {
        VertexId(number)
    }
}

/// How many there are to be listed.
fn count_of(draft: &DraftMachine, listing: Listing) -> u16
    requires { HasShape draft.now }
    ensures { result ≡ count_in draft.now listing }
{
    match listing {
        Listing::Outgoing | Listing::Incoming | Listing::Elses => {
            draft.transitions.as_slice().len() as u16
        }
        Listing::Regions | Listing::TopRegions => draft.regions.as_slice().len() as u16,
        Listing::Vertices(_) => draft.vertices.as_slice().len() as u16,
    }
}

/// How many lists there are.
fn width_of(draft: &DraftMachine, listing: Listing) -> usize
    ensures { result ≡ width_in draft.now listing }
{
    match listing {
        Listing::Outgoing | Listing::Incoming | Listing::Elses | Listing::Regions => {
            draft.vertices.as_slice().len()
        }
        Listing::TopRegions => 1,
        Listing::Vertices(_) => draft.regions.as_slice().len(),
    }
}

/// The source of the transition with the number, where that has `else`.
fn source_with(draft: &DraftMachine, number: u16) -> Option<u16>
    requires { number < length draft.now.transitions }
    ensures { MatchOption result ((k : ℕ) → IsListed draft.now Listing.Elses k number → ⊥)
        (λ k. IsListed draft.now Listing.Elses k number) }
{
    let transition = &draft.transitions.as_slice()[number as usize];
    if transition.guard == Guard::Otherwise {
        return Some(transition.source.0);
    }
    None
}

/// The State of the region with the number, where it has one.
fn state_with(draft: &DraftMachine, number: u16) -> Option<u16>
    requires { number < length draft.now.regions }
    ensures { MatchOption result ((k : ℕ) → IsListed draft.now Listing.Regions k number → ⊥)
        (λ k. IsListed draft.now Listing.Regions k number) }
{
    match draft.regions.as_slice()[number as usize] {
        Owner::State(state) => Some(state.0),
        Owner::Region(_) | Owner::Top => None,
    }
}

/// 0, where the region with the number is a top region.
fn top_with(draft: &DraftMachine, number: u16) -> Option<u16>
    requires { number < length draft.now.regions }
    ensures { MatchOption result ((k : ℕ) → IsListed draft.now Listing.TopRegions k number → ⊥)
        (λ k. IsListed draft.now Listing.TopRegions k number) }
{
    match draft.regions.as_slice()[number as usize] {
        Owner::Top => Some(0),
        Owner::Region(_) | Owner::State(_) => None,
    }
}

/// The region that owns the vertex with the number, where that is of the kind.
fn region_with(draft: &DraftMachine, number: u16, kind: VertexKind) -> Option<u16>
    requires { number < length draft.now.vertices }
    ensures { MatchOption result ((k : ℕ) → IsListed draft.now (Listing.Vertices kind) k number → ⊥)
        (λ k. IsListed draft.now (Listing.Vertices kind) k number) }
{
    let vertex = &draft.vertices.as_slice()[number as usize];
    if vertex.kind != kind {
        return None;
    }
    match vertex.owner {
        Owner::Region(region) => Some(region.0),
        Owner::Top | Owner::State(_) => None,
    }
}

/// Where what has the number is listed, if anywhere.
fn place_of(draft: &DraftMachine, listing: Listing, number: u16) -> Option<u16>
    requires { number < count_in draft.now listing }
    ensures { MatchOption result ((k : ℕ) → IsListed draft.now listing k number → ⊥)
        (λ k. IsListed draft.now listing k number) }
{
    match listing {
        Listing::Outgoing => Some(draft.transitions.as_slice()[number as usize].source.0),
        Listing::Incoming => Some(draft.transitions.as_slice()[number as usize].target.0),
        Listing::Elses => source_with(draft, number),
        Listing::Regions => state_with(draft, number),
        Listing::TopRegions => top_with(draft, number),
        Listing::Vertices(kind) => region_with(draft, number, kind),
    }
}

/// An empty list for each number.
fn empty_lists<T: Drop>(alloc: Global, count: usize) -> Result<Vec<Row<T>>, NoMemory>
    ensures width { IfOk result (λ lists. length lists.items ≡ count) }
    ensures blank { IfOk result (λ lists. (k : ℕ) → list_at lists.items k ≡ []) }
{
    let mut lists = Vec::with_capacity(alloc, count)?;
    for _number in 0..count {
        lists.push(Row::from_vec(Vec::new(alloc)))?;
    }
    Ok(lists)
}

/// Puts an item at the end of the list of a number.
fn put<T: Drop>(lists: &mut Vec<Row<T>>, place: u16, item: T) -> Result<(), NoMemory>
    requires { place < length lists.old.items }
    ensures { OnOk result (lists.new.items ≡ slice_set lists.old.items place (list_at lists.old.items place ++ item ∷ [])) }
{
    let list = &mut lists[place as usize];
    list.push(item)
}

/// The lists of a draft that has the shape of a machine.
pub fn lists_of<T: Numbered>(
    alloc: Global,
    draft: &DraftMachine,
    listing: Listing,
) -> Result<Row<Row<T>>, NoMemory>
    requires { HasShape draft.now }
    ensures { IfOk result
        (λ lists. AreLists T.number_of (width_in draft.now listing) (IsListed draft.now listing) lists) }
{
    let mut lists = empty_lists(alloc, width_of(draft, listing))?;
    for number in 0..count_of(draft, listing) {
        match place_of(draft, listing, number) {
            Some(place) => put(&mut lists, place, T::numbered(number))?,
            None => {}
        }
    }
    Ok(Row::from_vec(lists))
}

/// The list at a place.
pub fn list_of<'a, T: Numbered>(
    draft: &DraftMachine,
    listing: Listing,
    lists: &'a Row<Row<T>>,
    place: u16,
) -> &'a [T]
    requires shape { HasShape draft.now }
    requires lists { AreLists T.number_of (width_in draft.now listing) (IsListed draft.now listing) lists.now }
    requires place { place < width_in draft.now listing }
    ensures items { (x : T) → Contains result.now x ↔ IsListed draft.now listing place (T.number_of x) }
    ensures there { All (λ x. T.number_of x < count_in draft.now listing) result.now }
    ensures ascending { AllPairs (λ x y. T.number_of x < T.number_of y) result.now }
{
    lists.as_slice()[place as usize].as_slice()
}
