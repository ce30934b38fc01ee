//! The elements of a kind, and the place of each among them.
ghost use Rattle.std.specs.Prelude.{◌≡◌, ◌<◌, ◌≤◌, ◌+◌, ◌++◌, ◌∷◌, [], Some, None, cond, length, IfOk, OnOk};
ghost use Rattle.pssm_numbering.specs.Numbering.{with_role, children_with, place_in};
ghost use Rattle.pssm_numbering.specs.Kinds.{is_of as of_kind};
ghost use Rattle.pssm_numbering.specs.inner.Tables.{AreListed, HoldsList, has_role, found_place};

use crate::file::File;
use crate::kinds::{Kind, is_of};
use std::alloc::{AllocError as NoMemory, Global};

// The elements of a kind in document order, and for each element its place among them.
#[derive(Drop)]
pub(crate) struct Listing {
    pub(crate) list: Vec<u32>,
    pub(crate) places: Vec<Option<u32>>,
}

// Adds a number that passes.
fn with_number(list: Vec<u32>, n: u32, passes: bool) -> Result<Vec<u32>, NoMemory>
    ensures { IfOk result (λ more. more.items ≡ list.items ++ cond passes (n ∷ []) []) }
{
    let mut more = list;
    if passes {
        more.push(n)?;
    }
    Ok(more)
}

/// The elements of a kind, in document order.
#[tactic(auto, using(crate::proofs::ListLaws::first_more))]
pub fn with_kind(alloc: Global, file: &File, kind: Kind) -> Result<Vec<u32>, NoMemory>
    ensures { IfOk result (λ list. list.items ≡ with_role (of_kind kind) file.now) }
{
    let mut list = Vec::new(alloc);
    for n in 0..file.len() {
        list = with_number(list, n, is_of(kind, file.role(n)))?;
    }
    Ok(list)
}

/// The children of an element that are of a kind, in document order. It takes as many steps as the element has
/// children.
pub fn children_of_kind(
    alloc: Global,
    file: &File,
    p: u32,
    kind: Kind,
) -> Result<Vec<u32>, NoMemory>
    requires { p < length file.now.doc }
    ensures { IfOk result (λ list. list.items ≡ children_with (of_kind kind) file.now p) }
{
    let mut list = Vec::new(alloc);
    let mut next = file.first_child(p);
    'children: while let Some(child) = next {
        list = with_number(list, child, is_of(kind, file.role(child)))?;
        next = file.next_sibling(child);
    }
    Ok(list)
}

// Adds an element.
fn with_taken(listing: Listing, n: u32) -> Result<Listing, NoMemory>
    requires { length listing.list.items ≤ n }
    ensures list { IfOk result (λ more. more.list.items ≡ listing.list.items ++ n ∷ []) }
    ensures places { IfOk result (λ more.
        more.places.items ≡ listing.places.items ++ Some (length listing.list.items) ∷ []) }
{
    let mut list = listing.list;
    let mut places = listing.places;
    places.push(Some(list.len() as u32))?;
    list.push(n)?;
    Ok(Listing { list, places })
}

// Notes that an element is not listed.
fn with_passed(listing: Listing) -> Result<Listing, NoMemory>
    ensures list { IfOk result (λ more. more.list.items ≡ listing.list.items) }
    ensures places { IfOk result (λ more. more.places.items ≡ listing.places.items ++ None ∷ []) }
{
    let mut places = listing.places;
    places.push(None)?;
    Ok(Listing {
        list: listing.list,
        places,
    })
}

// Adds the next element, where it is of the kind.
fn with_next(listing: Listing, file: &File, kind: Kind, n: u32) -> Result<Listing, NoMemory>
    requires within { n < length file.now.doc }
    requires so_far { AreListed (has_role (of_kind kind) file.now) n listing.list.items listing.places.items }
    ensures { IfOk result (λ more.
        AreListed (has_role (of_kind kind) file.now) (n + 1) more.list.items more.places.items) }
{
    if is_of(kind, file.role(n)) {
        with_taken(listing, n)
    } else {
        with_passed(listing)
    }
}

// All elements of a kind, and the place of each.
pub(crate) fn listing_of(alloc: Global, file: &File, kind: Kind) -> Result<Listing, NoMemory>
    ensures { IfOk result (λ listing. HoldsList file.now (of_kind kind) listing.list.items listing.places.items) }
{
    let mut listing = Listing {
        list: Vec::new(alloc),
        places: Vec::new(alloc),
    };
    for n in 0..file.len() {
        listing = with_next(listing, file, kind, n)?;
    }
    let _ = file.roles();
    Ok(listing)
}

// The place of an element among those that are listed; past their end where it is not.
pub(crate) fn place_of(listing: &Listing, n: u32) -> u32
    requires within { n < length listing.now.places.items }
    requires short { length listing.now.list.items ≤ 16777216 }
    ensures { result ≡ found_place listing.now.list.items listing.now.places.items n }
{
    match listing.places[n as usize] {
        Some(place) => place,
        None => listing.list.len() as u32,
    }
}
