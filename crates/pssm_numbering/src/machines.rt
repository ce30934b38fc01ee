//! The state machine of each element.
ghost use Rattle.std.specs.Prelude.{◌≡◌, ◌<◌, ◌≤◌, ◌+◌, ◌++◌, ◌∷◌, [], length, option_map, IfOk, IfSome};
ghost use Rattle.std.specs.List.{All};
ghost use Rattle.pssm_numbering.specs.Numbering.{machines, machine_of, place_in};
ghost use Rattle.pssm_numbering.specs.inner.Tables.{AreMachines};

use crate::file::File;
use crate::kinds::{Kind, is_of};
use crate::listing::{Listing, listing_of, place_of};
use std::alloc::{AllocError as NoMemory, Global};
use std::marker::Model;
use std::snapshot::Snapshot;

// The state machines of a file, and that of each element. A clause sees the file.
#[derive(Drop)]
pub(crate) struct Machines {
    file: Snapshot<File>,
    table: Vec<Option<u32>>,
    listing: Listing,
}

impl Model for Machines {
    ghost use Rattle.pssm_numbering.specs.Numbering.{ModelFile};
    ghost use Rattle.pssm_numbering.specs.inner.Tables.{HoldsMachines};

    ghost Value = { ModelFile };

    ghost view = { λ m. m.file.value };

    ghost invariant = { λ m. HoldsMachines m.file.value m.table.items m.listing.list.items m.listing.places.items };
}

// The machine of an element, where those of the elements before it are known.
fn machine_at(file: &File, table: &[Option<u32>], n: u32) -> Option<u32>
    requires within { n < length file.now.doc }
    requires before { AreMachines file.now n table.now }
    ensures { AreMachines file.now (n + 1) (table.now ++ result ∷ []) }
{
    if is_of(Kind::Machine, file.role(n)) {
        return Some(n);
    }
    match file.parent(n) {
        None => None,
        Some(parent) => table[parent as usize],
    }
}

// The machine of each element.
fn table_of(alloc: Global, file: &File) -> Result<Vec<Option<u32>>, NoMemory>
    ensures { IfOk result (λ table. AreMachines file.now (length file.now.doc) table.items) }
{
    let mut table = Vec::new(alloc);
    for n in 0..file.len() {
        let machine = machine_at(file, table.as_slice(), n);
        table.push(machine)?;
    }
    Ok(table)
}

impl Machines {
    // The machines of a file.
    pub(crate) fn of(alloc: Global, file: &File) -> Result<Self, NoMemory>
        ensures { IfOk result (λ m. m ≡ file.now) }
    {
        let table = table_of(alloc, file)?;
        let listing = listing_of(alloc, file, Kind::Machine)?;
        Ok(Machines {
            file: Snapshot::of(file),
            table,
            listing,
        })
    }

    // All of them, in document order.
    pub(crate) fn list(&self) -> &[u32]
        ensures list { result.now ≡ machines self.now }
        ensures within { All (λ n. n < length self.now.doc) result.now }
        ensures few { length result.now ≤ 16777216 }
    {
        self.listing.list.as_slice()
    }

    // Every element has a role, and there are not too many.
    pub(crate) fn known_sizes(&self)
        ensures roles { length self.now.roles ≡ length self.now.doc }
        ensures few { length self.now.doc ≤ 16777216 }
    {
        let _ = &self.listing;
    }

    // The machine of an element.
    pub(crate) fn machine_of(&self, n: u32) -> Option<u32>
        requires { n < length self.now.doc }
        ensures machine { result ≡ machine_of self.now n }
        ensures within { IfSome result (λ m. m < length self.now.doc) }
        ensures listed { IfSome result (λ m. place_in (machines self.now) m < length (machines self.now)) }
    {
        self.table[n as usize]
    }

    // The place of an element among the machines; past their end where it is none.
    pub(crate) fn place(&self, n: u32) -> u32
        requires { n < length self.now.doc }
        ensures { result ≡ place_in (machines self.now) n }
    {
        place_of(&self.listing, n)
    }

    // The place of the machine of an element.
    pub(crate) fn place_above(&self, n: u32) -> Option<u32>
        requires { n < length self.now.doc }
        ensures place { result ≡ option_map (place_in (machines self.now)) (machine_of self.now n) }
        ensures within { IfSome result (λ k. k < length (machines self.now)) }
    {
        let machine = self.machine_of(n)?;
        Some(self.place(machine))
    }
}
