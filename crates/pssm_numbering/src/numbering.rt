//! `Numbering`: the lists of a model file, and the places in them.
ghost use Rattle.std.specs.Prelude.{◌≡◌, ◌<◌, ◌≤◌, ℕ, Some, length, slice_get, IfOk};
ghost use Rattle.std.specs.List.{All};
ghost use Rattle.pssm_numbering.specs.Numbering.{signals as signals_in, machines as machines_in, classes as classes_in};
ghost use Rattle.pssm_numbering.specs.Numbering.{own_with, machine_of, own_place, place_in};
ghost use Rattle.pssm_numbering.specs.Lists.{is_listed, ref_of};
ghost use Rattle.pssm_numbering.specs.inner.Tables.{AreGroups};
ghost use Rattle.std.specs.Option.{option_map_or};

use crate::file::File;
use crate::groups::{Groups, ListKind, groups_of, place_beside, row_at};
use crate::kinds::Kind;
use crate::listing::{Listing, listing_of, place_of};
use crate::machines::Machines;
use pssm_model::ElementRef;
use std::alloc::{AllocError as NoMemory, Global};
use std::marker::Model;
use std::snapshot::Snapshot;

/// The lists of a model file, and the place of each element in its list. A clause sees the file that it numbers.
#[derive(Drop)]
pub struct Numbering {
    file: Snapshot<File>,
    machines: Machines,
    signals: Listing,
    classes: Listing,
    regions: Groups,
    vertices: Groups,
    transitions: Groups,
}

impl Model for Numbering {
    ghost use Rattle.std.specs.Prelude.{◌≡◌, length};
    ghost use Rattle.pssm_numbering.specs.Numbering.{ModelFile, is_signal, is_class};
    ghost use Rattle.pssm_numbering.specs.Numbering.{is_region, is_vertex, is_transition};
    ghost use Rattle.pssm_numbering.specs.inner.Tables.{HoldsList, AreGroups};

    ghost Value = { ModelFile };

    ghost view = { λ n. n.file.value };

    ghost invariant = { λ n. (n.machines ≡ n.file.value)
        × HoldsList n.file.value is_signal n.signals.list.items n.signals.places.items
        × HoldsList n.file.value is_class n.classes.list.items n.classes.places.items
        × AreGroups n.file.value is_region (length n.file.value.doc) n.regions.rows.items n.regions.places.items
        × AreGroups n.file.value is_vertex (length n.file.value.doc) n.vertices.rows.items n.vertices.places.items
        × AreGroups n.file.value is_transition (length n.file.value.doc) n.transitions.rows.items
        n.transitions.places.items };
}

impl Numbering {
    /// The lists of a file.
    pub fn of(alloc: Global, file: &File) -> Result<Self, NoMemory>
        ensures { IfOk result (λ n. n ≡ file.now) }
    {
        let machines = Machines::of(alloc, file)?;
        let signals = listing_of(alloc, file, Kind::Signal)?;
        let classes = listing_of(alloc, file, Kind::Class)?;
        let regions = groups_of(alloc, &machines, file, ListKind::Region)?;
        let vertices = groups_of(alloc, &machines, file, ListKind::Vertex)?;
        let transitions = groups_of(alloc, &machines, file, ListKind::Transition)?;
        Ok(Numbering {
            file: Snapshot::of(file),
            machines,
            signals,
            classes,
            regions,
            vertices,
            transitions,
        })
    }

    /// The signals of the file, in document order.
    pub fn signals(&self) -> &[u32]
        ensures list { result.now ≡ signals_in self.now }
        ensures within { All (λ n. n < length self.now.doc) result.now }
    {
        self.signals.list.as_slice()
    }

    /// Its state machines.
    pub fn machines(&self) -> &[u32]
        ensures list { result.now ≡ machines_in self.now }
        ensures within { All (λ n. n < length self.now.doc) result.now }
    {
        self.machines.list()
    }

    /// Its active classes.
    pub fn classes(&self) -> &[u32]
        ensures list { result.now ≡ classes_in self.now }
        ensures within { All (λ n. n < length self.now.doc) result.now }
    {
        self.classes.list.as_slice()
    }

    // The elements of a kind by machine.
    fn groups(&self, kind: ListKind) -> &Groups
        ensures { AreGroups self.now (is_listed kind) (length self.now.doc) result.now.rows.items
            result.now.places.items }
    {
        match kind {
            ListKind::Region => &self.regions,
            ListKind::Vertex => &self.vertices,
            ListKind::Transition => &self.transitions,
        }
    }

    /// The elements of a kind of the state machine at this place.
    pub fn own(&self, kind: ListKind, k: u32) -> &[u32]
        requires { k < length (machines_in self.now) }
        ensures list { (m : ℕ) → slice_get (machines_in self.now) k ≡ Some m
            → result.now ≡ own_with (is_listed kind) self.now m }
        ensures within { All (λ n. n < length self.now.doc) result.now }
    {
        row_at(self.groups(kind), k)
    }

    /// The innermost state machine in which an element stands, or which it is.
    pub fn machine_of(&self, n: u32) -> Option<u32>
        requires { n < length self.now.doc }
        ensures { result ≡ machine_of self.now n }
    {
        self.machines.machine_of(n)
    }

    /// The place of an element among the signals; past their end where it is none.
    pub fn signal_place(&self, n: u32) -> u32
        requires { n < length self.now.doc }
        ensures { result ≡ place_in (signals_in self.now) n }
    {
        place_of(&self.signals, n)
    }

    /// The same among the state machines.
    pub fn machine_place(&self, n: u32) -> u32
        requires { n < length self.now.doc }
        ensures { result ≡ place_in (machines_in self.now) n }
    {
        self.machines.place(n)
    }

    /// The same among the active classes.
    pub fn class_place(&self, n: u32) -> u32
        requires { n < length self.now.doc }
        ensures { result ≡ place_in (classes_in self.now) n }
    {
        place_of(&self.classes, n)
    }

    /// The place of an element among those of the kind in its state machine; past their end where it is none.
    pub fn own_place(&self, kind: ListKind, n: u32) -> u32
        requires { n < length self.now.doc }
        ensures { result ≡ own_place (is_listed kind) self.now n }
    {
        place_beside(self.groups(kind), &self.machines, kind, n)
    }

    /// The place of an element: that of its machine, and its own in the machine's list.
    pub fn ref_of(&self, kind: ListKind, n: u32) -> ElementRef
        requires { n < length self.now.doc }
        ensures { result ≡ ref_of (is_listed kind) self.now n }
    {
        ElementRef {
            machine: self.machine_above(n),
            element: self.own_place(kind, n),
        }
    }

    // The place of the machine of an element; past the end of the machines where it has none.
    fn machine_above(&self, n: u32) -> u32
        requires { n < length self.now.doc }
        ensures { result ≡ option_map_or (place_in (machines_in self.now)) (machine_of self.now n)
            (length (machines_in self.now)) }
    {
        match self.machines.place_above(n) {
            Some(k) => k,
            None => self.machines.list().len() as u32,
        }
    }
}
