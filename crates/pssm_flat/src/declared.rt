//! `Declared`: what a text declares, found by its name.
ghost use Rattle.std.specs.Prelude.{◌≡◌, ◌<◌, ◌++◌, ◌∷◌, [], length, position, bytes_eq, OnOk, IfSome};
ghost use Rattle.std.specs.List.{list_any};

use pssm_acts::{Index, Named};
use pssm_model::Row;
use std::alloc::{AllocError, Global};
use std::marker::Model;

/// Things that have names, in the order of their lines, with the index of the names. A clause sees the list of them.
#[derive(Drop)]
pub(crate) struct Declared<T: Named> {
    items: Row<T>,
    index: Index,
}

impl<T: Named> Model for Declared<T> {
    ghost use Rattle.std.specs.Prelude.{List, map};
    ghost use Rattle.pssm_acts.specs.Indexes.{IsIndexOf};

    ghost Value = { List T };

    ghost view = { λ d. d.items };

    ghost invariant = { λ d. IsIndexOf (map T.name_of d.items) d.index };
}

impl<T: Named + Drop> Declared<T> {
    /// None.
    pub fn new(alloc: Global) -> Declared<T>
        ensures { result ≡ [] }
    {
        Declared {
            items: Row::from_vec(Vec::new(alloc)),
            index: Index::none(),
        }
    }

    /// They.
    pub fn as_slice(&self) -> &[T]
        ensures { result.now ≡ self.now }
    {
        self.items.as_slice()
    }

    /// The row of them.
    pub fn row(&self) -> &Row<T>
        ensures { result.now ≡ self.now }
    {
        &self.items
    }

    /// The row of them, alone.
    pub fn into_row(self) -> Row<T>
        ensures { result ≡ self }
    {
        let Declared { items, index } = self;
        drop(index);
        items
    }

    /// The place of the first that has the name.
    pub fn place(&self, name: &[u8]) -> Option<usize>
        ensures gives { result ≡ position (λ x. bytes_eq (T.name_of x) name.now) self.now }
        ensures within { IfSome result (λ k. k < length self.now) }
    {
        self.index.place(self.items.as_slice(), name)
    }

    /// Whether one of them has the name.
    #[tactic(auto, using(crate::proofs::FoundLaws::place_any))]
    pub fn has(&self, name: &[u8]) -> bool
        ensures { result ≡ list_any (λ x. bytes_eq (T.name_of x) name.now) self.now }
    {
        self.place(name).is_some()
    }

    /// Puts one more behind them.
    pub fn push(&mut self, alloc: Global, item: T) -> Result<(), AllocError>
        ensures { OnOk result (self.new ≡ self.old ++ item ∷ []) }
    {
        self.index.push(alloc, &mut self.items, item)
    }
}
