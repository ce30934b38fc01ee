//! `Index`: where names stand in a list, found by their hashes.
ghost use Rattle.std.specs.Prelude.{◌≡◌, ◌<◌, ◌++◌, ◌∷◌, [], List, ℕ, None, length, map, position, bytes_eq, IfOk, OnOk, IfErr, IfSome};
ghost use Rattle.pssm_acts.specs.Indexes.{IsIndexOf};
ghost use Rattle.pssm_acts.specs.inner.Indexed.{IsIndexed};

use indexmap::IndexSet;
use pssm_model::{Row, Text};
use pssm_semantics::{ObjectDecl, SignalDecl};
use pssm_spelling::{KeptName, LentName};
use std::alloc::{AllocError as NoMemory, Global};
use std::marker::Model;
use std::mem;

/// What has a name.
pub trait Named {
    ghost name_of: { Self → List ℕ };

    /// The name.
    fn name(&self) -> &[u8]
        ensures { result.now ≡ name_of self.now };
}

impl Named for Text {
    ghost name_of = { λ t. t };

    fn name(&self) -> &[u8] {
        self.as_slice()
    }
}

impl Named for SignalDecl {
    ghost name_of = { λ d. d.name };

    fn name(&self) -> &[u8] {
        self.name.as_slice()
    }
}

impl Named for ObjectDecl {
    ghost name_of = { λ d. d.name };

    fn name(&self) -> &[u8] {
        self.name.as_slice()
    }
}

// Among at most so many names one is found sooner by comparing them than by its hash.
const FEW: usize = 4;

/// Finds names of a list by their hashes, where they are many and differ. A clause sees these names in their order, or
/// none, where names are compared one after another.
#[derive(Drop)]
pub struct Index {
    keys: Option<IndexSet<KeptName>>,
}

impl Model for Index {
    ghost use Rattle.std.specs.Prelude.{List, ℕ, Option};
    ghost use Rattle.std.specs.Option.{option_map};

    ghost Value = { Option (List (List ℕ)) };

    ghost view = { λ i. option_map (λ s. s.keys) i.keys };
}

// The keys of these names, where all differ.
fn keys_of<T: Named>(alloc: Global, items: &[T]) -> Result<Option<IndexSet<KeptName>>, NoMemory>
    ensures { IfOk result (λ keys. IsIndexed (map T.name_of items.now) keys) }
{
    let mut keys = IndexSet::with_capacity(alloc, items.len())?;
    let mut place = 0;
    while place < items.len() {
        let key = KeptName::of(alloc, items[place].name())?;
        if !keys.insert(key)? {
            return Ok(None);
        }
        place += 1;
    }
    Ok(Some(keys))
}

// The place of the first of these that has the name.
fn place_among<T: Named>(items: &[T], name: &[u8]) -> Option<usize>
    ensures gives { result ≡ position (λ x. bytes_eq (T.name_of x) name.now) items.now }
    ensures within { IfSome result (λ k. k < length items.now) }
{
    items.iter().position(|item| item.name() == name)
}

impl Index {
    /// An index that has no names.
    pub fn none() -> Index
        ensures { result ≡ None }
    {
        Index { keys: None }
    }

    /// The index of these.
    ///
    /// `NoMemory`: memory ran out.
    pub fn of<T: Named>(alloc: Global, items: &[T]) -> Result<Index, NoMemory>
        ensures { IfOk result (λ index. IsIndexOf (map T.name_of items.now) index) }
    {
        if items.len() <= FEW {
            return Ok(Index::none());
        }
        Ok(Index {
            keys: keys_of(alloc, items)?,
        })
    }

    /// The place of the first of these that has the name; the index is theirs.
    pub fn place<T: Named>(&self, items: &[T], name: &[u8]) -> Option<usize>
        requires { IsIndexOf (map T.name_of items.now) self.now }
        ensures gives { result ≡ position (λ x. bytes_eq (T.name_of x) name.now) items.now }
        ensures within { IfSome result (λ k. k < length items.now) }
    {
        match &self.keys {
            Some(keys) => keys.get_index_of(LentName { bytes: name }),
            None => place_among(items, name),
        }
    }

    /// Puts one more item behind these; the index is theirs, and that of the new ones afterwards.
    pub fn push<T: Named + Drop>(
        &mut self,
        alloc: Global,
        items: &mut Row<T>,
        item: T,
    ) -> Result<(), NoMemory>
        requires { IsIndexOf (map T.name_of items.old) self.old }
        ensures put { OnOk result (items.new ≡ items.old ++ item ∷ []) }
        ensures index { IsIndexOf (map T.name_of items.new) self.new }
    {
        let index = mem::replace(self, Index::none());
        if items.as_slice().len() <= FEW {
            items.push(item)?;
            *self = Index::of(alloc, items.as_slice())?;
        } else {
            let name = KeptName::of(alloc, item.name())?;
            items.push(item)?;
            *self = index.with_name(name)?;
        }
        Ok(())
    }

    // The index with one more name behind the others.
    fn with_name(self, name: KeptName) -> Result<Index, NoMemory>
        ensures { (names : List (List ℕ)) → IsIndexOf names self → IfOk result (IsIndexOf (names ++ name ∷ [])) }
    {
        let Index { keys } = self;
        match keys {
            Some(mut kept) => {
                if kept.insert(name)? {
                    Ok(Index { keys: Some(kept) })
                } else {
                    Ok(Index::none())
                }
            }
            None => Ok(Index::none()),
        }
    }
}
