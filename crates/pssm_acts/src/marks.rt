//! `Marks`: the names of marks in the order in which they are first named.
ghost use Rattle.std.specs.Prelude.{◌≡◌, ◌<◌, ◌++◌, ◌∷◌, [], List, ℕ, None, length, take, position, bytes_eq};
ghost use Rattle.std.specs.Prelude.{IfOk, IfErr, IfSome};
ghost use Rattle.pssm_acts.specs.Marks.{mark_of, with_mark};

use indexmap::IndexSet;
use pssm_model::{MarkId, Text};
use pssm_spelling::{KeptName, LentName};
use std::alloc::{AllocError as NoMemory, Global};
use std::marker::Model;

/// The names of marks, in order. A clause sees the list of them.
///
/// A look-up in marks that were begun by `new` does not compare a name with each of them.
#[derive(Drop)]
pub struct Marks {
    names: Vec<Text>,
    // the same names once more, where they are sought by their hashes
    index: Option<IndexSet<KeptName>>,
}

impl Model for Marks {
    ghost use Rattle.std.specs.Prelude.{List, ℕ};
    ghost use Rattle.pssm_acts.specs.inner.Indexed.{IsIndexed};

    ghost Value = { List (List ℕ) };

    ghost view = { λ m. m.names.items };

    ghost invariant = { λ m. IsIndexed m.names.items m.index };
}

impl Marks {
    /// No marks.
    pub fn new(alloc: Global) -> Marks
        ensures { result ≡ [] }
    {
        Marks {
            names: Vec::new(alloc),
            index: Some(IndexSet::new(alloc)),
        }
    }

    // These marks, perhaps some of them alike. A name is compared with each of them.
    pub(crate) fn listed(names: Vec<Text>) -> Marks
        ensures { result ≡ names.items }
    {
        Marks { names, index: None }
    }

    /// How many there are.
    pub fn len(&self) -> usize
        ensures { result ≡ length self.now }
    {
        self.names.len()
    }

    /// The names.
    pub fn as_slice(&self) -> &[Text]
        ensures { result.now ≡ self.now }
    {
        self.names.as_slice()
    }

    /// The vector of the names.
    pub fn into_vec(self) -> Vec<Text>
        ensures { result.items ≡ self }
    {
        let Marks { names, index } = self;
        drop(index);
        names
    }

    // Leaves the first so many.
    #[tactic(auto, using(crate::proofs::IndexLaws::cut))]
    pub(crate) fn truncate(&mut self, known: usize)
        ensures { self.new ≡ take known self.old }
    {
        self.names.truncate(known);
        if let Some(index) = &mut self.index {
            index.truncate(known);
        }
    }

    // The place of the first mark with this name.
    #[tactic(auto, using(crate::proofs::IndexLaws::same_place))]
    fn place(&self, name: &[u8]) -> Option<usize>
        ensures gives { result ≡ position (λ m. bytes_eq m name.now) self.now }
        ensures within { IfSome result (λ k. k < length self.now) }
    {
        match &self.index {
            Some(index) => index.get_index_of(LentName { bytes: name }),
            None => place_of(self.names.as_slice(), name),
        }
    }

    // Puts a mark with a new name behind the others.
    fn push(&mut self, alloc: Global, name: &[u8]) -> Result<(), NoMemory>
        requires new { position (λ m. bytes_eq m name.now) self.old ≡ None }
        ensures noted { IfOk result (λ _. self.new ≡ self.old ++ name.now ∷ []) }
        ensures left { IfErr result (λ _. self.new ≡ self.old) }
    {
        let text = Text::from_vec(name.to_vec(alloc)?);
        match &mut self.index {
            Some(index) => put(alloc, &mut self.names, index, text),
            None => {
                self.names.push(text)?;
                Ok(())
            }
        }
    }

    // The number of the mark with this name, which is noted where it is new.
    pub(crate) fn number(&mut self, alloc: Global, name: &[u8]) -> Result<MarkId, NoMemory>
        requires few { length self.old < 65536 }
        ensures number { IfOk result (λ mark. mark ≡ mark_of self.old name.now) }
        ensures noted { IfOk result (λ _. self.new ≡ with_mark self.old name.now) }
        ensures left { IfErr result (λ _. self.new ≡ self.old) }
    {
        match self.place(name) {
            Some(place) => Ok(MarkId(place as u16)),
            None => {
                let next = self.names.len() as u16;
                self.push(alloc, name)?;
                Ok(MarkId(next))
            }
        }
    }
}

// The place of the first of these names that is spelled so.
fn place_of(names: &[Text], name: &[u8]) -> Option<usize>
    ensures gives { result ≡ position (λ n. bytes_eq n name.now) names.now }
    ensures within { IfSome result (λ k. k < length names.now) }
{
    names.iter().position(|n| n.as_slice() == name)
}

// Puts a name that is new behind the others, and behind the keys of their index.
#[tactic(auto, using(crate::proofs::IndexLaws::one_more))]
fn put(
    alloc: Global,
    names: &mut Vec<Text>,
    index: &mut IndexSet<KeptName>,
    name: Text,
) -> Result<(), NoMemory>
    requires same { index.old.keys ≡ names.old.items }
    requires new { position (λ m. bytes_eq m name) names.old.items ≡ None }
    ensures noted { IfOk result (λ _. names.new.items ≡ names.old.items ++ name ∷ []) }
    ensures left { IfErr result (λ _. names.new.items ≡ names.old.items) }
    ensures same { index.new.keys ≡ names.new.items }
{
    let key = KeptName::of(alloc, name.as_slice())?;
    index.reserve(1)?;
    names.push(name)?;
    match index.insert(key) {
        Ok(_) => Ok(()),
        // there is room for it
        Err(_) => unreachable!(),
    }
}
