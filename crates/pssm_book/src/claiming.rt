//! How a desk goes on by a claim.
ghost use Rattle.std.specs.Prelude.{◌≡◌, IfOk, OnErr};
ghost use Rattle.pssm_book.specs.inner.Coming.{Comes, ComesOf};

use crate::answers::{Claimed, Job};
use crate::choosing::Next;
use crate::desk::Desk;
use pssm_semantics::{Entry, ObjectId};
use std::alloc::{AllocError as NoMemory, Global};

impl Desk {
    ghost use Rattle.pssm_semantics.specs.Admissible.{IsFull};
    ghost use Rattle.pssm_book.specs.inner.Keeping.{IsInOrder, IsUnchanged, bare};
    ghost use Rattle.pssm_book.specs.inner.Nexts.{Finds, IsAppended};
    ghost use Rattle.pssm_book.specs.Contents.{KeepsTerms};

    /// Goes on by one entry that runs no behaviour, or hands out a task.
    pub fn claim(&mut self, alloc: Global, word: u64) -> Result<Claimed, NoMemory>
        requires { IsInOrder self.old }
        ensures order { IsInOrder self.new }
        ensures comes { IfOk result (λ answer. Comes (bare self.old) answer (bare self.new)) }
        ensures terms { KeepsTerms (bare self.old) (bare self.new) }
        ensures err { OnErr result (IsUnchanged self.old self.new) }
    {
        if self.is_full() {
            return Ok(Claimed::Full);
        }
        let next = self.next(alloc, word)?;
        self.take(alloc, next)
    }

    /// Hands out the first ready task of an object that is not handed out, where the journal has
    /// room for its entry.
    pub fn claim_of(&mut self, alloc: Global, object: ObjectId) -> Result<Option<Job>, NoMemory>
        requires { IsInOrder self.old }
        ensures order { IsInOrder self.new }
        ensures comes { IfOk result (λ found. ComesOf (bare self.old) object found (bare self.new)) }
        ensures terms { KeepsTerms (bare self.old) (bare self.new) }
        ensures err { OnErr result (IsUnchanged self.old self.new) }
    {
        if self.is_full() {
            return Ok(None);
        }
        match self.open_of(object) {
            Some(task) => Ok(Some(self.hand_out(alloc, object, task)?)),
            None => Ok(None),
        }
    }

    // Does what may be done next.
    fn take(&mut self, alloc: Global, next: Next) -> Result<Claimed, NoMemory>
        requires order { IsInOrder self.old }
        requires room { IsFull self.old.limit self.old.system.journal → ⊥ }
        requires next { Finds self.old next }
        ensures order { IsInOrder self.new }
        ensures comes { IfOk result (λ answer. Comes (bare self.old) answer (bare self.new)) }
        ensures terms { KeepsTerms (bare self.old) (bare self.new) }
        ensures err { OnErr result (IsUnchanged self.old self.new) }
    {
        match next {
            Next::Append(entry) => self.go_on(entry),
            Next::Work(object, task) => Ok(Claimed::Job(self.hand_out(alloc, object, task)?)),
            Next::Wait => Ok(Claimed::Busy {
                out: self.claims.len() as u32,
            }),
            Next::End => Ok(Claimed::Quiet),
        }
    }

    // Appends a post or a move.
    fn go_on(&mut self, entry: Entry) -> Result<Claimed, NoMemory>
        requires order { IsInOrder self.old }
        requires room { IsFull self.old.limit self.old.system.journal → ⊥ }
        requires next { IsAppended self.old entry }
        ensures order { IsInOrder self.new }
        ensures comes { IfOk result (λ answer. Comes (bare self.old) answer (bare self.new)) }
        ensures terms { KeepsTerms (bare self.old) (bare self.new) }
        ensures err { OnErr result (IsUnchanged self.old self.new) }
    {
        self.append(entry)?;
        Ok(Claimed::Moved)
    }
}
