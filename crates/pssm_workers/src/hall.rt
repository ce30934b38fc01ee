//! `Hall`: a book whose setting is known by its type.
ghost use Rattle.std.specs.Prelude.{◌≡◌, ◌<◌, Some};
ghost use base.Stored.{Coded-set};
ghost use Rattle.pssm_semantics.specs.contracts.setting.Setting as setting_type;

use crate::scene::Scene;
use pssm_book::{Book, Claimed, Committed, Job};
use pssm_semantics::{ObjectId, Task, Worked};
use std::alloc::AllocError as NoMemory;
use std::marker::PhantomData;
use std::sync::ledger::{Ledger, Share};

/// A book of a run in the setting for which the type `V` stands.
#[derive(Drop)]
pub struct Hall<L: Ledger, V: Scene> {
    book: Book<L>,
    of: PhantomData<V>,
    ghost of_scene: { book.run.setting ≡ V.setting } by { Coded-set setting_type.the_row.coded _ _ },
}

impl<L: Ledger, V: Scene> Hall<L, V> {
    ghost use Rattle.std.specs.Prelude.{IfOk, IfSome};
    ghost use Rattle.pssm_book.specs.Works.{behaviour_in};
    ghost use Rattle.pssm_workers.specs.inner.Jobs.{IsJobIn, HandsOutIn};

    /// The hall of this book.
    pub fn new(book: Book<L>) -> Hall<L, V>
        requires { book.run.setting ≡ V.setting }
    {
        Hall {
            book,
            of: PhantomData,
        }
    }

    /// The book.
    pub fn book(&self) -> &Book<L> {
        &self.book
    }

    /// Claims what may be done next.
    pub fn claim(&mut self, word: u64, share: &mut Share<L>) -> Result<Claimed, NoMemory>
        requires { 0 < share.old.parts }
        ensures hands_out { IfOk result (HandsOutIn V.setting) }
        ensures parts { share.new.parts ≡ share.old.parts }
    {
        self.book.claim(word, share)
    }

    /// Hands out a ready task of an object that is not handed out.
    pub fn claim_of(&mut self, object: ObjectId) -> Result<Option<Job>, NoMemory>
        ensures { IfOk result (λ found. IfSome found (IsJobIn V.setting)) }
    {
        self.book.claim_of(object)
    }

    /// Commits what was run for a task: the task's behaviour.
    pub fn commit(
        &mut self,
        task: Task,
        worked: &Worked,
        share: &mut Share<L>,
    ) -> Result<Committed, NoMemory>
        requires part { 0 < share.old.parts }
        requires known { behaviour_in V.setting worked.now.own task ≡ Some worked.now.act }
        ensures { share.new.parts ≡ share.old.parts }
    {
        self.book.commit_known(task, worked, share)
    }

    /// Gives a task back with nothing done.
    pub fn release(&mut self, object: ObjectId, task: Task) {
        self.book.release(object, task);
    }

    /// The book.
    pub fn into_book(self) -> Book<L> {
        let Hall { book, of: _ } = self;
        book
    }
}
