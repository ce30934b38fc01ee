//! `Table`: a book, and who claims and commits in it.
ghost use Rattle.std.specs.Prelude.{◌≡◌, ◌≤◌, ◌<◌, IfOk};
ghost use Rattle.pssm_semantics.specs.Arguments.{ActArgsFit};
ghost use Rattle.pssm_book.specs.Claiming.{MayRun};

use crate::answers::{claimed_words, committed_words};
use pssm_book::{Book, Claimed, Job};
use pssm_semantics::{ObjectId, Task, Worked, run};
use pssm_trials::{Failure, came, same, same_number, setting_of, stimuli_of};
use std::alloc::{AllocError as NoMemory, Global};
use std::sync::ledger::{Blank, Ledger, Share};

// How many claims a row makes at most to come to what it asks.
const TRIES: u64 = 1000;

/// A book, the share of who claims and commits in it, and what is held there.
///
/// It keeps what is held, and rows borrow it: each place that lets go of a book is dear to prove.
#[derive(Drop)]
pub struct Table<L: Ledger> {
    alloc: Global,
    book: Book<L>,
    share: Share<L>,
    held: Vec<Held>,
    ghost some: { 0 < share.parts },
}

/// A task that is claimed, and what its behaviour made.
#[derive(Drop)]
struct Held {
    task: Task,
    worked: Worked,
}

impl<L: Ledger> Table<L> {
    /// A book of a model with this limit, and with the stimulus `a.Go()` or none. Nothing is held.
    pub fn new(
        alloc: Global,
        blank: Blank,
        model: &[u8],
        has_go: bool,
        limit: u32,
    ) -> Result<Table<L>, Failure>
        requires name { blank.name ≡ L.name }
        requires parts { blank.parts ≡ L.parts }
        requires some { 0 < blank.parts }
        requires limit { limit ≤ 1000000 }
    {
        let setting = setting_of(alloc, model)?;
        let stimuli = stimuli_of(alloc, &setting, has_go)?;
        let (book, share) = Book::<L>::new(alloc, blank, setting, stimuli, limit)?;
        Ok(Table {
            alloc,
            book,
            share,
            held: Vec::new(alloc),
        })
    }

    /// There are so many entries.
    pub fn entries_owe(&self, count: usize) -> Result<(), Failure> {
        same_number(
            self.alloc,
            "the entries",
            count,
            self.book.system().entries().len(),
        )
    }

    /// How many stimuli are posted.
    pub fn posted(&self) -> u32 {
        self.book.posted()
    }

    /// The book has this limit, so many stimuli, and a journal with so many outputs.
    pub fn terms_owe(
        &mut self,
        limit: usize,
        stimuli: usize,
        outputs: usize,
    ) -> Result<(), Failure> {
        self.book.audit(&mut self.share);
        same_number(self.alloc, "the limit", limit, self.book.limit() as usize)?;
        same_number(
            self.alloc,
            "the stimuli",
            stimuli,
            self.book.stimuli().len(),
        )?;
        same_number(self.alloc, "the outputs", outputs, self.book.outputs())
    }

    /// What there is to be claimed, in words.
    pub fn claim_owes(&mut self, owed: &str) -> Result<(), Failure> {
        let claimed = self.claim(7)?;
        let words = claimed_words(self.alloc, &claimed)?;
        same(self.alloc, "a claim", owed, words.as_str())
    }

    /// What comes of the commit of what is held for a task is this, in words.
    pub fn commit_owes(&mut self, task: Task, owed: &str) -> Result<(), Failure> {
        self.commit_as(task, task, owed)
    }

    /// What comes of the commit for a task of what is held for another is this, in words.
    pub fn commit_as(&mut self, task: Task, other: Task, owed: &str) -> Result<(), Failure> {
        for held in self.held.as_slice() {
            if held.task == other {
                let committed = self.book.commit(task, &held.worked, &mut self.share)?;
                let words = committed_words(self.alloc, committed)?;
                return same(self.alloc, "a commit", owed, words.as_str());
            }
        }
        Err(came(self.alloc, "the task is not held"))
    }

    /// Gives a task back.
    pub fn release(&mut self, object: ObjectId, task: Task) {
        self.book.release(object, task);
    }

    /// Goes on until all of these tasks are claimed, and holds what their behaviours made, and nothing else; all other
    /// tasks are run and committed.
    pub fn hold(&mut self, tasks: &[Task]) -> Result<(), Failure> {
        self.held.clear();
        for word in 0..TRIES {
            if self.held.len() == tasks.len() {
                return Ok(());
            }
            if let Claimed::Job(job) = self.claim(word)? {
                self.work(&job, tasks.contains(&job.task))?;
            }
        }
        Err(came(self.alloc, "a task was not handed out"))
    }

    /// Goes on to the end; the last claim is this, in words.
    pub fn end_owes(&mut self, owed: &str) -> Result<(), Failure> {
        for word in 0..TRIES {
            match self.claim(word)? {
                Claimed::Job(job) => self.work(&job, false)?,
                Claimed::Moved => {}
                last => {
                    let words = claimed_words(self.alloc, &last)?;
                    return same(self.alloc, "the last claim", owed, words.as_str());
                }
            }
        }
        Err(came(self.alloc, "there was no end"))
    }

    /// Whether nothing more can happen.
    pub fn is_quiet(&self) -> bool {
        self.book.system().quiet()
    }

    // Claims by this word.
    fn claim(&mut self, word: u64) -> Result<Claimed, NoMemory>
        ensures { IfOk result MayRun }
    {
        self.book.claim(word, &mut self.share)
    }

    // Runs the behaviour of a job, and holds what it made, or commits it.
    fn work(&mut self, job: &Job, is_held: bool) -> Result<(), Failure>
        requires { ActArgsFit job.now.act }
    {
        let task = job.task;
        let worked = run(
            self.alloc,
            job.object,
            &job.act,
            job.store.as_slice(),
            &job.params,
        )?;
        if is_held {
            self.held.push(Held { task, worked })?;
            return Ok(());
        }
        let committed = self.book.commit(task, &worked, &mut self.share)?;
        let words = committed_words(self.alloc, committed)?;
        same(self.alloc, "a commit", "done", words.as_str())
    }
}
