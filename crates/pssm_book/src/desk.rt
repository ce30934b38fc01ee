//! `Desk`: a run with its stimuli and its limit, and the tasks that are handed out.
ghost use Rattle.std.specs.Prelude.{◌≡◌, ◌≤◌, ◌↔◌, [], IsTrue, IfOk, OnOk, OnErr};
ghost use Rattle.std.specs.List.{AllByRecursion};
ghost use Rattle.pssm_semantics.specs.Proper.{IsWellFormed};
ghost use Rattle.pssm_semantics.specs.Admissible.{IsFull};
ghost use Rattle.pssm_semantics.specs.Known.{IsStimulusOf};

use crate::counts::{is_full, out_count, post_count};
use pssm_semantics::{Entry, ObjectId, Setting, Stimulus, Task};
use pssm_system::System;
use std::alloc::{AllocError as NoMemory, Global};

/// A run with its stimuli and its limit, and the tasks that are handed out.
#[derive(Drop)]
pub struct Desk {
    /// The run so far.
    pub system: System,
    /// The stimuli, in the order in which they are posted.
    pub stimuli: Vec<Stimulus>,
    /// How many entries the journal may have.
    pub limit: u32,
    /// How many of the stimuli are posted.
    pub posted: usize,
    /// How many posts, sends and marks the journal has.
    pub outputs: usize,
    /// The tasks that are handed out, each with its object; no two are equal.
    pub claims: Vec<(ObjectId, Task)>,
}

impl Desk {
    ghost use Rattle.pssm_book.specs.inner.Keeping.{IsInOrder, HasAppended, IsFresh};
    ghost use Rattle.pssm_book.specs.inner.Nexts.{IsNext, waiting_at};

    /// A desk with no entry and no task handed out.
    pub fn new(
        alloc: Global,
        setting: Setting,
        stimuli: Vec<Stimulus>,
        limit: u32,
    ) -> Result<Desk, NoMemory>
        requires well_formed { IsWellFormed setting }
        requires known { AllByRecursion (IsStimulusOf setting) stimuli.items }
        requires limit { limit ≤ 1000000 }
        ensures order { IfOk result IsInOrder }
        ensures fresh { IfOk result (IsFresh setting stimuli.items limit) }
    {
        let system = System::new(alloc, setting)?;
        Ok(Desk {
            system,
            stimuli,
            limit,
            posted: 0,
            outputs: 0,
            claims: Vec::new(alloc),
        })
    }

    /// Whether the journal has no room for one more entry.
    pub fn is_full(&self) -> bool
        requires { IsInOrder self.now }
        ensures { IsTrue result ↔ IsFull self.now.limit self.now.system.journal }
    {
        is_full(self.system.entries().len(), self.outputs, self.limit)
    }

    /// Appends an entry that may follow, and posts no other stimulus than the next.
    pub fn append(&mut self, entry: Entry) -> Result<(), NoMemory>
        requires order { IsInOrder self.old }
        requires room { IsFull self.old.limit self.old.system.journal → ⊥ }
        requires next { IsNext self.old.system (waiting_at self.old) entry }
        ensures ok { OnOk result (HasAppended self.old entry self.new) }
        ensures err { OnErr result (self.new ≡ self.old) }
    {
        let posts = post_count(&entry);
        let outs = out_count(&entry);
        self.system.apply(entry)?;
        self.posted += posts;
        self.outputs += posts + outs;
        Ok(())
    }
}
