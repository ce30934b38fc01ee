//! `Book`: a run that several workers share.
ghost use Rattle.std.specs.Prelude.{◌≡◌, ◌≤◌, ◌<◌, ◌+◌, ◌↔◌, ◌⊎◌, [], length, IfOk, OnErr, Contains, ℕ, ℤ};
ghost use Rattle.std.specs.Prelude.{None, Some, IfSome, IfNone};
ghost use Rattle.std.specs.List.{AllByRecursion};
ghost use Rattle.pssm_book.specs.inner.Coming.{entries_by_claim, entries_by_commit};

use crate::answers::{Claimed, Committed, Job};
use crate::desk::Desk;
use pssm_semantics::{ObjectId, Setting, Stimulus, Task, Worked};
use pssm_system::System;
use std::alloc::{AllocError as NoMemory, Global};
use std::marker::Model;
use std::sync::ledger::{Blank, Book as Tally, Ledger, Share};

/// A run that several workers share: its journal, the stimuli, the most entries that it may have,
/// and the tasks that are handed out.
///
/// The journal is that of an admissible run at all times; its posts are the first of the stimuli,
/// in order. Of the ledger, the book has the total: each entry that is appended adds one to it, and
/// one to the share of who appended it. So the shares of all who appended entries, put together,
/// count the entries.
#[derive(Drop)]
pub struct Book<L: Ledger> {
    alloc: Global,
    desk: Desk,
    tally: Tally<L>,
}

impl<L: Ledger> Model for Book<L> {
    ghost use Rattle.pssm_semantics.specs.contracts.tree.Stmt as stmt;
    ghost use Rattle.pssm_semantics.specs.contracts.tree.Cond as cond;
    ghost use Rattle.pssm_semantics.specs.contracts.tree.Expr as expr;
    ghost use Rattle.std.specs.Coded.{codes};
    ghost use Rattle.std.specs.Prelude.{◌≡◌, length};
    ghost use Rattle.pssm_book.specs.Contents.{Contents};
    ghost use Rattle.pssm_book.specs.inner.Keeping.{IsInOrder, contents_of};

    ghost Value = { Contents };

    ghost coded = { Prim.hlevel (codes, stmt.the_row.coded, cond.the_row.coded, expr.the_row.coded) };

    ghost view = { λ b. contents_of b.desk b.tally.total };

    ghost invariant = { λ b. IsInOrder b.desk × (b.tally.total ≡ length b.desk.system.journal) };
}

impl<L: Ledger> Book<L> {
    ghost use Rattle.pssm_semantics.specs.declared.entry.ObjectId.{ObjectId as AnObject};
    ghost use Rattle.pssm_semantics.specs.declared.stimulus.Task.{Task as ATask};
    ghost use Rattle.pssm_semantics.specs.Pool.{posts_of, output_count};
    ghost use Rattle.pssm_semantics.specs.Proper.{IsWellFormed};
    ghost use Rattle.pssm_semantics.specs.Admissible.{IsFull, HasEndedQuietly};
    ghost use Rattle.pssm_book.specs.declared.answers.Job.{Job as AJob};
    ghost use Rattle.pssm_semantics.specs.Known.{IsStimulusOf};
    ghost use Rattle.pssm_book.specs.Contents.{IsKept, KeepsTerms};
    ghost use Rattle.pssm_book.specs.Claiming.{IsBusy, HasMoved, HasClaimed, CarriesWork, CanRun, MayRun, IsRefusal};
    ghost use Rattle.pssm_book.specs.Claiming.{AreAllOutOf};
    ghost use Rattle.pssm_book.specs.Works.{behaviour_in};
    ghost use Rattle.pssm_book.specs.Committing.{IsItsWork, IsStale, IsUpToDate, HasDone, IsWithout};

    /// A book with no entry and no task handed out, and the share that has all parts of its ledger.
    ///
    /// The blank is the one that the ledger is opened from; each call of a program has its own.
    /// `NoMemory`: memory ran out; what was handed in is dropped.
    pub fn new(
        alloc: Global,
        blank: Blank,
        setting: Setting,
        stimuli: Vec<Stimulus>,
        limit: u32,
    ) -> Result<(Book<L>, Share<L>), NoMemory>
        requires name { blank.name ≡ L.name }
        requires parts { blank.parts ≡ L.parts }
        requires well_formed { IsWellFormed setting }
        requires known { AllByRecursion (IsStimulusOf setting) stimuli.items }
        requires limit { limit ≤ 1000000 }
        ensures setting { IfOk result (λ made. made.0.run.setting ≡ setting) }
        ensures start { IfOk result (λ made. made.0.run.journal ≡ []) }
        ensures stimuli { IfOk result (λ made. made.0.stimuli ≡ stimuli.items) }
        ensures limit { IfOk result (λ made. made.0.limit ≡ limit) }
        ensures claims { IfOk result (λ made. made.0.claims ≡ []) }
        ensures parts { IfOk result (λ made. made.1.parts ≡ L.parts) }
        ensures amount { IfOk result (λ made. made.1.amount ≡ 0) }
    {
        let desk = Desk::new(alloc, setting, stimuli, limit)?;
        let (tally, share) = blank.open::<L>();
        Ok((Book { alloc, desk, tally }, share))
    }

    /// Goes on by one entry that runs no behaviour, or hands out a task (UML 2.5.1, 14.2.3.9, run
    /// to completion).
    ///
    /// What comes next is a post of the stimulus that waits; a start, a take, a dispatch of a
    /// completion, an opening or a pick; or a ready task that is not handed out. Where several may
    /// come the word picks one; which one is not promised. An entry that is appended adds one to
    /// the share. `NoMemory`: memory ran out; nothing has changed.
    pub fn claim(&mut self, word: u64, share: &mut Share<L>) -> Result<Claimed, NoMemory>
        requires { 0 < share.old.parts }

        // Which answer comes.
        ensures full { IfOk result (λ answer. (answer ≡ Claimed.Full) ↔ IsFull self.old.limit self.old.run.journal) }
        ensures quiet { IfOk result (λ answer. (answer ≡ Claimed.Quiet)
            ↔ HasEndedQuietly self.old.run.setting self.old.stimuli self.old.limit self.old.run.journal) }
        ensures busy { IfOk result (λ answer. (out : ℕ) → (answer ≡ Claimed.Busy out) ↔ IsBusy self.old out) }
        ensures moved { IfOk result (λ answer. (answer ≡ Claimed.Moved) ↔ HasMoved self.old self.new) }
        ensures job { IfOk result (λ answer. (job : AJob) → answer ≡ Claimed.Job job
            → HasClaimed self.old job.object job.task self.new) }
        ensures only_job { IfOk result (λ answer. (o : AnObject) (task : ATask) → HasClaimed self.old o task self.new
            → (job : AJob) × (answer ≡ Claimed.Job job)) }

        // What it carries, and what it leaves.
        ensures carries { IfOk result (λ answer. (job : AJob) → answer ≡ Claimed.Job job
            → CarriesWork self.old.run job) }
        ensures runs { IfOk result MayRun }
        ensures refused { IfOk result (λ answer. IsRefusal answer → self.new ≡ self.old) }
        ensures terms { KeepsTerms self.old self.new }
        ensures counted { share.new.amount + length self.old.run.journal ≡ share.old.amount + length self.new.run.journal }
        ensures parts { share.new.parts ≡ share.old.parts }
        ensures err { OnErr result (self.new ≡ self.old) }
    {
        let answer = self.desk.claim(self.alloc, word)?;
        count_claim(&mut self.tally, share, &answer);
        Ok(answer)
    }

    /// Hands out a ready task of an object that is not handed out, and appends nothing. So who has
    /// appended an entry of the object goes on with it, under the lock that is held already.
    ///
    /// Any object may be handed in, also one that is not the setting's. None: the journal is full, or
    /// all ready tasks of the object are handed out. `NoMemory`: memory ran out; nothing has changed.
    pub fn claim_of(&mut self, object: ObjectId) -> Result<Option<Job>, NoMemory>
        ensures some { IfOk result (λ found. IfSome found
            (λ job. (job.object ≡ object) × HasClaimed self.old object job.task self.new)) }
        ensures none { IfOk result (λ found. (found ≡ None)
            ↔ (IsFull self.old.limit self.old.run.journal ⊎ AreAllOutOf self.old.run self.old.claims object)) }
        ensures carries { IfOk result (λ found. IfSome found (CarriesWork self.old.run)) }
        ensures runs { IfOk result (λ found. IfSome found CanRun) }
        ensures refused { IfOk result (λ found. IfNone found (self.new ≡ self.old)) }
        ensures terms { KeepsTerms self.old self.new }
        ensures total { self.new.total ≡ self.old.total }
        ensures err { OnErr result (self.new ≡ self.old) }
    {
        let found = self.desk.claim_of(self.alloc, object)?;
        Ok(found)
    }

    /// Takes back a task that was handed out, with what its behaviour made (UML 2.5.1, 14.2.3.9,
    /// run to completion).
    ///
    /// The object is the one that the work is of. Any object and task may be handed in, also ones
    /// that are not the setting's. An entry that is appended adds one to the share. With every
    /// answer but `NoMemory` the task is taken back, where the object has it handed out.
    /// `NoMemory`: memory ran out; nothing has changed.
    pub fn commit(
        &mut self,
        task: Task,
        worked: &Worked,
        share: &mut Share<L>,
    ) -> Result<Committed, NoMemory>
        requires { 0 < share.old.parts }

        // Which answer comes.
        ensures gone { IfOk result (λ answer. (answer ≡ Committed.Gone task)
            ↔ (IsItsWork self.old.run self.old.claims task worked.now → ⊥)) }
        ensures which { IfOk result (λ answer. (other : ATask) → answer ≡ Committed.Gone other → other ≡ task) }
        ensures stale { IfOk result (λ answer. (variable : ℕ) (kept carried : ℤ)
            → (answer ≡ Committed.Stale variable kept carried)
            ↔ IsStale self.old.run self.old.claims task worked.now variable kept carried) }
        ensures full { IfOk result (λ answer. (answer ≡ Committed.Full)
            ↔ (IsUpToDate self.old.run self.old.claims task worked.now × IsFull self.old.limit self.old.run.journal)) }
        ensures done { IfOk result (λ answer. (answer ≡ Committed.Done)
            ↔ (IsUpToDate self.old.run self.old.claims task worked.now
            × (IsFull self.old.limit self.old.run.journal → ⊥))) }

        // What it leaves.
        ensures appends { IfOk result (λ answer. answer ≡ Committed.Done → HasDone self.old task worked.now self.new) }
        ensures refused { IfOk result (λ answer. (answer ≡ Committed.Done → ⊥) → self.new.run ≡ self.old.run) }
        ensures given_back { IfOk result (λ answer. IsWithout self.old.claims (worked.now.own, task) self.new.claims) }
        ensures unclaimed { (Contains self.old.claims (worked.now.own, task) → ⊥) → self.new ≡ self.old }
        ensures terms { KeepsTerms self.old self.new }
        ensures counted { share.new.amount + length self.old.run.journal ≡ share.old.amount + length self.new.run.journal }
        ensures parts { share.new.parts ≡ share.old.parts }
        ensures err { OnErr result (self.new ≡ self.old) }
    {
        let answer = self.desk.commit(self.alloc, task, worked)?;
        count_commit(&mut self.tally, share, answer);
        Ok(answer)
    }

    /// The same as [`Book::commit`] for work that is known to have run the behaviour of its task,
    /// as work for a job that this book has handed out: the behaviours are not compared.
    ///
    /// The object is the one that the work is of. An entry that is appended adds one to the share.
    /// With every answer but `NoMemory` the task is taken back, where the object has it handed out.
    /// `NoMemory`: memory ran out; nothing has changed.
    pub fn commit_known(
        &mut self,
        task: Task,
        worked: &Worked,
        share: &mut Share<L>,
    ) -> Result<Committed, NoMemory>
        requires part { 0 < share.old.parts }
        requires known { behaviour_in self.old.run.setting worked.now.own task ≡ Some worked.now.act }

        // Which answer comes.
        ensures gone { IfOk result (λ answer. (answer ≡ Committed.Gone task)
            ↔ (IsItsWork self.old.run self.old.claims task worked.now → ⊥)) }
        ensures which { IfOk result (λ answer. (other : ATask) → answer ≡ Committed.Gone other → other ≡ task) }
        ensures stale { IfOk result (λ answer. (variable : ℕ) (kept carried : ℤ)
            → (answer ≡ Committed.Stale variable kept carried)
            ↔ IsStale self.old.run self.old.claims task worked.now variable kept carried) }
        ensures full { IfOk result (λ answer. (answer ≡ Committed.Full)
            ↔ (IsUpToDate self.old.run self.old.claims task worked.now × IsFull self.old.limit self.old.run.journal)) }
        ensures done { IfOk result (λ answer. (answer ≡ Committed.Done)
            ↔ (IsUpToDate self.old.run self.old.claims task worked.now
            × (IsFull self.old.limit self.old.run.journal → ⊥))) }

        // What it leaves.
        ensures appends { IfOk result (λ answer. answer ≡ Committed.Done → HasDone self.old task worked.now self.new) }
        ensures refused { IfOk result (λ answer. (answer ≡ Committed.Done → ⊥) → self.new.run ≡ self.old.run) }
        ensures given_back { IfOk result (λ answer. IsWithout self.old.claims (worked.now.own, task) self.new.claims) }
        ensures unclaimed { (Contains self.old.claims (worked.now.own, task) → ⊥) → self.new ≡ self.old }
        ensures terms { KeepsTerms self.old self.new }
        ensures counted { share.new.amount + length self.old.run.journal ≡ share.old.amount + length self.new.run.journal }
        ensures parts { share.new.parts ≡ share.old.parts }
        ensures err { OnErr result (self.new ≡ self.old) }
    {
        let answer = self.desk.commit_known(self.alloc, task, worked)?;
        count_commit(&mut self.tally, share, answer);
        Ok(answer)
    }

    /// Takes back a task that was handed out, with nothing done, where the object has it handed
    /// out. Any object and task may be handed in.
    pub fn release(&mut self, object: ObjectId, task: Task)
        ensures given_back { IsWithout self.old.claims (object, task) self.new.claims }
        ensures unclaimed { (Contains self.old.claims (object, task) → ⊥) → self.new ≡ self.old }
        ensures run { self.new.run ≡ self.old.run }
        ensures terms { KeepsTerms self.old self.new }
        ensures total { self.new.total ≡ self.old.total }
    {
        self.desk.give_back(object, task);
    }

    /// The run so far, as a system.
    #[inline(always)]
    pub fn system(&self) -> &System
        ensures run { result.now ≡ self.now.run }
        ensures kept { IsKept self.now }
    {
        &self.desk.system
    }

    /// How many of the stimuli are posted: as many as the journal has posts.
    pub fn posted(&self) -> u32
        ensures { result ≡ length (posts_of self.now.run.journal) }
    {
        self.desk.posted as u32
    }

    /// The stimuli, in the order in which they are posted.
    pub fn stimuli(&self) -> &[Stimulus]
        ensures stimuli { result.now ≡ self.now.stimuli }
        ensures known { AllByRecursion (IsStimulusOf self.now.run.setting) self.now.stimuli }
    {
        self.desk.stimuli.as_slice()
    }

    /// How many entries the journal may have.
    pub fn limit(&self) -> u32
        ensures { result ≡ self.now.limit }
    {
        self.desk.limit
    }

    /// How many posts, sends and marks the journal has.
    pub fn outputs(&self) -> usize
        ensures { result ≡ output_count self.now.run.journal }
    {
        self.desk.outputs
    }

    /// Changes nothing, and tells that a share with all parts counts the entries of the journal.
    pub fn audit(&mut self, all: &mut Share<L>)
        ensures same { self.new ≡ self.old }
        ensures parts { all.new.parts ≡ all.old.parts }
        ensures amount { all.new.amount ≡ all.old.amount }
        ensures whole { all.old.parts ≡ L.parts → all.old.amount ≡ length self.old.run.journal }
    {
        self.tally.audit(all);
    }

    /// The system. What else the book has is dropped.
    pub fn into_system(self) -> System
        ensures { result ≡ self.run }
    {
        let Book {
            alloc: _,
            desk,
            tally,
        } = self;
        let Desk {
            system,
            stimuli,
            limit: _,
            posted: _,
            outputs: _,
            claims,
        } = desk;
        drop(stimuli);
        drop(claims);
        drop(tally);
        system
    }
}

// Counts the entry that a claim has appended, if it has.
fn count_claim<L: Ledger>(tally: &mut Tally<L>, share: &mut Share<L>, answer: &Claimed)
    requires { 0 < share.old.parts }
    ensures total { tally.new.total ≡ tally.old.total + entries_by_claim answer.now }
    ensures amount { share.new.amount ≡ share.old.amount + entries_by_claim answer.now }
    ensures parts { share.new.parts ≡ share.old.parts }
{
    if let Claimed::Moved = answer {
        tally.add(share, 1);
    }
}

// Counts the entry that a commit has appended, if it has.
fn count_commit<L: Ledger>(tally: &mut Tally<L>, share: &mut Share<L>, answer: Committed)
    requires { 0 < share.old.parts }
    ensures total { tally.new.total ≡ tally.old.total + entries_by_commit answer }
    ensures amount { share.new.amount ≡ share.old.amount + entries_by_commit answer }
    ensures parts { share.new.parts ≡ share.old.parts }
{
    if let Committed::Done = answer {
        tally.add(share, 1);
    }
}
