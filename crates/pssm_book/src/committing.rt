//! How a desk goes on by what was run for a task.
ghost use Rattle.std.specs.Prelude.{◌≡◌, Some, IfOk, OnOk, OnErr, Contains};
ghost use Rattle.pssm_semantics.specs.Admissible.{IsFull};
ghost use Rattle.pssm_semantics.specs.Work.{outcome_from};
ghost use Rattle.pssm_object.specs.Tasks.{entry_of as entry_for};
ghost use Rattle.pssm_book.specs.Works.{behaviour_in};
ghost use Rattle.pssm_book.specs.Committing.{IsUpToDate, IsWithout};
ghost use Rattle.pssm_book.specs.inner.Coming.{Commits};

use crate::answers::Committed;
use crate::comparing::Compared;
use crate::desk::Desk;
use pssm_model::{Duplicate, Row};
use pssm_semantics::{Entry, ObjectId, Out, Task, Worked};
use std::alloc::{AllocError as NoMemory, Global};

impl Desk {
    ghost use Rattle.pssm_book.specs.Contents.{KeepsTerms};
    ghost use Rattle.pssm_book.specs.inner.Keeping.{IsInOrder, IsUnchanged, HasAppended, bare};

    /// Takes back a task that was handed out, with what was run for it; the entry is appended where
    /// it may be.
    pub fn commit(
        &mut self,
        alloc: Global,
        task: Task,
        worked: &Worked,
    ) -> Result<Committed, NoMemory>
        requires { IsInOrder self.old }
        ensures order { IsInOrder self.new }
        ensures commits { IfOk result (λ answer. Commits (bare self.old) task worked.now answer (bare self.new)) }
        ensures given_back { IfOk result
            (λ answer. IsWithout self.old.claims.items (worked.now.own, task) self.new.claims.items) }
        ensures unclaimed { (Contains self.old.claims.items (worked.now.own, task) → ⊥) → IsUnchanged self.old self.new }
        ensures terms { KeepsTerms (bare self.old) (bare self.new) }
        ensures err { OnErr result (IsUnchanged self.old self.new) }
    {
        if self.is_run_of(task, worked) {
            return self.commit_known(alloc, task, worked);
        }
        self.give_back(worked.own(), task);
        Ok(Committed::Gone { task })
    }

    /// Takes back a task that was handed out, with what was run for it, which is known to be its
    /// behaviour; the entry is appended where it may be.
    pub fn commit_known(
        &mut self,
        alloc: Global,
        task: Task,
        worked: &Worked,
    ) -> Result<Committed, NoMemory>
        requires order { IsInOrder self.old }
        requires known { behaviour_in self.old.system.setting worked.now.own task ≡ Some worked.now.act }
        ensures order { IsInOrder self.new }
        ensures commits { IfOk result (λ answer. Commits (bare self.old) task worked.now answer (bare self.new)) }
        ensures given_back { IfOk result
            (λ answer. IsWithout self.old.claims.items (worked.now.own, task) self.new.claims.items) }
        ensures unclaimed { (Contains self.old.claims.items (worked.now.own, task) → ⊥) → IsUnchanged self.old self.new }
        ensures terms { KeepsTerms (bare self.old) (bare self.new) }
        ensures err { OnErr result (IsUnchanged self.old self.new) }
    {
        let object = worked.own();
        if !self.has_claim(object, task) {
            return Ok(Committed::Gone { task });
        }
        let answer = self.settle(alloc, task, worked)?;
        self.give_back(object, task);
        Ok(answer)
    }

    // What is answered for the work of a task that is handed out; the entry is appended where it
    // may be.
    fn settle(&mut self, alloc: Global, task: Task, worked: &Worked) -> Result<Committed, NoMemory>
        requires order { IsInOrder self.old }
        requires claimed { Contains self.old.claims.items (worked.now.own, task) }
        requires known { behaviour_in self.old.system.setting worked.now.own task ≡ Some worked.now.act }
        ensures order { IsInOrder self.new }
        ensures commits { IfOk result (λ answer. Commits (bare self.old) task worked.now answer (bare self.new)) }
        ensures claims { self.new.claims.items ≡ self.old.claims.items }
        ensures terms { KeepsTerms (bare self.old) (bare self.new) }
        ensures err { OnErr result (IsUnchanged self.old self.new) }
    {
        match self.compare(task, worked) {
            Compared::Apart => Ok(Committed::Gone { task }),
            Compared::Differing {
                variable,
                kept,
                carried,
            } => Ok(Committed::Stale {
                variable,
                kept,
                carried,
            }),
            Compared::Same => self.append_if_room(alloc, task, worked),
        }
    }

    // Appends the entry of the task where the journal has room.
    fn append_if_room(
        &mut self,
        alloc: Global,
        task: Task,
        worked: &Worked,
    ) -> Result<Committed, NoMemory>
        requires order { IsInOrder self.old }
        requires up_to_date { IsUpToDate self.old.system self.old.claims.items task worked.now }
        ensures order { IsInOrder self.new }
        ensures commits { IfOk result (λ answer. Commits (bare self.old) task worked.now answer (bare self.new)) }
        ensures claims { self.new.claims.items ≡ self.old.claims.items }
        ensures terms { KeepsTerms (bare self.old) (bare self.new) }
        ensures err { OnErr result (IsUnchanged self.old self.new) }
    {
        if self.is_full() {
            return Ok(Committed::Full);
        }
        self.append_task(alloc, task, worked)?;
        Ok(Committed::Done)
    }

    // Appends the entry of the task, with the outputs that its work made.
    fn append_task(&mut self, alloc: Global, task: Task, worked: &Worked) -> Result<(), NoMemory>
        requires order { IsInOrder self.old }
        requires room { IsFull self.old.limit self.old.system.journal → ⊥ }
        requires up_to_date { IsUpToDate self.old.system self.old.claims.items task worked.now }
        ensures ok { OnOk result (HasAppended self.old
            (entry_for worked.now.own task (outcome_from worked.now).outs) self.new) }
        ensures err { OnErr result (self.new ≡ self.old) }
    {
        let outs = worked.outcome().outs.duplicate(alloc)?;
        let more = outs.as_slice().len();
        let entry = entry_of(worked.own(), task, outs);
        self.system.settle(entry, worked)?;
        self.outputs += more;
        Ok(())
    }
}

// The entry of a task of an object, with these outputs.
fn entry_of(object: ObjectId, task: Task, outs: Row<Out>) -> Entry
    ensures { result ≡ entry_for object task outs }
{
    match task {
        Task::Exit(state) => Entry::Exit {
            object,
            state,
            outs,
        },
        Task::Effect(transition) => Entry::Effect {
            object,
            transition,
            outs,
        },
        Task::Enter(state) => Entry::Enter {
            object,
            state,
            outs,
        },
        Task::DoStep(state, step) => Entry::DoStep {
            object,
            state,
            step,
            outs,
        },
    }
}
