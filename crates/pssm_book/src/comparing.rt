//! What the work for a task is worth now.
ghost use Rattle.std.specs.Prelude.{◌≡◌, ◌<◌, ◌↔◌, length, Some, IsTrue, Contains};
ghost use Rattle.pssm_semantics.specs.Values.{no_params};
ghost use Rattle.pssm_semantics.specs.Pool.{told_by};
ghost use Rattle.pssm_semantics.specs.Behaviours.{params_of};
ghost use Rattle.pssm_system.specs.Tasks.{IsReadyOf};
ghost use Rattle.pssm_book.specs.Works.{behaviour_in, params_in};
ghost use Rattle.pssm_book.specs.inner.Comparing.{ComparesStores, Compares};

use crate::behaviours::behaviour;
use crate::desk::Desk;
use pssm_model::Same;
use pssm_semantics::{Args, Task, Worked};

/// How the work for a task stands to the task: it is not its work, it was run on other values, or
/// it is what the task would come to now.
#[derive(Clone, Copy)]
pub enum Compared {
    Apart,
    Differing {
        variable: u16,
        kept: i64,
        carried: i64,
    },
    Same,
}

impl Desk {
    ghost use Rattle.pssm_book.specs.inner.Keeping.{IsInOrder};

    /// Whether what was run is the behaviour of a task.
    pub fn is_run_of(&self, task: Task, worked: &Worked) -> bool
        ensures { IsTrue result
            ↔ (behaviour_in self.now.system.setting worked.now.own task ≡ Some worked.now.act) }
    {
        match behaviour(self.system.setting(), worked.own(), task) {
            Some(act) => act.same(worked.act()),
            None => false,
        }
    }

    /// How what was run stands to a task that is handed out, where it is the task's behaviour.
    pub fn compare(&self, task: Task, worked: &Worked) -> Compared
        requires order { IsInOrder self.now }
        requires claimed { Contains self.now.claims.items (worked.now.own, task) }
        requires known { behaviour_in self.now.system.setting worked.now.own task ≡ Some worked.now.act }
        ensures { Compares self.now.system self.now.claims.items task worked.now result }
    {
        let object = worked.own();
        if !self.system.is_ready(object, task) {
            return Compared::Apart;
        }
        if !self.has_params(task, worked) {
            return Compared::Apart;
        }
        compare_stores(self.system.store(object), worked.store())
    }

    // Whether what was run for a ready task was run on the parameters of the task's entry.
    fn has_params(&self, task: Task, worked: &Worked) -> bool
        requires { IsReadyOf self.now.system.setting self.now.system.journal worked.now.own task }
        ensures { IsTrue result ↔ (worked.now.params ≡ params_in self.now.system.journal worked.now.own task) }
    {
        match task {
            Task::DoStep(_, _) => are_zeros(worked.params()),
            Task::Exit(_) | Task::Effect(_) | Task::Enter(_) => self.has_own_params(worked),
        }
    }

    // Whether it was run on the parameters of the object's step.
    fn has_own_params(&self, worked: &Worked) -> bool
        requires { worked.now.own.0 < length self.now.system.setting.objects }
        ensures { IsTrue result ↔ (worked.now.params
            ≡ params_of (told_by self.now.system.journal) self.now.system.journal worked.now.own) }
    {
        worked.params().same(self.system.params(worked.own()))
    }
}

// Whether these are eight zeros.
fn are_zeros(params: &Args) -> bool
    ensures { IsTrue result ↔ (params.now ≡ no_params) }
{
    params.as_slice() == [0i64; 8].as_slice()
}

// How the values that were carried stand to those that are kept.
fn compare_stores(kept: &[i64], carried: &[i64]) -> Compared
    requires { length kept.now < 65536 }
    ensures { ComparesStores kept.now carried.now result }
{
    if kept.len() != carried.len() {
        return Compared::Apart;
    }
    for i in 0..kept.len() {
        if kept[i] != carried[i] {
            return Compared::Differing {
                variable: i as u16,
                kept: kept[i],
                carried: carried[i],
            };
        }
    }
    Compared::Same
}
