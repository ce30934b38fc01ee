//! How a task is handed out.
ghost use Rattle.std.specs.Prelude.{◌≡◌, ◌<◌, length, IfOk, OnOk, OnErr};
ghost use Rattle.pssm_semantics.specs.Arguments.{ActArgsFit};
ghost use Rattle.pssm_book.specs.Claiming.{IsOpen, CarriesWork};
ghost use Rattle.pssm_book.specs.Works.{store_in, params_in};

use crate::answers::Job;
use crate::behaviours::behaviour;
use crate::desk::Desk;
use pssm_model::Row;
use pssm_semantics::{Args, ObjectId, Task};
use std::alloc::{AllocError as NoMemory, Global};

// So many tasks are never handed out at once: room for more counts as want of memory.
const MOST_CLAIMS: usize = 65_536;

impl Desk {
    ghost use Rattle.pssm_book.specs.inner.Keeping.{IsInOrder, IsUnchanged, HasHandedOut};

    /// Hands out a ready task that is not handed out, with what its behaviour is run on.
    pub fn hand_out(&mut self, alloc: Global, object: ObjectId, task: Task) -> Result<Job, NoMemory>
        requires order { IsInOrder self.old }
        requires is_open { IsOpen self.old.system self.old.claims.items object task }
        ensures order { IsInOrder self.new }
        ensures names { IfOk result (λ job. (job.object ≡ object) × (job.task ≡ task)) }
        ensures carries { IfOk result (CarriesWork self.old.system) }
        ensures runs { IfOk result (λ job. ActArgsFit job.act) }
        ensures ok { OnOk result (HasHandedOut self.old object task self.new) }
        ensures err { OnErr result (IsUnchanged self.old self.new) }
    {
        if self.claims.len() >= MOST_CLAIMS {
            return Err(NoMemory);
        }
        let job = self.job(alloc, object, task)?;
        self.claims.reserve(1)?;
        self.claims.push_reserved((object, task));
        Ok(job)
    }

    // The job of a ready task.
    fn job(&self, alloc: Global, object: ObjectId, task: Task) -> Result<Job, NoMemory>
        requires order { IsInOrder self.now }
        requires is_open { IsOpen self.now.system self.now.claims.items object task }
        ensures names { IfOk result (λ job. (job.object ≡ object) × (job.task ≡ task)) }
        ensures carries { IfOk result (CarriesWork self.now.system) }
        ensures runs { IfOk result (λ job. ActArgsFit job.act) }
    {
        let Some(act) = behaviour(self.system.setting(), object, task) else {
            unreachable!();
        };
        Ok(Job {
            object,
            task,
            act: act.copy(alloc)?,
            store: self.values(alloc, object)?,
            params: self.params(alloc, object, task)?,
        })
    }

    // The values of the object's variables, as they are now.
    fn values(&self, alloc: Global, object: ObjectId) -> Result<Row<i64>, NoMemory>
        requires order { IsInOrder self.now }
        requires there { object.0 < length self.now.system.setting.objects }
        ensures { IfOk result (λ values. values ≡ store_in self.now.system.setting self.now.system.journal object) }
    {
        Ok(Row::from_vec(self.system.store(object).to_vec(alloc)?))
    }

    // The parameters of the task's entry: those of the object's step, and zeros for a do step.
    fn params(&self, alloc: Global, object: ObjectId, task: Task) -> Result<Args, NoMemory>
        requires { object.0 < length self.now.system.setting.objects }
        ensures { IfOk result (λ params. params ≡ params_in self.now.system.journal object task) }
    {
        match task {
            Task::DoStep(_, _) => Ok(Args::from_vec(vec![in alloc; 0; 8]?)),
            Task::Exit(_) | Task::Effect(_) | Task::Enter(_) => {
                self.system.params(object).copy(alloc)
            }
        }
    }
}
