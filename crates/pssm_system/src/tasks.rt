//! The ready tasks of all objects.
ghost use Rattle.std.specs.Prelude.{◌≡◌, ◌↔◌, ◌<◌, List, length, slice_get, Some, IsTrue};
ghost use Rattle.pssm_semantics.specs.declared.entry.Entry.{Entry as AnEntry};
ghost use Rattle.pssm_semantics.specs.Proper.{IsWellFormed};
ghost use Rattle.pssm_system.specs.Tasks.{IsReadyOf, own_tasks};
ghost use Rattle.pssm_system.specs.inner.Keeping.{tasks_of};

use crate::entries::class_of;
use crate::situation::Situation;
use pssm_semantics::{ObjectId, Setting, Task};

impl Situation {
    ghost use Rattle.pssm_system.specs.inner.Keeping.{StandsSo, Stands};

    /// How many tasks are ready.
    pub fn task_count(&self, setting: &Setting) -> u32
        requires well_formed { IsWellFormed setting.now }
        requires stands { Stands setting.now self.now }
        ensures { result ≡ length (tasks_of setting.now self.now.objects.items) }
    {
        let mut count = 0;
        for k in 0..self.objects.as_slice().len() as u8 {
            let object = &self.objects[usize::from(k)];
            count += object.task_count(class_of(setting, ObjectId(k)));
        }
        count
    }

    /// The ready task with a number, in the order of the objects, with the object that it is of.
    pub fn task_at(&self, setting: &Setting, i: u32) -> (ObjectId, Task)
        requires well_formed { IsWellFormed setting.now }
        requires stands { Stands setting.now self.now }
        requires there { i < length (tasks_of setting.now self.now.objects.items) }
        ensures { slice_get (tasks_of setting.now self.now.objects.items) i ≡ Some result }
    {
        let mut rest = i;
        for k in 0..self.objects.as_slice().len() as u8 {
            let class = class_of(setting, ObjectId(k));
            let object = &self.objects[usize::from(k)];
            let count = object.task_count(class);
            if rest < count {
                return (ObjectId(k), object.task_at(class, rest));
            }
            rest -= count;
        }
        unreachable!()
    }

    // Whether there is such an object.
    fn has(&self, own: ObjectId) -> bool
        ensures { IsTrue result ↔ (own.0 < length self.now.objects.items) }
    {
        usize::from(own.0) < self.objects.as_slice().len()
    }

    /// Whether a task of an object is ready; none is of an object that the setting does not have.
    pub fn is_ready(&self, setting: &Setting, own: ObjectId, task: Task) -> bool
        requires well_formed { IsWellFormed setting.now }
        requires stands { Stands setting.now self.now }
        ensures { (J : List AnEntry) → StandsSo setting.now J self.now
            → (IsTrue result ↔ IsReadyOf setting.now J own task) }
    {
        if !self.has(own) {
            return false;
        }
        let object = &self.objects[usize::from(own.0)];
        object.is_ready(class_of(setting, own), task)
    }

    /// How many tasks of an object are ready.
    pub fn task_count_of(&self, setting: &Setting, own: ObjectId) -> u32
        requires well_formed { IsWellFormed setting.now }
        requires stands { Stands setting.now self.now }
        ensures { result ≡ length (own_tasks own (tasks_of setting.now self.now.objects.items)) }
    {
        if !self.has(own) {
            return 0;
        }
        let object = &self.objects[usize::from(own.0)];
        object.task_count(class_of(setting, own))
    }

    /// The ready task of an object with a number.
    pub fn task_of(&self, setting: &Setting, own: ObjectId, i: u32) -> Task
        requires well_formed { IsWellFormed setting.now }
        requires stands { Stands setting.now self.now }
        requires there { i < length (own_tasks own (tasks_of setting.now self.now.objects.items)) }
        ensures { slice_get (own_tasks own (tasks_of setting.now self.now.objects.items)) i ≡ Some result }
    {
        if !self.has(own) {
            unreachable!();
        }
        let object = &self.objects[usize::from(own.0)];
        object.task_at(class_of(setting, own), i)
    }

    /// The ready task of an object with a number, if there are as many.
    pub fn find_task_of(&self, setting: &Setting, own: ObjectId, i: u32) -> Option<Task>
        requires well_formed { IsWellFormed setting.now }
        requires stands { Stands setting.now self.now }
        ensures task { result ≡ slice_get (own_tasks own (tasks_of setting.now self.now.objects.items)) i }
        ensures few { length (own_tasks own (tasks_of setting.now self.now.objects.items)) < 4294967296 }
    {
        if !self.has(own) {
            return None;
        }
        let object = &self.objects[usize::from(own.0)];
        object.find_task(class_of(setting, own), i)
    }
}
