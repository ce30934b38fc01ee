//! An entry that may come next.
ghost use Rattle.std.specs.Prelude.{◌≡◌, ◌≤◌, ◌<◌, ◌+◌, ◌↔◌, List, length, IsTrue, IfOk};
ghost use Rattle.std.specs.Option.{option_copied};
ghost use Rattle.pssm_semantics.specs.declared.entry.Entry.{Entry as AnEntry};
ghost use Rattle.pssm_semantics.specs.Classes.{IsWellFormedClass};
ghost use Rattle.pssm_semantics.specs.Proper.{IsWellFormed};
ghost use Rattle.pssm_semantics.specs.Admissible.{IsQuiet};
ghost use Rattle.pssm_object.specs.Standing.{Stands as ObjectStands};
ghost use Rattle.pssm_object.specs.Tasks.{ready_tasks};
ghost use Rattle.pssm_system.specs.Tasks.{IsQuietOf};
ghost use Rattle.pssm_system.specs.inner.Choosing.{IsNextAlways, Finds};

use crate::entries::class_of;
use crate::situation::Situation;
use pssm_object::Object;
use pssm_pool::Waiting;
use pssm_semantics::{Class, Entry, ObjectId, Setting};
use std::alloc::{AllocError as NoMemory, Global};

/// Which entries are looked for.
#[derive(Clone, Copy)]
pub enum Wanted {
    /// All but posts.
    AnyEntry,
    /// Those that begin a step, and those in which the machine has a choice of ways.
    Move,
}

impl Situation {
    ghost use Rattle.pssm_system.specs.inner.Keeping.{StandsSo, Stands};
    ghost use Rattle.pssm_system.specs.inner.Choosing.{FindsAmong};

    /// Whether no entry but a post may come next.
    pub fn is_quiet(&self, setting: &Setting) -> bool
        requires well_formed { IsWellFormed setting.now }
        requires stands { Stands setting.now self.now }
        ensures { (J : List AnEntry) → StandsSo setting.now J self.now → (IsTrue result ↔ IsQuiet setting.now J) }
    {
        for k in 0..self.objects.as_slice().len() as u8 {
            let object = &self.objects[usize::from(k)];
            let waiting = self.first_for(setting, ObjectId(k)).is_some();
            if !object.quiet(class_of(setting, ObjectId(k)), waiting) {
                return false;
            }
        }
        true
    }

    /// Whether no entry of the object but a post may come next.
    pub fn is_quiet_of(&self, setting: &Setting, own: ObjectId) -> bool
        requires well_formed { IsWellFormed setting.now }
        requires stands { Stands setting.now self.now }
        requires there { own.0 < length self.now.objects.items }
        ensures { (J : List AnEntry) → StandsSo setting.now J self.now → (IsTrue result ↔ IsQuietOf setting.now J own) }
    {
        let object = &self.objects[usize::from(own.0)];
        let class = class_of(setting, own);
        if !object.quiet(class, false) {
            return false;
        }
        // (what waits is looked for only where nothing else is to be done)
        match self.first_for(setting, own) {
            Some(_) => object.quiet(class, true),
            None => true,
        }
    }

    /// An entry of those that are looked for that may come next, if there is one.
    ///
    /// The word says with which object the search begins, and what is chosen there.
    pub fn choose(
        &self,
        alloc: Global,
        setting: &Setting,
        wanted: Wanted,
        word: u64,
    ) -> Result<Option<Entry>, NoMemory>
        requires well_formed { IsWellFormed setting.now }
        requires stands { Stands setting.now self.now }
        ensures { IfOk result (FindsAmong setting.now self.now wanted 0 (length self.now.objects.items)) }
    {
        let count = self.objects.as_slice().len() as u8;
        if count == 0 {
            return Ok(None);
        }
        let first = (word % u64::from(count)) as u8;
        let rest = word / u64::from(count);
        match self.choose_among(alloc, setting, first, count, wanted, rest)? {
            Some(entry) => Ok(Some(entry)),
            None => self.choose_among(alloc, setting, 0, first, wanted, rest),
        }
    }

    // The same of the objects from one on and before another: an entry of the first of them that has one.
    fn choose_among(
        &self,
        alloc: Global,
        setting: &Setting,
        from: u8,
        to: u8,
        wanted: Wanted,
        word: u64,
    ) -> Result<Option<Entry>, NoMemory>
        requires well_formed { IsWellFormed setting.now }
        requires stands { Stands setting.now self.now }
        requires there { to ≤ length self.now.objects.items }
        ensures { IfOk result (FindsAmong setting.now self.now wanted from to) }
    {
        for k in from..to {
            if let Some(entry) = self.choose_of(alloc, setting, ObjectId(k), wanted, word)? {
                return Ok(Some(entry));
            }
        }
        Ok(None)
    }

    /// The same of one object.
    pub fn choose_of(
        &self,
        alloc: Global,
        setting: &Setting,
        own: ObjectId,
        wanted: Wanted,
        word: u64,
    ) -> Result<Option<Entry>, NoMemory>
        requires well_formed { IsWellFormed setting.now }
        requires stands { Stands setting.now self.now }
        requires there { own.0 < length self.now.objects.items }
        ensures { IfOk result (FindsAmong setting.now self.now wanted own.0 (own.0 + 1)) }
    {
        let class = class_of(setting, own);
        let object = &self.objects[usize::from(own.0)];
        let signal = self.awaited(setting, own);
        next_of(alloc, object, class, signal, wanted, word)
    }
}

// The same of an object of the class, where this signal is the first that waits and is not deferred.
fn next_of(
    alloc: Global,
    object: &Object,
    class: &Class,
    signal: Option<&Waiting>,
    wanted: Wanted,
    word: u64,
) -> Result<Option<Entry>, NoMemory>
    requires class { IsWellFormedClass class.now }
    requires stands { ObjectStands class.now object.now }
    ensures { IfOk result (Finds class.now object.now (option_copied signal.entry) wanted) }
{
    match wanted {
        Wanted::AnyEntry => next_entry(alloc, object, class, signal, word),
        Wanted::Move => object.choose_move(class, signal, word),
    }
}

// An entry other than a post: the word picks one of the ready tasks or a move.
fn next_entry(
    alloc: Global,
    object: &Object,
    class: &Class,
    signal: Option<&Waiting>,
    word: u64,
) -> Result<Option<Entry>, NoMemory>
    requires class { IsWellFormedClass class.now }
    requires stands { ObjectStands class.now object.now }
    ensures { IfOk result (Finds class.now object.now (option_copied signal.entry) Wanted.AnyEntry) }
{
    let count = u64::from(object.task_count(class));
    let place = word % (count + 1);
    if place < count {
        return Ok(Some(task_entry(alloc, object, class, place as u32)?));
    }
    match object.choose_move(class, signal, word / (count + 1))? {
        Some(entry) => Ok(Some(entry)),
        None => {
            if count == 0 {
                return Ok(None);
            }
            Ok(Some(task_entry(alloc, object, class, 0)?))
        }
    }
}

// The entry of the ready task with a number.
fn task_entry(alloc: Global, object: &Object, class: &Class, i: u32) -> Result<Entry, NoMemory>
    requires class { IsWellFormedClass class.now }
    requires stands { ObjectStands class.now object.now }
    requires there { i < length (ready_tasks class.now.machine object.now) }
    ensures { IfOk result (IsNextAlways class.now object.now) }
{
    object.run_task(alloc, class, object.task_at(class, i))
}
