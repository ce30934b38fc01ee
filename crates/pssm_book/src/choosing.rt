//! What may be done next at a desk.
ghost use Rattle.std.specs.Prelude.{◌≡◌, ◌≤◌, ◌<◌, length, IfOk, IfSome, IfNone};

use crate::desk::Desk;
use pssm_semantics::{Entry, ObjectId, Task};
use std::alloc::{AllocError as NoMemory, Global};

/// What may be done next: append this entry, hand out this task of this object, wait for a task
/// that is handed out, or end.
#[derive(Drop)]
pub enum Next {
    Append(Entry),
    Work(ObjectId, Task),
    Wait,
    End,
}

impl Desk {
    ghost use Rattle.pssm_book.specs.Claiming.{IsOpen};
    ghost use Rattle.pssm_book.specs.inner.Keeping.{IsInOrder};
    ghost use Rattle.pssm_book.specs.inner.Nexts.{Finds, FindsWithin, FindsAmong, GoesOn, HasNothingOf, IsStill, AreOutOf};

    /// What may be done next. Where several things may, the word picks one.
    #[tactic(auto, using(crate::proofs::DeskLaws::within_next, crate::proofs::DeskLaws::none_waits))]
    pub fn next(&self, alloc: Global, word: u64) -> Result<Next, NoMemory>
        requires { IsInOrder self.now }
        ensures { IfOk result (Finds self.now) }
    {
        let waits = self.posted < self.stimuli.len();
        if waits && word % 2 == 0 {
            return self.post(alloc);
        }
        match self.within(word / 2)? {
            Some(next) => Ok(next),
            None if waits => self.post(alloc),
            None => Ok(self.nothing()),
        }
    }

    // The post of the stimulus that waits.
    fn post(&self, alloc: Global) -> Result<Next, NoMemory>
        requires order { IsInOrder self.now }
        requires waits { self.now.posted < length self.now.stimuli.items }
        ensures { IfOk result (Finds self.now) }
    {
        let stimulus = &self.stimuli[self.posted];
        Ok(Next::Append(Entry::Post {
            object: stimulus.object,
            signal: stimulus.signal,
            args: stimulus.args.copy(alloc)?,
        }))
    }

    // What may be done next beside a post: a task that is not handed out, or a move. The word says
    // at which object the search begins.
    fn within(&self, word: u64) -> Result<Option<Next>, NoMemory>
        requires { IsInOrder self.now }
        ensures { IfOk result (FindsWithin self.now) }
    {
        let count = self.object_count();
        if count == 0 {
            return Ok(None);
        }
        let first = (word % u64::from(count)) as u8;
        let rest = word / u64::from(count);
        match self.next_among(first, count, rest)? {
            Some(next) => Ok(Some(next)),
            None => self.next_among(0, first, rest),
        }
    }

    // The same of the objects from one number on and before another: that of the first that has any.
    fn next_among(&self, from: u8, to: u8, word: u64) -> Result<Option<Next>, NoMemory>
        requires order { IsInOrder self.now }
        requires there { to ≤ length self.now.system.setting.objects }
        ensures { IfOk result (FindsAmong self.now from to) }
    {
        for k in from..to {
            if let Some(next) = self.next_of(ObjectId(k), word)? {
                return Ok(Some(next));
            }
        }
        Ok(None)
    }

    // The same of one object. The word says whether a task or a move is looked for first.
    fn next_of(&self, object: ObjectId, word: u64) -> Result<Option<Next>, NoMemory>
        requires order { IsInOrder self.now }
        requires there { object.0 < length self.now.system.setting.objects }
        ensures some { IfOk result (λ found. IfSome found (GoesOn self.now)) }
        ensures none { IfOk result (λ found. IfNone found (HasNothingOf self.now object)) }
    {
        if self.system.quiet_of(object) {
            return Ok(None);
        }
        if word % 2 == 0 {
            self.work_or_move(object, word / 2)
        } else {
            self.move_or_work(object, word / 2)
        }
    }

    // A task of the object that is not handed out, and where there is none a move of it.
    fn work_or_move(&self, object: ObjectId, word: u64) -> Result<Option<Next>, NoMemory>
        requires order { IsInOrder self.now }
        requires there { object.0 < length self.now.system.setting.objects }
        ensures some { IfOk result (λ found. IfSome found (GoesOn self.now)) }
        ensures none { IfOk result (λ found. IfNone found (HasNothingOf self.now object)) }
    {
        if let Some(task) = self.open_of(object) {
            return Ok(Some(Next::Work(object, task)));
        }
        match self.system.choose_move_of(object, word)? {
            Some(entry) => Ok(Some(Next::Append(entry))),
            None => Ok(None),
        }
    }

    // A move of the object, and where there is none a task of it that is not handed out.
    fn move_or_work(&self, object: ObjectId, word: u64) -> Result<Option<Next>, NoMemory>
        requires order { IsInOrder self.now }
        requires there { object.0 < length self.now.system.setting.objects }
        ensures some { IfOk result (λ found. IfSome found (GoesOn self.now)) }
        ensures none { IfOk result (λ found. IfNone found (HasNothingOf self.now object)) }
    {
        if let Some(entry) = self.system.choose_move_of(object, word)? {
            return Ok(Some(Next::Append(entry)));
        }
        match self.open_of(object) {
            Some(task) => Ok(Some(Next::Work(object, task))),
            None => Ok(None),
        }
    }

    // How many objects there are.
    fn object_count(&self) -> u8
        requires { IsInOrder self.now }
        ensures { result ≡ length self.now.system.setting.objects }
    {
        self.system.setting().objects.as_slice().len() as u8
    }

    // Where no entry may be appended, and no task is left to be handed out: whether one is waited
    // for.
    #[tactic(auto, using(crate::proofs::DeskLaws::one_listed))]
    fn nothing(&self) -> Next
        requires order { IsInOrder self.now }
        requires still { IsStill self.now }
        ensures { Finds self.now result }
    {
        if self.system.task_count() == 0 {
            Next::End
        } else {
            Next::Wait
        }
    }

    // The first ready task of an object that is not handed out, if there is one.
    #[tactic(auto, using(crate::proofs::DeskLaws::open_of_listed, crate::proofs::DeskLaws::out_first_more))]
    pub(crate) fn open_of(&self, object: ObjectId) -> Option<Task>
        ensures some { IfSome result (λ task. IsOpen self.now.system self.now.claims.items object task) }
        ensures none { IfNone result (AreOutOf self.now object) }
    {
        let mut i = 0;
        while let Some(task) = self.system.find_task_of(object, i) {
            if !self.has_claim(object, task) {
                return Some(task);
            }
            i += 1;
        }
        None
    }
}
