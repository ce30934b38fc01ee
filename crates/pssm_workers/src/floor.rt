//! `Floor`: what all workers share.
ghost use Rattle.std.specs.Prelude.{◌≡◌, Some, IfOk, IfSome};
ghost use Rattle.pssm_book.specs.Works.{behaviour_in};
ghost use Rattle.pssm_workers.specs.inner.Jobs.{IsJobIn, HandsOutIn};

use crate::hall::Hall;
use crate::scene::Scene;
use crate::seat::Seat;
use pssm_book::{Book, Claimed, Job};
use pssm_semantics::{Entry, ObjectId, Task, Worked};
use pssm_system::System;
use std::alloc::AllocError as NoMemory;
use std::hint::spin_loop;
use std::sync::ledger::Ledger;
use std::sync::{Condvar, Mutex, MutexGuard, Wait};
use std::time::Duration;

// How often a worker looks whether the lock is free before it sleeps until it is: to sleep and to be
// woken costs more than most holdings of the lock.
const LOOKS: u32 = 2_000;

// How long a worker steps back, in milliseconds.
const STEP_BACK: u64 = 1;

/// What all workers share: the book under its lock, and where they sleep.
///
/// A call holds the lock once, and once more, changing nothing, where it has slept; the book takes
/// one entry at most in it. A worker for which there is nothing to do sleeps until another appends
/// an entry after which there may be more to do than that one goes on with: a start, an opening or
/// a pick, one that sends or marks, or one after which several tasks of its object are ready. It is
/// woken too where another steps back from what it has committed, gives a task back or ends.
///
/// A hasty worker, whose last behaviours were all short, steps back for a while where it meets
/// another at the lock: workers that meet there again and again are done sooner by one of them
/// alone. Where several share it, a worker goes on with the object at which it is, so that the lock
/// is taken once an entry, and what lies under it moves seldom from one processor to another.
pub struct Floor<L: Ledger, V: Scene> {
    hall: Mutex<Hall<L, V>>,
    // where those sleep that find everything handed out
    more: Condvar,
    // where those sleep that have stepped back
    back: Condvar,
    // whether several workers share it
    shared: bool,
}

impl<L: Ledger, V: Scene> Floor<L, V> {
    /// The floor on which this book lies, for one worker or for several that share it.
    pub fn new(book: Book<L>, shared: bool) -> Floor<L, V>
        requires { book.run.setting ≡ V.setting }
    {
        Floor {
            hall: Mutex::new(Hall::new(book)),
            more: Condvar::new(),
            back: Condvar::new(),
            shared,
        }
    }

    /// Claims what may be done next. Where all is handed out it sleeps until there is more, before it
    /// answers so. Where the book has gone on by a move of an object instead, a task of it that is ready
    /// is claimed in the same holding, if several workers share the floor. A hasty worker that meets
    /// another at the lock steps back in place of claiming.
    pub fn claim<R: Wait>(
        &self,
        rt: &R,
        word: u64,
        hasty: bool,
        seat: &mut Seat<L>,
    ) -> Result<Option<Claimed>, NoMemory>
        ensures { IfOk result (λ claimed. IfSome claimed (HandsOutIn V.setting)) }
    {
        let mut hall = match self.hall.try_lock() {
            Some(hall) => hall,
            None if hasty => {
                self.step_back(rt);
                return Ok(None);
            }
            None => self.enter(rt),
        };
        let claimed = seat.claim(&mut *hall, word)?;
        match &claimed {
            // (the lock is given up in the wait: who makes more ready after this, or ends, wakes it)
            Claimed::Busy { .. } => drop(self.more.wait(rt, hall)),
            // (who works alone has nobody to wake, and claims anew)
            Claimed::Moved if self.shared => {
                let more = opens_more(hall.book());
                let moved = last_moved(hall.book());
                let job = self.claim_more(&mut *hall, moved)?;
                self.leave(hall, more);
                if let Some(job) = job {
                    return Ok(Some(Claimed::Job(job)));
                }
            }
            _ => drop(hall),
        }
        Ok(Some(claimed))
    }

    /// Commits what was run for a task: the task's behaviour. Where several workers share the floor,
    /// a further task of its object that is ready is claimed in the same holding; but a hasty worker
    /// that has met another at the lock steps back instead.
    pub fn commit<R: Wait>(
        &self,
        rt: &R,
        task: Task,
        worked: &Worked,
        hasty: bool,
        seat: &mut Seat<L>,
    ) -> Result<Option<Job>, NoMemory>
        requires { behaviour_in V.setting worked.now.own task ≡ Some worked.now.act }
        ensures { IfOk result (λ job. IfSome job (IsJobIn V.setting)) }
    {
        let free = self.hall.try_lock();
        let met = free.is_none();
        let mut hall = match free {
            Some(hall) => hall,
            None => self.enter(rt),
        };
        seat.commit(&mut *hall, task, worked)?;
        if !self.shared {
            drop(hall);
            return Ok(None);
        }
        let steps_back = met && hasty;
        let more = makes_more(hall.book(), worked);
        if steps_back {
            self.leave(hall, true);
            self.step_back(rt);
            return Ok(None);
        }
        // (the task is given back by now: who has no memory for a further one claims anew)
        let job = match self.claim_more(&mut *hall, Some(worked.own())) {
            Ok(job) => job,
            Err(_) => None,
        };
        self.leave(hall, more);
        Ok(job)
    }

    /// Gives a task back with nothing done, and wakes all.
    pub fn release<R: Wait>(&self, rt: &R, object: ObjectId, task: Task) {
        let mut hall = self.enter(rt);
        hall.release(object, task);
        drop(hall);
        self.wake();
    }

    /// Wakes all.
    pub fn wake(&self) {
        self.more.notify_all();
        self.back.notify_all();
    }

    /// The book.
    pub fn into_book(self) -> Book<L> {
        let Floor {
            hall,
            more,
            back,
            shared: _,
        } = self;
        drop(more);
        drop(back);
        hall.into_inner().into_book()
    }

    // A ready task of this object that is not handed out, where several workers share the floor.
    fn claim_more(
        &self,
        hall: &mut Hall<L, V>,
        object: Option<ObjectId>,
    ) -> Result<Option<Job>, NoMemory>
        ensures { IfOk result (λ job. IfSome job (IsJobIn V.setting)) }
    {
        match object {
            Some(object) if self.shared => hall.claim_of(object),
            _ => Ok(None),
        }
    }

    // The hall under its lock.
    fn enter<R: Wait>(&self, rt: &R) -> MutexGuard<'_, Hall<L, V>> {
        for _i in 0..LOOKS {
            if let Some(hall) = self.hall.try_lock() {
                return hall;
            }
            spin_loop();
        }
        self.hall.lock(rt)
    }

    // Gives the lock up, and wakes one that sleeps where there may be something for it to do.
    fn leave(&self, hall: MutexGuard<'_, Hall<L, V>>, more: bool) {
        drop(hall);
        if more {
            self.more.notify_one();
        }
    }

    // Sleeps a while, or until all are woken.
    fn step_back<R: Wait>(&self, rt: &R) {
        let seen = self.back.notifications();
        self.back.sleep(rt, seen, Duration::from_millis(STEP_BACK));
    }
}

// The object of the move that was appended last; none where it was a post.
fn last_moved<L: Ledger>(book: &Book<L>) -> Option<ObjectId> {
    match book.system().entries().last() {
        Some(
            Entry::Start { object }
            | Entry::Take { object, .. }
            | Entry::Done { object, .. }
            | Entry::Opened { object, .. }
            | Entry::Pick { object, .. },
        ) => Some(*object),
        _ => None,
    }
}

// Whether there may be something for another worker after the post or move that was appended last:
// it is a start, an opening or a pick, or several tasks of its object are ready.
fn opens_more<L: Ledger>(book: &Book<L>) -> bool {
    let system = book.system();
    match system.entries().last() {
        Some(Entry::Start { .. } | Entry::Opened { .. } | Entry::Pick { .. }) => true,
        Some(Entry::Take { object, .. } | Entry::Done { object, .. }) => {
            has_several(system, *object)
        }
        _ => false,
    }
}

// Whether there may be something for another worker after what was run for a task: it has sent or
// marked something, or several tasks of its object are ready.
fn makes_more<L: Ledger>(book: &Book<L>, worked: &Worked) -> bool {
    !worked.outcome().outs.as_slice().is_empty() || has_several(book.system(), worked.own())
}

// Whether more than one task of an object is ready.
fn has_several(system: &System, object: ObjectId) -> bool {
    system.find_task_of(object, 1).is_some()
}
