//! What a worker does.
ghost use Rattle.std.specs.Prelude.{IfOk, IfSome};
ghost use Rattle.pssm_workers.specs.inner.Jobs.{IsJobIn};

use crate::floor::Floor;
use crate::scene::Scene;
use crate::seat::Seat;
use crate::words::words_of;
use pssm_base::Gate;
use pssm_book::{Claimed, Job};
use pssm_semantics::run;
use rand_core::Rng;
use rand_pcg::Pcg64;
use std::alloc::{AllocError as NoMemory, Global};
use std::sync::ledger::Ledger;
use std::sync::{Mutex, Wait};

/// Sits down, and works until nothing is left to do, the journal is full or memory has run out;
/// then wakes the others, who will find the same or go on without it.
pub fn sit<L: Ledger, V: Scene, R: Wait, G: Gate>(
    rt: &R,
    alloc: Global,
    floor: &Floor<L, V>,
    gate: &G,
    seat: &Mutex<Seat<L>>,
    seed: u64,
    number: u64,
) {
    let words = words_of(seed, number);
    let mut taken = seat.lock(rt);
    let seat = &mut *taken;
    let starved = work(rt, alloc, floor, gate, seat, words).is_err();
    seat.note(starved);
    floor.wake();
}

// After so many short behaviours a worker is hasty.
const PATIENCE: u32 = 8;

// A behaviour of so many statements is long: to run it takes longer than to hand the lock on.
const LONG: usize = 32;

// Claims, runs and commits, again and again. Words settle what comes where several things may.
fn work<L: Ledger, V: Scene, R: Wait, G: Gate>(
    rt: &R,
    alloc: Global,
    floor: &Floor<L, V>,
    gate: &G,
    seat: &mut Seat<L>,
    words: Pcg64,
) -> Result<(), NoMemory> {
    let mut words = words;
    let mut turn: u64 = 0;
    let mut patience: u32 = PATIENCE;
    let mut next: Option<Job> = None;
    for _ in rt.forever() {
        match next.take() {
            Some(job) => {
                gate.before(job.object.0, turn);
                turn = turn.saturating_add(1);
                patience = patience_after(&job, patience);
                next = do_job(rt, alloc, floor, patience == 0, seat, job)?;
            }
            None => match floor.claim(rt, words.next_u64(), patience == 0, seat)? {
                Some(Claimed::Job(job)) => next = Some(job),
                Some(Claimed::Moved | Claimed::Busy { .. }) | None => {}
                Some(Claimed::Quiet | Claimed::Full) => return Ok(()),
            },
        }
    }
    unreachable!()
}

// The patience that is left after a behaviour: all of it after a long one.
fn patience_after(job: &Job, patience: u32) -> u32 {
    if job.act.stmts.as_slice().len() >= LONG {
        PATIENCE
    } else {
        patience.saturating_sub(1)
    }
}

// Runs the behaviour of a task, and commits it; the answer is the task to go on with, if one was
// claimed. Where memory runs out the task is given back.
fn do_job<L: Ledger, V: Scene, R: Wait>(
    rt: &R,
    alloc: Global,
    floor: &Floor<L, V>,
    hasty: bool,
    seat: &mut Seat<L>,
    job: Job,
) -> Result<Option<Job>, NoMemory>
    requires { IsJobIn V.setting job }
    ensures { IfOk result (λ job. IfSome job (IsJobIn V.setting)) }
{
    let object = job.object;
    let task = job.task;
    let done = run_and_commit(rt, alloc, floor, hasty, seat, job);
    if done.is_err() {
        floor.release(rt, object, task);
    }
    done
}

// Runs the behaviour of a task outside the lock, and commits it; the answer is the task to go on
// with, if one was claimed.
fn run_and_commit<L: Ledger, V: Scene, R: Wait>(
    rt: &R,
    alloc: Global,
    floor: &Floor<L, V>,
    hasty: bool,
    seat: &mut Seat<L>,
    job: Job,
) -> Result<Option<Job>, NoMemory>
    requires { IsJobIn V.setting job }
    ensures { IfOk result (λ job. IfSome job (IsJobIn V.setting)) }
{
    let worked = run(
        alloc,
        job.object,
        &job.act,
        job.store.as_slice(),
        &job.params,
    )?;
    floor.commit(rt, job.task, &worked, hasty, seat)
}
