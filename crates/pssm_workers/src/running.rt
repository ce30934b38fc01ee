//! Starting workers, and gathering what they leave.
ghost use Rattle.std.specs.Prelude.{◌≡◌, ◌≤◌, ◌+◌, length, vec_len, IfOk};
ghost use Rattle.std.specs.List.{AllByRecursion};
ghost use Rattle.pssm_semantics.specs.Proper.{IsWellFormed};
ghost use Rattle.pssm_semantics.specs.Known.{IsStimulusOf};

use crate::copies::copies;
use crate::floor::Floor;
use crate::gathered::Gathered;
use crate::scene::Scene;
use crate::seat::Seat;
use crate::shift::{Crew, Shift};
use pssm_base::Gate;
use pssm_book::Book;
use pssm_semantics::{Setting, Stimulus};
use std::alloc::{AllocError as NoMemory, Global};
use std::marker::Brand;
use std::sync::ledger::{Blank, Ledger, Share};
use std::sync::{Mutex, Wait};
use std::thread;
use std::thread::{Builder, Threads};

// The stack of a worker, in bytes. Behaviours nest some 4,000 deep, and to copy, to run, to compare
// and to drop one takes a frame for each level.
const STACK: usize = 64 << 20;

/// Runs the setting with these stimuli by so many workers, and gathers what they leave.
///
/// Each worker claims a task, tells the gate the number of its object and its own turn, from 0,
/// runs the behaviour and commits it; words that are made from the seed and the worker's number
/// settle what happens where several things may. The workers end when nothing more can happen or
/// the journal is full; no clause says that they do. Where a thread cannot be made no more are
/// tried, and the caller works in its place. The shares that come back as one have all parts of the
/// ledger, and count the entries of the book. `NoMemory`: memory ran out, for the caller or for a
/// worker; that it is the answer where it ran out for a worker, no clause says.
pub fn run_workers<L: Ledger + Send + Sync, R: Threads + Wait + Sync, G: Gate + Sync>(
    rt: &R,
    alloc: Global,
    blank: Blank,
    setting: &Setting,
    stimuli: &[Stimulus],
    limit: u32,
    workers: u8,
    seed: u64,
    gate: &G,
) -> Result<Gathered<L>, NoMemory>
    requires name { blank.name ≡ L.name }
    requires parts { blank.parts ≡ L.parts }
    requires enough { workers + 1 ≤ blank.parts }
    requires well_formed { IsWellFormed setting.now }
    requires known { AllByRecursion (IsStimulusOf setting.now) stimuli.now }
    requires limit { limit ≤ 1000000 }
    ensures whole { IfOk result (λ gathered. gathered.share.parts ≡ L.parts) }
    ensures counted { IfOk result (λ gathered. gathered.share.amount ≡ length gathered.book.run.journal) }
{
    run_in::<L, Brand, R, G>(
        rt, alloc, blank, setting, stimuli, limit, workers, seed, gate,
    )
}

// The same, with a type that stands for the setting.
fn run_in<
    L: Ledger + Send + Sync,
    V: Scene + Send + Sync,
    R: Threads + Wait + Sync,
    G: Gate + Sync,
>(
    rt: &R,
    alloc: Global,
    blank: Blank,
    setting: &Setting,
    stimuli: &[Stimulus],
    limit: u32,
    workers: u8,
    seed: u64,
    gate: &G,
) -> Result<Gathered<L>, NoMemory>
    requires name { blank.name ≡ L.name }
    requires parts { blank.parts ≡ L.parts }
    requires enough { workers + 1 ≤ blank.parts }
    requires scene { setting.now ≡ V.setting }
    requires well_formed { IsWellFormed setting.now }
    requires known { AllByRecursion (IsStimulusOf setting.now) stimuli.now }
    requires limit { limit ≤ 1000000 }
    ensures whole { IfOk result (λ gathered. gathered.share.parts ≡ L.parts) }
    ensures counted { IfOk result (λ gathered. gathered.share.amount ≡ length gathered.book.run.journal) }
{
    let setting = setting.copy(alloc)?;
    let stimuli = copies(alloc, stimuli)?;
    let (book, mut share) = Book::<L>::new(alloc, blank, setting, stimuli, limit)?;
    let seats = new_seats(alloc, &mut share, workers)?;
    let shift = Shift::<L, V> {
        alloc,
        floor: Floor::new(book, workers > 1),
        seats,
        seed,
    };
    all_work(rt, &shift, gate);
    let Shift {
        alloc: _,
        floor,
        seats,
        seed: _,
    } = shift;
    let starved = gather(seats, &mut share);
    let mut book = floor.into_book();
    if starved {
        return Err(NoMemory);
    }
    book.audit(&mut share);
    Ok(Gathered { book, share })
}

// So many seats, each with one part of the share.
fn new_seats<L: Ledger>(
    alloc: Global,
    share: &mut Share<L>,
    workers: u8,
) -> Result<Vec<Mutex<Seat<L>>>, NoMemory>
    requires parts { workers + 1 ≤ share.old.parts }
    requires amount { share.old.amount ≡ 0 }
    ensures { IfOk result (λ seats. share.new.parts + vec_len seats ≡ share.old.parts) }
{
    let mut seats = Vec::with_capacity(alloc, usize::from(workers))?;
    for _i in 0..workers {
        let part = share.split_off(1, 0);
        seats.push(Mutex::new(Seat::new(part)))?;
    }
    Ok(seats)
}

// Lets a thread of a crew work for each number below this one, and returns when all of them have ended.
fn work_together<R: Threads + Wait + Sync, G: Gate + Sync, C: Crew + Sync>(
    rt: &R,
    crew: &C,
    gate: &G,
    count: usize,
) {
    thread::scope(thread::scope_env(), rt, |scope| {
        for number in 0..count {
            let started = Builder::new()
                .stack_size(STACK)
                .spawn_scoped(scope, move || crew.work(rt, gate, number));
            if started.is_err() {
                // No thread can be made: the caller works here until the run has ended.
                crew.work(rt, gate, number);
                return;
            }
        }
    });
}

// Lets a thread work at each seat of a shift, and returns when all of them have ended.
fn all_work<
    L: Ledger + Send + Sync,
    V: Scene + Send + Sync,
    R: Threads + Wait + Sync,
    G: Gate + Sync,
>(rt: &R, shift: &Shift<L, V>, gate: &G) {
    work_together(rt, shift, gate, shift.seats.as_slice().len());
}

// Puts the shares of all seats together with this one. True where memory ran out for one of them.
fn gather<L: Ledger>(seats: Vec<Mutex<Seat<L>>>, share: &mut Share<L>) -> bool
    ensures { share.new.parts ≡ share.old.parts + vec_len seats }
{
    let mut seats = seats;
    let mut starved = false;
    while let Some(seat) = seats.pop() {
        let (part, its) = seat.into_inner().into_parts();
        share.merge(part);
        starved = starved || its;
    }
    starved
}
