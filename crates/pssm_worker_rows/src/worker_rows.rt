//! What workers leave, before anyone goes on from it, and what `finish` makes of it.
//!
//! Each function holds few runs, and lends them to others: the places that let go of one are dear to prove.
ghost use Rattle.std.specs.Prelude.{◌≤◌};
ghost use Rattle.std.specs.List.{AllByRecursion};
ghost use Rattle.pssm_semantics.specs.Proper.{IsWellFormed};
ghost use Rattle.pssm_semantics.specs.Known.{IsStimulusOf};

use crate::gates::{Counting, Open};
use crate::plan::{Left, Plan, alone, finished, left_by, plan_of};
use pssm_semantics::Entry;
use pssm_system::System;
use pssm_trials::{Failure, same_number, surely};
use pssm_workers::Ended;
use std::alloc::Global;
use std::sync::Wait;
use std::thread::Threads;

// How many entries a whole run has, and how many of them run behaviours.
const WHOLE: usize = 18;

const TURNS: u64 = 12;

/// The book that workers leave is that of the whole run: its entries, its post, and nothing more can happen. The gate was
/// told of each behaviour.
pub fn book_is_whole<R: Threads + Wait + Sync>(rt: &R, alloc: Global) -> Result<(), Failure> {
    let plan = plan_of(alloc, 10_000)?;
    for workers in 1..17u8 {
        let gate = Counting::new();
        let left = left_by(rt, alloc, &plan, workers, u64::from(workers), &gate)?;
        is_whole(alloc, &left, gate.count())?;
    }
    Ok(())
}

/// The book of a run that ends at a limit has as many entries, wherever the limit falls.
pub fn full_is_whole<R: Threads + Wait + Sync>(rt: &R, alloc: Global) -> Result<(), Failure> {
    for limit in 0..19u32 {
        let plan = plan_of(alloc, limit)?;
        let left = left_by(rt, alloc, &plan, 4, u64::from(limit), &Open)?;
        entries_owe(alloc, &left.system, limit as usize)?;
    }
    Ok(())
}

/// Where no worker works there is no entry, and `finish` makes the whole run.
pub fn nobody_works<R: Threads + Wait + Sync>(rt: &R, alloc: Global) -> Result<(), Failure> {
    let plan = plan_of(alloc, 10_000)?;
    let left = left_by(rt, alloc, &plan, 0, 0, &Open)?;
    left_owes(alloc, &left, 0, 0)?;
    becomes_whole(alloc, &plan, 0)
}

/// `finish` goes on from a book with its own limit, and begins anew where the book had another.
pub fn another_end_begins_anew(alloc: Global) -> Result<(), Failure> {
    let plan = plan_of(alloc, 7)?;
    stays_as_alone(alloc, &plan, 3)?;
    becomes_whole(alloc, &plan, 3)
}

/// One worker on a thread leaves what one leaves that works without a thread.
pub fn alone_is_alike<R: Threads + Wait + Sync>(rt: &R, alloc: Global) -> Result<(), Failure> {
    let plan = plan_of(alloc, 10_000)?;
    for seed in 0..32u64 {
        let left = left_by(rt, alloc, &plan, 1, seed, &Open)?;
        is_as_alone(alloc, &plan, seed, left.system.entries())?;
    }
    Ok(())
}

// What is left is the whole run, and so many calls were told to the gate.
fn is_whole(alloc: Global, left: &Left, told: u64) -> Result<(), Failure> {
    left_owes(alloc, left, WHOLE, 1)?;
    surely(alloc, left.system.quiet(), "the run is not quiet")?;
    surely(alloc, TURNS <= told, "the gate was told of too few")
}

// What is left has so many entries and posts.
fn left_owes(alloc: Global, left: &Left, entries: usize, posts: usize) -> Result<(), Failure> {
    entries_owe(alloc, &left.system, entries)?;
    same_number(alloc, "the posts", posts, left.posted as usize)
}

// The run has so many entries.
fn entries_owe(alloc: Global, system: &System, count: usize) -> Result<(), Failure> {
    same_number(alloc, "the entries", count, system.entries().len())
}

// `finish` makes the whole run where it is to end at no limit.
fn becomes_whole(alloc: Global, plan: &Plan, seed: u64) -> Result<(), Failure>
    requires well_formed { IsWellFormed plan.now.setting }
    requires known { AllByRecursion (IsStimulusOf plan.now.setting) plan.now.stimuli.items }
    requires few { plan.now.limit ≤ 1000000 }
{
    let (system, ended) = finished(alloc, plan, seed, 10_000)?;
    entries_owe(alloc, &system, WHOLE)?;
    surely(alloc, matches!(ended, Ended::Quiet), "the end is the limit")
}

// `finish` leaves a run as it is that has come to its limit.
fn stays_as_alone(alloc: Global, plan: &Plan, seed: u64) -> Result<(), Failure>
    requires well_formed { IsWellFormed plan.now.setting }
    requires known { AllByRecursion (IsStimulusOf plan.now.setting) plan.now.stimuli.items }
    requires few { plan.now.limit ≤ 1000000 }
{
    let (system, ended) = finished(alloc, plan, seed, plan.limit)?;
    entries_owe(alloc, &system, plan.limit as usize)?;
    surely(alloc, matches!(ended, Ended::Limit), "the end is quiet")?;
    is_as_alone(alloc, plan, seed, system.entries())
}

// One that works without a thread leaves these entries.
fn is_as_alone(alloc: Global, plan: &Plan, seed: u64, entries: &[Entry]) -> Result<(), Failure>
    requires well_formed { IsWellFormed plan.now.setting }
    requires known { AllByRecursion (IsStimulusOf plan.now.setting) plan.now.stimuli.items }
    requires few { plan.now.limit ≤ 1000000 }
{
    let alone = alone(alloc, plan, seed)?;
    surely(alloc, alone.entries() == entries, "the run is another")
}
