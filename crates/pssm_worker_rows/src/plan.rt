//! `Plan`: what a row runs, and what workers leave of it.
ghost use Rattle.std.specs.Prelude.{◌≡◌, ◌≤◌, ◌+◌, length, IfOk};
ghost use Rattle.std.specs.List.{AllByRecursion};
ghost use Rattle.pssm_semantics.specs.Proper.{IsWellFormed};
ghost use Rattle.pssm_semantics.specs.Known.{IsStimulusOf};

use pssm_base::Gate;
use pssm_semantics::{Setting, Stimulus};
use pssm_system::System;
use pssm_trials::{BOTH, Failure, setting_of, stimuli_of};
use pssm_workers::{Ended, Gathered, finish, run_alone, run_workers};
use std::alloc::{AllocError as NoMemory, Global};
use std::marker::Brand;
use std::sync::Wait;
use std::sync::ledger::{Blank, Ledger};
use std::thread::Threads;

// The parts of a ledger: for 16 workers, and for who starts them.
const PARTS: u64 = 17;

/// What a row runs: a model with its stimuli, up to a limit.
#[derive(Drop)]
pub struct Plan {
    pub setting: Setting,
    pub stimuli: Vec<Stimulus>,
    pub limit: u32,
}

/// What workers left: the run, and how many of its stimuli are posted.
#[derive(Drop)]
pub struct Left {
    pub system: System,
    pub posted: u32,
}

/// The model in two regions with one stimulus, up to this limit.
pub fn plan_of(alloc: Global, limit: u32) -> Result<Plan, Failure>
    ensures well_formed { IfOk result (λ plan. IsWellFormed plan.setting) }
    ensures known { IfOk result (λ plan. AllByRecursion (IsStimulusOf plan.setting) plan.stimuli.items) }
    ensures limit { IfOk result (λ plan. plan.limit ≡ limit) }
{
    let setting = setting_of(alloc, BOTH)?;
    let stimuli = stimuli_of(alloc, &setting, true)?;
    Ok(Plan {
        setting,
        stimuli,
        limit,
    })
}

/// What so many workers leave.
pub fn left_by<R: Threads + Wait + Sync, G: Gate + Sync>(
    rt: &R,
    alloc: Global,
    plan: &Plan,
    workers: u8,
    seed: u64,
    gate: &G,
) -> Result<Left, NoMemory>
    requires workers { workers ≤ 16 }
    requires well_formed { IsWellFormed plan.now.setting }
    requires known { AllByRecursion (IsStimulusOf plan.now.setting) plan.now.stimuli.items }
    requires few { plan.now.limit ≤ 1000000 }
{
    left_on::<Brand, R, G>(rt, alloc, Blank::new(PARTS), plan, workers, seed, gate)
}

// The same, with the blank from which the ledger is opened.
fn left_on<L: Ledger + Send + Sync, R: Threads + Wait + Sync, G: Gate + Sync>(
    rt: &R,
    alloc: Global,
    blank: Blank,
    plan: &Plan,
    workers: u8,
    seed: u64,
    gate: &G,
) -> Result<Left, NoMemory>
    requires name { blank.name ≡ L.name }
    requires parts { blank.parts ≡ L.parts }
    requires enough { workers + 1 ≤ blank.parts }
    requires well_formed { IsWellFormed plan.now.setting }
    requires known { AllByRecursion (IsStimulusOf plan.now.setting) plan.now.stimuli.items }
    requires few { plan.now.limit ≤ 1000000 }
{
    let gathered = run_workers::<L, R, G>(
        rt,
        alloc,
        blank,
        &plan.setting,
        plan.stimuli.as_slice(),
        plan.limit,
        workers,
        seed,
        gate,
    )?;
    Ok(left_of(gathered))
}

// What a book has that workers left. (a function of its own: what is let go here is large)
fn left_of<L: Ledger>(gathered: Gathered<L>) -> Left {
    let posted = gathered.book.posted();
    let system = gathered.book.into_system();
    Left { system, posted }
}

/// What one leaves that works without a thread.
pub fn alone(alloc: Global, plan: &Plan, seed: u64) -> Result<System, NoMemory>
    requires well_formed { IsWellFormed plan.now.setting }
    requires known { AllByRecursion (IsStimulusOf plan.now.setting) plan.now.stimuli.items }
    requires few { plan.now.limit ≤ 1000000 }
{
    alone_on::<Brand>(alloc, Blank::new(PARTS), plan, seed)
}

// The same, with the blank from which the ledger is opened.
fn alone_on<L: Ledger>(
    alloc: Global,
    blank: Blank,
    plan: &Plan,
    seed: u64,
) -> Result<System, NoMemory>
    requires name { blank.name ≡ L.name }
    requires parts { blank.parts ≡ L.parts }
    requires some { 1 ≤ blank.parts }
    requires well_formed { IsWellFormed plan.now.setting }
    requires known { AllByRecursion (IsStimulusOf plan.now.setting) plan.now.stimuli.items }
    requires few { plan.now.limit ≤ 1000000 }
{
    let gathered = run_alone::<L>(
        alloc,
        blank,
        &plan.setting,
        plan.stimuli.as_slice(),
        plan.limit,
        seed,
    )?;
    Ok(gathered.book.into_system())
}

/// What `finish` makes with this limit of what one leaves that works without a thread.
pub fn finished(
    alloc: Global,
    plan: &Plan,
    seed: u64,
    limit: u32,
) -> Result<(System, Ended), NoMemory>
    requires limit { limit ≤ 1000000 }
    requires well_formed { IsWellFormed plan.now.setting }
    requires known { AllByRecursion (IsStimulusOf plan.now.setting) plan.now.stimuli.items }
    requires few { plan.now.limit ≤ 1000000 }
{
    finished_on::<Brand>(alloc, Blank::new(PARTS), plan, seed, limit)
}

// The same, with the blank from which the ledger is opened.
fn finished_on<L: Ledger>(
    alloc: Global,
    blank: Blank,
    plan: &Plan,
    seed: u64,
    limit: u32,
) -> Result<(System, Ended), NoMemory>
    requires name { blank.name ≡ L.name }
    requires parts { blank.parts ≡ L.parts }
    requires some { 1 ≤ blank.parts }
    requires limit { limit ≤ 1000000 }
    requires well_formed { IsWellFormed plan.now.setting }
    requires known { AllByRecursion (IsStimulusOf plan.now.setting) plan.now.stimuli.items }
    requires few { plan.now.limit ≤ 1000000 }
{
    let stimuli = plan.stimuli.as_slice();
    let gathered = run_alone::<L>(alloc, blank, &plan.setting, stimuli, plan.limit, seed)?;
    finish(alloc, &plan.setting, stimuli, limit, seed, gathered)
}
