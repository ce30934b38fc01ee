//! A run of a setting: by workers, or as one worker does it without a thread.
ghost use Rattle.std.specs.Prelude.{◌≡◌, ◌≤◌, ◌+◌, IfOk};
ghost use Rattle.std.specs.List.{AllByRecursion};
ghost use Rattle.pssm_semantics.specs.Known.{IsStimulusOf};
ghost use Rattle.pssm_semantics.specs.Proper.{IsWellFormed};
ghost use Rattle.pssm_workers.specs.Endings.{EndsRun};

use crate::run_words::Options;
use pssm_base::Gate;
use pssm_semantics::{Setting, Stimulus};
use pssm_system::System;
use pssm_workers::{Ended, finish, run_alone, run_workers};
use std::alloc::{AllocError as NoMemory, Global};
use std::marker::Brand;
use std::sync::Wait;
use std::sync::ledger::{Blank, Ledger};
use std::thread::Threads;

// The parts of a run's ledger: one for each of the sixteen workers that there may be, and one for who starts them.
const PARTS: u64 = 17;

/// Runs the setting with these stimuli, which come in this order, by as many workers as the options
/// ask for. Words that are made from the seed settle what happens where several things may.
pub fn run_by_workers<R: Threads + Wait + Sync, G: Gate + Sync>(
    rt: &R,
    alloc: Global,
    setting: &Setting,
    stimuli: &[Stimulus],
    options: Options,
    gate: &G,
) -> Result<(System, Ended), NoMemory>
    requires well_formed { IsWellFormed setting.now }
    requires known { AllByRecursion (IsStimulusOf setting.now) stimuli.now }
    requires limit { options.limit ≤ 1000000 }
    requires workers { options.workers ≤ 16 }
    ensures setting { IfOk result (λ run. run.0.setting ≡ setting.now) }
    ensures ends { IfOk result (λ run. EndsRun setting.now stimuli.now options.limit run.0.journal run.1) }
{
    work_and_finish::<Brand, R, G>(
        rt,
        alloc,
        Blank::new(PARTS),
        setting,
        stimuli,
        options,
        gate,
    )
}

// The same, with the blank from which the run's ledger is opened.
fn work_and_finish<L: Ledger + Send + Sync, R: Threads + Wait + Sync, G: Gate + Sync>(
    rt: &R,
    alloc: Global,
    blank: Blank,
    setting: &Setting,
    stimuli: &[Stimulus],
    options: Options,
    gate: &G,
) -> Result<(System, Ended), NoMemory>
    requires name { blank.name ≡ L.name }
    requires parts { blank.parts ≡ L.parts }
    requires enough { options.workers + 1 ≤ blank.parts }
    requires well_formed { IsWellFormed setting.now }
    requires known { AllByRecursion (IsStimulusOf setting.now) stimuli.now }
    requires limit { options.limit ≤ 1000000 }
    ensures setting { IfOk result (λ run. run.0.setting ≡ setting.now) }
    ensures ends { IfOk result (λ run. EndsRun setting.now stimuli.now options.limit run.0.journal run.1) }
{
    let gathered = run_workers::<L, R, G>(
        rt,
        alloc,
        blank,
        setting,
        stimuli,
        options.limit,
        options.workers,
        options.seed,
        gate,
    )?;
    finish(
        alloc,
        setting,
        stimuli,
        options.limit,
        options.seed,
        gathered,
    )
}

/// The same as one worker does it, in the same order, with no thread. It returns, which no call does
/// that starts workers.
pub fn run_by_itself(
    alloc: Global,
    setting: &Setting,
    stimuli: &[Stimulus],
    seed: u64,
    limit: u32,
) -> Result<(System, Ended), NoMemory>
    requires well_formed { IsWellFormed setting.now }
    requires known { AllByRecursion (IsStimulusOf setting.now) stimuli.now }
    requires limit { limit ≤ 1000000 }
    ensures setting { IfOk result (λ run. run.0.setting ≡ setting.now) }
    ensures ends { IfOk result (λ run. EndsRun setting.now stimuli.now limit run.0.journal run.1) }
{
    go_by_itself::<Brand>(alloc, Blank::new(PARTS), setting, stimuli, seed, limit)
}

// The same, with the blank from which the run's ledger is opened.
fn go_by_itself<L: Ledger>(
    alloc: Global,
    blank: Blank,
    setting: &Setting,
    stimuli: &[Stimulus],
    seed: u64,
    limit: u32,
) -> Result<(System, Ended), NoMemory>
    requires name { blank.name ≡ L.name }
    requires parts { blank.parts ≡ L.parts }
    requires some { 1 ≤ blank.parts }
    requires well_formed { IsWellFormed setting.now }
    requires known { AllByRecursion (IsStimulusOf setting.now) stimuli.now }
    requires limit { limit ≤ 1000000 }
    ensures setting { IfOk result (λ run. run.0.setting ≡ setting.now) }
    ensures ends { IfOk result (λ run. EndsRun setting.now stimuli.now limit run.0.journal run.1) }
{
    let gathered = run_alone::<L>(alloc, blank, setting, stimuli, limit, seed)?;
    finish(alloc, setting, stimuli, limit, seed, gathered)
}
