//! What one worker does, on the caller's own thread.
ghost use Rattle.std.specs.Prelude.{◌≡◌, ◌≤◌, ◌<◌, length, IfOk};
ghost use Rattle.std.specs.List.{AllByRecursion};
ghost use Rattle.pssm_semantics.specs.Proper.{IsWellFormed};
ghost use Rattle.pssm_semantics.specs.Known.{IsStimulusOf};
ghost use Rattle.pssm_workers.specs.inner.Jobs.{IsJobIn};

use crate::copies::copies;
use crate::gathered::Gathered;
use crate::words::words_of;
use pssm_book::{Book, Claimed, Job};
use pssm_semantics::{Setting, Stimulus, run};
use rand_core::Rng;
use rand_pcg::Pcg64;
use std::alloc::{AllocError as NoMemory, Global};
use std::sync::ledger::{Blank, Ledger, Share};

/// Runs the setting with these stimuli as one worker does, and starts no thread: it claims, runs
/// and commits in the same order, by the same words. It returns, which no call does that starts
/// workers.
///
/// The share has all parts of the ledger, and counts the entries of the book. `NoMemory`: memory
/// ran out.
pub fn run_alone<L: Ledger>(
    alloc: Global,
    blank: Blank,
    setting: &Setting,
    stimuli: &[Stimulus],
    limit: u32,
    seed: u64,
) -> Result<Gathered<L>, NoMemory>
    requires name { blank.name ≡ L.name }
    requires parts { blank.parts ≡ L.parts }
    requires some { 0 < blank.parts }
    requires well_formed { IsWellFormed setting.now }
    requires known { AllByRecursion (IsStimulusOf setting.now) stimuli.now }
    requires limit { limit ≤ 1000000 }
    ensures whole { IfOk result (λ gathered. gathered.share.parts ≡ L.parts) }
    ensures counted { IfOk result (λ gathered. gathered.share.amount ≡ length gathered.book.run.journal) }
{
    let setting = setting.copy(alloc)?;
    let stimuli = copies(alloc, stimuli)?;
    let (mut book, mut share) = Book::<L>::new(alloc, blank, setting, stimuli, limit)?;
    work_alone(alloc, &mut book, &mut share, words_of(seed, 0))?;
    book.audit(&mut share);
    Ok(Gathered { book, share })
}

// Claims, runs and commits until nothing is left to do or the journal is full: each turn before
// that appends an entry.
fn work_alone<L: Ledger>(
    alloc: Global,
    book: &mut Book<L>,
    share: &mut Share<L>,
    words: Pcg64,
) -> Result<(), NoMemory>
    requires { 0 < share.old.parts }
    ensures { share.new.parts ≡ share.old.parts }
{
    let mut words = words;
    for _i in 0..book.limit() {
        match book.claim(words.next_u64(), share)? {
            Claimed::Job(job) => do_alone(alloc, book, share, job)?,
            Claimed::Moved => {}
            Claimed::Busy { .. } | Claimed::Quiet | Claimed::Full => return Ok(()),
        }
    }
    Ok(())
}

// Runs the behaviour of a task, and commits it.
fn do_alone<L: Ledger>(
    alloc: Global,
    book: &mut Book<L>,
    share: &mut Share<L>,
    job: Job,
) -> Result<(), NoMemory>
    requires part { 0 < share.old.parts }
    requires job { IsJobIn book.old.run.setting job }
    ensures { share.new.parts ≡ share.old.parts }
{
    let worked = run(
        alloc,
        job.object,
        &job.act,
        job.store.as_slice(),
        &job.params,
    )?;
    book.commit_known(job.task, &worked, share)?;
    Ok(())
}
