//! The end of a run on one thread.
ghost use Rattle.std.specs.Prelude.{◌≡◌, ◌≤◌, ◌↔◌, ◌⊎◌, Some, IsTrue, IfOk, IfSome, IfNone};
ghost use Rattle.std.specs.List.{AllByRecursion};
ghost use Rattle.std.specs.Option.{option_copied};
ghost use Rattle.pssm_semantics.specs.Proper.{IsWellFormed};
ghost use Rattle.pssm_semantics.specs.Known.{IsStimulusOf};
ghost use Rattle.pssm_book.specs.Stimuli.{post_of};
ghost use Rattle.pssm_book.specs.inner.Nexts.{IsNext};
ghost use Rattle.pssm_workers.specs.Endings.{EndsRun, IsBookOf, GoesOnFrom};
ghost use Rattle.pssm_workers.specs.inner.Finishing.{IsOver, IsCourseOf};

use crate::copies::are_same;
use crate::ended::Ended;
use crate::gathered::Gathered;
use crate::words::words_of;
use pssm_book::{Book, is_full, out_count, post_count};
use pssm_model::Same;
use pssm_semantics::{Entry, Setting, Stimulus};
use pssm_system::System;
use rand_core::Rng;
use rand_pcg::Pcg64;
use std::alloc::{AllocError as NoMemory, Global};
use std::sync::ledger::Ledger;

/// A run so far, with how many of its stimuli are posted and how many posts, sends and marks it
/// has.
#[derive(Drop)]
pub struct Course {
    pub system: System,
    pub posted: usize,
    pub outputs: usize,
}

/// Goes on from what workers have left until nothing more can happen or the journal is full.
///
/// Where the book is not one of this setting with these stimuli and this limit, the run begins
/// anew. Words that are made from the seed settle what happens where several things may.
/// `NoMemory`: memory ran out; what was gathered is dropped.
pub fn finish<L: Ledger>(
    alloc: Global,
    setting: &Setting,
    stimuli: &[Stimulus],
    limit: u32,
    seed: u64,
    gathered: Gathered<L>,
) -> Result<(System, Ended), NoMemory>
    requires well_formed { IsWellFormed setting.now }
    requires known { AllByRecursion (IsStimulusOf setting.now) stimuli.now }
    requires limit { limit ≤ 1000000 }
    ensures setting { IfOk result (λ run. run.0.setting ≡ setting.now) }
    ensures ends { IfOk result (λ run. EndsRun setting.now stimuli.now limit run.0.journal run.1) }
    ensures goes_on { IfOk result (λ run. IsBookOf setting.now stimuli.now limit gathered.book
        → GoesOnFrom gathered.book.run.journal run.0.journal) }
{
    let Gathered { book, share } = gathered;
    drop(share);
    let course = course_of(alloc, setting, stimuli, limit, book)?;
    go_on(alloc, course, stimuli, limit, seed)
}

// Where the book's run has come, or the beginning of another.
fn course_of<L: Ledger>(
    alloc: Global,
    setting: &Setting,
    stimuli: &[Stimulus],
    limit: u32,
    book: Book<L>,
) -> Result<Course, NoMemory>
    requires { IsWellFormed setting.now }
    ensures under_way { IfOk result (IsCourseOf setting.now stimuli.now limit) }
    ensures from { IfOk result (λ course. IsBookOf setting.now stimuli.now limit book
        → course.system.journal ≡ book.run.journal) }
{
    if is_book_of(setting, stimuli, limit, &book) {
        return Ok(course_in(book));
    }
    drop(book);
    Ok(Course {
        system: System::new(alloc, setting.copy(alloc)?)?,
        posted: 0,
        outputs: 0,
    })
}

// Whether the book is one of this setting with these stimuli and this limit.
fn is_book_of<L: Ledger>(
    setting: &Setting,
    stimuli: &[Stimulus],
    limit: u32,
    book: &Book<L>,
) -> bool
    ensures { IsTrue result ↔ IsBookOf setting.now stimuli.now limit book.now }
{
    limit == book.limit()
        && are_same(book.stimuli(), stimuli)
        && book.system().setting().same(setting)
}

// Where the book's run has come.
fn course_in<L: Ledger>(book: Book<L>) -> Course
    ensures under_way { IsCourseOf book.run.setting book.stimuli book.limit result }
    ensures same { result.system ≡ book.run }
{
    let posted = book.posted() as usize;
    let outputs = book.outputs();
    // (a call: where the system is read, what its book keeps of it is known)
    let _system = book.system();
    Course {
        system: book.into_system(),
        posted,
        outputs,
    }
}

// Goes on until nothing more can happen or the journal is full.
fn go_on(
    alloc: Global,
    course: Course,
    stimuli: &[Stimulus],
    limit: u32,
    seed: u64,
) -> Result<(System, Ended), NoMemory>
    requires well_formed { IsWellFormed course.system.setting }
    requires known { AllByRecursion (IsStimulusOf course.system.setting) stimuli.now }
    requires limit { limit ≤ 1000000 }
    requires under_way { IsCourseOf course.system.setting stimuli.now limit course }
    ensures setting { IfOk result (λ run. run.0.setting ≡ course.system.setting) }
    ensures ends { IfOk result (λ run. EndsRun course.system.setting stimuli.now limit run.0.journal run.1) }
    ensures goes_on { IfOk result (λ run. GoesOnFrom course.system.journal run.0.journal) }
{
    let Course {
        mut system,
        mut posted,
        mut outputs,
    } = course;
    let mut words = words_of(seed, 0);
    while !is_full(system.entries().len(), outputs, limit) {
        let Some(entry) = next(alloc, &system, stimuli.get(posted), &mut words)? else {
            return Ok((system, Ended::Quiet));
        };
        posted += post_count(&entry);
        outputs += post_count(&entry) + out_count(&entry);
        system.apply(entry)?;
    }
    Ok((system, Ended::Limit))
}

// The next entry: the post of the stimulus that waits or another one, as a word settles where both
// may come. None is left where no stimulus waits and the run is quiet.
fn next(
    alloc: Global,
    system: &System,
    waiting: Option<&Stimulus>,
    words: &mut Pcg64,
) -> Result<Option<Entry>, NoMemory>
    requires { IfSome waiting (λ x. IsStimulusOf system.now.setting x.now) }
    ensures next { IfOk result (λ o. IfSome o (IsNext system.now (option_copied waiting.entry))) }
    ensures over { IfOk result (λ o. IfNone o (IsOver system.now (option_copied waiting.entry))) }
{
    let other = system.choose(words.next_u64())?;
    match waiting {
        Some(stimulus) if is_its_turn(other.is_some(), words) => {
            drop(other);
            post(alloc, stimulus)
        }
        _ => Ok(other),
    }
}

// Whether the stimulus that waits is posted now. Where another entry may come, a word settles it.
fn is_its_turn(may_other: bool, words: &mut Pcg64) -> bool
    ensures { IsTrue result ⊎ IsTrue may_other }
{
    !(may_other && words.next_u64() % 2 == 0)
}

// The post of a stimulus.
fn post(alloc: Global, stimulus: &Stimulus) -> Result<Option<Entry>, NoMemory>
    ensures { IfOk result (λ o. o ≡ Some (post_of stimulus.now)) }
{
    Ok(Some(Entry::Post {
        object: stimulus.object,
        signal: stimulus.signal,
        args: stimulus.args.copy(alloc)?,
    }))
}
