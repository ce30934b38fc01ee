//! What a book answers, in words.
use pssm_book::{Claimed, Committed};
use pssm_semantics::Task;
use std::alloc::{AllocError as NoMemory, Global};

/// What there was to be claimed.
pub fn claimed_words(alloc: Global, claimed: &Claimed) -> Result<String, NoMemory> {
    match claimed {
        Claimed::Job(job) => {
            let task = task_words(alloc, job.task)?;
            format!(in alloc; "job {task}")
        }
        Claimed::Moved => String::from_str(alloc, "moved"),
        Claimed::Busy { out } => format!(in alloc; "busy {out}"),
        Claimed::Quiet => String::from_str(alloc, "quiet"),
        Claimed::Full => String::from_str(alloc, "full"),
    }
}

/// What came of a commit.
pub fn committed_words(alloc: Global, committed: Committed) -> Result<String, NoMemory> {
    match committed {
        Committed::Done => String::from_str(alloc, "done"),
        Committed::Gone { task } => {
            let task = task_words(alloc, task)?;
            format!(in alloc; "gone {task}")
        }
        Committed::Stale {
            variable,
            kept,
            carried,
        } => { format!(in alloc; "stale variable {variable} kept {kept} carried {carried}") }
        Committed::Full => String::from_str(alloc, "full"),
    }
}

// A task, as a journal spells its item.
fn task_words(alloc: Global, task: Task) -> Result<String, NoMemory> {
    match task {
        Task::Exit(vertex) => format!(in alloc; "exit v{}", vertex.0),
        Task::Effect(transition) => format!(in alloc; "effect t{}", transition.0),
        Task::Enter(vertex) => format!(in alloc; "enter v{}", vertex.0),
        Task::DoStep(vertex, step) => format!(in alloc; "do v{} {step}", vertex.0),
    }
}
