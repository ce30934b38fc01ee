//! What each command does, up to its answer.
ghost use Rattle.std.specs.Prelude.{◌≡◌, ◌≤◌, List, ℕ, IfOk, IfErr};
ghost use Rattle.pssm_base.specs.Reading.{given};
ghost use Rattle.pssm_tool.specs.Words.{Means, Judges, Checks, Prints};
ghost use Rattle.pssm_tool.specs.inner.Commands.{meaning_of_run};
ghost use Rattle.pssm_tool.specs.Due.{IsOwed, answer_to_fault};
ghost use Rattle.pssm_tool.specs.inner.Verdicts.{said};
ghost use Rattle.pssm_tool.specs.inner.Failures.{FailedFor, GoesOn};

use crate::answer::Answer;
use crate::failure::Failure;
use crate::model::model;
use crate::run::run_by_workers;
use crate::run_words::RunWords;
use crate::stimuli::stimuli_of;
use crate::text::text_of;
use pssm_base::{Gate, Inputs};
use pssm_flat::write_flat;
use pssm_judge::{JudgeFault, LineFault, Verdict, judge};
use pssm_model::Text;
use std::alloc::Global;
use std::sync::Wait;
use std::thread::Threads;

/// Judges the journal that stands under one path as one of the model under the other.
pub fn judge_journal<I: Inputs>(
    alloc: Global,
    inputs: &mut I,
    path: &str,
    journal: &str,
) -> Result<Answer, Failure>
    ensures owed { IfOk result (λ answer. (words : List (List ℕ)) → Means words (Judges path.now journal.now)
        → IsOwed words
        (given (I.content inputs.old) (I.history inputs.old) (I.history inputs.new)) answer) }
    ensures goes_on { IfOk result (λ answer. (words : List (List ℕ)) → Means words (Judges path.now journal.now)
        → GoesOn words
        (given (I.content inputs.old) (I.history inputs.old) (I.history inputs.new)) answer) }
    ensures failed { IfErr result (λ failure. (words : List (List ℕ)) → Means words (Judges path.now journal.now)
        → FailedFor words (I.faults inputs.old) (I.faults inputs.new) failure) }
{
    let setting = match model(alloc, inputs, path) {
        Ok(Ok(setting)) => setting,
        Ok(Err(answer)) => return Ok(answer),
        Err(failure) => return Err(failure),
    };
    answer_of(judge(alloc, setting, inputs, journal))
}

// The answer that says what the judge says.
fn answer_of(judged: Result<Verdict, JudgeFault>) -> Result<Answer, Failure>
    ensures { result ≡ said judged }
{
    match judged {
        Ok(Verdict::Accept { entries }) => Ok(Answer::Accept { entries }),
        Ok(Verdict::Refuse { entry, rule }) => Ok(Answer::Refuse { entry, rule }),
        Err(JudgeFault::Text(fault)) => Ok(text_answer(fault)),
        Err(JudgeFault::Limit { entry }) => Ok(Answer::Limit { entry }),
        Err(JudgeFault::TooLarge) => Ok(Answer::TooLarge),
        Err(JudgeFault::ReadFault) => Err(Failure::ReadFault),
        Err(JudgeFault::NoMemory) => Err(Failure::NoMemory),
    }
}

// The answer that says what is wrong with the text of a journal.
fn text_answer(fault: LineFault) -> Answer
    ensures { result ≡ answer_to_fault fault }
{
    match fault {
        LineFault::BadLine { line, byte } => Answer::BadLine { line, byte },
        LineFault::LongLine { .. } => Answer::TooLarge,
        LineFault::NoEnd { line } => Answer::NoEnd { line },
    }
}

/// Runs the model that the words name with the stimuli that they name, by as many workers as they
/// ask for.
pub fn run_model<R: Threads + Wait + Sync, I: Inputs, G: Gate + Sync>(
    rt: &R,
    alloc: Global,
    inputs: &mut I,
    asked: &RunWords<'_>,
    gate: &G,
) -> Result<Answer, Failure>
    requires limit { asked.now.options.limit ≤ 1000000 }
    requires workers { asked.now.options.workers ≤ 16 }
    ensures owed { IfOk result (λ answer. (words : List (List ℕ)) → Means words (meaning_of_run asked.now)
        → IsOwed words
        (given (I.content inputs.old) (I.history inputs.old) (I.history inputs.new)) answer) }
    ensures goes_on { IfOk result (λ answer. (words : List (List ℕ)) → Means words (meaning_of_run asked.now)
        → GoesOn words
        (given (I.content inputs.old) (I.history inputs.old) (I.history inputs.new)) answer) }
    ensures failed { IfErr result (λ failure. (words : List (List ℕ)) → Means words (meaning_of_run asked.now)
        → FailedFor words (I.faults inputs.old) (I.faults inputs.new) failure) }
{
    let setting = match model(alloc, inputs, asked.model) {
        Ok(Ok(setting)) => setting,
        Ok(Err(answer)) => return Ok(answer),
        Err(failure) => return Err(failure),
    };
    let Some(stimuli) = stimuli_of(alloc, &setting, &asked.stimuli)? else {
        return Ok(Answer::Usage);
    };
    let (system, ended) = run_by_workers(
        rt,
        alloc,
        &setting,
        stimuli.as_slice(),
        asked.options,
        gate,
    )?;
    let text = text_of(alloc, &system);
    drop(system);
    Ok(Answer::Journal { text: text?, ended })
}

/// Says that the model that stands under the path is well formed.
pub fn check_model<I: Inputs>(alloc: Global, inputs: &mut I, path: &str) -> Result<Answer, Failure>
    ensures owed { IfOk result (λ answer. (words : List (List ℕ)) → Means words (Checks path.now)
        → IsOwed words
        (given (I.content inputs.old) (I.history inputs.old) (I.history inputs.new)) answer) }
    ensures goes_on { IfOk result (λ answer. (words : List (List ℕ)) → Means words (Checks path.now)
        → GoesOn words
        (given (I.content inputs.old) (I.history inputs.old) (I.history inputs.new)) answer) }
    ensures failed { IfErr result (λ failure. (words : List (List ℕ)) → Means words (Checks path.now)
        → FailedFor words (I.faults inputs.old) (I.faults inputs.new) failure) }
{
    match model(alloc, inputs, path) {
        Ok(Ok(_setting)) => Ok(Answer::WellFormed),
        Ok(Err(answer)) => Ok(answer),
        Err(failure) => Err(failure),
    }
}

/// The flat text of the model that stands under the path.
pub fn print_model<I: Inputs>(alloc: Global, inputs: &mut I, path: &str) -> Result<Answer, Failure>
    ensures owed { IfOk result (λ answer. (words : List (List ℕ)) → Means words (Prints path.now)
        → IsOwed words
        (given (I.content inputs.old) (I.history inputs.old) (I.history inputs.new)) answer) }
    ensures goes_on { IfOk result (λ answer. (words : List (List ℕ)) → Means words (Prints path.now)
        → GoesOn words
        (given (I.content inputs.old) (I.history inputs.old) (I.history inputs.new)) answer) }
    ensures failed { IfErr result (λ failure. (words : List (List ℕ)) → Means words (Prints path.now)
        → FailedFor words (I.faults inputs.old) (I.faults inputs.new) failure) }
{
    let setting = match model(alloc, inputs, path) {
        Ok(Ok(setting)) => setting,
        Ok(Err(answer)) => return Ok(answer),
        Err(failure) => return Err(failure),
    };
    let text = write_flat(alloc, &setting)?;
    Ok(Answer::Flat(Text::from_vec(text)))
}
