//! What `gen` does, up to its answer.
ghost use Rattle.std.specs.Prelude.{◌≡◌, ◌≤◌, List, ℕ, IfOk, IfErr};
ghost use Rattle.std.specs.List.{AllByRecursion};
ghost use Rattle.pssm_base.specs.Reading.{Given, ReadsNothing};
ghost use Rattle.pssm_semantics.specs.Known.{IsStimulusOf};
ghost use Rattle.pssm_semantics.specs.Names.{HasSpelledNames};
ghost use Rattle.pssm_semantics.specs.Proper.{IsWellFormed};
ghost use Rattle.pssm_suite.specs.Counts.{take_count, takes_signal as takes_a_signal};
ghost use Rattle.pssm_suite.specs.Generated.{generated_stimuli};
ghost use Rattle.pssm_suite.specs.GeneratedSetting.{generated_setting};
ghost use Rattle.pssm_tool.specs.Words.{Means, Generates};
ghost use Rattle.pssm_tool.specs.Due.{IsOwed, IsDueForGenerated};
ghost use Rattle.pssm_tool.specs.inner.Failures.{GoesOn};

use crate::answer::Answer;
use crate::failure::Failure;
use crate::model::setting_of;
use crate::run::run_by_itself;
use crate::text::text_of;
use pssm_judge::MOST_ENTRIES;
use pssm_load::one_load;
use pssm_semantics::{Entry, Setting, Stimulus};
use pssm_suite::{generate, generated_ends, generated_runs, generated_settings, generated_texts};
use pssm_workers::Ended;
use sha2::{Digest, Sha256};
use std::alloc::Global;

/// Runs the generated model of this number, with the stimuli for it and the number as seed.
pub fn generate_and_run(alloc: Global, number: u16) -> Result<Answer, Failure>
    requires some { 1 ≤ number }
    requires few { number ≤ 4000 }
    ensures owed { IfOk result (λ answer. (words : List (List ℕ)) → Means words (Generates number)
        → (given : Given) → ReadsNothing given → IsOwed words given answer) }
    ensures goes_on { IfOk result (λ answer. (words : List (List ℕ)) (given : Given)
        → GoesOn words given answer) }
    ensures failed { IfErr result (λ failure. failure ≡ Failure.NoMemory) }
{
    one_load();
    generated_texts();
    generated_settings();
    let (text, stimuli) = generate(alloc, number)?;
    let found = setting_of(alloc, text.as_slice());
    drop(text);
    match found {
        Ok(Ok(setting)) => run_generated(alloc, setting, stimuli.as_slice(), number),
        // the text is read as a setting, and so it has no fault
        Ok(Err(_answer)) => unreachable!(),
        Err(failure) => Err(failure),
    }
}

// Runs the setting of a generated model with the stimuli for it.
fn run_generated(
    alloc: Global,
    setting: Setting,
    stimuli: &[Stimulus],
    number: u16,
) -> Result<Answer, Failure>
    requires well_formed { IsWellFormed setting }
    requires spelled { HasSpelledNames setting }
    requires known { AllByRecursion (IsStimulusOf setting) stimuli.now }
    requires stimuli { stimuli.now ≡ generated_stimuli number }
    requires some { 1 ≤ number }
    requires few { number ≤ 4000 }
    requires generated { setting ≡ generated_setting number }
    ensures owed { IfOk result (IsDueForGenerated setting number) }
    ensures goes_on { IfOk result (λ answer. (words : List (List ℕ)) (given : Given)
        → GoesOn words given answer) }
    ensures failed { IfErr result (λ failure. failure ≡ Failure.NoMemory) }
{
    generated_runs();
    generated_ends();
    let (system, ended) = run_by_itself(alloc, &setting, stimuli, u64::from(number), MOST_ENTRIES)?;
    let text = text_of(alloc, &system)?;
    match ended {
        // no run of a generated model has so many entries
        Ended::Limit => unreachable!(),
        Ended::Quiet => Ok(Answer::Generated {
            number,
            entries: system.entries().len(),
            takes: take_count_of(system.entries()),
            digest: Sha256::digest(text.as_slice()),
        }),
    }
}

// How many of the entries take a signal.
fn take_count_of(entries: &[Entry]) -> usize
    ensures { result ≡ take_count entries.now }
{
    let mut takes = 0;
    for entry in entries {
        if takes_signal(entry) {
            takes += 1;
        }
    }
    takes
}

// Whether the entry takes a signal.
fn takes_signal(entry: &Entry) -> bool
    ensures { result ≡ takes_a_signal entry.now }
{
    matches!(entry, Entry::Take { .. })
}
