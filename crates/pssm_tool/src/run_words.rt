//! The words of `run`, as clap reads them.
ghost use Rattle.std.specs.Prelude.{◌≡◌, ◌≤◌, [], false, List, ℕ, codes, IfOk, IfSome, IfNone};
ghost use Rattle.clap.specs.Words.{app_of, fault_of, first_of, found_of, matches_of, rows_of, rule_of};
ghost use Rattle.pssm_tool.specs.Words.{texts, BeginWith, Means, IsUsage, HasNumber, HasOptions, AsksFor};
ghost use Rattle.pssm_tool.specs.Words.{option_rule, list_rule, run_command};
ghost use Rattle.pssm_tool.specs.inner.Commands.{meaning_of_run, lent};

use crate::stimuli::are_spelled;
use clap::error::ErrorKind;
use clap::{Arg, ArgMatches, Command};
use pssm_spelling::number_of;
use std::alloc::{AllocError as NoMemory, Global};

/// What may be chosen for a run.
#[derive(Clone, Copy, PartialEq, Eq)]
pub struct Options {
    /// What the free choices are made from.
    pub seed: u64,
    /// How many workers run the model, 1 to 16.
    pub workers: u8,
    /// How many entries the journal may have, at most 1,000,000.
    pub limit: u32,
}

/// What the words of a run ask for.
#[derive(Drop)]
pub struct RunWords<'a> {
    /// What they choose.
    pub options: Options,
    /// Where the model stands.
    pub model: &'a str,
    /// The stimuli. They are spelled as they should be, and may name what the model does not have.
    pub stimuli: Vec<&'a str>,
}

/// The run that the words ask for, of which the first is `run`, if they ask for one.
pub fn run_of(alloc: Global, words: &[String]) -> Result<Option<RunWords<'_>>, NoMemory>
    requires { BeginWith (texts words.now) (codes "run") }
    ensures reads { IfOk result (λ o. IfSome o (λ run. Means (texts words.now) (meaning_of_run run))) }
    ensures usage { IfOk result (λ o. IfNone o (IsUsage (texts words.now))) }
{
    let Some(matches) = matches_in(alloc, words)? else {
        return Ok(None);
    };
    let run = run_in(alloc, &matches);
    // (a call: a drop at the end of the body would be one for each way out)
    drop(matches);
    run
}

// What clap finds in the words, of which it takes the first for the program's name, if it takes them.
fn matches_in(alloc: Global, words: &[String]) -> Result<Option<ArgMatches<'_>>, NoMemory>
    ensures takes { IfOk result (λ o. IfSome o (λ matches. (fault_of run_command (texts words.now) ≡ [])
        × (rows_of (found_of matches) ≡ matches_of run_command (texts words.now)))) }
    ensures refuses { IfOk result (λ o. IfNone o (fault_of run_command (texts words.now) ≡ [] → ⊥)) }
{
    let command = run_command(alloc)?;
    match command.try_get_matches_from(words) {
        Ok(matches) => Ok(Some(matches)),
        Err(error) => match error.kind() {
            ErrorKind::OutOfMemory => Err(NoMemory),
            _ => Ok(None),
        },
    }
}

// The command of the words of a run.
fn run_command<'a>(alloc: Global) -> Result<Command<'a>, NoMemory>
    ensures { IfOk result (λ command. app_of command ≡ run_command) }
{
    Command::new(alloc, "run")
        .disable_help_flag(true)
        .arg(option(alloc, "seed"))?
        .arg(option(alloc, "workers"))?
        .arg(option(alloc, "limit"))?
        .arg(list(alloc))
}

// An option with a value.
fn option(alloc: Global, name: &str) -> Arg<'_>
    ensures { (rule_of result ≡ option_rule name.entry.now) × (result.global ≡ false) }
{
    Arg::new(alloc, name).long(name)
}

// The list of the words that are no options.
fn list<'a>(alloc: Global) -> Arg<'a>
    ensures { (rule_of result ≡ list_rule) × (result.global ≡ false) }
{
    Arg::new(alloc, "words").num_args(1..)
}

// The run that is asked for by what clap found, if a run is.
fn run_in<'a>(alloc: Global, matches: &ArgMatches<'a>) -> Result<Option<RunWords<'a>>, NoMemory>
    ensures reads { IfOk result (λ o. IfSome o (λ run.
        AsksFor (rows_of (found_of matches.now)) run.options run.model.now (lent run.stimuli.items))) }
    ensures none { IfOk result (λ o. IfNone o ((options : Options) (model : List ℕ) (stimuli : List (List ℕ))
        → AsksFor (rows_of (found_of matches.now)) options model stimuli → ⊥)) }
{
    let Some(options) = options_in(matches) else {
        return Ok(None);
    };
    let Some(list) = matches.get_strs("words") else {
        return Ok(None);
    };
    let Some((model, stimuli)) = list.split_first() else {
        return Ok(None);
    };
    if !are_spelled(alloc, stimuli)? {
        return Ok(None);
    }
    Ok(Some(RunWords {
        options,
        model: *model,
        stimuli: Vec::from_slice(alloc, stimuli)?,
    }))
}

// The options, where each that is given has a number of its range.
fn options_in(matches: &ArgMatches<'_>) -> Option<Options>
    ensures reads { IfSome result (HasOptions (rows_of (found_of matches.now))) }
    ensures none { IfNone result ((options : Options) → HasOptions (rows_of (found_of matches.now)) options → ⊥) }
{
    let seed = number_in(matches, "seed", 0, u64::MAX, 0)?;
    let workers = number_in(matches, "workers", 1, 16, 1)?;
    let limit = number_in(matches, "limit", 0, 1_000_000, 10_000)?;
    Some(Options {
        seed,
        workers: workers as u8,
        limit: limit as u32,
    })
}

// The number of an option, in its range, or the one for an option that is left out.
fn number_in(
    matches: &ArgMatches<'_>,
    name: &str,
    least: u64,
    greatest: u64,
    otherwise: u64,
) -> Option<u64>
    requires { otherwise ≤ greatest }
    ensures has { IfSome result (HasNumber least greatest otherwise
        (first_of name.now (rows_of (found_of matches.now)))) }
    ensures within { IfSome result (λ n. n ≤ greatest) }
    ensures none { IfNone result ((n : ℕ)
        → HasNumber least greatest otherwise (first_of name.now (rows_of (found_of matches.now))) n → ⊥) }
{
    match matches.get_str(name) {
        Some(word) => number_of(word, least, greatest),
        None => Some(otherwise),
    }
}
