//! The words of the command line.
ghost use Rattle.std.specs.Prelude.{◌≡◌, ℕ, IfOk, IfSome, IfNone};
ghost use Rattle.pssm_spelling.specs.Numbers.{IsNumber};
ghost use Rattle.pssm_tool.specs.Words.{texts, Meaning, Generates, Means, IsUsage};
ghost use Rattle.pssm_tool.specs.inner.Commands.{meaning_of};

use crate::run_words::{RunWords, run_of};
use pssm_spelling::number_of;
use std::alloc::{AllocError as NoMemory, Global};

/// A command, with the words that it needs.
#[derive(Drop)]
pub enum Command<'a> {
    /// Judge the journal as one of a run of the model.
    Judge { model: &'a str, journal: &'a str },
    /// Run the model.
    Run(RunWords<'a>),
    /// Check the model.
    Check { model: &'a str },
    /// Print the flat text of the model.
    Flat { model: &'a str },
    /// Run the generated model of this number, 1 to 4,000.
    Generate { number: u16 },
}

/// The command that the words mean, if they mean one. They mean no more than one.
#[tactic(auto, using(crate::proofs::WordLaws::one_meaning))]
pub fn command_of(alloc: Global, words: &[String]) -> Result<Option<Command<'_>>, NoMemory>
    ensures reads { IfOk result (λ o. IfSome o (λ command. Means (texts words.now) (meaning_of command))) }
    ensures usage { IfOk result (λ o. IfNone o (IsUsage (texts words.now))) }
    ensures once { (a b : Meaning) → Means (texts words.now) a → Means (texts words.now) b → a ≡ b }
{
    match words {
        [verb, ..] if verb.as_str() == "run" => match run_of(alloc, words)? {
            Some(run) => Ok(Some(Command::Run(run))),
            None => Ok(None),
        },
        [verb, model, journal] if verb.as_str() == "judge" => Ok(Some(Command::Judge {
            model: model.as_str(),
            journal: journal.as_str(),
        })),
        [verb, model] if verb.as_str() == "check" => Ok(Some(Command::Check {
            model: model.as_str(),
        })),
        [verb, model] if verb.as_str() == "flat" => Ok(Some(Command::Flat {
            model: model.as_str(),
        })),
        [verb, number] if verb.as_str() == "gen" => Ok(generated(number.as_str())),
        _ => Ok(None),
    }
}

// The command to run the generated model of the number that the word spells.
fn generated<'a>(word: &str) -> Option<Command<'a>>
    ensures reads { IfSome result (λ command. (n : ℕ)
        × (meaning_of command ≡ Generates n) × IsNumber word.now 1 4000 n) }
    ensures none { IfNone result ((n : ℕ) → IsNumber word.now 1 4000 n → ⊥) }
{
    let number = number_of(word, 1, 4000)?;
    Some(Command::Generate {
        number: number as u16,
    })
}
