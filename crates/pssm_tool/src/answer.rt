//! What the program answers: a text, and the status that goes with it.
ghost use Rattle.std.specs.Prelude.{◌≡◌, ◌++◌, IfOk, codes, string_bytes};
ghost use Rattle.std.specs.Fmt.{decimal};
ghost use Rattle.pssm_semantics.specs.Verdict.{number_of};
ghost use Rattle.pssm_flat.specs.Text.{line};
ghost use Rattle.pssm_tool.specs.Answers.{text_of, code_of, generated_line};

use crate::refusal::fault_text;
use crate::status::Status;
use pssm_load::LoadFault;
use pssm_model::Text;
use pssm_semantics::Rule;
use pssm_workers::Ended;
use std::alloc::{AllocError as NoMemory, Global};

/// An answer to the words.
#[derive(Drop)]
pub enum Answer {
    /// The journal is admissible, and has so many entries.
    Accept {
        entries: u32,
    },
    /// The entry, counted from 1, is the first that breaks a rule, and this is the first rule that it breaks.
    Refuse {
        entry: u32,
        rule: Rule,
    },
    /// With this entry, counted from 1, the journal passes its limits, and no earlier entry breaks a rule.
    Limit {
        entry: u32,
    },
    /// The model reads, in either form, and its machines keep the rules of models.
    WellFormed,
    /// The words mean no command, or a stimulus among them does not fit the model: it names what
    /// the model does not have, or has not as many arguments as its signal has parameters.
    Usage,
    /// The line of the journal, counted from 1, goes wrong at this byte, counted from 1, and no earlier line breaks a
    /// rule.
    BadLine {
        line: u32,
        byte: u32,
    },
    /// The journal ends within this line, counted from 1, or has no bytes, and no earlier line breaks a rule.
    NoEnd {
        line: u32,
    },
    /// A file has more than 16,777,216 bytes, or a line of a journal more than 65,536, and no earlier line breaks a
    /// rule.
    TooLarge,
    /// The text of a run's journal, and how the run ended.
    Journal {
        text: Text,
        ended: Ended,
    },
    /// The flat text of a model.
    Flat(Text),
    /// What is said of the journal of a generated model's run, by the model's number: how many entries it has, how many
    /// of them take a signal, and the SHA-256 digest of its text.
    Generated {
        number: u16,
        entries: usize,
        takes: usize,
        digest: [u8; 32],
    },
    /// Why the model is refused.
    BadModel(LoadFault),
}

impl Answer {
    /// The status that goes with the answer.
    pub fn status(&self) -> Status
        ensures { result.code ≡ code_of self.now }
    {
        let code = match self {
            Answer::Accept { .. }
            | Answer::WellFormed
            | Answer::Flat(_)
            | Answer::Generated { .. } => 0,
            Answer::Journal {
                ended: Ended::Quiet,
                ..
            } => 0,
            Answer::Journal {
                ended: Ended::Limit,
                ..
            } => 8,
            Answer::Refuse { .. } => 1,
            Answer::Usage => 2,
            Answer::BadModel(_) => 3,
            Answer::BadLine { .. } | Answer::NoEnd { .. } => 4,
            Answer::Limit { .. } => 8,
            Answer::TooLarge => 9,
        };
        Status { code }
    }

    /// The text that is written.
    pub fn into_text(self, alloc: Global) -> Result<Text, NoMemory>
        ensures { IfOk result (λ text. text ≡ text_of self) }
    {
        match self {
            Answer::Accept { entries } => Ok(bytes_of(format!(in alloc; "accept {entries}\n")?)),
            Answer::Refuse { entry, rule } => Ok(bytes_of(refusal(alloc, entry, number(rule))?)),
            Answer::Limit { entry } => Ok(bytes_of(format!(in alloc; "limit {entry}\n")?)),
            Answer::WellFormed => Ok(Text::from_vec(b"well formed\n".to_vec(alloc)?)),
            Answer::Usage => Ok(Text::from_vec(b"usage\n".to_vec(alloc)?)),
            Answer::BadLine { line, byte } => Ok(bytes_of(bad_line(alloc, line, byte)?)),
            Answer::NoEnd { line } => Ok(bytes_of(no_end(alloc, line)?)),
            Answer::TooLarge => Ok(Text::from_vec(b"too large\n".to_vec(alloc)?)),
            Answer::Journal { text, .. } | Answer::Flat(text) => Ok(text),
            Answer::Generated {
                number,
                entries,
                takes,
                digest,
            } => Ok(bytes_of(counted(alloc, number, entries, takes, &digest)?)),
            Answer::BadModel(fault) => fault_text(alloc, &fault),
        }
    }
}

/// The bytes of a string.
pub fn bytes_of(string: String) -> Text
    ensures { result ≡ string_bytes string }
{
    Text::from_vec(string.into_bytes())
}

// The line on a refused entry and the number of the rule that it breaks.
fn refusal(alloc: Global, entry: u32, rule: u8) -> Result<String, NoMemory>
    ensures { IfOk result (λ text. string_bytes text
        ≡ line (codes "refuse " ++ decimal entry ++ codes " A" ++ decimal rule)) }
{
    format!(in alloc; "refuse {entry} A{rule}\n")
}

// The line on the byte at which a line of a journal goes wrong.
fn bad_line(alloc: Global, number: u32, byte: u32) -> Result<String, NoMemory>
    ensures { IfOk result (λ text. string_bytes text
        ≡ line (codes "journal line " ++ decimal number ++ codes " byte " ++ decimal byte)) }
{
    format!(in alloc; "journal line {number} byte {byte}\n")
}

// The line on the line of a journal within which it ends.
fn no_end(alloc: Global, number: u32) -> Result<String, NoMemory>
    ensures { IfOk result (λ text. string_bytes text
        ≡ line (codes "journal line " ++ decimal number ++ codes " no end")) }
{
    format!(in alloc; "journal line {number} no end\n")
}

// The line on the journal of a generated model's run.
fn counted(
    alloc: Global,
    number: u16,
    entries: usize,
    takes: usize,
    digest: &[u8],
) -> Result<String, NoMemory>
    ensures { IfOk result (λ text. string_bytes text ≡ generated_line number entries takes digest.now) }
{
    let digits = hex::encode(alloc, digest)?;
    let text = counted_line(alloc, number, entries, takes, digits.as_str());
    drop(digits);
    text
}

// The same, with the digits of the digest.
fn counted_line(
    alloc: Global,
    number: u16,
    entries: usize,
    takes: usize,
    digits: &str,
) -> Result<String, NoMemory>
    ensures { IfOk result (λ text. string_bytes text
        ≡ line (codes "gen " ++ decimal number ++ codes " entries " ++ decimal entries
        ++ codes " takes " ++ decimal takes ++ codes " sha256 " ++ digits.now)) }
{
    format!(in alloc; "gen {number} entries {entries} takes {takes} sha256 {digits}\n")
}

// The number in a rule's name.
fn number(rule: Rule) -> u8
    ensures { result ≡ number_of rule }
{
    match rule {
        Rule::A1 => 1,
        Rule::A2 => 2,
        Rule::A3 => 3,
        Rule::A4 => 4,
        Rule::A5 => 5,
        Rule::A6 => 6,
        Rule::A7 => 7,
        Rule::A8 => 8,
        Rule::A9 => 9,
        Rule::A10 => 10,
        Rule::A11 => 11,
        Rule::A12 => 12,
    }
}
