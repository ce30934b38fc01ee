//! Runs the cases that stand in the files `*.rows` of a folder over `pssm`, and says which of them hold. The folder
//! is the one that its word names, or the one that it runs in.
//!
//! A file of cases is UTF-8 text of lines. A line that is empty or begins with `#` is for the reader. The others:
//!
//! - `file NAME`: a file with the text lines below it. In front of the first case it is there in all cases of this
//!   file of cases, and behind a `case` in that case alone, where it hides one of the same name.
//! - `file NAME like OTHER`: a file with the text of OTHER, which was given before. Below it `line K` or `lines K L`
//!   says that the text lines behind it stand in the place of line K, or of lines K to L, of OTHER. The places come
//!   in order.
//! - `case WORDS`: a case, and what it shows.
//! - `each N from F`: the case is tried N times; in the words of its runs `\#` stands for F, F+1, and so on.
//! - `failing reads N ..` and `failing writes N ..`: the calls that fail of a run of the case, counted from 0.
//! - `pieces R W`: how many bytes a read and a write pass on at most, and `pieces N` the same for
//!   both; 65,536 if not said.
//! - `run WORDS ..`: a run with these words, each behind one blank. A blank in a word is spelled `\x20`, and `\{0}x`
//!   is a word without a byte.
//! - `status N`: what the runs are owed that stand above it, up to the next status: this status, and exactly the text
//!   lines below. In their place, `status N with E entries` owes a journal of E entries, whatever they are,
//!   `status N as before` what the run before wrote, and `status N unlike before` anything else.
//! - `judge MODEL`: the run of `judge MODEL written`. The file `written` holds what the run before it in the case
//!   wrote, and is empty in the first.
//! - `| TEXT`: a text line, the bytes of TEXT and a line feed. `N | TEXT` is the line N times, and `N from F | TEXT`
//!   too, with F, F+1, and so on for `\#`. `pssm_cases` has the escapes of TEXT; a backslash at its end leaves the
//!   line feed out.
//! - `+ NAME`: among the text lines, the whole text of a file that was given before.
//!
//! The answers that are owed stand in the files, and none in this program.
#![tactic(auto)]

mod case;
mod draft;
mod line;
mod owed;
mod reading;
mod running;

use crate::reading::cases_of;
use crate::running::failure_of;
use pssm_cases::{Outcome, Tally, all_hold, folder_of, names_in, report};
use std::alloc::{AllocError as NoMemory, Global};
use std::process::ExitCode;
use std::rt::Files;
use std::sync::Wait;
use std::thread::Threads;
use std::{fs, io};

fn main(rt: HostRuntime) -> io::Result<ExitCode> {
    let folder = folder_of(&rt)?;
    let mut tallies = Vec::new(rt.alloc());
    for name in names_in(&rt, folder.as_str(), ".rows")? {
        tallies.push(tally_of(&rt, folder.as_str(), name)?)?;
    }
    print!(rt; "{}", report(rt.alloc(), tallies.as_slice())?)?;
    if all_hold(tallies.as_slice()) {
        Ok(ExitCode::SUCCESS)
    } else {
        Ok(ExitCode::FAILURE)
    }
}

// What becomes of the cases of a file.
fn tally_of<R: Threads + Wait + Sync + Files + AllocGlobal>(
    rt: &R,
    folder: &str,
    name: String,
) -> Result<Tally, NoMemory> {
    let path = format!(in rt.alloc(); "{folder}/{name}")?;
    let outcomes = match fs::read_to_string(rt, path.as_str()) {
        Ok(text) => outcomes_of(rt, text.as_str())?,
        Err(_) => one_failure(rt.alloc(), 1, "this is no text that can be read")?,
    };
    Ok(Tally { name, outcomes })
}

// What becomes of the cases of a text.
fn outcomes_of<R: Threads + Wait + Sync + AllocGlobal>(
    rt: &R,
    text: &str,
) -> Result<Vec<Outcome>, NoMemory> {
    let alloc = rt.alloc();
    let cases = match cases_of(alloc, text)? {
        Ok(cases) => cases,
        Err(line) => return one_failure(alloc, line, "this is no line of a file of cases"),
    };
    let mut outcomes = Vec::new(alloc);
    for case in cases.cases {
        let failure = failure_of(rt, cases.files.as_slice(), &case)?;
        outcomes.push(Outcome {
            line: case.line,
            words: case.words,
            failure,
        })?;
    }
    Ok(outcomes)
}

// The outcome of a file that has no cases to run.
fn one_failure(alloc: Global, line: usize, words: &str) -> Result<Vec<Outcome>, NoMemory> {
    let words = String::from_str(alloc, words)?;
    let failure = Some(String::from_str(alloc, "nothing was run")?);
    Ok(vec![in alloc;
        Outcome {
            line,
            words,
            failure
        },
    ]?)
}
