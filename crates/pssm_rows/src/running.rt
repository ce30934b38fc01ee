//! Runs cases over `pssm`.
ghost use Rattle.std.specs.Prelude.{◌↔◌, ◌<◌, IfOk, IsNone};
ghost use Rattle.pssm_rows.specs.Owed.{Meets};

use crate::case::{Ask, Case, File};
use crate::owed::Answer;
use pssm_base::{Gate, MemInputs, MemSink};
use pssm_cases::{SpellFault, put_spelled};
use pssm_tool::pssm;
use std::alloc::{AllocError as NoMemory, Global};
use std::str;
use std::sync::Wait;
use std::thread::Threads;

// How many bytes a run may write.
const ROOM: usize = 1 << 25;

// The file that holds what the run before wrote.
const WRITTEN: &str = "written";

// How many bytes are told of what a run wrote.
const MOST_TOLD: usize = 200;

// No run waits at a gate.
struct OpenGate;

impl Gate for OpenGate {
    fn before(&self, _object: u8, _turn: u64) {}
}

// The status and the text that a run gives.
#[derive(Drop)]
struct Given {
    code: u8,
    text: Vec<u8>,
}

/// Why a case does not hold; nothing where it does. `shared` are the files that are there in every case.
pub fn failure_of<R: Threads + Wait + Sync + AllocGlobal>(
    rt: &R,
    shared: &[File],
    case: &Case,
) -> Result<Option<String>, NoMemory> {
    for step in 0..case.count {
        let failure = failure_at(rt, shared, case, case.first.saturating_add(step))?;
        if failure.is_some() {
            return Ok(failure);
        }
    }
    if case.asks.is_empty() {
        return told(rt.alloc(), "nothing is run");
    }
    Ok(None)
}

// Why a case does not hold that is tried at this number.
fn failure_at<R: Threads + Wait + Sync + AllocGlobal>(
    rt: &R,
    shared: &[File],
    case: &Case,
    number: u32,
) -> Result<Option<String>, NoMemory> {
    let mut before = Vec::new(rt.alloc());
    for ask in &case.asks {
        let failure = failure_in(rt, shared, case, ask, number, &mut before)?;
        if failure.is_some() {
            return Ok(failure);
        }
    }
    Ok(None)
}

// Why some run is not given what it is owed. `before` is what the run before wrote.
fn failure_in<R: Threads + Wait + Sync + AllocGlobal>(
    rt: &R,
    shared: &[File],
    case: &Case,
    ask: &Ask,
    number: u32,
    before: &mut Vec<u8>,
) -> Result<Option<String>, NoMemory> {
    let Some(owed) = &ask.owed else {
        return told(rt.alloc(), "nothing is owed");
    };
    for run in &ask.runs {
        let Some(given) = given_by(rt, shared, case, run.as_str(), number, before.as_slice())?
        else {
            return told(rt.alloc(), "the words of the run spell no text");
        };
        let failure = failure_on(rt.alloc(), owed, run.as_str(), &given, before.as_slice())?;
        if failure.is_some() {
            return Ok(failure);
        }
        *before = given.text;
    }
    Ok(None)
}

// What a run gives that is read at this number; nothing where its words spell no text.
fn given_by<R: Threads + Wait + Sync + AllocGlobal>(
    rt: &R,
    shared: &[File],
    case: &Case,
    run: &str,
    number: u32,
    before: &[u8],
) -> Result<Option<Given>, NoMemory> {
    let Some(words) = words_of(rt.alloc(), run, number)? else {
        return Ok(None);
    };
    let files = files_of(rt.alloc(), before, case.files.as_slice(), shared)?;
    Ok(Some(given_of(rt, case, files, words.as_slice())?))
}

// The words of a run, read at this number, where each spells a text.
fn words_of(alloc: Global, run: &str, number: u32) -> Result<Option<Vec<String>>, NoMemory> {
    let mut words = Vec::new(alloc);
    for word in run.split_whitespace() {
        let mut bytes = Vec::new(alloc);
        match put_spelled(&mut bytes, word.as_bytes(), number) {
            Ok(()) => {}
            Err(SpellFault::NoEscape) => return Ok(None),
            Err(SpellFault::NoMemory) => return Err(NoMemory),
        }
        match String::from_utf8(bytes) {
            Ok(word) => words.push(word)?,
            Err(_) => return Ok(None),
        }
    }
    Ok(Some(words))
}

// The files of a run: what the run before wrote, and those of the case in front of the shared ones, which they hide.
fn files_of(
    alloc: Global,
    before: &[u8],
    own: &[File],
    shared: &[File],
) -> Result<Vec<(String, Vec<u8>)>, NoMemory> {
    let mut files = Vec::new(alloc);
    files.push((String::from_str(alloc, WRITTEN)?, before.to_vec(alloc)?))?;
    for file in own.iter().chain(shared) {
        files.push((file.name.clone()?, file.bytes.as_slice().to_vec(alloc)?))?;
    }
    Ok(files)
}

// What a run gives.
fn given_of<R: Threads + Wait + Sync + AllocGlobal>(
    rt: &R,
    case: &Case,
    files: Vec<(String, Vec<u8>)>,
    words: &[String],
) -> Result<Given, NoMemory> {
    let alloc = rt.alloc();
    let mut inputs = MemInputs::new(
        files,
        case.reads.fails.as_slice().to_vec(alloc)?,
        case.reads.most,
    );
    let fails = case.writes.fails.as_slice().to_vec(alloc)?;
    let mut out = MemSink::new(alloc, ROOM, fails, case.writes.most)?;
    let status = pssm(rt, alloc, words, &mut inputs, &mut out, &OpenGate);
    let text = out.bytes().to_vec(alloc);
    drop(out);
    Ok(Given {
        code: status.code,
        text: text?,
    })
}

// These words.
fn told(alloc: Global, words: &str) -> Result<Option<String>, NoMemory> {
    Ok(Some(String::from_str(alloc, words)?))
}

// Why what a run gave is not what it is owed; nothing where it is.
fn failure_on(
    alloc: Global,
    owed: &Answer,
    run: &str,
    given: &Given,
    before: &[u8],
) -> Result<Option<String>, NoMemory>
    ensures { IfOk result (λ failure. IsNone failure ↔ Meets owed.now given.now.code given.now.text.items before.now) }
{
    let written = given.text.as_slice();
    if owed.is_met(given.code, written, before) {
        return Ok(None);
    }
    let front = written.get(..MOST_TOLD).unwrap_or(written);
    let text = str::from_utf8(front).unwrap_or("no text");
    let code = given.code;
    Ok(Some(format!(in alloc; "`{run}` gives status {code} and {text:?}")?))
}
