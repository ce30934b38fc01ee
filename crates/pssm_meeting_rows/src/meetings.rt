//! What the program's workers do side by side.
use crate::gates::{Holding, Meeting};
use pssm_base::{Gate, MemInputs, MemSink};
use pssm_tool::pssm;
use pssm_trials::{BOTH, Failure, came, same_number, surely};
use std::alloc::{AllocError as NoMemory, Global};
use std::str;
use std::sync::Wait;
use std::thread::Threads;

// How many turns a gate holds a worker that another is to join.
const LONG: u64 = 100_000_000;

// How many turns a gate holds a worker that nobody can join.
const SHORT: u64 = 10_000;

// How many bytes a file or a journal has at most, and a read or a write.
const ROOM: usize = 1 << 16;

// The name of the model.
const MODEL: &str = "model";

// Two objects that go from one State to another on Go: each has 9 entries, of which 5 run behaviours.
const TWO: &[u8] = b"pssm-flat 1\nsignal Go 0\nclass M\nobject a M\nobject b M\nmachine M\n\
    region r0 top\nvertex v0 r0 initial\nvertex v1 r0 state A\nvertex v2 r0 state B\n\
    transition t0 v0 v1 external\ntransition t1 v1 v2 external\non Go\nend\n";

/// Two workers stand side by side: those of the behaviours in two regions.
pub fn two_calls_meet<R: Threads + Wait + Sync>(rt: &R, alloc: Global) -> Result<(), Failure> {
    let gate = Meeting::new(LONG);
    let words = ["run", "--workers", "2", MODEL, "a.Go()"];
    let journal = journal_of(rt, alloc, &words, BOTH, &gate)?;
    has_entries(alloc, &journal, 18)?;
    surely(alloc, gate.has_met(), "no two calls met")
}

/// One worker alone meets none.
pub fn one_worker_meets_none<R: Threads + Wait + Sync>(
    rt: &R,
    alloc: Global,
) -> Result<(), Failure> {
    let gate = Meeting::new(SHORT);
    let words = ["run", "--workers", "1", MODEL, "a.Go()"];
    let journal = journal_of(rt, alloc, &words, BOTH, &gate)?;
    has_entries(alloc, &journal, 18)?;
    surely(alloc, !gate.has_met(), "two calls met")
}

/// While the first behaviour of one object is held, the other object's behaviours go on and end.
///
/// It is held until five behaviours of the other have begun. Each of them has to end before the next begins, and so the
/// entries of the other up to its second effect stand before the first effect of the one.
pub fn behaviours_overlap<R: Threads + Wait + Sync>(rt: &R, alloc: Global) -> Result<(), Failure> {
    let gate = Holding::new(5, LONG);
    let words = ["run", "--workers", "2", MODEL, "a.Go()", "b.Go()"];
    let journal = journal_of(rt, alloc, &words, TWO, &gate)?;
    has_entries(alloc, &journal, 18)?;
    same_number(alloc, "the other's behaviours", 5, gate.seen() as usize)?;
    let held = place_of(alloc, &journal, "effect a t0\n")?;
    let other = place_of(alloc, &journal, "effect b t1\n")?;
    surely(alloc, other < held, "the held behaviour ended first")
}

// The journal that the program writes with these words of this model.
fn journal_of<R: Threads + Wait + Sync, G: Gate + Sync>(
    rt: &R,
    alloc: Global,
    words: &[&str],
    model: &[u8],
    gate: &G,
) -> Result<String, Failure> {
    let texts = texts_of(alloc, words)?;
    let mut inputs = inputs_of(alloc, model)?;
    let mut out = MemSink::new(alloc, ROOM, Vec::new(alloc), ROOM)?;
    let status = pssm(rt, alloc, texts.as_slice(), &mut inputs, &mut out, gate);
    journal_in(alloc, status.code, &out)
}

// The words, each as a text of its own.
fn texts_of(alloc: Global, words: &[&str]) -> Result<Vec<String>, NoMemory> {
    let mut texts = Vec::new(alloc);
    for word in words {
        texts.push(String::from_str(alloc, word)?)?;
    }
    Ok(texts)
}

// Files of which one is this model.
fn inputs_of(alloc: Global, model: &[u8]) -> Result<MemInputs, NoMemory> {
    let mut files = Vec::new(alloc);
    files.push((String::from_str(alloc, MODEL)?, model.to_vec(alloc)?))?;
    Ok(MemInputs::new(files, Vec::new(alloc), ROOM))
}

// The journal that was written by a run with this status, which is to be 0.
fn journal_in(alloc: Global, code: u8, out: &MemSink) -> Result<String, Failure> {
    same_number(alloc, "the status", 0, usize::from(code))?;
    match str::from_utf8(out.bytes()) {
        Ok(journal) => Ok(String::from_str(alloc, journal)?),
        Err(_) => Err(came(alloc, "the journal is no text")),
    }
}

// The journal has so many entries below its first line.
fn has_entries(alloc: Global, journal: &String, owed: usize) -> Result<(), Failure> {
    let lines = journal.bytes().filter(|byte| *byte == b'\n').count();
    same_number(alloc, "the lines", owed.saturating_add(1), lines)
}

// Where a line stands in the journal.
fn place_of(alloc: Global, journal: &String, line: &str) -> Result<usize, Failure> {
    match journal.find(line) {
        Some(place) => Ok(place),
        None => Err(Failure::Came(format!(in alloc; "there is no {line:?}")?)),
    }
}
