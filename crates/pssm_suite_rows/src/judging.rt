//! Judges the journal of a vector over `pssm`.
ghost use Rattle.std.specs.Prelude.{◌↔◌, ◌≡◌, IfOk, IsNone};

use crate::index::Vector;
use pssm_base::{Gate, MemInputs, MemSink};
use pssm_tool::pssm;
use std::alloc::{AllocError as NoMemory, Global};
use std::rt::Files;
use std::sync::Wait;
use std::thread::Threads;
use std::{fs, str};

// How many bytes an answer may have.
const ROOM: usize = 1 << 16;

// How many bytes a read and a write pass on at most.
const MOST: usize = 65_536;

// No journal is judged by turns.
struct OpenGate;

impl Gate for OpenGate {
    fn before(&self, _object: u8, _turn: u64) {}
}

// The status and the text of an answer.
#[derive(Drop)]
struct Answer {
    code: u8,
    text: Vec<u8>,
}

/// Why a vector of the suite in this folder does not hold; nothing where it does.
pub fn failure_of<R: Threads + Wait + Sync + Files + AllocGlobal>(
    rt: &R,
    folder: &str,
    vector: &Vector<'_>,
) -> Result<Option<String>, NoMemory> {
    let alloc = rt.alloc();
    let mut files = Vec::new(alloc);
    for name in [vector.model, vector.journal] {
        let group = vector.group;
        let path = format!(in alloc; "{folder}/{group}/{name}")?;
        match fs::read(rt, path.as_str()) {
            Ok(bytes) => files.push((String::from_str(alloc, name)?, bytes))?,
            Err(_) => return Ok(Some(format!(in alloc; "`{name}` cannot be read")?)),
        }
    }
    let given = answer_of(rt, files, vector)?;
    failure_on(alloc, &owed_of(alloc, vector.owed)?, &given)
}

// The answer that is owed.
fn owed_of(alloc: Global, owed: &str) -> Result<Answer, NoMemory> {
    let mut text = owed.as_bytes().to_vec(alloc)?;
    text.push(b'\n')?;
    let code = if owed.starts_with("accept ") { 0 } else { 1 };
    Ok(Answer { code, text })
}

// The answer to `judge` with the files of a vector.
fn answer_of<R: Threads + Wait + Sync + AllocGlobal>(
    rt: &R,
    files: Vec<(String, Vec<u8>)>,
    vector: &Vector<'_>,
) -> Result<Answer, NoMemory> {
    let alloc = rt.alloc();
    let mut words = Vec::new(alloc);
    for word in ["judge", vector.model, vector.journal] {
        words.push(String::from_str(alloc, word)?)?;
    }
    let mut inputs = MemInputs::new(files, Vec::new(alloc), MOST);
    let mut out = MemSink::new(alloc, ROOM, Vec::new(alloc), MOST)?;
    let status = pssm(
        rt,
        alloc,
        words.as_slice(),
        &mut inputs,
        &mut out,
        &OpenGate,
    );
    let text = out.bytes().to_vec(alloc);
    drop(out);
    Ok(Answer {
        code: status.code,
        text: text?,
    })
}

// Why an answer is not the one that is owed; nothing where it is.
fn failure_on(alloc: Global, owed: &Answer, given: &Answer) -> Result<Option<String>, NoMemory>
    ensures { IfOk result (λ failure. IsNone failure
        ↔ ((given.now.code ≡ owed.now.code) × (given.now.text.items ≡ owed.now.text.items))) }
{
    if given.code == owed.code && given.text.as_slice() == owed.text.as_slice() {
        return Ok(None);
    }
    let wanted = str::from_utf8(owed.text.as_slice()).unwrap_or("no text");
    let text = str::from_utf8(given.text.as_slice()).unwrap_or("no text");
    let code = given.code;
    Ok(Some(format!(in alloc; "{wanted:?} is owed, and `judge` gives status {code} and {text:?}")?))
}
