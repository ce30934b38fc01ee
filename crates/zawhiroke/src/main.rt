//! The program: it hands its words, the system's files and standard output to `pssm`, and ends with
//! the status that `pssm` answers, or with 7 where there is no memory for the words. What the words
//! do, and what is promised of it, stands at `pssm`.
#![tactic(auto)]

use pssm_base::{FileInputs, Gate, StdoutSink};
use pssm_tool::pssm;
use std::alloc::{AllocError, Global};
use std::env;
use std::io::ErrorKind;
use std::process::ExitCode;
use std::rt::Env;

// No command waits at a gate.
struct OpenGate;

impl Gate for OpenGate {
    fn before(&self, _object: u8, _turn: u64) {}
}

fn main(rt: HostRuntime) -> ExitCode {
    let alloc = rt.alloc();
    let Ok(words) = words_of(&rt) else {
        return ExitCode::from(7);
    };
    let mut inputs = FileInputs::new(&rt, alloc);
    let mut out = StdoutSink::new(&rt);
    let status = pssm(
        &rt,
        alloc,
        words.as_slice(),
        &mut inputs,
        &mut out,
        &OpenGate,
    );
    ExitCode::from(status.code)
}

// The words after the program's name. Where one is no text there are none, which is answered like other wrong words.
fn words_of(rt: &(impl Env + Alloc<A = Global>)) -> Result<Vec<String>, AllocError> {
    match env::args(rt) {
        Ok(words) => words.skip(1).collect(rt.alloc()),
        Err(fault) if fault.kind() == ErrorKind::OutOfMemory => Err(AllocError),
        Err(_) => Ok(Vec::new(rt.alloc())),
    }
}
