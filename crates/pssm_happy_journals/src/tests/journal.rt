//! That an entry of a setting has its line, and a line its entry.
//!
//! Each function holds one large value at most: the places that let go of several are dear to prove.
ghost use Rattle.std.specs.Prelude.{◌≤◌, length};
ghost use Rattle.pssm_semantics.specs.Proper.{IsWellFormed};
ghost use Rattle.pssm_journal.specs.Entries.{KeepsNames};

use crate::tests::settings::setting_of;
use pssm_journal::*;
use pssm_model::{SignalId, Text};
use pssm_semantics::{Args, ObjectId, Setting};
use std::alloc::{AllocError, Global};
use std::test::Fail;

// An object `a`, and a signal `Go` of eight parameters.
const MODEL: &[u8] = b"pssm-flat 1\nsignal Go 8\nclass M\nobject a M\nmachine M\nregion r0 top\n\
    vertex v0 r0 initial\nvertex v1 r0 state A\ntransition t0 v0 v1 external\nend\n";

// Eight arguments, the widest among them.
const EIGHT: [i64; 8] = [
    -9223372036854775808,
    9223372036854775807,
    0,
    -1,
    1,
    10,
    -10,
    7,
];

// The line that posts them.
const POST: &[u8] = b"post a.Go(-9223372036854775808,9223372036854775807,0,-1,1,10,-10,7)\n";

fn text(alloc: Global, bytes: &[u8]) -> Result<Text, AllocError> {
    Ok(Text::from_vec(Vec::from_slice(alloc, bytes)?))
}

fn args(alloc: Global, values: &[i64]) -> Result<Args, AllocError>
    requires { length values.now ≤ 8 }
{
    Ok(Args::from_vec(Vec::from_slice(alloc, values)?))
}

// The post of `Go` at `a`, as a line.
fn post(alloc: Global) -> Result<Line, AllocError> {
    let object = text(alloc, b"a")?;
    let signal = text(alloc, b"Go")?;
    Ok(Line::Post {
        object,
        signal,
        args: args(alloc, &EIGHT)?,
    })
}

fn is_the_post(entry: &Entry) -> bool {
    match entry {
        Entry::Post {
            object,
            signal,
            args,
        } => {
            *object == ObjectId(0) && *signal == SignalId(0) && args.as_slice() == EIGHT.as_slice()
        }
        _ => false,
    }
}

// Whether the line of the entry is written so, and so is the entry itself.
fn is_written_so(
    alloc: Global,
    setting: &Setting,
    entry: &Entry,
    wanted: &[u8],
) -> Result<bool, AllocError>
    requires well_formed { IsWellFormed setting.now }
    requires names { KeepsNames setting.now entry.now }
{
    run_lines();
    let line = line_of(alloc, setting, entry)?;
    let of_line = write_line(alloc, &line)?;
    let mut of_entry = Vec::new(alloc);
    put_entry(alloc, &mut of_entry, setting, entry)?;
    Ok(of_line.as_slice() == wanted && of_entry.as_slice() == wanted)
}

// Whether the line has the post for its entry, and the post the line that is written so.
fn has_the_post(alloc: Global, setting: &Setting, line: &Line) -> Result<bool, AllocError>
    requires { IsWellFormed setting.now }
{
    match entry_of(alloc, setting, line)? {
        Some(entry) => Ok(is_the_post(&entry) && is_written_so(alloc, setting, &entry, POST)?),
        None => Ok(false),
    }
}

#[test]
fn a_line_has_its_entry_and_an_entry_its_line(rt: HostRuntime) -> Result<(), Fail> {
    let line = post(rt.alloc())?;
    let setting = setting_of(rt.alloc(), MODEL)?;
    let has = has_the_post(rt.alloc(), &setting, &line)?;
    assert!(rt; has);
    Ok(())
}

// Whether the parts of the line have the post.
fn parts_have_the_post(alloc: Global, setting: &Setting) -> Result<bool, AllocError> {
    let namespace = Namespace::new(alloc, setting)?;
    let parts = LineParts::Post {
        object: b"a",
        signal: b"Go",
        args: args(alloc, &EIGHT)?,
    };
    match entry_of_parts(alloc, setting, &namespace, parts)? {
        Some(entry) => Ok(is_the_post(&entry)),
        None => Ok(false),
    }
}

#[test]
fn parts_have_their_entry(rt: HostRuntime) -> Result<(), Fail> {
    let setting = setting_of(rt.alloc(), MODEL)?;
    let read = parts_have_the_post(rt.alloc(), &setting)?;
    assert!(rt; read);
    Ok(())
}
