//! Real files and standard output. What they hold is the system's own, and no contract tells it: told is what was
//! read of the files, and what standard output has taken.
ghost use Rattle.std.specs.Prelude.{◌≡◌, ◌<◌, ◌≤◌, ◌++◌, [], ◌∷◌, length, take, None, Some, OnErr, IfOk};
ghost use Rattle.pssm_base.specs.Faults.{Rose, raised};
ghost use Rattle.pssm_base.specs.History.{reading};

use crate::fault::raise;
use crate::noted::{NotedBytes, NotedCalls};
use crate::{Failed, Inputs, Sink};
use std::alloc::Global;
use std::io::{Read, Seek, SeekFrom};
use std::marker::Model;
use std::rt::Files;
use std::{fs, io};

// A file that was read last, and where its next byte stands.
#[derive(Drop)]
struct Opened<F: Drop> {
    path: String,
    file: F,
    at: u64,
}

/// Files of the system, by their paths. A call fails where the system does not open the file, go to the offset or
/// read, as at a path that is missing or a directory, and where there is no memory for the path.
///
/// It keeps the file that it read last open, so a file that is read from its front to its end is opened once and
/// never sought in. All paths are counted together.
#[derive(Drop)]
pub struct FileInputs<'a, R: Files> {
    rt: &'a R,
    alloc: Global,
    last: Option<Opened<R::File>>,
    answered: NotedCalls,
    faults: u64,
}

impl<'a, R: Files> Model for FileInputs<'a, R> {
    ghost use Rattle.pssm_base.specs.Outside.{FilesRead};

    ghost Value = { FilesRead };

    ghost view = { λ inputs. record { readings = inputs.answered.readings; faults = inputs.faults } };
}

impl<'a, R: Files> FileInputs<'a, R> {
    /// The files that a runtime reaches. None has been read, and the count of faults is 0. The memory is for the
    /// path of the file that is kept open.
    pub fn new(rt: &'a R, alloc: Global) -> FileInputs<'a, R>
        ensures { result ≡ record { readings = []; faults = 0 } }
    {
        FileInputs {
            rt,
            alloc,
            last: None,
            answered: NotedCalls::new(),
            faults: 0,
        }
    }
}

impl<'a, R: Files> Inputs for FileInputs<'a, R> {
    ghost content = { λ inputs path. None };

    ghost history = { λ inputs. Some inputs.readings };

    ghost faults = { λ inputs path. inputs.faults };

    fn read_at(&mut self, path: &str, from: u64, into: &mut [u8]) -> Result<usize, Failed>
        requires { 0 < length into.old }
        ensures within { IfOk result (λ n. n ≤ length into.old) }
        ensures counts { self.old.faults ≤ self.new.faults }
        ensures failed { OnErr result (Rose self.old.faults self.new.faults) }
        ensures ok { IfOk result (λ n. self.new ≡ record self.old {
          readings = self.old.readings ++ reading path.now from (take n into.new) ∷ [];
        }) }
        ensures err { OnErr result (self.new ≡ record self.old { faults = raised self.old.faults }) }
    {
        match read_file(self.rt, self.alloc, &mut self.last, path, from, into) {
            Ok(count) => {
                let (front, _) = into.split_at(count);
                self.answered.note(path.as_bytes(), from, front);
                Ok(count)
            }
            Err(_) => Err(raise(&mut self.faults)),
        }
    }
}

// Reads from the file that was read last, where it is the one at the path, and else opens it. After an error no
// file is kept. That the system went where it was sent is looked at, since the call is kept with that offset.
fn read_file<R: Files>(
    rt: &R,
    alloc: Global,
    last: &mut Option<Opened<R::File>>,
    path: &str,
    from: u64,
    into: &mut [u8],
) -> io::Result<usize>
    ensures { IfOk result (λ n. n ≤ length into.old) }
{
    let mut opened = match last.take() {
        Some(opened) if opened.path.as_str() == path => opened,
        _ => Opened {
            path: String::from_str(alloc, path)?,
            file: fs::open(rt, path)?,
            at: 0,
        },
    };
    if opened.at != from {
        opened.at = opened.file.seek(SeekFrom::Start(from))?;
        if opened.at != from {
            return Err(io::ErrorKind::InvalidInput.into());
        }
    }
    let count = opened.file.read(into)?;
    opened.at = opened.at.saturating_add(count as u64);
    *last = Some(opened);
    Ok(count)
}

/// Standard output, as a runtime prints to it. A call fails where the system does not write.
#[derive(Drop)]
pub struct StdoutSink<'a, P: Print> {
    rt: &'a P,
    taken: NotedBytes,
    faults: u64,
}

impl<'a, P: Print> Model for StdoutSink<'a, P> {
    ghost use Rattle.pssm_base.specs.Outside.{OutputWritten};

    ghost Value = { OutputWritten };

    ghost view = { λ sink. record { taken = sink.taken.bytes; faults = sink.faults } };
}

impl<'a, P: Print> StdoutSink<'a, P> {
    /// Standard output. It has taken nothing, and the count of faults is 0.
    pub fn new(rt: &'a P) -> StdoutSink<'a, P>
        ensures { result ≡ record { taken = []; faults = 0 } }
    {
        StdoutSink {
            rt,
            taken: NotedBytes::new(),
            faults: 0,
        }
    }
}

impl<'a, P: Print> Sink for StdoutSink<'a, P> {
    ghost taken = { λ sink. Some sink.taken };

    ghost faults = { λ sink. sink.faults };

    fn put(&mut self, bytes: &[u8]) -> Result<usize, Failed>
        ensures within { IfOk result (λ n. n ≤ length bytes.now) }
        ensures some { IfOk result (λ n. 0 < length bytes.now → 0 < n) }
        ensures counts { self.old.faults ≤ self.new.faults }
        ensures failed { OnErr result (Rose self.old.faults self.new.faults) }
        ensures ok { IfOk result (λ n. self.new ≡ record self.old { taken = self.old.taken ++ take n bytes.now }) }
        ensures err { OnErr result (self.new ≡ record self.old { faults = raised self.old.faults }) }
    {
        if bytes.is_empty() {
            return Ok(0);
        }
        match self.rt.write_some(bytes) {
            Ok(count) if count > 0 => {
                let (front, _) = bytes.split_at(count);
                self.taken.note(front);
                Ok(count)
            }
            _ => Err(raise(&mut self.faults)),
        }
    }
}
