//! Inputs and a sink that never fail.
ghost use Rattle.std.specs.Prelude.{◌≡◌, ◌<◌, ◌≤◌, ◌-◌, length, min, Some, None, IfOk, IsOk};
ghost use Rattle.std.specs.Io.KnownBytes.{WriteAppends};
ghost use Rattle.pssm_base.specs.Memory.{files_of, bytes_or_none};
ghost use Rattle.pssm_base.specs.Reading.{SameContent, IsFront};

use crate::files::{copy_front, find};
use crate::{Failed, Inputs, Sink};
use std::marker::Model;

/// Files in memory. No call fails: a path that is not there is read as empty.
#[derive(Drop)]
pub struct SureInputs {
    files: Vec<(String, Vec<u8>)>,
}

impl Model for SureInputs {
    ghost use Rattle.pssm_base.specs.Memory.{Files, files_of};

    ghost Value = { Files };

    ghost view = { λ m. files_of m.files.items };
}

impl SureInputs {
    /// Inputs with these files. Where a path stands twice, the first counts. It takes no memory.
    pub fn new(files: Vec<(String, Vec<u8>)>) -> SureInputs
        ensures { result ≡ files_of files.items }
    {
        SureInputs { files }
    }
}

impl Inputs for SureInputs {
    ghost content = { λ files path. Some (bytes_or_none files path) };

    ghost history = { λ files. None };

    ghost faults = { λ files path. 0 };

    fn read_at(&mut self, path: &str, from: u64, into: &mut [u8]) -> Result<usize, Failed>
        requires { 0 < length into.old }
        ensures within { IfOk result (λ n. n ≤ length into.old) }
        ensures front { IfOk result (λ n. IsFront (bytes_or_none self.old path.now) from n into.new) }
        ensures same { self.new ≡ self.old }
        ensures sure { IsOk result }

        // As many bytes as it can.
        ensures count { IfOk result
            (λ n. n ≡ min (length into.old) (length (bytes_or_none self.old path.now) - from)) }
    {
        match find(&self.files, path) {
            Some(bytes) => Ok(copy_front(bytes, from, usize::MAX, into)),
            None => Ok(0),
        }
    }
}

/// Takes every piece whole, and keeps nothing. No call fails.
#[derive(Clone, Copy, PartialEq, Eq)]
pub struct SureSink;

impl SureSink {
    /// A sink. It takes no memory.
    pub fn new() -> SureSink
        ensures { result ≡ record {} }
    {
        SureSink
    }
}

impl Sink for SureSink {
    ghost taken = { λ sink. None };

    ghost faults = { λ sink. 0 };

    fn put(&mut self, bytes: &[u8]) -> Result<usize, Failed>
        ensures { result ≡ Ok (length bytes.now) }
    {
        Ok(bytes.len())
    }
}
