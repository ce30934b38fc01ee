//! Files in memory, whose calls can be made to fail.
ghost use Rattle.std.specs.Prelude.{◌≡◌, ◌<◌, ◌≤◌, ◌-◌, length, None, Contains, OnOk, OnErr, IfOk, IfSome, IsOk, IsErr, IsNone, IsSome};
ghost use Rattle.pssm_base.specs.Faults.{Rose, NoneFell, raised};
ghost use Rattle.pssm_base.specs.Memory.{files_of, bytes_under, passed_on};
ghost use Rattle.pssm_base.specs.Reading.{SameContent, IsFront};

use crate::calls::Calls;
use crate::files::{copy_front, find};
use crate::{Failed, Inputs};
use std::marker::Model;

/// Files in memory. A call fails where its number, from 0, is among those that are to fail, and at a path that is
/// not there. Another call passes on as many bytes as it can, and at most `most`.
///
/// The number of a call and the count of faults stay at their last value, 18446744073709551615. All paths are
/// counted together.
#[derive(Drop)]
pub struct MemInputs {
    files: Vec<(String, Vec<u8>)>,
    calls: Calls,
    most: usize,
}

impl Model for MemInputs {
    ghost use Rattle.std.specs.Prelude.{◌<◌};
    ghost use Rattle.pssm_base.specs.Memory.{InputsInMemory, files_of};

    ghost Value = { InputsInMemory };

    ghost view = { λ m. record {
      files = files_of m.files.items;
      fails = m.calls.fails.items;
      most = m.most;
      calls = m.calls.next;
      faults = m.calls.faults;
    } };

    ghost invariant = { λ m. 0 < m.most };
}

impl MemInputs {
    /// Inputs of which no call has come yet. Where a path stands twice, the first counts. It takes no memory.
    pub fn new(files: Vec<(String, Vec<u8>)>, fails: Vec<u64>, most: usize) -> MemInputs
        requires { 0 < most }
        ensures { result ≡ record {
          files = files_of files.items;
          fails = fails.items;
          most = most;
          calls = 0;
          faults = 0;
        } }
    {
        MemInputs {
            files,
            calls: Calls::new(fails),
            most,
        }
    }
}

impl Inputs for MemInputs {
    ghost content = { λ m path. bytes_under m.files path };

    ghost history = { λ m. None };

    ghost faults = { λ m path. m.faults };

    fn read_at(&mut self, path: &str, from: u64, into: &mut [u8]) -> Result<usize, Failed>
        requires { 0 < length into.old }

        // As of all inputs.
        ensures within { IfOk result (λ n. n ≤ length into.old) }
        ensures front { IfOk result (λ n. IfSome (bytes_under self.old.files path.now)
            (λ bytes. IsFront bytes from n into.new)) }
        ensures same { SameContent (bytes_under self.old.files) (bytes_under self.new.files) }
        ensures counts { NoneFell (λ _. self.old.faults) (λ _. self.new.faults) }
        ensures failed { OnErr result (Rose self.old.faults self.new.faults) }

        // As many bytes as it can.
        ensures count { IfOk result (λ n. IfSome (bytes_under self.old.files path.now)
            (λ bytes. n ≡ passed_on self.old.most (length into.old) (length bytes - from))) }

        // Which calls fail.
        ensures planned { Contains self.old.fails self.old.calls → IsErr result }
        ensures missing { IsNone (bytes_under self.old.files path.now) → IsErr result }
        ensures others { (Contains self.old.fails self.old.calls → ⊥)
            → IsSome (bytes_under self.old.files path.now) → IsOk result }

        // What changes.
        ensures ok { OnOk result (self.new ≡ record self.old { calls = raised self.old.calls }) }
        ensures err { OnErr result (self.new ≡ record self.old {
          calls = raised self.old.calls;
          faults = raised self.old.faults;
        }) }
    {
        let fails = self.calls.begin();
        match find(&self.files, path) {
            Some(bytes) if !fails => Ok(copy_front(bytes, from, self.most, into)),
            _ => Err(self.calls.fail()),
        }
    }
}
