//! A sink in memory, whose calls can be made to fail.
ghost use Rattle.std.specs.Prelude.{◌≡◌, ◌+◌, ◌<◌, ◌≤◌, ◌-◌, [], ◌++◌, Some, length, take, Contains, OnOk, OnErr, IfOk, IsOk, IsErr};
ghost use Rattle.std.specs.Io.KnownBytes.{WriteAppends};
ghost use Rattle.pssm_base.specs.Faults.{Rose, raised};
ghost use Rattle.pssm_base.specs.Memory.{passed_on};

use crate::calls::Calls;
use crate::{Failed, NoMemory, Sink};
use std::alloc::Global;
use std::marker::Model;

/// Keeps what it takes, in memory that it has from the start. A call fails where its number, from 0, is among
/// those that are to fail, and on a piece that is not empty where there is no room. Another call takes as many
/// bytes as it can, and at most `most`.
///
/// The number of a call and the count of faults stay at their last value, 18446744073709551615.
#[derive(Drop)]
pub struct MemSink {
    taken: Vec<u8>,
    room: usize,
    calls: Calls,
    most: usize,
}

impl Model for MemSink {
    ghost use Rattle.std.specs.Prelude.{◌<◌, ◌≤◌, vec_len, vec_capacity};
    ghost use Rattle.pssm_base.specs.Memory.{SinkInMemory};

    ghost Value = { SinkInMemory };

    ghost view = { λ m. record {
      taken = m.taken.items;
      room = m.room;
      fails = m.calls.fails.items;
      most = m.most;
      calls = m.calls.next;
      faults = m.calls.faults;
    } };

    ghost invariant = { λ m. (0 < m.most) × (vec_len m.taken ≤ m.room) × (m.room ≤ vec_capacity m.taken) };
}

impl MemSink {
    /// A sink that has taken nothing, with memory for `room` bytes.
    pub fn new(
        alloc: Global,
        room: usize,
        fails: Vec<u64>,
        most: usize,
    ) -> Result<MemSink, NoMemory>
        requires { 0 < most }
        ensures { IfOk result (λ sink. sink ≡ record {
          taken = [];
          room = room;
          fails = fails.items;
          most = most;
          calls = 0;
          faults = 0;
        }) }
    {
        Ok(MemSink {
            taken: Vec::with_capacity(alloc, room)?,
            room,
            calls: Calls::new(fails),
            most,
        })
    }

    /// All that it has taken. It takes no memory.
    pub fn bytes(&self) -> &[u8]
        ensures { result.now ≡ self.now.taken }
    {
        self.taken.as_slice()
    }
}

impl Sink for MemSink {
    ghost taken = { λ m. Some m.taken };

    ghost faults = { λ m. m.faults };

    fn put(&mut self, bytes: &[u8]) -> Result<usize, Failed>
        // As of all sinks.
        ensures within { IfOk result (λ n. n ≤ length bytes.now) }
        ensures some { IfOk result (λ n. 0 < length bytes.now → 0 < n) }
        ensures taken { WriteAppends (Some self.old.taken) (Some self.new.taken) result bytes.now }
        ensures counts { self.old.faults ≤ self.new.faults }
        ensures failed { OnErr result (Rose self.old.faults self.new.faults) }

        // As many bytes as it can.
        ensures count { IfOk result
            (λ n. n ≡ passed_on self.old.most (self.old.room - length self.old.taken) (length bytes.now)) }

        // Which calls fail.
        ensures planned { Contains self.old.fails self.old.calls → IsErr result }
        ensures full { self.old.room ≤ length self.old.taken → 0 < length bytes.now → IsErr result }
        ensures others { (Contains self.old.fails self.old.calls → ⊥)
            → length self.old.taken < self.old.room → IsOk result }
        ensures others_empty { (Contains self.old.fails self.old.calls → ⊥)
            → length bytes.now ≡ 0 → IsOk result }

        // What changes.
        ensures ok { IfOk result (λ n. self.new ≡ record self.old {
          taken = self.old.taken ++ take n bytes.now;
          calls = raised self.old.calls;
        }) }
        ensures err { OnErr result (self.new ≡ record self.old {
          calls = raised self.old.calls;
          faults = raised self.old.faults;
        }) }
    {
        let fails = self.calls.begin();
        let left = self.room - self.taken.len();
        if fails || (left == 0 && !bytes.is_empty()) {
            return Err(self.calls.fail());
        }
        let count = self.most.min(left).min(bytes.len());
        let (front, _) = bytes.split_at(count);
        self.taken.extend_from_slice(front).unwrap();
        Ok(count)
    }
}
