//! What is written.
ghost use Rattle.std.specs.Prelude.{◌≡◌, ℕ, ◌<◌, ◌≤◌, List, length, take, Option, IfOk, OnOk, OnErr};
ghost use Rattle.std.specs.Io.KnownBytes.{Appends, Keeps, WriteAppends};
ghost use Rattle.pssm_base.specs.Faults.{Rose};
ghost use Rattle.pssm_base.specs.Putting.{TookPart};

use crate::Failed;

/// Takes bytes, one piece after another.
pub trait Sink {
    /// All bytes that were taken, where that is told.
    ghost taken: { Self → Option (List ℕ) };

    /// How often a call has failed, as a u64 that stays at its last value.
    ghost faults: { Self → ℕ };

    /// Takes the first bytes of the piece and answers how many: at least one of a piece that is not empty.
    /// After a failure nothing was taken.
    fn put(&mut self, bytes: &[u8]) -> Result<usize, Failed>
        ensures within { IfOk result (λ n. n ≤ length bytes.now) }
        ensures some { IfOk result (λ n. 0 < length bytes.now → 0 < n) }
        ensures taken { WriteAppends (taken self.old) (taken self.new) result bytes.now }

        // A failure is the sink's own.
        ensures counts { faults self.old ≤ faults self.new }
        ensures failed { OnErr result (Rose (faults self.old) (faults self.new)) };
}

/// Gives all the bytes to a sink. After a failure the sink has taken a front of them, and not all. It takes no
/// memory.
pub fn put_all<S: Sink>(out: &mut S, bytes: &[u8]) -> Result<(), Failed>
    ensures all { OnOk result (Appends (S.taken out.old) (S.taken out.new) bytes.now) }
    ensures part { OnErr result (TookPart (S.taken out.old) (S.taken out.new) bytes.now) }
    ensures counts { S.faults out.old ≤ S.faults out.new }
    ensures failed { OnErr result (Rose (S.faults out.old) (S.faults out.new)) }
{
    let mut done = 0;
    while done < bytes.len() {
        let (_, rest) = bytes.split_at(done);
        done += out.put(rest)?;
    }
    Ok(())
}
