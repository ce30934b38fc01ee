//! What is read.
ghost use Rattle.std.specs.Prelude.{◌≡◌, ℕ, ◌<◌, ◌≤◌, List, [], ◌∷◌, length, take, Option, None, IfSome, IfOk, OnErr};
ghost use Rattle.pssm_base.specs.Faults.{Rose, NoneFell};
ghost use Rattle.pssm_base.specs.History.{History, Adds, reading};
ghost use Rattle.pssm_base.specs.Reading.{SameContent, IsFront};

use crate::Failed;

/// Paths with bytes under them, of which a call reads a piece.
pub trait Inputs {
    /// What a path holds, where that is told.
    ghost content: { Self → List ℕ → Option (List ℕ) };

    /// The calls that were answered so far, where they are kept. It takes no memory to keep them: they stand in
    /// proofs alone.
    ghost history: { Self → History } = { λ _. None };

    /// How often reading a path has failed, as a u64 that stays at its last value. An implementation may count
    /// all paths together.
    ghost faults: { Self → List ℕ → ℕ };

    /// Copies bytes that stand under `path`, from the offset `from` on (in bytes, from 0), to the front of `into`,
    /// and answers how many: at least one, and 0 only at or after the end. What stands in `into` behind them, or
    /// after a failure, is left open.
    fn read_at(&mut self, path: &str, from: u64, into: &mut [u8]) -> Result<usize, Failed>
        requires { 0 < length into.old }

        // The bytes, and how many there are.
        ensures within { IfOk result (λ n. n ≤ length into.old) }
        ensures front { IfOk result (λ n. IfSome (content self.old path.now)
            (λ bytes. IsFront bytes from n into.new)) }

        // The call is kept with the bytes that it gave; one that failed is not kept.
        ensures kept { IfOk result (λ n.
            Adds (history self.old) (history self.new) (reading path.now from (take n into.new) ∷ [])) }
        ensures none_kept { OnErr result (Adds (history self.old) (history self.new) []) }

        // Reading changes no content.
        ensures same { SameContent (content self.old) (content self.new) }

        // A failure is the path's own.
        ensures counts { NoneFell (faults self.old) (faults self.new) }
        ensures failed { OnErr result (Rose (faults self.old path.now) (faults self.new path.now)) };
}
