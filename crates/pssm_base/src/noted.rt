//! What went through the outside, noted for clauses alone.
//!
//! A value here takes no memory, and its calls do nothing when they run: what it notes stands in proofs alone. So
//! a note is worth as much as the code that makes it, which is that of `FileInputs` and `StdoutSink`.
ghost use Rattle.std.specs.Prelude.{◌≡◌, ℕ, List, [], ◌∷◌, ◌++◌};
ghost use Rattle.std.specs.Borrow.{ftrue};
ghost use Rattle.pssm_base.specs.History.{Reading, reading};

use std::marker::{Model, PhantomData};

// The calls that were answered, the first of them first.
#[derive(Drop)]
pub(crate) struct NotedCalls {
    marker: PhantomData<u8>,
    pub ghost readings: { List Reading },
}

impl Model for NotedCalls {
    ghost also_owns = { λ _. ftrue };
}

impl NotedCalls {
    // No call was answered.
    pub(crate) fn new() -> NotedCalls
        ensures { result.readings ≡ [] }
    {
        NotedCalls {
            marker: PhantomData,
        }
    }

    // One more call was answered: of this path, from this offset on, with these bytes.
    pub(crate) fn note(&mut self, _path: &[u8], _from: u64, _bytes: &[u8])
        ensures { self.new.readings ≡ self.old.readings ++ reading _path.now _from _bytes.now ∷ [] }
    {}
}

// The bytes that were taken.
#[derive(Drop)]
pub(crate) struct NotedBytes {
    marker: PhantomData<u8>,
    pub ghost bytes: { List ℕ },
}

impl Model for NotedBytes {
    ghost also_owns = { λ _. ftrue };
}

impl NotedBytes {
    // No byte was taken.
    pub(crate) fn new() -> NotedBytes
        ensures { result.bytes ≡ [] }
    {
        NotedBytes {
            marker: PhantomData,
        }
    }

    // These bytes were taken too.
    pub(crate) fn note(&mut self, _bytes: &[u8])
        ensures { self.new.bytes ≡ self.old.bytes ++ _bytes.now }
    {}
}
