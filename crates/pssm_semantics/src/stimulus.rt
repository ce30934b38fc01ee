//! Signals from outside, and the tasks that workers take.
ghost use Rattle.std.specs.Prelude.{◌≡◌, IfOk};

use crate::args::Args;
use crate::entry::ObjectId;
use pssm_model::{Duplicate, SignalId, TransId, VertexId};
use std::alloc::{AllocError as NoMemory, Global};

/// A signal with its arguments, for an object.
#[derive(PartialEq, Eq, Drop)]
pub struct Stimulus {
    pub object: ObjectId,
    pub signal: SignalId,
    pub args: Args,
}

impl Stimulus {
    /// A second value, equal to this one.
    pub fn copy(&self, alloc: Global) -> Result<Stimulus, NoMemory>
        ensures { IfOk result (λ other. other ≡ self.now) }
    {
        self.duplicate(alloc)
    }
}

/// A piece of work that runs a behaviour: an exit, an effect, an entry, or a step of a do-activity, from 0.
#[derive(Clone, Copy, PartialEq, Eq)]
pub enum Task {
    Exit(VertexId),
    Effect(TransId),
    Enter(VertexId),
    DoStep(VertexId, u16),
}
