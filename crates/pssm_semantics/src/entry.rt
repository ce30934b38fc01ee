//! The entries of a journal, and the rules that a verdict names.
ghost use Rattle.std.specs.Prelude.{◌≡◌, IfOk};

use crate::args::Args;
use pssm_model::{
    Duplicate, Firing, How, MarkId, Mode, RegionId, Route, Row, SignalId, TransId, VertexId,
};
use std::alloc::{AllocError as NoMemory, Global};

/// An object of the setting, counted from 0 in the order of the model, at most 63.
#[derive(Clone, Copy, PartialEq, Eq, PartialOrd, Ord, Hash)]
pub struct ObjectId(pub u8);

/// What a behaviour gives out: a mark, or a signal sent to an object (UML 2.5.1, 16.3.3, send signal actions).
#[derive(PartialEq, Eq, Drop)]
pub enum Out {
    Mark {
        mark: MarkId,
        args: Args,
    },
    Send {
        object: ObjectId,
        signal: SignalId,
        args: Args,
    },
}

impl Out {
    /// A second value, equal to this one.
    pub fn copy(&self, alloc: Global) -> Result<Out, NoMemory>
        ensures { IfOk result (λ other. other ≡ self.now) }
    {
        self.duplicate(alloc)
    }
}

/// The rules of a run in the order in which they are asked of an entry.
#[derive(Clone, Copy, PartialEq, Eq, Debug)]
pub enum Rule {
    A1,
    A2,
    A3,
    A4,
    A5,
    A6,
    A7,
    A8,
    A9,
    A10,
    A11,
    A12,
}

/// One thing that happened, as a journal has it.
///
/// `Post`: a signal came from outside. `Start`, `Take` and `Done` begin a step of the object: its first one, one by
/// the signal with a number from 1, and one by the completion of a State. `Exit`, `Effect`, `Enter`, `Opened` and
/// `Pick` run the items of a step. `DoStep` is a step of a State's do-activity, counted from 0.
#[derive(PartialEq, Eq, Drop)]
pub enum Entry {
    Post {
        object: ObjectId,
        signal: SignalId,
        args: Args,
    },
    Start {
        object: ObjectId,
    },
    Take {
        object: ObjectId,
        number: u32,
        firing: Firing,
    },
    Done {
        object: ObjectId,
        state: VertexId,
        firing: Firing,
    },
    Exit {
        object: ObjectId,
        state: VertexId,
        outs: Row<Out>,
    },
    Effect {
        object: ObjectId,
        transition: TransId,
        outs: Row<Out>,
    },
    Enter {
        object: ObjectId,
        state: VertexId,
        outs: Row<Out>,
    },
    Opened {
        object: ObjectId,
        region: RegionId,
        mode: Mode,
        how: How,
    },
    Pick {
        object: ObjectId,
        choice: VertexId,
        route: Route,
    },
    DoStep {
        object: ObjectId,
        state: VertexId,
        step: u16,
        outs: Row<Out>,
    },
}

impl Entry {
    /// A second value, equal to this one.
    pub fn copy(&self, alloc: Global) -> Result<Entry, NoMemory>
        ensures { IfOk result (λ other. other ≡ self.now) }
    {
        self.duplicate(alloc)
    }
}
