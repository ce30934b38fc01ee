//! The parts of a line as they lie in its text: names are bytes of the text, and so are the outputs.

use pssm_model::{Firing, How, Mode, RegionId, Route, TransId, VertexId};
use pssm_semantics::Args;

/// The outputs of a line as they are spelled, each with a space before it.
#[derive(Clone, Copy)]
pub struct OutsText<'a> {
    pub bytes: &'a [u8],
}

/// An output of a line: a mark, or a signal sent to an object.
#[derive(Drop)]
pub enum OutParts<'a> {
    Mark {
        mark: &'a [u8],
        args: Args,
    },
    Send {
        object: &'a [u8],
        signal: &'a [u8],
        args: Args,
    },
}

/// A line of a journal. Only what its entry keeps was taken from the allocator: arguments, and lists of transitions.
#[derive(Drop)]
pub enum LineParts<'a> {
    Post {
        object: &'a [u8],
        signal: &'a [u8],
        args: Args,
    },
    Start {
        object: &'a [u8],
    },
    Take {
        object: &'a [u8],
        number: u32,
        firing: Firing,
    },
    Done {
        object: &'a [u8],
        state: VertexId,
        firing: Firing,
    },
    Exit {
        object: &'a [u8],
        state: VertexId,
        outs: OutsText<'a>,
    },
    Effect {
        object: &'a [u8],
        transition: TransId,
        outs: OutsText<'a>,
    },
    Enter {
        object: &'a [u8],
        state: VertexId,
        outs: OutsText<'a>,
    },
    Opened {
        object: &'a [u8],
        region: RegionId,
        mode: Mode,
        how: How,
    },
    Pick {
        object: &'a [u8],
        choice: VertexId,
        route: Route,
    },
    DoStep {
        object: &'a [u8],
        state: VertexId,
        step: u16,
        outs: OutsText<'a>,
    },
}

/// What a brief line tells of its object.
#[derive(Clone, Copy)]
pub enum BriefAct<'a> {
    Post { signal: &'a [u8] },
    Take { number: u32, start: TransId },
    Exit { state: VertexId },
    Effect { transition: TransId },
    Enter { state: VertexId },
}

/// A brief line: one of the most frequent kinds, without arguments and outputs, and of what fires one route of one
/// start. Nothing of it is taken from the allocator.
#[derive(Clone, Copy)]
pub struct BriefParts<'a> {
    pub object: &'a [u8],
    pub act: BriefAct<'a>,
}
