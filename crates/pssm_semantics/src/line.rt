//! The lines of a journal's text, in which objects, signals and marks stand by name.
use crate::args::Args;
use pssm_model::{Firing, How, Mode, RegionId, Route, Row, Text, TransId, VertexId};

/// An output as a line has it.
#[derive(PartialEq, Eq, Drop)]
pub enum LineOut {
    Mark {
        mark: Text,
        args: Args,
    },
    Send {
        object: Text,
        signal: Text,
        args: Args,
    },
}

/// An entry as a line has it.
#[derive(PartialEq, Eq, Drop)]
pub enum Line {
    Post {
        object: Text,
        signal: Text,
        args: Args,
    },
    Start {
        object: Text,
    },
    Take {
        object: Text,
        number: u32,
        firing: Firing,
    },
    Done {
        object: Text,
        state: VertexId,
        firing: Firing,
    },
    Exit {
        object: Text,
        state: VertexId,
        outs: Row<LineOut>,
    },
    Effect {
        object: Text,
        transition: TransId,
        outs: Row<LineOut>,
    },
    Enter {
        object: Text,
        state: VertexId,
        outs: Row<LineOut>,
    },
    Opened {
        object: Text,
        region: RegionId,
        mode: Mode,
        how: How,
    },
    Pick {
        object: Text,
        choice: VertexId,
        route: Route,
    },
    DoStep {
        object: Text,
        state: VertexId,
        step: u16,
        outs: Row<LineOut>,
    },
}
