//! What a class's machine and those that it extends have, gathered by the numbers of the flattened machine.

use pssm_model::{ElementRef, Owner, Row, VertexId};

/// The ends of a transition in the flattened machine (UML 2.5.1, 14.2.3.8).
#[derive(Clone, Copy)]
pub struct Ends {
    pub source: VertexId,
    pub target: VertexId,
}

/// The machines from the one that extends none down to the class's own; the owner of each region and of each vertex,
/// and the ends of each transition, all as numbers of the flattened machine; and the forms of each vertex and each
/// transition: the first one, and those by which the machines further down redefine it, in this order
/// (UML 2.5.1, 14.3.3).
#[derive(Drop)]
pub struct Gathered {
    pub machines: Row<u32>,
    pub regions: Row<Owner>,
    pub owners: Row<Owner>,
    pub vertices: Row<Row<ElementRef>>,
    pub ends: Row<Ends>,
    pub transitions: Row<Row<ElementRef>>,
}
