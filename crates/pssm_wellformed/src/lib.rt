//! Which rules of models a machine breaks, and where.
//!
//! This crate answers one question, `check`: the whole list of the rules E01 to E21 that a proper
//! machine breaks, each with the element that breaks it. What stands where is asked of the machine.
//! The rules of paths walk over arrows made once (`walks`, `reach`). From which vertices paths
//! stray out of a region or State is marked once for all places of a level (`levels`, `marks`), and
//! so is which vertices lie on cycles (`cycles`) and across which of them the ends lie in different
//! regions of a State (`stamps`). Each rule stands in one file: E01 and E02 in `regions`, E03 to
//! E06, E09, E11 and E12 in `vertices`, E07, E08 and E15 in `apart`, E10, E13, E17 and E21 in
//! `transitions`, E14 in `local`, E16 in `exits`, E18 in `paths`, E19 in `cycles`, and E20 in
//! `outside`. It knows nothing of texts, of classes or of runs.
#![tactic(auto)]

mod apart;
mod checking;
mod counts;
mod cycles;
mod elements;
mod ends;
mod exits;
mod fault;
mod inside;
mod levels;
mod lists;
mod local;
mod marks;
mod outside;
mod paths;
mod questions;
mod reach;
mod regions;
mod rules;
mod stamps;
mod transitions;
mod vertices;
mod walks;

pub use checking::check;
pub use fault::Fault;
