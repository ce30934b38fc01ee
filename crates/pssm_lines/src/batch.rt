//! The whole lines at the front of a text.
ghost use Rattle.std.specs.Prelude.{◌≡◌, ◌+◌, ◌≤◌, IfOk};
ghost use Rattle.pssm_lines.specs.Reading.{line_feeds};
ghost use Rattle.pssm_lines.specs.inner.Batches.{IsBatch};

use crate::fault::LineFault;
use crate::front::{Front, front_of};
use crate::whole::whole_line;
use pssm_semantics::Line;
use std::alloc::{AllocError as NoMemory, Global};

/// The whole lines at the front of a text, up to the first fault.
#[derive(Drop)]
pub struct Batch<'a> {
    pub lines: Vec<Line>,
    /// Whether the first line of the text was read.
    pub begun: bool,
    /// The number of the line that comes next, from 1.
    pub number: u32,
    /// What follows the lines.
    pub rest: &'a [u8],
    /// What is wrong with it, however it goes on.
    pub fault: Option<LineFault>,
}

/// The whole lines at the front of `text`, whose first one has this number.
pub fn batch_of(alloc: Global, begun: bool, number: u32, text: &[u8]) -> Result<Batch<'_>, NoMemory>
    requires { number + line_feeds text.now ≤ 4294967295 }
    ensures read { IfOk result (λ b. IsBatch begun number text.now b.lines.items b.begun b.number b.rest.now b.fault) }
    ensures counted { IfOk result (λ b. b.number ≤ number + line_feeds text.now) }
{
    let mut lines = Vec::new(alloc);
    let mut begun = begun;
    let mut number = number;
    let mut rest = text;
    loop {
        match front_of(alloc, begun, number, rest)? {
            Front::Header { rest: after } => {
                begun = true;
                rest = after;
            }
            Front::Line { parts, rest: after } => {
                lines.push(whole_line(alloc, parts)?)?;
                rest = after;
            }
            Front::Open => {
                return Ok(Batch {
                    lines,
                    begun,
                    number,
                    rest,
                    fault: None,
                });
            }
            Front::Fault(fault) => {
                return Ok(Batch {
                    lines,
                    begun,
                    number,
                    rest,
                    fault: Some(fault),
                });
            }
        }
        number += 1;
    }
}
