//! `LineReader`: a journal's lines from its bytes, in whatever pieces they come.
ghost use Rattle.std.specs.Prelude.{◌≡◌, ◌+◌, ◌≤◌, ◌↔◌, ◌++◌, ℕ, List, [], length, true, false, None, IfOk, IfSome, OnErr, OnOk, IsSome, IsNone, IsTrue, MatchOption};
ghost use Rattle.pssm_semantics.specs.declared.line.Line.{Line};
ghost use Rattle.pssm_lines.specs.Faults.{HasFault};
ghost use Rattle.pssm_lines.specs.Reading.{Reading, line_feeds, HasRead, IsFed};
ghost use Rattle.pssm_lines.specs.inner.Batches.{IsBatch};

use crate::batch::{Batch, batch_of};
use crate::fault::LineFault;
use pssm_model::Row;
use pssm_semantics::Line;
use std::alloc::{AllocError as NoMemory, Global};
use std::marker::Model;

/// What a piece of a journal brought: the lines that it completed before the first fault, and the fault.
#[derive(Drop)]
pub struct Fed {
    pub lines: Row<Line>,
    pub fault: Option<LineFault>,
}

/// Reads the lines of a journal from its bytes, in whatever pieces they come.
///
/// It keeps the bytes of the line that is not whole, at most 65,536, and nothing else of the text. After a fault
/// each later call gives no line and that fault.
#[derive(Drop)]
pub struct LineReader {
    alloc: Global,
    begun: bool,
    number: u32,
    pending: Vec<u8>,
    fault: Option<LineFault>,
}

impl Model for LineReader {
    ghost use Rattle.pssm_lines.specs.Reading.{Reading};
    ghost use Rattle.pssm_lines.specs.Faults.{IsOpen};

    ghost Value = { Reading };

    ghost view = { λ r. record { begun = r.begun; number = r.number; fault = r.fault; pending = r.pending.items } };

    ghost invariant = { λ r. IsOpen r.begun r.pending.items };
}

impl LineReader {
    ghost use Rattle.pssm_lines.specs.Reading.{Reading};

    /// A reader to which no byte was fed.
    pub fn new(alloc: Global) -> LineReader
        ensures { result ≡ record { begun = false; number = 1; fault = None; pending = [] } }
    {
        LineReader {
            alloc,
            begun: false,
            number: 1,
            pending: Vec::new(alloc),
            fault: None,
        }
    }

    /// Takes the next piece of the text.
    ///
    /// The line feeds in all bytes fed are fewer than 4,294,967,295: the number of the line that comes next is one
    /// more than they are. `NoMemory` leaves the reader as it was, so the piece may be fed again.
    pub fn feed(&mut self, piece: &[u8]) -> Result<Fed, NoMemory>
        requires { self.old.number + line_feeds piece.now ≤ 4294967295 }

        // With the piece its lines become whole; a fault is one of all that came, however it goes on.
        ensures read { self.old.fault ≡ None →
            IfOk result (λ fed. IsFed self.old self.new piece.now fed.lines fed.fault) }

        // After a fault nothing is read.
        ensures failed { IsSome self.old.fault →
            IfOk result (λ fed. (fed.lines ≡ []) × (fed.fault ≡ self.old.fault)) }
        ensures kept { IfOk result (λ fed. self.new.fault ≡ fed.fault) }
        ensures counted { self.new.number ≤ self.old.number + line_feeds piece.now }
        ensures err { OnErr result (self.new ≡ self.old) }
    {
        if let Some(fault) = self.fault {
            return Ok(Fed {
                lines: Row::from_vec(Vec::new(self.alloc)),
                fault: Some(fault),
            });
        }
        let mut text = Vec::from_slice(self.alloc, self.pending.as_slice())?;
        text.extend_from_slice(piece)?;
        let Batch {
            lines,
            begun,
            number,
            rest,
            fault,
        } = batch_of(self.alloc, self.begun, self.number, text.as_slice())?;
        let lines = Row::from_vec(lines);
        if fault.is_some() {
            self.fault = fault;
            return Ok(Fed { lines, fault });
        }
        self.pending = Vec::from_slice(self.alloc, rest)?;
        self.begun = begun;
        self.number = number;
        Ok(Fed { lines, fault: None })
    }

    /// Ends the input. `None` says that the bytes are the whole text of a journal; an input that ends within a
    /// line, or before the first one, has the fault `NoEnd`, and an earlier fault is told again.
    pub fn finish(&mut self) -> Option<LineFault>
        // Nothing is wrong exactly where the text is whole.
        ensures whole { IsNone result ↔
            ((self.old.fault ≡ None) × (self.old.begun ≡ true) × (self.old.pending ≡ [])) }

        ensures failed { IsSome self.old.fault → result ≡ self.old.fault }

        // Else all that came has the fault after the lines so far.
        ensures bad { self.old.fault ≡ None → IfSome result (λ fault. (came : List ℕ) (lines : List Line) →
            HasRead came lines self.old → HasFault came lines fault) }

        ensures kept { self.new ≡ record self.old { fault = result } }
    {
        if self.fault.is_some() {
            return self.fault;
        }
        if self.begun && self.pending.as_slice().is_empty() {
            return None;
        }
        let fault = LineFault::NoEnd { line: self.number };
        self.fault = Some(fault);
        Some(fault)
    }
}
