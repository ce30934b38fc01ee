//! The signals of a draft.
ghost use Rattle.std.specs.Prelude.{◌≡◌, ◌<◌, length, map, IfOk};
ghost use Rattle.pssm_numbering.specs.Numbering.{signals as signals_in};
ghost use Rattle.pssm_drafting.specs.Drafts as drafts;
ghost use Rattle.pssm_drafting.specs.Fitting.{FitsDraft, HasFewParameters};

use pssm_model::{DraftSignal, Row};
use pssm_numbering::{File, Kind, Numbering, children_of_kind};
use pssm_values::clean_name;
use std::alloc::{AllocError as NoMemory, Global};

// A signal, with as many parameters as it has attributes.
fn signal_at(alloc: Global, file: &File, n: u32) -> Result<DraftSignal, NoMemory>
    requires within { n < length file.now.doc }
    requires few { HasFewParameters file.now n }
    ensures { IfOk result (λ signal. signal ≡ drafts.signal_at file.now n) }
{
    let parameters = children_of_kind(alloc, file, n, Kind::Parameter)?;
    Ok(DraftSignal {
        name: clean_name(alloc, file.value_or_empty(n, b"name"))?,
        count: parameters.len() as u8,
        parent: None,
    })
}

/// The signals of a file (UML 2.5.1, 10.5.11, Signal).
pub fn signals_of(
    alloc: Global,
    file: &File,
    numbering: &Numbering,
) -> Result<Row<DraftSignal>, NoMemory>
    requires same { numbering.now ≡ file.now }
    requires fits { FitsDraft file.now }
    ensures { IfOk result (λ row. row ≡ map (drafts.signal_at file.now) (signals_in file.now)) }
{
    let mut row = Row::from_vec(Vec::new(alloc));
    for n in numbering.signals() {
        row.push(signal_at(alloc, file, *n)?)?;
    }
    Ok(row)
}
