//! The text of a run's journal.
ghost use Rattle.std.specs.Prelude.{IfOk};
ghost use Rattle.pssm_semantics.specs.Names.{HasSpelledNames};
ghost use Rattle.pssm_tool.specs.inner.Running.{IsTextOf};

use pssm_journal::put_entry;
use pssm_model::Text;
use pssm_system::System;
use std::alloc::{AllocError as NoMemory, Global};

// The first line.
const HEADER: &[u8] = b"pssm-journal 1\n";

/// The text of the journal of a run: the first line, and one line for each entry.
pub fn text_of(alloc: Global, system: &System) -> Result<Text, NoMemory>
    requires { HasSpelledNames system.now.setting }
    ensures { IfOk result (IsTextOf system.now.setting system.now.journal) }
{
    let mut text = HEADER.to_vec(alloc)?;
    for entry in system.entries() {
        put_entry(alloc, &mut text, system.setting(), entry)?;
    }
    Ok(Text::from_vec(text))
}
