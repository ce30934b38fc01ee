//! The limits of a journal.
ghost use Rattle.std.specs.Prelude.{◌≡◌, ◌+◌, ◌≤◌, ◌<◌, ◌⊎◌, ◌↔◌, IsTrue, count_by, ◌==◌};
ghost use Rattle.pssm_semantics.specs.declared.line.Line.{Line};
ghost use Rattle.pssm_lines.specs.Grammar.{IsLine};
ghost use Rattle.pssm_lines.specs.Parts.{Shows, brief_line};
ghost use Rattle.pssm_journal.specs.Judged.{line_output_count};

use pssm_journal::{BriefAct, BriefParts, LineParts, OutsText};

/// The most entries that a journal may have.
pub const MOST_ENTRIES: u32 = 1_000_000;

// The most posts, sends and marks that a journal may have.
const MOST_OUTPUTS: usize = 2_000_000;

// How many outputs a text spells: each has a space before it, and no other space is there.
fn spaces(outs: OutsText<'_>) -> usize
    ensures { result ≡ count_by (λ c. c == 32) outs.entry.bytes.now }
{
    outs.bytes.iter().filter(|c| **c == b' ').count()
}

/// How many posts, sends and marks a line writes, from its parts.
pub fn output_count(parts: &LineParts<'_>) -> usize
    ensures { (line : Line) → IsLine line → Shows parts.now line → result ≡ line_output_count line }
{
    match parts {
        LineParts::Post { .. } => 1,
        LineParts::Exit { outs, .. }
        | LineParts::Effect { outs, .. }
        | LineParts::Enter { outs, .. }
        | LineParts::DoStep { outs, .. } => spaces(*outs),
        LineParts::Start { .. }
        | LineParts::Take { .. }
        | LineParts::Done { .. }
        | LineParts::Opened { .. }
        | LineParts::Pick { .. } => 0,
    }
}

/// How many posts, sends and marks a brief line writes.
#[inline(always)]
pub fn brief_output_count(parts: &BriefParts<'_>) -> usize
    ensures { result ≡ line_output_count (brief_line parts.now) }
{
    match parts.act {
        BriefAct::Post { .. } => 1,
        _ => 0,
    }
}

/// Whether a journal of so many entries and outputs passes its limits by one entry more, with so many `further`
/// outputs.
#[inline(always)]
pub fn passes_limits(entries: usize, outputs: usize, further: usize) -> bool
    requires { outputs ≤ 2000000 }
    ensures { IsTrue result ↔ ((1000000 < entries + 1) ⊎ (2000000 < outputs + further)) }
{
    entries >= MOST_ENTRIES as usize || further > MOST_OUTPUTS - outputs
}
