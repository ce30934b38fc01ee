//! The line at the front of a text.
ghost use Rattle.std.specs.Prelude.{◌≡◌, ◌∷◌, ◌++◌, IfOk, IfSome, IfNone};
ghost use Rattle.std.specs.Option.{option_map};
ghost use Rattle.pssm_semantics.specs.declared.line.Line.{Line};
ghost use Rattle.pssm_lines.specs.LineText.{line_text};
ghost use Rattle.pssm_lines.specs.Grammar.{IsLine};
ghost use Rattle.pssm_lines.specs.Parts.{Shows};
ghost use Rattle.pssm_lines.specs.inner.LineReading.{shown, item_taken, post_or_pick_taken, done_or_do_taken, other_taken, line_taken};
ghost use Rattle.pssm_lines.specs.inner.Lines.{BeginsNoLine};

use crate::forms::{
    ReadLine, do_at, done_at, effect_at, enter_at, exit_at, open_at, pick_at, post_at, start_at,
    take_at,
};
use pssm_spelling::strip;
use std::alloc::{AllocError as NoMemory, Global};

// A line that begins with `e`.
#[inline(always)]
fn item_at(bytes: &[u8]) -> Result<ReadLine<'_>, NoMemory>
    ensures { IfOk result (λ o. option_map (λ x. (shown x.0, x.1.now)) o ≡ item_taken bytes.now) }
{
    if let Some(rest) = strip(bytes, b"effect ") {
        effect_at(rest)
    } else if let Some(rest) = strip(bytes, b"enter ") {
        enter_at(rest)
    } else if let Some(rest) = strip(bytes, b"exit ") {
        exit_at(rest)
    } else {
        Ok(None)
    }
}

// A line that begins with `p`.
#[inline(always)]
fn post_or_pick_at(alloc: Global, bytes: &[u8]) -> Result<ReadLine<'_>, NoMemory>
    ensures { IfOk result (λ o. option_map (λ x. (shown x.0, x.1.now)) o ≡ post_or_pick_taken bytes.now) }
{
    if let Some(rest) = strip(bytes, b"post ") {
        post_at(alloc, rest)
    } else if let Some(rest) = strip(bytes, b"pick ") {
        pick_at(alloc, rest)
    } else {
        Ok(None)
    }
}

// A line that begins with `d`.
#[inline(always)]
fn done_or_do_at(alloc: Global, bytes: &[u8]) -> Result<ReadLine<'_>, NoMemory>
    ensures { IfOk result (λ o. option_map (λ x. (shown x.0, x.1.now)) o ≡ done_or_do_taken bytes.now) }
{
    if let Some(rest) = strip(bytes, b"done ") {
        done_at(alloc, rest)
    } else if let Some(rest) = strip(bytes, b"do ") {
        Ok(do_at(rest))
    } else {
        Ok(None)
    }
}

// A line that begins with another letter.
#[inline(always)]
fn other_at(alloc: Global, bytes: &[u8]) -> Result<ReadLine<'_>, NoMemory>
    ensures { IfOk result (λ o. option_map (λ x. (shown x.0, x.1.now)) o ≡ other_taken bytes.now) }
{
    if let Some(rest) = strip(bytes, b"take ") {
        take_at(alloc, rest)
    } else if let Some(rest) = strip(bytes, b"open ") {
        open_at(alloc, rest)
    } else if let Some(rest) = strip(bytes, b"start ") {
        Ok(start_at(rest))
    } else {
        Ok(None)
    }
}

// The line at the front of the bytes, by its first letter.
#[inline(always)]
#[tactic(auto, unfolding(crate::specs::inner::LineReading::line_taken))]
fn shown_at(alloc: Global, bytes: &[u8]) -> Result<ReadLine<'_>, NoMemory>
    ensures { IfOk result (λ o. option_map (λ x. (shown x.0, x.1.now)) o ≡ line_taken bytes.now) }
{
    match bytes {
        [b'e', ..] => item_at(bytes),
        [b'p', ..] => post_or_pick_at(alloc, bytes),
        [b'd', ..] => done_or_do_at(alloc, bytes),
        _ => other_at(alloc, bytes),
    }
}

/// The line of the grammar at the front of the bytes, and what follows its line feed.
#[inline(always)]
pub fn line_at(alloc: Global, bytes: &[u8]) -> Result<ReadLine<'_>, NoMemory>
    ensures found { IfOk result (λ o. IfSome o (λ x.
        (l : Line) × IsLine l × (bytes.now ≡ line_text l ++ 10 ∷ x.1.now) × Shows x.0 l)) }
    ensures none { IfOk result (λ o. IfNone o (BeginsNoLine bytes.now)) }
{
    shown_at(alloc, bytes)
}
