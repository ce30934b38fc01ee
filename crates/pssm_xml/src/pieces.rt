//! The pieces of which a text consists.
ghost use Rattle.std.specs.Prelude.{◌≡◌, ◌+◌, IfOk};
ghost use Rattle.std.specs.Option.{option_map, option_copied};
ghost use Rattle.std.specs.Str.{continuation_len};
ghost use Rattle.pssm_xml.specs.inner.Reading.{end_taken, comment_taken, section_taken, instruction_rest, instruction_taken, tag_taken, markup_taken, plain_taken, escape_piece_taken, piece_taken};
ghost use Rattle.pssm_xml.specs.inner.Cuts.{piece_of};

use crate::different::are_different;
use crate::references::escape_at;
use crate::scan::{begins_blank, behind_blanks, split_at_word, tag_name_at};
use crate::tags::{Given, tag_rest_at};
use pssm_spelling::strip;
use std::alloc::{AllocError as NoMemory, Global};

// A piece: a tag that begins an element, a tag that ends one, what says nothing, the text of a section, the character of
// an escape, and a character that stands for itself.
#[derive(Drop)]
pub(crate) enum Cut<'a> {
    Tag {
        name: &'a [u8],
        attributes: Vec<Given<'a>>,
        empty: bool,
    },
    End(&'a [u8]),
    Aside,
    Section(&'a [u8]),
    Escape(char),
    Plain(&'a [u8]),
}

// A tag that ends an element, behind its `</`.
#[tactic(auto, unfolding(crate::specs::inner::Reading::end_taken))]
fn end_at(bytes: &[u8]) -> Option<(Cut<'_>, &[u8])>
    ensures { option_map (λ x. (piece_of x.0, x.1.now)) result ≡ end_taken bytes.now }
{
    let (name, behind) = tag_name_at(bytes)?;
    let rest = strip(behind_blanks(behind), b">")?;
    Some((Cut::End(name), rest))
}

// A comment, behind its `<!--`.
#[tactic(auto, unfolding(crate::specs::inner::Reading::comment_taken))]
fn comment_at(bytes: &[u8]) -> Option<(Cut<'_>, &[u8])>
    ensures { option_map (λ x. (piece_of x.0, x.1.now)) result ≡ comment_taken bytes.now }
{
    let (_inner, behind) = split_at_word(bytes, b"--")?;
    let rest = strip(behind, b">")?;
    Some((Cut::Aside, rest))
}

// A section, behind its `<![CDATA[`.
#[tactic(auto, unfolding(crate::specs::inner::Reading::section_taken))]
fn section_at(bytes: &[u8]) -> Option<(Cut<'_>, &[u8])>
    ensures { option_map (λ x. (piece_of x.0, x.1.now)) result ≡ section_taken bytes.now }
{
    let (inner, rest) = split_at_word(bytes, b"]]>")?;
    Some((Cut::Section(inner), rest))
}

// What follows an instruction, behind its name.
#[tactic(auto, unfolding(crate::specs::inner::Reading::instruction_rest))]
fn behind_instruction(bytes: &[u8]) -> Option<&[u8]>
    ensures { option_copied result ≡ instruction_rest bytes.now }
{
    if let Some(rest) = strip(bytes, b"?>") {
        return Some(rest);
    }
    if !begins_blank(bytes) {
        return None;
    }
    let (_blank, inner) = bytes.split_at(1);
    let (_inner, rest) = split_at_word(inner, b"?>")?;
    Some(rest)
}

// An instruction, behind its `<?`.
#[tactic(auto, unfolding(crate::specs::inner::Reading::instruction_taken))]
fn instruction_at(bytes: &[u8]) -> Option<(Cut<'_>, &[u8])>
    ensures { option_map (λ x. (piece_of x.0, x.1.now)) result ≡ instruction_taken bytes.now }
{
    let (_name, behind) = tag_name_at(bytes)?;
    let rest = behind_instruction(behind)?;
    Some((Cut::Aside, rest))
}

// A tag that begins an element, behind its `<`.
#[tactic(auto, unfolding(crate::specs::inner::Reading::tag_taken))]
fn tag_at(alloc: Global, bytes: &[u8]) -> Result<Option<(Cut<'_>, &[u8])>, NoMemory>
    ensures { IfOk result (λ r. option_map (λ x. (piece_of x.0, x.1.now)) r ≡ tag_taken bytes.now) }
{
    let Some((name, behind)) = tag_name_at(bytes) else {
        return Ok(None);
    };
    let Some((attributes, empty, rest)) = tag_rest_at(alloc, behind)? else {
        return Ok(None);
    };
    if are_different(alloc, &attributes)? {
        let tag = Cut::Tag {
            name,
            attributes,
            empty,
        };
        Ok(Some((tag, rest)))
    } else {
        Ok(None)
    }
}

// A piece of markup, behind its `<`.
#[tactic(auto, unfolding(crate::specs::inner::Reading::markup_taken))]
fn markup_at(alloc: Global, bytes: &[u8]) -> Result<Option<(Cut<'_>, &[u8])>, NoMemory>
    ensures { IfOk result (λ r. option_map (λ x. (piece_of x.0, x.1.now)) r ≡ markup_taken bytes.now) }
{
    if let Some(rest) = strip(bytes, b"/") {
        Ok(end_at(rest))
    } else if let Some(rest) = strip(bytes, b"!--") {
        Ok(comment_at(rest))
    } else if let Some(rest) = strip(bytes, b"![CDATA[") {
        Ok(section_at(rest))
    } else if let Some(rest) = strip(bytes, b"?") {
        Ok(instruction_at(rest))
    } else {
        tag_at(alloc, bytes)
    }
}

// How many bytes the character has that begins with this one.
fn character_len(first: u8) -> usize
    ensures { result ≡ continuation_len first + 1 }
{
    match first {
        0..128 => 1,
        128..224 => 2,
        224..240 => 3,
        _ => 4,
    }
}

// A character that stands for itself.
fn plain_at(bytes: &[u8]) -> Option<(Cut<'_>, &[u8])>
    ensures { option_map (λ x. (piece_of x.0, x.1.now)) result ≡ plain_taken bytes.now }
{
    let len = character_len(*bytes.first()?);
    if len <= bytes.len() {
        let (text, rest) = bytes.split_at(len);
        Some((Cut::Plain(text), rest))
    } else {
        None
    }
}

// The character of an escape, behind its `&`.
#[tactic(auto, unfolding(crate::specs::inner::Reading::escape_piece_taken))]
fn escape_piece_at(bytes: &[u8]) -> Option<(Cut<'_>, &[u8])>
    ensures { option_map (λ x. (piece_of x.0, x.1.now)) result ≡ escape_piece_taken bytes.now }
{
    let (c, rest) = escape_at(bytes)?;
    Some((Cut::Escape(c), rest))
}

// The piece that stands at the front, and what follows it.
#[tactic(auto, unfolding(crate::specs::inner::Reading::piece_taken))]
pub(crate) fn piece_at(alloc: Global, bytes: &[u8]) -> Result<Option<(Cut<'_>, &[u8])>, NoMemory>
    ensures { IfOk result (λ r. option_map (λ x. (piece_of x.0, x.1.now)) r ≡ piece_taken bytes.now) }
{
    match bytes.split_first() {
        None => Ok(None),
        Some((first, rest)) => {
            if *first == b'<' {
                markup_at(alloc, rest)
            } else if *first == b'&' {
                Ok(escape_piece_at(rest))
            } else {
                Ok(plain_at(bytes))
            }
        }
    }
}
