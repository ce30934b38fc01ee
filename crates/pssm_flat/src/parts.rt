//! The parts of a line: each function reads what stands at the front, and gives the bytes behind it.
//!
//! None of them takes memory: names and labels are lent from the text.
ghost use Rattle.std.specs.Prelude.{◌≡◌, ◌<◌, ◌^◌, negsuc};
ghost use Rattle.std.specs.List.{list_all};
ghost use Rattle.std.specs.Option.{option_map, option_copied};
ghost use Rattle.std.specs.Str.{is_utf8};
ghost use Rattle.pssm_flat.specs.Flat.{is_label_byte};
ghost use Rattle.pssm_flat.specs.inner.Lines.{named_taken, count_taken, natural_first, negative_first, first_taken, top_taken, region_taken, vertex_taken, owner_taken, label_of as label_word, label_taken, end_taken};

use pssm_model::{Owner, RegionId, VertexId};
use pssm_spelling::{index_at, magnitude, name_at, spells_natural, strip};

/// A word and a name, and nothing behind it: the name.
#[tactic(auto, unfolding(crate::specs::inner::Lines::named_taken))]
pub(crate) fn named<'a>(word: &[u8], bytes: &'a [u8]) -> Option<&'a [u8]>
    ensures { option_map (λ x. x.now) result ≡ named_taken word.now bytes.now }
{
    let rest = strip(bytes, word)?;
    let (name, end) = name_at(rest)?;
    if end.is_empty() { Some(name) } else { None }
}

/// `top`, and the bytes behind it.
fn top_at(bytes: &[u8]) -> Option<(Owner, &[u8])>
    ensures { option_map (λ x. (x.0, x.1.now)) result ≡ top_taken bytes.now }
{
    let rest = strip(bytes, b"top")?;
    Some((Owner::Top, rest))
}

/// A region by its number, and the bytes behind it.
#[tactic(auto, unfolding(crate::specs::inner::Lines::region_taken))]
fn region_at(bytes: &[u8]) -> Option<(Owner, &[u8])>
    ensures { option_map (λ x. (x.0, x.1.now)) result ≡ region_taken bytes.now }
{
    let digits = strip(bytes, b"r")?;
    let (number, rest) = index_at(digits)?;
    Some((Owner::Region(RegionId(number)), rest))
}

/// A vertex by its number, and the bytes behind it.
#[tactic(auto, unfolding(crate::specs::inner::Lines::vertex_taken))]
fn vertex_at(bytes: &[u8]) -> Option<(Owner, &[u8])>
    ensures { option_map (λ x. (x.0, x.1.now)) result ≡ vertex_taken bytes.now }
{
    let digits = strip(bytes, b"v")?;
    let (number, rest) = index_at(digits)?;
    Some((Owner::State(VertexId(number)), rest))
}

/// An owner, and the bytes behind it.
#[tactic(auto, unfolding(crate::specs::inner::Lines::owner_taken))]
pub(crate) fn owner_at(bytes: &[u8]) -> Option<(Owner, &[u8])>
    ensures { option_map (λ x. (x.0, x.1.now)) result ≡ owner_taken bytes.now }
{
    if let Some(read) = top_at(bytes) {
        return Some(read);
    }
    if let Some(read) = region_at(bytes) {
        return Some(read);
    }
    vertex_at(bytes)
}

/// Whether the byte is no part of a control character (U+0000 to U+001F, and U+007F).
fn stands_in_label(byte: u8) -> bool
    ensures { result ≡ is_label_byte byte }
{
    byte >= 32 && byte != 127
}

/// Whether all bytes can stand in a label.
fn stand_in_label(bytes: &[u8]) -> bool
    ensures { result ≡ list_all is_label_byte bytes.now }
{
    bytes.iter().all(|byte| stands_in_label(*byte))
}

/// Whether the bytes are UTF-8.
#[tactic(auto, using(crate::proofs::LabelLaws::reads_utf8, crate::proofs::LabelLaws::reads_no_utf8))]
pub(crate) fn is_text(bytes: &[u8]) -> bool
    ensures { result ≡ is_utf8 bytes.now }
{
    match std::str::from_utf8(bytes) {
        Ok(_) => true,
        Err(_) => false,
    }
}

/// A label of at least one byte: UTF-8 without control characters (this profile's choice).
fn label_of(bytes: &[u8]) -> Option<&[u8]>
    ensures { option_map (λ x. x.now) result ≡ label_word bytes.now }
{
    if !bytes.is_empty() && stand_in_label(bytes) && is_text(bytes) {
        Some(bytes)
    } else {
        None
    }
}

/// What follows the kind of a vertex: nothing, or one blank and a label.
pub(crate) fn label_at(bytes: &[u8]) -> Option<&[u8]>
    ensures { option_map (λ x. x.now) result ≡ label_taken bytes.now }
{
    match bytes {
        [] => Some(&[]),
        [b' ', label @ ..] => label_of(label),
        _ => None,
    }
}

/// The number of a vertex at which a transition begins or ends, behind a blank, and the bytes behind it.
#[tactic(auto, unfolding(crate::specs::inner::Lines::end_taken))]
pub(crate) fn end_at(bytes: &[u8]) -> Option<(u16, &[u8])>
    ensures { option_map (λ x. (x.0, x.1.now)) result ≡ end_taken bytes.now }
{
    let digits = strip(bytes, b" v")?;
    index_at(digits)
}

/// One digit from 0 to 8, and nothing behind it: how many parameters a signal has.
pub(crate) fn count_at(bytes: &[u8]) -> Option<u8>
    ensures { result ≡ count_taken bytes.now }
{
    match bytes {
        [digit @ b'0'..=b'8'] => Some(*digit - b'0'),
        _ => None,
    }
}

// The first number past the greatest of 64 bits with a sign.
const LIMIT: u64 = 1 << 63;

// The number below zero before which so many others stand.
fn below_zero(others: u64) -> i64
    requires few { others < 2 ^ 63 }
    ensures { result ≡ negsuc others }
{
    -1 - others as i64
}

#[tactic(auto, unfolding(crate::specs::inner::Lines::natural_first))]
fn natural_at(digits: &[u8]) -> Option<i64>
    ensures { result ≡ natural_first digits.now }
{
    if !spells_natural(digits) {
        return None;
    }
    let value = magnitude(digits);
    if value >= LIMIT {
        return None;
    }
    Some(value as i64)
}

#[tactic(auto, unfolding(crate::specs::inner::Lines::negative_first))]
fn negative_at(digits: &[u8]) -> Option<i64>
    ensures { result ≡ negative_first digits.now }
{
    if !spells_natural(digits) {
        return None;
    }
    let value = magnitude(digits);
    if value == 0 || value > LIMIT {
        return None;
    }
    Some(below_zero(value - 1))
}

/// A number of 64 bits, with `-` before it where it is below zero, and nothing behind it.
#[tactic(auto, unfolding(crate::specs::inner::Lines::first_taken))]
pub(crate) fn first_at(word: &[u8]) -> Option<i64>
    ensures { result ≡ first_taken word.now }
{
    match word {
        [b'-', digits @ ..] => negative_at(digits),
        _ => natural_at(word),
    }
}
