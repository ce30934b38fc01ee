//! Tags that begin elements: their names and attributes.
ghost use Rattle.std.specs.Prelude.{◌≡◌, ◌+◌, length, map, IfOk};
ghost use Rattle.std.specs.Option.{option_map};
ghost use Rattle.pssm_xml.specs.inner.Reading.{quote_taken, attribute_begun, attribute_taken, tag_end_taken, tag_rest_taken};
ghost use Rattle.pssm_xml.specs.inner.Cuts.{given_attribute};

use crate::scan::{begins_blank, behind_blanks, tag_name_at};
use crate::values::value_at;
use pssm_spelling::strip;
use std::alloc::{AllocError as NoMemory, Global};

// An attribute as a tag gives it, with its value decoded.
#[derive(Drop)]
pub(crate) struct Given<'a> {
    pub(crate) name: &'a [u8],
    pub(crate) value: Vec<u8>,
}

// The first byte, where it is a quote, and what follows it.
fn quote_at(bytes: &[u8]) -> Option<(u8, &[u8])>
    ensures { option_map (λ x. (x.0, x.1.now)) result ≡ quote_taken bytes.now }
{
    match bytes.split_first() {
        Some((first, rest)) if *first == b'"' || *first == b'\'' => Some((*first, rest)),
        _ => None,
    }
}

// The name of an attribute, the quote of its value, and what follows the quote.
#[tactic(auto, unfolding(crate::specs::inner::Reading::attribute_begun))]
fn attribute_begin(bytes: &[u8]) -> Option<(&[u8], u8, &[u8])>
    ensures { option_map (λ x. (x.0.now, x.1, x.2.now)) result ≡ attribute_begun bytes.now }
{
    if !begins_blank(bytes) {
        return None;
    }
    let (name, behind) = tag_name_at(behind_blanks(bytes))?;
    let before_value = strip(behind_blanks(behind), b"=")?;
    let (quote, inner) = quote_at(behind_blanks(before_value))?;
    Some((name, quote, inner))
}

// An attribute with the blanks before it, and what follows it.
#[tactic(auto, unfolding(crate::specs::inner::Reading::attribute_taken))]
fn attribute_at(alloc: Global, bytes: &[u8]) -> Result<Option<(Given<'_>, &[u8])>, NoMemory>
    ensures { IfOk result (λ r. option_map (λ x. (given_attribute x.0, x.1.now)) r ≡ attribute_taken bytes.now) }
{
    let Some((name, quote, inner)) = attribute_begin(bytes) else {
        return Ok(None);
    };
    match value_at(alloc, inner, quote)? {
        Some((value, rest)) => Ok(Some((Given { name, value }, rest))),
        None => Ok(None),
    }
}

// Whether the tag that ends here is one of an empty element, and what follows it.
#[tactic(auto, unfolding(crate::specs::inner::Reading::tag_end_taken))]
fn tag_end_at(bytes: &[u8]) -> Option<(bool, &[u8])>
    ensures { option_map (λ x. (x.0, x.1.now)) result ≡ tag_end_taken bytes.now }
{
    let rest = behind_blanks(bytes);
    if let Some(more) = strip(rest, b">") {
        Some((false, more))
    } else if let Some(more) = strip(rest, b"/>") {
        Some((true, more))
    } else {
        None
    }
}

// The attributes of a tag, whether it is one of an empty element, and what follows it. The text begins behind its name.
pub(crate) fn tag_rest_at(
    alloc: Global,
    bytes: &[u8],
) -> Result<Option<(Vec<Given<'_>>, bool, &[u8])>, NoMemory>
    ensures { IfOk result (λ r. option_map (λ x. (map given_attribute x.0.items, x.1, x.2.now)) r ≡ tag_rest_taken (length bytes.now + 1) bytes.now) }
{
    let mut attributes = Vec::new(alloc);
    let mut rest = bytes;
    for i in 0..bytes.len() + 1 {
        if let Some((empty, more)) = tag_end_at(rest) {
            return Ok(Some((attributes, empty, more)));
        }
        let Some((attribute, more)) = attribute_at(alloc, rest)? else {
            return Ok(None);
        };
        attributes.push(attribute)?;
        rest = more;
    }
    Ok(None)
}
