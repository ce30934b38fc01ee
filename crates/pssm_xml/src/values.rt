//! Values of attributes, escapes replaced.
ghost use Rattle.std.specs.Prelude.{◌≡◌, ◌++◌, length, IfOk};
ghost use Rattle.std.specs.Option.{option_map};
ghost use Rattle.pssm_xml.specs.inner.Reading.{bit_text, bit_taken, value_taken};

use crate::references::escape_at;
use std::alloc::{AllocError as NoMemory, Global};

// A bit of a value: a byte that stands for itself, or the character of an escape.
#[derive(Clone, Copy)]
pub(crate) enum Bit {
    Byte(u8),
    Character(char),
}

// The bit of a value that stands at the front, none at its end, and what follows it.
#[tactic(auto, unfolding(crate::specs::inner::Reading::bit_taken))]
fn bit_at(bytes: &[u8], quote: u8) -> Option<(Option<Bit>, &[u8])>
    ensures { option_map (λ x. (x.0, x.1.now)) result ≡ bit_taken quote bytes.now }
{
    let (first, rest) = bytes.split_first()?;
    if *first == quote {
        Some((None, rest))
    } else if *first == b'<' {
        None
    } else if *first == b'&' {
        let (c, more) = escape_at(rest)?;
        Some((Some(Bit::Character(c)), more))
    } else {
        Some((Some(Bit::Byte(*first)), rest))
    }
}

// The text with that of the bit behind it.
fn with_bit(text: Vec<u8>, bit: Bit) -> Result<Vec<u8>, NoMemory>
    ensures { IfOk result (λ more. more.items ≡ text.items ++ bit_text bit) }
{
    let mut text = text;
    match bit {
        Bit::Byte(byte) => {
            text.push(byte)?;
            Ok(text)
        }
        Bit::Character(c) => {
            let mut buffer = [0u8; 4];
            text.extend_from_slice(c.encode_utf8(&mut buffer).as_bytes())?;
            Ok(text)
        }
    }
}

// The value of which the text is the rest behind its first quote, and what follows its last one.
pub(crate) fn value_at(
    alloc: Global,
    bytes: &[u8],
    quote: u8,
) -> Result<Option<(Vec<u8>, &[u8])>, NoMemory>
    ensures { IfOk result (λ r. option_map (λ x. (x.0.items, x.1.now)) r ≡ value_taken (length bytes.now) quote bytes.now) }
{
    let mut value = Vec::new(alloc);
    let mut rest = bytes;
    for i in 0..bytes.len() {
        match bit_at(rest, quote) {
            None => return Ok(None),
            Some((None, more)) => return Ok(Some((value, more))),
            Some((Some(bit), more)) => {
                value = with_bit(value, bit)?;
                rest = more;
            }
        }
    }
    Ok(None)
}
