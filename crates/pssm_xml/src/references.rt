//! Escapes: references to characters by name or by number.
ghost use Rattle.std.specs.Prelude.{◌≡◌, ◌≤◌};
ghost use Rattle.std.specs.Option.{option_map};
ghost use Rattle.pssm_xml.specs.inner.Reading.{is_xml, number_after, code_of_digits, code_of_number, code_of_escape, escape_taken};

use crate::scan::split_at_byte;
use pssm_spelling::strip;

// Whether XML has the character.
pub(crate) fn is_xml_character(c: char) -> bool
    ensures { result ≡ is_xml c }
{
    matches!(c, '\t' | '\n' | '\r' | ' '..='\u{FFFD}' | '\u{10000}'..)
}

// The number that the digits spell, or 0x11_0000 where it is greater; None where one is no digit of the radix.
fn number_of(digits: &[u8], radix: u32) -> Option<u32>
    requires low { 2 ≤ radix }
    requires high { radix ≤ 16 }
    ensures { result ≡ number_after radix 0 digits.now }
{
    let mut value = 0u32;
    for digit in digits {
        let digit = char::from(*digit).to_digit(radix)?;
        value = (value * radix + digit).min(0x11_0000);
    }
    Some(value)
}

// The character whose number the digits spell.
fn character_of_digits(digits: &[u8], radix: u32) -> Option<char>
    requires low { 2 ≤ radix }
    requires high { radix ≤ 16 }
    ensures { result ≡ code_of_digits radix digits.now }
{
    let c = char::from_u32(number_of(digits, radix)?)?;
    if is_xml_character(c) { Some(c) } else { None }
}

// The character that a number behind `#x` or `#` names.
#[tactic(auto, unfolding(crate::specs::inner::Reading::code_of_number))]
fn character_of_number(body: &[u8]) -> Option<char>
    ensures { result ≡ code_of_number body.now }
{
    if let Some(digits) = strip(body, b"#x") {
        character_of_digits(digits, 16)
    } else if let Some(digits) = strip(body, b"#") {
        character_of_digits(digits, 10)
    } else {
        None
    }
}

// The character that is meant by what stands between `&` and `;`.
#[tactic(auto, unfolding(crate::specs::inner::Reading::code_of_escape))]
fn character_of_escape(body: &[u8]) -> Option<char>
    ensures { result ≡ code_of_escape body.now }
{
    if body == b"lt".as_slice() {
        Some('<')
    } else if body == b"gt".as_slice() {
        Some('>')
    } else if body == b"amp".as_slice() {
        Some('&')
    } else if body == b"apos".as_slice() {
        Some('\'')
    } else if body == b"quot".as_slice() {
        Some('"')
    } else {
        character_of_number(body)
    }
}

// The character of an escape, of which the text begins behind its `&`, and what follows the escape.
#[tactic(auto, unfolding(crate::specs::inner::Reading::escape_taken))]
pub(crate) fn escape_at(bytes: &[u8]) -> Option<(char, &[u8])>
    ensures { option_map (λ x. (x.0, x.1.now)) result ≡ escape_taken bytes.now }
{
    let (body, rest) = split_at_byte(bytes, b';')?;
    let c = character_of_escape(body)?;
    Some((c, rest))
}
