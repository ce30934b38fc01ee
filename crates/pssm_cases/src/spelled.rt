//! The escapes of a text: how bytes are spelled that cannot stand in it, or are too many.
//!
//! `\xHH` is the byte with these two hexadecimal digits, `\\` a backslash, `\#` a number in decimal that the reader hands in,
//! `\+K#` the number that is K more, and `\{N}` in front of a byte or an escape stands for N times what it is. Every other byte
//! stands for itself.
ghost use Rattle.std.specs.Prelude.{◌<◌, IfOk};

use std::alloc::AllocError;

/// Why a text spells no bytes.
#[derive(Clone, Copy, PartialEq, Eq)]
pub enum SpellFault {
    /// A backslash in it begins no escape.
    NoEscape,
    /// There was not enough memory.
    NoMemory,
}

impl From<AllocError> for SpellFault {
    fn from(_: AllocError) -> SpellFault {
        SpellFault::NoMemory
    }
}

// Where a reader of a text stands.
#[derive(Clone, Copy, PartialEq, Eq)]
enum Place {
    // Between two bytes or escapes.
    Between,
    // Behind a backslash.
    Escape,
    // Behind `\x`.
    High,
    // Behind `\x` and a digit of this value.
    Low(u8),
    // Behind `\{` and the digits of this number.
    Times(u32),
    // Behind `\+` and the digits of this number.
    More(u32),
}

// What a reader knows behind one more byte.
enum Met {
    // It stands within an escape.
    Within(Place),
    // How many times the next byte or escape is meant.
    Times(u32),
    // A byte.
    Byte(u8),
    // The number that is so much more than the one that the reader hands in.
    Number(u32),
}

/// Puts the bytes that the text spells behind those that are there. `\#` is spelled as `number`.
pub fn put_spelled(into: &mut Vec<u8>, text: &[u8], number: u32) -> Result<(), SpellFault> {
    match put(into, text, number)? {
        Place::Between => Ok(()),
        _ => Err(SpellFault::NoEscape),
    }
}

/// Puts the line that the text spells: its bytes and a line feed, which a backslash at the end of the text leaves out.
pub fn put_line(into: &mut Vec<u8>, text: &[u8], number: u32) -> Result<(), SpellFault> {
    match put(into, text, number)? {
        Place::Between => Ok(into.extend_from_slice(b"\n")?),
        Place::Escape => Ok(()),
        _ => Err(SpellFault::NoEscape),
    }
}

// Puts what the text spells, and says where its end stands.
fn put(into: &mut Vec<u8>, text: &[u8], number: u32) -> Result<Place, SpellFault> {
    let mut place = Place::Between;
    let mut times = None;
    for byte in text {
        let met = next(place, *byte)?;
        place = Place::Between;
        match met {
            Met::Within(inner) => place = inner,
            Met::Times(count) => times = Some(count),
            Met::Byte(byte) => put_times(into, &[byte], times.take())?,
            Met::Number(more) => { put_number(into, number.saturating_add(more), times.take())? }
        }
    }
    match times {
        None => Ok(place),
        Some(_) => Err(SpellFault::NoEscape),
    }
}

// What one more byte means at this place.
fn next(place: Place, byte: u8) -> Result<Met, SpellFault> {
    let met = match (place, byte) {
        (Place::Between, b'\\') => Met::Within(Place::Escape),
        (Place::Between, _) => Met::Byte(byte),
        (Place::Escape, b'\\') => Met::Byte(b'\\'),
        (Place::Escape, b'#') => Met::Number(0),
        (Place::Escape, b'+') => Met::Within(Place::More(0)),
        (Place::Escape, b'x') => Met::Within(Place::High),
        (Place::Escape, b'{') => Met::Within(Place::Times(0)),
        (Place::Escape, _) => return Err(SpellFault::NoEscape),
        (Place::High, _) => Met::Within(Place::Low(digit(byte)?)),
        (Place::Low(high), _) => Met::Byte(high << 4 | digit(byte)?),
        (Place::Times(count), b'}') => Met::Times(count),
        (Place::Times(count), b'0'..=b'9') => Met::Within(Place::Times(longer(count, byte - b'0'))),
        (Place::Times(_), _) => return Err(SpellFault::NoEscape),
        (Place::More(more), b'#') => Met::Number(more),
        (Place::More(more), b'0'..=b'9') => Met::Within(Place::More(longer(more, byte - b'0'))),
        (Place::More(_), _) => return Err(SpellFault::NoEscape),
    };
    Ok(met)
}

// The number with one more digit, and no more than can be counted.
fn longer(number: u32, digit: u8) -> u32 {
    number.saturating_mul(10).saturating_add(digit as u32)
}

// The value of a hexadecimal digit.
fn digit(byte: u8) -> Result<u8, SpellFault>
    ensures { IfOk result (λ value. value < 16) }
{
    match byte {
        b'0'..=b'9' => Ok(byte - b'0'),
        b'a'..=b'f' => Ok(byte - b'a' + 10),
        b'A'..=b'F' => Ok(byte - b'A' + 10),
        _ => Err(SpellFault::NoEscape),
    }
}

// Puts the number in decimal, so many times, or once.
fn put_number(into: &mut Vec<u8>, number: u32, times: Option<u32>) -> Result<(), AllocError> {
    let digits = format!(in *into.allocator(); "{number}")?;
    put_times(into, digits.as_bytes(), times)
}

// Puts the bytes so many times, or once.
fn put_times(into: &mut Vec<u8>, bytes: &[u8], times: Option<u32>) -> Result<(), AllocError> {
    for _ in 0..times.unwrap_or(1) {
        into.extend_from_slice(bytes)?;
    }
    Ok(())
}
