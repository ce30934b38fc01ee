//! Numbers of 64 bits with a sign at the front of a text.
ghost use Rattle.std.specs.Prelude.{◌≡◌, ◌<◌, IfSome};
ghost use Rattle.std.specs.Option.{option_map};
ghost use Rattle.pssm_lines.specs.inner.LineReading.{digits_taken, natural_taken, negative_taken, signed_taken};

use crate::pieces::behind;
use pssm_spelling::{digits_len, is_plain_number, magnitude};

// The magnitude of a number without leading zeros that is below the limit, and the bytes after it.
#[tactic(auto, unfolding(crate::specs::inner::LineReading::digits_taken))]
fn digits_at(bytes: &[u8], limit: u64) -> Option<(u64, &[u8])>
    ensures gives { option_map (λ x. (x.0, x.1.now)) result ≡ digits_taken limit bytes.now }
    ensures small { IfSome result (λ x. x.0 < limit) }
{
    let (digits, rest) = bytes.split_at(digits_len(bytes));
    if !is_plain_number(digits) {
        return None;
    }
    let value = magnitude(digits);
    if value < limit {
        Some((value, rest))
    } else {
        None
    }
}

// A number that is not below zero.
#[tactic(auto, unfolding(crate::specs::inner::LineReading::natural_taken))]
fn natural_at(bytes: &[u8]) -> Option<(i64, &[u8])>
    ensures { option_map (λ x. (x.0, x.1.now)) result ≡ natural_taken bytes.now }
{
    let (value, rest) = digits_at(bytes, 1 << 63)?;
    Some((value as i64, rest))
}

// A number below zero, behind its sign.
#[tactic(auto, unfolding(crate::specs::inner::LineReading::negative_taken))]
fn negative_at(bytes: &[u8]) -> Option<(i64, &[u8])>
    ensures { option_map (λ x. (x.0, x.1.now)) result ≡ negative_taken bytes.now }
{
    let (value, rest) = digits_at(bytes, (1 << 63) + 1)?;
    if value == 0 {
        return None;
    }
    Some((-((value - 1) as i64) - 1, rest))
}

/// A number of 64 bits in decimal, without leading zeros and with `-` only before one that is not 0, and the bytes
/// after it. The longest front of digits counts.
#[tactic(auto, unfolding(crate::specs::inner::LineReading::signed_taken))]
pub fn signed_at(bytes: &[u8]) -> Option<(i64, &[u8])>
    ensures { option_map (λ x. (x.0, x.1.now)) result ≡ signed_taken bytes.now }
{
    match behind(bytes, b'-') {
        Some(digits) => negative_at(digits),
        None => natural_at(bytes),
    }
}
