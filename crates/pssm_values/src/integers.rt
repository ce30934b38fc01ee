//! Integers.
ghost use Rattle.std.specs.Prelude.{◌≡◌, ◌<◌, ◌^◌, ◌↔◌, ℤ, Some, negsuc};
ghost use Rattle.std.specs.Option.{option_copied};
ghost use Rattle.pssm_spelling.specs.Numbers.{SpellsNumber};
ghost use Rattle.pssm_values.specs.Integers.{SaysInteger};
ghost use Rattle.pssm_values.specs.inner.IntegerReading.{natural_read, negative_read, integer_read};

use pssm_spelling::{magnitude, spells_natural};

// The first number past the greatest of 64 bits with a sign.
const LIMIT: u64 = 1 << 63;

// The number below zero before which so many others stand.
fn below_zero(others: u64) -> i64
    requires few { others < 2 ^ 63 }
    ensures { result ≡ negsuc others }
{
    -1 - others as i64
}

// The number that the digits spell.
#[tactic(auto, unfolding(crate::specs::inner::IntegerReading::natural_read))]
fn natural_of(digits: &[u8]) -> Option<i64>
    ensures { result ≡ natural_read digits.now }
{
    if !spells_natural(digits) {
        return None;
    }
    let value = magnitude(digits);
    if value >= LIMIT {
        return None;
    }
    Some(value as i64)
}

// The number that the digits spell behind a `-`.
#[tactic(auto, unfolding(crate::specs::inner::IntegerReading::negative_read))]
fn negative_of(digits: &[u8]) -> Option<i64>
    ensures { result ≡ negative_read digits.now }
{
    if !spells_natural(digits) {
        return None;
    }
    let value = magnitude(digits);
    if value == 0 || value > LIMIT {
        return None;
    }
    Some(below_zero(value - 1))
}

// The number that the word is read as.
#[tactic(auto, unfolding(crate::specs::inner::IntegerReading::integer_read))]
fn read(word: &[u8]) -> Option<i64>
    ensures { result ≡ integer_read word.now }
{
    match word {
        [b'-', digits @ ..] => negative_of(digits),
        _ => natural_of(word),
    }
}

/// The integer that the word spells: digits without leading zeros, perhaps with a `-` before them, within 64 bits; none
/// where it spells none (this profile's choice: integers are spelled as in behaviours).
#[tactic(auto, using(crate::proofs::IntegerLaws::reads_what_is_spelled))]
pub fn integer_of(word: &[u8]) -> Option<i64>
    ensures { (n : ℤ) → (result ≡ Some n) ↔ SpellsNumber word.now n }
{
    read(word)
}

/// The integer that the attribute `value` of a literal says; a missing one is 0 (UML 2.5.1, 8.6, LiteralInteger).
#[tactic(auto)]
pub fn integer(value: Option<&[u8]>) -> Option<i64>
    ensures { (n : ℤ) → (result ≡ Some n) ↔ SaysInteger (option_copied value.entry) n }
{
    match value {
        Some(word) => integer_of(word),
        None => Some(0),
    }
}
