//! Numbers in action texts.
ghost use Rattle.std.specs.Prelude.{◌≡◌, ◌<◌, ◌^◌, negsuc, IsTrue, min};
ghost use Rattle.std.specs.List.{list_all};
ghost use Rattle.std.specs.Str.Parse.{digits_value};
ghost use Rattle.pssm_spelling.specs.SpellingReading.{is_digit};
ghost use Rattle.pssm_spelling.specs.Numbers.{is_natural};
ghost use Rattle.pssm_acts.specs.inner.NumberReading.{natural_read, negative_read, number_read};

use crate::act_fault::ActFault;
use pssm_spelling::{magnitude, spells_natural};

// The first number past the greatest of 64 bits with a sign.
const LIMIT: u64 = 1 << 63;

#[tactic(auto, unfolding(crate::specs::inner::NumberReading::natural_read))]
fn natural(digits: &[u8], at: u32) -> Result<i64, ActFault>
    ensures { result ≡ natural_read at digits.now }
{
    if !spells_natural(digits) {
        return Err(ActFault::Syntax { at });
    }
    let value = magnitude(digits);
    if value >= LIMIT {
        return Err(ActFault::WideNumber { at });
    }
    Ok(value as i64)
}

// The number below zero before which so many others stand.
fn below_zero(others: u64) -> i64
    requires few { others < 2 ^ 63 }
    ensures { result ≡ negsuc others }
{
    -1 - others as i64
}

#[tactic(auto, unfolding(crate::specs::inner::NumberReading::negative_read))]
fn negative(digits: &[u8], at: u32) -> Result<i64, ActFault>
    ensures { result ≡ negative_read at digits.now }
{
    if !spells_natural(digits) {
        return Err(ActFault::Syntax { at });
    }
    let value = magnitude(digits);
    if value == 0 {
        return Err(ActFault::Syntax { at });
    }
    if value > LIMIT {
        return Err(ActFault::WideNumber { at });
    }
    Ok(below_zero(value - 1))
}

// The number that a word of digits spells, perhaps with a `-` before them.
#[tactic(auto, unfolding(crate::specs::inner::NumberReading::number_read))]
pub(crate) fn number_of(word: &[u8], at: u32) -> Result<i64, ActFault>
    ensures { result ≡ number_read at word.now }
{
    match word {
        [b'-', digits @ ..] => negative(digits, at),
        _ => natural(word, at),
    }
}
