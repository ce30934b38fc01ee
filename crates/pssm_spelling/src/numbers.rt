//! Digits as numbers.
ghost use Rattle.std.specs.Prelude.{◌≡◌, IsTrue, min};
ghost use Rattle.std.specs.List.{list_all};
ghost use Rattle.std.specs.Str.Parse.{digits_value};
ghost use Rattle.pssm_spelling.specs.SpellingReading.{is_digit};
ghost use Rattle.pssm_spelling.specs.Numbers.{is_natural};

use crate::front::{is_decimal, is_plain_number};

/// Whether these are digits.
fn all_digits(digits: &[u8]) -> bool
    ensures { result ≡ list_all is_digit digits.now }
{
    digits.iter().all(|c| is_decimal(*c))
}

/// Whether these are digits of a number without leading zeros.
pub fn spells_natural(digits: &[u8]) -> bool
    ensures { result ≡ is_natural digits.now }
{
    is_plain_number(digits) && all_digits(digits)
}

/// The number that the digits spell, or the greatest of 64 bits where it is beyond.
pub fn magnitude(digits: &[u8]) -> u64
    requires digits { IsTrue (list_all is_digit digits.now) }
    ensures { result ≡ min (digits_value 10 digits.now) 18446744073709551615 }
{
    let mut value = 0u64;
    for digit in digits {
        value = value
            .saturating_mul(10)
            .saturating_add(u64::from(*digit - b'0'));
    }
    value
}
