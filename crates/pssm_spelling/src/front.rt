//! The front of a text: fixed words, names and numbers, as models and journals spell them.
//!
//! Each function reads from the left and gives the value with the bytes after it, or `None` where the text
//! does not begin so. None of them takes memory.
ghost use Rattle.std.specs.Prelude.{◌≡◌, ◌≤◌, ◌<◌, IfSome, IfNone, take};
ghost use Rattle.std.specs.List.{prefix_len};
ghost use Rattle.std.specs.Option.{option_map, option_copied};
ghost use Rattle.std.specs.Str.Parse.{digits_value};
ghost use Rattle.pssm_spelling.specs.Spelling.{begins_name, continues_name};
ghost use Rattle.pssm_spelling.specs.SpellingReading.{is_digit, is_plain, starts_name, stripped, name_taken, number_below, number_taken, index_taken};

/// The greatest length of a name, in bytes (this profile's choice).
pub const NAME_LEN: usize = 64;

/// What follows `front`, where the bytes begin with it.
#[inline(always)]
pub fn strip<'a>(bytes: &'a [u8], front: &[u8]) -> Option<&'a [u8]>
    ensures { option_copied result ≡ stripped front.now bytes.now }
{
    bytes.strip_prefix(front)
}

#[inline(always)]
fn begins(c: u8) -> bool
    ensures { result ≡ begins_name c }
{
    c.is_ascii_alphabetic() || c == b'_'
}

#[inline(always)]
fn continues(c: u8) -> bool
    ensures { result ≡ continues_name c }
{
    begins(c) || is_decimal(c)
}

/// Whether this is a decimal digit.
#[inline(always)]
pub fn is_decimal(c: u8) -> bool
    ensures { result ≡ is_digit c }
{
    matches!(c, b'0'..=b'9')
}

/// How many bytes from the first on go on with a name.
#[inline(always)]
pub fn name_len(bytes: &[u8]) -> usize
    ensures { result ≡ prefix_len continues_name bytes.now }
{
    let mut len = 0;
    for c in bytes {
        if !continues(*c) {
            return len;
        }
        len += 1;
    }
    len
}

/// How many bytes from the first on are digits.
pub fn digits_len(bytes: &[u8]) -> usize
    ensures { result ≡ prefix_len is_digit bytes.now }
{
    bytes.iter().take_while(|c| is_decimal(**c)).count()
}

/// Whether a name begins here.
pub fn name_starts(bytes: &[u8]) -> bool
    ensures { result ≡ starts_name bytes.now }
{
    match bytes {
        [first, ..] => begins(*first),
        [] => false,
    }
}

/// A name (a letter or `_`, then letters, digits and `_`, 1 to 64 bytes) and the bytes after it.
///
/// The longest front of such characters counts: where it has more than 64 bytes there is no name.
#[inline(always)]
pub fn name_at(bytes: &[u8]) -> Option<(&[u8], &[u8])>
    ensures { option_map (λ x. (x.0.now, x.1.now)) result ≡ name_taken bytes.now }
{
    match bytes.split_first() {
        Some((first, others)) if begins(*first) => {
            let len = name_len(others);
            if len < NAME_LEN {
                Some(bytes.split_at(len + 1))
            } else {
                None
            }
        }
        _ => None,
    }
}

/// Whether these are digits of a number without leading zeros.
#[inline(always)]
pub fn is_plain_number(digits: &[u8]) -> bool
    ensures { result ≡ is_plain digits.now }
{
    match digits {
        [] => false,
        [_] => true,
        [first, ..] => *first != b'0',
    }
}

// The number that the digits at the front spell, and how many they are; none where they are more than ten.
#[inline(always)]
fn digits_at(bytes: &[u8]) -> Option<(u64, usize)>
    ensures value { IfSome result (λ x. x.0 ≡ digits_value 10 (take x.1 bytes.now)) }
    ensures count { IfSome result (λ x. x.1 ≡ prefix_len is_digit bytes.now) }
    ensures few { IfSome result (λ x. x.1 ≤ 10) }
    ensures many { IfNone result (10 < prefix_len is_digit bytes.now) }
{
    let mut value = 0u64;
    let mut len = 0;
    for c in bytes {
        if !is_decimal(*c) {
            return Some((value, len));
        }
        if len == 10 {
            return None;
        }
        let digit = *c - b'0';
        value = value * 10 + u64::from(digit);
        len += 1;
    }
    Some((value, len))
}

/// A number below the limit, and the bytes after it.
#[inline(always)]
fn below(bytes: &[u8], limit: u64) -> Option<(u64, &[u8])>
    ensures gives { option_map (λ x. (x.0, x.1.now)) result ≡ number_below limit bytes.now }
    ensures small { IfSome result (λ x. x.0 < limit) }
{
    let Some((value, len)) = digits_at(bytes) else {
        return None;
    };
    let (digits, rest) = bytes.split_at(len);
    if !is_plain_number(digits) {
        return None;
    }
    if value < limit {
        Some((value, rest))
    } else {
        None
    }
}

/// A decimal number without leading zeros, up to 4,294,967,295, and the bytes after it.
///
/// The longest front of digits counts: `07`, or a number past the greatest, is refused as a whole.
#[inline(always)]
pub fn number_at(bytes: &[u8]) -> Option<(u32, &[u8])>
    ensures { option_map (λ x. (x.0, x.1.now)) result ≡ number_taken bytes.now }
{
    let (number, rest) = below(bytes, 1 << 32)?;
    Some((number as u32, rest))
}

/// A decimal number without leading zeros, up to 65,535, and the bytes after it.
#[inline(always)]
pub fn index_at(bytes: &[u8]) -> Option<(u16, &[u8])>
    ensures { option_map (λ x. (x.0, x.1.now)) result ≡ index_taken bytes.now }
{
    let (number, rest) = below(bytes, 1 << 16)?;
    Some((number as u16, rest))
}
