//! Runs of characters, names and words.
ghost use Rattle.std.specs.Prelude.{◌≡◌, ◌≤◌, ◌<◌, ◌∷◌, [], length, IfSome};
ghost use Rattle.std.specs.List.{prefix_len};
ghost use Rattle.std.specs.Option.{option_map, option_copied};
ghost use Rattle.pssm_xml.specs.Characters.{is_blank};
ghost use Rattle.pssm_xml.specs.Pieces.{begins_tag_name, continues_tag_name};
ghost use Rattle.pssm_xml.specs.inner.Reading.{past_blanks, begins_with, tag_name_taken, is_other, split_byte, until};

use pssm_spelling::strip;

// Whether this is a blank.
pub(crate) fn is_blank_byte(c: u8) -> bool
    ensures { result ≡ is_blank c }
{
    matches!(c, b' ' | b'\t' | b'\r' | b'\n')
}

// How many blanks the text begins with.
fn blanks_len(bytes: &[u8]) -> usize
    ensures len { result ≡ prefix_len is_blank bytes.now }
    ensures within { result ≤ length bytes.now }
{
    bytes.iter().take_while(|c| is_blank_byte(**c)).count()
}

// What follows the blanks with which the text begins.
#[tactic(auto, unfolding(crate::specs::inner::Reading::past_blanks))]
pub(crate) fn behind_blanks(bytes: &[u8]) -> &[u8]
    ensures { result.now ≡ past_blanks bytes.now }
{
    let (_blanks, rest) = bytes.split_at(blanks_len(bytes));
    rest
}

// Whether the text begins with a blank.
pub(crate) fn begins_blank(bytes: &[u8]) -> bool
    ensures { result ≡ begins_with is_blank bytes.now }
{
    match bytes {
        [first, ..] => is_blank_byte(*first),
        [] => false,
    }
}

fn begins(c: u8) -> bool
    ensures { result ≡ begins_tag_name c }
{
    matches!(c, b'A'..=b'Z' | b'a'..=b'z' | b'_' | b':' | 128..)
}

fn continues(c: u8) -> bool
    ensures { result ≡ continues_tag_name c }
{
    begins(c) || matches!(c, b'0'..=b'9' | b'-' | b'.')
}

// Whether a name begins here.
fn begins_name(bytes: &[u8]) -> bool
    ensures { result ≡ begins_with begins_tag_name bytes.now }
{
    match bytes {
        [first, ..] => begins(*first),
        [] => false,
    }
}

// How many bytes from the first on go on with a name.
fn tag_name_len(bytes: &[u8]) -> usize
    ensures len { result ≡ prefix_len continues_tag_name bytes.now }
    ensures within { result ≤ length bytes.now }
{
    bytes.iter().take_while(|c| continues(**c)).count()
}

// The longest name, and what follows it.
#[tactic(auto, unfolding(crate::specs::inner::Reading::tag_name_taken))]
pub(crate) fn tag_name_at(bytes: &[u8]) -> Option<(&[u8], &[u8])>
    ensures { option_map (λ x. (x.0.now, x.1.now)) result ≡ tag_name_taken bytes.now }
{
    if begins_name(bytes) {
        Some(bytes.split_at(tag_name_len(bytes)))
    } else {
        None
    }
}

// How many bytes from the first on are others than this one.
fn others_len(bytes: &[u8], byte: u8) -> usize
    ensures len { result ≡ prefix_len (is_other byte) bytes.now }
    ensures within { result ≤ length bytes.now }
{
    bytes.iter().take_while(|c| **c != byte).count()
}

// What stands before the first byte of this kind, and what follows it.
#[tactic(auto, unfolding(crate::specs::inner::Reading::split_byte))]
pub(crate) fn split_at_byte(bytes: &[u8], byte: u8) -> Option<(&[u8], &[u8])>
    ensures { option_map (λ x. (x.0.now, x.1.now)) result ≡ split_byte byte bytes.now }
{
    let (front, end) = bytes.split_at(others_len(bytes, byte));
    let rest = strip(end, &[byte])?;
    Some((front, rest))
}

// What stands before the first such word, and what follows the word.
pub(crate) fn split_at_word<'a>(bytes: &'a [u8], word: &[u8]) -> Option<(&'a [u8], &'a [u8])>
    ensures { option_map (λ x. (x.0.now, x.1.now)) result ≡ until word.now bytes.now }
{
    for i in 0..bytes.len() {
        let (front, rest) = bytes.split_at(i);
        if let Some(more) = strip(rest, word) {
            return Some((front, more));
        }
    }
    None
}
