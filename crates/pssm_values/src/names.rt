//! Names of classes, objects, signals and variables.
ghost use Rattle.std.specs.Prelude.{◌≡◌, ◌↔◌, ◌++◌, ◌<◌, ◌∷◌, [], length, map, IfOk, IsTrue, bytes_eq, if◌then◌else◌};
ghost use Rattle.std.specs.List.{list_all, list_any};
ghost use Rattle.pssm_spelling.specs.Spelling.{continues_name, is_name_text, IsName};
ghost use Rattle.pssm_values.specs.Names.{clean_byte, cleaned, needs_front, reserved_words, CanNameVariable};

use pssm_model::Text;
use pssm_spelling::{NAME_LEN, is_decimal, name_starts};
use std::alloc::{AllocError as NoMemory, Global};

// Whether names go on with this.
fn is_name_byte(c: u8) -> bool
    ensures { result ≡ continues_name c }
{
    matches!(c, b'A'..=b'Z' | b'a'..=b'z' | b'_' | b'0'..=b'9')
}

// The byte where names go on with it, and otherwise `_`.
fn clean(c: u8) -> u8
    ensures { result ≡ clean_byte c }
{
    if is_name_byte(c) { c } else { b'_' }
}

// Whether a `_` stands before the clean bytes: there are none, or the first is a digit.
fn wants_front(name: &[u8]) -> bool
    ensures { result ≡ needs_front name.now }
{
    match name {
        [] => true,
        [first, ..] => is_decimal(*first),
    }
}

// The text with the clean bytes behind it.
fn with_clean(text: Vec<u8>, name: &[u8]) -> Result<Vec<u8>, NoMemory>
    ensures { IfOk result (λ more. more.items ≡ text.items ++ map clean_byte name.now) }
{
    let mut text = text;
    for c in name {
        text.push(clean(*c))?;
    }
    Ok(text)
}

// What stands before the clean bytes.
fn front(alloc: Global, name: &[u8]) -> Result<Vec<u8>, NoMemory>
    ensures { IfOk result (λ text. text.items ≡ (if needs_front name.now then 95 ∷ [] else [])) }
{
    let mut text = Vec::new(alloc);
    if wants_front(name) {
        text.push(b'_')?;
    }
    Ok(text)
}

// The bytes of the clean name.
fn clean_bytes(alloc: Global, name: &[u8]) -> Result<Vec<u8>, NoMemory>
    ensures { IfOk result (λ text. text.items ≡ cleaned name.now) }
{
    let text = front(alloc, name)?;
    with_clean(text, name)
}

/// The name of a class, an object or a signal as models spell it: each byte but letters, digits and `_` becomes `_`, a
/// first digit gets `_` before it, and an empty name becomes `_` (this profile's choice). A missing name is an empty
/// one.
#[tactic(auto, using(crate::proofs::NameLaws::is_spelled))]
pub fn clean_name(alloc: Global, name: &[u8]) -> Result<Text, NoMemory>
    ensures clean { IfOk result (λ text. text ≡ cleaned name.now) }
    ensures spelled { IfOk result (λ text. IsTrue (is_name_text text)) }
{
    Ok(Text::from_vec(clean_bytes(alloc, name)?))
}

/// Whether the clean name has more bytes than a name may have.
pub fn has_long_name(name: &[u8]) -> bool
    ensures { IsTrue result ↔ (64 < length (cleaned name.now)) }
{
    if wants_front(name) {
        name.len() >= NAME_LEN
    } else {
        name.len() > NAME_LEN
    }
}

// Whether the bytes are spelled as a name, however many they are.
fn is_spelled(bytes: &[u8]) -> bool
    ensures { result ≡ is_name_text bytes.now }
{
    match bytes.split_first() {
        Some((first, others)) => name_starts(&[*first]) && go_on(others),
        None => false,
    }
}

// Whether names go on with all of these.
fn go_on(bytes: &[u8]) -> bool
    ensures { result ≡ list_all continues_name bytes.now }
{
    bytes.iter().all(|c| is_name_byte(*c))
}

/// Whether these bytes are a name: a letter or `_`, then letters, digits and `_`, 1 to 64 bytes (this profile's
/// choice).
pub fn is_name(bytes: &[u8]) -> bool
    ensures { IsTrue result ↔ IsName bytes.now }
{
    bytes.len() <= NAME_LEN && is_spelled(bytes)
}

/// Whether the word has a meaning of its own in behaviours, so that it names no variable (this profile's choice).
pub fn is_reserved(word: &[u8]) -> bool
    ensures { result ≡ list_any (bytes_eq word.now) reserved_words }
{
    word == b"if".as_slice()
        || word == b"else".as_slice()
        || word == b"send".as_slice()
        || word == b"mark".as_slice()
        || word == b"step".as_slice()
        || word == b"true".as_slice()
        || word == b"false".as_slice()
        || word == b"self".as_slice()
}

/// Whether a variable can be called so: it is a name, and no word of behaviours.
pub fn can_name_variable(bytes: &[u8]) -> bool
    ensures { IsTrue result ↔ CanNameVariable bytes.now }
{
    is_name(bytes) && !is_reserved(bytes)
}
