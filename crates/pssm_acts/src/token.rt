//! Tokens of the action language: the longest piece that bytes begin with, and what it is.
ghost use Rattle.std.specs.Prelude.{◌≡◌, ◌<◌, ◌≤◌, length, IfSome};
ghost use Rattle.pssm_acts.specs.Tokens.{double_sign, ends_operand, front, is_blank, number_len, sign_front, single_sign, word_kind};

use pssm_semantics::Rel;
use pssm_spelling::{NAME_LEN, digits_len, name_len, name_starts};

/// What a token is: a name, a number, a parameter, or a word or sign of the language (this
/// profile's choice).
///
/// `Param` has the parameter's number, 1 to 8. `Unknown` stands for bytes that begin no token.
#[derive(Clone, Copy, PartialEq, Eq)]
pub enum Kind {
    Name,
    Number,
    Param(u8),
    If,
    Else,
    Send,
    Mark,
    Step,
    True,
    False,
    Own,
    Relation(Rel),
    Plus,
    Minus,
    Times,
    Open,
    Close,
    OpenBracket,
    CloseBracket,
    OpenBrace,
    CloseBrace,
    Not,
    And,
    Or,
    Becomes,
    Semicolon,
    Comma,
    Dot,
    Unknown,
}

// Whether the byte is a space, a tab, a carriage return or a line feed.
pub(crate) fn blank(c: u8) -> bool
    ensures { result ≡ is_blank c }
{
    matches!(c, b' ' | b'\t' | b'\r' | b'\n')
}

// Whether an operand ends with such a token, so that a `-` behind it is a sign of its own.
pub(crate) fn closes_operand(kind: Kind) -> bool
    ensures { result ≡ ends_operand kind }
{
    matches!(
        kind,
        Kind::Name | Kind::Number | Kind::Param(_) | Kind::Close
    )
}

// What a word is that is spelled as a name.
fn kind_of_word(word: &[u8]) -> Kind
    ensures { result ≡ word_kind word.now }
{
    if word == b"if".as_slice() {
        Kind::If
    } else if word == b"else".as_slice() {
        Kind::Else
    } else if word == b"send".as_slice() {
        Kind::Send
    } else if word == b"mark".as_slice() {
        Kind::Mark
    } else if word == b"step".as_slice() {
        Kind::Step
    } else if word == b"true".as_slice() {
        Kind::True
    } else if word == b"false".as_slice() {
        Kind::False
    } else if word == b"self".as_slice() {
        Kind::Own
    } else {
        Kind::Name
    }
}

// The sign of two bytes.
fn double(c: u8, d: u8) -> Option<Kind>
    ensures gives { result ≡ double_sign c d }
    ensures second { IfSome result (λ _. 0 < d) }
{
    match (c, d) {
        (b'&', b'&') => Some(Kind::And),
        (b'|', b'|') => Some(Kind::Or),
        (b'=', b'=') => Some(Kind::Relation(Rel::Eq)),
        (b'!', b'=') => Some(Kind::Relation(Rel::Ne)),
        (b'<', b'=') => Some(Kind::Relation(Rel::Le)),
        (b'>', b'=') => Some(Kind::Relation(Rel::Ge)),
        (b':', b'=') => Some(Kind::Becomes),
        _ => None,
    }
}

// The sign of one byte.
fn single(c: u8) -> Kind
    ensures { result ≡ single_sign c }
{
    match c {
        b'+' => Kind::Plus,
        b'-' => Kind::Minus,
        b'*' => Kind::Times,
        b'(' => Kind::Open,
        b')' => Kind::Close,
        b'[' => Kind::OpenBracket,
        b']' => Kind::CloseBracket,
        b'{' => Kind::OpenBrace,
        b'}' => Kind::CloseBrace,
        b'!' => Kind::Not,
        b'<' => Kind::Relation(Rel::Lt),
        b'>' => Kind::Relation(Rel::Gt),
        b';' => Kind::Semicolon,
        b',' => Kind::Comma,
        b'.' => Kind::Dot,
        _ => Kind::Unknown,
    }
}

// The sign or parameter that begins with these two bytes, and its length.
#[tactic(auto, unfolding(crate::specs::Tokens::sign_front))]
fn sign(c: u8, d: u8) -> (Kind, usize)
    ensures gives { result ≡ sign_front c d }
    ensures some { 1 ≤ result.1 }
    ensures few { result.1 ≤ 2 }
    ensures second { 1 < result.1 → 0 < d }
{
    if c == b'$' && d >= b'1' && d <= b'8' {
        return (Kind::Param(d - b'0'), 2);
    }
    match double(c, d) {
        Some(kind) => (kind, 2),
        None => (single(c), 1),
    }
}

// How many bytes of a number there are, where one begins here; a `-` belongs to it where no operand
// stands before.
#[tactic(auto, unfolding(crate::specs::Tokens::number_len))]
fn number(bytes: &[u8], after_operand: bool) -> usize
    ensures gives { result ≡ number_len after_operand bytes.now }
    ensures within { result ≤ length bytes.now }
{
    match bytes {
        [b'-', rest @ ..] => {
            let digits = digits_len(rest);
            if after_operand || digits == 0 {
                0
            } else {
                1 + digits
            }
        }
        _ => digits_len(bytes),
    }
}

// What the bytes begin with, and how long it is.
#[tactic(auto, unfolding(crate::specs::Tokens::front))]
pub(crate) fn token_at(bytes: &[u8], after_operand: bool) -> (Kind, usize)
    requires some { 0 < length bytes.now }
    ensures gives { result ≡ front after_operand bytes.now }
    ensures some { 1 ≤ result.1 }
    ensures within { result.1 ≤ length bytes.now }
{
    if name_starts(bytes) {
        let len = name_len(bytes).min(NAME_LEN);
        return (kind_of_word(&bytes[..len]), len);
    }
    let digits = number(bytes, after_operand);
    if digits > 0 {
        return (Kind::Number, digits);
    }
    let next = bytes.get(1).copied().unwrap_or(0);
    sign(bytes[0], next)
}

/// A token: how many bytes stand before it, what it is, and its bytes.
#[derive(Clone, Copy)]
pub(crate) struct Piece<'a> {
    pub(crate) at: u32,
    pub(crate) kind: Kind,
    pub(crate) word: &'a [u8],
}
