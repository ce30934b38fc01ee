//! The tokens of a text, taken one after another.
ghost use Rattle.std.specs.Prelude.{◌≡◌, ◌≤◌, ℕ, Bool, List, [], ◌∷◌, false, length, take, MatchOption, slice_index_or};
ghost use Rattle.pssm_acts.specs.inner.ExprReading.{token_of};
ghost use Rattle.pssm_acts.specs.inner.TextLeft.{IsShort, left};
ghost use Rattle.pssm_acts.specs.Longest.{IsTaken};
ghost use Rattle.pssm_acts.specs.Tokens.{cut, front, is_blank, tokens_of};

use crate::token::{Piece, blank, closes_operand, token_at};

/// A text, what is left of it, and whether the token before that closes an operand.
#[derive(Drop)]
pub struct Tokens<'a> {
    pub(crate) text: &'a [u8],
    pub(crate) rest: &'a [u8],
    pub(crate) after_operand: bool,
}

// What is left behind the blanks at the front.
fn behind_blanks(bytes: &[u8]) -> &[u8]
    ensures same { (end : ℕ) (after_operand : Bool)
        → cut end after_operand 0 result.now ≡ cut end after_operand 0 bytes.now }
    ensures solid { 1 ≤ length result.now → is_blank (slice_index_or result.now 0 0) ≡ false }
    ensures within { length result.now ≤ length bytes.now }
{
    let mut rest = bytes;
    while let [first, behind @ ..] = rest {
        if !blank(*first) {
            return rest;
        }
        rest = behind;
    }
    rest
}

impl<'a> Tokens<'a> {
    // The tokens of a text.
    pub(crate) fn of(text: &'a [u8]) -> Tokens<'a>
        requires short { length text.now ≤ 4096 }
        ensures all { left result ≡ tokens_of text.now }
        ensures short { IsShort result }
    {
        Tokens {
            text,
            rest: text,
            after_operand: false,
        }
    }

    // Takes the first token that is left.
    pub(crate) fn next(&mut self) -> Option<Piece<'a>>
        requires short { IsShort self.old }
        ensures first { MatchOption result (left self.old ≡ [])
            (λ piece. left self.old ≡ token_of piece ∷ left self.new) }
        ensures short { IsShort self.new }
    {
        let rest = behind_blanks(self.rest);
        if rest.is_empty() {
            return None;
        }
        let at = (self.text.len() - rest.len()) as u32;
        let (kind, len) = token_at(rest, self.after_operand);
        let (word, later) = rest.split_at(len);
        self.rest = later;
        self.after_operand = closes_operand(kind);
        Some(Piece { at, kind, word })
    }
}

/// What is taken of the front of a text is the longest token that stands there, or one byte of no known kind where none
/// does (this profile's choice).
#[tactic(auto, using(crate::proofs::LongestLaws::longest_taken))]
pub fn longest_token()
    ensures { (after_operand : Bool) (c : ℕ) (cs : List ℕ)
        → IsTaken after_operand (c ∷ cs) (front after_operand (c ∷ cs)).0 (front after_operand (c ∷ cs)).1 }
{}
