//! The lines that hold an action text: their words, and the text behind.
ghost use Rattle.std.specs.Prelude.{◌≡◌};
ghost use Rattle.std.specs.Option.{option_map};
ghost use Rattle.pssm_flat.specs.Faults.{action_word};
ghost use Rattle.pssm_flat.specs.inner.Lines.{behind_word, action_taken};

use crate::parts::is_text;
use pssm_spelling::strip;

/// A line that holds the text of a behaviour or guard: at entry, exit or as a do step of a State, as the guard of a
/// transition, or as its effect.
#[derive(Clone, Copy)]
pub(crate) enum ActionLine {
    Entry,
    Exit,
    Step,
    When,
    Effect,
}

// The word before the text, with its blank.
fn word_of(action: ActionLine) -> &'static [u8]
    ensures { result.now ≡ action_word action }
{
    match action {
        ActionLine::Entry => b"entry ",
        ActionLine::Exit => b"exit ",
        ActionLine::Step => b"step ",
        ActionLine::When => b"if ",
        ActionLine::Effect => b"effect ",
    }
}

// The text behind the word of such a line, where it is UTF-8.
#[tactic(auto, unfolding(crate::specs::inner::Lines::behind_word))]
fn text_behind(word: ActionLine, bytes: &[u8]) -> Option<(ActionLine, &[u8])>
    ensures { option_map (λ x. (x.0, x.1.now)) result ≡ behind_word word bytes.now }
{
    let text = strip(bytes, word_of(word))?;
    if is_text(text) {
        Some((word, text))
    } else {
        None
    }
}

/// The word of a line with an action text, and the text: UTF-8, whatever it says.
#[tactic(auto, unfolding(crate::specs::inner::Lines::action_taken))]
pub(crate) fn action_at(bytes: &[u8]) -> Option<(ActionLine, &[u8])>
    ensures { option_map (λ x. (x.0, x.1.now)) result ≡ action_taken bytes.now }
{
    if let Some(read) = text_behind(ActionLine::Entry, bytes) {
        return Some(read);
    }
    if let Some(read) = text_behind(ActionLine::Exit, bytes) {
        return Some(read);
    }
    if let Some(read) = text_behind(ActionLine::Step, bytes) {
        return Some(read);
    }
    if let Some(read) = text_behind(ActionLine::When, bytes) {
        return Some(read);
    }
    text_behind(ActionLine::Effect, bytes)
}
