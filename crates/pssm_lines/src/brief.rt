//! Brief lines at the front of a text: those of the most frequent forms, without arguments, outputs and lists.
//!
//! Reading one takes no memory, and what is read is small. Each function reads a line with its line feed.
ghost use Rattle.std.specs.Prelude.{◌≡◌, ◌∷◌, ◌++◌, IfSome};
ghost use Rattle.pssm_lines.specs.LineText.{line_text};
ghost use Rattle.pssm_lines.specs.Faults.{IsJournalLine};
ghost use Rattle.pssm_lines.specs.Parts.{brief_line};
ghost use Rattle.pssm_lines.specs.inner.Lines.{StandsAt};

use crate::groups::{called_at, lone_start_at, place_at, turn_at};
use crate::parts::{BriefAct, BriefParts};
use crate::pieces::behind;
use pssm_model::{TransId, VertexId};
use pssm_spelling::strip;

// A brief line that is read, and what follows it.
type ReadBrief<'a> = Option<(BriefParts<'a>, &'a [u8])>;

// A post without arguments.
#[inline(always)]
fn post_at(bytes: &[u8]) -> ReadBrief<'_>
    ensures { IfSome result (λ x. StandsAt bytes.now (brief_line x.0) x.1.now) }
{
    let called = strip(bytes, b"post ")?;
    let (object, signal, end) = called_at(called)?;
    let rest = strip(end, b"()\n")?;
    let act = BriefAct::Post { signal };
    Some((BriefParts { object, act }, rest))
}

// A take by which one route of one start fires.
#[inline(always)]
fn take_at(bytes: &[u8]) -> ReadBrief<'_>
    ensures { IfSome result (λ x. StandsAt bytes.now (brief_line x.0) x.1.now) }
{
    let turn = strip(bytes, b"take ")?;
    let (object, number, space) = turn_at(turn)?;
    let fires = behind(space, b' ')?;
    let (start, end) = lone_start_at(fires)?;
    let rest = behind(end, b'\n')?;
    let act = BriefAct::Take { number, start };
    Some((BriefParts { object, act }, rest))
}

// An exit without outputs.
#[inline(always)]
fn exit_at(bytes: &[u8]) -> ReadBrief<'_>
    ensures { IfSome result (λ x. StandsAt bytes.now (brief_line x.0) x.1.now) }
{
    let place = strip(bytes, b"exit ")?;
    let (object, number, end) = place_at(place, b" v")?;
    let rest = behind(end, b'\n')?;
    let state = VertexId(number);
    let act = BriefAct::Exit { state };
    Some((BriefParts { object, act }, rest))
}

// An effect without outputs.
#[inline(always)]
fn effect_at(bytes: &[u8]) -> ReadBrief<'_>
    ensures { IfSome result (λ x. StandsAt bytes.now (brief_line x.0) x.1.now) }
{
    let place = strip(bytes, b"effect ")?;
    let (object, number, end) = place_at(place, b" t")?;
    let rest = behind(end, b'\n')?;
    let transition = TransId(number);
    let act = BriefAct::Effect { transition };
    Some((BriefParts { object, act }, rest))
}

// An entry without outputs.
#[inline(always)]
fn enter_at(bytes: &[u8]) -> ReadBrief<'_>
    ensures { IfSome result (λ x. StandsAt bytes.now (brief_line x.0) x.1.now) }
{
    let place = strip(bytes, b"enter ")?;
    let (object, number, end) = place_at(place, b" v")?;
    let rest = behind(end, b'\n')?;
    let state = VertexId(number);
    let act = BriefAct::Enter { state };
    Some((BriefParts { object, act }, rest))
}

// A brief line, by its first letters.
#[inline(always)]
fn form_at(bytes: &[u8]) -> ReadBrief<'_>
    ensures { IfSome result (λ x. StandsAt bytes.now (brief_line x.0) x.1.now) }
{
    match bytes {
        [b'p', ..] => post_at(bytes),
        [b't', ..] => take_at(bytes),
        [b'e', b'x', ..] => exit_at(bytes),
        [b'e', b'f', ..] => effect_at(bytes),
        [b'e', ..] => enter_at(bytes),
        _ => None,
    }
}

/// The brief line at the front of the bytes, and what follows its line feed. Made of names and numbers
/// alone, it is never too long.
///
/// Where it finds none, [`front_of`](crate::front_of) says what stands there.
#[inline(always)]
pub fn brief_at(bytes: &[u8]) -> Option<(BriefParts<'_>, &[u8])>
    ensures journal { IfSome result (λ x. IsJournalLine (brief_line x.0)) }
    ensures text { IfSome result (λ x. bytes.now ≡ line_text (brief_line x.0) ++ 10 ∷ x.1.now) }
{
    form_at(bytes)
}
