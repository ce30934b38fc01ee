//! How elements grow by one piece after another.
ghost use Rattle.std.specs.Prelude.{◌≡◌, ◌<◌, ◌≤◌, ◌∷◌, [], ◌++◌, ◌+◌, length, map, reverse, option_map, IfOk, IsTrue};
ghost use Rattle.std.specs.List.{list_all, AllByRecursion};
ghost use Rattle.pssm_xml.specs.Characters.{is_blank};
ghost use Rattle.pssm_xml.specs.inner.Cuts.{given_attribute, piece_of};
ghost use Rattle.pssm_xml.specs.inner.Growth.{Frame, State, parent_of, may_begin, new_element, behind_plain, behind_escaped, behind_end, behind_piece};
ghost use Rattle.pssm_xml.specs.inner.Frames.{new_frame, frame_of, frames_of, state_of, HasFrames, behind_tag};

use crate::pieces::Cut;
use crate::scan::is_blank_byte;
use crate::store::Store;
use crate::tags::Given;
use std::alloc::{AllocError as NoMemory, Global};

// An element that is open: its number, its name, and its text so far.
#[derive(Drop)]
pub(crate) struct Open<'a> {
    number: u32,
    name: &'a [u8],
    text: Vec<u8>,
}

// Where the next piece stands: outside the root, or in the innermost element that is open.
#[derive(Drop)]
pub(crate) enum Place<'a> {
    Outside,
    Inside { top: Open<'a>, outer: Vec<Open<'a>> },
}

// The elements so far, and the place behind them.
#[derive(Drop)]
pub(crate) struct Progress<'a> {
    pub(crate) store: Store,
    pub(crate) place: Place<'a>,
}

// How many elements are open.
pub(crate) fn depth_of(place: &Place<'_>) -> usize
    ensures { result ≡ length (frames_of place.now) }
{
    match place {
        Place::Outside => 0,
        Place::Inside { top: _, outer } => outer.len() + 1,
    }
}

// The element in which the next one stands.
fn parent_in(place: &Place<'_>) -> Option<u32>
    ensures { result ≡ parent_of (frames_of place.now) }
{
    match place {
        Place::Outside => None,
        Place::Inside { top, outer: _ } => Some(top.number),
    }
}

// Whether another element may begin.
fn may_begin_in(progress: &Progress<'_>) -> bool
    ensures { result ≡ may_begin (frames_of progress.now.place) progress.now.store }
{
    match &progress.place {
        Place::Outside => progress.store.len() == 0,
        Place::Inside { top: _, outer: _ } => true,
    }
}

// Whether the text consists of blanks.
fn is_blank_text(text: &[u8]) -> bool
    ensures { result ≡ list_all is_blank text.now }
{
    text.iter().all(|c| is_blank_byte(*c))
}

// The place in an element that begins.
fn entered<'a>(
    alloc: Global,
    place: Place<'a>,
    number: u32,
    name: &'a [u8],
) -> Result<Place<'a>, NoMemory>
    ensures { IfOk result (λ inner. frames_of inner ≡ new_frame number name.now ∷ frames_of place.entry) }
{
    let top = Open {
        number,
        name,
        text: Vec::new(alloc),
    };
    match place {
        Place::Outside => Ok(Place::Inside {
            top,
            outer: Vec::new(alloc),
        }),
        Place::Inside { top: above, outer } => {
            let mut outer = outer;
            outer.push(above)?;
            Ok(Place::Inside { top, outer })
        }
    }
}

// The place behind the innermost element.
fn left<'a>(outer: Vec<Open<'a>>) -> Place<'a>
    ensures { frames_of result ≡ map frame_of (reverse outer.entry.items) }
{
    let mut outer = outer;
    match outer.pop() {
        Some(top) => Place::Inside { top, outer },
        None => Place::Outside,
    }
}

// With text that is escaped.
fn with_escaped<'a>(progress: Progress<'a>, text: &[u8]) -> Result<Option<Progress<'a>>, NoMemory>
    ensures { IfOk result (λ r. option_map state_of r ≡ behind_escaped (frames_of progress.entry.place) progress.entry.store text.now) }
{
    let Progress { store, place } = progress;
    match place {
        Place::Outside => Ok(None),
        Place::Inside { top, outer } => {
            let Open {
                number,
                name,
                text: so_far,
            } = top;
            let mut longer = so_far;
            longer.extend_from_slice(text)?;
            let top = Open {
                number,
                name,
                text: longer,
            };
            let place = Place::Inside { top, outer };
            Ok(Some(Progress { store, place }))
        }
    }
}

// With a character that stands for itself.
fn with_plain<'a>(progress: Progress<'a>, text: &[u8]) -> Result<Option<Progress<'a>>, NoMemory>
    ensures { IfOk result (λ r. option_map state_of r ≡ behind_plain (frames_of progress.entry.place) progress.entry.store text.now) }
{
    if depth_of(&progress.place) > 0 {
        return with_escaped(progress, text);
    }
    if is_blank_text(text) {
        Ok(Some(progress))
    } else {
        Ok(None)
    }
}

// With a tag that begins an element.
fn with_tag<'a>(
    alloc: Global,
    progress: Progress<'a>,
    at: u32,
    name: &'a [u8],
    attributes: &[Given<'a>],
    empty: bool,
) -> Result<Option<Progress<'a>>, NoMemory>
    requires room { length progress.store < 16777216 }
    requires frames { HasFrames (state_of progress) }
    ensures { IfOk result (λ r. option_map state_of r ≡ behind_tag (frames_of progress.entry.place) progress.entry.store at name.now (map given_attribute attributes.now) empty) }
{
    if !may_begin_in(&progress) {
        return Ok(None);
    }
    let Progress { store, place } = progress;
    let number = store.len();
    let store = store.with_element(at, parent_in(&place), name, attributes)?;
    if empty {
        return Ok(Some(Progress { store, place }));
    }
    let place = entered(alloc, place, number, name)?;
    Ok(Some(Progress { store, place }))
}

// With a tag that ends an element.
fn with_end<'a>(progress: Progress<'a>, name: &[u8]) -> Result<Option<Progress<'a>>, NoMemory>
    requires frames { HasFrames (state_of progress) }
    ensures { IfOk result (λ r. option_map state_of r ≡ behind_end (frames_of progress.entry.place) progress.entry.store name.now) }
{
    let Progress { store, place } = progress;
    match place {
        Place::Outside => Ok(None),
        Place::Inside { top, outer } => {
            if top.name == name {
                let store = store.with_text(top.number, top.text.as_slice())?;
                Ok(Some(Progress {
                    store,
                    place: left(outer),
                }))
            } else {
                Ok(None)
            }
        }
    }
}

// With one piece more, which begins at this byte; None where it cannot stand there.
pub(crate) fn with_piece<'a>(
    alloc: Global,
    progress: Progress<'a>,
    at: u32,
    cut: Cut<'a>,
) -> Result<Option<Progress<'a>>, NoMemory>
    requires room { length progress.store < 16777216 }
    requires frames { HasFrames (state_of progress) }
    ensures { IfOk result (λ r. option_map state_of r ≡ behind_piece (state_of progress.entry) at (piece_of cut.entry)) }
{
    match cut {
        Cut::Tag {
            name,
            attributes,
            empty,
        } => { with_tag(alloc, progress, at, name, attributes.as_slice(), empty) }
        Cut::End(name) => with_end(progress, name),
        Cut::Aside => Ok(Some(progress)),
        Cut::Section(text) => with_escaped(progress, text),
        Cut::Escape(c) => {
            let mut buffer = [0u8; 4];
            with_escaped(progress, c.encode_utf8(&mut buffer).as_bytes())
        }
        Cut::Plain(text) => with_plain(progress, text),
    }
}
