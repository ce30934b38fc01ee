//! The elements of a whole text.
ghost use Rattle.std.specs.Prelude.{◌≡◌, ◌≢◌, ◌⊎◌, ◌↔◌, ◌<◌, ◌≤◌, ◌+◌, [], length, drop, IfOk, IfErr, IsTrue};
ghost use Rattle.std.specs.Str.{IsUtf8};
ghost use Rattle.pssm_xml.specs.Documents.{BeginsElement};
ghost use Rattle.pssm_xml.specs.TextFaults.{HasElements};
ghost use Rattle.pssm_xml.specs.Faults.{IsTextFault};
ghost use Rattle.pssm_xml.specs.inner.Cuts.{piece_of};
ghost use Rattle.pssm_xml.specs.inner.Frames.{frames_of, state_of, HasFrames};
ghost use Rattle.pssm_xml.specs.inner.Growth.{nothing_yet};
ghost use Rattle.pssm_xml.specs.inner.Reads.{IsGoodText, IsBefore, HasEnd, GoesOnTo, StopsAt, StartsAt, ends_whole, ends_doctype};

use crate::characters::good_len;
use crate::elements::Elements;
use crate::fault::TextFault;
use crate::pieces::{Cut, piece_at};
use crate::progress::{Place, Progress, depth_of, with_piece};
use crate::store::Store;
use pssm_spelling::strip;
use std::alloc::Global;
use std::str::from_utf8;

// The greatest number of elements that are open (this profile's choice).
const MOST_OPEN: usize = 128;

// Whether the piece is a tag that begins an element.
fn begins_element(cut: &Cut<'_>) -> bool
    ensures { IsTrue result ↔ BeginsElement (piece_of cut.now) }
{
    match cut {
        Cut::Tag {
            name: _,
            attributes: _,
            empty: _,
        } => true,
        _ => false,
    }
}

// The tree with the piece that begins at this byte, or the fault that stands there.
fn step<'a>(
    alloc: Global,
    progress: Progress<'a>,
    at: u32,
    cut: Cut<'a>,
) -> Result<Progress<'a>, TextFault>
    requires room { length progress.store < 16777216 }
    requires frames { HasFrames (state_of progress) }
    ensures goes { IfOk result (λ next. GoesOnTo (state_of progress.entry) at (piece_of cut.entry) (state_of next)) }
    ensures stops { IfErr result (λ fault. (fault ≡ TextFault.NoMemory) ⊎ StopsAt (state_of progress.entry) at (piece_of cut.entry) fault) }
{
    if depth_of(&progress.place) >= MOST_OPEN && begins_element(&cut) {
        return Err(TextFault::TooDeep { at });
    }
    match with_piece(alloc, progress, at, cut)? {
        Some(next) => Ok(next),
        None => Err(TextFault::Malformed { at }),
    }
}

// Whether the text has ended behind its root.
fn is_whole(rest: &[u8], store: &Store, place: &Place<'_>) -> bool
    ensures { result ≡ ends_whole rest.now store.now (frames_of place.now) }
{
    rest.is_empty() && store.len() > 0 && depth_of(place) == 0
}

// Whether a document type stands before the root.
fn begins_doctype(rest: &[u8], store: &Store) -> bool
    ensures { result ≡ ends_doctype rest.now store.now }
{
    store.len() == 0 && strip(rest, b"<!DOCTYPE").is_some()
}

// What the text is worth, where no piece begins behind what was read.
fn finished(bytes: &[u8], at: u32, progress: Progress<'_>) -> Result<Elements, TextFault>
    requires utf8 { IsUtf8 bytes.now }
    requires end { HasEnd bytes.now at (state_of progress) }
    ensures read { IfOk result (λ elements. HasElements bytes.now elements) }
    ensures fault { IfErr result (λ fault. (fault ≡ TextFault.NoMemory) ⊎ IsTextFault bytes.now fault) }
{
    let (_read, rest) = bytes.split_at(at as usize);
    let Progress { store, place } = progress;
    if is_whole(rest, &store, &place) {
        return Ok(store.linked());
    }
    if begins_doctype(rest, &store) {
        return Err(TextFault::Doctype { at });
    }
    Err(TextFault::Malformed { at })
}

// The first byte behind a byte order mark, and what follows it.
fn start_of(text: &[u8]) -> (u32, &[u8])
    ensures { StartsAt text.now result.0 result.1.now }
{
    match strip(text, b"\xEF\xBB\xBF") {
        Some(rest) => (3, rest),
        None => (0, text),
    }
}

// The byte at which these last bytes of the text begin.
fn place_of(text: &[u8], last: &[u8]) -> u32
    requires shorter { length last.now ≤ length text.now }
    requires few { length text.now ≤ 16777216 }
    ensures { result + length last.now ≡ length text.now }
{
    (text.len() - last.len()) as u32
}

// The elements of a text, of which this is the front whose characters XML has; or its first fault.
fn read(alloc: Global, bytes: &[u8], text: &[u8]) -> Result<Elements, TextFault>
    requires few { length bytes.now ≤ 16777216 }
    requires utf8 { IsUtf8 bytes.now }
    requires good { IsGoodText bytes.now text.now (drop (length text.now) bytes.now) }
    ensures read { IfOk result (λ elements. HasElements bytes.now elements) }
    ensures fault { IfErr result (λ fault. (fault ≡ TextFault.NoMemory) ⊎ IsTextFault bytes.now fault) }
{
    let (start, behind) = start_of(text);
    let mut at = start;
    let mut rest = behind;
    let mut progress = Progress {
        store: Store::new(alloc),
        place: Place::Outside,
    };
    'pieces: loop {
        let Some((cut, more)) = piece_at(alloc, rest)? else {
            return finished(bytes, at, progress);
        };
        match step(alloc, progress, at, cut) {
            Err(fault) => return Err(fault),
            Ok(next) => {
                progress = next;
                at = place_of(text, more);
                rest = more;
            }
        }
    }
}

/// The elements of a text, or its first fault.
///
/// `NoMemory`: memory ran out; it comes in place of any other answer.
pub fn elements_of(alloc: Global, bytes: &[u8]) -> Result<Elements, TextFault>
    requires { length bytes.now ≤ 16777216 }
    ensures read { IfOk result (λ elements. HasElements bytes.now elements) }
    ensures fault { IfErr result (λ fault. (fault ≡ TextFault.NoMemory) ⊎ IsTextFault bytes.now fault) }
{
    match from_utf8(bytes) {
        Ok(text) => {
            let (good, _bad) = bytes.split_at(good_len(text));
            read(alloc, bytes, good)
        }
        Err(error) => Err(TextFault::NotUtf8 {
            at: error.valid_up_to() as u32,
        }),
    }
}
