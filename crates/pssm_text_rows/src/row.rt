//! Whether a row holds: its text is answered with what is owed.
//!
//! What a text is read as is dropped by a call: a drop at the end of a body is proved for each of its variants.
ghost use Rattle.std.specs.Prelude.{◌≡◌, ◌≢◌, ◌↔◌, IsTrue, codes};

use crate::escapes::bytes_of;
use crate::place::{Asked, Form, Place};
use crate::polish::{put_word, tree};
use crate::reading::{Spelled, read};
use crate::stop::Stop;
use crate::worth::worth;
use pssm_acts::{Act, ActFault, Names, write_act, write_cond};
use pssm_model::Text;
use std::alloc::{AllocError, Global};

// What a text is answered with, and whether it is read at all.
#[derive(Drop)]
struct Reply {
    is_read: bool,
    text: Vec<u8>,
}

// Whether an answer is the owed one: `read` is owed of a text that is read, whatever it is read as, and all else to
// the letter.
fn is_owed(found: &Reply, owed: &[u8]) -> bool
    ensures read { owed.now ≡ codes "read" → result ≡ found.now.is_read }
    ensures exact { owed.now ≢ codes "read" → IsTrue result ↔ (found.now.text.items ≡ owed.now) }
{
    if owed == b"read".as_slice() {
        return found.is_read;
    }
    found.text.as_slice() == owed
}

// What is found in place of what a row owes, in the first form in which it does not hold.
pub(crate) fn failure(
    alloc: Global,
    place: &mut Place,
    text: &str,
    owed: &str,
) -> Result<Option<String>, Stop> {
    if owed.is_empty() || place.forms.is_empty() {
        return Err(Stop::Unread);
    }
    let owed = bytes_of(alloc, owed)?;
    let forms = place.forms.as_slice().to_vec(alloc)?;
    for form in &forms {
        let found = found(alloc, place, *form, text)?;
        if !is_owed(&found, owed.as_slice()) {
            return Ok(Some(String::from_utf8(found.text).ok().ok_or(Stop::Unread)?));
        }
    }
    Ok(None)
}

// What the text of a row is answered with in one form.
fn found(alloc: Global, place: &mut Place, form: Form, text: &str) -> Result<Reply, Stop> {
    let mut marks = copies(alloc, place.reading.marks.as_slice())?;
    let mut found = told(alloc, answer(alloc, place, form, text, &mut marks))?;
    if let Asked::Marks = place.asked {
        put_word(&mut found.text, b"|")?;
        for mark in marks.as_slice() {
            put_word(&mut found.text, mark.as_slice())?;
        }
        place.reading.marks = marks;
    }
    Ok(found)
}

fn copies(alloc: Global, texts: &[Text]) -> Result<Vec<Text>, AllocError> {
    let mut copies = Vec::new(alloc);
    for text in texts {
        copies.push(text.copy(alloc)?)?;
    }
    Ok(copies)
}

// What is asked of a text that is read.
fn answer(
    alloc: Global,
    place: &Place,
    form: Form,
    text: &str,
    marks: &mut Vec<Text>,
) -> Result<Vec<u8>, Stop> {
    match place.asked {
        Asked::Comparisons => compared(alloc, &place.reading.names, form, text, marks),
        Asked::Worth => worth(alloc, place, form, bytes_of(alloc, text)?.as_slice(), marks),
        Asked::Trees | Asked::Marks | Asked::Spellings => {
            let read = read_row(alloc, &place.reading.names, form, text, marks)?;
            let shown = shown(alloc, place, &read, marks.as_slice());
            drop(read);
            shown
        }
    }
}

// The tree of what was read, or its canonical spelling by the names to write with.
fn shown(alloc: Global, place: &Place, read: &Spelled, marks: &[Text]) -> Result<Vec<u8>, Stop> {
    match (place.asked, &place.writing) {
        (Asked::Spellings, Some(known)) => spelling(
            alloc,
            read,
            &known.names,
            known.marks.as_slice(),
        ),
        (Asked::Spellings, None) => spelling(alloc, read, &place.reading.names, marks),
        _ => tree(alloc, read),
    }
}

// What the text of a row is read as.
fn read_row(
    alloc: Global,
    names: &Names,
    form: Form,
    text: &str,
    marks: &mut Vec<Text>,
) -> Result<Spelled, Stop> {
    let bytes = bytes_of(alloc, text)?;
    read(alloc, form, bytes.as_slice(), names, marks)
}

// Whether a copy of what one text is read as equals what the other is read as.
fn compared(
    alloc: Global,
    names: &Names,
    form: Form,
    texts: &str,
    marks: &mut Vec<Text>,
) -> Result<Vec<u8>, Stop> {
    let (left, right) = texts.split_once(" & ").ok_or(Stop::Unread)?;
    let left = read_row(alloc, names, form, left, marks)?;
    let compared = compared_with(alloc, names, form, &left, right, marks);
    drop(left);
    compared
}

fn compared_with(
    alloc: Global,
    names: &Names,
    form: Form,
    left: &Spelled,
    right: &str,
    marks: &mut Vec<Text>,
) -> Result<Vec<u8>, Stop> {
    let right = read_row(alloc, names, form, right, marks)?;
    let comparison = comparison(alloc, left, &right);
    drop(right);
    comparison
}

fn comparison(alloc: Global, left: &Spelled, right: &Spelled) -> Result<Vec<u8>, Stop> {
    let copy = left.copy(alloc)?;
    let is_equal = copy.equals(right);
    drop(copy);
    word(alloc, is_equal)
}

fn word(alloc: Global, is_equal: bool) -> Result<Vec<u8>, Stop> {
    let word = if is_equal { "equal" } else { "different" };
    Ok(word.as_bytes().to_vec(alloc)?)
}

// The canonical spelling of what was read, that of each step in brackets.
fn spelling(alloc: Global, read: &Spelled, names: &Names, marks: &[Text]) -> Result<Vec<u8>, Stop> {
    match read {
        Spelled::Guard(guard) => Ok(write_cond(alloc, guard, names)?),
        Spelled::Behaviour(act) => Ok(write_act(alloc, act, names, marks)?),
        Spelled::Steps(acts) => Ok(listed(alloc, acts.as_slice(), names, marks)?),
    }
}

fn listed(
    alloc: Global,
    acts: &[Act],
    names: &Names,
    marks: &[Text],
) -> Result<Vec<u8>, AllocError> {
    let mut list = Vec::new(alloc);
    for act in acts {
        put_word(&mut list, b"[")?;
        list.extend_from_slice(write_act(alloc, act, names, marks)?.as_slice())?;
        list.push(b']')?;
    }
    Ok(list)
}

// An answer, or the name of the fault and its byte.
fn told(alloc: Global, found: Result<Vec<u8>, Stop>) -> Result<Reply, Stop> {
    match found {
        Ok(text) => Ok(Reply {
            is_read: true,
            text,
        }),
        Err(Stop::Refused(fault)) => Ok(Reply {
            is_read: false,
            text: named(alloc, fault)?.into_bytes(),
        }),
        Err(stop) => Err(stop),
    }
}

fn named(alloc: Global, fault: ActFault) -> Result<String, AllocError> {
    match fault {
        ActFault::Syntax { at } => format!(in alloc; "Syntax {at}"),
        ActFault::UnknownName { at } => format!(in alloc; "UnknownName {at}"),
        ActFault::WideNumber { at } => format!(in alloc; "WideNumber {at}"),
        ActFault::Arity { at } => format!(in alloc; "Arity {at}"),
        ActFault::TooLong { at } => format!(in alloc; "TooLong {at}"),
        ActFault::NoMemory => format!(in alloc; "NoMemory"),
    }
}
