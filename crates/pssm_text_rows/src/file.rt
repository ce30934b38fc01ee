//! The lines of a file of texts.

use crate::place::Place;
use crate::row;
use crate::stop::Stop;
use pssm_cases::Outcome;
use std::alloc::{AllocError, Global};

// What became of the rows of a file; a line that cannot stand there counts as one that does not hold.
pub(crate) fn outcomes(alloc: Global, text: &str) -> Result<Vec<Outcome>, AllocError> {
    let mut place = Place::new(alloc);
    let mut outcomes = Vec::new(alloc);
    for (before, line) in text.lines().enumerate() {
        let Some(failure) = met(alloc, &mut place, line)? else {
            continue;
        };
        outcomes.push(Outcome {
            line: before.saturating_add(1),
            words: String::from_str(alloc, line)?,
            failure,
        })?;
    }
    Ok(outcomes)
}

// The outcome of a file that is no text.
pub(crate) fn unread(alloc: Global) -> Result<Vec<Outcome>, AllocError> {
    let outcome = Outcome {
        line: 1,
        words: String::from_str(alloc, "this is no text that can be read")?,
        failure: Some(String::from_str(alloc, "nothing was run")?),
    };
    Ok(vec![in alloc; outcome]?)
}

// What became of a line: nothing where it is no row and may stand there, and otherwise why it does not hold, or
// nothing where it does.
fn met(alloc: Global, place: &mut Place, line: &str) -> Result<Option<Option<String>>, AllocError> {
    if line.is_empty() || line.starts_with("#") {
        return Ok(None);
    }
    let failure = match line.split_once(" => ") {
        Some((text, owed)) => row::failure(alloc, place, text, owed),
        None => match place.note(alloc, line) {
            Ok(()) => return Ok(None),
            Err(stop) => Err(stop),
        },
    };
    match failure {
        Ok(failure) => Ok(Some(failure)),
        Err(Stop::NoMemory) => Err(AllocError),
        Err(_) => Ok(Some(Some(String::from_str(alloc, "this line cannot stand here")?))),
    }
}
