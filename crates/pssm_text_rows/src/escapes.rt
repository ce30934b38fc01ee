//! The bytes that the text of a row stands for.

use crate::stop::Stop;
use pssm_cases::put_spelled;
use std::alloc::Global;

// The bytes of a text, in which `\(64 x:=1;\)` stands for 64 times `x:=1;`.
pub(crate) fn bytes_of(alloc: Global, text: &str) -> Result<Vec<u8>, Stop> {
    let mut bytes = Vec::new(alloc);
    let (first, rest) = text.split_once("\\(").unwrap_or((text, ""));
    put_spelled(&mut bytes, first.as_bytes(), 0)?;
    if first.len() < text.len() {
        for piece in rest.split("\\(") {
            put_repeated(&mut bytes, piece)?;
        }
    }
    Ok(bytes)
}

// What stands behind `\(`: how often, a part of a text, `\)`, and the text behind it.
fn put_repeated(bytes: &mut Vec<u8>, piece: &str) -> Result<(), Stop> {
    let (repeated, behind) = piece.split_once("\\)").ok_or(Stop::Unread)?;
    let (count, part) = repeated.split_once(" ").ok_or(Stop::Unread)?;
    for _ in 0..count.parse::<u32>().ok().ok_or(Stop::Unread)? {
        put_spelled(bytes, part.as_bytes(), 0)?;
    }
    put_spelled(bytes, behind.as_bytes(), 0)?;
    Ok(())
}
