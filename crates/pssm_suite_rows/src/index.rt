//! The lines of the index.

use std::alloc::{AllocError as NoMemory, Global};

/// What a line of the index says.
#[derive(Clone, Copy)]
pub struct Vector<'a> {
    /// The number of the line, from 1.
    pub line: usize,
    /// The folder of its group.
    pub group: &'a str,
    /// Its model.
    pub model: &'a str,
    /// Its journal.
    pub journal: &'a str,
    /// The answer that is owed.
    pub owed: &'a str,
    /// What it shows.
    pub words: &'a str,
}

impl Vector<'_> {
    /// Whether the file of this name, in the folder of this group, is one of its two.
    pub fn names(&self, group: &str, file: &str) -> bool {
        self.group == group && (self.model == file || self.journal == file)
    }
}

/// The vectors of an index, or the number of its first line, counted from 1, that is none of an index.
pub fn vectors_of(alloc: Global, text: &str) -> Result<Result<Vec<Vector<'_>>, usize>, NoMemory> {
    let mut vectors = Vec::new(alloc);
    for (index, line) in text.lines().enumerate() {
        let number = index.saturating_add(1);
        match vector_of(number, line) {
            Some(vector) => vectors.push(vector)?,
            None => return Ok(Err(number)),
        }
    }
    Ok(Ok(vectors))
}

// The vector of a line, which has six parts with a tab between.
fn vector_of(line: usize, text: &str) -> Option<Vector<'_>> {
    let (group, rest) = text.split_once('\t')?;
    let (model, rest) = rest.split_once('\t')?;
    let (journal, rest) = rest.split_once('\t')?;
    let (owed, rest) = rest.split_once('\t')?;
    let (words, section) = rest.split_once('\t')?;
    let parts = [group, model, journal, owed, words, section];
    if section.contains('\t') || parts.iter().any(|part| part.is_empty()) {
        return None;
    }
    Some(Vector {
        line,
        group,
        model,
        journal,
        owed,
        words,
    })
}
