//! A file that is being read out of a file of cases.

use crate::case::File;
use std::alloc::AllocError as NoMemory;

/// A file of which some lines are there: its own, and those of the file that it is like up to some line.
#[derive(Drop)]
pub struct Draft {
    /// Its name.
    pub name: String,
    /// What is there.
    pub bytes: Vec<u8>,
    // The text of the file that it is like; nothing where there is none.
    other: Vec<u8>,
    // How many lines of that are there or were replaced.
    done: usize,
}

impl Draft {
    /// A file of this name, like one with this text.
    pub fn new(name: String, other: Vec<u8>) -> Draft {
        let bytes = Vec::new(*name.allocator());
        Draft {
            name,
            bytes,
            other,
            done: 0,
        }
    }

    /// Goes on in the place of these lines, counted from 1, and says whether they are lines that can still be replaced.
    pub fn replace(&mut self, first: usize, last: usize) -> Result<bool, NoMemory> {
        if first <= self.done || last < first || line_count(self.other.as_slice()) < last {
            return Ok(false);
        }
        put_lines(&mut self.bytes, self.other.as_slice(), self.done, first - 1)?;
        self.done = last;
        Ok(true)
    }

    /// The file.
    pub fn finish(self) -> Result<File, NoMemory> {
        let Draft {
            name,
            mut bytes,
            other,
            done,
        } = self;
        put_lines(&mut bytes, other.as_slice(), done, usize::MAX)?;
        Ok(File { name, bytes })
    }
}

// How many lines a text has.
fn line_count(text: &[u8]) -> usize {
    text.split_inclusive(|byte| *byte == b'\n').count()
}

// Puts the lines of a text with these numbers, counted from 0.
fn put_lines(into: &mut Vec<u8>, text: &[u8], from: usize, to: usize) -> Result<(), NoMemory> {
    for (number, line) in text.split_inclusive(|byte| *byte == b'\n').enumerate() {
        if from <= number && number < to {
            into.extend_from_slice(line)?;
        }
    }
    Ok(())
}
