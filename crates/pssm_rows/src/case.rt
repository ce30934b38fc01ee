//! Cases and what they are made of.
ghost use Rattle.std.specs.Prelude.{◌<◌};

use crate::owed::Answer;

/// A file in memory.
#[derive(Drop)]
pub struct File {
    /// Its name.
    pub name: String,
    /// What it holds.
    pub bytes: Vec<u8>,
}

/// Runs that are owed one answer.
#[derive(Drop)]
pub struct Ask {
    /// The words of each run as they stand in the file of cases.
    pub runs: Vec<String>,
    /// The answer; none where the file of cases says none.
    pub owed: Option<Answer>,
}

/// How inputs or a sink in memory behave.
#[derive(Drop)]
pub struct Plan {
    /// The calls that fail, counted from 0.
    pub fails: Vec<u64>,
    /// How many bytes a call passes on at most.
    pub most: usize,
    ghost some: { 0 < most },
}

/// A case.
#[derive(Drop)]
pub struct Case {
    /// The line where it begins, from 1.
    pub line: usize,
    /// What it shows.
    pub words: String,
    /// The files that are there in this case alone.
    pub files: Vec<File>,
    /// How often it is tried.
    pub count: u32,
    /// The number that it is tried at first.
    pub first: u32,
    /// How inputs behave.
    pub reads: Plan,
    /// How the sink behaves.
    pub writes: Plan,
    /// What is run, one after another.
    pub asks: Vec<Ask>,
}

/// The cases of a file of cases, and the files that are there in all of them.
#[derive(Drop)]
pub struct Cases {
    /// The files.
    pub files: Vec<File>,
    /// The cases.
    pub cases: Vec<Case>,
}
