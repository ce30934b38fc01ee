//! From the lines of a file of cases to its cases.

use crate::case::{Ask, Case, Cases, File, Plan};
use crate::draft::Draft;
use crate::line::{Line, Wanted, line_of};
use crate::owed::{Answer, Owed};
use pssm_cases::{SpellFault, put_line};
use std::alloc::{AllocError as NoMemory, AllocFailed, Global};
use std::mem;

// How many bytes a call passes on at most where a case says nothing else.
const MOST: usize = 65_536;

// Why a line is not read.
#[derive(Drop)]
enum Refusal {
    // It is no line of a file of cases, or cannot stand at its place.
    BadLine,
    // There was not enough memory.
    NoMemory,
}

impl From<NoMemory> for Refusal {
    fn from(_: NoMemory) -> Refusal {
        Refusal::NoMemory
    }
}

impl<T: Drop> From<AllocFailed<T>> for Refusal {
    fn from(_: AllocFailed<T>) -> Refusal {
        Refusal::NoMemory
    }
}

impl From<SpellFault> for Refusal {
    fn from(fault: SpellFault) -> Refusal {
        match fault {
            SpellFault::NoEscape => Refusal::BadLine,
            SpellFault::NoMemory => Refusal::NoMemory,
        }
    }
}

// Where text lines go.
#[derive(Drop)]
enum Place {
    // Nowhere.
    Nowhere,
    // Into a file.
    File(Draft),
    // Into the text that is owed with this status.
    Answer { code: u8, text: Vec<u8> },
}

// A file of cases of which some lines are read.
#[derive(Drop)]
struct Reader {
    alloc: Global,
    files: Vec<File>,
    cases: Vec<Case>,
    place: Place,
}

/// The cases of a text, or the number of the first line, counted from 1, that cannot stand there.
pub fn cases_of(alloc: Global, text: &str) -> Result<Result<Cases, usize>, NoMemory> {
    let mut reader = Reader {
        alloc,
        files: Vec::new(alloc),
        cases: Vec::new(alloc),
        place: Place::Nowhere,
    };
    let refused = reader.read_all(text);
    let Reader { files, cases, .. } = reader;
    match refused? {
        Some(line) => Ok(Err(line)),
        None => Ok(Ok(Cases { files, cases })),
    }
}

impl Reader {
    // Takes all lines, up to the first that cannot stand there, and says which that is, counted from 1.
    fn read_all(&mut self, text: &str) -> Result<Option<usize>, NoMemory> {
        for (index, line) in text.split('\n').enumerate() {
            match self.read(index, line) {
                Ok(()) => {}
                Err(Refusal::BadLine) => return Ok(Some(index.saturating_add(1))),
                Err(Refusal::NoMemory) => return Err(NoMemory),
            }
        }
        match self.finish() {
            Ok(()) => Ok(None),
            Err(_) => Err(NoMemory),
        }
    }

    // Takes the line with this number, counted from 0.
    fn read(&mut self, index: usize, line: &str) -> Result<(), Refusal> {
        match line_of(line).ok_or(Refusal::BadLine)? {
            Line::Blank => Ok(()),
            Line::Text { text, times, first } => self.put_text(text, times, first),
            Line::All { name } => self.put_all(name),
            Line::Replace { first, last } => self.replace(first, last),
            other => {
                self.finish()?;
                self.begin(index, other)
            }
        }
    }

    // Puts a text line, so many times.
    fn put_text(&mut self, text: &str, times: u32, first: u32) -> Result<(), Refusal> {
        let into = self.target()?;
        for step in 0..times {
            put_line(into, text.as_bytes(), first.saturating_add(step))?;
        }
        Ok(())
    }

    // Puts the text of a file.
    fn put_all(&mut self, name: &str) -> Result<(), Refusal> {
        let text = self.text_of(name)?;
        self.target()?.extend_from_slice(text.as_slice())?;
        Ok(())
    }

    // Goes on in the place of these lines of the file that the present one is like.
    fn replace(&mut self, first: usize, last: usize) -> Result<(), Refusal> {
        let Place::File(draft) = &mut self.place else {
            return Err(Refusal::BadLine);
        };
        if draft.replace(first, last)? {
            Ok(())
        } else {
            Err(Refusal::BadLine)
        }
    }

    // Where text lines go.
    fn target(&mut self) -> Result<&mut Vec<u8>, Refusal> {
        match &mut self.place {
            Place::Nowhere => Err(Refusal::BadLine),
            Place::File(draft) => Ok(&mut draft.bytes),
            Place::Answer { text, .. } => Ok(text),
        }
    }

    // A copy of the text of a file that was given before.
    fn text_of(&self, name: &str) -> Result<Vec<u8>, Refusal> {
        if let Some(case) = self.cases.last() {
            if let Some(file) = file_of(case.files.as_slice(), name) {
                return Ok(file.bytes.as_slice().to_vec(self.alloc)?);
            }
        }
        let file = file_of(self.files.as_slice(), name).ok_or(Refusal::BadLine)?;
        Ok(file.bytes.as_slice().to_vec(self.alloc)?)
    }

    // Ends what text lines were put into.
    fn finish(&mut self) -> Result<(), Refusal> {
        match mem::replace(&mut self.place, Place::Nowhere) {
            Place::Nowhere => Ok(()),
            Place::File(draft) => self.give(draft.finish()?),
            Place::Answer { code, text } => self.owe(code, Owed::Bytes(text)),
        }
    }

    // Gives a file to the last case, or to all where there is none yet.
    fn give(&mut self, file: File) -> Result<(), Refusal> {
        match self.cases.last_mut() {
            Some(case) => Ok(case.files.push(file)?),
            None => Ok(self.files.push(file)?),
        }
    }

    // Says what the last runs are owed.
    fn owe(&mut self, code: u8, text: Owed) -> Result<(), Refusal> {
        self.open_ask()?.owed = Some(Answer { code, text });
        Ok(())
    }

    // The last runs, which are owed nothing yet.
    fn open_ask(&mut self) -> Result<&mut Ask, Refusal> {
        match self.last_case()?.asks.last_mut() {
            Some(ask) if ask.owed.is_none() => Ok(ask),
            _ => Err(Refusal::BadLine),
        }
    }

    // The case that was begun last.
    fn last_case(&mut self) -> Result<&mut Case, Refusal> {
        self.cases.last_mut().ok_or(Refusal::BadLine)
    }

    // Takes a line that begins something.
    fn begin(&mut self, index: usize, line: Line<'_>) -> Result<(), Refusal> {
        match line {
            Line::File { name } => self.begin_file(name, Vec::new(self.alloc)),
            Line::Like { name, other } => {
                let text = self.text_of(other)?;
                self.begin_file(name, text)
            }
            Line::Case { words } => self.begin_case(index, words),
            Line::Run { words } => self.begin_run(String::from_str(self.alloc, words)?),
            Line::Judge { model } => self.begin_run(format!(in self.alloc;
                "judge {model} written"
            )?),
            Line::Status { code, text } => self.begin_answer(code, text),
            other => self.plan(other),
        }
    }

    // Begins a file, like one with this text.
    fn begin_file(&mut self, name: &str, other: Vec<u8>) -> Result<(), Refusal> {
        let name = String::from_str(self.alloc, name)?;
        self.place = Place::File(Draft::new(name, other));
        Ok(())
    }

    // Begins a case.
    fn begin_case(&mut self, index: usize, words: &str) -> Result<(), Refusal> {
        let case = Case {
            line: index.saturating_add(1),
            words: String::from_str(self.alloc, words)?,
            files: Vec::new(self.alloc),
            count: 1,
            first: 0,
            reads: Plan {
                fails: Vec::new(self.alloc),
                most: MOST,
            },
            writes: Plan {
                fails: Vec::new(self.alloc),
                most: MOST,
            },
            asks: Vec::new(self.alloc),
        };
        Ok(self.cases.push(case)?)
    }

    // Begins a run, which is owed the same as those before it that are owed nothing yet.
    fn begin_run(&mut self, words: String) -> Result<(), Refusal> {
        let alloc = self.alloc;
        let case = self.last_case()?;
        match case.asks.last_mut() {
            Some(ask) if ask.owed.is_none() => ask.runs.push(words)?,
            _ => {
                let runs = vec![in alloc; words]?;
                case.asks.push(Ask { runs, owed: None })?;
            }
        }
        Ok(())
    }

    // Begins what the last runs are owed.
    fn begin_answer(&mut self, code: u8, text: Wanted) -> Result<(), Refusal> {
        match text {
            Wanted::Lines => {
                self.open_ask()?;
                self.place = Place::Answer {
                    code,
                    text: Vec::new(self.alloc),
                };
                Ok(())
            }
            Wanted::Entries(entries) => self.owe(code, Owed::Entries(entries)),
            Wanted::Before => self.owe(code, Owed::Before),
            Wanted::Unlike => self.owe(code, Owed::Unlike),
        }
    }

    // Takes a line on how the runs of a case go.
    fn plan(&mut self, line: Line<'_>) -> Result<(), Refusal> {
        let alloc = self.alloc;
        let case = self.last_case()?;
        match line {
            Line::Each { count, first } if count > 0 => {
                case.count = count;
                case.first = first;
            }
            Line::FailingReads { numbers } => case.reads.fails = calls_of(alloc, numbers)?,
            Line::FailingWrites { numbers } => case.writes.fails = calls_of(alloc, numbers)?,
            Line::Pieces { reads, writes } if reads > 0 && writes > 0 => {
                case.reads.most = reads;
                case.writes.most = writes;
            }
            _ => return Err(Refusal::BadLine),
        }
        Ok(())
    }
}

// The file of this name.
fn file_of<'a>(files: &'a [File], name: &str) -> Option<&'a File> {
    files.iter().find(|file| file.name.as_str() == name)
}

// The numbers of the calls in a text, with blanks between.
fn calls_of(alloc: Global, text: &str) -> Result<Vec<u64>, Refusal> {
    let mut calls = Vec::new(alloc);
    for word in text.split_whitespace() {
        match word.parse::<u64>() {
            Ok(call) => calls.push(call)?,
            Err(_) => return Err(Refusal::BadLine),
        }
    }
    Ok(calls)
}
