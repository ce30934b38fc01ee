//! What the headings of a file of texts have said so far.

use crate::stop::Stop;
use pssm_acts::{Names, ObjectId, SignalDecl};
use pssm_model::{Row, Text};
use std::alloc::{AllocError, Global};
use std::mem;

// What the texts of rows are.
#[derive(Clone, Copy)]
pub(crate) enum Form {
    Guards,
    Behaviours,
    Steps,
}

// What is owed of a text.
#[derive(Clone, Copy)]
pub(crate) enum Asked {
    Spellings,
    Trees,
    Marks,
    Worth,
    Comparisons,
}

// The names that texts may use, and the marks that are known.
#[derive(Drop)]
pub(crate) struct Known {
    pub(crate) names: Names,
    pub(crate) marks: Vec<Text>,
}

impl Known {
    fn new(alloc: Global) -> Known {
        Known {
            names: Names {
                vars: Row::from_vec(Vec::new(alloc)),
                objects: Row::from_vec(Vec::new(alloc)),
                signals: Row::from_vec(Vec::new(alloc)),
            },
            marks: Vec::new(alloc),
        }
    }

    // Takes in the names of a kind: variables, objects, signals or marks.
    fn name(&mut self, alloc: Global, kind: &str, words: &str) -> Result<(), Stop> {
        match kind {
            "variables" => self.names.vars = Row::from_vec(texts(alloc, words)?),
            "objects" => self.names.objects = Row::from_vec(texts(alloc, words)?),
            "signals" => self.names.signals = Row::from_vec(signals(alloc, words)?),
            _ => self.marks = texts(alloc, words)?,
        }
        Ok(())
    }
}

// What holds for the rows below: the names to read with, other names to write with, what is run on, and what is owed
// of which forms.
#[derive(Drop)]
pub(crate) struct Place {
    pub(crate) reading: Known,
    pub(crate) writing: Option<Known>,
    pub(crate) own: ObjectId,
    pub(crate) values: Vec<i64>,
    pub(crate) params: Vec<i64>,
    pub(crate) asked: Asked,
    pub(crate) forms: Vec<Form>,
}

impl Place {
    // Before the first heading.
    pub(crate) fn new(alloc: Global) -> Place {
        Place {
            reading: Known::new(alloc),
            writing: None,
            own: ObjectId(0),
            values: Vec::new(alloc),
            params: Vec::new(alloc),
            asked: Asked::Spellings,
            forms: Vec::new(alloc),
        }
    }

    // Takes in a heading.
    pub(crate) fn note(&mut self, alloc: Global, line: &str) -> Result<(), Stop> {
        let (word, rest) = line.split_once(" ").unwrap_or((line, ""));
        match word {
            "read" => self.forget(alloc),
            "written" => drop(self.writing.replace(Known::new(alloc))),
            "variables" | "objects" | "signals" | "marks" => {
                return self.known().name(alloc, word, rest);
            }
            "self" => self.own = ObjectId(rest.parse::<u8>().ok().ok_or(Stop::Unread)?),
            "values" => self.values = numbers(alloc, rest)?,
            "parameters" => self.params = numbers(alloc, rest)?,
            "rows" => return self.rows(alloc, rest),
            _ => return Err(Stop::Unread),
        }
        Ok(())
    }

    // Forgets all names.
    fn forget(&mut self, alloc: Global) {
        drop(mem::replace(&mut self.reading, Known::new(alloc)));
        drop(self.writing.take());
    }

    // The names that the headings speak of.
    fn known(&mut self) -> &mut Known {
        match &mut self.writing {
            Some(known) => known,
            None => &mut self.reading,
        }
    }

    // What is owed of which forms, as `spellings of behaviours and steps`.
    fn rows(&mut self, alloc: Global, words: &str) -> Result<(), Stop> {
        let (asked, forms) = words.split_once(" of ").ok_or(Stop::Unread)?;
        self.asked = asked_of(asked).ok_or(Stop::Unread)?;
        self.forms = forms_of(alloc, forms)?;
        Ok(())
    }
}

// The forms that stand with `and` between them.
fn forms_of(alloc: Global, words: &str) -> Result<Vec<Form>, Stop> {
    let mut forms = Vec::new(alloc);
    for word in words.split(" and ") {
        forms.push(form_of(word).ok_or(Stop::Unread)?)?;
    }
    Ok(forms)
}

fn asked_of(word: &str) -> Option<Asked> {
    match word {
        "spellings" => Some(Asked::Spellings),
        "trees" => Some(Asked::Trees),
        "marks" => Some(Asked::Marks),
        "worth" => Some(Asked::Worth),
        "comparisons" => Some(Asked::Comparisons),
        _ => None,
    }
}

fn form_of(word: &str) -> Option<Form> {
    match word {
        "guards" => Some(Form::Guards),
        "behaviours" => Some(Form::Behaviours),
        "steps" => Some(Form::Steps),
        _ => None,
    }
}

fn texts(alloc: Global, words: &str) -> Result<Vec<Text>, AllocError> {
    let mut texts = Vec::new(alloc);
    for word in words.split_whitespace() {
        texts.push(Text::from_vec(word.as_bytes().to_vec(alloc)?))?;
    }
    Ok(texts)
}

fn numbers(alloc: Global, words: &str) -> Result<Vec<i64>, Stop> {
    let mut numbers = Vec::new(alloc);
    for word in words.split_whitespace() {
        numbers.push(word.parse::<i64>().ok().ok_or(Stop::Unread)?)?;
    }
    Ok(numbers)
}

// Signals, each with how many parameters it has, as `Go/0 One/1`.
fn signals(alloc: Global, words: &str) -> Result<Vec<SignalDecl>, Stop> {
    let mut signals = Vec::new(alloc);
    for word in words.split_whitespace() {
        signals.push(signal(alloc, word)?)?;
    }
    Ok(signals)
}

// A signal and how many parameters it has, as `One/1`.
fn signal(alloc: Global, word: &str) -> Result<SignalDecl, Stop> {
    let (name, count) = word.split_once("/").ok_or(Stop::Unread)?;
    let count = count.parse::<u8>().ok().ok_or(Stop::Unread)?;
    Ok(SignalDecl {
        name: Text::from_vec(name.as_bytes().to_vec(alloc)?),
        count,
    })
}
