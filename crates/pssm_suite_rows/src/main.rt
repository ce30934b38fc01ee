//! Judges the vectors of the suite over `pssm`, and says which of them hold. The suite is the folder that its word
//! names, or the one that it runs in.
//!
//! It has a folder for each group, with models and journals, a page for the reader, and the file `INDEX` with a line
//! for each vector. Such a line has six parts with a tab between: group, model, journal, the answer that is owed, what
//! the vector shows, and the section of a standard behind it. A vector holds where the words `judge`, its model and its
//! journal give this answer and a line feed, and status 0 with `accept`, and 1 with `refuse`.
//!
//! A vector whose files cannot be read does not hold, and as one that does not hold counts also a line that is none of
//! an index, a file of a group that no line names, and a file beside the groups.
#![tactic(auto)]

mod index;
mod judging;

use crate::index::{Vector, vectors_of};
use crate::judging::failure_of;
use pssm_cases::{Outcome, Tally, all_hold, folder_of, names_in, report_of};
use std::alloc::{AllocError as NoMemory, Global};
use std::process::ExitCode;
use std::rt::Files;
use std::sync::Wait;
use std::thread::Threads;
use std::{fs, io};

// The name of the index.
const INDEX: &str = "INDEX";

// The name of the page for the reader.
const PAGE: &str = "README.md";

fn main(rt: HostRuntime) -> io::Result<ExitCode> {
    let folder = folder_of(&rt)?;
    let path = format!(in rt.alloc(); "{folder}/{INDEX}")?;
    let text = fs::read_to_string(&rt, path.as_str())?;
    let tallies = match vectors_of(rt.alloc(), text.as_str())? {
        Ok(vectors) => tallies_of(&rt, folder.as_str(), vectors.as_slice())?,
        Err(line) => bad_line(rt.alloc(), line)?,
    };
    print!(rt; "{}", report_of(rt.alloc(), "groups", tallies.as_slice())?)?;
    if all_hold(tallies.as_slice()) {
        Ok(ExitCode::SUCCESS)
    } else {
        Ok(ExitCode::FAILURE)
    }
}

// What becomes of an index with a line that is none.
fn bad_line(alloc: Global, line: usize) -> Result<Vec<Tally>, NoMemory> {
    let outcome = Outcome {
        line,
        words: String::from_str(alloc, "this is no line of an index")?,
        failure: Some(String::from_str(alloc, "nothing was judged")?),
    };
    let name = String::from_str(alloc, INDEX)?;
    let outcomes = vec![in alloc; outcome]?;
    Ok(vec![in alloc; Tally { name, outcomes }]?)
}

// What becomes of the vectors, group by group.
fn tallies_of<R: Threads + Wait + Sync + Files + AllocGlobal + Clone + Drop>(
    rt: &R,
    folder: &str,
    vectors: &[Vector<'_>],
) -> io::Result<Vec<Tally>> {
    let mut tallies = Vec::new(rt.alloc());
    for name in groups_of(rt, folder, vectors)? {
        let mut outcomes = Vec::new(rt.alloc());
        for vector in vectors
            .iter()
            .filter(|vector| vector.group == name.as_str())
        {
            outcomes.push(outcome_of(rt, folder, vector)?)?;
        }
        put_strays(rt, folder, name.as_str(), vectors, &mut outcomes)?;
        tallies.push(Tally { name, outcomes })?;
    }
    Ok(tallies)
}

// The names of the groups: whatever lies in the folder, but for the index and the page, and the groups of vectors that
// do not lie there.
fn groups_of<R: Files + AllocGlobal + Clone + Drop>(
    rt: &R,
    folder: &str,
    vectors: &[Vector<'_>],
) -> io::Result<Vec<String>> {
    let mut groups = Vec::new(rt.alloc());
    for name in names_in(rt, folder, "")? {
        if name.as_str() != INDEX && name.as_str() != PAGE {
            groups.push(name)?;
        }
    }
    for vector in vectors {
        if !groups.iter().any(|group| group.as_str() == vector.group) {
            groups.push(String::from_str(rt.alloc(), vector.group)?)?;
        }
    }
    Ok(groups)
}

// What becomes of a vector.
fn outcome_of<R: Threads + Wait + Sync + Files + AllocGlobal>(
    rt: &R,
    folder: &str,
    vector: &Vector<'_>,
) -> Result<Outcome, NoMemory> {
    Ok(Outcome {
        line: vector.line,
        words: String::from_str(rt.alloc(), vector.words)?,
        failure: failure_of(rt, folder, vector)?,
    })
}

// Puts an outcome for each file of a group that no line names, or one where the group has no folder.
fn put_strays<R: Files + AllocGlobal + Clone + Drop>(
    rt: &R,
    folder: &str,
    group: &str,
    vectors: &[Vector<'_>],
    outcomes: &mut Vec<Outcome>,
) -> Result<(), NoMemory> {
    let path = format!(in rt.alloc(); "{folder}/{group}")?;
    let Ok(files) = names_in(rt, path.as_str(), "") else {
        return put_stray(
            rt.alloc(),
            group,
            "this is no folder that can be read",
            outcomes,
        );
    };
    for file in files {
        if !vectors
            .iter()
            .any(|vector| vector.names(group, file.as_str()))
        {
            put_stray(
                rt.alloc(),
                file.as_str(),
                "no line of the index names it",
                outcomes,
            )?;
        }
    }
    Ok(())
}

// Puts the outcome of what should not lie there.
fn put_stray(
    alloc: Global,
    name: &str,
    why: &str,
    outcomes: &mut Vec<Outcome>,
) -> Result<(), NoMemory> {
    outcomes.push(Outcome {
        line: 0,
        words: String::from_str(alloc, name)?,
        failure: Some(String::from_str(alloc, why)?),
    })?;
    Ok(())
}
