//! Runs rows of the action language: it reads each file `*.texts` of a folder (the first word; where there is none,
//! the folder in which it runs), asks the readers and writers of behaviours and guards, and writes for each file how
//! many rows it has, how many hold, and which do not. Its status is 0 where all of them hold, and 1 otherwise, also
//! where there is no file or no row in one.
//!
//! A file of texts is read line by line. Empty lines, and those that begin with `#`, are for the reader. Headings say
//! what holds for the rows below them:
//!
//! - `read` forgets all names; those that are said next are names to read with, and to write with too.
//! - `written`: those that are said next are names to write with, in place of those to read with.
//! - `variables x y`, `objects a b` and `signals Go/0 One/1` say the names, numbered from 0 in this order; behind a
//!   signal's, how many parameters it has.
//! - `marks m k` says the names of marks that are known before each row.
//! - `self 1`, `values 1 2` and `parameters 5 -5` say the number of the running object, the values of its variables,
//!   and the parameters.
//! - `rows ASKED of FORMS` says what is owed of the texts below, which are `guards`, `behaviours` or `steps`; or of
//!   several, as `behaviours and steps`, in each of which the row must hold.
//!
//! A row is `TEXT => OWED`. In both, bytes may be spelled as [`pssm_cases::put_spelled`] reads them (`\x20`, and
//! `\{64}x` for 64 times `x`), and `\(64 x:=1;\)` stands for 64 times `x:=1;`. Where a text is refused its fault is
//! owed and the byte at which it stands, as `Syntax 4`. Otherwise what is owed is what is asked:
//!
//! - `spellings`: the canonical spelling of what the text is read as, that of each step in brackets; or `read`,
//!   whatever it is read as.
//! - `trees`: the tree in reverse Polish form: `5`, `v0` (a variable), `$1` (a parameter); `+ - *` behind two
//!   expressions; a relation behind two expressions; `! && ||` behind guards; behind its parts `:=0` (an assignment),
//!   `0/2` (a mark and how many arguments it has), `1.0/2` or `self.0/2` (a receiver, a signal, and how many
//!   arguments), `if1` or `if1/0` (how many statements each block has); each step in brackets.
//! - `marks`: the tree or the fault, then a bar and the names of all marks after it; they stay known for the next
//!   row.
//! - `worth`: of a guard `true` or `false`; of a behaviour the values of the variables after it, and its outputs as a
//!   journal spells them.
//! - `comparisons`: of two texts with ` & ` between them, `equal` or `different`: whether a copy of what the one is
//!   read as equals what the other is read as.
//!
//! A line that is none of these, or owes nothing, counts as a row that does not hold.
#![tactic(auto)]

mod escapes;
mod file;
mod place;
mod polish;
mod reading;
mod row;
mod stop;
mod worth;

use pssm_cases::{Outcome, Tally, all_hold, folder_of, names_in, report};
use std::alloc::AllocError;
use std::process::ExitCode;
use std::{fs, io};

fn main(rt: HostRuntime) -> io::Result<ExitCode> {
    let folder = folder_of(&rt)?;
    let mut tallies = Vec::new(rt.alloc());
    for name in names_in(&rt, folder.as_str(), ".texts")? {
        let outcomes = outcomes_of(&rt, folder.as_str(), name.as_str())?;
        tallies.push(Tally { name, outcomes })?;
    }
    print!(rt; "{}", report(rt.alloc(), tallies.as_slice())?)?;
    if all_hold(tallies.as_slice()) {
        Ok(ExitCode::SUCCESS)
    } else {
        Ok(ExitCode::FAILURE)
    }
}

// What became of the rows of a file.
fn outcomes_of(rt: &HostRuntime, folder: &str, name: &str) -> Result<Vec<Outcome>, AllocError> {
    let path = format!(in rt.alloc(); "{folder}/{name}")?;
    match fs::read_to_string(rt, path.as_str()) {
        Ok(text) => file::outcomes(rt.alloc(), text.as_str()),
        Err(_) => file::unread(rt.alloc()),
    }
}
