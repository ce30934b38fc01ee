//! What a book answers on one thread.
ghost use Rattle.std.specs.Prelude.{◌≡◌, ◌≤◌, ◌<◌};

use crate::table::Table;
use pssm_model::{TransId, VertexId};
use pssm_semantics::{ObjectId, Task};
use pssm_trials::{BOTH, Failure, surely};
use std::alloc::Global;
use std::marker::Brand;
use std::sync::ledger::{Blank, Ledger};

// `BOTH`, but that the first region leads to the object's end.
const ENDING: &[u8] = b"pssm-flat 1\nsignal Go 0\nclass M\nobject a M\nmachine M\nvar x 0\n\
    region r0 top\nregion r1 v1\nregion r2 v1\n\
    vertex v0 r0 initial\nvertex v1 r0 state S\nvertex v2 r1 initial\nvertex v3 r1 state P\n\
    vertex v4 r1 terminate\nvertex v5 r2 initial\nvertex v6 r2 state R\nvertex v7 r2 state R2\n\
    transition t0 v0 v1 external\ntransition t1 v2 v3 external\ntransition t2 v5 v6 external\n\
    transition t3 v3 v4 external\non Go\neffect x := x + 1;\n\
    transition t4 v6 v7 external\non Go\neffect x := x + 1;\nend\n";

// The effects of the start's two regions, and those of Go.
const T0: Task = Task::Effect(TransId(0));

const T1: Task = Task::Effect(TransId(1));

const T2: Task = Task::Effect(TransId(2));

const T3: Task = Task::Effect(TransId(3));

const T4: Task = Task::Effect(TransId(4));

/// A row of a book.
#[derive(Clone, Copy)]
pub enum BookRow {
    /// Of two effects that began with the same value the second is stale; it is done once it is claimed and run anew, and
    /// then all is quiet.
    Stale,
    /// A stale commit is told also where the journal is full.
    StaleInFull,
    /// Of two commits for which there is room for one the second is full, and its task is given back.
    Full,
    /// A book with no room is full at once.
    NoRoom,
    /// What is not claimed is gone, whatever it is.
    Unclaimed,
    /// What an object had out when it ended is gone.
    Ended,
    /// A task that is released is handed out again.
    Released,
    /// Where all is handed out, the answer says how much.
    Busy,
}

/// Tries a row.
pub fn try_on_book(alloc: Global, row: BookRow) -> Result<(), Failure> {
    try_on::<Brand>(alloc, Blank::new(1), row)
}

// The same, with the blank from which the ledger of the row's book is opened.
fn try_on<L: Ledger>(alloc: Global, blank: Blank, row: BookRow) -> Result<(), Failure>
    requires name { blank.name ≡ L.name }
    requires parts { blank.parts ≡ L.parts }
    requires some { 0 < blank.parts }
{
    let model = match row {
        BookRow::Ended => ENDING,
        _ => BOTH,
    };
    let has_go = !matches!(row, BookRow::Full | BookRow::Released | BookRow::Busy);
    let mut table = Table::<L>::new(alloc, blank, model, has_go, limit_of(row))?;
    match row {
        BookRow::Stale => stale(alloc, &mut table),
        BookRow::StaleInFull => stale_in_full(&mut table),
        BookRow::Full => full(&mut table),
        BookRow::NoRoom => table.claim_owes("full"),
        BookRow::Unclaimed => unclaimed(&mut table),
        BookRow::Ended => ended(&mut table),
        BookRow::Released => released(&mut table),
        BookRow::Busy => busy(&mut table),
    }
}

// How many entries a row's book has room for.
fn limit_of(row: BookRow) -> u32
    ensures { result ≤ 1000000 }
{
    match row {
        // 14 entries come before the two effects
        BookRow::StaleInFull => 15,
        // 6 entries come before the two effects of the regions
        BookRow::Full => 7,
        BookRow::NoRoom => 0,
        _ => 100,
    }
}

fn stale<L: Ledger>(alloc: Global, table: &mut Table<L>) -> Result<(), Failure> {
    table.hold(&[T3, T4])?;
    table.claim_owes("busy 2")?;
    table.commit_owes(T3, "done")?;
    table.commit_owes(T4, "stale variable 0 kept 1 carried 0")?;
    // it was given back with that answer, and is handed out anew
    table.commit_owes(T4, "gone effect t4")?;
    table.hold(&[T4])?;
    table.commit_owes(T4, "done")?;
    table.end_owes("quiet")?;
    table.claim_owes("quiet")?;
    table.entries_owe(18)?;
    surely(alloc, table.posted() == 1, "the stimulus is not posted")?;
    surely(alloc, table.is_quiet(), "the run is not quiet")?;
    // the post is the one output
    table.terms_owe(100, 1, 1)
}

fn stale_in_full<L: Ledger>(table: &mut Table<L>) -> Result<(), Failure> {
    table.hold(&[T3, T4])?;
    table.commit_owes(T3, "done")?;
    table.claim_owes("full")?;
    table.commit_owes(T4, "stale variable 0 kept 1 carried 0")
}

fn full<L: Ledger>(table: &mut Table<L>) -> Result<(), Failure> {
    table.hold(&[T1, T2])?;
    table.commit_owes(T1, "done")?;
    table.commit_owes(T2, "full")?;
    table.commit_owes(T2, "gone effect t2")?;
    table.claim_owes("full")?;
    table.entries_owe(7)
}

fn unclaimed<L: Ledger>(table: &mut Table<L>) -> Result<(), Failure> {
    table.hold(&[T0])?;
    // another task of the object, one that it does not have, and the task itself once it is done
    table.commit_as(T1, T0, "gone effect t1")?;
    table.commit_as(Task::Exit(VertexId(65535)), T0, "gone exit v65535")?;
    table.commit_as(Task::DoStep(VertexId(1), 9), T0, "gone do v1 9")?;
    table.commit_owes(T0, "done")?;
    table.commit_owes(T0, "gone effect t0")
}

fn ended<L: Ledger>(table: &mut Table<L>) -> Result<(), Failure> {
    table.hold(&[T3, T4])?;
    table.commit_owes(T3, "done")?;
    table.commit_owes(T4, "gone effect t4")?;
    table.end_owes("quiet")?;
    // up to the two exits, and the effect that ends the object
    table.entries_owe(15)
}

fn released<L: Ledger>(table: &mut Table<L>) -> Result<(), Failure> {
    table.hold(&[T0])?;
    // an object that there is not, and a task that is not claimed: nothing changes
    table.release(ObjectId(255), T0);
    table.release(ObjectId(0), T1);
    table.claim_owes("busy 1")?;
    table.release(ObjectId(0), T0);
    table.commit_owes(T0, "gone effect t0")?;
    table.claim_owes("job effect t0")?;
    table.commit_owes(T0, "done")?;
    table.end_owes("quiet")?;
    table.entries_owe(10)
}

fn busy<L: Ledger>(table: &mut Table<L>) -> Result<(), Failure> {
    table.hold(&[T0])?;
    table.claim_owes("busy 1")?;
    table.claim_owes("busy 1")?;
    table.commit_owes(T0, "done")?;
    table.hold(&[T1, T2])?;
    table.claim_owes("busy 2")?;
    table.commit_owes(T2, "done")?;
    // the entry that the effect leads to
    table.claim_owes("job enter v6")?;
    table.claim_owes("busy 2")
}
