//! What a book answers.
use pssm_model::Row;
use pssm_semantics::{Act, Args, ObjectId, Task};

/// A task that is handed out, with what its behaviour is to be run on.
///
/// `act` is the behaviour, `store` has the values of the object's variables, and `params` the
/// parameters of its step; those of a do step are zeros.
#[derive(Drop)]
pub struct Job {
    pub object: ObjectId,
    pub task: Task,
    pub act: Act,
    pub store: Row<i64>,
    pub params: Args,
}

/// What there was to be claimed.
///
/// `Job`: a task. `Moved`: nothing; the journal has gone on by an entry that runs no behaviour.
/// `Busy`: nothing until one of the tasks that are handed out is committed; `out` is how many they
/// are. `Quiet`: nothing any more. `Full`: the journal has no room.
#[derive(Drop)]
pub enum Claimed {
    Job(Job),
    Moved,
    Busy { out: u32 },
    Quiet,
    Full,
}

/// What came of a commit.
///
/// `Done`: the journal has the task's entry. `Gone`: the work is not, or no more, that of a task
/// which is handed out. `Stale`: a variable has another value, `kept`, than the one that the work
/// began with, `carried`. `Full`: the journal has no room.
#[derive(Clone, Copy, PartialEq, Eq)]
pub enum Committed {
    Done,
    Gone {
        task: Task,
    },
    Stale {
        variable: u16,
        kept: i64,
        carried: i64,
    },
    Full,
}
