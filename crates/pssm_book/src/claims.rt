//! The tasks that are handed out.
ghost use Rattle.std.specs.Prelude.{◌≡◌, ◌↔◌, IsTrue, Contains};
ghost use Rattle.std.specs.List.{list_any};
ghost use Rattle.pssm_book.specs.inner.Claims.{is_task as tasks_same, is_claim as claims_same};

use crate::desk::Desk;
use pssm_semantics::{ObjectId, Task};

impl Desk {
    ghost use Rattle.pssm_book.specs.inner.Keeping.{IsInOrder, HasGivenBack};

    /// Whether the object has this task handed out.
    pub fn has_claim(&self, object: ObjectId, task: Task) -> bool
        ensures { IsTrue result ↔ Contains self.now.claims.items (object, task) }
    {
        has_claim(self.claims.as_slice(), (object, task))
    }

    /// Takes the task back, if the object has it handed out.
    pub fn give_back(&mut self, object: ObjectId, task: Task)
        requires { IsInOrder self.old }
        ensures order { IsInOrder self.new }
        ensures given { HasGivenBack self.old object task self.new }
    {
        self.claims.retain(|claim: &(ObjectId, Task)| !is_claim(*claim, (object, task)));
    }
}

/// Whether the claim is among these.
pub fn has_claim(claims: &[(ObjectId, Task)], at: (ObjectId, Task)) -> bool
    ensures { IsTrue result ↔ Contains claims.now at }
{
    is_among(claims, at)
}

// The same, as a value.
fn is_among(claims: &[(ObjectId, Task)], at: (ObjectId, Task)) -> bool
    ensures { result ≡ list_any (claims_same at) claims.now }
{
    claims.iter().any(|claim| is_claim(at, *claim))
}

/// Whether the two claims are one and the same.
pub fn same_claim(one: (ObjectId, Task), other: (ObjectId, Task)) -> bool
    ensures { IsTrue result ↔ (one ≡ other) }
{
    is_claim(one, other)
}

// The same, as a value.
fn is_claim(one: (ObjectId, Task), other: (ObjectId, Task)) -> bool
    ensures { result ≡ claims_same one other }
{
    one.0 == other.0 && is_task(one.1, other.1)
}

// Whether the two tasks are one and the same.
fn is_task(one: Task, other: Task) -> bool
    ensures { result ≡ tasks_same one other }
{
    match (one, other) {
        (Task::Exit(state), Task::Exit(another)) => state == another,
        (Task::Effect(transition), Task::Effect(another)) => transition == another,
        (Task::Enter(state), Task::Enter(another)) => state == another,
        (Task::DoStep(state, step), Task::DoStep(another, further)) => {
            state == another && step == further
        }
        _ => false,
    }
}
