//! What a behaviour leaves of the variables, which change where they stand.
ghost use Rattle.std.specs.Prelude.{◌≡◌, slice_set};
ghost use Rattle.pssm_semantics.specs.declared.entry.ObjectId.{ObjectId};
ghost use Rattle.pssm_semantics.specs.Values.{outcome_of};
ghost use Rattle.pssm_semantics.specs.inner.Running.{IsChangedBy, IsChangedByAll};

use crate::args::Args;
use crate::tree::{Act, Stmt};
use crate::value::{truth, value};

/// Changes the variables of an object as a behaviour does on the parameters of a step (UML 2.5.1, 13.2.3).
///
/// They become what `run` has in its outcome, whichever object it is; the outputs are not made. Takes no memory.
pub fn change_store(act: &Act, store: &mut [i64], params: &Args)
    ensures { (own : ObjectId) → store.new ≡ (outcome_of act.now own store.old params.now).store }
{
    change_by_block(act.stmts.as_slice(), store, params);
}

// Gives a variable a value; one past the last stays 0.
fn assign(store: &mut [i64], variable: u16, value: i64)
    ensures { store.new ≡ slice_set store.old variable value }
{
    let index = usize::from(variable);
    if index < store.len() {
        store[index] = value;
    }
}

// What a statement leaves of the variables: one that only makes an output leaves them as they were.
#[cycle(changing)]
fn change_by_stmt(stmt: &Stmt, store: &mut [i64], params: &Args)
    ensures { IsChangedBy stmt.now params.now store.old store.new }
{
    match stmt {
        Stmt::Assign {
            variable,
            value: expr,
        } => {
            let number = value(expr, store, params);
            assign(store, *variable, number);
        }
        Stmt::Choose {
            condition,
            body,
            otherwise,
        } => {
            if truth(condition, store, params) {
                change_by_block(body.as_slice(), store, params);
            } else if let Some(rest) = otherwise {
                change_by_block(rest.as_slice(), store, params);
            }
        }
        Stmt::Send { .. } | Stmt::Mark { .. } => {}
    }
}

// What the statements, in order, leave of the variables.
#[cycle(changing)]
fn change_by_block(stmts: &[Stmt], store: &mut [i64], params: &Args)
    ensures { IsChangedByAll stmts.now params.now store.old store.new }
{
    for stmt in stmts {
        change_by_stmt(stmt, store, params);
    }
}
