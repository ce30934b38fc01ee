//! How the statements of a behaviour take effect, one after the other.
ghost use Rattle.std.specs.Prelude.{◌≡◌, ◌≤◌, length, All, IfOk, slice_set};
ghost use Rattle.pssm_semantics.specs.Arguments.{StmtArgsFit};
ghost use Rattle.pssm_semantics.specs.Values.{after_stmt, after_stmts, values_of};
ghost use Rattle.pssm_semantics.specs.inner.Running.{so_far};

use crate::args::Args;
use crate::entry::{ObjectId, Out};
use crate::tree::{Expr, Stmt};
use crate::value::{truth, value};
use std::alloc::{AllocError as NoMemory, Global};

/// An execution so far: the values of the variables, and the outputs in the order made.
#[derive(Drop)]
pub(crate) struct Execution {
    pub(crate) store: Vec<i64>,
    pub(crate) outs: Vec<Out>,
}

impl Execution {
    /// Gives a variable a value.
    fn assign(&mut self, variable: u16, value: i64)
        ensures store { self.new.store.items ≡ slice_set self.old.store.items variable value }
        ensures outs { self.new.outs.items ≡ self.old.outs.items }
    {
        let index = usize::from(variable);
        if index < self.store.len() {
            self.store[index] = value;
        }
    }
}

/// The values of the arguments of a send or a mark.
fn values(alloc: Global, args: &[Expr], store: &[i64], params: &Args) -> Result<Args, NoMemory>
    requires { length args.now ≤ 8 }
    ensures { IfOk result (λ made. made ≡ values_of args.now store.now params.now) }
{
    let mut values = Vec::with_capacity(alloc, args.len())?;
    for expr in args {
        values.push(value(expr, store, params))?;
    }
    Ok(Args::from_vec(values))
}

#[cycle(running)]
fn run_stmt(
    alloc: Global,
    own: ObjectId,
    stmt: &Stmt,
    params: &Args,
    execution: &mut Execution,
) -> Result<(), NoMemory>
    requires { StmtArgsFit stmt.now }
    ensures { IfOk result (λ _. so_far execution.new.store.items execution.new.outs.items ≡ after_stmt stmt.now own params.now (so_far execution.old.store.items execution.old.outs.items)) }
{
    match stmt {
        Stmt::Assign {
            variable,
            value: expr,
        } => {
            let number = value(expr, execution.store.as_slice(), params);
            execution.assign(*variable, number);
            Ok(())
        }
        Stmt::Choose {
            condition,
            body,
            otherwise,
        } => {
            if truth(condition, execution.store.as_slice(), params) {
                return run_block(alloc, own, body.as_slice(), params, execution);
            }
            match otherwise {
                Some(rest) => run_block(alloc, own, rest.as_slice(), params, execution),
                None => Ok(()),
            }
        }
        Stmt::Send {
            object,
            signal,
            args,
        } => {
            let args = values(alloc, args.as_slice(), execution.store.as_slice(), params)?;
            execution.outs.push(Out::Send {
                object: object.unwrap_or(own),
                signal: *signal,
                args,
            })?;
            Ok(())
        }
        Stmt::Mark { mark, args } => {
            let args = values(alloc, args.as_slice(), execution.store.as_slice(), params)?;
            execution.outs.push(Out::Mark { mark: *mark, args })?;
            Ok(())
        }
    }
}

/// The statements, in order.
#[cycle(running)]
pub(crate) fn run_block(
    alloc: Global,
    own: ObjectId,
    stmts: &[Stmt],
    params: &Args,
    execution: &mut Execution,
) -> Result<(), NoMemory>
    requires { All StmtArgsFit stmts.now }
    ensures { IfOk result (λ _. so_far execution.new.store.items execution.new.outs.items ≡ after_stmts stmts.now own params.now (so_far execution.old.store.items execution.old.outs.items)) }
{
    for stmt in stmts {
        run_stmt(alloc, own, stmt, params, execution)?;
    }
    Ok(())
}
