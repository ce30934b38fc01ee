//! Whether outputs are those of a behaviour.
ghost use Rattle.std.specs.Prelude.{◌≡◌, ◌≤◌, ◌↔◌, length, take, All, IsTrue, IfOk, IfSome, []};
ghost use Rattle.pssm_semantics.specs.declared.entry.Out.TheVariants as out_of;
ghost use Rattle.pssm_semantics.specs.Arguments.{ActArgsFit};
ghost use Rattle.pssm_semantics.specs.Values.{after_stmt, after_stmts, outcome_of, values_of};
ghost use Rattle.pssm_semantics.specs.inner.Running.{so_far};

use crate::args::Args;
use crate::entry::{ObjectId, Out};
use crate::tree::{Act, Expr, Stmt};
use crate::value::{truth, value};
use crate::worked::outcome;
use pssm_model::{MarkId, Same, SignalId};
use std::alloc::{AllocError as NoMemory, Global};

/// Whether these are the outputs that a behaviour of an object makes on the values of its variables and on the
/// parameters of a step (UML 2.5.1, 13.2.3), as `run` runs it.
///
/// Takes no memory where they are and the behaviour assigns nothing.
pub fn makes(
    alloc: Global,
    own: ObjectId,
    act: &Act,
    store: &[i64],
    params: &Args,
    outs: &[Out],
) -> Result<bool, NoMemory>
    requires { ActArgsFit act.now }
    ensures { IfOk result (λ same. IsTrue same ↔ (outs.now ≡ (outcome_of act.now own store.now params.now).outs)) }
{
    if makes_all(own, act.stmts.as_slice(), store, params, outs) {
        return Ok(true);
    }
    let outcome = outcome(alloc, own, act, store, params)?;
    Ok(same_outs(outs, outcome.outs.as_slice()))
}

// Whether the statements assign nothing and these are the outputs that they make.
fn makes_all(own: ObjectId, stmts: &[Stmt], store: &[i64], params: &Args, outs: &[Out]) -> bool
    ensures { IsTrue result → outs.now ≡ (after_stmts stmts.now own params.now (so_far store.now [])).outs }
{
    match made_by_block(own, stmts, store, params, outs, 0) {
        Some(made) => made == outs.len(),
        None => false,
    }
}

// How many of the outputs are made after the statement, where it assigns nothing and makes the next ones of them.
#[cycle(making)]
fn made_by_stmt(
    own: ObjectId,
    stmt: &Stmt,
    store: &[i64],
    params: &Args,
    outs: &[Out],
    before: usize,
) -> Option<usize>
    requires { before ≤ length outs.now }
    ensures some { IfSome result (λ after. after ≤ length outs.now) }
    ensures makes { IfSome result (λ after. so_far store.now (take after outs.now) ≡ after_stmt stmt.now own params.now (so_far store.now (take before outs.now))) }
{
    match stmt {
        Stmt::Assign { .. } => None,
        Stmt::Choose {
            condition,
            body,
            otherwise,
        } => {
            if truth(condition, store, params) {
                return made_by_block(own, body.as_slice(), store, params, outs, before);
            }
            match otherwise {
                Some(rest) => made_by_block(own, rest.as_slice(), store, params, outs, before),
                None => Some(before),
            }
        }
        Stmt::Send {
            object,
            signal,
            args,
        } => {
            let object = object.unwrap_or(own);
            if before < outs.len()
                && is_send(
                    &outs[before],
                    object,
                    *signal,
                    args.as_slice(),
                    store,
                    params,
                )
            {
                Some(before + 1)
            } else {
                None
            }
        }
        Stmt::Mark { mark, args } => {
            if before < outs.len()
                && is_mark(&outs[before], *mark, args.as_slice(), store, params)
            {
                Some(before + 1)
            } else {
                None
            }
        }
    }
}

// The same for the statements in order.
#[cycle(making)]
fn made_by_block(
    own: ObjectId,
    stmts: &[Stmt],
    store: &[i64],
    params: &Args,
    outs: &[Out],
    before: usize,
) -> Option<usize>
    requires { before ≤ length outs.now }
    ensures some { IfSome result (λ after. after ≤ length outs.now) }
    ensures makes { IfSome result (λ after. so_far store.now (take after outs.now) ≡ after_stmts stmts.now own params.now (so_far store.now (take before outs.now))) }
{
    let mut made = before;
    for stmt in stmts {
        made = made_by_stmt(own, stmt, store, params, outs, made)?;
    }
    Some(made)
}

// Whether the output is this signal to this object, with the values of these arguments.
fn is_send(
    out: &Out,
    object: ObjectId,
    signal: SignalId,
    args: &[Expr],
    store: &[i64],
    params: &Args,
) -> bool
    ensures { IsTrue result → out.now ≡ out_of.Send object signal (values_of args.now store.now params.now) }
{
    match out {
        Out::Mark { .. } => false,
        Out::Send {
            object: other,
            signal: second,
            args: values,
        } => {
            *other == object
                && *second == signal
                && are_values(values.as_slice(), args, store, params)
        }
    }
}

// Whether the output is this mark, with the values of these arguments.
fn is_mark(out: &Out, mark: MarkId, args: &[Expr], store: &[i64], params: &Args) -> bool
    ensures { IsTrue result → out.now ≡ out_of.Mark mark (values_of args.now store.now params.now) }
{
    match out {
        Out::Send { .. } => false,
        Out::Mark {
            mark: other,
            args: values,
        } => *other == mark && are_values(values.as_slice(), args, store, params),
    }
}

// Whether the numbers are the values of the expressions.
fn are_values(values: &[i64], exprs: &[Expr], store: &[i64], params: &Args) -> bool
    ensures { IsTrue result → values.now ≡ values_of exprs.now store.now params.now }
{
    if values.len() != exprs.len() {
        return false;
    }
    for i in 0..exprs.len() {
        if values[i] != value(&exprs[i], store, params) {
            return false;
        }
    }
    true
}

// Whether two lists of outputs are one.
fn same_outs(a: &[Out], b: &[Out]) -> bool
    ensures { IsTrue result ↔ (a.now ≡ b.now) }
{
    if a.len() != b.len() {
        return false;
    }
    for i in 0..a.len() {
        if !a[i].same(&b[i]) {
            return false;
        }
    }
    true
}
