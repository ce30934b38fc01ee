//! Trees in reverse Polish form: the parts of a tree before the word for it.

use crate::reading::Spelled;
use crate::stop::Stop;
use pssm_acts::{Act, Cond, Expr, ObjectId, Rel, Stmt};
use std::alloc::{AllocError, Global};

// A word, behind a blank where it is not the first.
pub(crate) fn put_word(text: &mut Vec<u8>, word: &[u8]) -> Result<(), AllocError> {
    if !text.is_empty() {
        text.push(b' ')?;
    }
    text.extend_from_slice(word)?;
    Ok(())
}

fn put_expr(alloc: Global, text: &mut Vec<u8>, expr: &Expr) -> Result<(), AllocError> {
    match expr {
        Expr::Num(number) => put_word(text, format!(in alloc; "{number}")?.as_bytes()),
        Expr::Var(variable) => put_word(text, format!(in alloc; "v{variable}")?.as_bytes()),
        Expr::Param(param) => put_word(text, format!(in alloc; "${param}")?.as_bytes()),
        Expr::Sum(left, right) => {
            put_expr(alloc, text, left.get())?;
            put_expr(alloc, text, right.get())?;
            put_word(text, b"+")
        }
        Expr::Diff(left, right) => {
            put_expr(alloc, text, left.get())?;
            put_expr(alloc, text, right.get())?;
            put_word(text, b"-")
        }
        Expr::Prod(left, right) => {
            put_expr(alloc, text, left.get())?;
            put_expr(alloc, text, right.get())?;
            put_word(text, b"*")
        }
    }
}

fn put_exprs(alloc: Global, text: &mut Vec<u8>, exprs: &[Expr]) -> Result<(), AllocError> {
    for expr in exprs {
        put_expr(alloc, text, expr)?;
    }
    Ok(())
}

fn relation(rel: Rel) -> &'static [u8] {
    match rel {
        Rel::Eq => b"==",
        Rel::Ne => b"!=",
        Rel::Lt => b"<",
        Rel::Le => b"<=",
        Rel::Gt => b">",
        Rel::Ge => b">=",
    }
}

fn put_cond(alloc: Global, text: &mut Vec<u8>, cond: &Cond) -> Result<(), AllocError> {
    match cond {
        Cond::True => put_word(text, b"true"),
        Cond::False => put_word(text, b"false"),
        Cond::Compare(rel, left, right) => {
            put_expr(alloc, text, left)?;
            put_expr(alloc, text, right)?;
            put_word(text, relation(*rel))
        }
        Cond::Not(inner) => {
            put_cond(alloc, text, inner.get())?;
            put_word(text, b"!")
        }
        Cond::And(left, right) => {
            put_cond(alloc, text, left.get())?;
            put_cond(alloc, text, right.get())?;
            put_word(text, b"&&")
        }
        Cond::Or(left, right) => {
            put_cond(alloc, text, left.get())?;
            put_cond(alloc, text, right.get())?;
            put_word(text, b"||")
        }
    }
}

// The word of a choice: how many statements its block has, and how many the one behind `else` has, where there is one.
fn choice(alloc: Global, count: usize, otherwise: Option<usize>) -> Result<String, AllocError> {
    match otherwise {
        Some(others) => format!(in alloc; "if{count}/{others}"),
        None => format!(in alloc; "if{count}"),
    }
}

// The word of a send: its receiver, its signal and how many arguments it has.
fn send(
    alloc: Global,
    object: Option<ObjectId>,
    signal: u16,
    count: usize,
) -> Result<String, AllocError> {
    match object {
        Some(ObjectId(number)) => format!(in alloc; "{number}.{signal}/{count}"),
        None => format!(in alloc; "self.{signal}/{count}"),
    }
}

#[cycle(stmts)]
fn put_stmt(alloc: Global, text: &mut Vec<u8>, stmt: &Stmt) -> Result<(), AllocError> {
    match stmt {
        Stmt::Assign { variable, value } => {
            put_expr(alloc, text, value)?;
            put_word(text, format!(in alloc; ":={variable}")?.as_bytes())
        }
        Stmt::Choose {
            condition,
            body,
            otherwise,
        } => {
            put_cond(alloc, text, condition)?;
            put_stmts(alloc, text, body.as_slice())?;
            let others = match otherwise {
                Some(rest) => {
                    put_stmts(alloc, text, rest.as_slice())?;
                    Some(rest.as_slice().len())
                }
                None => None,
            };
            let word = choice(alloc, body.as_slice().len(), others)?;
            put_word(text, word.as_bytes())
        }
        Stmt::Send {
            object,
            signal,
            args,
        } => {
            put_exprs(alloc, text, args.as_slice())?;
            let word = send(alloc, *object, signal.0, args.as_slice().len())?;
            put_word(text, word.as_bytes())
        }
        Stmt::Mark { mark, args } => {
            put_exprs(alloc, text, args.as_slice())?;
            let number = mark.0;
            let count = args.as_slice().len();
            put_word(text, format!(in alloc; "{number}/{count}")?.as_bytes())
        }
    }
}

#[cycle(stmts)]
fn put_stmts(alloc: Global, text: &mut Vec<u8>, stmts: &[Stmt]) -> Result<(), AllocError> {
    for stmt in stmts {
        put_stmt(alloc, text, stmt)?;
    }
    Ok(())
}

fn put_steps(alloc: Global, text: &mut Vec<u8>, acts: &[Act]) -> Result<(), AllocError> {
    for act in acts {
        put_word(text, b"[")?;
        put_stmts(alloc, text, act.stmts.as_slice())?;
        put_word(text, b"]")?;
    }
    Ok(())
}

// The tree of what was read.
pub(crate) fn tree(alloc: Global, read: &Spelled) -> Result<Vec<u8>, Stop> {
    let mut text = Vec::new(alloc);
    match read {
        Spelled::Guard(guard) => put_cond(alloc, &mut text, guard)?,
        Spelled::Behaviour(act) => put_stmts(alloc, &mut text, act.stmts.as_slice())?,
        Spelled::Steps(acts) => put_steps(alloc, &mut text, acts.as_slice())?,
    }
    Ok(text)
}
