//! How behaviours and guards are written: the one spelling of each.
ghost use Rattle.std.specs.Prelude.{◌≡◌, ◌++◌, Option, IfOk};
ghost use Rattle.pssm_acts.specs.ActText.{act_text, args_text, assignment_text, block_text, cond_text, expr_text, further_text, mark_text, receiver_name, send_text, signal_name, spaced_text, stmt_text, stmts_text};
ghost use Rattle.pssm_acts.specs.ActGrammar.{SpellsAct};
ghost use Rattle.pssm_acts.specs.Grammar.{SpellsCond};
ghost use Rattle.pssm_acts.specs.ReadBack.{CanBeReadBack, GuardCanBeReadBack};

use crate::terms::{name_of, put_cond, put_expr};
use pssm_model::{MarkId, SignalId, Text};
use pssm_semantics::{Act, Cond, Expr, Names, ObjectId, SignalDecl, Stmt};
use std::alloc::{AllocError as NoMemory, Global};

/// The spelling of a behaviour.
///
/// Statements are separated by one space, as in `x := (x + 1) * 2; if x < 5 { mark m(x); } else {
/// }`. A variable, object, signal or mark with a number past the last name has the empty name.
pub fn write_act(
    alloc: Global,
    act: &Act,
    names: &Names,
    marks: &[Text],
) -> Result<Vec<u8>, NoMemory>
    ensures gives { IfOk result (λ text. text.items ≡ act_text names.now marks.now act.now) }
    ensures read_back { IfOk result
        (λ text. CanBeReadBack names.now marks.now act.now
        → SpellsAct names.now marks.now text.items act.now marks.now) }
{
    let mut text = Vec::new(alloc);
    if let [first, rest @ ..] = act.stmts.as_slice() {
        put_stmt(alloc, &mut text, first, names, marks)?;
        put_stmts(alloc, &mut text, rest, names, marks)?;
    }
    Ok(text)
}

/// The spelling of a guard, as in `x < 1 && ![y == 2 || $1 > 0]`.
///
/// A variable with a number past the last name has the empty name.
pub fn write_cond(alloc: Global, cond: &Cond, names: &Names) -> Result<Vec<u8>, NoMemory>
    ensures gives { IfOk result (λ text. text.items ≡ cond_text names.now cond.now) }
    ensures read_back { IfOk result
        (λ text. GuardCanBeReadBack names.now cond.now → SpellsCond names.now text.items cond.now) }
{
    let mut text = Vec::new(alloc);
    put_cond(alloc, &mut text, cond, names)?;
    Ok(text)
}

// Expressions, separated by a comma and a space.
fn put_args(alloc: Global, text: &mut Vec<u8>, args: &[Expr], names: &Names) -> Result<(), NoMemory>
    ensures { IfOk result (λ _. text.new.items ≡ text.old.items ++ args_text names.now args.now) }
{
    if let [first, rest @ ..] = args {
        put_expr(alloc, text, first, names)?;
        put_further(alloc, text, rest, names)?;
    }
    Ok(())
}

// Expressions, each with a comma and a space before it.
fn put_further(
    alloc: Global,
    text: &mut Vec<u8>,
    args: &[Expr],
    names: &Names,
) -> Result<(), NoMemory>
    ensures { IfOk result (λ _. text.new.items ≡ text.old.items ++ further_text names.now args.now) }
{
    for expr in args {
        text.extend_from_slice(b", ")?;
        put_expr(alloc, text, expr, names)?;
    }
    Ok(())
}

fn put_assignment(
    alloc: Global,
    text: &mut Vec<u8>,
    variable: u16,
    value: &Expr,
    names: &Names,
) -> Result<(), NoMemory>
    ensures { IfOk result
        (λ _. text.new.items ≡ text.old.items ++ assignment_text names.now variable value.now) }
{
    text.extend_from_slice(name_of(names.vars.as_slice(), usize::from(variable)))?;
    text.extend_from_slice(b" := ")?;
    put_expr(alloc, text, value, names)?;
    text.push(b';')?;
    Ok(())
}

fn receiver_of(object: Option<ObjectId>, names: &Names) -> &[u8]
    ensures { result.now ≡ receiver_name names.now object }
{
    match object {
        Some(object) => name_of(names.objects.as_slice(), usize::from(object.0)),
        None => b"self",
    }
}

fn signal_of(signal: SignalId, names: &Names) -> &[u8]
    ensures { result.now ≡ signal_name names.now signal }
{
    match names.signals.as_slice().get(usize::from(signal.0)) {
        Some(SignalDecl { name, .. }) => name.as_slice(),
        None => b"",
    }
}

fn put_send(
    alloc: Global,
    text: &mut Vec<u8>,
    object: Option<ObjectId>,
    signal: SignalId,
    args: &[Expr],
    names: &Names,
) -> Result<(), NoMemory>
    ensures { IfOk result
        (λ _. text.new.items ≡ text.old.items ++ send_text names.now object signal args.now) }
{
    text.extend_from_slice(b"send ")?;
    text.extend_from_slice(receiver_of(object, names))?;
    text.push(b'.')?;
    text.extend_from_slice(signal_of(signal, names))?;
    text.push(b'(')?;
    put_args(alloc, text, args, names)?;
    text.extend_from_slice(b");")?;
    Ok(())
}

fn put_mark(
    alloc: Global,
    text: &mut Vec<u8>,
    mark: MarkId,
    args: &[Expr],
    names: &Names,
    marks: &[Text],
) -> Result<(), NoMemory>
    ensures { IfOk result
        (λ _. text.new.items ≡ text.old.items ++ mark_text names.now marks.now mark args.now) }
{
    text.extend_from_slice(b"mark ")?;
    text.extend_from_slice(name_of(marks, usize::from(mark.0)))?;
    text.push(b'(')?;
    put_args(alloc, text, args, names)?;
    text.extend_from_slice(b");")?;
    Ok(())
}

// A statement.
#[cycle(stmts)]
fn put_stmt(
    alloc: Global,
    text: &mut Vec<u8>,
    stmt: &Stmt,
    names: &Names,
    marks: &[Text],
) -> Result<(), NoMemory>
    ensures { IfOk result (λ _. text.new.items ≡ text.old.items ++ stmt_text names.now marks.now stmt.now) }
{
    match stmt {
        Stmt::Assign { variable, value } => put_assignment(alloc, text, *variable, value, names),
        Stmt::Choose {
            condition,
            body,
            otherwise,
        } => {
            text.extend_from_slice(b"if ")?;
            put_cond(alloc, text, condition, names)?;
            put_block(alloc, text, b" {", body.as_slice(), names, marks)?;
            match otherwise {
                Some(rest) => put_block(alloc, text, b" else {", rest.as_slice(), names, marks),
                None => Ok(()),
            }
        }
        Stmt::Send {
            object,
            signal,
            args,
        } => put_send(alloc, text, *object, *signal, args.as_slice(), names),
        Stmt::Mark { mark, args } => put_mark(alloc, text, *mark, args.as_slice(), names, marks),
    }
}

// A block: what opens it, its statements, and a brace.
#[cycle(stmts)]
fn put_block(
    alloc: Global,
    text: &mut Vec<u8>,
    opening: &[u8],
    stmts: &[Stmt],
    names: &Names,
    marks: &[Text],
) -> Result<(), NoMemory>
    ensures { IfOk result
        (λ _. text.new.items ≡ text.old.items ++ block_text opening.now (stmts_text names.now marks.now stmts.now)) }
{
    text.extend_from_slice(opening)?;
    put_stmts(alloc, text, stmts, names, marks)?;
    text.extend_from_slice(b" }")?;
    Ok(())
}

// Statements, each with a space before it.
#[cycle(stmts)]
fn put_stmts(
    alloc: Global,
    text: &mut Vec<u8>,
    stmts: &[Stmt],
    names: &Names,
    marks: &[Text],
) -> Result<(), NoMemory>
    ensures { IfOk result (λ _. text.new.items ≡ text.old.items ++ stmts_text names.now marks.now stmts.now) }
{
    for stmt in stmts {
        text.push(b' ')?;
        put_stmt(alloc, text, stmt, names, marks)?;
    }
    Ok(())
}
