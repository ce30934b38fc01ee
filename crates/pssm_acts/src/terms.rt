//! How numbers, names, expressions and guards are written, each at the end of a text.
ghost use Rattle.std.specs.Prelude.{◌≡◌, ◌++◌, ◌↔◌, [], IfOk, IsTrue};
ghost use Rattle.std.specs.List.{slice_index_or};
ghost use Rattle.pssm_acts.specs.ActText.{cond_text, expr_text, is_chain, is_operation, rel_text, name_at};
ghost use Rattle.pssm_acts.specs.inner.Operands.{operand_text, unit_text};

use pssm_model::Text;
use pssm_semantics::{Cond, Expr, Names, Rel};
use pssm_spelling::put_signed;
use std::alloc::{AllocError as NoMemory, Global};

// The name with a number, and the empty one where there is none.
pub(crate) fn name_of(names: &[Text], number: usize) -> &[u8]
    ensures { result.now ≡ name_at names.now number }
{
    match names.get(number) {
        Some(name) => name.as_slice(),
        None => b"",
    }
}

fn is_compound(expr: &Expr) -> bool
    ensures { result ≡ is_operation expr.now }
{
    matches!(expr, Expr::Sum(..) | Expr::Diff(..) | Expr::Prod(..))
}

// An expression.
#[cycle(exprs)]
pub(crate) fn put_expr(
    alloc: Global,
    text: &mut Vec<u8>,
    expr: &Expr,
    names: &Names,
) -> Result<(), NoMemory>
    ensures { IfOk result (λ _. text.new.items ≡ text.old.items ++ expr_text names.now expr.now) }
{
    match expr {
        Expr::Num(number) => put_signed(alloc, text, *number),
        Expr::Var(variable) => {
            text.extend_from_slice(name_of(names.vars.as_slice(), usize::from(*variable)))?;
            Ok(())
        }
        Expr::Param(parameter) => {
            text.push(b'$')?;
            put_signed(alloc, text, i64::from(*parameter))
        }
        Expr::Sum(left, right) => {
            put_operation(alloc, text, left.get(), b" + ", right.get(), names)
        }
        Expr::Diff(left, right) => {
            put_operation(alloc, text, left.get(), b" - ", right.get(), names)
        }
        Expr::Prod(left, right) => {
            put_operation(alloc, text, left.get(), b" * ", right.get(), names)
        }
    }
}

#[cycle(exprs)]
fn put_operation(
    alloc: Global,
    text: &mut Vec<u8>,
    left: &Expr,
    sign: &[u8],
    right: &Expr,
    names: &Names,
) -> Result<(), NoMemory>
    ensures { IfOk result
        (λ _. text.new.items ≡ text.old.items
        ++ (operand_text names.now left.now ++ sign.now ++ operand_text names.now right.now)) }
{
    put_operand(alloc, text, left, names)?;
    text.extend_from_slice(sign)?;
    put_operand(alloc, text, right, names)?;
    Ok(())
}

#[cycle(exprs)]
fn put_operand(
    alloc: Global,
    text: &mut Vec<u8>,
    expr: &Expr,
    names: &Names,
) -> Result<(), NoMemory>
    ensures { IfOk result (λ _. text.new.items ≡ text.old.items ++ operand_text names.now expr.now) }
{
    if !is_compound(expr) {
        return put_expr(alloc, text, expr, names);
    }
    text.push(b'(')?;
    put_expr(alloc, text, expr, names)?;
    text.push(b')')?;
    Ok(())
}

fn sign_of(rel: Rel) -> &'static [u8]
    ensures { result.now ≡ rel_text rel }
{
    match rel {
        Rel::Eq => b" == ",
        Rel::Ne => b" != ",
        Rel::Lt => b" < ",
        Rel::Le => b" <= ",
        Rel::Gt => b" > ",
        Rel::Ge => b" >= ",
    }
}

fn is_joined(cond: &Cond) -> bool
    ensures { result ≡ is_chain cond.now }
{
    matches!(cond, Cond::And(..) | Cond::Or(..))
}

// A guard.
#[cycle(conds)]
pub(crate) fn put_cond(
    alloc: Global,
    text: &mut Vec<u8>,
    cond: &Cond,
    names: &Names,
) -> Result<(), NoMemory>
    ensures { IfOk result (λ _. text.new.items ≡ text.old.items ++ cond_text names.now cond.now) }
{
    match cond {
        Cond::True => {
            text.extend_from_slice(b"true")?;
            Ok(())
        }
        Cond::False => {
            text.extend_from_slice(b"false")?;
            Ok(())
        }
        Cond::Compare(rel, left, right) => put_comparison(alloc, text, *rel, left, right, names),
        Cond::Not(inner) => {
            text.push(b'!')?;
            put_unit(alloc, text, inner.get(), names)
        }
        Cond::And(left, right) => put_chain(alloc, text, left.get(), b" && ", right.get(), names),
        Cond::Or(left, right) => put_chain(alloc, text, left.get(), b" || ", right.get(), names),
    }
}

fn put_comparison(
    alloc: Global,
    text: &mut Vec<u8>,
    rel: Rel,
    left: &Expr,
    right: &Expr,
    names: &Names,
) -> Result<(), NoMemory>
    ensures { IfOk result
        (λ _. text.new.items ≡ text.old.items
        ++ (expr_text names.now left.now ++ rel_text rel ++ expr_text names.now right.now)) }
{
    put_expr(alloc, text, left, names)?;
    text.extend_from_slice(sign_of(rel))?;
    put_expr(alloc, text, right, names)?;
    Ok(())
}

#[cycle(conds)]
fn put_chain(
    alloc: Global,
    text: &mut Vec<u8>,
    left: &Cond,
    sign: &[u8],
    right: &Cond,
    names: &Names,
) -> Result<(), NoMemory>
    ensures { IfOk result
        (λ _. text.new.items ≡ text.old.items
        ++ (unit_text names.now left.now ++ sign.now ++ unit_text names.now right.now)) }
{
    put_unit(alloc, text, left, names)?;
    text.extend_from_slice(sign)?;
    put_unit(alloc, text, right, names)?;
    Ok(())
}

#[cycle(conds)]
fn put_unit(alloc: Global, text: &mut Vec<u8>, cond: &Cond, names: &Names) -> Result<(), NoMemory>
    ensures { IfOk result (λ _. text.new.items ≡ text.old.items ++ unit_text names.now cond.now) }
{
    if !is_joined(cond) {
        return put_cond(alloc, text, cond, names);
    }
    text.push(b'[')?;
    put_cond(alloc, text, cond, names)?;
    text.push(b']')?;
    Ok(())
}
