//! What guards and expressions are worth, on the values of an object's variables and the parameters of a step.
ghost use Rattle.std.specs.Prelude.{◌≡◌, ◌-◌, pos};
ghost use Rattle.std.specs.List.{slice_index_or};
ghost use Rattle.pssm_semantics.specs.Values.{compares, truth_of, value_of};

use crate::args::Args;
use crate::tree::{Cond, Expr, Rel};

/// Whether a guard is true on a store and parameters (UML 2.5.1, 14.2.3.8).
///
/// A parameter past the last one given is 0. A variable is one of the store in each tree that was read for it; in
/// any other tree a variable past the last one is 0. Takes no memory.
pub fn truth(cond: &Cond, store: &[i64], params: &Args) -> bool
    ensures { result ≡ truth_of cond.now store.now params.now }
{
    match cond {
        Cond::True => true,
        Cond::False => false,
        Cond::Compare(rel, left, right) => {
            compare(
                *rel,
                value(left, store, params),
                value(right, store, params),
            )
        }
        Cond::Not(inner) => !truth(inner.get(), store, params),
        Cond::And(left, right) => {
            truth(left.get(), store, params) && truth(right.get(), store, params)
        }
        Cond::Or(left, right) => {
            truth(left.get(), store, params) || truth(right.get(), store, params)
        }
    }
}

/// Whether two numbers stand in a relation.
fn compare(rel: Rel, left: i64, right: i64) -> bool
    ensures { result ≡ compares rel left right }
{
    match rel {
        Rel::Eq => left == right,
        Rel::Ne => left != right,
        Rel::Lt => left < right,
        Rel::Le => left <= right,
        Rel::Gt => left > right,
        Rel::Ge => left >= right,
    }
}

/// The value of an expression; sums, differences and products wrap at 64 bits.
pub(crate) fn value(expr: &Expr, store: &[i64], params: &Args) -> i64
    ensures { result ≡ value_of expr.now store.now params.now }
{
    match expr {
        Expr::Num(number) => *number,
        Expr::Var(variable) => store.get(usize::from(*variable)).copied().unwrap_or(0),
        Expr::Param(parameter) => parameter_of(params, *parameter),
        Expr::Sum(left, right) => {
            value(left.get(), store, params).wrapping_add(value(right.get(), store, params))
        }
        Expr::Diff(left, right) => {
            value(left.get(), store, params).wrapping_sub(value(right.get(), store, params))
        }
        Expr::Prod(left, right) => {
            value(left.get(), store, params).wrapping_mul(value(right.get(), store, params))
        }
    }
}

/// The parameter with a number from 1, and 0 past the last one given.
fn parameter_of(params: &Args, parameter: u8) -> i64
    ensures { result ≡ slice_index_or params.now (parameter - 1) (pos 0) }
{
    let index = usize::from(parameter.saturating_sub(1));
    params.as_slice().get(index).copied().unwrap_or(0)
}
