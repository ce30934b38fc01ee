//! Whether two trees of the action language are equal.
ghost use Rattle.std.specs.Prelude.{◌≡◌, ◌↔◌, IsTrue};

use crate::tree::{Act, Cond, Expr, Stmt};

fn same_expr(a: &Expr, b: &Expr) -> bool
    ensures { IsTrue result ↔ (a.now ≡ b.now) }
{
    match (a, b) {
        (Expr::Num(left), Expr::Num(right)) => *left == *right,
        (Expr::Var(left), Expr::Var(right)) => *left == *right,
        (Expr::Param(left), Expr::Param(right)) => *left == *right,
        (Expr::Sum(left, right), Expr::Sum(first, second)) => {
            same_expr(left.get(), first.get()) && same_expr(right.get(), second.get())
        }
        (Expr::Diff(left, right), Expr::Diff(first, second)) => {
            same_expr(left.get(), first.get()) && same_expr(right.get(), second.get())
        }
        (Expr::Prod(left, right), Expr::Prod(first, second)) => {
            same_expr(left.get(), first.get()) && same_expr(right.get(), second.get())
        }
        _ => false,
    }
}

fn same_cond(a: &Cond, b: &Cond) -> bool
    ensures { IsTrue result ↔ (a.now ≡ b.now) }
{
    match (a, b) {
        (Cond::True, Cond::True) => true,
        (Cond::False, Cond::False) => true,
        (Cond::Compare(rel, left, right), Cond::Compare(other, first, second)) => {
            *rel == *other && same_expr(left, first) && same_expr(right, second)
        }
        (Cond::Not(inner), Cond::Not(other)) => same_cond(inner.get(), other.get()),
        (Cond::And(left, right), Cond::And(first, second)) => {
            same_cond(left.get(), first.get()) && same_cond(right.get(), second.get())
        }
        (Cond::Or(left, right), Cond::Or(first, second)) => {
            same_cond(left.get(), first.get()) && same_cond(right.get(), second.get())
        }
        _ => false,
    }
}

fn same_exprs(a: &[Expr], b: &[Expr]) -> bool
    ensures { IsTrue result ↔ (a.now ≡ b.now) }
{
    if a.len() != b.len() {
        return false;
    }
    for i in 0..a.len() {
        if !same_expr(&a[i], &b[i]) {
            return false;
        }
    }
    true
}

#[cycle(stmts)]
fn same_stmt(a: &Stmt, b: &Stmt) -> bool
    ensures { IsTrue result ↔ (a.now ≡ b.now) }
{
    match (a, b) {
        (
            Stmt::Assign { variable, value },
            Stmt::Assign {
                variable: other,
                value: more,
            },
        ) => { *variable == *other && same_expr(value, more) }
        (
            Stmt::Choose {
                condition,
                body,
                otherwise: Some(rest),
            },
            Stmt::Choose {
                condition: other,
                body: block,
                otherwise: Some(more),
            },
        ) => same_cond(condition, other)
            && same_block(body.as_slice(), block.as_slice())
            && same_block(rest.as_slice(), more.as_slice()),
        (
            Stmt::Choose {
                condition,
                body,
                otherwise: None,
            },
            Stmt::Choose {
                condition: other,
                body: block,
                otherwise: None,
            },
        ) => same_cond(condition, other) && same_block(body.as_slice(), block.as_slice()),
        (
            Stmt::Send {
                object,
                signal,
                args,
            },
            Stmt::Send {
                object: other,
                signal: second,
                args: more,
            },
        ) => {
            *object == *other && *signal == *second && same_exprs(args.as_slice(), more.as_slice())
        }
        (
            Stmt::Mark { mark, args },
            Stmt::Mark {
                mark: other,
                args: more,
            },
        ) => { *mark == *other && same_exprs(args.as_slice(), more.as_slice()) }
        _ => false,
    }
}

#[cycle(stmts)]
fn same_block(a: &[Stmt], b: &[Stmt]) -> bool
    ensures { IsTrue result ↔ (a.now ≡ b.now) }
{
    if a.len() != b.len() {
        return false;
    }
    for i in 0..a.len() {
        if !same_stmt(&a[i], &b[i]) {
            return false;
        }
    }
    true
}

fn same_act(a: &Act, b: &Act) -> bool
    ensures { IsTrue result ↔ (a.now ≡ b.now) }
{
    same_block(a.stmts.as_slice(), b.stmts.as_slice())
}

impl PartialEq for Act {
    ghost use Rattle.std.specs.Cmp.{partial_equiv_from_equiv};
    ghost use Rattle.pssm_model.specs.Codes.{same_by, same_by-equivalence};
    ghost use Rattle.pssm_semantics.specs.contracts.tree.Act.{the_row};

    ghost eq = { same_by the_row.coded };

    ghost laws = { partial_equiv_from_equiv (same_by-equivalence the_row.coded) };

    fn eq(&self, other: &Act) -> bool {
        same_act(self, other)
    }
}

impl Eq for Act {
    ghost use Rattle.pssm_model.specs.Codes.{same_by-equivalence};
    ghost use Rattle.pssm_semantics.specs.contracts.tree.Act.{the_row};

    ghost laws = { same_by-equivalence the_row.coded };
}

impl PartialEq for Cond {
    ghost use Rattle.std.specs.Cmp.{partial_equiv_from_equiv};
    ghost use Rattle.pssm_model.specs.Codes.{same_by, same_by-equivalence};
    ghost use Rattle.pssm_semantics.specs.contracts.tree.Cond.{the_row};

    ghost eq = { same_by the_row.coded };

    ghost laws = { partial_equiv_from_equiv (same_by-equivalence the_row.coded) };

    fn eq(&self, other: &Cond) -> bool {
        same_cond(self, other)
    }
}

impl Eq for Cond {
    ghost use Rattle.pssm_model.specs.Codes.{same_by-equivalence};
    ghost use Rattle.pssm_semantics.specs.contracts.tree.Cond.{the_row};

    ghost laws = { same_by-equivalence the_row.coded };
}
