//! The trees of the action language: behaviours, statements, expressions and guards.
ghost use Rattle.std.specs.Prelude.{◌≡◌, IfOk};

use crate::entry::ObjectId;
use crate::shared::Shared;
use pssm_model::{Boxed, Duplicate, MarkId, Row, SignalId};
use std::alloc::{AllocError as NoMemory, Global};

/// A behaviour: statements that run in order (UML 2.5.1, 13.2.3, opaque behaviours; the language is this profile's choice).
/// A copy shares the statements.
#[derive(Drop)]
pub struct Act {
    pub stmts: Shared<Row<Stmt>>,
}

impl Act {
    /// A second value, equal to this one.
    pub fn copy(&self, alloc: Global) -> Result<Act, NoMemory>
        ensures { IfOk result (λ other. other ≡ self.now) }
    {
        self.duplicate(alloc)
    }
}

/// A statement.
///
/// `variable` is a variable's number from 0. `Send` goes to `object`, or to the running object where it is None.
#[derive(Drop)]
pub enum Stmt {
    Assign {
        variable: u16,
        value: Expr,
    },
    Choose {
        condition: Cond,
        body: Row<Stmt>,
        otherwise: Option<Row<Stmt>>,
    },
    Send {
        object: Option<ObjectId>,
        signal: SignalId,
        args: Row<Expr>,
    },
    Mark {
        mark: MarkId,
        args: Row<Expr>,
    },
}

/// An expression over numbers of 64 bits. `Var` has a variable's number from 0, and `Param` 1 to 8.
#[derive(Drop)]
pub enum Expr {
    Num(i64),
    Var(u16),
    Param(u8),
    Sum(Boxed<Expr>, Boxed<Expr>),
    Diff(Boxed<Expr>, Boxed<Expr>),
    Prod(Boxed<Expr>, Boxed<Expr>),
}

/// A relation of two numbers: `==`, `!=`, `<`, `<=`, `>` or `>=`.
#[derive(Clone, Copy, PartialEq, Eq)]
pub enum Rel {
    Eq,
    Ne,
    Lt,
    Le,
    Gt,
    Ge,
}

/// A guard (UML 2.5.1, 14.2.3.8), or the condition of an `if`.
#[derive(Drop)]
pub enum Cond {
    True,
    False,
    Compare(Rel, Expr, Expr),
    Not(Boxed<Cond>),
    And(Boxed<Cond>, Boxed<Cond>),
    Or(Boxed<Cond>, Boxed<Cond>),
}

impl Cond {
    /// A second value, equal to this one.
    pub fn copy(&self, alloc: Global) -> Result<Cond, NoMemory>
        ensures { IfOk result (λ other. other ≡ self.now) }
    {
        self.duplicate(alloc)
    }
}
