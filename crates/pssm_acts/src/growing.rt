//! `Growing`: the program of a class, as far as it has been read.
ghost use Rattle.std.specs.Prelude.{◌≡◌};

use crate::marks::Marks;
use pssm_model::Row;
use pssm_semantics::{Act, Cond, Program};
use std::marker::Model;

/// The program of a class, as far as it has been read. A clause sees the program.
#[derive(Drop)]
pub struct Growing {
    pub acts: Row<Act>,
    pub guards: Row<Cond>,
    pub marks: Marks,
}

impl Model for Growing {
    ghost use Rattle.pssm_semantics.specs.contracts.tree.Stmt as stmt;
    ghost use Rattle.pssm_semantics.specs.contracts.tree.Cond as cond;
    ghost use Rattle.pssm_semantics.specs.contracts.tree.Expr as expr;
    ghost use Rattle.std.specs.Coded.{codes};
    ghost use Rattle.pssm_semantics.specs.declared.setting.Program.{Program};

    ghost Value = { Program };

    ghost coded = { Prim.hlevel (codes, stmt.the_row.coded, cond.the_row.coded, expr.the_row.coded) };

    ghost view = { λ g. record { acts = g.acts; guards = g.guards; marks = g.marks } };
}

impl Growing {
    /// The program.
    pub fn into_program(self) -> Program
        ensures { result ≡ self }
    {
        let Growing {
            acts,
            guards,
            marks,
        } = self;
        Program {
            acts,
            guards,
            marks: Row::from_vec(marks.into_vec()),
        }
    }
}
