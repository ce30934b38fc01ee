//! What running a behaviour makes, with what it was run on.
ghost use Rattle.std.specs.Prelude.{◌≡◌, IfOk};
ghost use Rattle.pssm_semantics.specs.Arguments.{ActArgsFit};
ghost use Rattle.pssm_semantics.specs.Values.{outcome_of};
ghost use Rattle.pssm_semantics.specs.Work.{outcome_from};

use crate::args::Args;
use crate::entry::ObjectId;
use crate::running::{Execution, run_block};
use crate::setting::Outcome;
use crate::tree::Act;
use pssm_model::Row;
use std::alloc::{AllocError as NoMemory, Global};
use std::marker::Model;

/// A behaviour that was run: of which object, which, on which values and parameters, and what it made.
///
/// Only `run` makes one, so its outcome is always what that behaviour makes of these values and parameters.
#[derive(Drop)]
pub struct Worked {
    own: ObjectId,
    act: Act,
    store: Row<i64>,
    params: Args,
    outcome: Outcome,
}

impl Model for Worked {
    ghost use Rattle.std.specs.Prelude.{◌≡◌};
    ghost use Rattle.pssm_semantics.specs.Values.{outcome_of};
    ghost use Rattle.pssm_semantics.specs.Work.{Work};
    ghost use Rattle.pssm_semantics.specs.contracts.tree.Stmt as stmt;
    ghost use Rattle.std.specs.Coded.{codes};

    ghost Value = { Work };

    ghost coded = { Prim.hlevel (codes, stmt.the_row.coded) };

    ghost view = { λ w. record { own = w.own; act = w.act; store = w.store; params = w.params } };

    ghost invariant = { λ w. w.outcome ≡ outcome_of w.act w.own w.store w.params };
}

impl Worked {
    /// The object that ran it.
    pub fn own(&self) -> ObjectId
        ensures { result ≡ self.now.own }
    {
        self.own
    }

    /// The behaviour.
    pub fn act(&self) -> &Act
        ensures { result.now ≡ self.now.act }
    {
        &self.act
    }

    /// The values of the variables that it was run on.
    pub fn store(&self) -> &[i64]
        ensures { result.now ≡ self.now.store }
    {
        self.store.as_slice()
    }

    /// The parameters that it was run on.
    pub fn params(&self) -> &Args
        ensures { result.now ≡ self.now.params }
    {
        &self.params
    }

    /// What it made: the values of the variables after it, and its outputs in order.
    pub fn outcome(&self) -> &Outcome
        ensures { result.now ≡ outcome_from self.now }
    {
        &self.outcome
    }
}

/// Runs a behaviour of an object on the values of its variables and on the parameters of a step (UML 2.5.1, 13.2.3).
///
/// Assignments take effect in order; sums, differences and products wrap at 64 bits; an `if` runs one of its
/// blocks; `self` is the object. Parameters past the last one given are 0. No send or mark has more than eight
/// arguments. A variable is one of the store in each tree that was read for it; in any other tree one past the last is 0
/// and stays so.
pub fn run(
    alloc: Global,
    own: ObjectId,
    act: &Act,
    store: &[i64],
    params: &Args,
) -> Result<Worked, NoMemory>
    requires { ActArgsFit act.now }
    ensures own { IfOk result (λ w. w.own ≡ own) }
    ensures act { IfOk result (λ w. w.act ≡ act.now) }
    ensures store { IfOk result (λ w. w.store ≡ store.now) }
    ensures params { IfOk result (λ w. w.params ≡ params.now) }
{
    Ok(Worked {
        own,
        act: act.copy(alloc)?,
        store: Row::from_vec(store.to_vec(alloc)?),
        params: params.copy(alloc)?,
        outcome: outcome(alloc, own, act, store, params)?,
    })
}

/// What a behaviour of an object makes of the values of its variables and of the parameters of a step
/// (UML 2.5.1, 13.2.3), as `run` runs it.
pub fn outcome(
    alloc: Global,
    own: ObjectId,
    act: &Act,
    store: &[i64],
    params: &Args,
) -> Result<Outcome, NoMemory>
    requires { ActArgsFit act.now }
    ensures { IfOk result (λ o. o ≡ outcome_of act.now own store.now params.now) }
{
    let mut execution = Execution {
        store: store.to_vec(alloc)?,
        outs: Vec::new(alloc),
    };
    run_block(alloc, own, act.stmts.as_slice(), params, &mut execution)?;
    let Execution { store: after, outs } = execution;
    Ok(Outcome {
        store: Row::from_vec(after),
        outs: Row::from_vec(outs),
    })
}
