//! What is whole of behaviours that have been read in part: steps, open blocks and statements.
ghost use Rattle.std.specs.Prelude.{◌≡◌, ◌++◌, ◌∷◌, [], IfOk};
ghost use Rattle.pssm_acts.specs.inner.ActReading.{fresh_blocks, statement_counted, with_act, with_statement, without_else};

use crate::act_fault::{ActFault, refused};
use crate::stack::Stack;
use pssm_model::Row;
use pssm_semantics::{Act, Cond, Shared, Stmt};
use std::alloc::{AllocError as NoMemory, Global};

// How many statements a behaviour may have, those in blocks counted (this profile's choice).
const STATEMENTS: u32 = 64;

/// An `if` of which a block is open: the statements before it, its condition, and its first block,
/// where the second is the open one.
#[derive(Drop)]
pub struct OpenIf {
    pub before: Row<Stmt>,
    pub condition: Cond,
    pub body: Option<Row<Stmt>>,
}

/// What is whole: the earlier steps, each `if` that is open, the statements behind the last of
/// these; and how many statements of the behaviour have begun.
#[derive(Drop)]
pub struct Blocks {
    pub earlier: Row<Act>,
    pub outer: Stack<OpenIf>,
    pub stmts: Row<Stmt>,
    pub begun: u32,
}

// Nothing but these steps has been read.
pub(crate) fn new_blocks(alloc: Global, earlier: Row<Act>) -> Blocks
    ensures { result ≡ fresh_blocks earlier }
{
    Blocks {
        earlier,
        outer: Stack::new(alloc),
        stmts: Row::from_vec(Vec::new(alloc)),
        begun: 0,
    }
}

// One statement more.
fn pushed(stmts: Row<Stmt>, stmt: Stmt) -> Result<Row<Stmt>, NoMemory>
    ensures { IfOk result (λ more. more ≡ stmts ++ stmt ∷ []) }
{
    let mut list = stmts.into_vec();
    list.push(stmt)?;
    Ok(Row::from_vec(list))
}

// The same blocks with one statement more.
pub(crate) fn with_stmt(blocks: Blocks, stmt: Stmt) -> Result<Blocks, NoMemory>
    ensures { IfOk result (λ more. more ≡ with_statement blocks stmt) }
{
    let Blocks {
        earlier,
        outer,
        stmts,
        begun,
    } = blocks;
    let stmts = pushed(stmts, stmt)?;
    Ok(Blocks {
        earlier,
        outer,
        stmts,
        begun,
    })
}

// The blocks with an `if` that has no `else`.
pub(crate) fn with_if(blocks: Blocks, condition: Cond, body: Row<Stmt>) -> Result<Blocks, NoMemory>
    ensures { IfOk result (λ more. more ≡ without_else blocks condition body) }
{
    with_stmt(
        blocks,
        Stmt::Choose {
            condition,
            body,
            otherwise: None,
        },
    )
}

// One statement more has begun, where the behaviour may have it.
#[tactic(auto, unfolding(crate::specs::inner::ActReading::statement_counted))]
pub(crate) fn counted(blocks: Blocks, at: u32) -> Result<Blocks, ActFault>
    ensures { result ≡ statement_counted blocks at }
{
    if blocks.begun >= STATEMENTS {
        return refused(blocks, ActFault::TooLong { at });
    }
    let mut blocks = blocks;
    blocks.begun += 1;
    Ok(blocks)
}

// The behaviour of these statements.
pub(crate) fn act_of(alloc: Global, stmts: Row<Stmt>) -> Result<Act, NoMemory>
    ensures { IfOk result (λ act. act.stmts ≡ stmts) }
{
    Ok(Act {
        stmts: Shared::new(alloc, stmts)?,
    })
}

// The steps with one more.
pub(crate) fn with_step(earlier: Row<Act>, act: Act) -> Result<Row<Act>, NoMemory>
    ensures { IfOk result (λ more. more ≡ with_act earlier act.stmts) }
{
    let mut list = earlier.into_vec();
    list.push(act)?;
    Ok(Row::from_vec(list))
}
