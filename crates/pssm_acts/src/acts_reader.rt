//! Reading behaviours token by token: what has been read of them, and what the next token makes of
//! that.
ghost use Rattle.std.specs.Prelude.{◌≡◌, ◌≤◌, ◌<◌, ◌++◌, ◌∷◌, [], length, IfOk};
ghost use Rattle.pssm_acts.specs.inner.ExprReading.{Answers, token_of};
ghost use Rattle.pssm_acts.specs.Marks.{KeepsMarks};
ghost use Rattle.pssm_acts.specs.inner.PhraseReading.{AnswersWith};
ghost use Rattle.pssm_acts.specs.inner.ActReading.{acts_step, acts_value, after_choice, begun_at, block_closed, block_opened, condition_read, else_opened, fresh_acts, fresh_blocks, next_act, phrase_counted, phrase_read, statement_counted, step_taken, turn_nots, whole_acts, with_act, with_statement, without_else};
ghost use Rattle.pssm_acts.specs.inner.GuardReading.{nots_waiting};

use crate::act_fault::{ActFault, refused};
use crate::guard_reader::{GuardReader, guard_end, guard_next, new_guard};
use crate::known::Known;
use crate::marks::Marks;
use crate::phrase_reader::{Phrase, Phrased, new_phrase, phrase_next};
use crate::read_blocks::{
    Blocks, OpenIf, act_of, counted, new_blocks, with_if, with_step, with_stmt,
};
use crate::stack::Stack;
use crate::token::{Kind, Piece};
use pssm_model::Row;
use pssm_semantics::{Act, Cond, Stmt};
use std::alloc::Global;

// How many levels of parentheses, brackets and blocks may be open at once (this profile's choice).
pub(crate) const LEVELS: usize = 16;

// How many steps there may be (this profile's choice).
const STEPS: usize = 64;

/// What comes next.
///
/// `Begins`: a statement, or the end of the block. `Within`: more of a statement. `Condition`: more
/// of the condition of an `if`. `Chosen`: the first block of an `if` has ended, and `else` may
/// stand here or what may stand behind the `if`. `Else`: the block behind `else`. `Step`: the
/// semicolon behind `step`.
#[derive(Drop)]
pub enum Turn {
    Begins,
    Within(Phrase),
    Condition(GuardReader),
    Chosen(Cond, Row<Stmt>),
    Else(Cond, Row<Stmt>),
    Step,
}

/// Behaviours that have been read in part.
#[derive(Drop)]
pub struct ActsReader {
    pub blocks: Blocks,
    pub turn: Turn,
}

/// Behaviours that have been read: the last one, and those before it.
#[derive(Drop)]
pub struct ReadActs {
    pub earlier: Row<Act>,
    pub last: Act,
}

// The reader of behaviours of which nothing has been read.
pub(crate) fn new_acts(alloc: Global) -> ActsReader
    ensures { result ≡ fresh_acts }
{
    ActsReader {
        blocks: new_blocks(alloc, Row::from_vec(Vec::new(alloc))),
        turn: Turn::Begins,
    }
}

// A brace opens a block of an `if`, where there is room for its level; the first block is given
// where it is the second that opens.
#[tactic(auto, unfolding(crate::specs::inner::ActReading::block_opened))]
fn open_block(
    alloc: Global,
    blocks: Blocks,
    condition: Cond,
    body: Option<Row<Stmt>>,
    at: u32,
) -> Result<ActsReader, ActFault>
    ensures { Answers (block_opened blocks condition body at) result }
{
    if blocks.outer.len() >= LEVELS {
        return refused((blocks, (condition, body)), ActFault::TooLong { at });
    }
    let Blocks {
        earlier,
        outer,
        stmts: before,
        begun,
    } = blocks;
    let outer = outer.with(OpenIf {
        before,
        condition,
        body,
    })?;
    let blocks = Blocks {
        earlier,
        outer,
        stmts: Row::from_vec(Vec::new(alloc)),
        begun,
    };
    Ok(ActsReader {
        blocks,
        turn: Turn::Begins,
    })
}

// A brace closes the innermost block.
#[tactic(auto, unfolding(crate::specs::inner::ActReading::block_closed))]
fn close_block(blocks: Blocks, at: u32) -> Result<ActsReader, ActFault>
    ensures { Answers (block_closed blocks at) result }
{
    let Blocks {
        earlier,
        outer,
        stmts,
        begun,
    } = blocks;
    let (outer, open) = match outer.split() {
        Some(parts) => parts,
        None => return Err(ActFault::Syntax { at }),
    };
    let OpenIf {
        before,
        condition,
        body,
    } = open;
    let blocks = Blocks {
        earlier,
        outer,
        stmts: before,
        begun,
    };
    match body {
        None => Ok(ActsReader {
            blocks,
            turn: Turn::Chosen(condition, stmts),
        }),
        Some(body) => {
            let choice = Stmt::Choose {
                condition,
                body,
                otherwise: Some(stmts),
            };
            Ok(ActsReader {
                blocks: with_stmt(blocks, choice)?,
                turn: Turn::Begins,
            })
        }
    }
}

// `step` ends a behaviour and begins the next, outside of blocks, and where there may be one more.
#[tactic(auto, unfolding(crate::specs::inner::ActReading::next_act))]
fn next_step(alloc: Global, blocks: Blocks, stepped: bool, at: u32) -> Result<ActsReader, ActFault>
    ensures { Answers (next_act stepped blocks at) result }
{
    let Blocks {
        earlier,
        outer,
        stmts,
        begun: _,
    } = blocks;
    if !stepped || outer.len() > 0 {
        return Err(ActFault::Syntax { at });
    }
    if earlier.as_slice().len() >= STEPS - 1 {
        return Err(ActFault::TooLong { at });
    }
    let earlier = with_step(earlier, act_of(alloc, stmts)?)?;
    Ok(ActsReader {
        blocks: new_blocks(alloc, earlier),
        turn: Turn::Step,
    })
}

// An assignment, a send or a mark has begun, where the behaviour may have one more statement.
fn begin_phrase(blocks: Blocks, phrase: Phrase, at: u32) -> Result<ActsReader, ActFault>
    ensures { result ≡ phrase_counted blocks phrase at }
{
    match counted(blocks, at) {
        Ok(blocks) => Ok(ActsReader {
            blocks,
            turn: Turn::Within(phrase),
        }),
        Err(fault) => refused(phrase, fault),
    }
}

// A token where a statement may begin.
#[tactic(auto, unfolding(crate::specs::inner::ActReading::begun_at))]
fn begin(
    alloc: Global,
    blocks: Blocks,
    piece: Piece<'_>,
    names: &Known<'_>,
    stepped: bool,
) -> Result<ActsReader, ActFault>
    requires few { length names.now.vars ≤ 65536 }
    ensures { Answers (begun_at names.now stepped blocks (token_of piece.entry)) result }
{
    match piece.kind {
        Kind::CloseBrace => close_block(blocks, piece.at),
        Kind::Step => next_step(alloc, blocks, stepped, piece.at),
        Kind::If => Ok(ActsReader {
            blocks: counted(blocks, piece.at)?,
            turn: Turn::Condition(new_guard(alloc)),
        }),
        _ => match new_phrase(piece, names) {
            Ok(phrase) => begin_phrase(blocks, phrase, piece.at),
            Err(fault) => refused(blocks, fault),
        },
    }
}

// A token behind the first block of an `if`.
#[tactic(auto, unfolding(crate::specs::inner::ActReading::after_choice))]
fn behind_block(
    alloc: Global,
    blocks: Blocks,
    condition: Cond,
    body: Row<Stmt>,
    piece: Piece<'_>,
    names: &Known<'_>,
    stepped: bool,
) -> Result<ActsReader, ActFault>
    requires few { length names.now.vars ≤ 65536 }
    ensures { Answers (after_choice names.now stepped blocks condition body (token_of piece.entry)) result }
{
    match piece.kind {
        Kind::Else => Ok(ActsReader {
            blocks,
            turn: Turn::Else(condition, body),
        }),
        _ => begin(
            alloc,
            with_if(blocks, condition, body)?,
            piece,
            names,
            stepped,
        ),
    }
}

// A token behind `else`.
#[tactic(auto, unfolding(crate::specs::inner::ActReading::else_opened))]
fn behind_else(
    alloc: Global,
    blocks: Blocks,
    condition: Cond,
    body: Row<Stmt>,
    piece: Piece<'_>,
) -> Result<ActsReader, ActFault>
    ensures { Answers (else_opened blocks condition body (token_of piece.entry)) result }
{
    match piece.kind {
        Kind::OpenBrace => open_block(alloc, blocks, condition, Some(body), piece.at),
        _ => refused(
            (blocks, (condition, body)),
            ActFault::Syntax { at: piece.at },
        ),
    }
}

// A token in the condition of an `if`, or the brace behind it.
#[tactic(auto, unfolding(crate::specs::inner::ActReading::condition_read))]
fn in_condition(
    alloc: Global,
    blocks: Blocks,
    guard: GuardReader,
    piece: Piece<'_>,
    names: &Known<'_>,
) -> Result<ActsReader, ActFault>
    requires few { length names.now.vars ≤ 65536 }
    requires nots { nots_waiting guard < 4294967295 }
    ensures { Answers (condition_read names.now blocks guard (token_of piece.entry)) result }
{
    match piece.kind {
        Kind::OpenBrace => {
            match guard_end(alloc, guard, piece.at) {
                Ok(condition) => open_block(alloc, blocks, condition, None, piece.at),
                Err(fault) => refused(blocks, fault),
            }
        }
        _ => {
            let room = LEVELS.saturating_sub(blocks.outer.len());
            match guard_next(alloc, guard, piece, names, room) {
                Ok(guard) => Ok(ActsReader {
                    blocks,
                    turn: Turn::Condition(guard),
                }),
                Err(fault) => refused(blocks, fault),
            }
        }
    }
}

// A token in an assignment, a send or a mark.
#[tactic(auto, unfolding(crate::specs::inner::ActReading::phrase_read))]
fn in_phrase(
    alloc: Global,
    blocks: Blocks,
    phrase: Phrase,
    piece: Piece<'_>,
    names: &Known<'_>,
    marks: &mut Marks,
) -> Result<ActsReader, ActFault>
    requires few { length names.now.vars ≤ 65536 }
    requires objects { length names.now.objects ≤ 256 }
    requires signals { length names.now.signals ≤ 65536 }
    requires marks { length marks.old < 65536 }
    ensures gives { AnswersWith
        (phrase_read names.now marks.old blocks phrase (token_of piece.entry)) result marks.new }
    ensures kept { KeepsMarks marks.old marks.new }
{
    let room = LEVELS.saturating_sub(blocks.outer.len());
    match phrase_next(alloc, phrase, piece, names, marks, room) {
        Ok(Phrased::Goes(phrase)) => Ok(ActsReader {
            blocks,
            turn: Turn::Within(phrase),
        }),
        Ok(Phrased::Ends(stmt)) => Ok(ActsReader {
            blocks: with_stmt(blocks, stmt)?,
            turn: Turn::Begins,
        }),
        Err(fault) => refused(blocks, fault),
    }
}

// A token behind `step`: the semicolon.
#[tactic(auto, unfolding(crate::specs::inner::ActReading::step_taken))]
fn behind_step(blocks: Blocks, piece: Piece<'_>) -> Result<ActsReader, ActFault>
    ensures { Answers (step_taken blocks (token_of piece.entry)) result }
{
    match piece.kind {
        Kind::Semicolon => Ok(ActsReader {
            blocks,
            turn: Turn::Begins,
        }),
        _ => Err(ActFault::Syntax { at: piece.at }),
    }
}

// The next token of behaviours; there may be several where they are steps.
#[tactic(auto, using(crate::proofs::AnswerLaws::beside_answers, crate::proofs::AnswerLaws::same_kept), unfolding(crate::specs::inner::ActReading::acts_step))]
pub(crate) fn acts_next(
    alloc: Global,
    reader: ActsReader,
    piece: Piece<'_>,
    names: &Known<'_>,
    marks: &mut Marks,
    stepped: bool,
) -> Result<ActsReader, ActFault>
    requires few { length names.now.vars ≤ 65536 }
    requires objects { length names.now.objects ≤ 256 }
    requires signals { length names.now.signals ≤ 65536 }
    requires marks { length marks.old < 65536 }
    requires nots { turn_nots reader.turn < 4294967295 }
    ensures gives { AnswersWith
        (acts_step names.now stepped marks.old reader (token_of piece.entry)) result marks.new }
    ensures kept { KeepsMarks marks.old marks.new }
{
    let ActsReader { blocks, turn } = reader;
    match turn {
        Turn::Begins => begin(alloc, blocks, piece, names, stepped),
        Turn::Within(phrase) => in_phrase(alloc, blocks, phrase, piece, names, marks),
        Turn::Condition(guard) => in_condition(alloc, blocks, guard, piece, names),
        Turn::Chosen(condition, body) => {
            behind_block(alloc, blocks, condition, body, piece, names, stepped)
        }
        Turn::Else(condition, body) => behind_else(alloc, blocks, condition, body, piece),
        Turn::Step => behind_step(blocks, piece),
    }
}

// The behaviours that have been read, where no block is open.
#[tactic(auto, unfolding(crate::specs::inner::ActReading::whole_acts))]
fn whole(alloc: Global, blocks: Blocks, at: u32) -> Result<ReadActs, ActFault>
    ensures { Answers (whole_acts blocks at) result }
{
    let Blocks {
        earlier,
        outer,
        stmts,
        begun: _,
    } = blocks;
    if outer.len() > 0 {
        return Err(ActFault::Syntax { at });
    }
    Ok(ReadActs {
        earlier,
        last: act_of(alloc, stmts)?,
    })
}

// The behaviours that have been read up to the first block of an `if`.
fn whole_with_if(
    alloc: Global,
    blocks: Blocks,
    condition: Cond,
    body: Row<Stmt>,
    at: u32,
) -> Result<ReadActs, ActFault>
    ensures { Answers (whole_acts (without_else blocks condition body) at) result }
{
    let blocks = with_if(blocks, condition, body)?;
    whole(alloc, blocks, at)
}

// The behaviours that have been read, where they may end at this byte; otherwise the fault of
// ending there.
#[tactic(auto, unfolding(crate::specs::inner::ActReading::acts_value))]
pub(crate) fn acts_end(alloc: Global, reader: ActsReader, at: u32) -> Result<ReadActs, ActFault>
    ensures { Answers (acts_value reader at) result }
{
    let ActsReader { blocks, turn } = reader;
    match turn {
        Turn::Begins => whole(alloc, blocks, at),
        Turn::Chosen(condition, body) => whole_with_if(alloc, blocks, condition, body, at),
        Turn::Within(phrase) => refused((blocks, phrase), ActFault::Syntax { at }),
        Turn::Condition(guard) => refused((blocks, guard), ActFault::Syntax { at }),
        Turn::Else(condition, body) => {
            refused((blocks, (condition, body)), ActFault::Syntax { at })
        }
        Turn::Step => refused(blocks, ActFault::Syntax { at }),
    }
}
