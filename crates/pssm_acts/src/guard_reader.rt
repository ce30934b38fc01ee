//! Reading a guard token by token: what has been read of it, and what the next token makes of that.
ghost use Rattle.std.specs.Prelude.{◌≡◌, ◌≤◌, ◌<◌, ◌^◌, length, IfOk};
ghost use Rattle.pssm_acts.specs.inner.ExprReading.{Answers, token_of};
ghost use Rattle.pssm_acts.specs.inner.GuardReading.{after_unit, bracket_closed, bracket_opened, compared, conjunction_of, disjunction_of, fresh_guard, guard_step, guard_value, in_first, in_second, nots_of, nots_waiting, side_begun, unit_of, unit_wanted, whole_guard, with_unit};

use crate::act_fault::{ActFault, beside, refused};
use crate::expr_reader::{ExprReader, boxed_pair, expr_end, expr_next, new_reader};
use crate::known::Known;
use crate::stack::Stack;
use crate::token::{Kind, Piece};
use pssm_model::Boxed;
use pssm_semantics::{Cond, Expr, Rel};
use std::alloc::{AllocError as NoMemory, Global};

/// What stands before a unit: a guard and a `&&`, and so many `!`.
#[derive(Drop)]
pub struct Before {
    pub both: Option<Cond>,
    pub nots: u32,
}

/// What stands before an opening bracket: a guard and a `||`, and what stands before the bracket as
/// a unit.
#[derive(Drop)]
pub struct Bracket {
    pub either: Option<Cond>,
    pub before: Before,
}

/// A comparison of which the left side has been read, and the right side in part.
#[derive(Drop)]
pub struct Half {
    pub before: Before,
    pub rel: Rel,
    pub left: Expr,
    pub side: ExprReader,
}

/// What comes next: a unit; the left or the right side of a comparison, read in part; or what may
/// stand behind units that are joined by `&&`.
#[derive(Drop)]
pub enum Stage {
    Wants(Before),
    First(Before, ExprReader),
    Second(Half),
    Has(Cond),
}

/// A guard that has been read in part: what stands before each open bracket, and what behind the
/// last.
#[derive(Drop)]
pub struct GuardReader {
    pub outer: Stack<Bracket>,
    pub either: Option<Cond>,
    pub stage: Stage,
}

// The reader of a guard of which nothing has been read.
pub(crate) fn new_guard(alloc: Global) -> GuardReader
    ensures { result ≡ fresh_guard }
{
    GuardReader {
        outer: Stack::new(alloc),
        either: None,
        stage: Stage::Wants(Before {
            both: None,
            nots: 0,
        }),
    }
}

// So many `!` and a guard behind them.
fn with_nots(alloc: Global, count: u32, unit: Cond) -> Result<Cond, NoMemory>
    ensures { IfOk result (λ c. c ≡ nots_of count unit) }
{
    let mut cond = unit;
    for _i in 0..count {
        cond = Cond::Not(Boxed::new(alloc, cond)?);
    }
    Ok(cond)
}

// A guard and a `&&`, where there is one, and a guard behind it.
fn conjunction(alloc: Global, both: Option<Cond>, cond: Cond) -> Result<Cond, NoMemory>
    ensures { IfOk result (λ c. c ≡ conjunction_of both cond) }
{
    match both {
        None => Ok(cond),
        Some(both) => {
            let (both, cond) = boxed_pair(alloc, both, cond)?;
            Ok(Cond::And(both, cond))
        }
    }
}

// A guard and a `||`, where there is one, and a guard behind it.
fn disjunction(alloc: Global, either: Option<Cond>, cond: Cond) -> Result<Cond, NoMemory>
    ensures { IfOk result (λ c. c ≡ disjunction_of either cond) }
{
    match either {
        None => Ok(cond),
        Some(either) => {
            let (either, cond) = boxed_pair(alloc, either, cond)?;
            Ok(Cond::Or(either, cond))
        }
    }
}

// A unit with what stands before it.
fn unit(alloc: Global, before: Before, cond: Cond) -> Result<Cond, NoMemory>
    ensures { IfOk result (λ c. c ≡ unit_of before cond) }
{
    let Before { both, nots } = before;
    match with_nots(alloc, nots, cond) {
        Ok(negated) => conjunction(alloc, both, negated),
        Err(fault) => refused(both, fault),
    }
}

// A bracket opens, where as many levels as there is room for may be open.
#[tactic(auto, unfolding(crate::specs::inner::GuardReading::bracket_opened))]
fn open_bracket(
    outer: Stack<Bracket>,
    bracket: Bracket,
    at: u32,
    room: usize,
) -> Result<GuardReader, ActFault>
    ensures { Answers (bracket_opened room outer bracket at) result }
{
    if outer.len() >= room {
        return refused((outer, bracket), ActFault::TooLong { at });
    }
    Ok(GuardReader {
        outer: outer.with(bracket)?,
        either: None,
        stage: Stage::Wants(Before {
            both: None,
            nots: 0,
        }),
    })
}

// The first token of a comparison.
#[tactic(auto, unfolding(crate::specs::inner::GuardReading::side_begun))]
fn begin_side(
    alloc: Global,
    outer: Stack<Bracket>,
    either: Option<Cond>,
    before: Before,
    piece: Piece<'_>,
    names: &Known<'_>,
    room: usize,
) -> Result<GuardReader, ActFault>
    requires few { length names.now.vars ≤ 65536 }
    ensures { Answers (side_begun names.now room outer either before (token_of piece.entry)) result }
{
    let room = room.saturating_sub(outer.len());
    match expr_next(alloc, new_reader(alloc), piece, names, room) {
        Ok(side) => Ok(GuardReader {
            outer,
            either,
            stage: Stage::First(before, side),
        }),
        Err(fault) => refused((outer, (either, before)), fault),
    }
}

// The reader of a guard behind a unit and what stands before it.
fn has_unit(
    alloc: Global,
    outer: Stack<Bracket>,
    either: Option<Cond>,
    before: Before,
    cond: Cond,
) -> Result<GuardReader, NoMemory>
    ensures { IfOk result (λ reader. reader ≡ with_unit outer either (unit_of before cond)) }
{
    let ((outer, either), cond) = beside((outer, either), unit(alloc, before, cond))?;
    Ok(GuardReader {
        outer,
        either,
        stage: Stage::Has(cond),
    })
}

// A token where a unit may stand.
#[tactic(auto, unfolding(crate::specs::inner::GuardReading::unit_wanted))]
fn wants_unit(
    alloc: Global,
    outer: Stack<Bracket>,
    either: Option<Cond>,
    before: Before,
    piece: Piece<'_>,
    names: &Known<'_>,
    room: usize,
) -> Result<GuardReader, ActFault>
    requires few { length names.now.vars ≤ 65536 }
    requires nots { before.nots < 4294967295 }
    ensures { Answers (unit_wanted names.now room outer either before (token_of piece.entry)) result }
{
    match piece.kind {
        Kind::OpenBracket => open_bracket(outer, Bracket { either, before }, piece.at, room),
        Kind::Not => Ok(GuardReader {
            outer,
            either,
            stage: Stage::Wants(Before {
                both: before.both,
                nots: before.nots + 1,
            }),
        }),
        Kind::True => Ok(has_unit(alloc, outer, either, before, Cond::True)?),
        Kind::False => Ok(has_unit(alloc, outer, either, before, Cond::False)?),
        _ => begin_side(alloc, outer, either, before, piece, names, room),
    }
}

// A token in the left side of a comparison.
#[tactic(auto, unfolding(crate::specs::inner::GuardReading::in_first))]
fn first_side(
    alloc: Global,
    before: Before,
    side: ExprReader,
    piece: Piece<'_>,
    names: &Known<'_>,
    room: usize,
) -> Result<Stage, ActFault>
    requires few { length names.now.vars ≤ 65536 }
    ensures { Answers (in_first names.now room before side (token_of piece.entry)) result }
{
    match piece.kind {
        Kind::Relation(rel) => match expr_end(alloc, side, piece.at) {
            Ok(left) => Ok(Stage::Second(Half {
                before,
                rel,
                left,
                side: new_reader(alloc),
            })),
            Err(fault) => refused(before, fault),
        },
        _ => match expr_next(alloc, side, piece, names, room) {
            Ok(side) => Ok(Stage::First(before, side)),
            Err(fault) => refused(before, fault),
        },
    }
}

// A comparison, where its right side may end at this byte.
#[tactic(auto, unfolding(crate::specs::inner::GuardReading::compared))]
fn comparison(alloc: Global, half: Half, at: u32) -> Result<Cond, ActFault>
    ensures { Answers (compared half at) result }
{
    let Half {
        before,
        rel,
        left,
        side,
    } = half;
    match expr_end(alloc, side, at) {
        Ok(right) => Ok(unit(alloc, before, Cond::Compare(rel, left, right))?),
        Err(fault) => refused((before, left), fault),
    }
}

// A closing bracket behind units that are joined by `&&`.
#[tactic(auto, unfolding(crate::specs::inner::GuardReading::bracket_closed))]
fn close_bracket(
    alloc: Global,
    outer: Stack<Bracket>,
    either: Option<Cond>,
    cond: Cond,
    at: u32,
) -> Result<GuardReader, ActFault>
    ensures { Answers (bracket_closed outer either cond at) result }
{
    match outer.split() {
        Some((outer, bracket)) => {
            let Bracket {
                either: outside,
                before,
            } = bracket;
            match disjunction(alloc, either, cond) {
                Ok(inner) => Ok(has_unit(alloc, outer, outside, before, inner)?),
                Err(_) => refused((outer, (outside, before)), ActFault::NoMemory),
            }
        }
        None => refused((either, cond), ActFault::Syntax { at }),
    }
}

// A token behind units that are joined by `&&`.
#[tactic(auto, unfolding(crate::specs::inner::GuardReading::after_unit))]
fn behind_unit(
    alloc: Global,
    outer: Stack<Bracket>,
    either: Option<Cond>,
    cond: Cond,
    piece: Piece<'_>,
) -> Result<GuardReader, ActFault>
    ensures { Answers (after_unit outer either cond (token_of piece.entry)) result }
{
    match piece.kind {
        Kind::And => Ok(GuardReader {
            outer,
            either,
            stage: Stage::Wants(Before {
                both: Some(cond),
                nots: 0,
            }),
        }),
        Kind::Or => Ok(GuardReader {
            outer,
            either: Some(disjunction(alloc, either, cond)?),
            stage: Stage::Wants(Before {
                both: None,
                nots: 0,
            }),
        }),
        Kind::CloseBracket => close_bracket(alloc, outer, either, cond, piece.at),
        _ => refused((outer, (either, cond)), ActFault::Syntax { at: piece.at }),
    }
}

// A token in the right side of a comparison.
#[tactic(auto, unfolding(crate::specs::inner::GuardReading::in_second))]
fn second_side(
    alloc: Global,
    outer: Stack<Bracket>,
    either: Option<Cond>,
    half: Half,
    piece: Piece<'_>,
    names: &Known<'_>,
    room: usize,
) -> Result<GuardReader, ActFault>
    requires few { length names.now.vars ≤ 65536 }
    ensures { Answers (in_second names.now room outer either half (token_of piece.entry)) result }
{
    match piece.kind {
        Kind::And | Kind::Or | Kind::CloseBracket => {
            match comparison(alloc, half, piece.at) {
                Ok(cond) => behind_unit(alloc, outer, either, cond, piece),
                Err(fault) => refused((outer, either), fault),
            }
        }
        _ => {
            let Half {
                before,
                rel,
                left,
                side,
            } = half;
            let room = room.saturating_sub(outer.len());
            match expr_next(alloc, side, piece, names, room) {
                Ok(side) => Ok(GuardReader {
                    outer,
                    either,
                    stage: Stage::Second(Half {
                        before,
                        rel,
                        left,
                        side,
                    }),
                }),
                Err(fault) => refused((outer, (either, (before, left))), fault),
            }
        }
    }
}

// The next token of a guard; so many levels of brackets and parentheses may be open.
#[tactic(auto, unfolding(crate::specs::inner::GuardReading::guard_step))]
pub(crate) fn guard_next(
    alloc: Global,
    reader: GuardReader,
    piece: Piece<'_>,
    names: &Known<'_>,
    room: usize,
) -> Result<GuardReader, ActFault>
    requires few { length names.now.vars ≤ 65536 }
    requires nots { nots_waiting reader < 4294967295 }
    ensures { Answers (guard_step names.now room reader (token_of piece.entry)) result }
{
    let GuardReader {
        outer,
        either,
        stage,
    } = reader;
    match stage {
        Stage::Wants(before) => wants_unit(alloc, outer, either, before, piece, names, room),
        Stage::First(before, side) => {
            let room = room.saturating_sub(outer.len());
            match first_side(alloc, before, side, piece, names, room) {
                Ok(stage) => Ok(GuardReader {
                    outer,
                    either,
                    stage,
                }),
                Err(fault) => refused((outer, either), fault),
            }
        }
        Stage::Second(half) => second_side(alloc, outer, either, half, piece, names, room),
        Stage::Has(cond) => behind_unit(alloc, outer, either, cond, piece),
    }
}

// The guard that units have been read of, where no bracket is open.
fn whole(
    alloc: Global,
    outer: Stack<Bracket>,
    either: Option<Cond>,
    cond: Cond,
    at: u32,
) -> Result<Cond, ActFault>
    ensures { Answers (whole_guard outer either cond at) result }
{
    if outer.len() > 0 {
        return refused((outer, (either, cond)), ActFault::Syntax { at });
    }
    Ok(disjunction(alloc, either, cond)?)
}

// The guard that has been read, where it may end at this byte; otherwise the fault of ending there.
#[tactic(auto, unfolding(crate::specs::inner::GuardReading::guard_value))]
pub(crate) fn guard_end(alloc: Global, reader: GuardReader, at: u32) -> Result<Cond, ActFault>
    ensures { Answers (guard_value reader at) result }
{
    let GuardReader {
        outer,
        either,
        stage,
    } = reader;
    match stage {
        Stage::Second(half) => match comparison(alloc, half, at) {
            Ok(cond) => whole(alloc, outer, either, cond, at),
            Err(fault) => refused((outer, either), fault),
        },
        Stage::Has(cond) => whole(alloc, outer, either, cond, at),
        Stage::Wants(before) => refused((outer, (either, before)), ActFault::Syntax { at }),
        Stage::First(before, side) => {
            refused((outer, (either, (before, side))), ActFault::Syntax { at })
        }
    }
}
