//! Reading an expression token by token: what has been read of it, and what the next token makes of
//! that.
ghost use Rattle.std.specs.Prelude.{◌≡◌, ◌≤◌, length, IfOk};
ghost use Rattle.pssm_acts.specs.inner.ExprReading.{Answers, after_atom, at_atom, atom_of, behind_product, closed, expr_step, expr_value, fresh_expr, level_opened, product_of, sum_of, token_of};

use crate::act_fault::{ActFault, beside, refused};
use crate::known::Known;
use crate::numbers::number_of;
use crate::stack::Stack;
use crate::token::{Kind, Piece};
use pssm_model::Boxed;
use pssm_semantics::Expr;
use std::alloc::{AllocError as NoMemory, Global};

/// The left side of a `+` or a `-`, where one waits for its right side.
#[derive(Drop)]
pub enum Left {
    Nothing,
    Plus(Expr),
    Minus(Expr),
}

/// What stands before an opening parenthesis: a left side, and the factors before a `*`.
#[derive(Drop)]
pub struct Level {
    pub left: Left,
    pub factor: Option<Expr>,
}

/// What comes next: an atom, perhaps behind factors and a `*`; or what may stand behind a product
/// that has been read.
#[derive(Drop)]
pub enum Place {
    Wants(Option<Expr>),
    Has(Expr),
}

/// An expression that has been read in part: what stands before each open parenthesis, and what
/// behind the last.
#[derive(Drop)]
pub struct ExprReader {
    pub outer: Stack<Level>,
    pub left: Left,
    pub place: Place,
}

// The reader of an expression of which nothing has been read.
pub(crate) fn new_reader(alloc: Global) -> ExprReader
    ensures { result ≡ fresh_expr }
{
    ExprReader {
        outer: Stack::new(alloc),
        left: Left::Nothing,
        place: Place::Wants(None),
    }
}

// Two values, put on the heap.
pub(crate) fn boxed_pair<T: Drop>(
    alloc: Global,
    first: T,
    second: T,
) -> Result<(Boxed<T>, Boxed<T>), NoMemory>
    ensures { IfOk result (λ pair. pair ≡ (first, second)) }
{
    let first = match Boxed::new(alloc, first) {
        Ok(boxed) => boxed,
        Err(fault) => return refused(second, fault),
    };
    let second = Boxed::new(alloc, second)?;
    Ok((first, second))
}

// The factors and an atom behind them.
fn product(alloc: Global, factor: Option<Expr>, atom: Expr) -> Result<Expr, NoMemory>
    ensures { IfOk result (λ e. e ≡ product_of factor atom) }
{
    match factor {
        None => Ok(atom),
        Some(factor) => {
            let (factor, atom) = boxed_pair(alloc, factor, atom)?;
            Ok(Expr::Prod(factor, atom))
        }
    }
}

// The left side and a product behind it.
fn sum(alloc: Global, left: Left, term: Expr) -> Result<Expr, NoMemory>
    ensures { IfOk result (λ e. e ≡ sum_of left term) }
{
    match left {
        Left::Nothing => Ok(term),
        Left::Plus(left) => {
            let (left, term) = boxed_pair(alloc, left, term)?;
            Ok(Expr::Sum(left, term))
        }
        Left::Minus(left) => {
            let (left, term) = boxed_pair(alloc, left, term)?;
            Ok(Expr::Diff(left, term))
        }
    }
}

// The number, variable or parameter that a token is.
#[tactic(auto, unfolding(crate::specs::inner::ExprReading::atom_of))]
fn atom(piece: Piece<'_>, names: &Known<'_>) -> Result<Expr, ActFault>
    requires few { length names.now.vars ≤ 65536 }
    ensures { result ≡ atom_of names.now (token_of piece.entry) }
{
    match piece.kind {
        Kind::Number => match number_of(piece.word, piece.at) {
            Ok(number) => Ok(Expr::Num(number)),
            Err(fault) => Err(fault),
        },
        Kind::Name => match names.variable(piece.word) {
            Some(number) => Ok(Expr::Var(number)),
            None => Err(ActFault::UnknownName { at: piece.at }),
        },
        Kind::Param(number) => Ok(Expr::Param(number)),
        _ => Err(ActFault::Syntax { at: piece.at }),
    }
}

// A parenthesis opens, where as many levels as there is room for may be open.
#[tactic(auto, unfolding(crate::specs::inner::ExprReading::level_opened))]
fn opened(
    outer: Stack<Level>,
    level: Level,
    piece: Piece<'_>,
    room: usize,
) -> Result<Stack<Level>, ActFault>
    ensures { Answers (level_opened room outer level (token_of piece.entry)) result }
{
    if outer.len() >= room {
        return refused((outer, level), ActFault::TooLong { at: piece.at });
    }
    Ok(outer.with(level)?)
}

// The reader of an expression behind these factors and an atom.
fn with_atom(
    alloc: Global,
    outer: Stack<Level>,
    left: Left,
    factor: Option<Expr>,
    atom: Expr,
) -> Result<ExprReader, NoMemory>
    ensures { IfOk result (λ reader. reader ≡ behind_product outer left (product_of factor atom)) }
{
    let ((outer, left), term) = beside((outer, left), product(alloc, factor, atom))?;
    Ok(ExprReader {
        outer,
        left,
        place: Place::Has(term),
    })
}

// A token where an atom may stand.
#[tactic(auto, unfolding(crate::specs::inner::ExprReading::at_atom))]
fn wants_atom(
    alloc: Global,
    outer: Stack<Level>,
    left: Left,
    factor: Option<Expr>,
    piece: Piece<'_>,
    names: &Known<'_>,
    room: usize,
) -> Result<ExprReader, ActFault>
    requires few { length names.now.vars ≤ 65536 }
    ensures { Answers (at_atom names.now room outer left factor (token_of piece.entry)) result }
{
    match piece.kind {
        Kind::Open => {
            let outer = opened(outer, Level { left, factor }, piece, room)?;
            Ok(ExprReader {
                outer,
                left: Left::Nothing,
                place: Place::Wants(None),
            })
        }
        _ => match atom(piece, names) {
            Ok(atom) => Ok(with_atom(alloc, outer, left, factor, atom)?),
            Err(fault) => refused((outer, (left, factor)), fault),
        },
    }
}

// A closing parenthesis behind a product.
#[tactic(auto, unfolding(crate::specs::inner::ExprReading::closed))]
fn close(
    alloc: Global,
    outer: Stack<Level>,
    left: Left,
    term: Expr,
    at: u32,
) -> Result<ExprReader, ActFault>
    ensures { Answers (closed outer left term at) result }
{
    match outer.split() {
        Some((outer, level)) => {
            let Level {
                left: before,
                factor,
            } = level;
            match sum(alloc, left, term) {
                Ok(inner) => Ok(with_atom(alloc, outer, before, factor, inner)?),
                Err(_) => refused((outer, (before, factor)), ActFault::NoMemory),
            }
        }
        None => refused((left, term), ActFault::Syntax { at }),
    }
}

// A token behind a product.
#[tactic(auto, unfolding(crate::specs::inner::ExprReading::after_atom))]
fn behind_atom(
    alloc: Global,
    outer: Stack<Level>,
    left: Left,
    term: Expr,
    piece: Piece<'_>,
) -> Result<ExprReader, ActFault>
    ensures { Answers (after_atom outer left term (token_of piece.entry)) result }
{
    match piece.kind {
        Kind::Times => Ok(ExprReader {
            outer,
            left,
            place: Place::Wants(Some(term)),
        }),
        Kind::Plus => Ok(ExprReader {
            outer,
            left: Left::Plus(sum(alloc, left, term)?),
            place: Place::Wants(None),
        }),
        Kind::Minus => Ok(ExprReader {
            outer,
            left: Left::Minus(sum(alloc, left, term)?),
            place: Place::Wants(None),
        }),
        Kind::Close => close(alloc, outer, left, term, piece.at),
        _ => refused((outer, (left, term)), ActFault::Syntax { at: piece.at }),
    }
}

// The next token of an expression; so many levels of parentheses may be open.
#[tactic(auto, unfolding(crate::specs::inner::ExprReading::expr_step))]
pub(crate) fn expr_next(
    alloc: Global,
    reader: ExprReader,
    piece: Piece<'_>,
    names: &Known<'_>,
    room: usize,
) -> Result<ExprReader, ActFault>
    requires few { length names.now.vars ≤ 65536 }
    ensures { Answers (expr_step names.now room reader (token_of piece.entry)) result }
{
    let ExprReader { outer, left, place } = reader;
    match place {
        Place::Wants(factor) => wants_atom(alloc, outer, left, factor, piece, names, room),
        Place::Has(term) => behind_atom(alloc, outer, left, term, piece),
    }
}

// The expression that has been read, where it may end here; otherwise the fault of what stands at
// this byte.
#[tactic(auto, unfolding(crate::specs::inner::ExprReading::expr_value))]
pub(crate) fn expr_end(alloc: Global, reader: ExprReader, at: u32) -> Result<Expr, ActFault>
    ensures { Answers (expr_value reader at) result }
{
    let ExprReader { outer, left, place } = reader;
    match place {
        Place::Has(term) => {
            if outer.len() > 0 {
                return refused((outer, (left, term)), ActFault::Syntax { at });
            }
            Ok(sum(alloc, left, term)?)
        }
        Place::Wants(factor) => refused((outer, (left, factor)), ActFault::Syntax { at }),
    }
}
