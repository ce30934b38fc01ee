//! Reading the arguments of a send or a mark token by token, from behind the opening parenthesis
//! on.
ghost use Rattle.std.specs.Prelude.{◌≡◌, ◌≤◌, ◌++◌, ◌∷◌, [], length, IfOk};
ghost use Rattle.pssm_acts.specs.inner.ExprReading.{Answers, token_of};
ghost use Rattle.pssm_acts.specs.inner.ArgumentReading.{argument_closed, argument_ended, argument_more, arguments_step, listed_step};

use crate::act_fault::ActFault;
use crate::expr_reader::{ExprReader, expr_end, expr_next, new_reader};
use crate::known::Known;
use crate::token::{Kind, Piece};
use pssm_model::Row;
use pssm_semantics::Expr;
use std::alloc::{AllocError as NoMemory, Global};

/// Arguments of which nothing has been read; or those that are whole, and one that has been read in
/// part.
#[derive(Drop)]
pub enum Arguments {
    Opened,
    Listed(Row<Expr>, ExprReader),
}

/// What a token makes of arguments: they go on, or the parenthesis is closed.
#[derive(Drop)]
pub enum Argued {
    Goes(Arguments),
    Ends(Row<Expr>),
}

// One argument more.
fn with_argument(args: Row<Expr>, argument: Expr) -> Result<Row<Expr>, NoMemory>
    ensures { IfOk result (λ more. more ≡ args ++ argument ∷ []) }
{
    let mut list = args.into_vec();
    list.push(argument)?;
    Ok(Row::from_vec(list))
}

// The arguments with the last one, where it may end at this byte.
#[tactic(auto, unfolding(crate::specs::inner::ArgumentReading::argument_ended))]
fn ended(alloc: Global, args: Row<Expr>, last: ExprReader, at: u32) -> Result<Row<Expr>, ActFault>
    ensures { Answers (argument_ended args last at) result }
{
    let argument = expr_end(alloc, last, at)?;
    Ok(with_argument(args, argument)?)
}

// A token that belongs to an argument.
#[tactic(auto, unfolding(crate::specs::inner::ArgumentReading::argument_more))]
fn more(
    alloc: Global,
    args: Row<Expr>,
    last: ExprReader,
    piece: Piece<'_>,
    names: &Known<'_>,
    room: usize,
) -> Result<Argued, ActFault>
    requires few { length names.now.vars ≤ 65536 }
    ensures { Answers (argument_more names.now room args last (token_of piece.entry)) result }
{
    let last = expr_next(alloc, last, piece, names, room)?;
    Ok(Argued::Goes(Arguments::Listed(args, last)))
}

// A closing parenthesis: that of the arguments, where none is open in the last one.
#[tactic(auto, unfolding(crate::specs::inner::ArgumentReading::argument_closed))]
fn closed(
    alloc: Global,
    args: Row<Expr>,
    last: ExprReader,
    piece: Piece<'_>,
    names: &Known<'_>,
    room: usize,
) -> Result<Argued, ActFault>
    requires few { length names.now.vars ≤ 65536 }
    ensures { Answers (argument_closed names.now room args last (token_of piece.entry)) result }
{
    if last.outer.len() > 0 {
        return more(alloc, args, last, piece, names, room);
    }
    Ok(Argued::Ends(ended(alloc, args, last, piece.at)?))
}

// A token behind the first of an argument, or where a further one may begin.
#[tactic(auto, unfolding(crate::specs::inner::ArgumentReading::listed_step))]
fn listed(
    alloc: Global,
    args: Row<Expr>,
    last: ExprReader,
    piece: Piece<'_>,
    names: &Known<'_>,
    room: usize,
) -> Result<Argued, ActFault>
    requires few { length names.now.vars ≤ 65536 }
    ensures { Answers (listed_step names.now room args last (token_of piece.entry)) result }
{
    match piece.kind {
        Kind::Comma => {
            let args = ended(alloc, args, last, piece.at)?;
            Ok(Argued::Goes(Arguments::Listed(args, new_reader(alloc))))
        }
        Kind::Close => closed(alloc, args, last, piece, names, room),
        _ => more(alloc, args, last, piece, names, room),
    }
}

// The next token of arguments; so many levels of parentheses may be open in them.
#[tactic(auto, unfolding(crate::specs::inner::ArgumentReading::arguments_step))]
pub(crate) fn arguments_next(
    alloc: Global,
    arguments: Arguments,
    piece: Piece<'_>,
    names: &Known<'_>,
    room: usize,
) -> Result<Argued, ActFault>
    requires few { length names.now.vars ≤ 65536 }
    ensures { Answers (arguments_step names.now room arguments (token_of piece.entry)) result }
{
    match arguments {
        Arguments::Listed(args, last) => listed(alloc, args, last, piece, names, room),
        Arguments::Opened => {
            let none = Row::from_vec(Vec::new(alloc));
            match piece.kind {
                Kind::Close => Ok(Argued::Ends(none)),
                _ => listed(alloc, none, new_reader(alloc), piece, names, room),
            }
        }
    }
}
