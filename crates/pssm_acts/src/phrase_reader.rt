//! Reading an assignment, a send or a mark token by token: what has been read of it, and what the
//! next token makes of that.
ghost use Rattle.std.specs.Prelude.{◌≡◌, ◌≤◌, ◌<◌, length, position, bytes_eq};
ghost use Rattle.pssm_acts.specs.inner.ExprReading.{Answers, token_of};
ghost use Rattle.pssm_acts.specs.Marks.{KeepsMarks};
ghost use Rattle.pssm_acts.specs.inner.PhraseReading.{AnswersWith, argument_read, became, call_made, called_ended, dotted, mark_read, named, phrase_begun, phrase_step, receiver_read, signal_found, signal_read, value_read};

use crate::act_fault::{ActFault, refused};
use crate::argument_reader::{Argued, Arguments, arguments_next};
use crate::expr_reader::{ExprReader, expr_end, expr_next, new_reader};
use crate::known::Known;
use crate::marks::Marks;
use crate::token::{Kind, Piece};
use pssm_model::{MarkId, Row, SignalId};
use pssm_semantics::{Expr, ObjectId, Stmt};
use std::alloc::Global;

// The greatest number of a mark's arguments (this profile's choice).
const MARK_ARGUMENTS: usize = 8;

/// What arguments belong to: a signal that is sent to an object, or to the running one, and has so
/// many parameters; or a mark.
#[derive(Clone, Copy)]
pub enum Call {
    Send(Option<ObjectId>, SignalId, u8),
    Mark(MarkId),
}

/// What has been read of an assignment, a send or a mark.
///
/// `Variable`: `x`. `Value`: `x := ..`. `Send`: `send`. `Receiver`: `send b`. `Dotted`: `send b.`.
/// `Mark`: `mark`. `Named`: `send b.Go`, or `mark m`. `Called`: the same and `(..`. `Whole`: all
/// but the semicolon.
#[derive(Drop)]
pub enum Phrase {
    Variable(u16),
    Value(u16, ExprReader),
    Send,
    Receiver(Option<ObjectId>),
    Dotted(Option<ObjectId>),
    Mark,
    Named(Call),
    Called(Call, Arguments),
    Whole(Stmt),
}

/// What a token makes of it: it goes on, or the statement ends.
#[derive(Drop)]
pub enum Phrased {
    Goes(Phrase),
    Ends(Stmt),
}

// The number of the first signal with this name, and how many parameters it has.
fn signal_named(names: &Known<'_>, name: &[u8]) -> Option<(SignalId, u8)>
    requires few { length names.now.signals ≤ 65536 }
    ensures { result ≡ signal_found names.now.signals (position (λ d. bytes_eq d.name name.now) names.now.signals) }
{
    let place = names.signal(name)?;
    let signal = &names.names().signals.as_slice()[place];
    Some((SignalId(place as u16), signal.count))
}

// The first token of an assignment, a send or a mark.
#[tactic(auto, unfolding(crate::specs::inner::PhraseReading::phrase_begun))]
pub(crate) fn new_phrase(piece: Piece<'_>, names: &Known<'_>) -> Result<Phrase, ActFault>
    requires few { length names.now.vars ≤ 65536 }
    ensures { result ≡ phrase_begun names.now (token_of piece.entry) }
{
    match piece.kind {
        Kind::Name => match names.variable(piece.word) {
            Some(number) => Ok(Phrase::Variable(number)),
            None => Err(ActFault::UnknownName { at: piece.at }),
        },
        Kind::Send => Ok(Phrase::Send),
        Kind::Mark => Ok(Phrase::Mark),
        _ => Err(ActFault::Syntax { at: piece.at }),
    }
}

// A token behind the variable of an assignment: `:=`.
#[tactic(auto, unfolding(crate::specs::inner::PhraseReading::became))]
fn becomes(alloc: Global, variable: u16, piece: Piece<'_>) -> Result<Phrased, ActFault>
    ensures { result ≡ became variable (token_of piece.entry) }
{
    match piece.kind {
        Kind::Becomes => Ok(Phrased::Goes(Phrase::Value(variable, new_reader(alloc)))),
        _ => Err(ActFault::Syntax { at: piece.at }),
    }
}

// A token in the value of an assignment, or the semicolon behind it.
#[tactic(auto, unfolding(crate::specs::inner::PhraseReading::value_read))]
fn value(
    alloc: Global,
    variable: u16,
    reader: ExprReader,
    piece: Piece<'_>,
    names: &Known<'_>,
    room: usize,
) -> Result<Phrased, ActFault>
    requires few { length names.now.vars ≤ 65536 }
    ensures { Answers (value_read names.now room variable reader (token_of piece.entry)) result }
{
    match piece.kind {
        Kind::Semicolon => {
            let value = expr_end(alloc, reader, piece.at)?;
            Ok(Phrased::Ends(Stmt::Assign { variable, value }))
        }
        _ => {
            let reader = expr_next(alloc, reader, piece, names, room)?;
            Ok(Phrased::Goes(Phrase::Value(variable, reader)))
        }
    }
}

// A token behind `send`: the name of an object, or `self`.
#[tactic(auto, unfolding(crate::specs::inner::PhraseReading::receiver_read))]
fn receiver(piece: Piece<'_>, names: &Known<'_>) -> Result<Phrased, ActFault>
    requires objects { length names.now.objects ≤ 256 }
    ensures { result ≡ receiver_read names.now (token_of piece.entry) }
{
    match piece.kind {
        Kind::Own => Ok(Phrased::Goes(Phrase::Receiver(None))),
        Kind::Name => match names.object(piece.word) {
            Some(place) => Ok(Phrased::Goes(Phrase::Receiver(Some(ObjectId(place as u8))))),
            None => Err(ActFault::UnknownName { at: piece.at }),
        },
        _ => Err(ActFault::Syntax { at: piece.at }),
    }
}

// A token behind the object to which a signal is sent: the dot.
#[tactic(auto, unfolding(crate::specs::inner::PhraseReading::dotted))]
fn dot(object: Option<ObjectId>, piece: Piece<'_>) -> Result<Phrased, ActFault>
    ensures { result ≡ dotted object (token_of piece.entry) }
{
    match piece.kind {
        Kind::Dot => Ok(Phrased::Goes(Phrase::Dotted(object))),
        _ => Err(ActFault::Syntax { at: piece.at }),
    }
}

// A token behind the dot: the name of a signal.
#[tactic(auto, unfolding(crate::specs::inner::PhraseReading::signal_read))]
fn signal(
    object: Option<ObjectId>,
    piece: Piece<'_>,
    names: &Known<'_>,
) -> Result<Phrased, ActFault>
    requires signals { length names.now.signals ≤ 65536 }
    ensures { result ≡ signal_read names.now object (token_of piece.entry) }
{
    match piece.kind {
        Kind::Name => match signal_named(names, piece.word) {
            Some((signal, count)) => {
                let call = Call::Send(object, signal, count);
                Ok(Phrased::Goes(Phrase::Named(call)))
            }
            None => Err(ActFault::UnknownName { at: piece.at }),
        },
        _ => Err(ActFault::Syntax { at: piece.at }),
    }
}

// A token behind `mark`: a name, which is noted where it is new.
#[tactic(auto, using(crate::proofs::AnswerLaws::mark_kept, crate::proofs::AnswerLaws::same_kept), unfolding(crate::specs::inner::PhraseReading::mark_read))]
fn mark(alloc: Global, piece: Piece<'_>, marks: &mut Marks) -> Result<Phrased, ActFault>
    requires few { length marks.old < 65536 }
    ensures gives { AnswersWith (mark_read marks.old (token_of piece.entry)) result marks.new }
    ensures kept { KeepsMarks marks.old marks.new }
{
    match piece.kind {
        Kind::Name => {
            let mark = marks.number(alloc, piece.word)?;
            Ok(Phrased::Goes(Phrase::Named(Call::Mark(mark))))
        }
        _ => Err(ActFault::Syntax { at: piece.at }),
    }
}

// A token behind the name of a signal that is sent or of a mark: a parenthesis, where there is room
// for its level; behind a mark also the semicolon.
#[tactic(auto, unfolding(crate::specs::inner::PhraseReading::named))]
fn open(alloc: Global, call: Call, piece: Piece<'_>, room: usize) -> Result<Phrased, ActFault>
    ensures { result ≡ named room call (token_of piece.entry) }
{
    match (piece.kind, call) {
        (Kind::Open, _) => {
            if room == 0 {
                return Err(ActFault::TooLong { at: piece.at });
            }
            Ok(Phrased::Goes(Phrase::Called(call, Arguments::Opened)))
        }
        (Kind::Semicolon, Call::Mark(mark)) => Ok(Phrased::Ends(Stmt::Mark {
            mark,
            args: Row::from_vec(Vec::new(alloc)),
        })),
        _ => Err(ActFault::Syntax { at: piece.at }),
    }
}

// The send or mark with its arguments, where it may have so many; their closing parenthesis stands
// at this byte.
#[tactic(auto, unfolding(crate::specs::inner::PhraseReading::call_made))]
fn made(call: Call, args: Row<Expr>, at: u32) -> Result<Stmt, ActFault>
    ensures { result ≡ call_made call args at }
{
    let given = args.as_slice().len();
    match call {
        Call::Send(object, signal, count) => {
            if given != usize::from(count) {
                return Err(ActFault::Arity { at });
            }
            Ok(Stmt::Send {
                object,
                signal,
                args,
            })
        }
        Call::Mark(mark) => {
            if given > MARK_ARGUMENTS {
                return Err(ActFault::Arity { at });
            }
            Ok(Stmt::Mark { mark, args })
        }
    }
}

// A token in arguments.
#[tactic(auto, unfolding(crate::specs::inner::PhraseReading::argument_read))]
fn argument(
    alloc: Global,
    call: Call,
    arguments: Arguments,
    piece: Piece<'_>,
    names: &Known<'_>,
    room: usize,
) -> Result<Phrased, ActFault>
    requires few { length names.now.vars ≤ 65536 }
    ensures { Answers (argument_read names.now room call arguments (token_of piece.entry)) result }
{
    match arguments_next(alloc, arguments, piece, names, room)? {
        Argued::Goes(arguments) => Ok(Phrased::Goes(Phrase::Called(call, arguments))),
        Argued::Ends(args) => Ok(Phrased::Goes(Phrase::Whole(made(call, args, piece.at)?))),
    }
}

// A token behind a send or mark and its arguments: the semicolon.
#[tactic(auto, unfolding(crate::specs::inner::PhraseReading::called_ended))]
fn end(stmt: Stmt, piece: Piece<'_>) -> Result<Phrased, ActFault>
    ensures { result ≡ called_ended stmt (token_of piece.entry) }
{
    match piece.kind {
        Kind::Semicolon => Ok(Phrased::Ends(stmt)),
        _ => refused(stmt, ActFault::Syntax { at: piece.at }),
    }
}

// The next token of an assignment, a send or a mark; so many levels of parentheses may be open in
// it.
#[tactic(auto, using(crate::proofs::AnswerLaws::beside_answers, crate::proofs::AnswerLaws::beside_same, crate::proofs::AnswerLaws::same_kept), unfolding(crate::specs::inner::PhraseReading::phrase_step))]
pub(crate) fn phrase_next(
    alloc: Global,
    phrase: Phrase,
    piece: Piece<'_>,
    names: &Known<'_>,
    marks: &mut Marks,
    room: usize,
) -> Result<Phrased, ActFault>
    requires few { length names.now.vars ≤ 65536 }
    requires objects { length names.now.objects ≤ 256 }
    requires signals { length names.now.signals ≤ 65536 }
    requires marks { length marks.old < 65536 }
    ensures gives { AnswersWith
        (phrase_step names.now room marks.old phrase (token_of piece.entry)) result marks.new }
    ensures kept { KeepsMarks marks.old marks.new }
{
    match phrase {
        Phrase::Variable(variable) => becomes(alloc, variable, piece),
        Phrase::Value(variable, reader) => value(alloc, variable, reader, piece, names, room),
        Phrase::Send => receiver(piece, names),
        Phrase::Receiver(object) => dot(object, piece),
        Phrase::Dotted(object) => signal(object, piece, names),
        Phrase::Mark => mark(alloc, piece, marks),
        Phrase::Named(call) => open(alloc, call, piece, room),
        Phrase::Called(call, arguments) => {
            argument(alloc, call, arguments, piece, names, room.saturating_sub(1))
        }
        Phrase::Whole(stmt) => end(stmt, piece),
    }
}
