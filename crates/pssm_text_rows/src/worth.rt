//! What a guard or a behaviour that is read is worth.
ghost use Rattle.pssm_semantics.specs.Arguments.{ActArgsFit};

use crate::place::{Form, Place};
use crate::polish::put_word;
use crate::reading::{behaviour, guard};
use crate::stop::Stop;
use pssm_acts::{Act, Args, Names, Out, Outcome, run, truth};
use pssm_model::{SignalId, Text};
use std::alloc::{AllocError, Global};

// Whether a guard is true, or what a behaviour makes of the values.
pub(crate) fn worth(
    alloc: Global,
    place: &Place,
    form: Form,
    text: &[u8],
    marks: &mut Vec<Text>,
) -> Result<Vec<u8>, Stop> {
    match form {
        Form::Guards => guard_worth(alloc, place, text),
        Form::Behaviours => behaviour_worth(alloc, place, text, marks),
        Form::Steps => Err(Stop::Unread),
    }
}

fn guard_worth(alloc: Global, place: &Place, text: &[u8]) -> Result<Vec<u8>, Stop> {
    let params = params(alloc, place.params.as_slice())?;
    let guard = guard(alloc, text, &place.reading.names)?;
    let holds = truth(&guard, place.values.as_slice(), &params);
    drop(guard);
    truth_word(alloc, holds)
}

fn truth_word(alloc: Global, holds: bool) -> Result<Vec<u8>, Stop> {
    let word = if holds { "true" } else { "false" };
    Ok(word.as_bytes().to_vec(alloc)?)
}

fn behaviour_worth(
    alloc: Global,
    place: &Place,
    text: &[u8],
    marks: &mut Vec<Text>,
) -> Result<Vec<u8>, Stop> {
    let act = behaviour(alloc, text, &place.reading.names, marks)?;
    let made = made_by(alloc, place, &act, marks.as_slice());
    drop(act);
    made
}

// What a behaviour makes of the values.
fn made_by(alloc: Global, place: &Place, act: &Act, marks: &[Text]) -> Result<Vec<u8>, Stop>
    requires { ActArgsFit act.now }
{
    let params = params(alloc, place.params.as_slice())?;
    let worked = run(alloc, place.own, act, place.values.as_slice(), &params)?;
    let made = made(alloc, worked.outcome(), &place.reading.names, marks);
    drop(worked);
    made
}

fn params(alloc: Global, values: &[i64]) -> Result<Args, Stop> {
    if values.len() > 8 {
        return Err(Stop::Unread);
    }
    Ok(Args::from_vec(values.to_vec(alloc)?))
}

// The values of the variables, and each output as a line of a journal spells it.
fn made(alloc: Global, outcome: &Outcome, names: &Names, marks: &[Text]) -> Result<Vec<u8>, Stop> {
    let mut text = Vec::new(alloc);
    for value in outcome.store.as_slice() {
        put_word(&mut text, format!(in alloc; "{value}")?.as_bytes())?;
    }
    for out in outcome.outs.as_slice() {
        put_out(alloc, &mut text, out, names, marks)?;
    }
    Ok(text)
}

fn put_out(
    alloc: Global,
    text: &mut Vec<u8>,
    out: &Out,
    names: &Names,
    marks: &[Text],
) -> Result<(), AllocError> {
    match out {
        Out::Mark { mark, args } => {
            put_word(text, b"!")?;
            text.extend_from_slice(name_of(marks.get(usize::from(mark.0))))?;
            put_args(alloc, text, args)
        }
        Out::Send {
            object,
            signal,
            args,
        } => {
            put_word(text, b">")?;
            text.extend_from_slice(name_of(names.objects.as_slice().get(usize::from(object.0))))?;
            text.push(b'.')?;
            text.extend_from_slice(signal_name(names, *signal))?;
            put_args(alloc, text, args)
        }
    }
}

fn signal_name(names: &Names, signal: SignalId) -> &[u8] {
    match names.signals.as_slice().get(usize::from(signal.0)) {
        Some(signal) => signal.name.as_slice(),
        None => b"",
    }
}

fn name_of(name: Option<&Text>) -> &[u8] {
    match name {
        Some(name) => name.as_slice(),
        None => b"",
    }
}

fn put_args(alloc: Global, text: &mut Vec<u8>, args: &Args) -> Result<(), AllocError> {
    text.push(b'(')?;
    for (place, value) in args.as_slice().iter().enumerate() {
        if place > 0 {
            text.push(b',')?;
        }
        text.extend_from_slice(format!(in alloc; "{value}")?.as_bytes())?;
    }
    text.push(b')')?;
    Ok(())
}
