//! What a text is read as.
ghost use Rattle.std.specs.Prelude.{◌≡◌, ◌≤◌, length, All, IfOk, IsTrue};
ghost use Rattle.pssm_semantics.specs.Arguments.{ActArgsFit};

use crate::place::Form;
use crate::stop::Stop;
use pssm_acts::{Act, Cond, Names, SignalDecl, read_act, read_cond, read_steps};
use pssm_model::Text;
use std::alloc::{AllocError, Global};

// What a text spells.
#[derive(Drop)]
pub(crate) enum Spelled {
    Guard(Cond),
    Behaviour(Act),
    Steps(Vec<Act>),
}

impl Spelled {
    pub(crate) fn copy(&self, alloc: Global) -> Result<Spelled, AllocError> {
        match self {
            Spelled::Guard(guard) => Ok(Spelled::Guard(guard.copy(alloc)?)),
            Spelled::Behaviour(act) => Ok(Spelled::Behaviour(act.copy(alloc)?)),
            Spelled::Steps(acts) => {
                let mut copies = Vec::new(alloc);
                for act in acts {
                    copies.push(act.copy(alloc)?)?;
                }
                Ok(Spelled::Steps(copies))
            }
        }
    }

    pub(crate) fn equals(&self, other: &Spelled) -> bool {
        match (self, other) {
            (Spelled::Guard(left), Spelled::Guard(right)) => *left == *right,
            (Spelled::Behaviour(left), Spelled::Behaviour(right)) => *left == *right,
            (Spelled::Steps(left), Spelled::Steps(right)) => left.as_slice() == right.as_slice(),
            _ => false,
        }
    }
}

// Whether no signal has more parameters than a signal can have.
fn are_signals(signals: &[SignalDecl]) -> bool
    ensures { IsTrue result → All (λ signal. signal.count ≤ 8) signals.now }
{
    signals.iter().all(|signal| signal.count <= 8)
}

// Whether there are no more names than a model can have.
fn are_few(names: &Names, marks: &[Text]) -> bool
    ensures vars { IsTrue result → length names.now.vars ≤ 65536 }
    ensures objects { IsTrue result → length names.now.objects ≤ 256 }
    ensures signals { IsTrue result → length names.now.signals ≤ 65536 }
    ensures marks { IsTrue result → length marks.now ≤ 32768 }
{
    names.vars.as_slice().len() <= 65536
        && names.objects.as_slice().len() <= 256
        && names.signals.as_slice().len() <= 65536
        && marks.len() <= 32768
}

// The guard that a text spells.
pub(crate) fn guard(alloc: Global, text: &[u8], names: &Names) -> Result<Cond, Stop> {
    if !are_few(names, &[]) {
        return Err(Stop::Unread);
    }
    read_cond(alloc, text, names).map_err(Stop::from)
}

// The behaviour that a text spells.
pub(crate) fn behaviour(
    alloc: Global,
    text: &[u8],
    names: &Names,
    marks: &mut Vec<Text>,
) -> Result<Act, Stop>
    ensures { IfOk result (λ act. ActArgsFit act) }
{
    if !are_few(names, marks.as_slice()) || !are_signals(names.signals.as_slice()) {
        return Err(Stop::Unread);
    }
    match read_act(alloc, text, names, marks) {
        Ok(act) => Ok(act),
        Err(fault) => Err(Stop::from(fault)),
    }
}

// The steps that a text spells.
fn steps(
    alloc: Global,
    text: &[u8],
    names: &Names,
    marks: &mut Vec<Text>,
) -> Result<Vec<Act>, Stop> {
    if !are_few(names, marks.as_slice()) {
        return Err(Stop::Unread);
    }
    read_steps(alloc, text, names, marks).map_err(Stop::from)
}

// What a text of a form spells.
pub(crate) fn read(
    alloc: Global,
    form: Form,
    text: &[u8],
    names: &Names,
    marks: &mut Vec<Text>,
) -> Result<Spelled, Stop> {
    match form {
        Form::Guards => Ok(Spelled::Guard(guard(alloc, text, names)?)),
        Form::Behaviours => Ok(Spelled::Behaviour(behaviour(alloc, text, names, marks)?)),
        Form::Steps => Ok(Spelled::Steps(steps(alloc, text, names, marks)?)),
    }
}
