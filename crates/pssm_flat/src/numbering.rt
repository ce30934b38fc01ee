//! The numbers of behaviours and guards, in the order of their lines, and of marks at their first places.
ghost use Rattle.std.specs.Prelude.{◌≡◌, ◌≤◌, ◌<◌, length, IfOk};
ghost use Rattle.std.specs.Str.{bytes_eq};
ghost use Rattle.pssm_acts.specs.Answers.{Answers};
ghost use Rattle.pssm_acts.specs.ActText.{act_text, cond_text};
ghost use Rattle.pssm_acts.specs.inner.ActReading.{act_reading};
ghost use Rattle.pssm_acts.specs.inner.GuardReading.{cond_reading};
ghost use Rattle.pssm_flat.specs.Flat.{first_program as first};
ghost use Rattle.pssm_flat.specs.inner.Outlines.{act_put_in, act_numbered, guard_numbered, with_act, with_guard};

use crate::refusal::{nothing, refused};
use crate::rows::push;
use pssm_acts::{
    ActFault, Growing, Known, Marks, read_act_noting, read_cond_known, write_act, write_cond,
};
use pssm_model::{ActId, GuardId, Row, Text};
use pssm_semantics::{Act, Cond, Names, Shared};
use std::alloc::{AllocError, Global};
use std::mem;

/// How many behaviours, guards and distinct marks a machine may have (this profile's choice).
const ACTS_AT_MOST: usize = 32768;

const GUARDS_AT_MOST: usize = 65536;

const MARKS_AT_MOST: usize = 32768;

/// The program of a block of which no action text has been read: the empty behaviour alone.
pub(crate) fn first_program(alloc: Global) -> Result<Growing, AllocError>
    ensures { IfOk result (λ p. p ≡ first) }
{
    let mut acts = Row::from_vec(Vec::new(alloc));
    let stmts = Shared::new(alloc, Row::from_vec(Vec::new(alloc)))?;
    push(alloc, &mut acts, Act { stmts })?;
    Ok(Growing {
        acts,
        guards: Row::from_vec(Vec::new(alloc)),
        marks: Marks::new(alloc),
    })
}

/// The program, in whose place none stands afterwards.
pub(crate) fn program_out(alloc: Global, program: &mut Growing) -> Growing
    ensures { result ≡ program.old }
{
    let none = Growing {
        acts: Row::from_vec(Vec::new(alloc)),
        guards: Row::from_vec(Vec::new(alloc)),
        marks: Marks::new(alloc),
    };
    mem::replace(program, none)
}

// The behaviour that a text spells behind these marks, and the marks behind it.
fn act_of(
    alloc: Global,
    names: &Known<'_>,
    mut marks: Marks,
    text: &[u8],
) -> Result<(Act, Marks), ActFault>
    requires vars { length names.now.vars ≤ 64 }
    requires objects { length names.now.objects ≤ 64 }
    requires signals { length names.now.signals ≤ 256 }
    requires marks { length marks ≤ 32768 }
    ensures { Answers (act_reading names.now marks text.now) result }
{
    match read_act_noting(alloc, text, names, &mut marks) {
        Ok(act) => Ok((act, marks)),
        Err(fault) => refused(marks, fault),
    }
}

// Whether the text is the spelling of the behaviour.
fn spells_act(
    alloc: Global,
    names: &Names,
    marks: &[Text],
    act: &Act,
    text: &[u8],
) -> Result<bool, AllocError>
    ensures { IfOk result (λ is. is ≡ bytes_eq (act_text names.now marks.now act.now) text.now) }
{
    let spelled = write_act(alloc, act, names, marks)?;
    Ok(spelled.as_slice() == text)
}

// Puts the behaviour at the end of the program, with the marks behind it.
fn act_put(
    alloc: Global,
    mut program: Growing,
    act: Act,
    marks: Marks,
) -> Result<(ActId, Growing), AllocError>
    requires { length program.acts < 32768 }
    ensures { IfOk result (λ r. r ≡ act_put_in program act marks) }
{
    let number = ActId(program.acts.as_slice().len() as u16);
    program.marks = marks;
    match push(alloc, &mut program.acts, act) {
        Ok(()) => Ok((number, program)),
        Err(fault) => refused(program, fault),
    }
}

// The program with the behaviour, where the text is its spelling and there are not too many marks.
fn act_kept(
    alloc: Global,
    names: &Known<'_>,
    program: Growing,
    text: &[u8],
    read: (Act, Marks),
) -> Result<Option<(ActId, Growing)>, AllocError>
    requires { length program.acts < 32768 }
    ensures { IfOk result (λ r. r ≡ act_numbered names.now program text.now read) }
{
    let (act, marks) = read;
    let is_canonical = match spells_act(alloc, names.names(), marks.as_slice(), &act, text) {
        Ok(is) => is,
        Err(fault) => return refused((program, act, marks), fault),
    };
    if is_canonical && marks.as_slice().len() <= MARKS_AT_MOST {
        Ok(Some(act_put(alloc, program, act, marks)?))
    } else {
        Ok(nothing((program, act, marks)))
    }
}

/// The program with the behaviour that a text spells, and the number of this one.
///
/// None where the text is empty or not the one spelling of its behaviour, or where the program would have too many
/// behaviours or marks.
#[tactic(auto, unfolding(crate::specs::inner::Outlines::with_act))]
pub(crate) fn act_added(
    alloc: Global,
    names: &Known<'_>,
    mut program: Growing,
    text: &[u8],
) -> Result<Option<(ActId, Growing)>, ActFault>
    requires vars { length names.now.vars ≤ 64 }
    requires objects { length names.now.objects ≤ 64 }
    requires signals { length names.now.signals ≤ 256 }
    requires marks { length program.marks ≤ 32768 }
    ensures { Answers (with_act names.now program text.now) result }
{
    if text.is_empty() || program.acts.as_slice().len() >= ACTS_AT_MOST {
        return Ok(nothing(program));
    }
    let marks = mem::replace(&mut program.marks, Marks::new(alloc));
    match act_of(alloc, names, marks, text) {
        Ok(read) => Ok(act_kept(alloc, names, program, text, read)?),
        Err(fault) => refused(program, fault),
    }
}

// The guard that a text spells.
fn cond_of(alloc: Global, names: &Known<'_>, text: &[u8]) -> Result<Cond, ActFault>
    requires vars { length names.now.vars ≤ 64 }
    ensures { Answers (cond_reading names.now text.now) result }
{
    read_cond_known(alloc, text, names)
}

// Whether the text is the spelling of the guard.
fn spells_cond(alloc: Global, names: &Names, cond: &Cond, text: &[u8]) -> Result<bool, AllocError>
    ensures { IfOk result (λ is. is ≡ bytes_eq (cond_text names.now cond.now) text.now) }
{
    let spelled = write_cond(alloc, cond, names)?;
    Ok(spelled.as_slice() == text)
}

// The program with the guard, where the text is its spelling.
fn guard_kept(
    alloc: Global,
    names: &Known<'_>,
    mut program: Growing,
    text: &[u8],
    cond: Cond,
) -> Result<Option<(GuardId, Growing)>, AllocError>
    requires { length program.guards < 65536 }
    ensures { IfOk result (λ r. r ≡ guard_numbered names.now program text.now cond) }
{
    let is_canonical = match spells_cond(alloc, names.names(), &cond, text) {
        Ok(is) => is,
        Err(fault) => return refused((program, cond), fault),
    };
    if !is_canonical {
        return Ok(nothing((program, cond)));
    }
    let number = GuardId(program.guards.as_slice().len() as u16);
    match push(alloc, &mut program.guards, cond) {
        Ok(()) => Ok(Some((number, program))),
        Err(fault) => refused(program, fault),
    }
}

/// The program with the guard that a text spells, and the number of this one.
///
/// None where the text is not the one spelling of its guard.
#[tactic(auto, unfolding(crate::specs::inner::Outlines::with_guard))]
pub(crate) fn guard_added(
    alloc: Global,
    names: &Known<'_>,
    program: Growing,
    text: &[u8],
) -> Result<Option<(GuardId, Growing)>, ActFault>
    requires vars { length names.now.vars ≤ 64 }
    ensures { Answers (with_guard names.now program text.now) result }
{
    if program.guards.as_slice().len() >= GUARDS_AT_MOST {
        return Ok(nothing(program));
    }
    match cond_of(alloc, names, text) {
        Ok(cond) => Ok(guard_kept(alloc, names, program, text, cond)?),
        Err(fault) => refused(program, fault),
    }
}
