//! The second reading, in the order of the flat text: behaviours, guards and marks get their numbers.
ghost use Rattle.std.specs.Prelude.{◌≡◌, ◌≤◌, ◌+◌, ◌↔◌, IsTrue, ◌∷◌, [], length, map, IfOk, IfErr};
ghost use Rattle.pssm_acts.specs.Answers.{Faults};
ghost use Rattle.pssm_acts.specs.ActGrammar.{SpellsAct, SpellsSteps};
ghost use Rattle.pssm_acts.specs.Grammar.{SpellsCond};
ghost use Rattle.pssm_semantics.specs.declared.tree.Cond.{Cond};
ghost use Rattle.pssm_bodies.specs.declared.slot.Reading.TheVariants as readings;
ghost use Rattle.pssm_bodies.specs.Slots.{text_at, guard_slots, slot};
ghost use Rattle.pssm_bodies.specs.Readings.{number_of, with_act as act_behind, KeepsLimits};
ghost use Rattle.pssm_bodies.specs.Readings.{number_of_guard, with_guard as guard_behind, first_program as first};
ghost use Rattle.pssm_bodies.specs.Faults.{HasTextFault, Fails};
ghost use Rattle.pssm_bodies.specs.Programs.{NumbersAct, AreNumbered, NumbersSteps, NumbersGuard};
ghost use Rattle.pssm_bodies.specs.inner.Through.{StopsIn};
ghost use Rattle.pssm_model.specs.declared.ids.ActId.{ActId};

use crate::texts::{MOST_NUMBERS, is_not_empty};
use pssm_acts::{
    ActFault, Growing, Known, Marks, read_act_noting, read_cond_known, read_steps_noting,
};
use pssm_model::{ActId, Body, Guard, GuardId, Row};
use pssm_semantics::{Act, Cond, Shared};
use std::alloc::{AllocError as NoMemory, Global};

/// The program of a class of which nothing has been read: the empty behaviour alone.
pub(crate) fn first_program(alloc: Global) -> Result<Growing, NoMemory>
    ensures { IfOk result (λ p. p ≡ first) }
{
    let mut acts = Vec::new(alloc);
    let stmts = Shared::new(alloc, Row::from_vec(Vec::new(alloc)))?;
    acts.push(Act { stmts })?;
    Ok(Growing {
        acts: Row::from_vec(acts),
        guards: Row::from_vec(Vec::new(alloc)),
        marks: Marks::new(alloc),
    })
}

// The text of the body with this number.
fn text_of(bodies: &[Body], number: u16) -> &[u8]
    ensures { result.now ≡ text_at bodies.now number }
{
    match bodies.get(usize::from(number)) {
        Some(body) => body.text.as_slice(),
        None => &[],
    }
}

// Whether the program keeps the limits of behaviours and marks.
fn keeps_limits(program: &Growing) -> bool
    ensures { IsTrue result ↔ KeepsLimits program.now }
{
    program.acts.as_slice().len() <= MOST_NUMBERS && program.marks.as_slice().len() <= MOST_NUMBERS
}

// The behaviour at the end of the program, where it has statements, and its number.
fn with_act(program: Growing, act: Act) -> Result<(ActId, Growing), NoMemory>
    requires { length program.acts ≤ 65535 }
    ensures number { IfOk result (λ r. r.0 ≡ number_of program act) }
    ensures program { IfOk result (λ r. r.1 ≡ act_behind program act) }
{
    if !is_not_empty(&act) {
        return Ok((ActId(0), program));
    }
    let Growing {
        acts,
        guards,
        marks,
    } = program;
    let mut acts = acts.into_vec();
    let number = ActId(acts.len() as u16);
    acts.push(act)?;
    Ok((
        number,
        Growing {
            acts: Row::from_vec(acts),
            guards,
            marks,
        },
    ))
}

// The behaviours at the end of the program, and their numbers.
fn with_acts(
    alloc: Global,
    mut program: Growing,
    mut acts: Vec<Act>,
) -> Result<(Vec<ActId>, Growing), NoMemory>
    requires { length program.acts + length acts.items ≤ 65535 }
    ensures { IfOk result (λ r. AreNumbered program acts.items r.0.items r.1) }
{
    let mut numbers = Vec::new(alloc);
    while !acts.is_empty() {
        let act = acts.remove(0);
        let (number, next) = with_act(program, act)?;
        program = next;
        numbers.push(number)?;
    }
    Ok((numbers, program))
}

// The behaviour that a text spells behind these marks, and the marks behind it.
fn act_of(
    alloc: Global,
    names: &Known<'_>,
    text: &[u8],
    mut marks: Marks,
) -> Result<(Act, Marks), ActFault>
    requires vars { length names.now.vars ≤ 64 }
    requires objects { length names.now.objects ≤ 64 }
    requires signals { length names.now.signals ≤ 256 }
    requires marks { length marks ≤ 32768 }
    ensures spelled { IfOk result (λ r. SpellsAct names.now marks text.now r.0 r.1) }
    ensures fault { IfErr result (λ f. Faults (HasTextFault names.now readings.Behaviour text.now) f) }
{
    let act = read_act_noting(alloc, text, names, &mut marks)?;
    Ok((act, marks))
}

// The steps that a text spells behind these marks, and the marks behind them.
fn steps_of(
    alloc: Global,
    names: &Known<'_>,
    text: &[u8],
    mut marks: Marks,
) -> Result<(Vec<Act>, Marks), ActFault>
    requires vars { length names.now.vars ≤ 64 }
    requires objects { length names.now.objects ≤ 64 }
    requires signals { length names.now.signals ≤ 256 }
    requires marks { length marks ≤ 32768 }
    ensures spelled { IfOk result (λ r. SpellsSteps names.now marks text.now r.0.items r.1) }
    ensures fault { IfErr result (λ f. Faults (HasTextFault names.now readings.Steps text.now) f) }
{
    let acts = read_steps_noting(alloc, text, names, &mut marks)?;
    Ok((acts, marks))
}

// The program with the behaviour of a body, and the number of the behaviour.
fn act_put(
    alloc: Global,
    names: &Known<'_>,
    bodies: &[Body],
    program: Growing,
    from: ActId,
) -> Result<(ActId, Growing), ActFault>
    requires vars { length names.now.vars ≤ 64 }
    requires objects { length names.now.objects ≤ 64 }
    requires signals { length names.now.signals ≤ 256 }
    requires limits { KeepsLimits program }
    ensures numbers { IfOk result (λ r. NumbersAct names.now bodies.now program from r.0 r.1) }
    ensures fault { IfErr result
        (λ f. Faults (HasTextFault names.now readings.Behaviour (text_at bodies.now from.0)) f) }
{
    let Growing {
        acts,
        guards,
        marks,
    } = program;
    let (act, marks) = act_of(alloc, names, text_of(bodies, from.0), marks)?;
    Ok(with_act(
        Growing {
            acts,
            guards,
            marks,
        },
        act,
    )?)
}

/// The program with the behaviour of a body, and the number of the behaviour; the limits are kept.
pub(crate) fn act_added(
    alloc: Global,
    names: &Known<'_>,
    bodies: &[Body],
    program: Growing,
    from: ActId,
) -> Result<(ActId, Growing), ActFault>
    requires vars { length names.now.vars ≤ 64 }
    requires objects { length names.now.objects ≤ 64 }
    requires signals { length names.now.signals ≤ 256 }
    requires limits { KeepsLimits program }
    ensures numbers { IfOk result (λ r. NumbersAct names.now bodies.now program from r.0 r.1) }
    ensures limits { IfOk result (λ r. KeepsLimits r.1) }
    ensures fault { IfErr result
        (λ f. Faults (Fails names.now (text_at bodies.now from.0) readings.Behaviour program) f) }
{
    let (number, behind) = act_put(alloc, names, bodies, program, from)?;
    if keeps_limits(&behind) {
        Ok((number, behind))
    } else {
        Err(ActFault::TooLong { at: 0 })
    }
}

// The program with the steps of a body, and the numbers of the steps.
fn steps_put(
    alloc: Global,
    names: &Known<'_>,
    bodies: &[Body],
    program: Growing,
    from: ActId,
) -> Result<(Vec<ActId>, Growing), ActFault>
    requires vars { length names.now.vars ≤ 64 }
    requires objects { length names.now.objects ≤ 64 }
    requires signals { length names.now.signals ≤ 256 }
    requires limits { KeepsLimits program }
    ensures numbers { IfOk result (λ r. NumbersSteps names.now bodies.now program (from ∷ []) r.0.items r.1) }
    ensures fault { IfErr result
        (λ f. Faults (HasTextFault names.now readings.Steps (text_at bodies.now from.0)) f) }
{
    let Growing {
        acts,
        guards,
        marks,
    } = program;
    let (steps, marks) = steps_of(alloc, names, text_of(bodies, from.0), marks)?;
    Ok(with_acts(
        alloc,
        Growing {
            acts,
            guards,
            marks,
        },
        steps,
    )?)
}

// The program with the steps of a body, and the numbers of the steps; the limits are kept.
fn steps_kept(
    alloc: Global,
    names: &Known<'_>,
    bodies: &[Body],
    program: Growing,
    from: ActId,
) -> Result<(Vec<ActId>, Growing), ActFault>
    requires vars { length names.now.vars ≤ 64 }
    requires objects { length names.now.objects ≤ 64 }
    requires signals { length names.now.signals ≤ 256 }
    requires limits { KeepsLimits program }
    ensures numbers { IfOk result (λ r. NumbersSteps names.now bodies.now program (from ∷ []) r.0.items r.1) }
    ensures limits { IfOk result (λ r. KeepsLimits r.1) }
    ensures fault { IfErr result
        (λ f. Faults (Fails names.now (text_at bodies.now from.0) readings.Steps program) f) }
{
    let (numbers, behind) = steps_put(alloc, names, bodies, program, from)?;
    if keeps_limits(&behind) {
        Ok((numbers, behind))
    } else {
        Err(ActFault::TooLong { at: 0 })
    }
}

/// The program with the steps of a do-activity, where there is one, and the numbers of the steps.
pub(crate) fn steps_added(
    alloc: Global,
    names: &Known<'_>,
    bodies: &[Body],
    program: Growing,
    from: &[ActId],
) -> Result<(Vec<ActId>, Growing), ActFault>
    requires vars { length names.now.vars ≤ 64 }
    requires objects { length names.now.objects ≤ 64 }
    requires signals { length names.now.signals ≤ 256 }
    requires limits { KeepsLimits program }
    requires one { length from.now ≤ 1 }
    ensures numbers { IfOk result (λ r. NumbersSteps names.now bodies.now program from.now r.0.items r.1) }
    ensures limits { IfOk result (λ r. KeepsLimits r.1) }
    ensures fault { IfErr result (λ f. Faults
        (StopsIn names.now bodies.now (map (λ (a : ActId). slot readings.Steps a.0) from.now) program) f) }
{
    match from.first() {
        None => Ok((Vec::new(alloc), program)),
        Some(body) => steps_kept(alloc, names, bodies, program, *body),
    }
}

// The guard that a text spells.
fn cond_of(alloc: Global, names: &Known<'_>, text: &[u8]) -> Result<Cond, ActFault>
    requires vars { length names.now.vars ≤ 64 }
    ensures spelled { IfOk result (λ cond. SpellsCond names.now text.now cond) }
    ensures fault { IfErr result (λ f. Faults (HasTextFault names.now readings.Guard text.now) f) }
{
    read_cond_known(alloc, text, names)
}

// The guard at the end of the program, and its number.
fn with_guard(program: Growing, cond: Cond) -> Result<(GuardId, Growing), NoMemory>
    requires { length program.guards ≤ 65535 }
    ensures number { IfOk result (λ r. r.0 ≡ number_of_guard program) }
    ensures program { IfOk result (λ r. r.1 ≡ guard_behind program cond) }
{
    let Growing {
        acts,
        guards,
        marks,
    } = program;
    let mut guards = guards.into_vec();
    let number = GuardId(guards.len() as u16);
    guards.push(cond)?;
    Ok((
        number,
        Growing {
            acts,
            guards: Row::from_vec(guards),
            marks,
        },
    ))
}

// The program with the guard of a body, and the number of the guard.
fn guard_put(
    alloc: Global,
    names: &Known<'_>,
    bodies: &[Body],
    program: Growing,
    from: GuardId,
) -> Result<(GuardId, Growing), ActFault>
    requires vars { length names.now.vars ≤ 64 }
    requires room { length program.guards ≤ 65535 }
    ensures numbers { IfOk result (λ r. (cond : Cond) × SpellsCond names.now (text_at bodies.now from.0) cond
        × (r.0 ≡ number_of_guard program) × (r.1 ≡ guard_behind program cond)) }
    ensures fault { IfErr result
        (λ f. Faults (HasTextFault names.now readings.Guard (text_at bodies.now from.0)) f) }
{
    let cond = cond_of(alloc, names, text_of(bodies, from.0))?;
    Ok(with_guard(program, cond)?)
}

/// The program with a guard, where it has a text, and what it is with its number.
pub(crate) fn guard_added(
    alloc: Global,
    names: &Known<'_>,
    bodies: &[Body],
    program: Growing,
    from: Guard,
) -> Result<(Guard, Growing), ActFault>
    requires vars { length names.now.vars ≤ 64 }
    requires limits { KeepsLimits program }
    requires room { length program.guards + length (guard_slots from) ≤ 65535 }
    ensures numbers { IfOk result (λ r. NumbersGuard names.now bodies.now program from r.0 r.1) }
    ensures limits { IfOk result (λ r. KeepsLimits r.1) }
    ensures fault { IfErr result (λ f. Faults (StopsIn names.now bodies.now (guard_slots from) program) f) }
{
    match from {
        Guard::Always => Ok((Guard::Always, program)),
        Guard::Otherwise => Ok((Guard::Otherwise, program)),
        Guard::When(body) => {
            let (id, behind) = guard_put(alloc, names, bodies, program, body)?;
            Ok((Guard::When(id), behind))
        }
    }
}
