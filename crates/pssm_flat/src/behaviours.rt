//! The lines of behaviours, guards and signals.
ghost use Rattle.std.specs.Prelude.{◌≡◌, ◌++◌, OnOk, IfOk, map, codes, slice_get};
ghost use Rattle.std.specs.List.{flat_map};
ghost use Rattle.std.specs.Option.{option_copied};
ghost use Rattle.pssm_acts.specs.ActText.{cond_text};
ghost use Rattle.pssm_flat.specs.Text.{line, text_of, names_beside, names_of as names_in, signal_name, is_empty_act, act_lines, behaviour_lines, act_step, step_line, guard_lines};

use crate::pieces::{name_of_signal, put_named, put_spelled};
use crate::refusal::refused;
use pssm_acts::{write_act, write_cond};
use pssm_model::{ActId, Duplicate, Guard, Row, SignalId, Text};
use pssm_semantics::{Act, Class, Cond, Names, ObjectDecl, Setting, VarDecl};
use std::alloc::{AllocError, Global};

// The names of variables.
fn names_of_vars(alloc: Global, vars: &[VarDecl]) -> Result<Row<Text>, AllocError>
    ensures { IfOk result (λ names. names ≡ map (λ v. v.name) vars.now) }
{
    let mut names = Vec::new(alloc);
    for variable in vars {
        names.push(variable.name.copy(alloc)?)?;
    }
    Ok(Row::from_vec(names))
}

// The names of objects.
fn names_of_objects(alloc: Global, objects: &[ObjectDecl]) -> Result<Row<Text>, AllocError>
    ensures { IfOk result (λ names. names ≡ map (λ o. o.name) objects.now) }
{
    let mut names = Vec::new(alloc);
    for object in objects {
        names.push(object.name.copy(alloc)?)?;
    }
    Ok(Row::from_vec(names))
}

// The names of the setting's objects and signals beside those of variables.
fn names_with(alloc: Global, setting: &Setting, vars: Row<Text>) -> Result<Names, AllocError>
    ensures { IfOk result (λ names. names ≡ names_beside setting.now vars) }
{
    match names_of_objects(alloc, setting.objects.as_slice()) {
        Ok(objects) => match setting.signals.duplicate(alloc) {
            Ok(signals) => Ok(Names {
                vars,
                objects,
                signals,
            }),
            Err(fault) => refused((vars, objects), fault),
        },
        Err(fault) => refused(vars, fault),
    }
}

/// The names that the behaviours of a class may use.
pub(crate) fn names_of(alloc: Global, setting: &Setting, class: &Class) -> Result<Names, AllocError>
    ensures { IfOk result (λ names. names ≡ names_in setting.now class.now) }
{
    let vars = names_of_vars(alloc, class.vars.as_slice())?;
    names_with(alloc, setting, vars)
}

// The behaviour of a class with a number.
fn act_of(class: &Class, act: ActId) -> Option<&Act>
    ensures { option_copied result ≡ slice_get class.now.program.acts act.0 }
{
    class.program.acts.as_slice().get(usize::from(act.0))
}

fn is_empty(act: &Act) -> bool
    ensures { result ≡ is_empty_act act.now.stmts }
{
    match act.stmts.as_slice() {
        [] => true,
        _ => false,
    }
}

// Writes the line of a behaviour behind a word, where it has a statement.
fn put_act(
    alloc: Global,
    text: &mut Vec<u8>,
    word: &[u8],
    names: &Names,
    marks: &[Text],
    act: &Act,
) -> Result<(), AllocError>
    ensures { OnOk result
        (text.new.items ≡ text.old.items ++ text_of (act_lines word.now names.now marks.now act.now)) }
{
    if is_empty(act) {
        return Ok(());
    }
    let spelled = write_act(alloc, act, names, marks)?;
    put_spelled(text, word, &spelled)
}

/// Writes the line of the behaviour with a number behind a word, where it has a statement.
pub(crate) fn put_behaviour(
    alloc: Global,
    text: &mut Vec<u8>,
    word: &[u8],
    names: &Names,
    class: &Class,
    act: ActId,
) -> Result<(), AllocError>
    ensures { OnOk result
        (text.new.items ≡ text.old.items ++ text_of (behaviour_lines word.now names.now class.now act)) }
{
    match act_of(class, act) {
        Some(act) => put_act(
            alloc,
            text,
            word,
            names,
            class.program.marks.as_slice(),
            act,
        ),
        None => Ok(()),
    }
}

// Writes the line of a do step that is there.
fn put_act_step(
    alloc: Global,
    text: &mut Vec<u8>,
    names: &Names,
    marks: &[Text],
    act: &Act,
) -> Result<(), AllocError>
    ensures { OnOk result (text.new.items ≡ text.old.items ++ line (act_step names.now marks.now act.now)) }
{
    if is_empty(act) {
        return put_named(text, b"step", b"");
    }
    let spelled = write_act(alloc, act, names, marks)?;
    put_spelled(text, b"step", &spelled)
}

// Writes the line of a do step.
fn put_step(
    alloc: Global,
    text: &mut Vec<u8>,
    names: &Names,
    class: &Class,
    act: ActId,
) -> Result<(), AllocError>
    ensures { OnOk result (text.new.items ≡ text.old.items ++ line (step_line names.now class.now act)) }
{
    match act_of(class, act) {
        Some(act) => put_act_step(alloc, text, names, class.program.marks.as_slice(), act),
        None => put_named(text, b"step", b""),
    }
}

// Writes the line of a guard of the class.
fn put_cond(alloc: Global, text: &mut Vec<u8>, names: &Names, cond: &Cond) -> Result<(), AllocError>
    ensures { OnOk result (text.new.items ≡ text.old.items ++ line (codes "if " ++ cond_text names.now cond.now)) }
{
    let spelled = write_cond(alloc, cond, names)?;
    put_named(text, b"if ", spelled.as_slice())
}

/// Writes the line of a guard, where there is one.
pub(crate) fn put_guard(
    alloc: Global,
    text: &mut Vec<u8>,
    names: &Names,
    class: &Class,
    guard: Guard,
) -> Result<(), AllocError>
    ensures { OnOk result (text.new.items ≡ text.old.items ++ text_of (guard_lines names.now class.now guard)) }
{
    match guard {
        Guard::Always => Ok(()),
        Guard::Otherwise => put_named(text, b"else", b""),
        Guard::When(number) => match class.program.guards.as_slice().get(usize::from(number.0)) {
            Some(cond) => put_cond(alloc, text, names, cond),
            None => Ok(()),
        },
    }
}

/// Writes a line for each of these signals.
pub(crate) fn put_names(
    text: &mut Vec<u8>,
    word: &[u8],
    names: &Names,
    list: &Row<SignalId>,
) -> Result<(), AllocError>
    ensures { OnOk result
        (text.new.items
        ≡ text.old.items ++ flat_map (λ g. line (word.now ++ signal_name names.now.signals g)) list.now) }
{
    for signal in list.as_slice() {
        put_named(
            text,
            word,
            name_of_signal(names.signals.as_slice(), *signal),
        )?;
    }
    Ok(())
}

/// Writes the lines of do steps.
pub(crate) fn put_steps(
    alloc: Global,
    text: &mut Vec<u8>,
    names: &Names,
    class: &Class,
    steps: &Row<ActId>,
) -> Result<(), AllocError>
    ensures { OnOk result
        (text.new.items ≡ text.old.items ++ flat_map (λ act. line (step_line names.now class.now act)) steps.now) }
{
    for step in steps.as_slice() {
        put_step(alloc, text, names, class, *step)?;
    }
    Ok(())
}
