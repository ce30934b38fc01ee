//! The flat text of a setting.
ghost use Rattle.std.specs.Prelude.{◌≡◌, ◌++◌, OnOk, IfOk};
ghost use Rattle.std.specs.List.{flat_map};
ghost use Rattle.pssm_flat.specs.Text.{line, text_of, numbered, class_line, object_line, block_lines, machine_lines, var_line, signal_line, region_lines, vertex_lines, transition_lines, flat_text};

use crate::behaviours::{names_of, put_behaviour, put_guard, put_names, put_steps};
use crate::pieces::{
    put_named, put_object, put_region, put_signal, put_transition_line, put_var, put_vertex_line,
};
use pssm_model::{Machine, RegionId, Row, TransId, Transition, Vertex, VertexId};
use pssm_semantics::{Class, Names, ObjectDecl, Setting, SignalDecl, VarDecl};
use std::alloc::{AllocError, Global};

// Writes the lines of a vertex.
fn put_vertex(
    alloc: Global,
    text: &mut Vec<u8>,
    names: &Names,
    class: &Class,
    number: usize,
    vertex: &Vertex,
) -> Result<(), AllocError>
    ensures { OnOk result
        (text.new.items ≡ text.old.items ++ text_of (vertex_lines names.now class.now number vertex.now)) }
{
    put_vertex_line(alloc, text, number, vertex)?;
    put_behaviour(alloc, text, b"entry", names, class, vertex.entry)?;
    put_behaviour(alloc, text, b"exit", names, class, vertex.exit)?;
    put_steps(alloc, text, names, class, &vertex.steps)?;
    put_names(text, b"defer ", names, &vertex.defers)?;
    Ok(())
}

// Writes the lines of a transition.
fn put_transition(
    alloc: Global,
    text: &mut Vec<u8>,
    names: &Names,
    class: &Class,
    number: usize,
    transition: &Transition,
) -> Result<(), AllocError>
    ensures { OnOk result
        (text.new.items ≡ text.old.items ++ text_of (transition_lines names.now class.now number transition.now)) }
{
    put_transition_line(alloc, text, number, transition)?;
    put_names(text, b"on ", names, &transition.triggers)?;
    put_guard(alloc, text, names, class, transition.guard)?;
    put_behaviour(alloc, text, b"effect", names, class, transition.effect)?;
    Ok(())
}

fn put_vars(alloc: Global, text: &mut Vec<u8>, vars: &Row<VarDecl>) -> Result<(), AllocError>
    ensures { OnOk result (text.new.items ≡ text.old.items ++ flat_map (λ x. line (var_line x)) vars.now) }
{
    for variable in vars.as_slice() {
        put_var(alloc, text, variable)?;
    }
    Ok(())
}

fn put_regions(alloc: Global, text: &mut Vec<u8>, machine: &Machine) -> Result<(), AllocError>
    ensures { OnOk result (text.new.items ≡ text.old.items ++ text_of (numbered region_lines 0 machine.now.regions)) }
{
    for number in 0..machine.regions() {
        let owner = machine.region_owner(RegionId(number));
        put_region(alloc, text, usize::from(number), owner)?;
    }
    Ok(())
}

fn put_vertices(
    alloc: Global,
    text: &mut Vec<u8>,
    names: &Names,
    class: &Class,
) -> Result<(), AllocError>
    ensures { OnOk result
        (text.new.items
        ≡ text.old.items ++ text_of (numbered (vertex_lines names.now class.now) 0 class.now.machine.vertices)) }
{
    for number in 0..class.machine.vertices() {
        let vertex = class.machine.vertex(VertexId(number));
        put_vertex(alloc, text, names, class, usize::from(number), vertex)?;
    }
    Ok(())
}

fn put_transitions(
    alloc: Global,
    text: &mut Vec<u8>,
    names: &Names,
    class: &Class,
) -> Result<(), AllocError>
    ensures { OnOk result
        (text.new.items
        ≡ text.old.items
        ++ text_of (numbered (transition_lines names.now class.now) 0 class.now.machine.transitions)) }
{
    for number in 0..class.machine.transitions() {
        let transition = class.machine.transition(TransId(number));
        put_transition(alloc, text, names, class, usize::from(number), transition)?;
    }
    Ok(())
}

// Writes the block of a class whose behaviours use these names.
fn put_block(
    alloc: Global,
    text: &mut Vec<u8>,
    names: &Names,
    class: &Class,
) -> Result<(), AllocError>
    ensures { OnOk result (text.new.items ≡ text.old.items ++ text_of (block_lines names.now class.now)) }
{
    put_named(text, b"machine ", class.name.as_slice())?;
    put_vars(alloc, text, &class.vars)?;
    put_regions(alloc, text, &class.machine)?;
    put_vertices(alloc, text, names, class)?;
    put_transitions(alloc, text, names, class)?;
    Ok(())
}

// Writes the block of a class.
fn put_machine(
    alloc: Global,
    text: &mut Vec<u8>,
    setting: &Setting,
    class: &Class,
) -> Result<(), AllocError>
    ensures { OnOk result (text.new.items ≡ text.old.items ++ text_of (machine_lines setting.now class.now)) }
{
    let names = names_of(alloc, setting, class)?;
    put_block(alloc, text, &names, class)
}

fn put_signals(
    alloc: Global,
    text: &mut Vec<u8>,
    signals: &Row<SignalDecl>,
) -> Result<(), AllocError>
    ensures { OnOk result (text.new.items ≡ text.old.items ++ flat_map (λ x. line (signal_line x)) signals.now) }
{
    for signal in signals.as_slice() {
        put_signal(alloc, text, signal)?;
    }
    Ok(())
}

fn put_classes(text: &mut Vec<u8>, classes: &Row<Class>) -> Result<(), AllocError>
    ensures { OnOk result (text.new.items ≡ text.old.items ++ flat_map (λ x. line (class_line x)) classes.now) }
{
    for class in classes.as_slice() {
        put_named(text, b"class ", class.name.as_slice())?;
    }
    Ok(())
}

fn put_objects(
    text: &mut Vec<u8>,
    classes: &Row<Class>,
    objects: &Row<ObjectDecl>,
) -> Result<(), AllocError>
    ensures { OnOk result
        (text.new.items ≡ text.old.items ++ flat_map (λ x. line (object_line classes.now x)) objects.now) }
{
    for object in objects.as_slice() {
        put_object(text, classes.as_slice(), object)?;
    }
    Ok(())
}

fn put_machines(
    alloc: Global,
    text: &mut Vec<u8>,
    setting: &Setting,
    classes: &Row<Class>,
) -> Result<(), AllocError>
    ensures { OnOk result
        (text.new.items ≡ text.old.items ++ flat_map (λ x. text_of (machine_lines setting.now x)) classes.now) }
{
    for class in classes.as_slice() {
        put_machine(alloc, text, setting, class)?;
    }
    Ok(())
}

// Writes the lines of a setting.
fn put_setting(alloc: Global, text: &mut Vec<u8>, setting: &Setting) -> Result<(), AllocError>
    ensures { OnOk result (text.new.items ≡ text.old.items ++ flat_text setting.now) }
{
    text.extend_from_slice(b"pssm-flat 1\n")?;
    put_signals(alloc, text, &setting.signals)?;
    put_classes(text, &setting.classes)?;
    put_objects(text, &setting.classes, &setting.objects)?;
    put_machines(alloc, text, setting, &setting.classes)?;
    text.extend_from_slice(b"end\n")?;
    Ok(())
}

/// The flat text of a setting, each line of it.
pub fn write_flat(alloc: Global, setting: &Setting) -> Result<Vec<u8>, AllocError>
    ensures { IfOk result (λ text. text.items ≡ flat_text setting.now) }
{
    let mut text = Vec::new(alloc);
    put_setting(alloc, &mut text, setting)?;
    Ok(text)
}
