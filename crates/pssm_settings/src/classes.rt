//! One class of a draft: its machine flattened, the texts of its bodies read, and its shape asked for.
ghost use Rattle.std.specs.Prelude.{◌≡◌, ◌≢◌, ◌⊎◌, ◌<◌, map, length, Some, slice_get, IfOk, IfErr};
ghost use Rattle.pssm_model.specs.DraftSettings.{IsInRange};
ghost use Rattle.pssm_model.specs.Shapes.{HasShape};
ghost use Rattle.pssm_redefine.specs.Flattening.{Flattens};
ghost use Rattle.pssm_bodies.specs.Programs.{IsProgrammed};
ghost use Rattle.pssm_bodies.specs.Faults.{IsBodyFault};
ghost use Rattle.pssm_settings.specs.Settings.{signal_of, var_of, names_of, IsLoadedClass};
ghost use Rattle.pssm_settings.specs.Failures.{FailsClass};
ghost use Rattle.pssm_settings.specs.inner.Making.{IndexesDraft, class_with, MakesClass, MisshapesClass};

use crate::fault::DraftFault;
use crate::flats::few_in_flat;
use crate::once::each_once;
use pssm_acts::{ActFault, Index, Known};
use pssm_bodies::{BodyFault, Programmed, read_bodies};
use pssm_heritage::RedefFault;
use pssm_model::{
    Draft, DraftClass, DraftMachine, DraftObject, DraftSignal, DraftVar, FlatDraft, Machine, Row,
    Shape, Text,
};
use pssm_redefine::flatten;
use pssm_semantics::{Class, Names, SignalDecl, VarDecl};
use std::alloc::{AllocError as NoMemory, Global};

// ---- names

// The names of variables.
fn var_names(alloc: Global, vars: &[DraftVar]) -> Result<Vec<Text>, NoMemory>
    ensures { IfOk result (λ names. names.items ≡ map (λ (v : DraftVar). v.name) vars.now) }
{
    let mut names = Vec::new(alloc);
    for var in vars {
        names.push(var.name.copy(alloc)?)?;
    }
    Ok(names)
}

// The names of objects.
fn object_names(alloc: Global, objects: &[DraftObject]) -> Result<Vec<Text>, NoMemory>
    ensures { IfOk result (λ names. names.items ≡ map (λ (o : DraftObject). o.name) objects.now) }
{
    let mut names = Vec::new(alloc);
    for object in objects {
        names.push(object.name.copy(alloc)?)?;
    }
    Ok(names)
}

// A signal of a setting.
fn signal(alloc: Global, of: &DraftSignal) -> Result<SignalDecl, NoMemory>
    ensures { IfOk result (λ signal. signal ≡ signal_of of.now) }
{
    Ok(SignalDecl {
        name: of.name.copy(alloc)?,
        count: of.count,
    })
}

/// The signals of a setting.
pub(crate) fn signals_of(
    alloc: Global,
    signals: &[DraftSignal],
) -> Result<Vec<SignalDecl>, NoMemory>
    ensures { IfOk result (λ all. all.items ≡ map signal_of signals.now) }
{
    let mut all = Vec::new(alloc);
    for of in signals {
        all.push(signal(alloc, of)?)?;
    }
    Ok(all)
}

// A variable of a class.
fn variable(alloc: Global, of: &DraftVar) -> Result<VarDecl, NoMemory>
    ensures { IfOk result (λ var. var ≡ var_of of.now) }
{
    Ok(VarDecl {
        name: of.name.copy(alloc)?,
        first: of.first,
    })
}

// The variables of a class.
fn vars_of(alloc: Global, vars: &[DraftVar]) -> Result<Vec<VarDecl>, NoMemory>
    ensures { IfOk result (λ all. all.items ≡ map var_of vars.now) }
{
    let mut all = Vec::new(alloc);
    for of in vars {
        all.push(variable(alloc, of)?)?;
    }
    Ok(all)
}

// The names that the behaviours of a class with these variables may use.
fn names(alloc: Global, draft: &Draft, vars: &[DraftVar]) -> Result<Names, NoMemory>
    ensures { IfOk result (λ names. names ≡ names_of draft.now vars.now) }
{
    let vars = var_names(alloc, vars)?;
    let objects = object_names(alloc, draft.objects.as_slice())?;
    let signals = signals_of(alloc, draft.signals.as_slice())?;
    Ok(Names {
        vars: Row::from_vec(vars),
        objects: Row::from_vec(objects),
        signals: Row::from_vec(signals),
    })
}

/// The indexes of the names of a draft's objects and signals, which all its classes share.
#[derive(Drop)]
pub(crate) struct Indexes {
    pub objects: Index,
    pub signals: Index,
}

/// The indexes of a draft.
pub(crate) fn indexes_of(alloc: Global, draft: &Draft) -> Result<Indexes, NoMemory>
    ensures { IfOk result (λ indexes. IndexesDraft draft.now indexes) }
{
    let objects = object_names(alloc, draft.objects.as_slice())?;
    let signals = signals_of(alloc, draft.signals.as_slice())?;
    Ok(Indexes {
        objects: Index::of(alloc, objects.as_slice())?,
        signals: Index::of(alloc, signals.as_slice())?,
    })
}

// ---- flattening

// The fault of a machine that cannot be flattened; want of memory is one of its own.
fn redef_fault(fault: RedefFault) -> DraftFault
    ensures { (result ≡ DraftFault.NoMemory) ⊎ ((result ≡ DraftFault.Redef fault) × (fault ≢ RedefFault.NoMemory)) }
{
    match fault {
        RedefFault::NoMemory => DraftFault::NoMemory,
        other => DraftFault::Redef(other),
    }
}

// The flat draft of the class with the number.
fn flat_of(alloc: Global, draft: &Draft, number: u8) -> Result<FlatDraft, DraftFault>
    requires range { IsInRange draft.now }
    requires there { number < length draft.now.classes }
    ensures flat { IfOk result (Flattens draft.now number) }
    ensures fault { IfErr result (λ fault. (fault ≡ DraftFault.NoMemory) ⊎ FailsClass draft.now number fault) }
{
    match flatten(alloc, draft, number) {
        Ok(flat) => Ok(flat),
        Err(fault) => Err(redef_fault(fault)),
    }
}

// ---- bodies

// The fault of a body, with its id.
fn body_fault(
    alloc: Global,
    draft: &Draft,
    number: u8,
    flat: &FlatDraft,
    place: u32,
    fault: ActFault,
) -> DraftFault
    requires flattened { Flattens draft.now number flat.now }
    requires fault { IsBodyFault (names_of draft.now flat.now.vars) flat.now place fault }
    ensures { (result ≡ DraftFault.NoMemory) ⊎ FailsClass draft.now number result }
{
    match flat.bodies.as_slice()[place as usize].id.copy(alloc) {
        Ok(id) => DraftFault::Act { id, fault },
        Err(_) => DraftFault::NoMemory,
    }
}

// The machine of the class with the numbers of its behaviours, and its program.
fn programmed(
    alloc: Global,
    draft: &Draft,
    indexes: &Indexes,
    number: u8,
    flat: &FlatDraft,
) -> Result<Programmed, DraftFault>
    requires range { IsInRange draft.now }
    requires indexed { IndexesDraft draft.now indexes.now }
    requires flattened { Flattens draft.now number flat.now }
    ensures read { IfOk result
        (λ p. IsProgrammed (names_of draft.now flat.now.vars) flat.now p.machine p.program) }
    ensures fault { IfErr result (λ fault. (fault ≡ DraftFault.NoMemory) ⊎ FailsClass draft.now number fault) }
{
    each_once();
    few_in_flat();
    let names = names(alloc, draft, flat.vars.as_slice())?;
    let vars = Index::of(alloc, names.vars.as_slice())?;
    let known = Known::of(&names, &vars, &indexes.objects, &indexes.signals);
    match read_bodies(alloc, &known, flat) {
        Ok(programmed) => Ok(programmed),
        Err(BodyFault::NoMemory) => Err(DraftFault::NoMemory),
        Err(
            BodyFault::At {
                number: place,
                fault,
            },
        ) => Err(body_fault(alloc, draft, number, flat, place, fault)),
    }
}

// ---- the shape

// The machine of a draft that has the shape of one, or the fault with the name of its class.
fn shaped(alloc: Global, class: &DraftClass, draft: &DraftMachine) -> Result<Machine, DraftFault>
    ensures made { IfOk result (λ machine. machine ≡ draft.now) }
    ensures shape { IfOk result (λ _. HasShape draft.now) }
    ensures fault { IfErr result (MisshapesClass class.now.name draft.now) }
{
    match Machine::new(alloc, draft) {
        Ok(machine) => Ok(machine),
        Err(Shape::NoMemory) => Err(DraftFault::NoMemory),
        Err(shape) => Err(DraftFault::Shape {
            class: class.name.copy(alloc)?,
            shape,
        }),
    }
}

// A class of these parts.
fn of_parts(name: Text, vars: Vec<VarDecl>, machine: Machine, programmed: Programmed) -> Class
    ensures { result ≡ class_with name vars.items machine programmed.program }
{
    let Programmed {
        machine: _drafted,
        program,
    } = programmed;
    Class {
        name,
        vars: Row::from_vec(vars),
        machine,
        program,
    }
}

// The class with its machine and its program, or the fault of the machine's shape.
fn made(
    alloc: Global,
    of: &DraftClass,
    vars: &[DraftVar],
    programmed: Programmed,
) -> Result<Class, DraftFault>
    ensures class { IfOk result (MakesClass of.now vars.now programmed) }
    ensures fault { IfErr result (MisshapesClass of.now.name programmed.machine) }
{
    let machine = shaped(alloc, of, &programmed.machine)?;
    let vars = vars_of(alloc, vars)?;
    let name = of.name.copy(alloc)?;
    Ok(of_parts(name, vars, machine, programmed))
}

/// The class of a draft with the number; or why it gives none.
pub(crate) fn class_of(
    alloc: Global,
    draft: &Draft,
    indexes: &Indexes,
    number: u8,
) -> Result<Class, DraftFault>
    requires range { IsInRange draft.now }
    requires indexed { IndexesDraft draft.now indexes.now }
    requires there { number < length draft.now.classes }
    ensures class { IfOk result (IsLoadedClass draft.now number) }
    ensures fault { IfErr result (λ fault. (fault ≡ DraftFault.NoMemory) ⊎ FailsClass draft.now number fault) }
{
    let flat = flat_of(alloc, draft, number)?;
    let programmed = programmed(alloc, draft, indexes, number, &flat)?;
    let of = &draft.classes.as_slice()[number as usize];
    made(alloc, of, flat.vars.as_slice(), programmed)
}
