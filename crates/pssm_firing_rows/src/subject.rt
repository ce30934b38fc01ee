//! The machine and the configuration of a situation, as the calls that are tried take them.
ghost use Rattle.std.specs.Prelude.{◌<◌, length, IsTrue, IfOk, IfSome};
ghost use Rattle.pssm_config.specs.Tables.{Fits};
ghost use Rattle.pssm_model.specs.WellFormed.{KeepsModelRules};

use crate::marks::Marks;
use crate::sketch::{Arrow, Place, Sketch};
use pssm_config::Config;
use pssm_model::{
    ActId, DraftMachine, Machine, Owner, Row, Shape, SignalId, Text, Transition, Vertex, VertexId,
    VertexKind,
};
use pssm_wellformed::check;
use std::alloc::{AllocError as NoMemory, Global};

// A vertex without behaviours.
fn vertex_of(alloc: Global, place: Place) -> Vertex {
    Vertex {
        owner: place.owner,
        kind: place.kind,
        label: Text::from_vec(Vec::new(alloc)),
        entry: ActId(0),
        exit: ActId(0),
        steps: Row::from_vec(Vec::new(alloc)),
        defers: Row::from_vec(Vec::new(alloc)),
    }
}

// A transition without an effect.
fn transition_of(alloc: Global, arrow: Arrow) -> Result<Transition, NoMemory> {
    let mut triggers = Vec::new(alloc);
    if arrow.is_triggered {
        triggers.push(SignalId(0))?;
    }
    Ok(Transition {
        source: VertexId(arrow.source),
        target: VertexId(arrow.target),
        kind: arrow.kind,
        triggers: Row::from_vec(triggers),
        guard: arrow.guard,
        effect: ActId(0),
    })
}

// The draft that says what the sketch does.
fn draft_of(alloc: Global, sketch: &Sketch) -> Result<DraftMachine, NoMemory> {
    let regions = sketch.regions.as_slice().to_vec(alloc)?;
    let mut vertices = Vec::new(alloc);
    for place in sketch.places.as_slice() {
        vertices.push(vertex_of(alloc, *place))?;
    }
    let mut transitions = Vec::new(alloc);
    for arrow in sketch.arrows.as_slice() {
        transitions.push(transition_of(alloc, *arrow)?)?;
    }
    Ok(DraftMachine {
        regions: Row::from_vec(regions),
        vertices: Row::from_vec(vertices),
        transitions: Row::from_vec(transitions),
    })
}

// Whether the machine keeps the rules of models.
fn keeps_rules(alloc: Global, machine: &Machine) -> Result<bool, NoMemory>
    ensures { IfOk result (λ keeps. IsTrue keeps → KeepsModelRules machine.now) }
{
    let faults = check(alloc, machine)?;
    let none = faults.is_empty();
    drop(faults);
    Ok(none)
}

/// The machine of the sketch; none where it has not the shape of one or breaks a rule.
pub(crate) fn machine_of(alloc: Global, sketch: &Sketch) -> Result<Option<Machine>, NoMemory>
    ensures { IfOk result (λ made. IfSome made KeepsModelRules) }
{
    let draft = draft_of(alloc, sketch)?;
    match Machine::new(alloc, &draft) {
        Ok(machine) if keeps_rules(alloc, &machine)? => Ok(Some(machine)),
        Ok(_) => Ok(None),
        Err(Shape::NoMemory) => Err(NoMemory),
        Err(_) => Ok(None),
    }
}

// Enters the State or final state, where its region has no active one.
fn enter(machine: &Machine, config: &mut Config, s: VertexId)
    requires there { s.0 < length machine.now.vertices }
    requires fits { Fits machine.now config.old }
    ensures fits { Fits machine.now config.new }
{
    let vertex = machine.vertex(s);
    if let Owner::Region(r) = vertex.owner
        && matches!(vertex.kind, VertexKind::State | VertexKind::Final)
        && r.0 < machine.regions()
        && config.active_in(r).is_none()
    {
        config.enter(machine, s);
    }
}

/// The configuration of the machine in which these are active.
pub(crate) fn config_of(alloc: Global, machine: &Machine, active: Marks) -> Result<Config, NoMemory>
    ensures { IfOk result (λ config. Fits machine.now config) }
{
    let mut config = Config::new(alloc, machine)?;
    for number in 0..machine.vertices() {
        if active.has(number) {
            enter(machine, &mut config, VertexId(number));
        }
    }
    Ok(config)
}
