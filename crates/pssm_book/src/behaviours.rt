//! The behaviours of tasks.
ghost use Rattle.std.specs.Prelude.{◌≡◌, [], slice_get};
ghost use Rattle.std.specs.Option.{option_copied};
ghost use Rattle.pssm_model.specs.Forest.{vertex_at, transition_at};
ghost use Rattle.pssm_semantics.specs.declared.entry.ObjectId.{ObjectId as AnObject};
ghost use Rattle.pssm_semantics.specs.Settings.{class_of};
ghost use Rattle.pssm_semantics.specs.Behaviours.{act_at, act_of};
ghost use Rattle.pssm_object.specs.Tasks.{entry_of};
ghost use Rattle.pssm_book.specs.Works.{behaviour_in};

use pssm_model::{ActId, Machine, TransId, Transition, Vertex, VertexId};
use pssm_semantics::{Act, Class, ObjectId, Setting, Task};

/// The behaviour of a task of an object, if object and task are the setting's.
pub fn behaviour(setting: &Setting, object: ObjectId, task: Task) -> Option<&Act>
    ensures { option_copied result ≡ behaviour_in setting.now object task }
{
    behaviour_of(class(setting, object)?, task)
}

// The class of an object, if it is the setting's.
fn class(setting: &Setting, object: ObjectId) -> Option<&Class>
    ensures { option_copied result ≡ class_of setting.now object }
{
    let declared = setting.objects.as_slice().get(usize::from(object.0))?;
    setting.classes.as_slice().get(usize::from(declared.class))
}

// The behaviour of a task of an object of the class, if the task is the class's.
fn behaviour_of(class: &Class, task: Task) -> Option<&Act>
    ensures { (o : AnObject) → option_copied result ≡ act_of class.now (entry_of o task []) }
{
    match task {
        Task::Exit(state) => numbered(class, vertex(&class.machine, state)?.exit),
        Task::Effect(t) => numbered(class, transition(&class.machine, t)?.effect),
        Task::Enter(state) => numbered(class, vertex(&class.machine, state)?.entry),
        Task::DoStep(state, step) => {
            numbered(class, do_step(vertex(&class.machine, state)?, step)?)
        }
    }
}

// The behaviour with a number, if there is one.
fn numbered(class: &Class, number: ActId) -> Option<&Act>
    ensures { option_copied result ≡ act_at class.now number }
{
    class.program.acts.as_slice().get(usize::from(number.0))
}

// The number of the behaviour of a do step, if the vertex has it.
fn do_step(vertex: &Vertex, step: u16) -> Option<ActId>
    ensures { result ≡ slice_get vertex.now.steps step }
{
    vertex.steps.as_slice().get(usize::from(step)).copied()
}

// The vertex with a number, if there is one.
fn vertex(machine: &Machine, v: VertexId) -> Option<&Vertex>
    ensures { option_copied result ≡ vertex_at machine.now v }
{
    if v.0 < machine.vertices() {
        Some(machine.vertex(v))
    } else {
        None
    }
}

// The transition with a number, if there is one.
fn transition(machine: &Machine, t: TransId) -> Option<&Transition>
    ensures { option_copied result ≡ transition_at machine.now t }
{
    if t.0 < machine.transitions() {
        Some(machine.transition(t))
    } else {
        None
    }
}
