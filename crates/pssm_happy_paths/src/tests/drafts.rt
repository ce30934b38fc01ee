//! Machines as drafts made by hand, spelled by bytes. A number is a byte from `0` on. A region is `t`, or `A` plus the number of its State. A vertex is its
//! owner, a region's number or a State as before, and a letter for its kind; a transition is its source, its target, and `.`, `!` with a
//! trigger, `?` with a guard, `e` with `else`, or `l` local with a trigger.
ghost use Rattle.std.specs.Prelude.{◌<◌};

use pssm_model::{
    ActId, DraftMachine, Guard, GuardId, Machine, Owner, RegionId, Row, SignalId, Text, TransKind,
    Transition, Vertex, VertexId, VertexKind,
};
use std::alloc::Global;
use std::test::Fail;

/// The number that a byte spells.
fn number(byte: u8) -> u16 {
    u16::from(byte.saturating_sub(b'0'))
}

/// The owner that a byte spells.
fn owner(byte: u8) -> Owner {
    match byte {
        b't' => Owner::Top,
        b'A'..=b'Z' => Owner::State(VertexId(u16::from(byte - b'A'))),
        _ => Owner::Region(RegionId(number(byte))),
    }
}

/// The kind that a byte spells.
fn kind(byte: u8) -> VertexKind {
    match byte {
        b'i' => VertexKind::Initial,
        b'f' => VertexKind::Final,
        b'd' => VertexKind::DeepHistory,
        b'h' => VertexKind::ShallowHistory,
        b'j' => VertexKind::Join,
        b'k' => VertexKind::Fork,
        b'u' => VertexKind::Junction,
        b'c' => VertexKind::Choice,
        b'n' => VertexKind::EntryPoint,
        b'x' => VertexKind::ExitPoint,
        b't' => VertexKind::Terminate,
        _ => VertexKind::State,
    }
}

pub fn vertex(alloc: Global, owner: Owner, kind: VertexKind) -> Vertex {
    Vertex {
        owner,
        kind,
        label: Text::from_vec(Vec::new(alloc)),
        entry: ActId(0),
        exit: ActId(0),
        steps: Row::from_vec(Vec::new(alloc)),
        defers: Row::from_vec(Vec::new(alloc)),
    }
}

fn transition(alloc: Global, source: u16, target: u16, form: u8) -> Result<Transition, Fail> {
    let mut triggers = Vec::new(alloc);
    if form == b'!' || form == b'l' {
        triggers.push(SignalId(0))?;
    }
    Ok(Transition {
        source: VertexId(source),
        target: VertexId(target),
        kind: if form == b'l' {
            TransKind::Local
        } else {
            TransKind::External
        },
        triggers: Row::from_vec(triggers),
        guard: match form {
            b'?' => Guard::When(GuardId(0)),
            b'e' => Guard::Otherwise,
            _ => Guard::Always,
        },
        effect: ActId(0),
    })
}

fn vertices_of(alloc: Global, spelled: &[u8]) -> Result<Row<Vertex>, Fail> {
    let mut vertices = Vec::new(alloc);
    for part in spelled.chunks_exact(2) {
        if let [of, letter] = part {
            vertices.push(vertex(alloc, owner(*of), kind(*letter)))?;
        }
    }
    Ok(Row::from_vec(vertices))
}

fn transitions_of(alloc: Global, spelled: &[u8]) -> Result<Row<Transition>, Fail> {
    let mut transitions = Vec::new(alloc);
    for part in spelled.chunks_exact(3) {
        if let [source, target, form] = part {
            transitions.push(transition(alloc, number(*source), number(*target), *form)?)?;
        }
    }
    Ok(Row::from_vec(transitions))
}

pub fn draft_of(
    alloc: Global,
    regions: &[u8],
    vertices: &[u8],
    transitions: &[u8],
) -> Result<DraftMachine, Fail> {
    let mut owners = Vec::new(alloc);
    for of in regions {
        owners.push(owner(*of))?;
    }
    Ok(DraftMachine {
        regions: Row::from_vec(owners),
        vertices: vertices_of(alloc, vertices)?,
        transitions: transitions_of(alloc, transitions)?,
    })
}

/// The machine of a draft that has a shape.
pub fn machine_of(
    alloc: Global,
    regions: &[u8],
    vertices: &[u8],
    transitions: &[u8],
) -> Result<Machine, Fail> {
    let draft = draft_of(alloc, regions, vertices, transitions)?;
    let machine = Machine::new(alloc, &draft);
    drop(draft);
    Ok(machine.ok().ok_or("no machine")?)
}

/// The draft of one State in one region.
pub fn draft_of_a_state(alloc: Global, state: Vertex) -> Result<DraftMachine, Fail> {
    Ok(DraftMachine {
        regions: Row::from_vec([Owner::Top].to_vec(alloc)?),
        vertices: Row::from_vec(vec_of(alloc, state)?),
        transitions: Row::from_vec(Vec::new(alloc)),
    })
}

pub fn vec_of<T: Drop>(alloc: Global, item: T) -> Result<Vec<T>, Fail> {
    let mut items = Vec::new(alloc);
    items.push(item)?;
    Ok(items)
}
