//! Opening a region, on a machine of one State in it.
use pssm_config::*;
use pssm_model::{ActId, DraftMachine, Machine, Owner, RegionId, Row, Text, Vertex, VertexKind};
use std::alloc::Global;
use std::test::Fail;

/// The machine of one State, without do steps.
fn machine_of_a_state(alloc: Global) -> Result<Machine, Fail> {
    let state = Vertex {
        owner: Owner::Region(RegionId(0)),
        kind: VertexKind::State,
        label: Text::from_vec(Vec::new(alloc)),
        entry: ActId(0),
        exit: ActId(0),
        steps: Row::from_vec(Vec::new(alloc)),
        defers: Row::from_vec(Vec::new(alloc)),
    };
    let mut vertices = Vec::new(alloc);
    vertices.push(state)?;
    let draft = DraftMachine {
        regions: Row::from_vec([Owner::Top].to_vec(alloc)?),
        vertices: Row::from_vec(vertices),
        transitions: Row::from_vec(Vec::new(alloc)),
    };
    let machine = Machine::new(alloc, &draft);
    drop(draft);
    Ok(machine.ok().ok_or("no machine")?)
}

#[test]
fn a_region_is_left_empty(rt: HostRuntime) -> Result<(), Fail> {
    let machine = machine_of_a_state(rt.alloc())?;
    let r = RegionId(0);
    let mut config = Config::new(rt.alloc(), &machine)?;
    assert!(rt; machine.regions() == 1);
    config.opened_none(r);
    assert!(rt; config.finished(r));
    config.opened_way(r);
    assert!(rt; !config.finished(r));
    Ok(())
}
