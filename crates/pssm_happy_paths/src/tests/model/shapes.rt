//! Shapes that no text has: owners of a wrong sort, and numbers past those of a text.
use crate::tests::drafts::{draft_of, vertex};
use pssm_model::{
    DraftMachine, Element, Machine, Owner, RegionId, Row, Shape, VertexId, VertexKind,
};
use std::alloc::Global;
use std::test::Fail;

/// What is wrong with the shape of a draft, if anything is.
fn shape_of(alloc: Global, draft: &DraftMachine) -> Option<Shape> {
    Machine::new(alloc, draft).err()
}

/// Whether a draft without transitions has this shape and no machine's.
fn is_refused(alloc: Global, regions: &[u8], vertices: &[u8], shape: Shape) -> Result<bool, Fail> {
    let draft = draft_of(alloc, regions, vertices, b"")?;
    let found = shape_of(alloc, &draft);
    drop(draft);
    Ok(found == Some(shape))
}

/// A region on a region, alone and before a vertex at fault; and a State on the machine, alone and before another.
#[test]
fn owners_of_a_wrong_sort(rt: HostRuntime) -> Result<(), Fail> {
    let region = Shape::BadOwner(Element::Region(RegionId(1)));
    assert!(rt; is_refused(rt.alloc(), b"t0", b"0s", region)?);
    assert!(rt; is_refused(rt.alloc(), b"t01", b"ts", region)?);
    let state = Shape::BadOwner(Element::Vertex(VertexId(0)));
    assert!(rt; is_refused(rt.alloc(), b"t", b"ts", state)?);
    let second = Shape::BadOwner(Element::Vertex(VertexId(1)));
    assert!(rt; is_refused(rt.alloc(), b"t", b"0stsAs", second)?);
    Ok(())
}

/// A million regions and a million States: each region is owned by the State of its number, and each State stands in the next region, but
/// for the last, which the machine owns.
fn long_chain(alloc: Global) -> Result<DraftMachine, Fail> {
    let mut owners = Vec::new(alloc);
    let mut vertices = Vec::new(alloc);
    for place in 0..0x10_0000u32 {
        let number = (place % 0x1_0000) as u16;
        owners.push(Owner::State(VertexId(number)))?;
        let owner = match number.checked_add(1) {
            Some(next) => Owner::Region(RegionId(next)),
            None => Owner::Top,
        };
        vertices.push(vertex(alloc, owner, VertexKind::State))?;
    }
    Ok(DraftMachine {
        regions: Row::from_vec(owners),
        vertices: Row::from_vec(vertices),
        transitions: Row::from_vec(Vec::new(alloc)),
    })
}

/// The chain of region 0 passes 65,536 regions and ends at the machine.
#[test]
fn a_long_chain_of_regions(rt: HostRuntime) -> Result<(), Fail> {
    let draft = long_chain(rt.alloc())?;
    let found = shape_of(rt.alloc(), &draft);
    drop(draft);
    assert!(rt; found == Some(Shape::TooDeep(Element::Region(RegionId(0)))));
    Ok(())
}
