//! How deep entities stand along ChildOf.
use crate::list_graph::{ListGraph, empty_rows, give};
use ecs_id::Id;
use ecs_model::built_ins::CHILD_OF;
use rel_travel::{Graph, Scratch, depth};
use std::alloc::{AllocError, Global};
use std::process::Abort;
use std::test::Fail;

/// The depth of an entity. The graph leads down, and has the entity.
fn depth_of(graph: &ListGraph, index: u32, scratch: &mut Scratch) -> Option<u32> {
    if !graph.leads_down() || !scratch.covers(graph) || index >= graph.size() {
        return None;
    }
    Some(depth(graph, index, CHILD_OF, scratch))
}

/// A thousand entities from 64 on, each with pairs to the two before it.
fn ladder(alloc: Global) -> Result<Option<ListGraph>, AllocError> {
    let mut rows = empty_rows(alloc, 1064)?;
    give(&mut rows, 65, Id::pair(CHILD_OF, 64))?;
    for entity in 66..1064u32 {
        give(&mut rows, entity as usize, Id::pair(CHILD_OF, entity - 2))?;
        give(&mut rows, entity as usize, Id::pair(CHILD_OF, entity - 1))?;
    }
    Ok(ListGraph::new(rows))
}

fn measure_ladder(
    rt: &impl Abort,
    graph: &ListGraph,
    scratch: &mut Scratch,
) -> Result<(), AllocError> {
    scratch.reserve(graph.size())?;
    assert!(rt; depth_of(graph, 1063, scratch) == Some(999));
    assert!(rt; depth_of(graph, 65, scratch) == Some(1));
    Ok(())
}

#[test]
fn a_ladder_is_as_deep_as_it_has_rungs(rt: HostRuntime) -> Result<(), Fail> {
    let graph = ladder(rt.alloc())?.expect(&rt, "ids of these entities");
    let mut scratch = Scratch::new(rt.alloc());
    let done = measure_ladder(&rt, &graph, &mut scratch);
    drop(scratch);
    drop(graph);
    Ok(done?)
}
