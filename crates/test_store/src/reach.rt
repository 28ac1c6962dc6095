//! Searches along a relationship.
use crate::list_graph::{ListGraph, closes, empty_rows, first_parent, give};
use ecs_id::Id;
use ecs_model::built_ins::CHILD_OF;
use id_pattern::{Part, Pattern};
use rel_travel::{Graph, Scratch};
use std::alloc::{AllocError, Global};
use std::process::Abort;
use std::test::Fail;

const POSITION: Pattern = Pattern {
    first: Part::Is(64),
    second: None,
};

const DEEPEST: u32 = 100_064;

/// A chain of pairs from the deepest entity to that at 64.
fn chain(alloc: Global) -> Result<Option<ListGraph>, AllocError> {
    let mut rows = empty_rows(alloc, 100_065)?;
    give(&mut rows, 64, Id::plain(64))?;
    for entity in 65..100_065u32 {
        give(&mut rows, entity as usize, Id::pair(CHILD_OF, entity - 1))?;
    }
    Ok(ListGraph::new(rows))
}

fn search_chain(
    rt: &impl Abort,
    graph: &ListGraph,
    scratch: &mut Scratch,
) -> Result<(), AllocError> {
    scratch.reserve(graph.size())?;
    assert!(rt; first_parent(graph, DEEPEST, POSITION, scratch) == Some(64));
    assert!(rt; closes(graph, 64, DEEPEST, scratch));
    assert!(rt; !closes(graph, DEEPEST, 64, scratch));
    Ok(())
}

#[test]
fn long_chains_take_no_stack(rt: HostRuntime) -> Result<(), Fail> {
    let graph = chain(rt.alloc())?.expect(&rt, "ids of these entities");
    let mut scratch = Scratch::new(rt.alloc());
    let done = search_chain(&rt, &graph, &mut scratch);
    drop(scratch);
    drop(graph);
    Ok(done?)
}
