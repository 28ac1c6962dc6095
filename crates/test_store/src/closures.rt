//! What comes and goes with a fact under traits.
use crate::list_graph::{ListGraph, empty_rows, give};
use ecs_id::Id;
use ecs_model::FactKey;
use ecs_model::built_ins::{EXCLUSIVE, SYMMETRIC};
use rel_traits::{closure_add, closure_remove, replaced_by};
use rel_travel::{Graph, Scratch};
use std::alloc::{AllocError, Global};
use std::process::Abort;
use std::test::Fail;

/// Married at 64, Ann at 65 and Bob at 66, who are married, and Cy at 67.
fn people(alloc: Global) -> Result<Option<ListGraph>, AllocError> {
    let mut rows = empty_rows(alloc, 68)?;
    give(&mut rows, 64, Id::plain(EXCLUSIVE))?;
    give(&mut rows, 64, Id::plain(SYMMETRIC))?;
    give(&mut rows, 65, Id::pair(64, 66))?;
    give(&mut rows, 66, Id::pair(64, 65))?;
    Ok(ListGraph::new(rows))
}

/// The added set of a fact whose entity and relationship are in the graph.
fn add_closed(
    graph: &ListGraph,
    fact: FactKey,
    scratch: &mut Scratch,
    added: &mut Vec<FactKey>,
) -> Result<(), AllocError> {
    scratch.reserve(graph.size())?;
    if graph.is_live(fact.entity()) && graph.is_live(fact.id().first()) {
        closure_add(graph, fact, scratch, added)?;
    }
    Ok(())
}

/// Ann marries Cy, so Bob loses her; and what goes with her being his.
fn marry_another(
    rt: &impl Abort,
    graph: &ListGraph,
    scratch: &mut Scratch,
    facts: &mut Vec<FactKey>,
) -> Result<(), AllocError> {
    let came = [
        FactKey::new(65, Id::pair(64, 67)),
        FactKey::new(67, Id::pair(64, 65)),
    ];
    let went = [
        FactKey::new(65, Id::pair(64, 66)),
        FactKey::new(66, Id::pair(64, 65)),
    ];
    add_closed(graph, came[0], scratch, facts)?;
    assert!(rt; facts.as_slice() == came.as_slice());
    facts.clear();
    replaced_by(graph, &came, facts)?;
    assert!(rt; facts.as_slice() == went.as_slice());
    facts.clear();
    closure_remove(graph, went[1], facts)?;
    assert!(rt; facts.as_slice() == went.as_slice());
    Ok(())
}

#[test]
fn a_marriage_takes_the_place_of_another(rt: HostRuntime) -> Result<(), Fail> {
    let graph = people(rt.alloc())?.expect(&rt, "ids of these entities");
    let mut scratch = Scratch::new(rt.alloc());
    let mut facts = Vec::new(rt.alloc());
    let done = marry_another(&rt, &graph, &mut scratch, &mut facts);
    drop(facts);
    drop(scratch);
    drop(graph);
    Ok(done?)
}
