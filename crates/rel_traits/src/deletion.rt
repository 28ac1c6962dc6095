//! The facts that go with deleted entities.
ghost use Rattle.std.specs.Prelude.{◌≡◌, ◌++◌, ◌≤◌, ◌<◌, [], All, OnOk, filter, flat_map, map};
ghost use Rattle.ecs_id.specs.Id.{mentioned};
ghost use Rattle.ecs_model.specs.Map.{keys};
ghost use Rattle.ecs_model.specs.steps.FactChanges.{deleted, mentions_gone};
ghost use Rattle.rel_travel.specs.Referring.{mentions_any};
ghost use Rattle.rel_traits.specs.Deletions.{OfDeletion, is_lost};

use crate::held_facts::{push_facts, put_in_order};
use ecs_id::Id;
use ecs_model::FactKey;
use rel_travel::{Graph, Scratch};
use std::alloc::{AllocError, Allocator, Global};

/// The facts that a deletion takes. Both lists ascend.
#[derive(Drop)]
pub struct GoneFacts<A: Allocator = Global> {
    /// The facts of entities that stay, each of which mentions a deleted one.
    pub lost: Vec<FactKey, A>,
    /// All facts that go: these, and those of the deleted entities.
    pub went: Vec<FactKey, A>,
}

impl<A: Allocator + Copy> GoneFacts<A> {
    /// Empty lists, which take no memory.
    pub fn new(alloc: A) -> GoneFacts<A>
        ensures lost { result.lost.items ≡ [] }
        ensures went { result.went.items ≡ [] }
    {
        GoneFacts {
            lost: Vec::new(alloc),
            went: Vec::new(alloc),
        }
    }
}

impl<A: Allocator> GoneFacts<A> {
    /// Lists the facts that the deletion takes that `judge_delete` found, in place of what was listed before.
    ///
    /// It takes time in the ids of the deleted entities and of those that refer to them, besides the time to sort the
    /// lists. Memory can be refused only where a list has no room.
    pub fn gather<G: Graph>(&mut self, graph: &G, scratch: &Scratch<A>) -> Result<(), AllocError>
        requires { G.size graph.now ≤ scratch.now.size }
        ensures lost { OnOk result (OfDeletion (G.entities graph.now) (G.ids graph.now) scratch.now
            (λ w e. self.new.lost.items ≡ filter (is_lost w e) (keys w.facts))) }
        ensures went { OnOk result (OfDeletion (G.entities graph.now) (G.ids graph.now) scratch.now
            (λ w e. self.new.went.items ≡ filter (mentions_gone w (deleted w e)) (keys w.facts))) }
    {
        list_lost(graph, scratch, &mut self.lost)?;
        self.went.clear();
        append(&mut self.went, &self.lost)?;
        list_dead(graph, scratch, &mut self.went)?;
        put_in_order(&mut self.lost);
        put_in_order(&mut self.went);
        Ok(())
    }
}

/// Adds these facts. Mostly there are none.
#[inline(always)]
fn append<A: Allocator>(facts: &mut Vec<FactKey, A>, more: &[FactKey]) -> Result<(), AllocError>
    ensures { OnOk result (facts.new.items ≡ facts.old.items ++ more.now) }
{
    if 0 < more.len() {
        facts.extend_from_slice(more)?;
    }
    Ok(())
}

/// Makes the list that of the facts of those who refer to the found, where they mention one of these.
fn list_lost<G: Graph, A: Allocator>(
    graph: &G,
    scratch: &Scratch<A>,
    facts: &mut Vec<FactKey, A>,
) -> Result<(), AllocError>
    requires { G.size graph.now ≤ scratch.now.size }
    ensures { OnOk result (facts.new.items ≡ flat_map (λ y. map (λ i. (y, i))
        (filter (mentions_any scratch.now.found) (G.ids graph.now y)))
        scratch.now.referrers) }
{
    facts.clear();
    for entity in scratch.referrers() {
        push_lost(graph, *entity, scratch, facts)?;
    }
    Ok(())
}

/// Adds those of one entity.
fn push_lost<G: Graph, A: Allocator>(
    graph: &G,
    entity: u32,
    scratch: &Scratch<A>,
    facts: &mut Vec<FactKey, A>,
) -> Result<(), AllocError>
    requires { G.size graph.now ≤ scratch.now.size }
    ensures { OnOk result (facts.new.items ≡ facts.old.items ++ map (λ i. (entity, i))
        (filter (mentions_any scratch.now.found) (G.ids graph.now entity))) }
{
    let _ = graph.size();
    for id in graph.ids(entity) {
        if mentions_found(scratch, *id) {
            facts.push(FactKey::new(entity, *id))?;
        }
    }
    Ok(())
}

/// Whether an id mentions one of the found.
fn mentions_found<A: Allocator>(scratch: &Scratch<A>, id: Id) -> bool
    requires { All (λ x. x < scratch.now.size) (mentioned id) }
    ensures { result ≡ mentions_any scratch.now.found id }
{
    if scratch.is_found(id.first()) {
        return true;
    }
    match id.second() {
        Some(target) => scratch.is_found(target),
        None => false,
    }
}

/// Adds all facts of the found.
fn list_dead<G: Graph, A: Allocator>(
    graph: &G,
    scratch: &Scratch<A>,
    facts: &mut Vec<FactKey, A>,
) -> Result<(), AllocError>
    ensures { OnOk result (facts.new.items ≡ facts.old.items ++ flat_map
        (λ y. map (λ i. (y, i)) (G.ids graph.now y)) scratch.now.found) }
{
    for entity in scratch.found() {
        push_facts(graph, *entity, facts)?;
    }
    Ok(())
}
