//! Which facts come with an added one.
ghost use Rattle.std.specs.Prelude.{◌≡◌, ◌++◌, ◌∷◌, ◌≤◌, ◌<◌, [], ℕ, All, Contains, filter, map, OnOk};
ghost use Rattle.ecs_id.specs.Id.{IsIndex, first_of, mentioned};
ghost use Rattle.ecs_model.specs.BuiltIns.{with_trait};
ghost use Rattle.ecs_model.specs.Links.{upward};
ghost use Rattle.rel_travel.specs.Growing.{IsGrownBy};
ghost use Rattle.ecs_model.specs.Reach.{IsLeast};
ghost use Rattle.ecs_model.specs.Added.{IsAdded, brought, is_symmetric, with_first};
ghost use Rattle.rel_traits.specs.FactLists.{IsListOf, IsOfLive};

use crate::fact_lists::put_in_order;
use ecs_id::Id;
use ecs_model::FactKey;
use ecs_model::built_ins::{SYMMETRIC, WITH};
use rel_travel::{Graph, Scratch, Upward, gather};
use std::alloc::{AllocError, Allocator};

/// Finds the added set, in order: the fact, and all facts that it brings by With and by Symmetric.
///
/// It changes nothing but its scratch and the list. Memory can be refused only where the list has no room. It takes
/// time in what it finds, and to put that in order.
pub fn closure_add<G: Graph, A: Allocator>(
    graph: &G,
    fact: FactKey,
    scratch: &mut Scratch<A>,
    added: &mut Vec<FactKey, A>,
) -> Result<(), AllocError>
    requires covered { G.size graph.now ≤ scratch.old.size }
    requires entity { Contains (G.entities graph.now) fact.0 }
    requires first { Contains (G.entities graph.now) (first_of fact.1) }
    ensures size { scratch.new.size ≡ scratch.old.size }
    ensures added { OnOk result (IsListOf (IsAdded (G.ids graph.now) fact) added.new.items) }
    ensures indexes { OnOk result (All (λ k. IsIndex k.0) added.new.items) }
    ensures live { All (Contains (G.entities graph.now)) (mentioned fact.1)
        → OnOk result (All (IsOfLive (G.entities graph.now)) added.new.items) }
{
    let _ = graph.size();
    list_added(graph, fact, scratch, added)?;
    put_in_order(added);
    Ok(())
}

/// The added set in another order.
fn list_added<G: Graph, A: Allocator>(
    graph: &G,
    fact: FactKey,
    scratch: &mut Scratch<A>,
    added: &mut Vec<FactKey, A>,
) -> Result<(), AllocError>
    requires covered { G.size graph.now ≤ scratch.old.size }
    requires entity { Contains (G.entities graph.now) fact.0 }
    requires first { Contains (G.entities graph.now) (first_of fact.1) }
    ensures size { scratch.new.size ≡ scratch.old.size }
    ensures least { OnOk result (IsLeast (brought (G.ids graph.now)) (fact ∷ []) added.new.items) }
    ensures indexes { OnOk result (All (λ k. IsIndex k.0) added.new.items) }
{
    let _ = graph.size();
    let entity = fact.entity();
    let id = fact.id();
    scratch.clear();
    scratch.add(id.first());
    gather_with(graph, scratch);
    added.clear();
    push_all(fact, scratch.found(), added)?;
    if let Some(target) = id.second() {
        if target != entity {
            scratch.clear();
            add_symmetric(graph, added, scratch);
            gather_with(graph, scratch);
            push_all(
                FactKey::new(target, Id::pair(id.first(), entity)),
                scratch.found(),
                added,
            )?;
        }
    }
    Ok(())
}

/// Adds all to which With leads from the found.
fn gather_with<G: Graph, A: Allocator>(graph: &G, scratch: &mut Scratch<A>)
    requires covered { G.size graph.now ≤ scratch.old.size }
    requires lives { All (Contains (G.entities graph.now)) scratch.old.found }
    ensures size { scratch.new.size ≡ scratch.old.size }
    ensures least { IsLeast (upward (G.ids graph.now) with_trait) scratch.old.found scratch.new.found }
    ensures lives { All (Contains (G.entities graph.now)) scratch.new.found }
{
    let _ = graph.size();
    let relationship = WITH;
    gather(
        &Upward {
            graph,
            relationship,
        },
        scratch,
    );
}

/// Adds those components and relationships of the facts that are symmetric.
fn add_symmetric<G: Graph, A: Allocator>(graph: &G, facts: &[FactKey], scratch: &mut Scratch<A>)
    requires { All (λ k. first_of k.1 < scratch.old.size) facts.now }
    ensures size { scratch.new.size ≡ scratch.old.size }
    ensures grown { IsGrownBy (filter (is_symmetric (G.ids graph.now)) (map (λ k. first_of k.1) facts.now))
        scratch.old.found scratch.new.found }
{
    for fact in facts {
        let first = fact.id().first();
        if graph.ids(first).contains(&Id::plain(SYMMETRIC)) {
            scratch.add(first);
        }
    }
}

/// Adds the fact, with each of these in the place of its component or relationship.
fn push_all<A: Allocator>(
    fact: FactKey,
    firsts: &[u32],
    facts: &mut Vec<FactKey, A>,
) -> Result<(), AllocError>
    requires { All IsIndex firsts.now }
    ensures { OnOk result (facts.new.items ≡ facts.old.items ++ map (λ c. (fact.0, with_first c fact.1)) firsts.now) }
{
    facts.reserve(firsts.len())?;
    for first in firsts {
        facts.push(FactKey::new(fact.entity(), with_first(*first, fact.id())))?;
    }
    Ok(())
}

/// The id with another component or relationship.
fn with_first(first: u32, id: Id) -> Id
    requires { IsIndex first }
    ensures { result ≡ with_first first id }
{
    match id.second() {
        Some(target) => Id::pair(first, target),
        None => Id::plain(first),
    }
}
