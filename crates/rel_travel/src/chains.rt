//! What is reached along a relationship.
ghost use Rattle.std.specs.Prelude.{◌≡◌, ◌↔◌, ◌≤◌, ◌<◌, ◌&&◌, ℕ, [], ◌∷◌, All, Contains, IsTrue, not, if◌then◌else◌};
ghost use Rattle.ecs_model.specs.Reach.{Reached, Reaches};
ghost use Rattle.ecs_model.specs.Links.{AreLinks, is_reflexive, is_transitive, reaches, upward};
ghost use Rattle.rel_travel.specs.Lists.{IsListed};

use crate::found::Found;
use crate::graph::{Graph, Upward};
use crate::work_list::{Rule, gather_until};
use ecs_id::Id;
use ecs_model::built_ins::{REFLEXIVE, TRANSITIVE};
use std::alloc::Allocator;

/// How far a relationship reaches.
#[derive(Clone, Copy)]
pub struct Reach {
    pub is_transitive: bool,
    pub is_reflexive: bool,
}

/// What the traits of a relationship say of its reach.
pub fn reach_of<G: Graph>(graph: &G, relationship: u32) -> Reach
    ensures transitive { result.is_transitive ≡ is_transitive (G.ids graph.now) relationship }
    ensures reflexive { result.is_reflexive ≡ is_reflexive (G.ids graph.now) relationship }
{
    let traits = graph.ids(relationship);
    Reach {
        is_transitive: traits.contains(&Id::plain(TRANSITIVE)),
        is_reflexive: traits.contains(&Id::plain(REFLEXIVE)),
    }
}

/// Begins with the entity itself, where a reach is reflexive. Answers whether what the entity brings is to be added
/// too: along what is transitive that is reached from the entity itself.
pub fn begin_with<A: Allocator>(index: u32, reach: Reach, found: &mut Found<A>) -> bool
    requires inside { index < found.old.size }
    ensures size { found.new.size ≡ found.old.size }
    ensures items { found.new.items ≡ (if reach.is_reflexive then index ∷ [] else []) }
    ensures answer { result ≡ not (reach.is_reflexive && reach.is_transitive) }
{
    found.clear();
    if reach.is_reflexive {
        found.add(index);
    }
    !(reach.is_reflexive && reach.is_transitive)
}

/// Finds what all that is reached from an entity begins with. Along what is transitive the rest is reached from these.
pub fn begin<R: Rule, A: Allocator>(rule: &R, index: u32, reach: Reach, found: &mut Found<A>)
    requires covered { (x : ℕ) → All (λ y. y < found.old.size) (R.next rule.now x) }
    requires inside { index < found.old.size }
    ensures size { found.new.size ≡ found.old.size }
    ensures begun { (y : ℕ) → IsListed reach.is_transitive (R.next rule.now) found.new.items y
        ↔ Reaches reach.is_transitive reach.is_reflexive (R.next rule.now) index y }
{
    if begin_with(index, reach, found) {
        rule.follow(index, found);
    }
}

/// Whether a relationship leads from one entity to another.
pub fn leads<G: Graph, A: Allocator>(
    graph: &G,
    relationship: u32,
    source: u32,
    target: u32,
    found: &mut Found<A>,
) -> bool
    requires covered { G.size graph.now ≤ found.old.size }
    requires source { source < found.old.size }
    requires target { target < found.old.size }
    ensures size { found.new.size ≡ found.old.size }
    ensures answer { result ≡ reaches (G.ids graph.now) (G.entities graph.now) relationship source target }
{
    let _ = graph.size();
    let reach = reach_of(graph, relationship);
    let rule = Upward {
        graph,
        relationship,
    };
    begin(&rule, source, reach, found);
    if reach.is_transitive {
        return gather_until(&rule, target, found);
    }
    found.is_found(target)
}

/// Whether a relationship leads from the target back to the source, or they are one.
pub fn leads_back<G: Graph, A: Allocator>(
    graph: &G,
    relationship: u32,
    source: u32,
    target: u32,
    found: &mut Found<A>,
) -> bool
    requires covered { G.size graph.now ≤ found.old.size }
    requires source { source < found.old.size }
    requires target { target < found.old.size }
    ensures size { found.new.size ≡ found.old.size }
    ensures answer { IsTrue result ↔ Reached (upward (G.ids graph.now) relationship) target source }
{
    let _ = graph.size();
    found.clear();
    found.add(target);
    let rule = Upward {
        graph,
        relationship,
    };
    gather_until(&rule, source, found)
}
