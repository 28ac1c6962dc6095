//! Which entities fall with an entity that is deleted.
ghost use Rattle.std.specs.Prelude.{◌≡◌, ◌↔◌, ◌≤◌, ◌<◌, ℕ, All, Contains, flat_map};
ghost use Rattle.ecs_model.specs.Cleanup.{falling};
ghost use Rattle.rel_travel.specs.Holders.{holders_of_pair, sources_falling};
ghost use Rattle.rel_travel.specs.Growing.{IsGrownBy};
ghost use Rattle.ecs_model.specs.Reach.{Reached};

use crate::found::Found;
use crate::holders::{Holders, add_holders};
use crate::work_list::{Rule, gather_found};
use ecs_id::{EntityId, Id};
use ecs_model::built_ins::{DELETE, ON_DELETE, ON_DELETE_TARGET};
use id_pattern::{Part, Pattern};
use std::alloc::Allocator;

/// Finds the entity, and all entities that fall with it when it is deleted, each once.
pub fn find_falling<G: Holders, A: Allocator>(graph: &G, index: u32, found: &mut Found<A>)
    requires covered { G.size graph.now ≤ found.old.size }
    requires inside { index < found.old.size }
    ensures size { found.new.size ≡ found.old.size }
    ensures least { (y : ℕ) → Contains found.new.items y ↔ Reached
        (falling (G.ids graph.now) (G.entities graph.now)) index y }
{
    let _ = graph.size();
    found.clear();
    found.add(index);
    gather_found(&Falling { graph }, found);
}

/// From an entity to those that fall with it.
#[derive(Drop)]
pub struct Falling<'a, G> {
    pub graph: &'a G,
}

impl<G: Holders> Rule for Falling<'_, G> {
    ghost next = { λ f. falling (G.ids f.graph.now) (G.entities f.graph.now) };

    fn follow<A: Allocator>(&self, index: u32, found: &mut Found<A>) {
        let _ = self.graph.size();
        add_sources(self.graph, index, found);
        if self.graph.ids(index).contains(&Id::pair(ON_DELETE, DELETE)) {
            let first = Part::Is(index);
            add_holders(
                self.graph,
                Pattern {
                    first,
                    second: None,
                },
                found,
            );
            let second = Some(Part::Any);
            add_holders(self.graph, Pattern { first, second }, found);
        }
    }
}

/// Adds the sources of pairs with this target whose relationship deletes them. Most entities are no target, which one
/// look-up shows.
fn add_sources<G: Holders, A: Allocator>(graph: &G, target: u32, found: &mut Found<A>)
    requires { All (λ y. y < found.old.size) (sources_falling (G.entities graph.now) (G.ids graph.now) target) }
    ensures size { found.new.size ≡ found.old.size }
    ensures grown { IsGrownBy (sources_falling (G.entities graph.now) (G.ids graph.now) target) found.old.items
        found.new.items }
{
    let any = Pattern {
        first: Part::Any,
        second: Some(Part::Is(target)),
    };
    if graph.tables_of(any).is_empty() {
        return;
    }
    let deleting = Pattern {
        first: Part::Is(ON_DELETE_TARGET),
        second: Some(Part::Is(DELETE)),
    };
    for table in graph.tables_of(deleting) {
        add_pairs(graph, graph.rows(*table), target, found);
    }
}

/// Adds the sources of pairs of any of these relationships with this target.
fn add_pairs<G: Holders, A: Allocator>(
    graph: &G,
    relationships: &[EntityId],
    target: u32,
    found: &mut Found<A>,
)
    requires { All (λ y. y < found.old.size) (flat_map (λ e. holders_of_pair (G.entities graph.now)
        (G.ids graph.now) target e.index) relationships.now) }
    ensures size { found.new.size ≡ found.old.size }
    ensures grown { IsGrownBy (flat_map (λ e. holders_of_pair (G.entities graph.now) (G.ids graph.now) target e.index)
        relationships.now) found.old.items
        found.new.items }
{
    for relationship in relationships {
        let pairs = Pattern {
            first: Part::Is(relationship.index),
            second: Some(Part::Is(target)),
        };
        add_holders(graph, pairs, found);
    }
}
