//! Whether added facts would close a cycle.
ghost use Rattle.std.specs.Prelude.{◌≡◌, ◌↔◌, ◌≤◌, ◌<◌, All, IfSome, IsTrue};
ghost use Rattle.ecs_id.specs.Id.{second_of};
ghost use Rattle.rel_traits.specs.After.{ClosesAt, ClosesOne, TellsCycles};

use ecs_id::Id;
use ecs_model::FactKey;
use ecs_model::built_ins::ACYCLIC;
use rel_travel::{Holders, Scratch, may_be_target, would_cycle};
use std::alloc::Allocator;

/// Whether one of the facts that come with a fact of the entity closes a cycle of a relationship that must have none.
///
/// It goes through the ids of the ancestors of a pair's target, for each pair of an acyclic relationship; of an entity
/// to which nothing is related so yet, as of one that is new, none needs to be looked at.
pub fn adds_cycle<G: Holders, A: Allocator>(
    graph: &G,
    entity: u32,
    added: &[FactKey],
    scratch: &mut Scratch<A>,
) -> bool
    requires covered { G.size graph.now ≤ scratch.old.size }
    requires entity { entity < scratch.old.size }
    requires targets { All (λ k. IfSome (second_of k.1) (λ t. t < scratch.old.size)) added.now }
    ensures size { scratch.new.size ≡ scratch.old.size }
    ensures closes { IsTrue result ↔ ClosesOne (G.ids graph.now) entity added.now }
    ensures cycles { TellsCycles (G.entities graph.now) (G.ids graph.now) entity added.now (IsTrue result) }
{
    let _ = graph.size();
    for fact in added {
        if closes(graph, entity, *fact, scratch) {
            return true;
        }
    }
    false
}

/// Whether one of them does.
fn closes<G: Holders, A: Allocator>(
    graph: &G,
    entity: u32,
    fact: FactKey,
    scratch: &mut Scratch<A>,
) -> bool
    requires covered { G.size graph.now ≤ scratch.old.size }
    requires entity { entity < scratch.old.size }
    requires target { IfSome (second_of fact.1) (λ t. t < scratch.old.size) }
    ensures size { scratch.new.size ≡ scratch.old.size }
    ensures answer { IsTrue result ↔ ClosesAt (G.ids graph.now) entity fact }
{
    let id = fact.id();
    if let Some(target) = id.second() {
        if graph.ids(id.first()).contains(&Id::plain(ACYCLIC)) {
            if fact.entity() != entity {
                return true;
            }
            // No chain leads to what is no target.
            if target != entity && !may_be_target(graph, id.first(), entity) {
                return false;
            }
            return would_cycle(graph, id.first(), entity, target, scratch);
        }
    }
    false
}
