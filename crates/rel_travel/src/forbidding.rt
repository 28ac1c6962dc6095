//! Whether a cleanup rule forbids the deletion of the found entities.
ghost use Rattle.std.specs.Prelude.{◌≡◌, ◌↔◌, ◌≤◌, ◌<◌, ℕ, All, Contains};
ghost use Rattle.std.specs.List.{list_any};
ghost use Rattle.ecs_id.specs.Id.{mentioned};
ghost use Rattle.rel_travel.specs.Outside.{forbids_any};
ghost use Rattle.rel_travel.specs.Referring.{is_forbidden, referrers};

use crate::found::Found;
use crate::graph::Graph;
use ecs_id::Id;
use ecs_model::built_ins::{ON_DELETE, ON_DELETE_TARGET, PANIC};
use std::alloc::Allocator;

/// Whether one of those that refer to the members forbids that one of them is deleted.
pub fn has_forbidder<G: Graph, A: Allocator>(
    graph: &G,
    members: &Found<A>,
    referring: &[u32],
) -> bool
    requires members { G.size graph.now ≤ members.now.size }
    requires referring { (y : ℕ) → Contains referring.now y ↔ Contains
        (referrers (G.ids graph.now) (G.entities graph.now) members.now.items) y }
    ensures { result ≡ is_forbidden (G.ids graph.now) (G.entities graph.now) members.now.items }
{
    for entity in referring {
        if forbids_one(graph, *entity, members) {
            return true;
        }
    }
    false
}

/// Whether an entity that holds its ids does.
fn forbids_one<G: Graph, A: Allocator>(graph: &G, entity: u32, members: &Found<A>) -> bool
    requires members { G.size graph.now ≤ members.now.size }
    ensures { result ≡ list_any (forbids_any (G.ids graph.now) members.now.items) (G.ids graph.now entity) }
{
    let _ = graph.size();
    for id in graph.ids(entity) {
        if is_forbidding(graph, *id, members) {
            return true;
        }
    }
    false
}

/// Whether an entity that holds the id does.
fn is_forbidding<G: Graph, A: Allocator>(graph: &G, id: Id, members: &Found<A>) -> bool
    requires { All (λ x. x < members.now.size) (mentioned id) }
    ensures { result ≡ forbids_any (G.ids graph.now) members.now.items id }
{
    let first = id.first();
    let traits = graph.ids(first);
    if members.is_found(first) && traits.contains(&Id::pair(ON_DELETE, PANIC)) {
        return true;
    }
    match id.second() {
        Some(target) => {
            members.is_found(target) && traits.contains(&Id::pair(ON_DELETE_TARGET, PANIC))
        }
        None => false,
    }
}
