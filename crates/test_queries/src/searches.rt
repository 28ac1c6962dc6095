//! The searches along relationships, through a world. Each asks first for what its search requires.
ghost use Rattle.ecs_model.specs.Links.{IsAcyclic};
ghost use Rattle.ecs_model.specs.World.{ids_of};
ghost use Rattle.std.specs.Prelude.{◌≤◌, IsTrue};

use ecs_id::Id;
use ecs_model::built_ins::ACYCLIC;
use ecs_world::World;
use id_pattern::Pattern;
use rel_travel::{Graph, Holders, Scratch, Unknown, above, first_up, pull, reaches};

/// Whether no chain of a relationship closes.
fn has_no_cycle(world: &World, relationship: u32) -> bool
    ensures { IsTrue result → IsAcyclic (ids_of world.now.state) relationship }
{
    world.keeps();
    world.has(relationship, Id::plain(ACYCLIC))
}

/// The first ancestor along an acyclic relationship that holds what the pattern matches. There is room, and the entity
/// is in the world.
pub fn first_above(
    world: &World,
    index: u32,
    relationship: u32,
    pattern: Pattern,
    scratch: &mut Scratch,
) -> Option<u32> {
    let links = world.links();
    if !has_no_cycle(world, relationship) || !scratch.covers(&links) || index >= links.size() {
        return None;
    }
    first_up(&links, index, relationship, pattern, &mut Unknown, scratch)
}

/// Whether the relationship leads there. There is room, and both entities are in the world.
pub fn leads(
    world: &World,
    relationship: u32,
    source: u32,
    target: u32,
    scratch: &mut Scratch,
) -> bool {
    let links = world.links();
    let size = links.size();
    if !scratch.covers(&links) || source >= size || target >= size {
        return false;
    }
    reaches(&links, relationship, source, target, scratch)
}

/// The next five of a list that was begun, by index.
fn next_five<G: Holders>(graph: &G, scratch: &mut Scratch) -> [Option<u32>; 5]
    requires { G.size graph.now ≤ scratch.old.size }
{
    let mut given = [
        pull(graph, scratch),
        pull(graph, scratch),
        pull(graph, scratch),
        pull(graph, scratch),
        pull(graph, scratch),
    ];
    given.sort_unstable();
    given
}

/// The first five of those above, by index. There is room, and the entity is in the world.
pub fn first_five(
    world: &World,
    index: u32,
    relationship: u32,
    scratch: &mut Scratch,
) -> [Option<u32>; 5] {
    let links = world.links();
    if !scratch.covers(&links) || index >= links.size() {
        return [None; 5];
    }
    above(&links, index, relationship, scratch);
    next_five(&links, scratch)
}
