//! Who holds which ids, as the searches see it.
ghost use Rattle.std.specs.Prelude.{◌≡◌, ◌<◌, ℕ, List, All};
ghost use Rattle.ecs_id.specs.Id.{Id as IdValue};
ghost use Rattle.rel_travel.specs.Coming.{with_finds};
ghost use Rattle.rel_travel.specs.Growing.{IsGrownBy};
ghost use Rattle.ecs_model.specs.Links.{AreLinks, target_under, targets_in, upward};

use crate::found::Found;
use crate::work_list::Rule;
use ecs_id::Id;
use std::alloc::Allocator;

/// A view of the entities of a world, by index.
pub trait Graph {
    /// Every index of a live entity is below it.
    ghost size: { Self → ℕ };

    /// The indexes of the live entities.
    ghost entities: { Self → List ℕ };

    /// The ids of the entity of an index, in order: none where no entity lives.
    ghost ids: { Self → ℕ → List IdValue };

    fn size(&self) -> u32
        ensures size { result ≡ size self.now }
        ensures links { AreLinks (size self.now) (entities self.now) (ids self.now) };

    fn ids(&self, index: u32) -> &[Id]
        ensures { result.now ≡ ids self.now index };
}

/// From an entity to the targets of its pairs of a relationship.
#[derive(Drop)]
pub struct Upward<'a, G> {
    pub graph: &'a G,
    pub relationship: u32,
}

impl<G: Graph> Rule for Upward<'_, G> {
    ghost next = { λ u. upward (G.ids u.graph.now) u.relationship };

    fn follow<A: Allocator>(&self, index: u32, found: &mut Found<A>)
        requires { All (λ y. y < found.old.size) (upward (G.ids self.now.graph.now) self.now.relationship index) }
        ensures size { found.new.size ≡ found.old.size }
        ensures grown { IsGrownBy (upward (G.ids self.now.graph.now) self.now.relationship index) found.old.items
            found.new.items }
        ensures items { found.new.items ≡ with_finds found.old.items
            (upward (G.ids self.now.graph.now) self.now.relationship index) }
    {
        add_targets(self.graph.ids(index), self.relationship, found);
    }
}

/// The target of a pair of this relationship.
pub fn target_under(id: Id, relationship: u32) -> Option<u32>
    ensures { result ≡ target_under relationship id }
{
    if id.first() == relationship {
        id.second()
    } else {
        None
    }
}

/// Adds the targets of the pairs of a relationship, in order.
fn add_targets<A: Allocator>(ids: &[Id], relationship: u32, found: &mut Found<A>)
    requires { All (λ t. t < found.old.size) (targets_in ids.now relationship) }
    ensures size { found.new.size ≡ found.old.size }
    ensures items { found.new.items ≡ with_finds found.old.items (targets_in ids.now relationship) }
{
    for id in ids {
        if let Some(target) = target_under(*id, relationship) {
            found.add(target);
        }
    }
}
