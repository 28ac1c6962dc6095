//! Counting how many stored queries mention an entity. A mentioned entity can't be deleted.

ghost use Rattle.std.specs.Prelude.{◌≡◌, All, true};
ghost use Rattle.ecs_model.specs.World.{is_alive};
ghost use Rattle.ecs_model.specs.stored.Session.{pinned_by, unpinned_by};

use ecs_world::World;
use query_model::query::Mention;
use std::alloc::Allocator;

/// Counts one more stored query that mentions these live entities. It takes no memory.
pub(crate) fn pin_all<A: Allocator + Copy>(world: &mut World<A>, mentions: &[Mention])
    requires { All (λ m. is_alive world.old.state m.entity ≡ true) mentions.now }
    ensures pinned { world.new.state ≡ pinned_by world.old.state mentions.now }
    ensures tables { world.new.tables ≡ world.old.tables }
{
    for mention in mentions {
        // Not refused: only a dead entity would be.
        let _ = world.pin(mention.entity);
    }
}

/// Counts one stored query less that mentions these entities.
pub(crate) fn unpin_all<A: Allocator + Copy>(world: &mut World<A>, mentions: &[Mention])
    ensures state { world.new.state ≡ unpinned_by world.old.state mentions.now }
    ensures tables { world.new.tables ≡ world.old.tables }
{
    for mention in mentions {
        world.unpin(mention.entity);
    }
}
