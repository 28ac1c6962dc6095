//! What `show` prints.
ghost use Rattle.std.specs.Prelude.{◌≡◌, ◌++◌, IsTrue, OnOk};
ghost use Rattle.ecs_model.specs.World.{is_alive};
ghost use Rattle.ecs_model.specs.Output.{show_text};

use ecs_id::EntityId;
use ecs_print::{write_entity, write_facts};
use ecs_world::World;
use std::alloc::{AllocError, Allocator};

/// Prints a live entity and its facts, in the order of ids.
pub(crate) fn show_entity<A: Allocator>(
    world: &World<A>,
    entity: EntityId,
    output: &mut Vec<u8, A>,
) -> Result<(), AllocError>
    requires { IsTrue (is_alive world.now.state entity) }
    ensures { OnOk result (output.new.items ≡ output.old.items ++ show_text world.now.state entity) }
{
    output.extend_from_slice(b"show ")?;
    write_entity(world, entity, output)?;
    write_facts(world, entity, output)?;
    output.extend_from_slice(b"\n")
}
