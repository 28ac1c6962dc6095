//! The texts by which entities and ids are printed after a command.

ghost use Rattle.std.specs.Prelude.{◌≡◌, IfOk};
ghost use Rattle.ecs_model.specs.Map.{count_at};
ghost use Rattle.ecs_model.specs.Print.{entity_text, handle_text, id_text};

use crate::text::Text;
use ecs_id::{EntityId, Id};
use ecs_print::{write_handle, write_id};
use ecs_world::World;
use std::alloc::{AllocError, Allocator};

/// The live entity at an index; where none lives there, the index with generation 0.
pub(crate) fn entity_now<A: Allocator>(world: &World<A>, index: u32) -> EntityId
    ensures { result ≡ record { index = index; generation = count_at world.now.state.live index } }
{
    world.at(index).unwrap_or(EntityId {
        index,
        generation: 0,
    })
}

/// The text of an entity.
pub(crate) fn entity_text<A: Allocator + Copy>(
    alloc: A,
    world: &World<A>,
    entity: EntityId,
) -> Result<Text<A>, AllocError>
    ensures { IfOk result (λ text. text ≡ entity_text world.now.state entity) }
{
    match world.name_of(entity.index) {
        Some(name) => Text::from_slice(alloc, name.as_bytes()),
        None => handle_text(alloc, entity),
    }
}

/// The text of a handle.
pub(crate) fn handle_text<A: Allocator + Copy>(
    alloc: A,
    entity: EntityId,
) -> Result<Text<A>, AllocError>
    ensures { IfOk result (λ text. text ≡ handle_text entity) }
{
    let mut text = Vec::new(alloc);
    write_handle(entity, &mut text)?;
    Ok(Text::from_vec(text))
}

/// The text of an id.
pub(crate) fn id_text<A: Allocator + Copy>(
    alloc: A,
    world: &World<A>,
    id: Id,
) -> Result<Vec<u8, A>, AllocError>
    ensures { IfOk result (λ text. text.items ≡ id_text world.now.state id) }
{
    let mut text = Vec::new(alloc);
    write_id(world, id, &mut text)?;
    Ok(text)
}
