//! Entities and ids, by name or by handle.
ghost use Rattle.std.specs.Prelude.{◌≡◌, ◌≤◌, ◌++◌, OnErr, OnOk, codes, drop, length};
ghost use Rattle.ecs_model.specs.Print.{entity_text, handle_text, id_text, index_text};
ghost use Rattle.ecs_print.specs.Stops.{StopsWithin};

use crate::digits::write_marked;
use ecs_id::{EntityId, Id};
use ecs_world::World;
use std::alloc::{AllocError, Allocator};

/// A handle takes at most so many bytes: two numbers of up to twenty digits, each with a mark before it.
const MOST_HANDLE: usize = 42;

/// Writes the handle of an entity: `#index.generation`. Where memory is refused, nothing is written.
pub fn write_handle<A: Allocator>(entity: EntityId, out: &mut Vec<u8, A>) -> Result<(), AllocError>
    ensures written { OnOk result (out.new.items ≡ out.old.items ++ handle_text entity) }
    ensures refused { OnErr result (out.new.items ≡ out.old.items) }
{
    let mut text = [0; MOST_HANDLE];
    let start = put_handle(entity, &mut text, MOST_HANDLE);
    out.extend_from_slice(&text[start..])
}

/// Writes the handle of an entity, and a line feed. Where memory is refused, nothing is written.
pub fn write_handle_line<A: Allocator>(
    entity: EntityId,
    out: &mut Vec<u8, A>,
) -> Result<(), AllocError>
    ensures written { OnOk result (out.new.items ≡ out.old.items ++ handle_text entity ++ codes "\n") }
    ensures refused { OnErr result (out.new.items ≡ out.old.items) }
{
    let mut text = [b'\n'; MOST_HANDLE + 1];
    let start = put_handle(entity, &mut text, MOST_HANDLE);
    out.extend_from_slice(&text[start..])
}

/// Writes the handle of an entity right before `end`, and answers where it starts.
fn put_handle(entity: EntityId, text: &mut [u8], end: usize) -> usize
    requires room { 42 ≤ end }
    requires within { end ≤ length text.old }
    ensures within { result ≤ end }
    ensures written { drop result text.new ≡ handle_text entity ++ drop end text.old }
{
    let middle = write_marked(b'.', u64::from(entity.generation), text, end);
    write_marked(b'#', u64::from(entity.index), text, middle)
}

/// Writes an entity: its name, or its handle where it has none. Where memory is refused, nothing is written.
pub fn write_entity<A: Allocator, B: Allocator>(
    world: &World<A>,
    entity: EntityId,
    out: &mut Vec<u8, B>,
) -> Result<(), AllocError>
    ensures written { OnOk result (out.new.items ≡ out.old.items ++ entity_text world.now.state entity) }
    ensures refused { OnErr result (out.new.items ≡ out.old.items) }
{
    match world.name_of(entity.index) {
        Some(name) => out.extend_from_slice(name.as_bytes()),
        None => write_handle(entity, out),
    }
}

/// Writes the live entity at an index, and nothing where none lives or memory is refused.
#[inline(always)]
pub fn write_index<A: Allocator, B: Allocator>(
    world: &World<A>,
    index: u32,
    out: &mut Vec<u8, B>,
) -> Result<(), AllocError>
    ensures written { OnOk result (out.new.items ≡ out.old.items ++ index_text world.now.state index) }
    ensures refused { OnErr result (out.new.items ≡ out.old.items) }
{
    world.keeps();
    if let Some(name) = world.name_of(index) {
        return out.extend_from_slice(name.as_bytes());
    }
    match world.at(index) {
        Some(entity) => write_handle(entity, out),
        None => Ok(()),
    }
}

/// Writes an id: the entity of a component or tag, or `(R,T)` for a pair. Where memory is refused, a prefix of it may be
/// written.
#[inline(always)]
pub fn write_id<A: Allocator, B: Allocator>(
    world: &World<A>,
    id: Id,
    out: &mut Vec<u8, B>,
) -> Result<(), AllocError>
    ensures written { OnOk result (out.new.items ≡ out.old.items ++ id_text world.now.state id) }
    ensures front { OnErr result (StopsWithin out.old.items out.new.items (id_text world.now.state id)) }
{
    match id.second() {
        None => write_index(world, id.first(), out),
        Some(target) => {
            out.extend_from_slice(b"(")?;
            write_index(world, id.first(), out)?;
            out.extend_from_slice(b",")?;
            write_index(world, target, out)?;
            out.extend_from_slice(b")")
        }
    }
}
