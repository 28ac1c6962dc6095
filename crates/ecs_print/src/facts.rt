//! The values of facts.
ghost use Rattle.std.specs.Prelude.{◌≡◌, ◌≤◌, ◌++◌, IsTrue, OnErr, OnOk, Some, codes, drop, flat_map, length};
ghost use Rattle.ecs_model.specs.Bytes.{size_of, values_in};
ghost use Rattle.ecs_model.specs.Output.{fact_text};
ghost use Rattle.ecs_model.specs.Print.{id_text, value_text};
ghost use Rattle.ecs_model.specs.World.{ids_of, is_alive, type_of_id, value_of};
ghost use Rattle.ecs_world.specs.State.{byte_count, value_in};
ghost use Rattle.ecs_print.specs.Stops.{StopsWithin};
ghost use Rattle.ecs_print.specs.Values.{ended_text, held_text};

use crate::digits::write_next;
use crate::entities::write_id;
use ecs_id::{EntityId, Id};
use ecs_schema::Schema;
use ecs_schema::laws::bytes_are_a_value;
use ecs_world::World;
use std::alloc::{AllocError, Allocator};

/// The numbers of a value take at most so many bytes: eight of up to twenty digits, each with a sign and a separator
/// before it.
pub const MOST_TEXT: usize = 176;

/// Writes the facts of a live entity, in the order of ids. Where memory is refused, a prefix of them may be written.
pub fn write_facts<A: Allocator>(
    world: &World<A>,
    entity: EntityId,
    out: &mut Vec<u8, A>,
) -> Result<(), AllocError>
    requires { IsTrue (is_alive world.now.state entity) }
    ensures written { OnOk result (out.new.items ≡ out.old.items ++ flat_map (fact_text world.now.state entity.index)
        (ids_of world.now.state entity.index)) }
    ensures front { OnErr result (StopsWithin out.old.items out.new.items
        (flat_map (fact_text world.now.state entity.index) (ids_of world.now.state entity.index))) }
{
    let facts = world.facts(entity).unwrap();
    out.extend_from_slice(b" [")?;
    for place in 0..facts.len() {
        let (id, bytes) = facts.at(place);
        write_held(world, id, bytes, out)?;
    }
    // No separator stands after the last fact.
    out.truncate(out.len() - 2);
    Ok(())
}

/// Writes a fact of an entity, by its index: ` [ID=v,v]`, or ` [ID]` without a value. Where memory is refused, a prefix
/// of it may be written.
pub fn write_fact<A: Allocator>(
    world: &World<A>,
    entity: u32,
    id: Id,
    out: &mut Vec<u8, A>,
) -> Result<(), AllocError>
    ensures written { OnOk result (out.new.items ≡ out.old.items ++ fact_text world.now.state entity id) }
    ensures front { OnErr result (StopsWithin out.old.items out.new.items (fact_text world.now.state entity id)) }
{
    out.extend_from_slice(b" [")?;
    write_id(world, id, out)?;
    write_value(world, entity, id, out)?;
    out.extend_from_slice(b"]")
}

/// Writes the value of a fact: `=` and its numbers with commas between, or nothing where it has no numbers. Where memory
/// is refused, nothing is written.
pub fn write_value<A: Allocator>(
    world: &World<A>,
    entity: u32,
    id: Id,
    out: &mut Vec<u8, A>,
) -> Result<(), AllocError>
    ensures written { OnOk result (out.new.items ≡ out.old.items ++ value_text (value_of world.now.state entity id)) }
    ensures refused { OnErr result (out.new.items ≡ out.old.items) }
{
    world.keeps();
    let Some(schema) = world.type_of(id) else {
        return Ok(());
    };
    match world.bytes(entity, id) {
        None => Ok(()),
        Some(bytes) => write_fields(schema, bytes, out),
    }
}

/// Writes an id, the value that its bytes mean, and the separator of facts. Where memory is refused, a prefix of the id
/// may be written.
#[inline(always)]
fn write_held<A: Allocator>(
    world: &World<A>,
    id: Id,
    bytes: &[u8],
    out: &mut Vec<u8, A>,
) -> Result<(), AllocError>
    requires { length bytes.now ≡ byte_count (type_of_id world.now.state id) }
    ensures written { OnOk result (out.new.items ≡ out.old.items ++ held_text world.now.state id bytes.now) }
    ensures front { OnErr result (StopsWithin out.old.items out.new.items (id_text world.now.state id)) }
{
    write_id(world, id, out)?;
    write_bytes(world, id, bytes, out)
}

/// Writes the value that the bytes of a fact mean, and the separator of facts. Where there are no bytes, their type
/// needs no look-up.
#[inline(always)]
fn write_bytes<A: Allocator>(
    world: &World<A>,
    id: Id,
    bytes: &[u8],
    out: &mut Vec<u8, A>,
) -> Result<(), AllocError>
    requires { length bytes.now ≡ byte_count (type_of_id world.now.state id) }
    ensures written { OnOk result (out.new.items ≡ out.old.items ++ ended_text world.now.state id bytes.now) }
    ensures refused { OnErr result (out.new.items ≡ out.old.items) }
{
    world.keeps();
    if bytes.is_empty() {
        return out.extend_from_slice(b"] [");
    }
    match world.type_of(id) {
        None => out.extend_from_slice(b"] ["),
        Some(schema) => write_ended(schema, bytes, out),
    }
}

/// Writes the value that bytes mean, and the separator of facts.
#[inline(always)]
fn write_ended<A: Allocator>(
    schema: &Schema<A>,
    bytes: &[u8],
    out: &mut Vec<u8, A>,
) -> Result<(), AllocError>
    requires { length bytes.now ≡ size_of schema.now }
    ensures written { OnOk result (out.new.items ≡ out.old.items ++ value_text (Some (values_in schema.now bytes.now))
        ++ codes "] [") }
    ensures refused { OnErr result (out.new.items ≡ out.old.items) }
{
    let mut text = [b'['; MOST_TEXT + 3];
    text[MOST_TEXT + 1] = b' ';
    text[MOST_TEXT] = b']';
    let start = put_fields(schema, bytes, &mut text);
    out.extend_from_slice(&text[start..])
}

/// Writes the value that bytes mean: `=` and the number of each field, with commas between.
fn write_fields<A: Allocator>(
    schema: &Schema<A>,
    bytes: &[u8],
    out: &mut Vec<u8, A>,
) -> Result<(), AllocError>
    requires { length bytes.now ≡ size_of schema.now }
    ensures written { OnOk result (out.new.items ≡ out.old.items ++ value_text (Some (values_in schema.now bytes.now))) }
    ensures refused { OnErr result (out.new.items ≡ out.old.items) }
{
    let mut text = [0; MOST_TEXT];
    let start = put_fields(schema, bytes, &mut text);
    out.extend_from_slice(&text[start..])
}

/// Writes the value that bytes mean, as `write_value` does of a fact, right before the place `MOST_TEXT` of a text, and
/// answers where it starts.
pub fn put_fields<A: Allocator>(schema: &Schema<A>, bytes: &[u8], text: &mut [u8]) -> usize
    requires size { length bytes.now ≡ size_of schema.now }
    requires room { 176 ≤ length text.old }
    ensures within { result ≤ 176 }
    ensures written { drop result text.new ≡ value_text (Some (values_in schema.now bytes.now)) ++ drop 176 text.old }
{
    bytes_are_a_value(schema, bytes);
    let count = schema.field_count();
    let mut start = MOST_TEXT;
    let mut field = count;
    while field > 0 {
        field -= 1;
        start = write_next(schema.decode(bytes, field), text, start);
    }
    // Before the first number stands no comma.
    text[start] = b'=';
    start
}
