//! The tables of a query, with the columns of their values. Nothing is borrowed between two calls: a table is named by its
//! key.
ghost use Rattle.std.specs.Prelude.{IsTrue};
ghost use Rattle.query_chunks.specs.Asked.{has_chunks};
ghost use Rattle.flecsq_c.specs.Calls.{ByReading, ByWorld, held_by};
ghost use Rattle.flecsq_c.specs.Tables.{GivesColumn, GivesTables, SetsValues, WritesTables, key_of};

use crate::asking::asked;
use crate::handle::Flecsq;
use crate::holding::{put, taken};
use crate::lent::{Column, Table};
use crate::numbered::Numbered;
use crate::status::{CLOSED, GONE, NOT_HELD, NOT_TABLED, OK, ROOM, STALE, UNKNOWN, column_status};
use ecs_id::Id;
use ecs_world::World;
use query_check::Query;
use query_chunks::{Chunks, has_chunks};
use std::alloc::Global;
use world_script::Stepper;

/// The tables of a query: the first of them, as many as fit, and how many there are.
#[unsafe(no_mangle)]
pub extern "C" fn flecsq_tables(
    alloc: Global,
    handle: &mut Flecsq,
    query: u64,
    tables: &mut [Table],
    count: &mut usize,
) -> i32
    ensures { ByReading (GivesTables query tables.old tables.new count.old count.new) (held_by handle.old)
        (held_by handle.new) result }
{
    let Some(engine) = taken(alloc, handle) else {
        return CLOSED;
    };
    let status = give_tables(
        engine.stepper.world(),
        engine.queries.as_slice(),
        query,
        tables,
        count,
    );
    put(handle, engine);
    status
}

/// The values of an id in a table.
#[unsafe(no_mangle)]
pub extern "C" fn flecsq_column(
    alloc: Global,
    handle: &mut Flecsq,
    table: &Table,
    id: u64,
    column: &mut Column,
) -> i32
    ensures { ByReading (λ w _. GivesColumn (key_of table.now) id column.old column.new w) (held_by handle.old)
        (held_by handle.new) result }
{
    let Some(engine) = taken(alloc, handle) else {
        return CLOSED;
    };
    let status = give_column(engine.stepper.world(), table, id, column);
    put(handle, engine);
    status
}

/// Sets the values of an id for all entities of a table, row by row.
#[unsafe(no_mangle)]
pub extern "C" fn flecsq_set_column(
    alloc: Global,
    handle: &mut Flecsq,
    table: &Table,
    id: u64,
    bytes: &[u8],
) -> i32
    ensures { ByWorld (SetsValues (key_of table.now) id bytes.now) (held_by handle.old) (held_by handle.new) result }
{
    let Some(mut engine) = taken(alloc, handle) else {
        return CLOSED;
    };
    let status = set_values(&mut engine.stepper, table, id, bytes);
    put(handle, engine);
    status
}

fn give_tables(
    world: &World<Global>,
    queries: &[Option<Numbered>],
    number: u64,
    tables: &mut [Table],
    count: &mut usize,
) -> i32
    ensures { GivesTables number tables.old tables.new count.old count.new world.now queries.now result }
{
    let Some(numbered) = asked(queries, number) else {
        return UNKNOWN;
    };
    if !numbered.is_current(world) {
        return STALE;
    }
    if !has_chunks(numbered.query()) {
        return NOT_TABLED;
    }
    *count = write_tables(world, numbered.query(), tables);
    if *count > tables.len() { ROOM } else { OK }
}

/// Writes the first tables of a query, as many as fit, and answers how many there are.
fn write_tables(world: &World<Global>, query: &Query<Global>, tables: &mut [Table]) -> usize
    requires { IsTrue (has_chunks query.now) }
    ensures { WritesTables world.now query.now tables.old tables.new result }
{
    let mut chunks = Chunks::start(world, query);
    let mut count: usize = 0;
    'written: while let Some(chunk) = chunks.next_chunk() {
        if count < tables.len() {
            tables[count] = Table::of(chunk.table(), chunk.entities());
        }
        count = count.saturating_add(1);
    }
    count
}

fn give_column(world: &World<Global>, table: &Table, id: u64, column: &mut Column) -> i32
    ensures { GivesColumn (key_of table.now) id column.old column.new world.now result }
{
    let Some(id) = Id::unpack(id) else {
        return UNKNOWN;
    };
    let graph = world.graph();
    let Some(found) = graph.store().get(table.key()) else {
        return GONE;
    };
    let Some(bytes) = found.column(id) else {
        return NOT_HELD;
    };
    let Some(schema) = world.type_of(id) else {
        return NOT_HELD;
    };
    *column = Column::of(bytes, schema.size());
    OK
}

fn set_values(stepper: &mut Stepper<Global>, table: &Table, id: u64, bytes: &[u8]) -> i32
    ensures { SetsValues (key_of table.now) id bytes.now stepper.old stepper.new result }
{
    match Id::unpack(id) {
        Some(id) => column_status(stepper.set_column(table.key(), id, bytes)),
        None => UNKNOWN,
    }
}
