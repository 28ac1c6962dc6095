//! Chunks and rows, compared with the rows of a query as they print.

ghost use Rattle.std.specs.Prelude.{IsTrue};
ghost use Rattle.query_chunks.specs.Asked.{has_chunks};

use crate::kept::tables_in;
use crate::numbers::{Sum, expect, sum_of, with, with_fact, with_name, with_value};
use crate::rows::compare_rows;
use crate::worked::{Base, fill};
use crate::worlds::{add_all, first_at, name_all, new_world};
use ecs_id::Id;
use ecs_model::built_ins::{DISABLED, PREFAB};
use ecs_model::faults::CommandError;
use ecs_world::World;
use query_check::Query;
use query_chunks::{Chunk, Chunks, Column, has_chunks};
use query_model::faults::QueryFault;
use std::alloc::Global;
use std::process::Abort;
use std::test::Fail;
use world_query::{read_query, write_rows};

const POSITION: u32 = 64;

const MASS: u32 = 65;

const FROZEN: u32 = 66;

const LIKES: u32 = 67;

const SUN: u32 = 68;

const EARTH: u32 = 69;

const MOON: u32 = 70;

const ROCK: u32 = 71;

const GHOST: u32 = 72;

const MOLD: u32 = 73;

const GONE: u32 = 74;

/// Queries with chunks, and how many rows each has.
static QUERIES: [(&str, usize); 12] = [
    ("Position", 3),
    ("[none] Position, ?Mass, !Frozen", 2),
    ("Frozen || Mass", 3),
    ("Mass || Position || Frozen", 4),
    ("Position, Disabled", 1),
    ("?Disabled, Position", 4),
    ("Position, !Prefab", 3),
    ("(Likes,Sun), Position", 1),
    ("!{ Frozen, !Mass }, Position", 2),
    ("Frozen, Mass", 0),
    ("Position, [none] Mass || Frozen", 2),
    (
        "?Frozen, ?Disabled, ?(Likes,Sun), ?Prefab, ?Mass, Position",
        5,
    ),
];

/// Entities with a position, a mass and tags, of which one is disabled and one a prefab.
static WORLD: Base = Base {
    components: &["Position", "Mass"],
    names: &[
        "Frozen", "Likes", "Sun", "Earth", "Moon", "Rock", "Ghost", "Mold",
    ],
    facts: &[
        (EARTH, FROZEN, None),
        (EARTH, LIKES, Some(SUN)),
        (ROCK, FROZEN, None),
        (GHOST, DISABLED, None),
        (MOLD, PREFAB, None),
    ],
    values: &[
        ((MOON, MASS, None), [7, 70]),
        ((SUN, POSITION, None), [1, 10]),
        ((EARTH, POSITION, None), [2, 10]),
        ((MOON, POSITION, None), [-3, 10]),
        ((GHOST, POSITION, None), [4, 10]),
        ((MOLD, POSITION, None), [5, 10]),
    ],
    replaced: &[],
};

/// Leaves tables without rows, and one that is released with the id of its entity.
fn leave_tables(world: &mut World) -> Result<(), CommandError> {
    name_all(world, &["Gone"])?;
    add_all(world, &[(ROCK, MASS, None), (SUN, GONE, None)])?;
    drop(world.remove(first_at(ROCK), Id::plain(MASS))?);
    drop(world.delete(first_at(GONE))?);
    Ok(())
}

/// The number of a row that goes on with the field of its entity in a column.
fn with_column(number: u64, world: &World, column: &Column<'_>, entity: u32, row: usize) -> u64 {
    match column {
        Column::Unset => with(number, b" [-]"),
        Column::Id(id) => with(with_fact(number, world, *id, entity), b"]"),
        Column::Values(id, schema, bytes) => {
            let value = bytes.chunks_exact(schema.size()).nth(row).unwrap_or(&[]);
            let fact = with_fact(number, world, *id, entity);
            with(with_value(fact, schema, value), b"]")
        }
    }
}

fn row_number(world: &World, chunk: &Chunk<'_>, entity: u32, row: usize) -> u64 {
    let mut number = with_name(with(0, b"row $this="), world, entity);
    for place in 0..64 {
        let Some(column) = chunk.column(place) else {
            break;
        };
        number = with_column(number, world, &column, entity, row);
        drop(column);
    }
    number
}

/// Adds the rows of a chunk.
fn add_chunk(world: &World, chunk: &Chunk<'_>, sum: &mut Sum) {
    for (row, entity) in chunk.entities().iter().enumerate() {
        let number = row_number(world, chunk, entity.index, row);
        *sum = (sum.0.saturating_add(1), sum.1.wrapping_add(number));
    }
}

/// Takes the chunks to come.
fn sum_chunks(world: &World, chunks: &mut Chunks<'_>) -> Sum {
    let mut sum = (0, 0);
    for _ in 0..1000 {
        let Some(chunk) = chunks.next_chunk() else {
            break;
        };
        add_chunk(world, &chunk, &mut sum);
        drop(chunk);
    }
    sum
}

/// The rows of the chunks from the tables that are kept for a query.
fn kept_sum(rt: &impl Abort, alloc: Global, world: &World, query: &Query) -> Sum
    requires { IsTrue (has_chunks query.now) }
{
    let tables = tables_in(rt, alloc, world, query);
    let mut chunks = Chunks::start_in(world, query, tables.as_slice());
    let sum = sum_chunks(world, &mut chunks);
    drop(chunks);
    drop(tables);
    sum
}

/// Whether a query has chunks. If so, their rows are those that are printed, also from the tables that are kept for it.
fn compare_chunks(
    rt: &impl Abort,
    alloc: Global,
    world: &World,
    query: &Query,
    printed: Sum,
) -> bool {
    if !has_chunks(query) {
        return false;
    }
    let mut chunks = Chunks::start(world, query);
    let sum = sum_chunks(world, &mut chunks);
    drop(chunks);
    assert!(rt; sum == printed);
    assert!(rt; kept_sum(rt, alloc, world, query) == printed);
    true
}

/// The rows of a query, one at a time and in chunks, are those that it prints. Whether it has chunks.
pub(crate) fn compare(
    rt: &impl Abort,
    alloc: Global,
    world: &World,
    text: &str,
    printed: &str,
) -> bool {
    let query = read_query(alloc, world, text).expect(rt, "it is no query");
    let printed = sum_of(printed);
    compare_rows(rt, alloc, world, &query, text, printed);
    let chunked = compare_chunks(rt, alloc, world, &query, printed);
    drop(query);
    chunked
}

/// Writes what a query prints.
fn print(
    alloc: Global,
    world: &World,
    text: &str,
    printed: &mut Vec<u8>,
) -> Result<(), QueryFault> {
    let query = read_query(alloc, world, text)?;
    write_rows(alloc, world, query, printed).or(Err(QueryFault::Memory))
}

/// A query has as many rows as are wanted, and these come in each way.
fn try_query(rt: &impl Abort, alloc: Global, world: &World, text: &str, wanted: usize) {
    let mut printed = Vec::new(alloc);
    let done = print(alloc, world, text, &mut printed);
    let lines = str::from_utf8(printed.as_slice()).unwrap_or("");
    expect(rt, lines.lines().count() == wanted.saturating_add(1), text);
    expect(rt, compare(rt, alloc, world, text, lines), text);
    drop(printed);
    assert!(rt; done == Ok(()));
}

fn try_all(rt: &impl Abort, alloc: Global, world: &mut World) -> Result<(), Fail> {
    fill(alloc, world, &WORLD)?;
    for (text, wanted) in &QUERIES {
        try_query(rt, alloc, world, text, *wanted);
    }
    leave_tables(world)?;
    for (text, wanted) in &QUERIES {
        try_query(rt, alloc, world, text, *wanted);
    }
    Ok(())
}

#[test]
fn chunks_have_the_rows_that_print(rt: HostRuntime) -> Result<(), Fail> {
    let mut world = new_world(&rt)?;
    let done = try_all(&rt, rt.alloc(), &mut world);
    drop(world);
    done
}
