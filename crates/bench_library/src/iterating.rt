//! Entities in twenty tables, gone through by chunks and by rows, with a value written or without, and as many in plain
//! slices.

use crate::asking::{sum_by_asking, sum_by_binding};
use crate::by_rows::{sum_by_rows, sum_of_first};
use crate::commands::{Fault, add, fresh, set};
use crate::is_asked;
use crate::values::{component, tag};
use crate::writing::{TableBytes, move_all};
use ecs_id::{EntityId, Id};
use ecs_schema::Kind;
use ecs_world::World;
use query_check::Query;
use query_chunks::{Chunk, Chunks, Column, has_chunks};
use std::alloc::{AllocError, Global};
use std::hash::RandomState;
use std::io;
use world_query::read_query;

/// How many entities there are where no argument says it.
const COUNT: u32 = 10_000;

/// The bytes of a value: two numbers of four bytes.
pub(crate) const PLANE: usize = 8;

/// What is asked for.
const TEXT: &str = "Position, Velocity";

/// The same, found by a run of a plan.
const SEARCHED: &str = "Position, Velocity, !A(up)";

/// The workloads.
static NAMES: [&str; 13] = [
    "ids",
    "values",
    "row_ids",
    "row_values",
    "starts",
    "row_starts",
    "search_starts",
    "asked",
    "bound",
    "written",
    "plain_ids",
    "plain_values",
    "plain_written",
];

/// Makes entities with two values, in the twenty tables of so many sets of five tags. It answers the id of the first
/// value.
fn fill(alloc: Global, world: &mut World, count: u32) -> Result<Id, Fault> {
    let plane = [("x", Kind::I32), ("y", Kind::I32)];
    let position = component(alloc, world, "Position", &plane)?;
    let velocity = component(alloc, world, "Velocity", &plane)?;
    let tags = [
        tag(world, "A")?,
        tag(world, "B")?,
        tag(world, "C")?,
        tag(world, "D")?,
        tag(world, "E")?,
    ];
    for number in 0..count {
        let entity = fresh(world)?;
        add_tags(world, entity, &tags, number % 20)?;
        add(world, entity, position)?;
        add(world, entity, velocity)?;
        let x = i128::from(number % 1000);
        set(world, entity, position, &[x, -x])?;
        set(world, entity, velocity, &[1, x])?;
    }
    Ok(position)
}

/// Adds the tags of the bits of a number.
fn add_tags(world: &mut World, entity: EntityId, tags: &[Id], number: u32) -> Result<(), Fault> {
    let mut left = number;
    for tag in tags {
        if left % 2 == 1 {
            add(world, entity, *tag)?;
        }
        left /= 2;
    }
    Ok(())
}

fn sum_of_entities(entities: &[EntityId]) -> u64 {
    let mut sum = 0u64;
    for entity in entities {
        sum = sum.wrapping_add(u64::from(entity.index));
    }
    sum
}

/// The numbers of a value.
#[inline(always)]
pub(crate) fn plane_of(bytes: &[u8]) -> (i32, i32) {
    match bytes {
        [a, b, c, d, e, f, g, h] => (
            i32::from_le_bytes([*a, *b, *c, *d]),
            i32::from_le_bytes([*e, *f, *g, *h]),
        ),
        _ => (0, 0),
    }
}

/// The sum of the products of two values' numbers.
#[inline(always)]
pub(crate) fn product_of(position: &[u8], velocity: &[u8]) -> i64 {
    let (x, y) = plane_of(position);
    let (dx, dy) = plane_of(velocity);
    i64::from(x.wrapping_mul(dx)).wrapping_add(i64::from(y.wrapping_mul(dy)))
}

fn sum_of_values(positions: &[u8], velocities: &[u8]) -> u64 {
    let mut sum = 0i64;
    for (position, velocity) in positions
        .chunks_exact(PLANE)
        .zip(velocities.chunks_exact(PLANE))
    {
        sum = sum.wrapping_add(product_of(position, velocity));
    }
    sum.cast_unsigned()
}

/// The bytes of a column, if it has values.
pub(crate) fn bytes_of<'r>(chunk: &Chunk<'r>, number: usize) -> Option<&'r [u8]> {
    match chunk.column(number) {
        Some(Column::Values(_, _, bytes)) => Some(bytes),
        _ => None,
    }
}

fn values_of(chunk: &Chunk<'_>) -> u64 {
    match (bytes_of(chunk, 0), bytes_of(chunk, 1)) {
        (Some(positions), Some(velocities)) => sum_of_values(positions, velocities),
        _ => 0,
    }
}

/// A sum over all entities of a query, by chunks.
fn sum_by_chunks(world: &World, query: &Query, values: bool) -> u64 {
    if !has_chunks(query) {
        return 0;
    }
    let mut chunks = Chunks::start(world, query);
    let mut sum = 0u64;
    for _ in 0..u32::MAX {
        let Some(chunk) = chunks.next_chunk() else {
            break;
        };
        let more = if values {
            values_of(&chunk)
        } else {
            sum_of_entities(chunk.entities())
        };
        drop(chunk);
        sum = sum.wrapping_add(more);
    }
    drop(chunks);
    sum
}

/// How many entities the first chunk of a query has.
fn first_by_chunks(world: &World, query: &Query) -> u64 {
    if !has_chunks(query) {
        return 0;
    }
    let mut chunks = Chunks::start(world, query);
    let first = match chunks.next_chunk() {
        Some(chunk) => chunk.entities().len() as u64,
        None => 0,
    };
    drop(chunks);
    first
}

/// As many entities and values in three slices.
#[derive(Drop)]
struct Plain {
    entities: Vec<EntityId>,
    positions: Vec<u8>,
    velocities: Vec<u8>,
}

fn add_plain(all: &mut Plain, count: u32) -> Result<(), AllocError> {
    for index in 0..count {
        all.entities.push(EntityId {
            index,
            generation: 0,
        })?;
        all.positions.extend_from_slice(&[1, 2, 3, 4, 5, 6, 7, 8])?;
        all.velocities.extend_from_slice(&[1, 0, 0, 0, 1, 0, 0, 0])?;
    }
    Ok(())
}

fn plain_entities(alloc: Global, count: u32) -> Result<Plain, AllocError> {
    let mut all = Plain {
        entities: Vec::new(alloc),
        positions: Vec::new(alloc),
        velocities: Vec::new(alloc),
    };
    match add_plain(&mut all, count) {
        Ok(()) => Ok(all),
        Err(error) => {
            drop(all);
            Err(error)
        }
    }
}

/// Goes over so many plain entities so often.
fn sum_plain(alloc: Global, values: bool, count: u32, times: u32) -> Result<u64, Fault> {
    let all = plain_entities(alloc, count)?;
    let mut sum = 0u64;
    for _ in 0..times {
        let more = if values {
            sum_of_values(all.positions.as_slice(), all.velocities.as_slice())
        } else {
            sum_of_entities(all.entities.as_slice())
        };
        sum = sum.wrapping_add(more);
    }
    drop(all);
    Ok(sum)
}

/// Moves so many plain values so often by others, and goes over them once.
fn sum_plain_written(alloc: Global, count: u32, times: u32) -> Result<u64, Fault> {
    let mut all = plain_entities(alloc, count)?;
    for _ in 0..times {
        move_all(all.positions.as_mut_slice(), all.velocities.as_slice());
    }
    let sum = sum_of_values(all.positions.as_slice(), all.velocities.as_slice());
    drop(all);
    Ok(sum)
}

/// Goes over the entities of a world so often by chunks.
fn sum_of_chunks(alloc: Global, world: &World, values: bool, times: u32) -> Result<u64, Fault> {
    let query = read_query(alloc, world, TEXT).or(Err(Fault::World))?;
    let mut sum = 0u64;
    for _ in 0..times {
        sum = sum.wrapping_add(sum_by_chunks(world, &query, values));
    }
    drop(query);
    Ok(sum)
}

/// Begins so often to go over the chunks of a world.
fn sum_of_starts(alloc: Global, world: &World, times: u32) -> Result<u64, Fault> {
    let query = read_query(alloc, world, TEXT).or(Err(Fault::World))?;
    let mut sum = 0u64;
    for _ in 0..times {
        sum = sum.wrapping_add(first_by_chunks(world, &query));
    }
    drop(query);
    Ok(sum)
}

/// The same by rows.
fn sum_of_row_starts(alloc: Global, world: &World, text: &str, times: u32) -> Result<u64, Fault> {
    sum_of_first(alloc, world, text, times).or(Err(Fault::World))
}

/// The entities by rows.
fn sum_of_rows(alloc: Global, world: &World, values: bool, times: u32) -> Result<u64, Fault> {
    sum_by_rows(alloc, world, TEXT, values, times).or(Err(Fault::World))
}

/// Moves the entities of a query so often by their velocities.
fn move_often(
    turn: &mut TableBytes,
    world: &mut World,
    query: &Query,
    position: Id,
    times: u32,
) -> Result<(), Fault> {
    for _ in 0..times {
        turn.take(world, query, position)?;
    }
    Ok(())
}

/// Moves the entities of a world so often by their velocities, and goes over them once.
fn sum_of_written(
    alloc: Global,
    world: &mut World,
    position: Id,
    times: u32,
) -> Result<u64, Fault> {
    let query = read_query(alloc, world, TEXT).or(Err(Fault::World))?;
    let mut turn = TableBytes::new(alloc);
    let moved = move_often(&mut turn, world, &query, position, times);
    drop(turn);
    let sum = sum_by_chunks(world, &query, true);
    drop(query);
    moved.and(Ok(sum))
}

/// Makes so many entities, and goes over them so often.
fn sum_of_world(
    alloc: Global,
    world: &mut World,
    name: &str,
    count: u32,
    times: u32,
) -> Result<u64, Fault> {
    let position = fill(alloc, world, count)?;
    match name {
        "written" => sum_of_written(alloc, world, position, times),
        "starts" => sum_of_starts(alloc, world, times),
        "row_starts" => sum_of_row_starts(alloc, world, TEXT, times),
        "search_starts" => sum_of_row_starts(alloc, world, SEARCHED, times),
        "asked" => sum_by_asking(alloc, world, TEXT, times),
        "bound" => sum_by_binding(alloc, world, TEXT, times),
        "row_ids" => sum_of_rows(alloc, world, false, times),
        "row_values" => sum_of_rows(alloc, world, true, times),
        _ => sum_of_chunks(alloc, world, name == "values", times),
    }
}

fn sum(
    alloc: Global,
    random: RandomState,
    name: &str,
    count: u32,
    times: u32,
) -> Result<u64, Fault> {
    match name {
        "plain_ids" => sum_plain(alloc, false, count, times),
        "plain_values" => sum_plain(alloc, true, count, times),
        "plain_written" => sum_plain_written(alloc, count, times),
        _ => {
            let mut world = World::new(alloc, random).or(Err(Fault::World))?;
            let sum = sum_of_world(alloc, &mut world, name, count, times);
            drop(world);
            sum
        }
    }
}

/// Goes over the entities of one workload, or of all, so often, and prints the sum of each.
pub(crate) fn tell(
    rt: &HostRuntime,
    chosen: &Option<String>,
    times: u32,
    size: Option<u32>,
) -> io::Result<()> {
    let count = size.unwrap_or(COUNT);
    for name in &NAMES {
        if is_asked(chosen, name) {
            match sum(rt.alloc(), RandomState::new(rt)?, name, count, times) {
                Ok(sum) => println!(rt; "{name}: {sum}")?,
                Err(fault) => println!(rt; "{fault:?}")?,
            }
        }
    }
    Ok(())
}
