//! Queries that are read once, and asked by their numbers.
//!
//! The first number is 1, and each query gets the next. The number of one that was dropped is of none for ever.
ghost use Rattle.std.specs.Prelude.{◌≡◌, ◌⊎◌, ◌+◌, ◌<◌, IfSome, None, length, option_copied};
ghost use Rattle.flecsq_c.specs.Asking.{AsksQuery, DropsQuery, Matches, MatchesIn, PutsQuery, ReadsQuery, query_at};
ghost use Rattle.flecsq_c.specs.Calls.{ByQueries, held_by};

use crate::handle::Flecsq;
use crate::holding::{put, taken};
use crate::numbered::Numbered;
use crate::status::{CLOSED, OK, STALE, UNKNOWN, ask_status, match_status};
use ecs_id::EntityId;
use ecs_world::World;
use query_model::faults::QueryFault;
use std::alloc::Global;
use world_query::read_query;
use world_rows::{MatchError, Matcher, WorldView};

/// Why the query of a text gets no number.
#[derive(Clone, Copy, Debug, PartialEq, Eq)]
pub(crate) enum AskError {
    /// The text is no UTF-8.
    NotText,
    /// The text asks no query.
    Faulty,
    /// The query has no `$this`.
    NoThis,
    Memory,
}

/// Reads the query of a text, and gives it the next number.
#[unsafe(no_mangle)]
pub extern "C" fn flecsq_query(
    alloc: Global,
    handle: &mut Flecsq,
    text: &[u8],
    query: &mut u64,
) -> i32
    ensures { ByQueries (AsksQuery text.now query.old query.new) (held_by handle.old) (held_by handle.new) result }
{
    let Some(mut engine) = taken(alloc, handle) else {
        return CLOSED;
    };
    let parts = &mut *engine;
    let status = ask(
        alloc,
        parts.stepper.world(),
        &mut parts.queries,
        text,
        query,
    );
    put(handle, engine);
    status
}

/// Drops the query of a number. The number is of none from now on.
#[unsafe(no_mangle)]
pub extern "C" fn flecsq_drop(alloc: Global, handle: &mut Flecsq, query: u64) -> i32
    ensures { ByQueries (λ _. DropsQuery query) (held_by handle.old) (held_by handle.new) result }
{
    let Some(mut engine) = taken(alloc, handle) else {
        return CLOSED;
    };
    let status = drop_query(&mut engine.queries, query);
    put(handle, engine);
    status
}

/// Tells whether an entity is `$this` of a row of a query.
#[unsafe(no_mangle)]
pub extern "C" fn flecsq_matches(
    alloc: Global,
    handle: &mut Flecsq,
    query: u64,
    entity: u64,
    is: &mut bool,
) -> i32
    ensures { ByQueries (Matches query entity is.old is.new) (held_by handle.old) (held_by handle.new) result }
{
    let Some(mut engine) = taken(alloc, handle) else {
        return CLOSED;
    };
    let parts = &mut *engine;
    let status = match_number(
        alloc,
        parts.stepper.world(),
        &mut parts.queries,
        query,
        entity,
        is,
    );
    put(handle, engine);
    status
}

fn ask(
    alloc: Global,
    world: &World<Global>,
    queries: &mut Vec<Option<Numbered>, Global>,
    text: &[u8],
    number: &mut u64,
) -> i32
    ensures { AsksQuery text.now number.old number.new world.now.state queries.old.items
        queries.new.items result }
{
    let answer = put_query(alloc, world, queries, text);
    if let Ok(count) = answer {
        *number = count as u64;
    }
    ask_status(answer)
}

/// Puts the query of a text behind the others, and answers how many they are then.
fn put_query(
    alloc: Global,
    world: &World<Global>,
    queries: &mut Vec<Option<Numbered>, Global>,
    text: &[u8],
) -> Result<usize, AskError>
    ensures { PutsQuery world.now.state text.now queries.old.items queries.new.items result }
{
    let numbered = read(alloc, world, text)?;
    match queries.push(Some(numbered)) {
        Ok(()) => Ok(queries.len()),
        Err(_) => Err(AskError::Memory),
    }
}

/// The query of a text in a world.
fn read(alloc: Global, world: &World<Global>, text: &[u8]) -> Result<Numbered, AskError>
    ensures { ReadsQuery world.now.state text.now result }
{
    let Ok(text) = str::from_utf8(text) else {
        return Err(AskError::NotText);
    };
    let query = match read_query(alloc, world, text) {
        Ok(query) => query,
        Err(QueryFault::Fault(_)) => return Err(AskError::Faulty),
        Err(QueryFault::Memory) => return Err(AskError::Memory),
    };
    match Matcher::of(alloc, &WorldView::new(world), query) {
        Ok(matcher) => match Numbered::new(alloc, matcher) {
            Ok(numbered) => Ok(numbered),
            Err(_) => Err(AskError::Memory),
        },
        Err(MatchError::NoThis) => Err(AskError::NoThis),
        Err(_) => Err(AskError::Memory),
    }
}

fn drop_query(queries: &mut Vec<Option<Numbered>, Global>, number: u64) -> i32
    ensures { DropsQuery number queries.old.items queries.new.items result }
{
    let Some(place) = place_of(number, queries.len()) else {
        return UNKNOWN;
    };
    if queries[place].is_none() {
        return UNKNOWN;
    }
    queries[place] = None;
    OK
}

fn match_number(
    alloc: Global,
    world: &World<Global>,
    queries: &mut Vec<Option<Numbered>, Global>,
    number: u64,
    entity: u64,
    is: &mut bool,
) -> i32
    ensures { Matches number entity is.old is.new world.now.state queries.old.items
        queries.new.items result }
{
    let Some(entity) = EntityId::unpack(entity) else {
        return UNKNOWN;
    };
    let Some(place) = place_of(number, queries.len()) else {
        return UNKNOWN;
    };
    match_in(alloc, world, &mut queries[place], entity, is)
}

/// Tells whether an entity is in the query of a place, if one stands there.
fn match_in(
    alloc: Global,
    world: &World<Global>,
    place: &mut Option<Numbered>,
    entity: EntityId,
    is: &mut bool,
) -> i32
    ensures told { MatchesIn world.now.state entity is.old is.new place.old result }
    ensures kept { place.new ≡ place.old }
{
    let Some(numbered) = place else {
        return UNKNOWN;
    };
    if !numbered.is_current(world) {
        return STALE;
    }
    let answer = numbered.matches(alloc, world, entity);
    if let Ok(found) = answer {
        *is = found;
    }
    match_status(answer)
}

/// The query of a number.
pub(crate) fn asked(queries: &[Option<Numbered>], number: u64) -> Option<&Numbered>
    ensures { option_copied result ≡ query_at queries.now number }
{
    let place = place_of(number, queries.len())?;
    match &queries[place] {
        Some(numbered) => Some(numbered),
        None => None,
    }
}

/// Where the query of a number stands among so many.
fn place_of(number: u64, count: usize) -> Option<usize>
    ensures some { IfSome result (λ place. (place + 1 ≡ number) × (place < count)) }
    ensures none { result ≡ None → (number ≡ 0) ⊎ (count < number) }
{
    if number == 0 || number > count as u64 {
        return None;
    }
    Some((number - 1) as usize)
}
