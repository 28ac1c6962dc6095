//! Whether each entity is in a query, compared with the query's rows.

use crate::rows::KINDS_OF_A;
use crate::worked::{DIAMOND, fill};
use crate::worlds::{first_at, new_world};
use ecs_id::EntityId;
use ecs_model::faults::CommandError;
use ecs_world::World;
use refusing_alloc::Refusing;
use std::alloc::{AllocError, Allocator, Global};
use std::process::Abort;
use std::test::Fail;
use world_query::read_query;
use world_rows::{Asked, MatchError, Matcher, Rows, WorldView};

/// Takes the entity of the first variable of each row to come.
fn take_these(rows: &mut Rows<'_, Global>, these: &mut Vec<u32>) -> Result<(), AllocError> {
    for _ in 0..1000 {
        if !rows.next() {
            break;
        }
        if let [this, ..] = rows.entities() {
            these.push(*this)?;
        }
    }
    Ok(())
}

/// Whether an entity is in a query that is current.
fn ask<A: Allocator + Copy>(
    rt: &impl Abort,
    alloc: A,
    view: &WorldView<'_, Global>,
    matcher: &mut Matcher<A>,
    entity: EntityId,
) -> Result<bool, MatchError> {
    assert!(rt; matcher.is_current(view));
    matcher.matches(alloc, view, entity)
}

/// Those of all live entities that are in a query, each by its index.
fn found_these(
    rt: &impl Abort,
    alloc: Global,
    view: &WorldView<'_, Global>,
    matcher: &mut Matcher,
) -> Result<Vec<u32>, AllocError> {
    let mut all = Vec::new(alloc);
    for entity in view.world().live() {
        all.push(entity)?;
    }
    let mut found = Vec::new(alloc);
    assert!(rt; matcher.is_current(view));
    matcher.matching_among(alloc, view, all.as_slice(), &mut found)?;
    let mut indexes = Vec::new(alloc);
    for entity in found.as_slice() {
        indexes.push(entity.index)?;
    }
    Ok(indexes)
}

/// Each live entity is in a query where it is one of these, which ascend.
fn expect_these(
    rt: &impl Abort,
    alloc: Global,
    view: &WorldView<'_, Global>,
    matcher: &mut Matcher,
    these: &[u32],
) {
    for entity in view.world().live() {
        let is = these.contains(&entity.index);
        assert!(rt; ask(rt, alloc, view, matcher, entity) == Ok(is));
    }
    let found = found_these(rt, alloc, view, matcher).expect(rt, "out of memory");
    assert!(rt; found.as_slice() == these);
}

/// Each live entity is in a query exactly where it is `$this` of a row; and nobody is asked where there is no `$this`.
pub(crate) fn compare_matches(
    rt: &impl Abort,
    alloc: Global,
    view: &WorldView<'_, Global>,
    asked: Asked,
) {
    let made = asked.matcher(alloc, view);
    let has_this = asked.query().has_this();
    assert!(rt; asked.is_current(view) && asked.covers(view));
    let mut these = Vec::new(alloc);
    let mut rows = asked.rows(view);
    let taken = take_these(&mut rows, &mut these);
    drop(rows);
    assert!(rt; these.sort().is_ok());
    these.dedup();
    match made {
        Ok(mut matcher) => {
            expect_these(rt, alloc, view, &mut matcher, these.as_slice());
            drop(matcher);
        }
        Err(error) => assert!(rt; error == MatchError::NoThis && !has_this),
    }
    drop(these);
    assert!(rt; taken.is_ok());
}

/// The last entity of the diamond, and the first after it.
pub(crate) const LAST: u32 = 67;

/// How many entities come.
const MANY: u32 = 300;

/// The last entity of the diamond goes, and another comes to its index. Many more come.
pub(crate) fn replace_last(world: &mut World) -> Result<(), CommandError> {
    drop(world.delete(first_at(LAST))?);
    for _ in 0..MANY {
        drop(world.fresh()?);
    }
    Ok(())
}

/// What asks for a query of a text, which it reads itself.
fn new_matcher<A: Allocator + Copy>(
    alloc: A,
    world: &World,
    text: &str,
) -> Result<Matcher<A>, Fail> {
    let query = read_query(alloc, world, text)?;
    Ok(Matcher::of(alloc, &WorldView::new(world), query)?)
}

/// Before, the last entity is in a query. Later it is dead, and who came to its index isn't in it; in a world that has
/// grown others still are. Memory is taken for the first only, until the world has grown.
fn ask_before_and_later(rt: &impl Abort, alloc: Global, world: &mut World) -> Result<(), Fail> {
    let room = Refusing::new(alloc);
    let mut matcher = new_matcher(&room, world, KINDS_OF_A)?;
    let before = WorldView::new(world);
    assert!(rt; ask(rt, &room, &before, &mut matcher, first_at(LAST)) == Ok(true));
    room.refuse_after(0);
    assert!(rt; ask(rt, &room, &before, &mut matcher, first_at(LAST)) == Ok(true));
    assert!(rt; ask(rt, &room, &before, &mut matcher, first_at(64)) == Ok(true));
    drop(before);
    let replaced = replace_last(world);
    let later = WorldView::new(world);
    assert!(rt; ask(rt, &room, &later, &mut matcher, first_at(66)) == Err(MatchError::Memory));
    assert!(rt; ask(rt, &room, &later, &mut matcher, first_at(LAST)) == Err(MatchError::Dead));
    room.refuse_after(u64::MAX);
    assert!(rt; ask(rt, &room, &later, &mut matcher, first_at(66)) == Ok(true));
    let other = later.world().at(LAST).unwrap_or(first_at(LAST));
    assert!(rt; ask(rt, &room, &later, &mut matcher, other) == Ok(false));
    drop(later);
    drop(matcher);
    Ok(replaced?)
}

#[test]
fn entities_are_asked_before_and_later(rt: HostRuntime) -> Result<(), Fail> {
    let mut world = new_world(&rt)?;
    fill(rt.alloc(), &mut world, &DIAMOND)?;
    let done = ask_before_and_later(&rt, rt.alloc(), &mut world);
    drop(world);
    done
}
