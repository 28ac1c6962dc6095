//! The rows of each entity, compared with the rows of all.

use crate::matches::{LAST, replace_last};
use crate::numbers::{Sum, with};
use crate::rows::{KINDS_OF_A, with_bindings, with_field};
use crate::worked::{DIAMOND, fill};
use crate::worlds::{first_at, new_world};
use ecs_id::EntityId;
use ecs_world::World;
use query_check::Query;
use refusing_alloc::Refusing;
use std::alloc::{Allocator, Global};
use std::process::Abort;
use std::test::Fail;
use world_query::read_query;
use world_rows::{Asked, Binder, BoundRows, MatchError, WorldView};

/// The number of the row that was given last.
fn row_number<A: Allocator>(world: &World, query: &Query, rows: &BoundRows<'_, Global, A>) -> u64 {
    let mut number = with_bindings(with(0, b"row"), world, query, rows.entities());
    for place in 0..rows.field_count() {
        number = with_field(number, world, rows.field(place));
    }
    number
}

/// Takes the rows of an entity, which is the first of each.
fn sum_bound<A: Allocator>(
    rt: &impl Abort,
    world: &World,
    query: &Query,
    entity: u32,
    rows: &mut BoundRows<'_, Global, A>,
) -> Sum {
    let mut number = 0u64;
    for came in 0..1000 {
        if !rows.next() {
            return (came, number);
        }
        let [this, ..] = rows.entities() else {
            return (came, number);
        };
        assert!(rt; *this == entity);
        number = number.wrapping_add(row_number(world, query, rows));
    }
    (1000, number)
}

/// The rows of an entity to which a query is bound, and the query.
fn ask_bound<A: Allocator + Copy>(
    rt: &impl Abort,
    alloc: A,
    view: &WorldView<'_, Global>,
    query: &Query,
    binder: Binder<A>,
    entity: EntityId,
) -> (Binder<A>, Sum) {
    let mut binder = binder;
    let bound = binder.bind(alloc, view, entity);
    bound.expect(rt, "it is not bound");
    assert!(rt; binder.is_current(view));
    let mut rows = binder.rows(view);
    let sum = sum_bound(rt, view.world(), query, entity.index, &mut rows);
    (rows.into_binder(), sum)
}

/// The rows of all live entities together are those that are printed; and nobody is asked where there is no `$this`.
pub(crate) fn compare_bound(
    rt: &impl Abort,
    alloc: Global,
    view: &WorldView<'_, Global>,
    query: &Query,
    asked: &Asked,
    printed: Sum,
) {
    let mut binder = match asked.binder(alloc, view) {
        Ok(binder) => binder,
        Err(error) => {
            assert!(rt; error == MatchError::NoThis && !query.has_this());
            return;
        }
    };
    let mut count = 0usize;
    let mut number = 0u64;
    for entity in view.world().live() {
        let (other, sum) = ask_bound(rt, alloc, view, query, binder, entity);
        binder = other;
        count = sum.0.saturating_add(count);
        number = number.wrapping_add(sum.1);
    }
    drop(binder);
    assert!(rt; (count, number) == printed);
}

/// What is bound for a query of a text, which it reads itself.
fn new_binder<A: Allocator + Copy>(alloc: A, world: &World, text: &str) -> Result<Binder<A>, Fail> {
    let query = read_query(alloc, world, text)?;
    Ok(Binder::of(alloc, &WorldView::new(world), query)?)
}

/// How many rows an entity has in the query of a binder.
fn count_bound<A: Allocator + Copy>(
    rt: &impl Abort,
    alloc: A,
    view: &WorldView<'_, Global>,
    query: &Query,
    binder: Binder<A>,
    entity: EntityId,
    expected: usize,
) -> Binder<A> {
    let (binder, sum) = ask_bound(rt, alloc, view, query, binder, entity);
    assert!(rt; sum.0 == expected);
    binder
}

/// An entity has a row before. Later it is dead, and who came to its index has none; in a world that has grown others
/// still have theirs. Where memory is refused, another is bound as soon as there is some.
fn bind_before_and_later(rt: &impl Abort, alloc: Global, world: &mut World) -> Result<(), Fail> {
    let query = read_query(alloc, world, KINDS_OF_A)?;
    let room = Refusing::new(alloc);
    let binder = new_binder(&room, world, KINDS_OF_A)?;
    let before = WorldView::new(world);
    let mut binder = count_bound(rt, &room, &before, &query, binder, first_at(LAST), 1);
    room.refuse_after(0);
    assert!(rt; binder.bind(&room, &before, first_at(64)) == Err(MatchError::Memory));
    room.refuse_after(u64::MAX);
    let binder = count_bound(rt, &room, &before, &query, binder, first_at(64), 1);
    drop(before);
    let replaced = replace_last(world);
    let later = WorldView::new(world);
    let mut binder = count_bound(rt, &room, &later, &query, binder, first_at(66), 1);
    assert!(rt; binder.bind(&room, &later, first_at(LAST)) == Err(MatchError::Dead));
    let other = later.world().at(LAST).unwrap_or(first_at(LAST));
    let binder = count_bound(rt, &room, &later, &query, binder, other, 0);
    drop(later);
    drop(binder);
    drop(query);
    Ok(replaced?)
}

#[test]
fn entities_are_bound_before_and_later(rt: HostRuntime) -> Result<(), Fail> {
    let mut world = new_world(&rt)?;
    fill(rt.alloc(), &mut world, &DIAMOND)?;
    let done = bind_before_and_later(&rt, rt.alloc(), &mut world);
    drop(world);
    done
}
