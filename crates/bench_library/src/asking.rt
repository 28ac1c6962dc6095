//! The same entities, asked one by one whether they are in a query, and for their rows.

ghost use Rattle.query_meaning.specs.Standing.{IsCurrentIn};

use crate::commands::Fault;
use ecs_id::EntityId;
use ecs_world::World;
use std::alloc::Global;
use world_rows::{Asked, Binder, BoundRows, MatchError, Matcher, WorldView};

/// Adds up the entities of a world that are in a query.
fn sum_once(
    alloc: Global,
    view: &WorldView<'_, Global>,
    matcher: &mut Matcher,
) -> Result<u64, MatchError>
    requires current { IsCurrentIn view.now.world.state matcher.old }
{
    let mut sum = 0u64;
    for entity in view.world().live() {
        if matcher.matches(alloc, view, entity)? {
            sum = sum.wrapping_add(u64::from(entity.index));
        }
    }
    Ok(sum)
}

/// A sum over all entities that are in the query that a text asks, each asked so often.
pub(crate) fn sum_by_asking(
    alloc: Global,
    world: &World,
    text: &str,
    times: u32,
) -> Result<u64, Fault> {
    let view = WorldView::new(world);
    let asked = Asked::new(alloc, &view, text).or(Err(Fault::World))?;
    let made = asked.matcher(alloc, &view);
    drop(asked);
    let mut matcher = made.or(Err(Fault::World))?;
    let mut sum = 0u64;
    for _ in 0..times {
        if !matcher.is_current(&view) {
            break;
        }
        let more = sum_once(alloc, &view, &mut matcher).unwrap_or(0);
        sum = sum.wrapping_add(more);
    }
    drop(matcher);
    Ok(sum)
}

/// Adds up the first entities of the rows to come.
fn sum_of_bound(rows: &mut BoundRows<'_, Global>) -> u64 {
    let mut sum = 0u64;
    for _ in 0..u32::MAX {
        if !rows.next() {
            break;
        }
        if let [entity, ..] = rows.entities() {
            sum = sum.wrapping_add(u64::from(*entity));
        }
    }
    sum
}

/// Adds up the rows of one entity in a query, and gives this back.
fn sum_of_one(
    alloc: Global,
    view: &WorldView<'_, Global>,
    binder: Binder,
    entity: EntityId,
) -> (Binder, u64) {
    let mut binder = binder;
    let bound = binder.bind(alloc, view, entity);
    if bound.is_err() || !binder.is_current(view) {
        return (binder, 0);
    }
    let mut rows = binder.rows(view);
    let sum = sum_of_bound(&mut rows);
    (rows.into_binder(), sum)
}

/// A sum over the rows of each entity in the query that a text asks, so often.
pub(crate) fn sum_by_binding(
    alloc: Global,
    world: &World,
    text: &str,
    times: u32,
) -> Result<u64, Fault> {
    let view = WorldView::new(world);
    let asked = Asked::new(alloc, &view, text).or(Err(Fault::World))?;
    let made = asked.binder(alloc, &view);
    drop(asked);
    let mut binder = made.or(Err(Fault::World))?;
    let mut sum = 0u64;
    for _ in 0..times {
        for entity in view.world().live() {
            let (again, more) = sum_of_one(alloc, &view, binder, entity);
            binder = again;
            sum = sum.wrapping_add(more);
        }
    }
    drop(binder);
    Ok(sum)
}
