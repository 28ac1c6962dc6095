//! The entities that a command touched.

ghost use Rattle.std.specs.Prelude.{◌≡◌, Contains, IfOk, map};
ghost use Rattle.std.specs.List.Sorted.{IsStrictlyIncreasing};
ghost use Rattle.std.specs.Option.{option_copied};
ghost use Rattle.ecs_model.specs.World.{ids_of};
ghost use Rattle.ecs_model.specs.rows.View.{view_of};
ghost use Rattle.query_local.specs.Touched.{AreTouched, held_in, touch_of};
ghost use Rattle.watch_touched.specs.Before.{is_born, view_before};
ghost use Rattle.watch_touched.specs.Indexes.{indexes_of, touch_at};
ghost use Rattle.watch_concerns.specs.Since.{IsAfter};

use crate::facts::{facts_of, ids_not_come, push_ids};
use crate::indexes::touched_indexes;
use ecs_id::Id;
use ecs_world::{Changes, World};
use query_local::Touched;
use std::alloc::{AllocError, Allocator};

/// The entities that a command touched, by ascending index: created, deleted, or with an added or removed fact. Each
/// comes with its ids before and after.
///
/// Takes time in the number of changes and of the ids of these entities, besides sorting and searching. Fails where
/// memory is refused.
pub fn touched<'w, A: Allocator + Copy>(
    alloc: A,
    world: &'w World<A>,
    changes: &Changes<A>,
) -> Result<Vec<Touched<'w, A>, A>, AllocError>
    requires { IsAfter world.now.state changes.now }
    ensures ascends { IfOk result (λ touched. IsStrictlyIncreasing (map (λ t. t.index) touched.items)) }
    ensures touched { IfOk result (λ touched. AreTouched (map touch_of touched.items)
        (view_before world.now.state changes.now) (view_of world.now.state)) }
{
    world.keeps();
    let indexes = touched_indexes(alloc, changes)?;
    let items = indexes.as_slice();
    let mut touched = Vec::with_capacity(alloc, indexes.len())?;
    for index in items {
        touched.push(touch(alloc, world, changes, *index)?)?;
    }
    Ok(touched)
}

/// One of these entities, with its ids before and after the command.
fn touch<'w, A: Allocator + Copy>(
    alloc: A,
    world: &'w World<A>,
    changes: &Changes<A>,
    index: u32,
) -> Result<Touched<'w, A>, AllocError>
    requires after { IsAfter world.now.state changes.now }
    requires touched { Contains (indexes_of changes.now) index }
    ensures { IfOk result (λ t. touch_of t ≡ touch_at (view_before world.now.state changes.now)
        (view_of world.now.state) index) }
{
    world.keeps();
    let after = ids_now(world, index);
    let before = if was_born(changes, index) {
        None
    } else {
        let now = after.unwrap_or(&[]);
        Some(ids_before(alloc, world, changes, index, now)?)
    };
    Ok(Touched {
        index,
        before,
        after,
    })
}

/// Whether the entity at an index was created by the command.
fn was_born<A: Allocator>(changes: &Changes<A>, index: u32) -> bool
    ensures { result ≡ is_born changes.now index }
{
    match changes.born() {
        Some(entity) => entity.index == index,
        None => false,
    }
}

/// The sorted ids of the entity at an index, if one lives there.
pub(crate) fn ids_now<A: Allocator>(world: &World<A>, index: u32) -> Option<&[Id]>
    ensures { option_copied result ≡ held_in (view_of world.now.state) index }
{
    let entity = world.at(index)?;
    world.ids_of(entity)
}

/// The sorted ids of the entity at an index; empty where no entity lives there.
pub(crate) fn ids_at<A: Allocator>(world: &World<A>, index: u32) -> &[Id]
    ensures { result.now ≡ ids_of world.now.state index }
{
    world.keeps();
    ids_now(world, index).unwrap_or(&[])
}

/// The sorted ids that an entity held before: those that it holds now without the added ones, and the removed ones.
fn ids_before<A: Allocator>(
    alloc: A,
    world: &World<A>,
    changes: &Changes<A>,
    entity: u32,
    now: &[Id],
) -> Result<Vec<Id, A>, AllocError>
    requires after { IsAfter world.now.state changes.now }
    requires now { now.now ≡ ids_of world.now.state entity }
    ensures { IfOk result (λ ids. ids.items ≡ (view_before world.now.state changes.now).ids entity) }
{
    world.keeps();
    let mut ids = ids_not_come(alloc, changes.came(), entity, now)?;
    push_ids(facts_of(changes.went(), entity), &mut ids)?;
    ids.sort_unstable();
    ids.dedup();
    Ok(ids)
}
