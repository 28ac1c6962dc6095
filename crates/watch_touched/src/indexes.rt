//! The indexes of the entities that a command touched.

ghost use Rattle.std.specs.Prelude.{◌≡◌, ◌↔◌, ◌++◌, ℕ, Contains, IfOk, OnOk, map};
ghost use Rattle.std.specs.List.Sorted.{IsStrictlyIncreasing};
ghost use Rattle.watch_touched.specs.Indexes.{indexes_of};

use ecs_model::FactKey;
use ecs_world::Changes;
use short_list::ShortList;
use std::alloc::{AllocError, Allocator};

/// The indexes of all entities that a command touched, in ascending order.
pub(crate) fn touched_indexes<A: Allocator + Copy>(
    alloc: A,
    changes: &Changes<A>,
) -> Result<ShortList<A>, AllocError>
    ensures ascend { IfOk result (λ indexes. IsStrictlyIncreasing indexes.items) }
    ensures all { IfOk result (λ indexes. (i : ℕ) → Contains indexes.items i ↔ Contains (indexes_of changes.now) i) }
{
    let mut indexes = gathered(alloc, changes)?;
    put_in_order(&mut indexes);
    Ok(indexes)
}

/// The indexes of the created entity, of each deleted entity, and of the entity of each added or removed fact.
fn gathered<A: Allocator + Copy>(alloc: A, changes: &Changes<A>) -> Result<ShortList<A>, AllocError>
    ensures { IfOk result (λ indexes. indexes.items ≡ indexes_of changes.now) }
{
    let mut indexes = ShortList::new();
    if let Some(entity) = changes.born() {
        indexes.push(alloc, entity.index)?;
    }
    for death in changes.died() {
        indexes.push(alloc, death.entity().index)?;
    }
    push_entities(alloc, changes.came(), &mut indexes)?;
    push_entities(alloc, changes.went(), &mut indexes)?;
    Ok(indexes)
}

/// Appends the index of the entity of each fact.
fn push_entities<A: Allocator + Copy>(
    alloc: A,
    facts: &[FactKey],
    indexes: &mut ShortList<A>,
) -> Result<(), AllocError>
    ensures { OnOk result (indexes.new.items ≡ indexes.old.items ++ map (λ k. k.0) facts.now) }
{
    for fact in facts {
        indexes.push(alloc, fact.entity())?;
    }
    Ok(())
}

/// Sorts indexes and drops duplicates.
// (few commands touch more than one entity)
#[inline(always)]
pub(crate) fn put_in_order<A: Allocator>(indexes: &mut ShortList<A>)
    ensures ascend { IsStrictlyIncreasing indexes.new.items }
    ensures same { (i : ℕ) → Contains indexes.new.items i ↔ Contains indexes.old.items i }
{
    if indexes.len() > 1 {
        indexes.put_in_order();
    }
}
