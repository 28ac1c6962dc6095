//! The entities of a table by row, of which one stands in the value.
ghost use Rattle.std.specs.Prelude.{◌≡◌, ◌+◌, ◌^◌, ◌<◌, ◌≤◌, ◌++◌, ◌∷◌, [], IfOk, OnOk, length, min, slice_index_or};
ghost use Rattle.std.specs.Prelude.{vec_len, vec_capacity};
ghost use Rattle.std.specs.List.{swap_remove};
ghost use Rattle.ecs_table.specs.EntityList.{capacity_of, entities_of};

use ecs_id::EntityId;
use std::alloc::{AllocError, Allocator};
use std::marker::Model;

// How many entities a block has places for at first.
const FEW: usize = 4;

// A list with a block doesn't go back to a form with none.
#[derive(Drop)]
pub(crate) enum Rows<A: Allocator> {
    Empty,
    One([EntityId; 1]),
    More(Vec<EntityId, A>),
}

/// Entities by row, and how many there are places for. One takes no memory beside the value.
#[derive(Drop)]
pub(crate) struct EntityList<A: Allocator> {
    rows: Rows<A>,
    alloc: A,
}

impl<A: Allocator> Model for EntityList<A> {
    ghost use Rattle.ecs_table.specs.EntityList.{Entities, capacity_of, entities_of};

    ghost Value = { Entities };

    ghost view = { λ l. record { items = entities_of l.rows; capacity = capacity_of l.rows } };
}

impl<A: Allocator> EntityList<A> {
    pub(crate) fn new(alloc: A) -> Self
        ensures items { result.items ≡ [] }
    {
        EntityList {
            rows: Rows::Empty,
            alloc,
        }
    }

    pub(crate) fn as_slice(&self) -> &[EntityId]
        ensures { result.now ≡ self.now.items }
    {
        self.rows.as_slice()
    }

    pub(crate) fn len(&self) -> usize
        ensures { result ≡ length self.now.items }
    {
        self.as_slice().len()
    }

    pub(crate) fn at(&self, row: usize) -> EntityId
        requires { row < length self.now.items }
        ensures { result ≡ slice_index_or self.now.items row result }
    {
        self.as_slice()[row]
    }

    /// Makes room for so many more.
    pub(crate) fn reserve(&mut self, additional: usize) -> Result<(), AllocError>
    where
        A: Copy,
        ensures items { self.new.items ≡ self.old.items }
        ensures room { OnOk result (length self.new.items + additional ≤ self.new.capacity) }
        ensures capacity { self.old.capacity ≤ self.new.capacity }
    {
        self.rows.reserve(self.alloc, additional)
    }

    /// Gives back memory past so many places.
    pub(crate) fn shrink_to(&mut self, places: usize)
        ensures items { self.new.items ≡ self.old.items }
        ensures capacity { min places self.old.capacity ≤ self.new.capacity }
    {
        if let Rows::More(entities) = &mut self.rows {
            entities.shrink_to(places);
        }
    }

    /// Puts an entity last, for which there is a place.
    pub(crate) fn push(&mut self, entity: EntityId)
        requires { length self.old.items < self.old.capacity }
        ensures items { self.new.items ≡ self.old.items ++ entity ∷ [] }
        ensures capacity { self.new.capacity ≡ self.old.capacity }
    {
        self.rows.push(entity);
    }

    /// Takes an entity out. The last one takes its place.
    pub(crate) fn swap_remove(&mut self, row: usize) -> EntityId
        requires { row < length self.old.items }
        ensures items { self.new.items ≡ swap_remove self.old.items row result }
        ensures capacity { self.new.capacity ≡ self.old.capacity }
        ensures small { self.new.capacity < 2 ^ 63 }
    {
        self.rows.swap_remove(row)
    }
}

impl<A: Allocator> Rows<A> {
    fn as_slice(&self) -> &[EntityId]
        ensures { result.now ≡ entities_of self.now }
    {
        match self {
            Rows::Empty => &[],
            Rows::One(only) => only.as_slice(),
            Rows::More(entities) => entities.as_slice(),
        }
    }

    fn reserve(&mut self, alloc: A, additional: usize) -> Result<(), AllocError>
    where
        A: Copy,
        ensures items { entities_of self.new ≡ entities_of self.old }
        ensures room { OnOk result (length (entities_of self.new) + additional ≤ capacity_of self.new) }
        ensures capacity { capacity_of self.old ≤ capacity_of self.new }
    {
        match self {
            Rows::Empty => {
                if 1 < additional {
                    *self = Rows::More(none_of_many(alloc, additional)?);
                }
            }
            Rows::One(only) => {
                let first = only_of(only);
                if 0 < additional {
                    *self = Rows::More(first_of_many(alloc, first, additional)?);
                }
            }
            Rows::More(entities) => list_growth::reserve(entities, additional)?,
        }
        Ok(())
    }

    fn push(&mut self, entity: EntityId)
        requires { length (entities_of self.old) < capacity_of self.old }
        ensures items { entities_of self.new ≡ entities_of self.old ++ entity ∷ [] }
        ensures capacity { capacity_of self.new ≡ capacity_of self.old }
    {
        match self {
            Rows::Empty => *self = Rows::One([entity]),
            Rows::One(only) => {
                let _full = only_of(only);
                unreachable!()
            }
            Rows::More(entities) => entities.push_reserved(entity),
        }
    }

    fn swap_remove(&mut self, row: usize) -> EntityId
        requires { row < length (entities_of self.old) }
        ensures items { entities_of self.new ≡ swap_remove (entities_of self.old) row result }
        ensures capacity { capacity_of self.new ≡ capacity_of self.old }
        ensures small { capacity_of self.new < 2 ^ 63 }
    {
        match self {
            Rows::Empty => unreachable!(),
            Rows::One(only) => {
                let gone = only_of(only);
                *self = Rows::Empty;
                gone
            }
            Rows::More(entities) => entities.swap_remove(row),
        }
    }
}

fn only_of(only: &[EntityId; 1]) -> EntityId
    ensures { only.now ≡ result ∷ [] }
{
    only[0]
}

// A block with places for so many.
#[cold]
#[inline(never)]
fn none_of_many<A: Allocator>(alloc: A, additional: usize) -> Result<Vec<EntityId, A>, AllocError>
    ensures items { IfOk result (λ v. v.items ≡ []) }
    ensures room { IfOk result (λ v. vec_len v + additional ≤ vec_capacity v) }
{
    let mut entities = Vec::new(alloc);
    entities.reserve(additional)?;
    Ok(entities)
}

// A block with one entity, and places for so many more.
#[inline(never)]
fn first_of_many<A: Allocator>(
    alloc: A,
    first: EntityId,
    additional: usize,
) -> Result<Vec<EntityId, A>, AllocError>
    ensures items { IfOk result (λ v. v.items ≡ first ∷ []) }
    ensures room { IfOk result (λ v. vec_len v + additional ≤ vec_capacity v) }
{
    let mut entities = Vec::with_capacity(alloc, FEW)?;
    entities.push_reserved(first);
    entities.reserve(additional)?;
    Ok(entities)
}
