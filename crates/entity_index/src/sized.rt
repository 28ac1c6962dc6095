//! The index of entities, with how far the live indexes reach.
ghost use Rattle.std.specs.Prelude.{◌≡◌, ◌↔◌, ◌≤◌, ◌<◌, ℕ, None, Some, IfOk, OnErr, IsErrOf, IsTrue, MatchOption};
ghost use Rattle.std.specs.Bool.{OnTrue, OnFalse};
ghost use Rattle.ecs_id.specs.Id.{last_index};
ghost use Rattle.ecs_model.specs.World.{first_index};
ghost use Rattle.entity_index.specs.Entities.{built_in_entities, entity_at, is_alive, is_deletable, is_live};
ghost use Rattle.entity_index.specs.Entities.{live_entities, next_entity, place_of, with_entity};
ghost use Rattle.entity_index.specs.Entities.{with_place, without_entity, IsFull, IsNext, IsWellFormed};
ghost use Rattle.entity_index.specs.Sizes.{live_size};

use crate::index::{CreateError, SlotIndex};
use crate::live::Live;
use ecs_id::{EntityId, Place};
use ecs_model::LAST_BUILT_IN;
use std::alloc::{AllocError, Allocator, Global};
use std::marker::Model;

/// The entities that live, their generations, and where their rows stand.
///
/// The indexes 1 to 22 are those of the built-in entities, which always live. New entities get indexes from 64 on,
/// always the smallest that is free. An index whose generation 65,535 was deleted is never given out again. (That a
/// stale id is not alive is as in Flecs; which index comes next is this profile's own rule.)
///
/// But for growth, `create` and `delete` take logarithmic time in the number of free indexes and the other calls
/// constant time; the iterator passes each index that was used. `delete` of the greatest live index also passes the
/// dead ones below it, each of which some `create` had passed. Only `new` and `create` take memory, which grows with
/// the greatest index used.
pub struct EntityIndex<A: Allocator = Global> {
    inner: SlotIndex<A>,
    /// The greatest live index plus 1.
    size: u32,
}

impl<A: Allocator> Drop for EntityIndex<A> {
    fn drop(self) {
        let Self { inner: _, size: _ } = self;
    }
}

impl<A: Allocator> Model for EntityIndex<A> {
    ghost use Rattle.entity_index.specs.Entities.{Entities};
    ghost use Rattle.entity_index.specs.Sizes.{IsSized};

    ghost Value = { Entities };

    ghost view = { λ x. x.inner };

    ghost invariant = { λ x. IsSized x.inner x.size };
}

impl<A: Allocator + Copy> EntityIndex<A> {
    /// An index of the built-in entities alone, which gives out indexes from 64 to `last`, which is at most 16,777,215.
    pub fn new(alloc: A, last: u32) -> Result<Self, AllocError>
        requires least { first_index ≤ last }
        requires greatest { last ≤ last_index }
        ensures built_in { IfOk result (λ index. index ≡ built_in_entities last) }
        ensures well_formed { IfOk result (λ index. IsWellFormed index) }
    {
        let inner = SlotIndex::new(alloc, last)?;
        Ok(EntityIndex {
            inner,
            size: LAST_BUILT_IN + 1,
        })
    }
}

impl<A: Allocator> EntityIndex<A> {
    /// Makes a new entity at the smallest index of 64 or more that is neither live nor retired.
    ///
    /// It makes room for the place and for the later `delete`. After an error the index is as it was.
    pub fn create(&mut self) -> Result<EntityId, CreateError>
        ensures next { IfOk result (λ e. next_entity self.old ≡ Some e) }
        ensures smallest { IfOk result (IsNext self.old) }
        ensures born { IfOk result (λ e. self.new ≡ with_entity self.old e) }
        ensures no_place { IfOk result (λ e. place_of self.new e ≡ None) }

        ensures full { IsErrOf result CreateError.Full ↔ (next_entity self.old ≡ None) }
        ensures none_left { IsErrOf result CreateError.Full ↔ IsFull self.old }
        ensures err { OnErr result (self.new ≡ self.old) }
        ensures well_formed { IsWellFormed self.new }
    {
        let entity = self.inner.create()?;
        self.size = self.size.max(entity.index + 1);
        Ok(entity)
    }

    /// The entity that `create` would make, None where no index is left.
    pub fn upcoming(&self) -> Option<EntityId>
        ensures next { result ≡ next_entity self.now }
        ensures smallest { MatchOption result (IsFull self.now) (IsNext self.now) }
    {
        self.inner.upcoming()
    }

    /// Whether this very entity is alive: its index is, and with its generation.
    pub fn is_alive(&self, entity: EntityId) -> bool
        ensures answer { result ≡ is_alive self.now entity }
        ensures well_formed { IsWellFormed self.now }
    {
        self.inner.is_alive(entity)
    }

    /// The live entity of an index.
    pub fn at(&self, index: u32) -> Option<EntityId>
        ensures { result ≡ entity_at self.now index }
    {
        self.inner.at(index)
    }

    /// Deletes an entity, and answers whether it did. A dead entity and a built-in one can't be deleted.
    pub fn delete(&mut self, entity: EntityId) -> bool
        ensures answer { result ≡ is_deletable self.old entity }
        ensures deleted { OnTrue result (self.new ≡ without_entity self.old entity.index) }
        ensures unchanged { OnFalse result (self.new ≡ self.old) }
        ensures well_formed { IsWellFormed self.new }
    {
        let is_deleted = self.inner.delete(entity);
        if is_deleted && self.size == entity.index + 1 {
            self.size = reach_below(&self.inner, entity.index);
        }
        is_deleted
    }

    /// Where the row of a live entity stands, as `set_place` wrote it last.
    pub fn place(&self, entity: EntityId) -> Option<Place>
        ensures { result ≡ place_of self.now entity }
    {
        self.inner.place(entity)
    }

    /// Writes where the row of a live entity stands.
    pub fn set_place(&mut self, entity: EntityId, place: Place)
        requires { IsTrue (is_alive self.old entity) }
        ensures placed { self.new ≡ with_place self.old entity.index place }
        ensures well_formed { IsWellFormed self.new }
    {
        self.inner.set_place(entity, place);
    }

    /// The live entities, by ascending index.
    pub fn live(&self) -> Live<'_>
        ensures { result ≡ live_entities self.now }
    {
        self.inner.live()
    }

    /// The greatest live index plus 1.
    pub fn size(&self) -> u32
        ensures { result ≡ live_size self.now.live }
    {
        self.size
    }
}

// The greatest live index plus 1, where all live ones are below a bound.
fn reach_below<A: Allocator>(index: &SlotIndex<A>, bound: u32) -> u32
    requires well_formed { IsWellFormed index.now }
    requires bound { (i : ℕ) → IsTrue (is_live index.now i) → i < bound }
    ensures { result ≡ live_size index.now.live }
{
    let mut size = bound;
    while 0 < size && index.at(size - 1).is_none() {
        size -= 1;
    }
    size
}
