//! The index of entities.
ghost use Rattle.std.specs.Prelude.{◌≡◌, ◌↔◌, ◌≤◌, None, Some, IfOk, OnErr, IsErrOf, IsTrue, MatchOption};
ghost use Rattle.std.specs.Bool.{OnTrue, OnFalse};
ghost use Rattle.ecs_id.specs.Id.{last_index};
ghost use Rattle.ecs_model.specs.World.{first_index};
ghost use Rattle.entity_index.specs.Entities.{built_in_entities, entity_at, is_alive, is_deletable, live_entities};
ghost use Rattle.entity_index.specs.Entities.{next_entity, place_of, with_entity};
ghost use Rattle.entity_index.specs.Entities.{with_place, without_entity, IsFull, IsNext, IsWellFormed};

use crate::live::Live;
use crate::packed::{PackedPlace, unpacked};
use crate::slot::{EntitySlot, first_places, first_slots};
use ecs_id::{EntityId, Place};
use ecs_model::FIRST_INDEX;
use std::alloc::{AllocError, Allocator, Global};
use std::cmp::Reverse;
use std::collections::BinaryHeap;
use std::marker::Model;
use thiserror::Error;

const GENERATIONS: u32 = 65536;

/// Why no entity was created.
#[derive(Clone, Copy, Debug, PartialEq, Eq, Error)]
pub enum CreateError {
    /// No index is left.
    #[error("no index is left")]
    Full,
    /// A growth was refused.
    #[error("out of memory")]
    Memory,
}

impl From<AllocError> for CreateError {
    ghost use Rattle.std.specs.Prelude.{◌≡◌};
    ghost use Rattle.entity_index.specs.declared.index.CreateError.TheVariants.{Memory};

    ghost from_gives = { λ _ e. e ≡ Memory };

    fn from(_error: AllocError) -> Self {
        CreateError::Memory
    }
}

/// The entities that live, their generations, and where their rows stand: see `EntityIndex`.
pub struct SlotIndex<A: Allocator = Global> {
    // by index, up to the greatest that was used
    slots: Vec<EntitySlot, A>,
    // by index too, apart from the slots so that these stay small
    places: Vec<Option<PackedPlace>, A>,
    // the indexes of slots that can be given out again, with the smallest on top
    free: BinaryHeap<Reverse<u32>, A>,
    last: u32,
}

impl<A: Allocator> Drop for SlotIndex<A> {
    fn drop(self) {
        let Self {
            slots: _,
            places: _,
            free: _,
            last: _,
        } = self;
    }
}

impl<A: Allocator> Model for SlotIndex<A> {
    ghost use Rattle.entity_index.specs.Entities.{Entities};

    ghost Value = { Entities };

    ghost use Rattle.entity_index.specs.Slots.{meaning, IsSound};

    ghost view = { λ x. meaning x.slots.items x.places.items x.last };

    ghost invariant = { λ x. IsSound x.slots.items x.places.items x.free x.last };
}

impl<A: Allocator + Copy> SlotIndex<A> {
    /// An index of the built-in entities alone, which gives out indexes from 64 to `last`, which is at most 16,777,215.
    pub fn new(alloc: A, last: u32) -> Result<Self, AllocError>
        requires least { first_index ≤ last }
        requires greatest { last ≤ last_index }
        ensures built_in { IfOk result (λ index. index ≡ built_in_entities last) }
        ensures well_formed { IfOk result (λ index. IsWellFormed index) }
    {
        let slots = first_slots(alloc)?;
        let places = first_places(alloc)?;
        let free = BinaryHeap::with_capacity(alloc, FIRST_INDEX as usize)?;
        Ok(SlotIndex {
            slots,
            places,
            free,
            last,
        })
    }
}

impl<A: Allocator> SlotIndex<A> {
    /// Makes a new entity at the smallest index of 64 or more that is neither live nor retired.
    ///
    /// It makes room for the place and for the later `delete`. After an error the index is as it was.
    pub fn create(&mut self) -> Result<EntityId, CreateError>
        ensures next { IfOk result (λ e. next_entity self.old ≡ Some e) }
        ensures smallest { IfOk result (IsNext self.old) }
        ensures born { IfOk result (λ e. self.new ≡ with_entity self.old e) }
        ensures no_place { IfOk result (λ e. place_of self.new e ≡ None) }

        ensures full { IsErrOf result CreateError.Full ↔ (next_entity self.old ≡ None) }
        ensures none_left { IsErrOf result CreateError.Full ↔ IsFull self.old }
        ensures err { OnErr result (self.new ≡ self.old) }
        ensures well_formed { IsWellFormed self.new }
    {
        if let Some(Reverse(index)) = self.free.pop() {
            let slot = &mut self.slots[index as usize];
            slot.live = true;
            let generation = slot.deletions as u16;
            return Ok(EntityId { index, generation });
        }
        let used = self.slots.len();
        let index = used as u32;
        if self.last < index {
            return Err(CreateError::Full);
        }
        self.free.reserve(used + 1)?;
        list_growth::make_room(&mut self.places)?;
        let slot = EntitySlot {
            deletions: 0,
            live: true,
        };
        list_growth::push(&mut self.slots, slot)?;
        self.places.push_reserved(None);
        Ok(EntityId {
            index,
            generation: 0,
        })
    }

    /// The entity that `create` would make, None where no index is left.
    pub fn upcoming(&self) -> Option<EntityId>
        ensures next { result ≡ next_entity self.now }
        ensures smallest { MatchOption result (IsFull self.now) (IsNext self.now) }
    {
        if let Some(Reverse(index)) = self.free.peek() {
            let generation = self.slots[*index as usize].deletions as u16;
            return Some(EntityId {
                index: *index,
                generation,
            });
        }
        let index = self.slots.len() as u32;
        if self.last < index {
            return None;
        }
        Some(EntityId {
            index,
            generation: 0,
        })
    }

    /// Whether this very entity is alive: its index is, and with its generation.
    pub fn is_alive(&self, entity: EntityId) -> bool
        ensures answer { result ≡ is_alive self.now entity }
        ensures well_formed { IsWellFormed self.now }
    {
        match self.slots.get(entity.index as usize) {
            Some(slot) => slot.live && slot.deletions == u32::from(entity.generation),
            None => false,
        }
    }

    /// The live entity of an index.
    pub fn at(&self, index: u32) -> Option<EntityId>
        ensures { result ≡ entity_at self.now index }
    {
        let slot = self.slots.get(index as usize)?;
        if !slot.live {
            return None;
        }
        Some(EntityId {
            index,
            generation: slot.deletions as u16,
        })
    }

    /// Deletes an entity, and answers whether it did. A dead entity and a built-in one can't be deleted.
    pub fn delete(&mut self, entity: EntityId) -> bool
        ensures answer { result ≡ is_deletable self.old entity }
        ensures deleted { OnTrue result (self.new ≡ without_entity self.old entity.index) }
        ensures unchanged { OnFalse result (self.new ≡ self.old) }
        ensures well_formed { IsWellFormed self.new }
    {
        if !self.is_alive(entity) || entity.index < FIRST_INDEX {
            return false;
        }
        self.places[entity.index as usize] = None;
        let slot = &mut self.slots[entity.index as usize];
        slot.live = false;
        slot.deletions += 1;
        if slot.deletions < GENERATIONS {
            self.free.push(Reverse(entity.index)).unwrap();
        }
        true
    }

    /// Where the row of a live entity stands, as `set_place` wrote it last.
    pub fn place(&self, entity: EntityId) -> Option<Place>
        ensures { result ≡ place_of self.now entity }
    {
        if self.is_alive(entity) {
            unpacked(&self.places[entity.index as usize])
        } else {
            None
        }
    }

    /// Writes where the row of a live entity stands.
    pub fn set_place(&mut self, entity: EntityId, place: Place)
        requires { IsTrue (is_alive self.old entity) }
        ensures placed { self.new ≡ with_place self.old entity.index place }
        ensures well_formed { IsWellFormed self.new }
    {
        self.places[entity.index as usize] = Some(PackedPlace::new(place));
    }

    /// The live entities, by ascending index.
    pub fn live(&self) -> Live<'_>
        ensures { result ≡ live_entities self.now }
    {
        Live::new(0, &self.slots)
    }
}
