//! What is read of entities and tables, without memory.
ghost use Rattle.std.specs.Prelude.{◌≡◌, None, option_map, if◌then◌else◌};
ghost use Rattle.std.specs.Option.{option_copied};
ghost use Rattle.ecs_model.specs.Map.{keys};
ghost use Rattle.entity_index.specs.Entities.{place_of};
ghost use Rattle.entity_index.specs.Sizes.{live_size};
ghost use Rattle.ecs_archetypes.specs.Holdings.{AreHoldings, bytes_at, cells_at, entity_at, live_entities, lives};
ghost use Rattle.ecs_archetypes.specs.Holdings.{upcoming};
ghost use Rattle.ecs_archetypes.specs.Housing.{IsHoused, holdings_of};

use crate::entity_facts::EntityFacts;
use crate::rows::value_in;
use crate::{Archetypes, TableGraph};
use ecs_id::{EntityId, Id, TableKey};
use entity_index::Live;
use std::alloc::Allocator;

impl<A: Allocator> Archetypes<A> {
    /// The table where a settled entity stands.
    pub fn table_of(&self, entity: EntityId) -> Option<TableKey>
        ensures { result ≡ option_map (λ p. p.table) (place_of self.now.entities entity) }
    {
        match self.entities.place(entity) {
            Some(place) => Some(place.table),
            None => None,
        }
    }

    /// The ids of a settled entity, in order.
    pub fn ids_of(&self, entity: EntityId) -> Option<&[Id]>
        ensures { option_copied result ≡ (if lives (holdings_of self.now) entity then option_map (λ c. keys c)
            (cells_at (holdings_of self.now) entity.index) else None) }
    {
        let place = self.entities.place(entity)?;
        let table = self.tables.get(place.table)?;
        Some(table.ids())
    }

    /// The facts of a settled entity.
    pub fn facts(&self, entity: EntityId) -> Option<EntityFacts<'_, A>>
        ensures { result ≡ (if lives (holdings_of self.now) entity then cells_at
            (holdings_of self.now) entity.index else None) }
    {
        let place = self.entities.place(entity)?;
        let table = self.tables.get(place.table)?;
        Some(EntityFacts::new(table, place.row))
    }

    /// The bytes of the value of an id that the entity of an index holds: none for a tag.
    pub fn bytes(&self, index: u32, id: Id) -> Option<&[u8]>
        ensures { option_copied result ≡ bytes_at (holdings_of self.now) index id }
    {
        let entity = self.entities.at(index)?;
        let place = self.entities.place(entity)?;
        let table = self.tables.get(place.table)?;
        value_in(table, place.row, id)
    }

    /// Whether this very entity is alive.
    pub fn is_alive(&self, entity: EntityId) -> bool
        ensures answer { result ≡ lives (holdings_of self.now) entity }
        ensures holdings { AreHoldings (holdings_of self.now) }
        ensures whole { IsHoused self.now }
    {
        self.entities.is_alive(entity)
    }

    /// The live entity of an index.
    pub fn at(&self, index: u32) -> Option<EntityId>
        ensures { result ≡ entity_at (holdings_of self.now) index }
    {
        self.entities.at(index)
    }

    /// The entity that the next birth makes, None where no index is left.
    pub fn upcoming(&self) -> Option<EntityId>
        ensures { result ≡ upcoming (holdings_of self.now) }
    {
        self.entities.upcoming()
    }

    /// The live entities, by ascending index.
    pub fn live(&self) -> Live<'_>
        ensures { result ≡ live_entities (holdings_of self.now) }
    {
        self.entities.live()
    }

    /// The greatest live index plus 1.
    pub fn size(&self) -> u32
        ensures { result ≡ live_size (holdings_of self.now).live }
    {
        self.entities.size()
    }

    /// What queries and traversal read.
    pub fn graph(&self) -> TableGraph<'_, A>
        ensures { result ≡ self.now }
    {
        TableGraph::new(&self.entities, &self.tables)
    }
}
