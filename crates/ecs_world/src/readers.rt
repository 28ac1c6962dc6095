//! What is read from a world, without memory.

ghost use Rattle.std.specs.Prelude.{◌≡◌, ◌<◌, ◌≤◌, IfSome, IsTrue, is_some, map, length, option_map, None, Some};
ghost use Rattle.std.specs.Prelude.{if◌then◌else◌};
ghost use Rattle.std.specs.Option.{option_copied};
ghost use Rattle.std.specs.Ordering.{nat_cmp};
ghost use Rattle.ecs_id.specs.Id.{IsIndex};
ghost use Rattle.ecs_model.specs.Bytes.{size_of, values_in};
ghost use Rattle.ecs_model.specs.Map.{value_at};
ghost use Rattle.ecs_model.specs.steps.WellFormed.{IsWellFormed};
ghost use Rattle.ecs_model.specs.World.{entity_at, holds, ids_of, is_alive, is_live, name_of, named, type_of_id};
ghost use Rattle.ecs_model.specs.World.{value_of};
ghost use Rattle.ecs_world.specs.Standing.{IsGraphOf, IsLinksOf};
ghost use Rattle.ecs_world.specs.State.{AreFactsOf, byte_count, value_in};

use crate::World;
use crate::built_in::PAIR_IS_TAG;
use ecs_archetypes::{EntityFacts, Links, TableGraph};
use ecs_id::{EntityId, Id};
use ecs_model::Value;
use ecs_schema::Schema;
use entity_index::Live;
use std::alloc::Allocator;

impl<A: Allocator> World<A> {
    /// Law: what every world has. The call does nothing.
    pub fn keeps(&self)
        ensures { IsWellFormed self.now.state }
    {
        let _ = &self.accepted;
    }

    /// Whether this very entity is alive.
    pub fn is_alive(&self, entity: EntityId) -> bool
        ensures { result ≡ is_alive self.now.state entity }
    {
        self.archetypes.is_alive(entity)
    }

    /// The live entity of an index.
    pub fn at(&self, index: u32) -> Option<EntityId>
        ensures { result ≡ entity_at self.now.state index }
    {
        self.archetypes.at(index)
    }

    /// The live entities, by ascending index.
    pub fn live(&self) -> Live<'_>
        ensures { result ≡ map (λ e. record { index = e.0; generation = e.1 }) self.now.state.live }
    {
        self.archetypes.live()
    }

    /// The live entity of a name. Its index is one that ids can have.
    pub fn find(&self, name: &str) -> Option<EntityId>
        ensures index { option_map (λ e. e.index) result ≡ named self.now.state name.now }
        ensures alive { IfSome result (λ e. IsTrue (is_alive self.now.state e)) }
        ensures in_range { IfSome result (λ e. IsIndex e.index) }
    {
        self.names.find(name)
    }

    /// The name of the live entity of an index, if it has one.
    pub fn name_of(&self, index: u32) -> Option<&str>
        ensures { option_copied result ≡ name_of self.now.state index }
    {
        let entity = self.archetypes.at(index)?;
        self.names.name_of(entity)
    }

    /// The fields of an id's values. Of an id without fields there are no values.
    pub fn type_of(&self, id: Id) -> Option<&Schema<A>>
        ensures { option_copied result ≡ type_of_id self.now.state id }
    {
        match id.second() {
            None => self.schema_of(id.first()),
            Some(_) if self.has(id.first(), Id::plain(PAIR_IS_TAG)) => None,
            Some(target) => self.schema_of(id.first()).or(self.schema_of(target)),
        }
    }

    /// Whether an entity, by its index, holds an id.
    pub fn has(&self, index: u32, id: Id) -> bool
        ensures { result ≡ holds self.now.state index id }
    {
        self.archetypes.bytes(index, id).is_some()
    }

    /// The value of a fact: without numbers where the id has no fields.
    pub fn value(&self, index: u32, id: Id) -> Option<Value>
        ensures { result ≡ value_of self.now.state index id }
    {
        let bytes = self.archetypes.bytes(index, id)?;
        match self.type_of(id) {
            None => Some(Value::zeros(0)),
            Some(schema) => Some(decoded(schema, bytes)),
        }
    }

    /// The bytes of a fact's value, as `type_of` says what they mean: none where the id has no fields, and at most 64.
    pub fn bytes(&self, index: u32, id: Id) -> Option<&[u8]>
        ensures value { option_map (value_in (type_of_id self.now.state id)) (option_copied result)
            ≡ value_of self.now.state index id }
        ensures size { IfSome result (λ bytes. length bytes.now ≡ byte_count (type_of_id self.now.state id)) }
        ensures few { IfSome result (λ bytes. length bytes.now ≤ 64) }
    {
        let graph = self.archetypes.graph();
        // What is known of every table.
        let _ = graph.index();
        self.archetypes.bytes(index, id)
    }

    /// The ids of a live entity, in order, and None of one that is not alive.
    pub fn ids_of(&self, entity: EntityId) -> Option<&[Id]>
        ensures { option_copied result ≡ (if is_alive self.now.state entity then Some
            (ids_of self.now.state entity.index) else None) }
    {
        self.archetypes.ids_of(entity)
    }

    /// The ids of the entity at an index, in order: none where no entity lives there.
    pub(crate) fn ids_at(&self, index: u32) -> &[Id]
        ensures { result.now ≡ ids_of self.now.state index }
    {
        let Some(entity) = self.archetypes.at(index) else {
            return &[];
        };
        match self.archetypes.ids_of(entity) {
            Some(ids) => ids,
            None => &[],
        }
    }

    /// The facts of a live entity, in the order of ids, and None of one that is not alive.
    pub fn facts(&self, entity: EntityId) -> Option<EntityFacts<'_, A>>
        ensures alive { is_some result ≡ is_alive self.now.state entity }
        ensures facts { IfSome result (AreFactsOf self.now.state entity.index) }
    {
        self.archetypes.facts(entity)
    }

    /// Where the entities stand, and the tables with their rows.
    pub fn graph(&self) -> TableGraph<'_, A>
        ensures { IsGraphOf self.now result }
    {
        self.archetypes.graph()
    }

    /// What searches along relationships go through: the live entities with their ids, in their tables.
    pub fn links(&self) -> Links<'_, A>
        ensures { IsLinksOf self.now result }
    {
        Links::new(&self.archetypes, self.archetypes.size())
    }

    /// The fields of a component.
    fn schema_of(&self, component: u32) -> Option<&Schema<A>>
        ensures { option_copied result ≡ value_at nat_cmp self.now.state.schemas component }
    {
        self.schemas.get(&component)
    }

    pub(crate) fn is_live(&self, index: u32) -> bool
        ensures { result ≡ is_live self.now.state index }
    {
        self.archetypes.at(index).is_some()
    }

    /// How many bytes a value of an id has.
    pub(crate) fn size_of(&self, id: Id) -> usize
        ensures value { result ≡ byte_count (type_of_id self.now.state id) }
        ensures small { result ≤ 64 }
    {
        match self.type_of(id) {
            None => 0,
            Some(schema) => schema.size(),
        }
    }
}

/// The value that bytes mean.
fn decoded<A: Allocator>(schema: &Schema<A>, bytes: &[u8]) -> Value
    requires { length bytes.now ≡ size_of schema.now }
    ensures { result ≡ values_in schema.now bytes.now }
{
    let mut numbers = [0; 8];
    let count = schema.field_count();
    for field in 0..count {
        numbers[field] = schema.decode(bytes, field);
    }
    Value::new(&numbers[..count])
}
