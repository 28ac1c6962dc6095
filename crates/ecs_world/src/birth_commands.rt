//! Commands that make an entity. Where memory is refused, what was done before is undone.

ghost use Rattle.std.specs.Prelude.{◌≡◌, ◌<◌, ◌≤◌, ◌++◌, IfErr, IfOk, None, OnErr, OnOk, Some, true};
ghost use Rattle.std.specs.FinMap as finite;
ghost use Rattle.ecs_model.specs.Refusal.{first_reason};
ghost use Rattle.ecs_model.specs.steps.Outcomes.{AnswersStep, birth_reasons, name_reasons, next_entity};
ghost use Rattle.ecs_model.specs.declared.faults.CommandError.TheVariants.{Memory};
ghost use Rattle.ecs_model.specs.steps.Step.{Component, Entity, Fresh, step};
ghost use Rattle.ecs_model.specs.Text.{is_name};
ghost use Rattle.name_index.specs.Names.{IsUnnamed};
ghost use Rattle.ecs_world.specs.State.{IsUnbound};
ghost use Rattle.ecs_world.specs.Releases.{NoneGo};
ghost use Rattle.table_store.specs.Going.{TablesGoOn};

use crate::built_in::COMPONENT;
use crate::changes::Told;
use crate::{Changes, World};
use ecs_id::{EntityId, Id};
use ecs_model::FactKey;
use ecs_model::faults::{CommandError, Refusal};
use ecs_schema::Schema;
use name_index::{BindError, NameIndex};
use rel_traits::PinCounts;
use std::alloc::Allocator;
use table_store::SizedId;

impl<A: Allocator + Copy> World<A> {
    /// Makes an entity without a name and without facts.
    pub fn fresh(&mut self) -> Result<Changes<A>, CommandError>
        ensures answers { AnswersStep result (step self.old.state Fresh) self.old.state self.new.state }
        ensures goes_on { TablesGoOn self.old.tables self.new.tables }
        ensures stay { NoneGo self.old self.new }
    {
        if let Some(refusal) = self.birth_refusal() {
            return Err(CommandError::Refused(refusal));
        }
        let entity = self.archetypes.upcoming().unwrap();
        cover(&mut self.pins, entity)?;
        if self.archetypes.create(&[]).is_err() {
            return Err(CommandError::Memory);
        }
        self.accepted += 1;
        Ok(Changes::of(Told::Born(entity)))
    }

    /// Makes an entity with a name and without facts.
    pub fn entity(&mut self, name: &str) -> Result<Changes<A>, CommandError>
        ensures answers { AnswersStep result (step self.old.state (Entity name.now)) self.old.state self.new.state }
        ensures goes_on { TablesGoOn self.old.tables self.new.tables }
        ensures stay { NoneGo self.old self.new }
    {
        let entity = match self.admit(name) {
            Ok(entity) => entity,
            Err(refusal) => return Err(CommandError::Refused(refusal)),
        };
        bind(&mut self.pins, &mut self.names, name, entity)?;
        if self.archetypes.create(&[]).is_err() {
            self.names.unbind(entity);
            return Err(CommandError::Memory);
        }
        self.accepted += 1;
        Ok(Changes::of(Told::Born(entity)))
    }

    /// Makes an entity with a name and fields, which holds the tag `Component`.
    pub fn component(&mut self, name: &str, schema: Schema<A>) -> Result<Changes<A>, CommandError>
        ensures answers { AnswersStep result (step self.old.state (Component name.now schema)) self.old.state
            self.new.state }
        ensures goes_on { TablesGoOn self.old.tables self.new.tables }
        ensures stay { NoneGo self.old self.new }
    {
        let entity = match self.admit(name) {
            Ok(entity) => entity,
            Err(refusal) => return Err(CommandError::Refused(refusal)),
        };
        // What is known of it: it has no fault.
        let _ = schema.fields();
        bind(&mut self.pins, &mut self.names, name, entity)?;
        if self.schemas.insert(entity.index, schema).is_err() {
            self.names.unbind(entity);
            return Err(CommandError::Memory);
        }
        let component = Id::plain(COMPONENT);
        if self.archetypes.create(&[SizedId::tag(component)]).is_err() {
            self.schemas.remove(&entity.index);
            self.names.unbind(entity);
            return Err(CommandError::Memory);
        }
        self.accepted += 1;
        let EntityId { index, generation } = entity;
        let fact = FactKey::new(index, component);
        Ok(Changes::of(Told::BornWith { generation, fact }))
    }

    /// The entity that the next birth makes, or why none is made with this name where none is made with any.
    #[inline(always)]
    fn admit(&self, name: &str) -> Result<EntityId, Refusal>
        ensures next { IfOk result (λ entity. next_entity self.now.state ≡ Some entity) }
        ensures room { OnOk result (first_reason (birth_reasons self.now.state) ≡ None) }
        ensures refused { IfErr result (λ refusal. Some refusal ≡ first_reason
            (name_reasons self.now.state name.now ++ birth_reasons self.now.state)) }
    {
        if let Some(full) = self.birth_refusal() {
            return Err(self.refusal_of(name, full));
        }
        let entity = self.upcoming().unwrap();
        Ok(entity)
    }
}

/// Makes room for the count of the stored queries that will mention a new entity.
fn cover<A: Allocator>(pins: &mut PinCounts<A>, entity: EntityId) -> Result<(), CommandError>
    ensures entries { pins.new.entries ≡ pins.old.entries }
    ensures further { pins.old.reach ≤ pins.new.reach }
    ensures covers { OnOk result (entity.index < pins.new.reach) }
    ensures refused { IfErr result (λ error. error ≡ Memory) }
{
    match pins.cover(entity.index) {
        Ok(()) => Ok(()),
        Err(_) => Err(CommandError::Memory),
    }
}

/// Makes room for the count of the stored queries that will mention a new entity, and binds its name.
#[inline(always)]
fn bind<A: Allocator + Copy>(
    pins: &mut PinCounts<A>,
    names: &mut NameIndex<A>,
    name: &str,
    entity: EntityId,
) -> Result<(), CommandError>
    requires { IsUnnamed names.old entity }
    ensures entries { pins.new.entries ≡ pins.old.entries }
    ensures further { pins.old.reach ≤ pins.new.reach }
    ensures covers { OnOk result (entity.index < pins.new.reach) }
    ensures bound { OnOk result (names.new ≡ finite.insert names.old name.now entity) }
    ensures free { OnOk result ((is_name name.now ≡ true) × (finite.get names.old name.now ≡ None)) }
    ensures refused { IfErr result (IsUnbound names.old name.now) }
    ensures err { OnErr result (names.new ≡ names.old) }
{
    if pins.cover(entity.index).is_err() {
        return Err(CommandError::Memory);
    }
    match names.bind(name, entity) {
        Ok(()) => Ok(()),
        Err(BindError::BadName) => Err(CommandError::Refused(Refusal::BadName)),
        Err(BindError::NameTaken) => Err(CommandError::Refused(Refusal::NameTaken)),
        Err(BindError::Memory) => Err(CommandError::Memory),
    }
}
