//! Commands on facts with which no others come, and none goes or just one of the same entity: each moves one row, or
//! none.

ghost use Rattle.std.specs.Prelude.{◌≡◌, true};
ghost use Rattle.ecs_model.specs.steps.Outcomes.{AnswersStep};
ghost use Rattle.ecs_model.specs.World.{ids_of};
ghost use Rattle.ecs_model.specs.steps.Step.{Add, Remove, SetValue, step};
ghost use Rattle.rel_traits.specs.Simple.{ComesAlone, ComesInPlace, is_unmirrored};
ghost use Rattle.ecs_world.specs.Releases.{NoneGo};
ghost use Rattle.table_store.specs.Going.{TablesGoOn};

use crate::changes::{Replaced, Told};
use crate::{Changes, World};
use ecs_id::{EntityId, Id};
use ecs_model::FactKey;
use ecs_model::faults::{CommandError, Refusal};
use std::alloc::Allocator;

impl<A: Allocator + Copy> World<A> {
    /// `add` of a fact that comes alone.
    pub(crate) fn add_single(
        &mut self,
        entity: EntityId,
        id: Id,
    ) -> Result<Changes<A>, CommandError>
        requires alone { ComesAlone (ids_of self.old.state) (entity.index, id) }
        ensures answers { AnswersStep result (step self.old.state (Add entity id)) self.old.state self.new.state }
        ensures goes_on { TablesGoOn self.old.tables self.new.tables }
        ensures stay { NoneGo self.old self.new }
    {
        let Some(found) = self.archetypes.find(entity, id) else {
            return Err(CommandError::Refused(Refusal::Dead));
        };
        if let Some(refusal) = self.single_refusal(entity, id, &found) {
            return Err(CommandError::Refused(refusal));
        }
        if found.is_held {
            self.accepted += 1;
            return Ok(Changes::of(Told::Nothing));
        }
        let size = self.size_of(id);
        if self.archetypes.add(entity, found.place, id, size).is_err() {
            return Err(CommandError::Memory);
        }
        self.accepted += 1;
        let key = FactKey::new(entity.index, id);
        Ok(Changes::of(Told::Came(key)))
    }

    /// `add` of a fact that comes in the place of another.
    #[inline(never)]
    pub(crate) fn add_in_place(
        &mut self,
        entity: EntityId,
        id: Id,
        old: Id,
    ) -> Result<Changes<A>, CommandError>
        requires in_place { ComesInPlace (ids_of self.old.state) (entity.index, id) old }
        ensures answers { AnswersStep result (step self.old.state (Add entity id)) self.old.state self.new.state }
        ensures goes_on { TablesGoOn self.old.tables self.new.tables }
        ensures stay { NoneGo self.old self.new }
    {
        let Some(found) = self.archetypes.find(entity, old) else {
            return Err(CommandError::Refused(Refusal::Dead));
        };
        if let Some(refusal) = self.replacing_refusal(entity, id, old) {
            return Err(CommandError::Refused(refusal));
        }
        let came = FactKey::new(entity.index, id);
        let went = FactKey::new(entity.index, old);
        let Ok(facts) = Box::new(self.alloc, Replaced { came, went }) else {
            return Err(CommandError::Memory);
        };
        let size = self.size_of(id);
        let plan = &mut self.plan;
        let moved = self
            .archetypes
            .replace(plan, entity, found.place, old, id, size);
        if moved.is_err() {
            return Err(CommandError::Memory);
        }
        self.accepted += 1;
        Ok(Changes::of(Told::Replaced(facts)))
    }

    /// `set` of a fact that comes alone.
    pub(crate) fn set_single(
        &mut self,
        entity: EntityId,
        id: Id,
        values: &[i128],
    ) -> Result<Changes<A>, CommandError>
        requires alone { ComesAlone (ids_of self.old.state) (entity.index, id) }
        ensures answers { AnswersStep result (step self.old.state (SetValue entity id values.now)) self.old.state
            self.new.state }
        ensures goes_on { TablesGoOn self.old.tables self.new.tables }
        ensures stay { NoneGo self.old self.new }
    {
        let Some(found) = self.archetypes.find(entity, id) else {
            return Err(CommandError::Refused(Refusal::Dead));
        };
        let mut buffer = [0; 64];
        let size = match self.judge_single(entity, id, values, &found, &mut buffer) {
            Ok(size) => size,
            Err(refusal) => return Err(CommandError::Refused(refusal)),
        };
        let bytes = &buffer[..size];
        if self.archetypes.put(entity, &found, id, bytes).is_err() {
            return Err(CommandError::Memory);
        }
        self.accepted += 1;
        let key = FactKey::new(entity.index, id);
        if found.is_held {
            Ok(Changes::of(Told::Written(key)))
        } else {
            Ok(Changes::of(Told::CameWritten(key)))
        }
    }

    /// `remove` of an id without mirror.
    pub(crate) fn remove_single(
        &mut self,
        entity: EntityId,
        id: Id,
    ) -> Result<Changes<A>, CommandError>
        requires unmirrored { is_unmirrored (ids_of self.old.state) id ≡ true }
        ensures answers { AnswersStep result (step self.old.state (Remove entity id)) self.old.state self.new.state }
        ensures goes_on { TablesGoOn self.old.tables self.new.tables }
        ensures stay { NoneGo self.old self.new }
    {
        let Some(found) = self.archetypes.find(entity, id) else {
            return Err(CommandError::Refused(Refusal::Dead));
        };
        if let Some(refusal) = self.remove_refusal(entity, id) {
            return Err(CommandError::Refused(refusal));
        }
        if !found.is_held {
            self.accepted += 1;
            return Ok(Changes::of(Told::Nothing));
        }
        if self.archetypes.remove(entity, found.place, id).is_err() {
            return Err(CommandError::Memory);
        }
        self.accepted += 1;
        let key = FactKey::new(entity.index, id);
        Ok(Changes::of(Told::Went(key)))
    }
}
