//! The commands of the world.

ghost use Rattle.std.specs.Prelude.{◌≡◌, IfOk, None, map};
ghost use Rattle.ecs_id.specs.Id.{IsIndex};
ghost use Rattle.ecs_model.specs.steps.Step.{Add, Component, Delete, Entity, Fresh, Remove, SetValue};
ghost use Rattle.ecs_observe.specs.Answers.{AnswersApply, AnswersCommand, IsBorn, born, carried_out, none_born};
ghost use Rattle.ecs_observe.specs.Parts.{held_of};
ghost use Rattle.ecs_observe.specs.Standing.{session_of};
ghost use Rattle.ecs_observe.specs.Stored.{IsStored, entries_of};
ghost use Rattle.ecs_world.specs.Releases.{NoneGo, OnlyForgottenGo};
ghost use Rattle.table_store.specs.Going.{TablesGoOn};

use crate::queries::StoredQueries;
use crate::{Session, SessionError};
use ecs_id::{EntityId, Id};
use ecs_model::faults::{CommandError, SessionRefusal};
use ecs_schema::Schema;
use ecs_world::Changes;
use std::alloc::Allocator;

// A command that creates an entity answers it; its index is one that ids can have, so `Id::of` takes it. Each is refused as `EventsPending` while events wait, and else as the
// world refuses it. It leaves the lists of kept queries as they are, and each still fits the tables.
impl<A: Allocator + Copy> Session<A> {
    /// Creates an entity without a name and without facts, and answers it.
    pub fn fresh(&mut self) -> Result<EntityId, SessionError>
        ensures answers { AnswersApply (born result) (carried_out (session_of self.old) (Fresh)) self.old self.new }
        ensures index { IfOk result (λ entity. IsIndex entity.index) }
        ensures compared { (self.new).compared ≡ (self.old).compared }
        ensures lists { (self.new).stored ≡ (self.old).stored }
        ensures goes_on { TablesGoOn (self.old).world.tables (self.new).world.tables }
        ensures stay { NoneGo (self.old).world (self.new).world }
    {
        if self.has_events() {
            return Err(SessionError::Refused(SessionRefusal::EventsPending));
        }
        self.world.keeps();
        let done = self.world.fresh();
        answer_born(&self.stored, &mut self.waiting, done)
    }

    /// Creates an entity with a name and without facts, and answers it.
    pub fn entity(&mut self, name: &str) -> Result<EntityId, SessionError>
        ensures answers { AnswersApply (born result) (carried_out (session_of self.old) (Entity name.now)) self.old self.new }
        ensures index { IfOk result (λ entity. IsIndex entity.index) }
        ensures compared { (self.new).compared ≡ (self.old).compared }
        ensures lists { (self.new).stored ≡ (self.old).stored }
        ensures goes_on { TablesGoOn (self.old).world.tables (self.new).world.tables }
        ensures stay { NoneGo (self.old).world (self.new).world }
    {
        if self.has_events() {
            return Err(SessionError::Refused(SessionRefusal::EventsPending));
        }
        self.world.keeps();
        let done = self.world.entity(name);
        answer_born(&self.stored, &mut self.waiting, done)
    }

    /// Creates an entity with a name and fields, which holds the tag `Component`, and answers it.
    pub fn component(&mut self, name: &str, schema: Schema<A>) -> Result<EntityId, SessionError>
        ensures answers { AnswersApply (born result) (carried_out (session_of self.old) (Component name.now schema)) self.old
            self.new }
        ensures index { IfOk result (λ entity. IsIndex entity.index) }
        ensures compared { (self.new).compared ≡ (self.old).compared }
        ensures lists { (self.new).stored ≡ (self.old).stored }
        ensures goes_on { TablesGoOn (self.old).world.tables (self.new).world.tables }
        ensures stay { NoneGo (self.old).world (self.new).world }
    {
        if self.has_events() {
            return Err(SessionError::Refused(SessionRefusal::EventsPending));
        }
        self.world.keeps();
        let done = self.world.component(name, schema);
        answer_born(&self.stored, &mut self.waiting, done)
    }

    /// Adds a fact, and the facts that traits require with it.
    pub fn add(&mut self, entity: EntityId, id: Id) -> Result<(), SessionError>
        ensures answers { AnswersApply (none_born result) (carried_out (session_of self.old) (Add entity id)) self.old self.new }
        ensures compared { (self.new).compared ≡ (self.old).compared }
        ensures lists { (self.new).stored ≡ (self.old).stored }
        ensures goes_on { TablesGoOn (self.old).world.tables (self.new).world.tables }
        ensures stay { OnlyForgottenGo (self.old).world (self.new).world }
    {
        if self.has_events() {
            return Err(SessionError::Refused(SessionRefusal::EventsPending));
        }
        self.world.keeps();
        let done = self.world.add(entity, id);
        answer_done(&self.stored, &mut self.waiting, done)
    }

    /// Sets the value of a fact; adds the fact if it isn't held.
    pub fn set(&mut self, entity: EntityId, id: Id, values: &[i128]) -> Result<(), SessionError>
        ensures answers { AnswersApply (none_born result) (carried_out (session_of self.old) (SetValue entity id values.now))
            self.old self.new }
        ensures compared { (self.new).compared ≡ (self.old).compared }
        ensures lists { (self.new).stored ≡ (self.old).stored }
        ensures goes_on { TablesGoOn (self.old).world.tables (self.new).world.tables }
        ensures stay { OnlyForgottenGo (self.old).world (self.new).world }
    {
        if self.has_events() {
            return Err(SessionError::Refused(SessionRefusal::EventsPending));
        }
        self.world.keeps();
        let done = self.world.set(entity, id, values);
        answer_done(&self.stored, &mut self.waiting, done)
    }

    /// Removes a fact, if it is held.
    pub fn remove(&mut self, entity: EntityId, id: Id) -> Result<(), SessionError>
        ensures answers { AnswersApply (none_born result) (carried_out (session_of self.old) (Remove entity id)) self.old self.new }
        ensures compared { (self.new).compared ≡ (self.old).compared }
        ensures lists { (self.new).stored ≡ (self.old).stored }
        ensures goes_on { TablesGoOn (self.old).world.tables (self.new).world.tables }
        ensures stay { NoneGo (self.old).world (self.new).world }
    {
        if self.has_events() {
            return Err(SessionError::Refused(SessionRefusal::EventsPending));
        }
        self.world.keeps();
        let done = self.world.remove(entity, id);
        answer_done(&self.stored, &mut self.waiting, done)
    }

    /// Deletes an entity, and what its relationships say to delete with it.
    pub fn delete(&mut self, entity: EntityId) -> Result<(), SessionError>
        ensures answers { AnswersApply (none_born result) (carried_out (session_of self.old) (Delete entity)) self.old self.new }
        ensures compared { (self.new).compared ≡ (self.old).compared }
        ensures lists { (self.new).stored ≡ (self.old).stored }
        ensures goes_on { TablesGoOn (self.old).world.tables (self.new).world.tables }
        ensures stay { OnlyForgottenGo (self.old).world (self.new).world }
    {
        if self.has_events() {
            return Err(SessionError::Refused(SessionRefusal::EventsPending));
        }
        self.world.keeps();
        let done = self.world.delete(entity);
        answer_done(&self.stored, &mut self.waiting, done)
    }
}

/// The answer to a command, from what the world answered. If a stored query is notified of commands, the changes wait.
#[inline(always)]
fn answer<A: Allocator>(
    stored: &StoredQueries<A>,
    waiting: &mut Option<Changes<A>>,
    done: Result<Changes<A>, CommandError>,
) -> Result<Option<EntityId>, SessionError>
    requires stored { IsStored stored.now }
    ensures { AnswersCommand (map held_of (entries_of stored.now)) waiting.old done result waiting.new }
{
    let changes = done?;
    let born = changes.born();
    let after = if stored.has_watch() {
        Some(changes)
    } else {
        None
    };
    *waiting = after;
    Ok(born)
}

/// The same of a command that creates an entity.
#[inline(always)]
fn answer_born<A: Allocator>(
    stored: &StoredQueries<A>,
    waiting: &mut Option<Changes<A>>,
    done: Result<Changes<A>, CommandError>,
) -> Result<EntityId, SessionError>
    requires stored { IsStored stored.now }
    requires born { IfOk done (λ changed. IsBorn changed.born) }
    ensures answers { AnswersCommand (map held_of (entries_of stored.now)) waiting.old done (born result) waiting.new }
    ensures index { IfOk result (λ entity. IsIndex entity.index) }
{
    let created = answer(stored, waiting, done)?;
    Ok(created.unwrap())
}

/// The same of one that creates none.
#[inline(always)]
fn answer_done<A: Allocator>(
    stored: &StoredQueries<A>,
    waiting: &mut Option<Changes<A>>,
    done: Result<Changes<A>, CommandError>,
) -> Result<(), SessionError>
    requires stored { IsStored stored.now }
    requires none { IfOk done (λ changed. changed.born ≡ None) }
    ensures { AnswersCommand (map held_of (entries_of stored.now)) waiting.old done (none_born result) waiting.new }
{
    answer(stored, waiting, done)?;
    Ok(())
}
