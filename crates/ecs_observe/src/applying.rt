//! The commands of a session as values, which give entities by name or by handle.

ghost use Rattle.std.specs.Prelude.{◌≡◌, ◌≤◌, false};
ghost use Rattle.std.specs.List.{list_any};
ghost use Rattle.ecs_model.specs.Orders.{AddTo, DeleteOne, RemoveFrom, SetIn};
ghost use Rattle.ecs_model.specs.stored.Session.{InWorld, apply};
ghost use Rattle.ecs_observe.specs.Answers.{AnswersApply, born, none_born};
ghost use Rattle.ecs_observe.specs.Commands.{CountsApply, FindsIn, FindsOne, ListsApply, answered, order_of};
ghost use Rattle.ecs_model.specs.References.{seen_id, seen_reference};
ghost use Rattle.watch_stored.specs.Held.{is_compared};
ghost use Rattle.ecs_observe.specs.Standing.{session_of};
ghost use Rattle.ecs_world.specs.Releases.{NoneGo, OnlyForgottenGo};
ghost use Rattle.table_store.specs.Going.{TablesGoOn};

use crate::references::{find_both, find_entity};
use crate::{Session, SessionError};
use ecs_id::{EntityId, Id};
use ecs_model::faults::SessionRefusal;
use ecs_model::references::{IdReference, Reference};
use ecs_model::watches::StoredKind;
use ecs_schema::Schema;
use std::alloc::{Allocator, Global};

/// A command of a session.
#[derive(Drop)]
pub enum Command<'a, A: Allocator = Global> {
    /// Creates an entity without a name.
    New,
    /// Creates an entity with a name.
    Entity {
        name: &'a str,
    },
    /// Creates an entity with a name and fields.
    Component {
        name: &'a str,
        schema: Schema<A>,
    },
    /// Adds a fact, and the facts that traits require with it.
    Add {
        entity: Reference<'a>,
        id: IdReference<'a>,
    },
    /// Sets the value of a fact; adds the fact if it isn't held.
    Set {
        entity: Reference<'a>,
        id: IdReference<'a>,
        values: &'a [i128],
    },
    /// Removes a fact, if it is held.
    Remove {
        entity: Reference<'a>,
        id: IdReference<'a>,
    },
    /// Deletes an entity, and what its relationships say to delete with it.
    Delete {
        entity: Reference<'a>,
    },
    /// Stores a query under a name: as a kept query, as a monitor, or as an observer of one kind of event.
    Store {
        kind: StoredKind,
        name: &'a str,
        text: &'a str,
    },
    /// Drops the stored query with a name.
    Drop {
        name: &'a str,
    },
}

/// The answer to a command that was carried out.
#[derive(Clone, Copy, Debug, PartialEq, Eq)]
pub enum Answer {
    /// The command created this entity.
    Born(EntityId),
    Done,
}

impl<A: Allocator + Copy> Session<A> {
    /// Carries out a command. Refused as `EventsPending` while events wait; else as `OfWorld(Dead)` where one of its
    /// handles is of no live entity; else as `OfWorld(UnknownName)` where no entity has one of its names; else as the
    /// call of the same name refuses it.
    pub fn apply(&mut self, command: Command<'_, A>) -> Result<Answer, SessionError>
        ensures answers { AnswersApply (answered result) (apply (session_of self.old) (order_of command.entry)) self.old
            self.new }
        ensures lists { ListsApply (order_of command.entry) result self.old self.new }
        ensures goes_on { TablesGoOn (self.old).world.tables (self.new).world.tables }
        ensures stay { OnlyForgottenGo (self.old).world (self.new).world }
        ensures compared { list_any is_compared (self.new).stored ≡ false → (self.new).compared ≡ (self.old).compared }
        ensures counted { CountsApply (order_of command.entry) result self.old self.new }
        ensures grows { (self.old).compared ≤ (self.new).compared }
    {
        match command {
            Command::New => with_born(self.fresh()),
            Command::Entity { name } => with_born(self.entity(name)),
            Command::Component { name, schema } => with_born(self.component(name, schema)),
            Command::Add { entity, id } => with_done(self.add_to(entity, id)),
            Command::Set { entity, id, values } => with_done(self.set_in(entity, id, values)),
            Command::Remove { entity, id } => with_done(self.remove_from(entity, id)),
            Command::Delete { entity } => with_done(self.delete_one(entity)),
            Command::Store { kind, name, text } => with_done(self.store(kind, name, text)),
            Command::Drop { name } => with_done(self.drop_stored(name)),
        }
    }

    /// Adds a fact.
    fn add_to(&mut self, entity: Reference<'_>, id: IdReference<'_>) -> Result<(), SessionError>
        ensures answers { AnswersApply (none_born result) (apply (session_of self.old)
            (InWorld (AddTo (seen_reference entity.entry) (seen_id id.entry)))) self.old self.new }
        ensures compared { (self.new).compared ≡ (self.old).compared }
        ensures lists { (self.new).stored ≡ (self.old).stored }
        ensures goes_on { TablesGoOn (self.old).world.tables (self.new).world.tables }
        ensures stay { OnlyForgottenGo (self.old).world (self.new).world }
    {
        match self.found_both(entity, id) {
            Ok(both) => self.add(both.0, both.1),
            Err(reason) => Err(SessionError::Refused(reason)),
        }
    }

    /// Sets the value of a fact.
    fn set_in(
        &mut self,
        entity: Reference<'_>,
        id: IdReference<'_>,
        values: &[i128],
    ) -> Result<(), SessionError>
        ensures answers { AnswersApply (none_born result) (apply (session_of self.old)
            (InWorld (SetIn (seen_reference entity.entry) (seen_id id.entry) values.now))) self.old
            self.new }
        ensures compared { (self.new).compared ≡ (self.old).compared }
        ensures lists { (self.new).stored ≡ (self.old).stored }
        ensures goes_on { TablesGoOn (self.old).world.tables (self.new).world.tables }
        ensures stay { OnlyForgottenGo (self.old).world (self.new).world }
    {
        match self.found_both(entity, id) {
            Ok(both) => self.set(both.0, both.1, values),
            Err(reason) => Err(SessionError::Refused(reason)),
        }
    }

    /// Removes a fact.
    fn remove_from(
        &mut self,
        entity: Reference<'_>,
        id: IdReference<'_>,
    ) -> Result<(), SessionError>
        ensures answers { AnswersApply (none_born result) (apply (session_of self.old)
            (InWorld (RemoveFrom (seen_reference entity.entry) (seen_id id.entry)))) self.old
            self.new }
        ensures compared { (self.new).compared ≡ (self.old).compared }
        ensures lists { (self.new).stored ≡ (self.old).stored }
        ensures goes_on { TablesGoOn (self.old).world.tables (self.new).world.tables }
        ensures stay { NoneGo (self.old).world (self.new).world }
    {
        match self.found_both(entity, id) {
            Ok(both) => self.remove(both.0, both.1),
            Err(reason) => Err(SessionError::Refused(reason)),
        }
    }

    /// Deletes an entity.
    fn delete_one(&mut self, entity: Reference<'_>) -> Result<(), SessionError>
        ensures answers { AnswersApply (none_born result) (apply (session_of self.old)
            (InWorld (DeleteOne (seen_reference entity.entry)))) self.old self.new }
        ensures compared { (self.new).compared ≡ (self.old).compared }
        ensures lists { (self.new).stored ≡ (self.old).stored }
        ensures goes_on { TablesGoOn (self.old).world.tables (self.new).world.tables }
        ensures stay { OnlyForgottenGo (self.old).world (self.new).world }
    {
        match self.found_entity(entity) {
            Ok(entity) => self.delete(entity),
            Err(reason) => Err(SessionError::Refused(reason)),
        }
    }

    /// The entity and the id that a command names, or why it is refused for them.
    fn found_both(
        &self,
        entity: Reference<'_>,
        id: IdReference<'_>,
    ) -> Result<(EntityId, Id), SessionRefusal>
        ensures { FindsIn (session_of self.now) (seen_reference entity.entry) (seen_id id.entry) result }
    {
        if self.has_events() {
            return Err(SessionRefusal::EventsPending);
        }
        match find_both(self.world(), entity, id) {
            Ok(both) => Ok(both),
            Err(refusal) => Err(SessionRefusal::OfWorld(refusal)),
        }
    }

    /// The entity that a command names, or why it is refused for it.
    fn found_entity(&self, entity: Reference<'_>) -> Result<EntityId, SessionRefusal>
        ensures { FindsOne (session_of self.now) (seen_reference entity.entry) result }
    {
        if self.has_events() {
            return Err(SessionRefusal::EventsPending);
        }
        match find_entity(self.world(), entity) {
            Ok(found) => Ok(found),
            Err(refusal) => Err(SessionRefusal::OfWorld(refusal)),
        }
    }
}

/// The answer to a command that created an entity, or why it was not carried out.
fn with_born(answer: Result<EntityId, SessionError>) -> Result<Answer, SessionError>
    ensures { answered result ≡ born answer }
{
    match answer {
        Ok(entity) => Ok(Answer::Born(entity)),
        Err(error) => Err(error),
    }
}

/// The same of one that creates none.
fn with_done(answer: Result<(), SessionError>) -> Result<Answer, SessionError>
    ensures { answered result ≡ none_born answer }
{
    match answer {
        Ok(()) => Ok(Answer::Done),
        Err(error) => Err(error),
    }
}
