//! Commands that a program gives to a stepper between lines. The events of each come after the output, as those of a line.
ghost use Rattle.std.specs.Prelude.{◌≡◌, ◌≤◌, ◌++◌, [], IfSome, IsTrue, MatchResult, OnErr, OnOk, None, Some, false};
ghost use Rattle.std.specs.Prelude.{flat_map, length, option_map};
ghost use Rattle.ecs_model.specs.World.{is_alive, named};
ghost use Rattle.ecs_model.specs.steps.Step.{Add, Delete, Entity, Fresh, Remove, SetValue};
ghost use Rattle.ecs_model.specs.stored.Session.{after_events, events};
ghost use Rattle.ecs_model.specs.stored.Watches.{event_text};
ghost use Rattle.ecs_observe.specs.Answers.{born, none_born};
ghost use Rattle.ecs_observe.specs.Standing.{session_of};
ghost use Rattle.world_script.specs.Commanding.{Commands, SetsColumn, TellsPrinted, column_error};
ghost use Rattle.world_script.specs.Stepping.{IsStepping, standing_of};

use crate::interpreters::Interpreter;
use crate::stepping::{Stepper, move_behind};
use crate::telling::tell_events;
use ecs_id::{EntityId, Id, TableKey};
use ecs_observe::{SessionError, SetColumnError};
use ecs_world::World;
use std::alloc::{AllocError, Allocator};

impl<A: Allocator> Stepper<A> {
    /// The live entity of a name.
    pub fn find(&self, name: &str) -> Option<EntityId>
        ensures index { option_map (λ e. e.index) result ≡ named self.now.stepping.session.world name.now }
        ensures alive { IfSome result (λ e. IsTrue (is_alive self.now.stepping.session.world e)) }
    {
        self.interpreter.session.world().find(name)
    }

    /// The world, as the last line or command left it.
    pub fn world(&self) -> &World<A>
        ensures { result.now ≡ standing_of self.now }
    {
        self.interpreter.session.world()
    }

    /// Sets the values of an id for all entities of a table, row by row: `bytes` holds one value after another, as its
    /// column does. It does what one `set` for each of the entities in turn would do, and takes no memory.
    ///
    /// Refused as `Session::set_column` refuses it. Where the stepper is broken, events may wait, and so it answers that
    /// they do.
    pub fn set_column(&mut self, key: TableKey, id: Id, bytes: &[u8]) -> Result<(), SetColumnError>
        ensures set { OnOk result (SetsColumn key id bytes.now self.old self.new) }
        ensures judged { MatchResult result (λ _. column_error self.old key id (length bytes.now) ≡ None)
            (λ error. column_error self.old key id (length bytes.now) ≡ Some error) }
        ensures unchanged { OnErr result (self.new ≡ self.old) }
    {
        if self.is_broken {
            return Err(SetColumnError::EventsPending);
        }
        self.interpreter.session.set_column(key, id, bytes)
    }
}

impl<A: Allocator + Copy> Stepper<A> {
    /// Creates an entity without a name and without facts, and answers it.
    pub fn fresh(&mut self) -> Result<EntityId, SessionError>
        ensures { Commands Fresh self.old.stepping self.new.stepping (born result) }
    {
        if self.is_broken {
            return Err(SessionError::Memory);
        }
        let answer = self.interpreter.session.fresh();
        tell_printed(
            &mut self.interpreter,
            &mut self.printed,
            &mut self.is_broken,
            answer,
        )
    }

    /// Creates an entity with a name and without facts, and answers it.
    pub fn entity(&mut self, name: &str) -> Result<EntityId, SessionError>
        ensures { Commands (Entity name.now) self.old.stepping self.new.stepping (born result) }
    {
        if self.is_broken {
            return Err(SessionError::Memory);
        }
        let answer = self.interpreter.session.entity(name);
        tell_printed(
            &mut self.interpreter,
            &mut self.printed,
            &mut self.is_broken,
            answer,
        )
    }

    /// Adds a fact, and the facts that traits require with it.
    pub fn add(&mut self, entity: EntityId, id: Id) -> Result<(), SessionError>
        ensures { Commands (Add entity id) self.old.stepping self.new.stepping (none_born result) }
    {
        if self.is_broken {
            return Err(SessionError::Memory);
        }
        let answer = self.interpreter.session.add(entity, id);
        tell_printed(
            &mut self.interpreter,
            &mut self.printed,
            &mut self.is_broken,
            answer,
        )
    }

    /// Sets the value of a fact; adds the fact if it isn't held.
    pub fn set(&mut self, entity: EntityId, id: Id, values: &[i128]) -> Result<(), SessionError>
        ensures { Commands (SetValue entity id values.now) self.old.stepping self.new.stepping (none_born result) }
    {
        if self.is_broken {
            return Err(SessionError::Memory);
        }
        let answer = self.interpreter.session.set(entity, id, values);
        tell_printed(
            &mut self.interpreter,
            &mut self.printed,
            &mut self.is_broken,
            answer,
        )
    }

    /// Removes a fact, if it is held.
    pub fn remove(&mut self, entity: EntityId, id: Id) -> Result<(), SessionError>
        ensures { Commands (Remove entity id) self.old.stepping self.new.stepping (none_born result) }
    {
        if self.is_broken {
            return Err(SessionError::Memory);
        }
        let answer = self.interpreter.session.remove(entity, id);
        tell_printed(
            &mut self.interpreter,
            &mut self.printed,
            &mut self.is_broken,
            answer,
        )
    }

    /// Deletes an entity, and what its relationships say to delete with it.
    pub fn delete(&mut self, entity: EntityId) -> Result<(), SessionError>
        ensures { Commands (Delete entity) self.old.stepping self.new.stepping (none_born result) }
    {
        if self.is_broken {
            return Err(SessionError::Memory);
        }
        let answer = self.interpreter.session.delete(entity);
        tell_printed(
            &mut self.interpreter,
            &mut self.printed,
            &mut self.is_broken,
            answer,
        )
    }
}

/// Prints the events of a command that was carried out behind what was printed. Where memory is refused for them, it is
/// broken.
fn tell_printed<T: Copy, A: Allocator + Copy>(
    interpreter: &mut Interpreter<A>,
    printed: &mut Vec<u8, A>,
    is_broken: &mut bool,
    answer: Result<T, SessionError>,
) -> Result<T, SessionError>
    requires none_wait { OnErr answer (interpreter.old.session.waiting ≡ None) }
    requires few { interpreter.old.summary.refused ≤ interpreter.old.summary.lines }
    requires unprinted { interpreter.old.output.items ≡ [] }
    ensures told { TellsPrinted answer result (session_of interpreter.old.session) (session_of interpreter.new.session)
        printed.old.items printed.new.items is_broken.old is_broken.new }
    ensures summary { interpreter.new.summary ≡ interpreter.old.summary }
    ensures whole { is_broken.new ≡ false → IsStepping interpreter.new }
{
    let done = answer?;
    match move_events(interpreter, printed) {
        Ok(()) => Ok(done),
        Err(_) => {
            *is_broken = true;
            Err(SessionError::Memory)
        }
    }
}

/// Prints the events that wait behind what was printed.
fn move_events<A: Allocator + Copy>(
    interpreter: &mut Interpreter<A>,
    printed: &mut Vec<u8, A>,
) -> Result<(), AllocError>
    requires unprinted { interpreter.old.output.items ≡ [] }
    ensures after { OnOk result (session_of interpreter.new.session ≡ after_events (session_of interpreter.old.session)) }
    ensures printed { OnOk result (printed.new.items ≡ printed.old.items
        ++ flat_map event_text (events (session_of interpreter.old.session))) }
    ensures none_wait { OnOk result (interpreter.new.session.waiting ≡ None) }
    ensures unprinted { OnOk result (interpreter.new.output.items ≡ []) }
    ensures summary { interpreter.new.summary ≡ interpreter.old.summary }
    ensures kept { OnErr result (printed.new.items ≡ printed.old.items) }
{
    // (most commands have none, and pay for no move)
    if !interpreter.session.has_events() {
        return Ok(());
    }
    tell_events(&mut interpreter.session, &mut interpreter.output)?;
    move_behind(&mut interpreter.output, printed)
}
