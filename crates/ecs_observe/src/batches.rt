//! Commands that wait in a list, and are carried out at once.

ghost use Rattle.std.specs.Prelude.{◌≡◌, ◌≤◌, ◌++◌, All, IfErr, IfOk, OnErr, OnOk, flat_map, length, map};
ghost use Rattle.ecs_model.specs.stored.Session.{after_events, apply, events};
ghost use Rattle.ecs_model.specs.stored.Watches.{event_text};
ghost use Rattle.ecs_observe.specs.Answers.{AnswersApply};
ghost use Rattle.ecs_observe.specs.Batches.{AnswersAll, IsOfWorld};
ghost use Rattle.ecs_observe.specs.Commands.{ListsApply, answered, order_of};
ghost use Rattle.ecs_observe.specs.Following.{lists_of};
ghost use Rattle.ecs_observe.specs.Standing.{session_of};
ghost use Rattle.table_store.specs.Going.{TablesGoOn};

use crate::applying::{Answer, Command};
use crate::{ApplyAllError, Session, SessionError};
use ecs_schema::Schema;
use std::alloc::{AllocError, Allocator};

impl<A: Allocator + Copy> Session<A> {
    /// Carries out commands one after another: each as `apply` does, and then its events are written as `write_events`
    /// writes them. So the session and the output are as after these single calls.
    ///
    /// It stops at the first command that isn't carried out, and answers how many were and why this one was not. Then
    /// the session is as those before it leave it, their events are in the output, and none wait; the commands behind it
    /// are not tried. Events that waited before the call still wait: the first command is refused for them.
    ///
    /// Where memory is refused for the lines of a command's events, this command counts as carried out, but none of
    /// these lines is in the output, and the events still wait. So whoever goes on calls `write_events` first where
    /// `has_events` is true.
    pub fn apply_all(
        &mut self,
        commands: &[Command<'_, A>],
        output: &mut Vec<u8, A>,
    ) -> Result<(), ApplyAllError>
        ensures answers { AnswersAll result (map order_of commands.now) (session_of self.old, output.old.items)
            (session_of self.new, output.new.items) }
        ensures within { IfErr result (λ stop. stop.done ≤ length commands.now) }
        ensures lists { All IsOfWorld (map order_of commands.now) → lists_of self.new ≡ lists_of self.old }
        ensures goes_on { TablesGoOn (self.old).world.tables (self.new).world.tables }
        ensures grows { (self.old).compared ≤ (self.new).compared }
    {
        for done in 0..commands.len() {
            if let Err(error) = self.apply_copy(&commands[done]) {
                return Err(ApplyAllError { done, error });
            }
            if self.deliver(output).is_err() {
                return Err(ApplyAllError {
                    done: done + 1,
                    error: SessionError::Memory,
                });
            }
        }
        Ok(())
    }

    /// Carries out a copy of a command.
    fn apply_copy(&mut self, command: &Command<'_, A>) -> Result<Answer, SessionError>
        ensures answers { AnswersApply (answered result) (apply (session_of self.old) (order_of command.now)) self.old
            self.new }
        ensures lists { ListsApply (order_of command.now) result self.old self.new }
        ensures goes_on { TablesGoOn (self.old).world.tables (self.new).world.tables }
        ensures grows { (self.old).compared ≤ (self.new).compared }
    {
        match copy_of(self.alloc(), command) {
            Ok(copy) => self.apply(copy),
            Err(_) => Err(SessionError::Memory),
        }
    }

    /// Appends the lines of the events that wait. Where memory is refused, none of them is written, and the events still
    /// wait.
    fn deliver(&mut self, output: &mut Vec<u8, A>) -> Result<(), AllocError>
        ensures written { OnOk result (output.new.items ≡ output.old.items
            ++ flat_map event_text (events (session_of self.old))) }
        ensures after { OnOk result (session_of self.new ≡ after_events (session_of self.old)) }
        ensures unwritten { OnErr result (output.new.items ≡ output.old.items) }
        ensures refused { OnErr result (self.new ≡ self.old) }
        ensures lists { lists_of self.new ≡ lists_of self.old }
        ensures grows { (self.old).compared ≤ (self.new).compared }
        ensures world { (self.new).world ≡ (self.old).world }
    {
        if !self.has_events() {
            return Ok(());
        }
        let before = output.len();
        let written = self.write_events(output);
        if written.is_err() {
            output.truncate(before);
        }
        written
    }
}

/// A copy of a command. A component's fields are copied; names, texts and values stay where they are.
fn copy_of<'a, A: Allocator + Copy>(
    alloc: A,
    command: &Command<'a, A>,
) -> Result<Command<'a, A>, AllocError>
    ensures { IfOk result (λ copy. order_of copy ≡ order_of command.now) }
{
    Ok(match command {
        Command::New => Command::New,
        Command::Entity { name } => Command::Entity { name: *name },
        Command::Component { name, schema } => Command::Component {
            name: *name,
            schema: copy_of_schema(alloc, schema)?,
        },
        Command::Add { entity, id } => Command::Add {
            entity: *entity,
            id: *id,
        },
        Command::Set { entity, id, values } => Command::Set {
            entity: *entity,
            id: *id,
            values: *values,
        },
        Command::Remove { entity, id } => Command::Remove {
            entity: *entity,
            id: *id,
        },
        Command::Delete { entity } => Command::Delete { entity: *entity },
        Command::Store { kind, name, text } => Command::Store {
            kind: *kind,
            name: *name,
            text: *text,
        },
        Command::Drop { name } => Command::Drop { name: *name },
    })
}

/// A schema with the same fields.
fn copy_of_schema<A: Allocator + Copy>(
    alloc: A,
    schema: &Schema<A>,
) -> Result<Schema<A>, AllocError>
    ensures { IfOk result (λ copy. copy ≡ schema.now) }
{
    let mut fields = Vec::with_capacity(alloc, schema.fields().len())?;
    for field in schema.fields() {
        fields.push((field.name(), field.kind()))?;
    }
    match Schema::new(alloc, fields.as_slice()) {
        Ok(copy) => Ok(copy),
        Err(_) => Err(AllocError),
    }
}
