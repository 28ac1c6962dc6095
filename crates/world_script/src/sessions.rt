//! What a session does with a line.
ghost use Rattle.std.specs.Prelude.{◌≡◌, map, IfSome, None, OnOk};
ghost use Rattle.ecs_model.specs.Text.{words};
ghost use Rattle.ecs_model.specs.Orders.{MakeFresh, MakeEntity, AddTo, SetIn, RemoveFrom, DeleteOne};
ghost use Rattle.ecs_model.specs.Script.{CarryOut, Define, Show, Ask, AskKept, entity_line, form_of, one_word};
ghost use Rattle.ecs_model.specs.stored.Session.{Drop, InWorld, Store};
ghost use Rattle.script_line.specs.Line.{deed_form, deed_line, form_opened, seen, seen_deed, seen_field};
ghost use Rattle.ecs_model.specs.References.{seen_reference};
ghost use Rattle.world_script.specs.Run.{DoesLine, Obeys, ObeysFound, unsent};

use crate::interpreters::Interpreter;
use crate::showing::show_entity;
use crate::telling::{refuse, refuse_in_world, refuse_query, schema_fault_word, tell_error};
use bumpalo::Bump;
use ecs_id::{EntityId, Id};
use ecs_model::Kind;
use ecs_model::watches::StoredKind;
use ecs_observe::{SendRowsError, SessionError, find_both, find_entity};
use ecs_schema::{Schema, SchemaError};
use query_model::faults::QueryFault;
use script_line::{
    Deed, Fact, Line, Opening, Reference, fact_behind, line_opened, only_entity, only_word,
    read_opened,
};
use script_streams::Sink;
use std::alloc::{AllocError, Allocator};
use world_query::{QUERY_ROOM, SendError, read_query, send_rows};

impl<A: Allocator + Copy> Interpreter<A> {
    /// Does what a line says, adds what it prints to the output, and answers whether it was refused.
    pub(crate) fn run_line<W: Sink>(
        &mut self,
        line: &[u8],
        most: usize,
        writer: &mut W,
    ) -> Result<bool, SendError>
        requires none_wait { self.old.session.waiting ≡ None }
        ensures does { DoesLine (form_of line.now) self.old self.new W.contents W.calls writer.old writer.new most
            result }
        ensures none_wait { OnOk result (self.new.session.waiting ≡ None) }
    {
        self.run_opened(line_opened(line), most, writer)
    }

    /// Does what a line says whose first word was read.
    // The forms of most lines are run where they are read: what was read needn't go through memory then.
    #[inline(always)]
    fn run_opened<W: Sink>(
        &mut self,
        opening: Opening<'_>,
        most: usize,
        writer: &mut W,
    ) -> Result<bool, SendError>
        requires none_wait { self.old.session.waiting ≡ None }
        ensures { DoesLine (form_opened opening.entry) self.old self.new W.contents W.calls writer.old writer.new most
            result }
    {
        match fact_line_in(opening) {
            Some((deed, rest)) => unsent(self.run_fact_line(deed, rest)),
            None => self.run_other(opening, most, writer),
        }
    }

    /// Does what a line says whose first word was read, and is for most lines about no fact.
    #[inline(always)]
    fn run_other<W: Sink>(
        &mut self,
        opening: Opening<'_>,
        most: usize,
        writer: &mut W,
    ) -> Result<bool, SendError>
        requires none_wait { self.old.session.waiting ≡ None }
        ensures { DoesLine (form_opened opening.entry) self.old self.new W.contents W.calls writer.old writer.new most
            result }
    {
        match opening {
            Opening::Entity { rest } => unsent(self.run_entity_line(rest)),
            Opening::Rows { rest } => self.run_rows_line(rest, most, writer),
            Opening::Delete { rest } => unsent(self.run_delete_line(rest)),
            Opening::New => unsent(self.run_new()),
            _ => self.run_rarer(opening, most, writer),
        }
    }

    /// Does what any line says whose first word was read.
    #[cold]
    #[inline(never)]
    fn run_rarer<W: Sink>(
        &mut self,
        opening: Opening<'_>,
        most: usize,
        writer: &mut W,
    ) -> Result<bool, SendError>
        requires none_wait { self.old.session.waiting ≡ None }
        ensures { DoesLine (form_opened opening.entry) self.old self.new W.contents W.calls writer.old writer.new most
            result }
    {
        let form = read_opened(*self.output.allocator(), opening, &mut self.values)?;
        self.run_form(form, most, writer)
    }

    /// A line after its `set`, `add` or `remove`.
    // One way for the three: the code that reads an entity and an id, and finds them, stands once then.
    #[inline(always)]
    fn run_fact_line(&mut self, deed: Deed, rest: &str) -> Result<bool, AllocError>
        requires none_wait { self.old.session.waiting ≡ None }
        ensures { Obeys (deed_line deed rest.now) self.old self.new result }
    {
        match fact_behind(deed, rest, &mut self.values)? {
            Some(fact) => self.run_fact(deed, fact),
            None => refuse(self.number, "BadLine", &mut self.output),
        }
    }

    /// Does a deed with a fact that was read.
    #[inline(always)]
    fn run_fact(&mut self, deed: Deed, fact: Fact<'_>) -> Result<bool, AllocError>
        requires none_wait { self.old.session.waiting ≡ None }
        ensures { Obeys (seen_deed deed self.old.values.items fact.entry) self.old self.new result }
    {
        match find_both(self.session.world(), fact.entity, fact.id) {
            Err(refusal) => refuse_in_world(self.number, refusal, &mut self.output),
            Ok(both) => self.do_found(deed, both.0, both.1),
        }
    }

    /// Does a deed with an entity and an id that were found.
    #[inline(always)]
    fn do_found(&mut self, deed: Deed, entity: EntityId, id: Id) -> Result<bool, AllocError>
        ensures { ObeysFound (λ r i. deed_form deed r i self.old.values.items) (entity, id) self.old self.new result }
    {
        match deed {
            Deed::Set => self.set_found(entity, id),
            Deed::Add => self.add_found(entity, id),
            Deed::Remove => self.remove_found(entity, id),
        }
    }

    /// A line after its `entity`.
    #[inline(always)]
    fn run_entity_line(&mut self, rest: &str) -> Result<bool, AllocError>
        ensures { Obeys (one_word (λ n. CarryOut (InWorld (MakeEntity n))) (words rest.now)) self.old self.new result }
    {
        match only_word(rest) {
            Some(name) => self.run_entity(name),
            None => refuse(self.number, "BadLine", &mut self.output),
        }
    }

    /// A line after its `delete`.
    #[cold]
    #[inline(never)]
    fn run_delete_line(&mut self, rest: &str) -> Result<bool, AllocError>
        requires none_wait { self.old.session.waiting ≡ None }
        ensures { Obeys (entity_line (λ r. CarryOut (InWorld (DeleteOne r))) rest.now) self.old self.new result }
    {
        match only_entity(rest) {
            Some(entity) => self.run_delete(entity),
            None => refuse(self.number, "BadLine", &mut self.output),
        }
    }

    /// A line after its `rows`.
    #[cold]
    #[inline(never)]
    fn run_rows_line<W: Sink>(
        &mut self,
        rest: &str,
        most: usize,
        writer: &mut W,
    ) -> Result<bool, SendError>
        ensures { DoesLine (one_word AskKept (words rest.now)) self.old self.new W.contents W.calls writer.old
            writer.new most result }
    {
        match only_word(rest) {
            Some(name) => self.run_rows(name, most, writer),
            None => unsent(refuse(self.number, "BadLine", &mut self.output)),
        }
    }

    /// Does what a line that was read says, with the values of a `set`.
    #[inline(always)]
    fn run_form<W: Sink>(
        &mut self,
        line: Line<'_, A>,
        most: usize,
        writer: &mut W,
    ) -> Result<bool, SendError>
        requires none_wait { self.old.session.waiting ≡ None }
        ensures { DoesLine (seen self.old.values.items line.entry) self.old self.new W.contents W.calls writer.old
            writer.new most result }
    {
        match line {
            Line::Nothing => Ok(false),
            Line::TooLong => unsent(refuse(self.number, "LineTooLong", &mut self.output)),
            Line::Bad => unsent(refuse(self.number, "BadLine", &mut self.output)),
            Line::New => unsent(self.run_new()),
            Line::Entity { name } => unsent(self.run_entity(name)),
            Line::Component { name, fields } => unsent(self.run_component(name, fields.as_slice())),
            Line::Add { entity, id } => unsent(self.run_fact(Deed::Add, Fact { entity, id })),
            Line::Set { entity, id } => unsent(self.run_fact(Deed::Set, Fact { entity, id })),
            Line::Remove { entity, id } => unsent(self.run_fact(Deed::Remove, Fact { entity, id })),
            Line::Delete { entity } => unsent(self.run_delete(entity)),
            Line::Show { entity } => unsent(self.run_show(entity)),
            Line::Query { text } => self.run_query(text, most, writer),
            Line::Store { kind, name, text } => unsent(self.run_store(kind, name, text)),
            Line::Rows { name } => self.run_rows(name, most, writer),
            Line::Drop { name } => unsent(self.run_drop(name)),
        }
    }

    /// `new`
    #[cold]
    #[inline(never)]
    fn run_new(&mut self) -> Result<bool, AllocError>
        ensures { Obeys (CarryOut (InWorld MakeFresh)) self.old self.new result }
    {
        let answer = self.session.fresh();
        self.tell_born(answer)
    }

    /// `entity N`
    fn run_entity(&mut self, name: &str) -> Result<bool, AllocError>
        ensures { Obeys (CarryOut (InWorld (MakeEntity name.now))) self.old self.new result }
    {
        let answer = self.session.entity(name);
        self.tell_answer(answer)
    }

    /// `component N f:kind ..`
    fn run_component(&mut self, name: &str, fields: &[(&str, Kind)]) -> Result<bool, AllocError>
        ensures { Obeys (Define name.now (map seen_field fields.now)) self.old self.new result }
    {
        match Schema::new(*self.output.allocator(), fields) {
            Ok(schema) => {
                let answer = self.session.component(name, schema);
                self.tell_answer(answer)
            }
            Err(SchemaError::Fault(fault)) => {
                refuse(self.number, schema_fault_word(fault), &mut self.output)
            }
            Err(SchemaError::Memory) => Err(AllocError),
        }
    }

    /// `add` of an entity and an id that were found.
    #[inline(never)]
    fn add_found(&mut self, entity: EntityId, id: Id) -> Result<bool, AllocError>
        ensures { ObeysFound (λ r i. CarryOut (InWorld (AddTo r i))) (entity, id) self.old self.new result }
    {
        let answer = self.session.add(entity, id);
        self.tell_answer(answer)
    }

    /// `set` of an entity and an id that were found.
    #[inline(never)]
    fn set_found(&mut self, entity: EntityId, id: Id) -> Result<bool, AllocError>
        ensures { ObeysFound (λ r i. CarryOut (InWorld (SetIn r i self.old.values.items))) (entity, id)
            self.old self.new result }
    {
        let answer = self.session.set(entity, id, self.values.as_slice());
        self.tell_answer(answer)
    }

    /// `remove` of an entity and an id that were found.
    #[inline(never)]
    fn remove_found(&mut self, entity: EntityId, id: Id) -> Result<bool, AllocError>
        ensures { ObeysFound (λ r i. CarryOut (InWorld (RemoveFrom r i))) (entity, id) self.old self.new result }
    {
        let answer = self.session.remove(entity, id);
        self.tell_answer(answer)
    }

    /// `delete E`
    fn run_delete(&mut self, entity: Reference<'_>) -> Result<bool, AllocError>
        requires none_wait { self.old.session.waiting ≡ None }
        ensures { Obeys (CarryOut (InWorld (DeleteOne (seen_reference entity.entry)))) self.old self.new result }
    {
        match find_entity(self.session.world(), entity) {
            Err(refusal) => refuse_in_world(self.number, refusal, &mut self.output),
            Ok(found) => {
                let answer = self.session.delete(found);
                self.tell_answer(answer)
            }
        }
    }

    /// `show E`
    fn run_show(&mut self, entity: Reference<'_>) -> Result<bool, AllocError>
        ensures { Obeys (Show (seen_reference entity.entry)) self.old self.new result }
    {
        let world = self.session.world();
        match find_entity(world, entity) {
            Err(refusal) => refuse_in_world(self.number, refusal, &mut self.output),
            Ok(found) => {
                show_entity(world, found, &mut self.output)?;
                Ok(false)
            }
        }
    }

    /// `query TEXT`
    fn run_query<W: Sink>(
        &mut self,
        text: &str,
        most: usize,
        writer: &mut W,
    ) -> Result<bool, SendError>
        ensures { DoesLine (Ask text.now) self.old self.new W.contents W.calls writer.old writer.new most result }
    {
        let world = self.session.world();
        let room = Bump::try_with_capacity(*self.output.allocator(), QUERY_ROOM)?;
        let query = match read_query(&room, world, text) {
            Ok(query) => query,
            Err(QueryFault::Fault(fault)) => {
                return unsent(refuse_query(self.number, fault, &mut self.output));
            }
            Err(QueryFault::Memory) => return Err(SendError::Memory),
        };
        send_rows(&room, world, query, &mut self.output, most, writer)?;
        Ok(false)
    }

    /// `keep N TEXT`, `monitor N TEXT` and `on EVENT N TEXT`
    fn run_store(&mut self, kind: StoredKind, name: &str, text: &str) -> Result<bool, AllocError>
        ensures { Obeys (CarryOut (Store kind name.now text.now)) self.old self.new result }
    {
        let answer = self.session.store(kind, name, text);
        self.tell_answer(answer)
    }

    /// `rows N`
    fn run_rows<W: Sink>(
        &mut self,
        name: &str,
        most: usize,
        writer: &mut W,
    ) -> Result<bool, SendError>
        ensures { DoesLine (AskKept name.now) self.old self.new W.contents W.calls writer.old writer.new most result }
    {
        match self
            .session
            .send_kept_rows(name, &mut self.output, most, writer)
        {
            Ok(_) => Ok(false),
            Err(SendRowsError::Refused(reason)) => {
                unsent(tell_error(self.number, SessionError::Refused(reason), &mut self.output))
            }
            Err(SendRowsError::Unsent(error)) => Err(error),
        }
    }

    /// `drop N`
    fn run_drop(&mut self, name: &str) -> Result<bool, AllocError>
        ensures { Obeys (CarryOut (Drop name.now)) self.old self.new result }
    {
        let answer = self.session.drop_stored(name);
        self.tell_answer(answer)
    }
}

/// What a line does with a fact, if its first word says so, and what stands after that.
#[inline(always)]
fn fact_line_in(opening: Opening<'_>) -> Option<(Deed, &str)>
    ensures { IfSome result (λ p. form_opened opening.entry ≡ deed_line p.0 p.1.now) }
{
    match opening {
        Opening::Set { rest } => Some((Deed::Set, rest)),
        Opening::Add { rest } => Some((Deed::Add, rest)),
        Opening::Remove { rest } => Some((Deed::Remove, rest)),
        _ => None,
    }
}

/// The answer of a line that sends nothing.
#[inline(always)]
fn unsent(answer: Result<bool, AllocError>) -> Result<bool, SendError>
    ensures { result ≡ unsent answer }
{
    match answer {
        Ok(is_refused) => Ok(is_refused),
        Err(_) => Err(SendError::Memory),
    }
}
