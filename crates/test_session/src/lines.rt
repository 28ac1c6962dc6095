//! Lines of scripts, as calls of a session.

ghost use Rattle.std.specs.Prelude.{IfOk};
ghost use Rattle.ecs_id.specs.Id.{IsIndex};

use ecs_id::{EntityId, Id, LAST_INDEX};
use ecs_model::faults::{Refusal, SessionRefusal};
use ecs_model::watches::StoredKind;
use ecs_observe::{Command, Event, IdReference, Reference, Session, SessionError, write_event};
use ecs_print::write_handle_line;
use ecs_schema::{Kind, Schema};
use std::alloc::{AllocError, Allocator};
use std::hash::RandomState;
use std::test::Fail;

/// What an id names, by the indexes of the entities.
#[derive(Clone, Copy)]
pub(crate) enum Named {
    Plain(u32),
    Pair(u32, u32),
}

/// A line of a script. Who gets or loses a fact, or is deleted, is the first entity of an index.
#[derive(Clone, Copy)]
pub(crate) enum Line {
    Component(&'static str, &'static [(&'static str, Kind)]),
    Entity(&'static str),
    Fresh,
    Add(u32, Named),
    Set(u32, Named, &'static [i128]),
    Remove(u32, Named),
    Delete(u32),
    Store(StoredKind, &'static str, &'static str),
    Drop(&'static str),
    Rows(&'static str),
    /// In no script: a fact comes, whose entity and tag are named.
    AddNamed(&'static str, &'static str),
    /// In no script: the list of a kept query is brought up to date.
    Sync(&'static str),
    /// In no script, but after each of its lines: the events that wait are delivered.
    Events,
    /// In no script, but before one: a session is made.
    New,
}

/// What a session answers to a line.
pub(crate) type Answer = Result<Option<EntityId>, SessionError>;

/// A session without facts of its own, over a heap. Whoever has it hands it on to what may fail, and drops it by a call
/// in one place.
pub(crate) fn new_session_over<A: Allocator + Copy>(
    heap: A,
    random: RandomState,
) -> Result<Session<A>, AllocError> {
    Session::new(heap, random)
}

/// One over the heap of a test.
pub(crate) fn new_session(rt: &HostRuntime) -> Result<Session, Fail> {
    let random = RandomState::new(rt)?;
    Ok(new_session_over(rt.alloc(), random)?)
}

pub(crate) fn first_at(index: u32) -> EntityId {
    EntityId {
        index,
        generation: 0,
    }
}

/// An index that an entity can have. At any other there is no live one.
fn index_in_range(index: u32) -> Result<u32, SessionError>
    ensures { IfOk result IsIndex }
{
    if index == 0 || index > LAST_INDEX {
        let dead = SessionRefusal::OfWorld(Refusal::Dead);
        return Err(SessionError::Refused(dead));
    }
    Ok(index)
}

fn id_of(named: Named) -> Result<Id, SessionError> {
    match named {
        Named::Plain(index) => {
            let index = index_in_range(index)?;
            Ok(Id::plain(index))
        }
        Named::Pair(relationship, target) => {
            let relationship = index_in_range(relationship)?;
            let target = index_in_range(target)?;
            Ok(Id::pair(relationship, target))
        }
    }
}

fn write_events<A: Allocator>(told: &[Event<A>], out: &mut Vec<u8, A>) -> Result<(), AllocError> {
    for event in told {
        write_event(event, out)?;
    }
    Ok(())
}

/// The events that wait are delivered.
fn deliver<A: Allocator + Copy>(session: &mut Session<A>, out: &mut Vec<u8, A>) -> Answer {
    let told = session.events()?;
    let written = write_events(told.as_slice(), out);
    drop(told);
    written?;
    Ok(None)
}

fn make_component<A: Allocator + Copy>(
    session: &mut Session<A>,
    alloc: A,
    name: &str,
    fields: &[(&str, Kind)],
) -> Answer {
    match Schema::new(alloc, fields) {
        Ok(schema) => made(session.component(name, schema)),
        Err(_) => Err(SessionError::Memory),
    }
}

/// A fact comes, whose entity and tag are named.
fn add_named<A: Allocator + Copy>(session: &mut Session<A>, entity: &str, tag: &str) -> Answer {
    let entity = Reference::Name(entity);
    let id = IdReference::Plain(Reference::Name(tag));
    session.apply(Command::Add { entity, id })?;
    Ok(None)
}

fn write_rows<A: Allocator + Copy>(
    session: &mut Session<A>,
    name: &str,
    out: &mut Vec<u8, A>,
) -> Answer {
    session.write_kept_rows(name, out)?;
    Ok(None)
}

fn sync<A: Allocator + Copy>(session: &mut Session<A>, name: &str) -> Answer {
    session.sync_kept(name)?;
    Ok(None)
}

fn made(answer: Result<EntityId, SessionError>) -> Answer {
    Ok(Some(answer?))
}

fn done(answer: Result<(), SessionError>) -> Answer {
    answer?;
    Ok(None)
}

/// Carries out a line. Rows and events are written after what was written.
pub(crate) fn carry_out<A: Allocator + Copy>(
    session: &mut Session<A>,
    alloc: A,
    line: Line,
    out: &mut Vec<u8, A>,
) -> Answer {
    match line {
        Line::New => Ok(None),
        Line::Component(name, fields) => make_component(session, alloc, name, fields),
        Line::Entity(name) => made(session.entity(name)),
        Line::Fresh => made(session.fresh()),
        Line::Add(entity, named) => done(session.add(first_at(entity), id_of(named)?)),
        Line::Set(entity, named, values) => {
            done(session.set(first_at(entity), id_of(named)?, values))
        }
        Line::Remove(entity, named) => done(session.remove(first_at(entity), id_of(named)?)),
        Line::Delete(entity) => done(session.delete(first_at(entity))),
        Line::Store(kind, name, text) => done(session.store(kind, name, text)),
        Line::Drop(name) => done(session.drop_stored(name)),
        Line::Rows(name) => write_rows(session, name, out),
        Line::AddNamed(entity, tag) => add_named(session, entity, tag),
        Line::Sync(name) => sync(session, name),
        Line::Events => deliver(session, out),
    }
}

/// Writes of an answer a new entity that has no name, or why a line is refused.
pub(crate) fn print_answer<A: Allocator + Copy>(
    alloc: A,
    line: Line,
    answer: Answer,
    out: &mut Vec<u8, A>,
) -> Result<(), AllocError> {
    match (line, answer) {
        (Line::Fresh, Ok(Some(born))) => write_handle_line(born, out),
        (_, Ok(_)) => Ok(()),
        (_, Err(SessionError::Refused(refusal))) => print_refusal(alloc, refusal, out),
        (_, Err(SessionError::Memory)) => Err(AllocError),
    }
}

fn print_refusal<A: Allocator + Copy>(
    alloc: A,
    refusal: SessionRefusal,
    out: &mut Vec<u8, A>,
) -> Result<(), AllocError> {
    let text = format!(in alloc; "error {refusal:?}\n")?;
    let written = out.extend_from_slice(text.as_bytes());
    drop(text);
    written
}

/// Carries out lines with ample memory, and writes what they print.
pub(crate) fn print_lines<A: Allocator + Copy>(
    session: &mut Session<A>,
    alloc: A,
    lines: &[Line],
    out: &mut Vec<u8, A>,
) -> Result<(), AllocError> {
    for line in lines {
        let answer = carry_out(session, alloc, *line, out);
        print_answer(alloc, *line, answer, out)?;
    }
    Ok(())
}

/// Lines, with the events after each.
pub(crate) fn with_events<A: Allocator>(
    alloc: A,
    lines: &[Line],
) -> Result<Vec<Line, A>, AllocError> {
    let mut all = Vec::new(alloc);
    for line in lines {
        all.push(*line)?;
        all.push(Line::Events)?;
    }
    Ok(all)
}
