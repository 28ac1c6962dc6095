//! Commands as values, with entities by name and by handle.

use crate::lines::{first_at, new_session};
use ecs_id::EntityId;
use ecs_model::faults::{Refusal, SessionRefusal};
use ecs_model::watches::StoredKind;
use ecs_observe::{Answer, Command, IdReference, Reference, Session, SessionError};
use ecs_schema::{Kind, Schema};
use std::alloc::Global;
use std::process::Abort;
use std::test::Fail;

const SUN: Reference = Reference::Name("Sun");

const NOBODY: Reference = Reference::Name("Nobody");

const POSITION: IdReference = IdReference::Plain(Reference::Name("Position"));

const CHILD_OF_SUN: IdReference = IdReference::Pair {
    relationship: Reference::Name("ChildOf"),
    target: SUN,
};

/// The entity that is made after the component and the sun.
const THIRD: u32 = 66;

const FIRST: Reference = Reference::Handle(EntityId {
    index: THIRD,
    generation: 0,
});

/// The one that is made after that one was deleted.
const AGAIN: EntityId = EntityId {
    index: THIRD,
    generation: 1,
};

/// Facts with a name of no entity, or a dead handle: where a fact has both, Dead is answered.
static REFUSED: [(Reference, IdReference, Refusal); 4] = [
    (NOBODY, POSITION, Refusal::UnknownName),
    (SUN, IdReference::Plain(NOBODY), Refusal::UnknownName),
    (FIRST, POSITION, Refusal::Dead),
    (NOBODY, IdReference::Plain(FIRST), Refusal::Dead),
];

fn refused(refusal: Refusal) -> Result<Answer, SessionError> {
    Err(SessionError::Refused(SessionRefusal::OfWorld(refusal)))
}

fn expect(
    rt: &impl Abort,
    session: &mut Session,
    command: Command<'_>,
    answer: Result<Answer, SessionError>,
) {
    assert!(rt; session.apply(command) == answer);
}

fn expect_done(rt: &impl Abort, session: &mut Session, command: Command<'_>) {
    expect(rt, session, command, Ok(Answer::Done));
}

fn expect_born(rt: &impl Abort, session: &mut Session, command: Command<'_>, born: EntityId) {
    expect(rt, session, command, Ok(Answer::Born(born)));
}

fn add(entity: Reference<'static>, id: IdReference<'static>) -> Command<'static> {
    Command::Add { entity, id }
}

/// A component, the sun with a value, and its child, which goes.
fn expect_facts(rt: &impl Abort, alloc: Global, session: &mut Session) -> Result<(), Fail> {
    let schema = Schema::new(alloc, &[("x", Kind::I32)])?;
    let name = "Position";
    expect_born(
        rt,
        session,
        Command::Component { name, schema },
        first_at(64),
    );
    expect_born(rt, session, Command::Entity { name: "Sun" }, first_at(65));
    expect_born(rt, session, Command::New, first_at(THIRD));
    let (entity, id) = (SUN, POSITION);
    let values = &[3];
    expect_done(rt, session, Command::Set { entity, id, values });
    expect_done(rt, session, add(FIRST, CHILD_OF_SUN));
    let (entity, id) = (FIRST, CHILD_OF_SUN);
    expect_done(rt, session, Command::Remove { entity, id });
    expect_done(rt, session, Command::Delete { entity });
    Ok(())
}

/// Who died stays dead when another comes to the index.
fn expect_refusals(rt: &impl Abort, session: &mut Session) {
    expect_born(rt, session, Command::New, AGAIN);
    for (entity, id, refusal) in &REFUSED {
        expect(rt, session, add(*entity, *id), refused(*refusal));
    }
    let delete = Command::Delete { entity: FIRST };
    expect(rt, session, delete, refused(Refusal::Dead));
    let delete = Command::Delete { entity: NOBODY };
    expect(rt, session, delete, refused(Refusal::UnknownName));
}

/// While events wait, each command is refused; once they were delivered, it is carried out.
fn expect_watched(rt: &impl Abort, session: &mut Session) -> Result<(), Fail> {
    let (kind, name, text) = (StoredKind::Monitor, "a", "Position");
    expect_done(rt, session, Command::Store { kind, name, text });
    expect_done(rt, session, add(Reference::Handle(AGAIN), POSITION));
    let pending = Err(SessionError::Refused(SessionRefusal::EventsPending));
    expect(
        rt,
        session,
        add(Reference::Handle(AGAIN), CHILD_OF_SUN),
        pending,
    );
    let told = session.events()?;
    assert!(rt; told.len() == 1);
    drop(told);
    expect_done(rt, session, add(Reference::Handle(AGAIN), CHILD_OF_SUN));
    drop(session.events()?);
    expect_done(rt, session, Command::Drop { name });
    Ok(())
}

/// Entities are named by names and by handles, in commands and where events wait.
fn expect_named(rt: &impl Abort, alloc: Global, session: &mut Session) -> Result<(), Fail> {
    expect_facts(rt, alloc, session)?;
    expect_refusals(rt, session);
    expect_watched(rt, session)
}

#[test]
fn commands_name_entities(rt: HostRuntime) -> Result<(), Fail> {
    let mut session = new_session(&rt)?;
    let done = expect_named(&rt, rt.alloc(), &mut session);
    drop(session);
    done
}
