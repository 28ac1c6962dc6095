//! Commands in a list, carried out at once.

ghost use Rattle.std.specs.Prelude.{◌≤◌, length};

use crate::lines::{new_session, new_session_over};
use ecs_id::EntityId;
use ecs_model::faults::{Refusal, SessionRefusal};
use ecs_model::watches::StoredKind;
use ecs_observe::{ApplyAllError, Command, IdReference, Reference, Session, SessionError};
use ecs_schema::{Kind, Schema};
use refusing_alloc::Refusing;
use std::alloc::{AllocError, Allocator, Global};
use std::hash::RandomState;
use std::process::Abort;
use std::test::Fail;

const HERON: Reference = Reference::Name("Heron");

/// The one without a name. It is made after the component, the tag and the other ship.
const NAMELESS: Reference = Reference::Handle(EntityId {
    index: 67,
    generation: 0,
});

const FUEL: IdReference = IdReference::Plain(Reference::Name("Fuel"));

const DOCKED: IdReference = IdReference::Plain(Reference::Name("Docked"));

/// What the commands of a harbour print.
const PRINTED: &[u8] = b"enter at_sea Heron
set filled Heron Fuel=40
leave at_sea Heron
enter at_sea #67.0
set filled #67.0 Fuel=3
enter at_sea Heron
leave at_sea #67.0
";

/// No run takes as many blocks.
const MOST_GROWTHS: u64 = 2000;

/// What the ships have.
static FULL: [i128; 1] = [40];

static LOW: [i128; 1] = [3];

/// Both are the same bytes.
fn expect_bytes(rt: &impl Abort, written: &[u8], expected: &[u8]) {
    assert!(rt; written == expected);
}

/// Puts a command behind others.
fn put<'a, A: Allocator>(
    commands: &mut Vec<Command<'a, A>, A>,
    command: Command<'a, A>,
) -> Result<(), AllocError> {
    match commands.push(command) {
        Ok(()) => Ok(()),
        Err(_) => Err(AllocError),
    }
}

/// A component and a tag, a ship, and stored queries that are notified of ships.
fn put_stored<A: Allocator + Copy>(
    alloc: A,
    commands: &mut Vec<Command<'static, A>, A>,
) -> Result<(), AllocError> {
    let Ok(schema) = Schema::new(alloc, &[("litres", Kind::U16)]) else {
        return Err(AllocError);
    };
    let name = "Fuel";
    put(commands, Command::Component { name, schema })?;
    put(commands, Command::Entity { name: "Docked" })?;
    put(commands, Command::Entity { name: "Heron" })?;
    let (kind, name, text) = (StoredKind::Monitor, "at_sea", "Fuel, !Docked");
    put(commands, Command::Store { kind, name, text })?;
    let (kind, name, text) = (StoredKind::OnSet, "filled", "Fuel");
    put(commands, Command::Store { kind, name, text })
}

/// What happens to the ships.
fn put_ships<A: Allocator + Copy>(
    commands: &mut Vec<Command<'static, A>, A>,
) -> Result<(), AllocError> {
    let (entity, id, values) = (HERON, FUEL, &FULL);
    put(commands, Command::Set { entity, id, values })?;
    let id = DOCKED;
    put(commands, Command::Add { entity, id })?;
    put(commands, Command::New)?;
    let (entity, id, values) = (NAMELESS, FUEL, &LOW);
    put(commands, Command::Set { entity, id, values })?;
    let (entity, id) = (HERON, DOCKED);
    put(commands, Command::Remove { entity, id })?;
    let entity = NAMELESS;
    put(commands, Command::Delete { entity })?;
    put(commands, Command::Drop { name: "filled" })
}

/// The commands of a harbour.
fn put_harbour<A: Allocator + Copy>(
    alloc: A,
    commands: &mut Vec<Command<'static, A>, A>,
) -> Result<(), AllocError> {
    put_stored(alloc, commands)?;
    put_ships(commands)
}

/// Carries out each command by a call of its own, with its events.
fn apply_each(
    session: &mut Session,
    commands: Vec<Command<'_>>,
    out: &mut Vec<u8>,
) -> Result<(), SessionError> {
    for command in commands {
        session.apply(command)?;
        session.write_events(out)?;
    }
    Ok(())
}

/// They print what is known of them, by one call and by a call for each.
#[test]
fn commands_at_once_are_as_one_after_another(rt: HostRuntime) -> Result<(), Fail> {
    let mut commands = Vec::new(rt.alloc());
    put_harbour(rt.alloc(), &mut commands)?;
    let mut out = Vec::new(rt.alloc());
    let mut session = new_session(&rt)?;
    let done = session.apply_all(commands.as_slice(), &mut out);
    drop(session);
    assert!(rt; done == Ok(()));
    expect_bytes(&rt, out.as_slice(), PRINTED);
    out.clear();
    let mut session = new_session(&rt)?;
    let done = apply_each(&mut session, commands, &mut out);
    drop(session);
    assert!(rt; done == Ok(()));
    expect_bytes(&rt, out.as_slice(), PRINTED);
    Ok(())
}

fn refused(done: usize, refusal: SessionRefusal) -> Result<(), ApplyAllError> {
    let error = SessionError::Refused(refusal);
    Err(ApplyAllError { done, error })
}

/// A second harbour is refused at its first command. Of three commands the second is refused: the first has its events,
/// and the third is not tried.
fn expect_refusals(
    rt: &impl Abort,
    session: &mut Session,
    commands: &[Command<'_>],
    out: &mut Vec<u8>,
) {
    let done = session.apply_all(commands, out);
    assert!(rt; done == Ok(()));
    out.clear();
    let taken = SessionRefusal::OfWorld(Refusal::NameTaken);
    let again = session.apply_all(commands, out);
    assert!(rt; again == refused(0, taken) && out.is_empty());
    let (entity, id) = (HERON, DOCKED);
    let unknown = Reference::Name("Nobody");
    let some = [
        Command::Add { entity, id },
        Command::Delete { entity: unknown },
        Command::Remove { entity, id },
    ];
    let unknown = SessionRefusal::OfWorld(Refusal::UnknownName);
    let stopped = session.apply_all(&some, out);
    assert!(rt; stopped == refused(1, unknown));
    expect_bytes(rt, out.as_slice(), b"leave at_sea Heron\n");
}

/// Events that wait are not lost: the first command is refused for them.
fn expect_pending(rt: &impl Abort, session: &mut Session, out: &mut Vec<u8>) -> Result<(), Fail> {
    let (entity, id) = (HERON, DOCKED);
    session.apply(Command::Remove { entity, id })?;
    out.clear();
    let pending = session.apply_all(&[Command::New, Command::New], out);
    assert!(rt; pending == refused(0, SessionRefusal::EventsPending) && out.is_empty());
    session.write_events(out)?;
    expect_bytes(rt, out.as_slice(), b"enter at_sea Heron\n");
    let none = session.apply_all(&[], out);
    assert!(rt; none == Ok(()));
    Ok(())
}

#[test]
fn commands_stop_at_the_first_refusal(rt: HostRuntime) -> Result<(), Fail> {
    let mut commands = Vec::new(rt.alloc());
    put_harbour(rt.alloc(), &mut commands)?;
    let mut out = Vec::new(rt.alloc());
    let mut session = new_session(&rt)?;
    expect_refusals(&rt, &mut session, commands.as_slice(), &mut out);
    let pending = expect_pending(&rt, &mut session, &mut out);
    drop(session);
    pending
}

/// Goes on where memory was refused: the events that wait are delivered, and then comes the rest.
fn go_on<A: Allocator + Copy>(
    rt: &impl Abort,
    session: &mut Session<A>,
    commands: &[Command<'_, A>],
    stop: ApplyAllError,
    out: &mut Vec<u8, A>,
) -> Result<(), AllocError>
    requires { stop.done ≤ length commands.now }
{
    assert!(rt; stop.error == SessionError::Memory);
    if session.has_events() {
        session.write_events(out)?;
    }
    let rest = session.apply_all(&commands[stop.done..], out);
    assert!(rt; rest == Ok(()));
    Ok(())
}

/// Carries out commands with so many blocks and no more, and answers whether memory was refused. Then it goes on, and
/// what is printed is the same.
fn is_refused<'a>(
    rt: &impl Abort,
    heap: &'a Refusing<Global>,
    session: &mut Session<&'a Refusing<Global>>,
    commands: &[Command<'_, &'a Refusing<Global>>],
    blocks: u64,
) -> Result<bool, AllocError> {
    let mut out = Vec::new(heap);
    heap.refuse_after(blocks);
    let answer = session.apply_all(commands, &mut out);
    heap.refuse_none();
    if let Err(stop) = answer {
        go_on(rt, session, commands, stop, &mut out)?;
    }
    assert!(rt; !session.has_events());
    expect_bytes(rt, out.as_slice(), PRINTED);
    Ok(answer.is_err())
}

#[test]
fn commands_go_on_after_each_growth_was_refused(rt: HostRuntime) -> Result<(), Fail> {
    let random = RandomState::new(&rt)?;
    let heap = Refusing::new(rt.alloc());
    let mut commands = Vec::new(&heap);
    put_harbour(&heap, &mut commands)?;
    let mut refusals = 0;
    for blocks in 0..MOST_GROWTHS {
        let mut session = new_session_over(&heap, random)?;
        let refused = is_refused(&rt, &heap, &mut session, commands.as_slice(), blocks);
        drop(session);
        if !refused? {
            break;
        }
        refusals = blocks + 1;
    }
    drop(commands);
    assert!(rt; refusals > 8 && refusals < MOST_GROWTHS);
    Ok(())
}
