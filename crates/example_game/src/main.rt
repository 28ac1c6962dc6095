//! A harbour, as a game on a session: a monitor notifies of ships that put to sea, a kept query is asked each turn, and
//! the rows of another query are pulled one at a time, with their values, or gone over table by table, frame after
//! frame.
//!
//! It has no proof of its own: what its contracts say follows from those of the calls.
#![tactic(auto)]

ghost use Rattle.std.specs.Prelude.{◌≡◌, codes};
ghost use Rattle.flecsq_ecs.specs.Answers.{AnswersRows};
ghost use Rattle.flecsq_ecs.specs.Standing.{session_of};
ghost use Rattle.example_game.specs.Litres.{litres_in};

use flecsq_ecs::{
    Asked, Chunk, Chunks, Column, Event, Id, Kind, QueryFault, Rows, Schema, SchemaError, Session,
    SessionError, StoredKind, WorldView, has_chunks, write_event,
};
use std::alloc::{AllocError, Global};
use std::hash::RandomState;
use std::io::{self, Write};
use thiserror::Error;

/// How often the game goes over its ships.
const FRAMES: u32 = 60;

const SHIPS: [&str; 3] = ["Heron", "Petrel", "Swift"];

/// Why the game ends early.
#[derive(Clone, Copy, Debug, Error)]
enum GameError {
    #[error(transparent)]
    Schema(#[from] SchemaError),
    #[error(transparent)]
    Session(#[from] SessionError),
    #[error("no query: {0}")]
    Query(#[from] QueryFault),
    #[error("out of memory")]
    Memory(#[from(alloc)] AllocError),
}

/// What a ship holds.
#[derive(Clone, Copy)]
struct ShipIds {
    fuel: Id,
    docked: Id,
}

/// Three docked ships with 40 litres each, a query of those that are docked, and a monitor of those that aren't.
fn begin(alloc: Global, session: &mut Session) -> Result<ShipIds, GameError> {
    let litres = Schema::new(alloc, &[("litres", Kind::U16)])?;
    let fuel = Id::of(session.component("Fuel", litres)?);
    let docked = Id::of(session.entity("Docked")?);
    for name in &SHIPS {
        let ship = session.entity(name)?;
        session.set(ship, fuel, &[40])?;
        session.add(ship, docked)?;
    }
    session.store(StoredKind::Kept, "docked", "Docked, Fuel")?;
    session.store(StoredKind::Monitor, "at_sea", "Fuel, !Docked")?;
    Ok(ShipIds { fuel, docked })
}

fn write_events(told: &[Event], out: &mut Vec<u8>) -> Result<(), AllocError> {
    for event in told {
        write_event(event, out)?;
    }
    Ok(())
}

/// Prints the monitor's events of the last command.
fn tell_events(session: &mut Session, out: &mut Vec<u8>) -> Result<(), AllocError> {
    let told = session.events()?;
    let written = write_events(told.as_slice(), out);
    drop(told);
    written
}

/// A ship puts to sea, and has so many litres left.
fn put_to_sea(
    session: &mut Session,
    ids: ShipIds,
    name: &str,
    litres: i128,
    out: &mut Vec<u8>,
) -> Result<(), GameError> {
    if let Some(ship) = session.world().find(name) {
        session.remove(ship, ids.docked)?;
        tell_events(session, out)?;
        session.set(ship, ids.fuel, &[litres])?;
        tell_events(session, out)?;
    }
    Ok(())
}

/// Prints the ships that are docked: exactly the rows of the kept query, or why there are none. It answers how many
/// probes that took.
fn show_docked(session: &mut Session, out: &mut Vec<u8>) -> Result<Option<u64>, SessionError>
    ensures { AnswersRows result (session_of session.old) (codes "docked") out.old.items out.new.items }
{
    session.write_kept_rows("docked", out)
}

/// The litres of a row's ship: the value of the fact that its first field shows.
fn litres_of(rows: &Rows<'_, Global>) -> Option<i128>
    ensures { result ≡ litres_in (rows.now).row }
{
    rows.field(0)?.value?.number(0)
}

/// The litres of the ships of all rows to come.
fn litres_to_come(rows: &mut Rows<'_, Global>) -> u64 {
    let mut litres: u64 = 0;
    for _ in 0..u64::MAX {
        if !rows.next() {
            break;
        }
        let held = litres_of(rows).and_then(|number| u64::try_from(number).ok());
        litres = litres.saturating_add(held.unwrap_or(0));
    }
    litres
}

/// The litres of all ships, row by row. Pulling the rows takes no memory, and the query is given back for the next
/// turn.
fn litres_by_row(session: &Session, asked: Asked) -> (Asked, u64) {
    let view = WorldView::new(session.world());
    if !asked.is_current(&view) || !asked.covers(&view) {
        return (asked, 0);
    }
    let mut rows = asked.rows(&view);
    let litres = litres_to_come(&mut rows);
    (rows.into_asked(), litres)
}

/// The litres of the ships of one table. Their values stand one after another, of two bytes each.
fn litres_of_table(ships: &Chunk<'_>) -> u64 {
    let Some(Column::Values(_, _, bytes)) = ships.column(0) else {
        return 0;
    };
    let mut litres: u64 = 0;
    for value in bytes.chunks_exact(2) {
        if let [low, high] = value {
            let held = u16::from_le_bytes([*low, *high]);
            litres = litres.saturating_add(u64::from(held));
        }
    }
    litres
}

/// The litres of all ships, table by table. It takes no memory.
fn litres_by_table(session: &Session, asked: &Asked) -> u64 {
    if !has_chunks(asked.query()) {
        return 0;
    }
    let mut litres: u64 = 0;
    let mut tables = Chunks::start(session.world(), asked.query());
    for _ in 0..u64::MAX {
        let Some(ships) = tables.next_chunk() else {
            break;
        };
        litres = litres.saturating_add(litres_of_table(&ships));
    }
    litres
}

/// The litres that are seen where all ships are gone over in each frame.
fn litres_in_frames(session: &Session, asked: &Asked) -> u64 {
    let mut litres: u64 = 0;
    for _ in 0..FRAMES {
        litres = litres.saturating_add(litres_by_table(session, asked));
    }
    litres
}

/// Two turns, with a ship that puts to sea between them, and at the end how many litres they counted.
fn play(alloc: Global, session: &mut Session, out: &mut Vec<u8>) -> Result<(), GameError> {
    let ids = begin(alloc, session)?;
    tell_events(session, out)?;
    show_docked(session, out)?;
    let fuel = Asked::new(alloc, &WorldView::new(session.world()), "Fuel")?;
    let (fuel, before) = litres_by_row(session, fuel);
    let sailed = put_to_sea(session, ids, "Petrel", 33, out);
    let in_frames = litres_in_frames(session, &fuel);
    let (fuel, after) = litres_by_row(session, fuel);
    drop(fuel);
    sailed?;
    show_docked(session, out)?;
    let line = format!(in alloc;
        "{before} litres, then {after}; {in_frames} in {FRAMES} frames\n"
    )?;
    out.extend_from_slice(line.as_bytes())?;
    Ok(())
}

fn main(rt: HostRuntime) -> io::Result<()> {
    let mut out = Vec::new(rt.alloc());
    let mut session = Session::new(rt.alloc(), RandomState::new(&rt)?)?;
    let done = play(rt.alloc(), &mut session, &mut out);
    drop(session);
    match done {
        Ok(()) => rt.stdout().write_all(out.as_slice()),
        Err(error) => println!(rt; "{error}"),
    }
}
