//! Two ships, a kept query and a monitor: a first program with the library.
#![tactic(auto)]

use flecsq_ecs::{Id, Kind, Schema, SchemaError, Session, SessionError, StoredKind};
use std::alloc::{AllocError, Global};
use std::hash::RandomState;
use std::io::{self, Write};
use thiserror::Error;

#[derive(Clone, Copy, Debug, Error)]
enum ShipError {
    #[error(transparent)]
    Schema(#[from] SchemaError),
    #[error(transparent)]
    Session(#[from] SessionError),
    #[error("out of memory")]
    Memory(#[from(alloc)] AllocError),
}

fn sail(alloc: Global, session: &mut Session, out: &mut Vec<u8>) -> Result<(), ShipError> {
    // A component has fields; a tag is an entity that others have.
    let litres = Schema::new(alloc, &[("litres", Kind::U16)])?;
    let fuel = Id::of(session.component("Fuel", litres)?);
    let docked = Id::of(session.entity("Docked")?);

    let heron = session.entity("Heron")?;
    session.set(heron, fuel, &[40])?;
    session.add(heron, docked)?;
    let swift = session.entity("Swift")?;
    session.set(swift, fuel, &[25])?;
    session.add(swift, docked)?;

    // A kept query knows its tables; a monitor notifies of who enters its rows, and who leaves them.
    session.store(StoredKind::Kept, "in_port", "Docked, Fuel")?;
    session.store(StoredKind::Monitor, "at_sea", "Fuel, !Docked")?;
    session.write_kept_rows("in_port", out)?;

    session.remove(heron, docked)?;
    session.write_events(out)?;
    session.set(heron, fuel, &[33])?;
    session.write_events(out)?;
    session.write_kept_rows("in_port", out)?;
    Ok(())
}

fn main(rt: HostRuntime) -> io::Result<()> {
    let mut out = Vec::new(rt.alloc());
    let mut session = Session::new(rt.alloc(), RandomState::new(&rt)?)?;
    let done = sail(rt.alloc(), &mut session, &mut out);
    drop(session);
    match done {
        Ok(()) => rt.stdout().write_all(out.as_slice()),
        Err(error) => println!(rt; "{error}"),
    }
}
