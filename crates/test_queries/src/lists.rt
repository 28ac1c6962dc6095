//! The list of a kept query, brought up to date before and after a command.

ghost use Rattle.std.specs.Prelude.{IfOk};
ghost use Rattle.query_cache.specs.Kept.{Fits};
ghost use Rattle.table_store.specs.Going.{TablesGoOn};

use crate::worlds::{add_all, component, first_at, name_all, new_world};
use ecs_id::Id;
use ecs_model::faults::CommandError;
use ecs_world::World;
use query_cache::Kept;
use query_cache::laws::fits_later;
use query_check::Query;
use std::alloc::{AllocError, Global};
use std::process::Abort;
use std::test::Fail;
use world_query::read_query;

const POSITION: u32 = 64;

const PLANET: u32 = 65;

const HOT: u32 = 66;

const EARTH: u32 = 67;

/// The earth moves to a new table.
fn heat(world: &mut World) -> Result<(), CommandError>
    ensures { TablesGoOn world.old.tables world.new.tables }
{
    drop(world.add(first_at(EARTH), Id::plain(HOT))?);
    Ok(())
}

/// A new list of a query. It fits each world.
fn new_list(alloc: Global, world: &World, query: &Query) -> Result<Kept, AllocError>
    ensures { IfOk result (λ kept. Fits kept world.now.tables) }
{
    Kept::new(alloc, query)
}

/// Brings a list up to date, which has so many tables then.
fn expect_listed(
    rt: &impl Abort,
    alloc: Global,
    world: &World,
    kept: &mut Kept,
    listed: usize,
) -> Result<(), AllocError>
    requires { Fits kept.old world.now.tables }
    ensures { Fits kept.new world.now.tables }
{
    kept.sync(world.graph().store())?;
    let mut tables = Vec::new(alloc);
    kept.push_tables(&mut tables)?;
    assert!(rt; tables.len() == listed);
    Ok(())
}

/// The table that the earth leaves stays in the list.
fn follow(rt: &impl Abort, alloc: Global, world: &mut World, kept: &mut Kept) -> Result<(), Fail>
    requires { Fits kept.old world.old.tables }
{
    expect_listed(rt, alloc, world, kept, 1)?;
    heat(world)?;
    fits_later();
    expect_listed(rt, alloc, world, kept, 2)?;
    Ok(())
}

fn follow_query(
    rt: &impl Abort,
    alloc: Global,
    world: &mut World,
    query: &Query,
) -> Result<(), Fail> {
    let mut kept = new_list(alloc, world, query)?;
    let done = follow(rt, alloc, world, &mut kept);
    drop(kept);
    done
}

fn follow_text(rt: &impl Abort, alloc: Global, world: &mut World) -> Result<(), Fail> {
    component(alloc, world, "Position")?;
    name_all(world, &["Planet", "Hot", "Earth"])?;
    add_all(world, &[(EARTH, POSITION, None), (EARTH, PLANET, None)])?;
    let query = read_query(alloc, world, "Position, Planet")?;
    let done = follow_query(rt, alloc, world, &query);
    drop(query);
    done
}

#[test]
fn a_kept_list_follows_its_world(rt: HostRuntime) -> Result<(), Fail> {
    let mut world = new_world(&rt)?;
    let done = follow_text(&rt, rt.alloc(), &mut world);
    drop(world);
    done
}
