//! Carries out many commands on a world, and prints two numbers that they have led to.

use crate::{relations, values};
use ecs_id::{EntityId, Id};
use ecs_model::faults::CommandError;
use ecs_schema::SchemaError;
use ecs_world::World;
use std::alloc::{AllocError, Global};
use std::hash::RandomState;
use std::io;

/// How large a workload is where no argument says it.
const COUNT: u32 = 10_000;

/// Why the world wasn't made, or a command not carried out.
#[derive(Clone, Copy, Debug)]
pub(crate) enum Fault {
    World,
    Schema(SchemaError),
    Command(CommandError),
}

impl From<SchemaError> for Fault {
    fn from(error: SchemaError) -> Fault {
        Fault::Schema(error)
    }
}

impl From<CommandError> for Fault {
    fn from(error: CommandError) -> Fault {
        Fault::Command(error)
    }
}

impl From<AllocError> for Fault {
    fn from(_: AllocError) -> Fault {
        Fault::Command(CommandError::Memory)
    }
}

/// Makes an entity without a name.
pub(crate) fn fresh(world: &mut World) -> Result<EntityId, Fault> {
    let changes = world.fresh()?;
    let born = changes.born();
    drop(changes);
    born.ok_or(Fault::World)
}

pub(crate) fn add(world: &mut World, entity: EntityId, id: Id) -> Result<(), Fault> {
    drop(world.add(entity, id)?);
    Ok(())
}

pub(crate) fn set(
    world: &mut World,
    entity: EntityId,
    id: Id,
    value: &[i128],
) -> Result<(), Fault> {
    drop(world.set(entity, id, value)?);
    Ok(())
}

/// Carries out a workload, by its name, on a new world.
fn carry_out(
    alloc: Global,
    world: &mut World,
    name: &str,
    count: u32,
) -> Result<(i128, u64), Fault> {
    match name {
        "tree" => relations::tree(world, count),
        "felled" => relations::felled(world, count),
        "pairs" => relations::pairs(world, count),
        "chain" => relations::chain(alloc, world, count),
        _ => values::run(alloc, world, count),
    }
}

fn run(alloc: Global, random: RandomState, name: &str, count: u32) -> Result<(i128, u64), Fault> {
    let mut world = World::new(alloc, random).or(Err(Fault::World))?;
    let told = carry_out(alloc, &mut world, name, count);
    drop(world);
    told
}

/// Carries out the workload that is named, or `values`, of a size.
pub(crate) fn tell(rt: &HostRuntime, chosen: &Option<String>, size: Option<u32>) -> io::Result<()> {
    let name = match chosen {
        Some(word) => word.as_str(),
        None => "values",
    };
    let count = size.unwrap_or(COUNT);
    match run(rt.alloc(), RandomState::new(rt)?, name, count) {
        Ok((sum, ids)) => println!(rt; "{sum} {ids}"),
        Err(fault) => println!(rt; "{fault:?}"),
    }
}
