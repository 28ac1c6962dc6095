//! New worlds, and what they are filled with.
//!
//! What a command has changed is dropped by a call in one place: where it goes out of scope by itself, the drops of all
//! its parts are proved at each command.

ghost use Rattle.std.specs.Prelude.{IfOk};
ghost use Rattle.ecs_id.specs.Id.{IsIndex};

use ecs_id::{EntityId, Id, LAST_INDEX};
use ecs_model::faults::{CommandError, Refusal};
use ecs_schema::{Kind, Schema};
use ecs_world::World;
use std::alloc::Global;
use std::hash::RandomState;
use std::test::Fail;

/// An entity, and what it gets: a tag, or a relationship and a target. All by their indexes.
pub(crate) type Fact = (u32, u32, Option<u32>);

/// A world without facts. Whoever has it hands it on to what may fail, and drops it by a call in one place.
pub(crate) fn new_world(rt: &HostRuntime) -> Result<World, Fail> {
    let random = RandomState::new(rt)?;
    Ok(World::new(rt.alloc(), random)?)
}

/// The entity that first stands at an index.
pub(crate) fn first_at(index: u32) -> EntityId {
    EntityId {
        index,
        generation: 0,
    }
}

/// An index that an entity can have. At any other there is no live one.
fn index_in_range(index: u32) -> Result<u32, CommandError>
    ensures { IfOk result IsIndex }
{
    if index == 0 || index > LAST_INDEX {
        return Err(CommandError::Refused(Refusal::Dead));
    }
    Ok(index)
}

fn id_of(first: u32, target: Option<u32>) -> Result<Id, CommandError> {
    let first = index_in_range(first)?;
    let Some(target) = target else {
        return Ok(Id::plain(first));
    };
    let target = index_in_range(target)?;
    Ok(Id::pair(first, target))
}

/// Makes a component with two numbers.
pub(crate) fn component(alloc: Global, world: &mut World, name: &str) -> Result<(), CommandError> {
    let Ok(plane) = Schema::new(alloc, &[("x", Kind::I32), ("y", Kind::I32)]) else {
        return Err(CommandError::Memory);
    };
    drop(world.component(name, plane)?);
    Ok(())
}

/// Makes entities of these names.
pub(crate) fn name_all(world: &mut World, names: &[&str]) -> Result<(), CommandError> {
    for name in names {
        drop(world.entity(name)?);
    }
    Ok(())
}

pub(crate) fn add_all(world: &mut World, facts: &[Fact]) -> Result<(), CommandError> {
    for (entity, first, target) in facts {
        let id = id_of(*first, *target)?;
        drop(world.add(first_at(*entity), id)?);
    }
    Ok(())
}

/// Facts that get a value of two numbers.
pub(crate) fn set_all(world: &mut World, values: &[(Fact, [i128; 2])]) -> Result<(), CommandError> {
    for ((entity, first, target), value) in values {
        let id = id_of(*first, *target)?;
        drop(world.set(first_at(*entity), id, value)?);
    }
    Ok(())
}

/// Each of these goes, and two others come.
pub(crate) fn replace_all(world: &mut World, indexes: &[u32]) -> Result<(), CommandError> {
    for index in indexes {
        drop(world.delete(first_at(*index))?);
        drop(world.fresh()?);
        drop(world.fresh()?);
    }
    Ok(())
}
