//! Entities with three components, whose values are set, and which then move from table to table.

use crate::commands::{Fault, add, fresh, set};
use ecs_id::{EntityId, Id};
use ecs_schema::{Kind, Schema};
use ecs_world::World;
use std::alloc::Global;

/// Three components and a tag, and how many entities are made after them.
#[derive(Clone, Copy)]
struct Bench {
    position: Id,
    velocity: Id,
    mass: Id,
    tag: Id,
    count: u32,
}

/// The id of an entity that is used as component or tag.
fn id_of(born: Option<EntityId>) -> Result<Id, Fault> {
    let packed = born.ok_or(Fault::World)?.packed();
    Id::unpack(packed).ok_or(Fault::World)
}

pub(crate) fn component(
    alloc: Global,
    world: &mut World,
    name: &str,
    fields: &[(&str, Kind)],
) -> Result<Id, Fault> {
    let schema = Schema::new(alloc, fields)?;
    let changes = world.component(name, schema)?;
    let born = changes.born();
    drop(changes);
    id_of(born)
}

pub(crate) fn tag(world: &mut World, name: &str) -> Result<Id, Fault> {
    let changes = world.entity(name)?;
    let born = changes.born();
    drop(changes);
    id_of(born)
}

impl Bench {
    fn new(alloc: Global, world: &mut World, count: u32) -> Result<Bench, Fault> {
        let plane = [("x", Kind::I32), ("y", Kind::I32)];
        let position = component(alloc, world, "Position", &plane)?;
        let velocity = component(alloc, world, "Velocity", &plane)?;
        let mass = component(alloc, world, "Mass", &[("value", Kind::U64)])?;
        let tag = tag(world, "Moved")?;
        Ok(Bench {
            position,
            velocity,
            mass,
            tag,
            count,
        })
    }

    /// Makes an entity whose values come from its number.
    fn make(&self, world: &mut World, number: u32) -> Result<(), Fault> {
        let entity = fresh(world)?;
        for id in &[self.position, self.velocity, self.mass] {
            add(world, entity, *id)?;
        }
        let (x, y) = (i128::from(number % 1000), i128::from(number % 7));
        set(world, entity, self.position, &[x, -y])?;
        set(world, entity, self.velocity, &[y, x])?;
        set(world, entity, self.mass, &[i128::from(number)])
    }

    /// The entity that was made with this number: the tag was born last before them. No list of them is kept, as the
    /// memory measured is to be the world's.
    fn entity(&self, world: &World, number: u32) -> Result<EntityId, Fault> {
        let index = self.tag.first().wrapping_add(1).wrapping_add(number);
        world.at(index).ok_or(Fault::World)
    }

    /// Moves each entity to the table with the tag, and then each to the one without its velocity.
    fn move_all(&self, world: &mut World) -> Result<(), Fault> {
        for number in 0..self.count {
            let entity = self.entity(world, number)?;
            add(world, entity, self.tag)?;
        }
        for number in 0..self.count {
            let entity = self.entity(world, number)?;
            drop(world.remove(entity, self.velocity)?);
        }
        Ok(())
    }

    /// The sum of the entities' values, and how many ids they hold.
    fn sums(&self, world: &World) -> Result<(i128, u64), Fault> {
        let (mut sum, mut count) = (0i128, 0u64);
        for number in 0..self.count {
            let entity = self.entity(world, number)?;
            for id in world.ids_of(entity).unwrap_or(&[]) {
                count = count.wrapping_add(1);
                sum = sum.wrapping_add(sum_of(world, entity.index, *id));
            }
        }
        Ok((sum, count))
    }
}

fn sum_of(world: &World, index: u32, id: Id) -> i128 {
    let mut sum = 0i128;
    if let Some(value) = world.value(index, id) {
        for number in value.as_slice() {
            sum = sum.wrapping_add(*number);
        }
    }
    sum
}

/// Makes them and moves them, and answers the sum of all values that are read back, and how many ids all hold.
pub fn run(alloc: Global, world: &mut World, count: u32) -> Result<(i128, u64), Fault> {
    let bench = Bench::new(alloc, world, count)?;
    for number in 0..count {
        bench.make(world, number)?;
    }
    bench.move_all(world)?;
    bench.sums(world)
}
