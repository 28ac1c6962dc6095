//! Workloads along relationships.

use crate::commands::{Fault, add, fresh};
use ecs_id::{EntityId, Id, LAST_INDEX};
use ecs_model::FIRST_INDEX;
use ecs_model::built_ins::{CHILD_OF, EXCLUSIVE, SYMMETRIC};
use ecs_world::World;
use rel_travel::{Graph, Scratch, would_cycle};
use std::alloc::Global;

/// How many entities the pairs are among.
const PEOPLE: u32 = 100;

/// Numbers that look random, and are the same in each run.
#[derive(Drop)]
struct Numbers {
    state: u64,
}

impl Numbers {
    fn new() -> Numbers {
        Numbers { state: 1 }
    }

    /// The next number below a bound.
    fn below(&mut self, bound: u32) -> u32 {
        self.state = self
            .state
            .wrapping_mul(6_364_136_223_846_793_005)
            .wrapping_add(1_442_695_040_888_963_407);
        (self.state >> 33) as u32 % bound.max(1)
    }
}

/// The entity that was made with this number.
fn entity(world: &World, number: u32) -> Result<EntityId, Fault> {
    let index = FIRST_INDEX.wrapping_add(number);
    world.at(index).ok_or(Fault::World)
}

/// The pair of two entities of a world, whose indexes are in range.
fn pair(relationship: u32, target: u32) -> Result<Id, Fault> {
    if relationship == 0 || relationship > LAST_INDEX || target == 0 || target > LAST_INDEX {
        return Err(Fault::World);
    }
    Ok(Id::pair(relationship, target))
}

/// Makes a root, and as many entities below it.
fn grow(world: &mut World, count: u32) -> Result<(), Fault> {
    let mut numbers = Numbers::new();
    fresh(world)?;
    for number in 0..count {
        let parent = entity(world, numbers.below(number.wrapping_add(1)))?;
        let child = fresh(world)?;
        add(world, child, pair(CHILD_OF, parent.index)?)?;
    }
    Ok(())
}

/// The sum of the numbers of the parents, and how many children there are.
fn parents(world: &World) -> (i128, u64) {
    let (mut sum, mut children) = (0i128, 0u64);
    for entity in world.live() {
        for id in world.ids_of(entity).unwrap_or(&[]) {
            if let (CHILD_OF, Some(parent)) = (id.first(), id.second()) {
                sum = sum.wrapping_add(i128::from(parent.wrapping_sub(FIRST_INDEX)));
                children = children.wrapping_add(1);
            }
        }
    }
    (sum, children)
}

/// Grows a tree, and answers what `parents` finds.
pub fn tree(world: &mut World, count: u32) -> Result<(i128, u64), Fault> {
    grow(world, count)?;
    Ok(parents(world))
}

/// Deletes the root of a tree, and answers how many entities died and how many facts went.
pub fn felled(world: &mut World, count: u32) -> Result<(i128, u64), Fault> {
    grow(world, count)?;
    let root = entity(world, 0)?;
    let changes = world.delete(root)?;
    let (died, went) = (changes.died().len(), changes.went().len());
    drop(changes);
    Ok((died as i128, went as u64))
}

/// Makes the people, and after them a relationship that is symmetric and exclusive.
fn make_married(world: &mut World) -> Result<EntityId, Fault> {
    for _ in 0..PEOPLE {
        fresh(world)?;
    }
    let married = fresh(world)?;
    add(world, married, Id::plain(EXCLUSIVE))?;
    add(world, married, Id::plain(SYMMETRIC))?;
    Ok(married)
}

/// How many facts came with a pair, and how many went.
fn add_pair(world: &mut World, one: EntityId, pair: Id) -> Result<(usize, usize), Fault> {
    let changes = world.add(one, pair)?;
    let (came, went) = (changes.came().len(), changes.went().len());
    drop(changes);
    Ok((came, went))
}

/// How many facts went with a pair.
fn remove_pair(world: &mut World, one: EntityId, pair: Id) -> Result<usize, Fault> {
    let changes = world.remove(one, pair)?;
    let went = changes.went().len();
    drop(changes);
    Ok(went)
}

/// Adds a pair, and every other time removes it again. Answers how many facts came and how many went.
pub fn pairs(world: &mut World, count: u32) -> Result<(i128, u64), Fault> {
    let married = make_married(world)?;
    let mut numbers = Numbers::new();
    let (mut came, mut went) = (0i128, 0u64);
    for number in 0..count {
        let one = entity(world, numbers.below(PEOPLE))?;
        let other = entity(world, numbers.below(PEOPLE))?;
        let pair = pair(married.index, other.index)?;
        let (more, fewer) = add_pair(world, one, pair)?;
        came = came.wrapping_add(more as i128);
        went = went.wrapping_add(fewer as u64);
        if number % 2 == 1 {
            went = went.wrapping_add(remove_pair(world, one, pair)? as u64);
        }
    }
    Ok((came, went))
}

/// Whether a pair of ChildOf would close a cycle.
fn closes(world: &World, child: u32, parent: u32, scratch: &mut Scratch) -> Result<bool, Fault> {
    let links = world.links();
    let size = links.size();
    scratch.reserve(size)?;
    if !scratch.covers(&links) || child >= size || parent >= size {
        return Err(Fault::World);
    }
    Ok(would_cycle(&links, CHILD_OF, child, parent, scratch))
}

/// Makes a chain, whose last is asked each time.
fn grow_chain(world: &mut World, scratch: &mut Scratch, count: u32) -> Result<(), Fault> {
    let mut parent = fresh(world)?;
    for _ in 0..count {
        let child = fresh(world)?;
        if closes(world, child.index, parent.index, scratch)? {
            return Err(Fault::World);
        }
        add(world, child, pair(CHILD_OF, parent.index)?)?;
        parent = child;
    }
    Ok(())
}

/// Grows a chain, and answers what `parents` finds.
pub fn chain(alloc: Global, world: &mut World, count: u32) -> Result<(i128, u64), Fault> {
    let mut scratch = Scratch::new(alloc);
    let grown = grow_chain(world, &mut scratch, count);
    drop(scratch);
    grown?;
    Ok(parents(world))
}
