//! Makes a million entities, then deletes and makes entities a million times in a mixed order, then looks up a million
//! names, and then the names of a million entities.
//!
//! It prints a checksum of all entities that were made, and how many are left, then a checksum of the entities that
//! were found by their names, and how many were, and then the bytes of the names that were found by their entities.
//! Time it from outside.
use ecs_id::EntityId;
use entity_index::{CreateError, EntityIndex};
use name_index::{BindError, NameIndex};
use std::alloc::Global;
use std::hash::RandomState;
use std::io;

const LAST: u32 = 16_777_215;

const STEPS: u32 = 1_000_000;

/// How many names are looked up in turn; every second one names an entity.
const NAMES: u32 = 200_000;

/// Numbers that look random: the upper half of a state that is multiplied at each step.
#[derive(Drop)]
struct Numbers {
    state: u64,
}

impl Numbers {
    fn next(&mut self) -> u64 {
        self.state = self
            .state
            .wrapping_mul(6364136223846793005)
            .wrapping_add(1442695040888963407);
        self.state >> 32
    }
}

/// What was made so far, and what of it lives.
#[derive(Drop)]
struct Bench {
    index: EntityIndex,
    entities: Vec<EntityId>,
    checksum: u64,
}

impl Bench {
    fn make(&mut self) -> Result<(), CreateError> {
        let entity = self.index.create()?;
        self.checksum = self.checksum.wrapping_mul(31).wrapping_add(entity.packed());
        self.entities.push(entity).or(Err(CreateError::Memory))
    }

    fn delete(&mut self, at: usize) -> bool {
        if self.entities.len() <= at {
            return false;
        }
        let entity = self.entities.swap_remove(at);
        self.index.delete(entity)
    }
}

fn work(bench: &mut Bench) -> Result<(), CreateError> {
    for _ in 0..STEPS {
        bench.make()?;
    }
    let mut numbers = Numbers { state: 1 };
    for _ in 0..STEPS {
        let number = numbers.next();
        let at = (number / 2 % 1_000_000) as usize;
        let deleted = number % 2 == 0 && bench.delete(at);
        if !deleted {
            bench.make()?;
        }
    }
    Ok(())
}

/// A checksum of all entities that were made, and how many are left.
fn run(alloc: Global) -> Result<(u64, usize), CreateError> {
    let index = EntityIndex::new(alloc, LAST)?;
    let mut bench = Bench {
        index,
        entities: Vec::new(alloc),
        checksum: 0,
    };
    let done = work(&mut bench);
    let (checksum, left) = (bench.checksum, bench.entities.len());
    drop(bench);
    done?;
    Ok((checksum, left))
}

/// Names that are bound, and among them some that aren't.
#[derive(Drop)]
struct Lookups {
    index: NameIndex,
    names: Vec<String>,
}

impl Lookups {
    fn new(alloc: Global, random: RandomState) -> Lookups {
        Lookups {
            index: NameIndex::new(alloc, random),
            names: Vec::new(alloc),
        }
    }

    fn add_all(&mut self, alloc: Global) -> Result<(), BindError> {
        for number in 0..NAMES {
            self.add(alloc, number)?;
        }
        Ok(())
    }

    /// Binds the name of a number, if it is even.
    fn bind(&mut self, name: &str, number: u32) -> Result<(), BindError> {
        let entity = EntityId {
            index: number,
            generation: 0,
        };
        if number % 2 != 0 {
            return Ok(());
        }
        match self.index.name_of(entity) {
            None => self.index.bind(name, entity),
            Some(_) => Ok(()),
        }
    }

    fn add(&mut self, alloc: Global, number: u32) -> Result<(), BindError> {
        let name = format!(in alloc; "Entity{number}").or(Err(BindError::Memory))?;
        let bound = self.bind(name.as_str(), number);
        let added = self.names.push(name).or(Err(BindError::Memory));
        bound.and(added)
    }

    fn find(&self, at: usize) -> Option<EntityId> {
        self.index.find(self.names.get(at)?.as_str())
    }
}

/// The checksum of what is found, and how much is.
fn find_all(lookups: &Lookups) -> (u64, u64) {
    let mut numbers = Numbers { state: 2 };
    let mut checksum = 0u64;
    let mut found = 0u64;
    for _ in 0..STEPS {
        let at = (numbers.next() % u64::from(NAMES)) as usize;
        if let Some(entity) = lookups.find(at) {
            checksum = checksum.wrapping_mul(31).wrapping_add(entity.packed());
            found = found.wrapping_add(1);
        }
    }
    (checksum, found)
}

/// The bytes of the names that the entities have.
fn name_all(lookups: &Lookups) -> u64 {
    let mut numbers = Numbers { state: 3 };
    let mut bytes = 0u64;
    for _ in 0..STEPS {
        let entity = EntityId {
            index: (numbers.next() % u64::from(NAMES)) as u32,
            generation: 0,
        };
        if let Some(name) = lookups.index.name_of(entity) {
            bytes = bytes.wrapping_add(name.len() as u64);
        }
    }
    bytes
}

fn tell_entities(rt: &HostRuntime) -> io::Result<()> {
    match run(rt.alloc()) {
        Ok((checksum, left)) => println!(rt; "{checksum} {left}"),
        Err(error) => println!(rt; "{error:?}"),
    }
}

fn tell_names(rt: &HostRuntime) -> io::Result<()> {
    let mut lookups = Lookups::new(rt.alloc(), RandomState::new(rt)?);
    let done = lookups.add_all(rt.alloc());
    let (checksum, found) = find_all(&lookups);
    let bytes = name_all(&lookups);
    drop(lookups);
    match done {
        Ok(()) => println!(rt; "{checksum} {found}\n{bytes}"),
        Err(error) => println!(rt; "{error:?}"),
    }
}

/// Prints the numbers of entities, and then those of names.
pub(crate) fn tell(rt: &HostRuntime) -> io::Result<()> {
    tell_entities(rt)?;
    tell_names(rt)
}
