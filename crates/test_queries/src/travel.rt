//! Who stands above an entity, and whom a stored query keeps alive.
use crate::searches::{first_above, first_five, leads};
use crate::worked::{Base, fill};
use crate::worlds::{first_at, new_world};
use ecs_model::built_ins::{CHILD_OF, IS_A};
use ecs_model::faults::{CommandError, Refusal};
use ecs_world::{Changes, World};
use id_pattern::{Part, Pattern};
use rel_travel::{Graph, Scratch};
use std::alloc::{AllocError, Global};
use std::process::Abort;
use std::test::Fail;

/// The component, and then the entities in the order of their names.
const POSITION: u32 = 64;

const PLANET: u32 = 65;

const SUN: u32 = 66;

const EARTH: u32 = 67;

const MOON: u32 = 68;

const A: u32 = 69;

const B: u32 = 70;

const C: u32 = 71;

const D: u32 = 72;

/// The Earth is a child of the Sun, and the Moon one of the Earth; the first two have a Position. B and C are A, and D
/// is both.
static WORLD: Base = Base {
    components: &["Position"],
    names: &["Planet", "Sun", "Earth", "Moon", "A", "B", "C", "D"],
    facts: &[
        (SUN, POSITION, None),
        (EARTH, POSITION, None),
        (EARTH, CHILD_OF, Some(SUN)),
        (MOON, CHILD_OF, Some(EARTH)),
        (B, IS_A, Some(A)),
        (C, IS_A, Some(A)),
        (D, IS_A, Some(B)),
        (D, IS_A, Some(C)),
    ],
    values: &[],
    replaced: &[],
};

fn search(rt: &impl Abort, world: &World, scratch: &mut Scratch) -> Result<(), AllocError> {
    scratch.reserve(world.links().size())?;
    let position = Pattern {
        first: Part::Is(POSITION),
        second: None,
    };
    assert!(rt; first_above(world, MOON, CHILD_OF, position, scratch) == Some(EARTH));
    let all = [None, Some(A), Some(B), Some(C), Some(D)];
    assert!(rt; first_five(world, D, IS_A, scratch) == all);
    assert!(rt; leads(world, IS_A, D, A, scratch));
    assert!(rt; !leads(world, IS_A, A, D, scratch));
    Ok(())
}

/// Why a command was not carried out, if it wasn't.
fn error_of(done: Result<Changes, CommandError>) -> Option<CommandError> {
    match done {
        Ok(_) => None,
        Err(error) => Some(error),
    }
}

fn delete_pinned(rt: &impl Abort, world: &mut World) -> Result<(), CommandError> {
    let planet = first_at(PLANET);
    assert!(rt; world.pin(planet) == Ok(()));
    let kept = error_of(world.delete(planet));
    assert!(rt; kept == Some(CommandError::Refused(Refusal::InUse)));
    world.unpin(planet);
    assert!(rt; error_of(world.delete(planet)).is_none());
    assert!(rt; world.pin(planet) == Err(Refusal::Dead));
    Ok(())
}

fn search_and_delete(
    rt: &impl Abort,
    alloc: Global,
    world: &mut World,
    scratch: &mut Scratch,
) -> Result<(), Fail> {
    fill(alloc, world, &WORLD)?;
    search(rt, world, scratch)?;
    delete_pinned(rt, world)?;
    Ok(())
}

#[test]
fn ancestors_are_found_and_what_is_asked_for_stays(rt: HostRuntime) -> Result<(), Fail> {
    let mut world = new_world(&rt)?;
    let mut scratch = Scratch::new(rt.alloc());
    let done = search_and_delete(&rt, rt.alloc(), &mut world, &mut scratch);
    drop(scratch);
    drop(world);
    done
}
