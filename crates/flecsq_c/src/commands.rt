//! Commands by numbers: an entity is its index and its generation times 2^32, an id its packed number.
//!
//! What monitors and observers are notified of comes after the output, as by a line.
ghost use Rattle.std.specs.Prelude.{◌≡◌, ◌^◌, ◌<◌, ◌≤◌, IfSome, None, length, take};
ghost use Rattle.ecs_id.specs.Id.{IsPacking, packed};
ghost use Rattle.ecs_model.specs.steps.Step.{Add, Delete, Fresh, Remove};
ghost use Rattle.flecsq_c.specs.Calls.{ByStepper, held_by};
ghost use Rattle.flecsq_c.specs.Commands.{Creates, CreatesNamed, Finds, OnEntity, OnFact, Sets, entity_number};

use crate::handle::Flecsq;
use crate::holding::{put, taken};
use crate::status::{CLOSED, NUMBER, OK, UNKNOWN, command_status};
use ecs_id::{EntityId, Id};
use std::alloc::Global;
use world_script::Stepper;

/// A component has at most so many fields.
const MOST_VALUES: usize = 8;

/// The live entity of a name.
#[unsafe(no_mangle)]
pub extern "C" fn flecsq_find(
    alloc: Global,
    handle: &mut Flecsq,
    name: &[u8],
    entity: &mut u64,
) -> i32
    ensures { ByStepper (Finds name.now entity.old entity.new) (held_by handle.old) (held_by handle.new) result }
{
    let Some(engine) = taken(alloc, handle) else {
        return CLOSED;
    };
    let status = find(&engine.stepper, name, entity);
    put(handle, engine);
    status
}

/// Creates an entity without a name and without facts.
#[unsafe(no_mangle)]
pub extern "C" fn flecsq_new(alloc: Global, handle: &mut Flecsq, entity: &mut u64) -> i32
    ensures { ByStepper (Creates Fresh entity.old entity.new) (held_by handle.old) (held_by handle.new) result }
{
    let Some(mut engine) = taken(alloc, handle) else {
        return CLOSED;
    };
    let status = create(&mut engine.stepper, entity);
    put(handle, engine);
    status
}

/// Creates an entity with a name and without facts.
#[unsafe(no_mangle)]
pub extern "C" fn flecsq_entity_named(
    alloc: Global,
    handle: &mut Flecsq,
    name: &[u8],
    entity: &mut u64,
) -> i32
    ensures { ByStepper (CreatesNamed name.now entity.old entity.new) (held_by handle.old) (held_by handle.new) result }
{
    let Some(mut engine) = taken(alloc, handle) else {
        return CLOSED;
    };
    let status = create_named(&mut engine.stepper, name, entity);
    put(handle, engine);
    status
}

/// Adds a fact, and the facts that traits require with it.
#[unsafe(no_mangle)]
pub extern "C" fn flecsq_add(alloc: Global, handle: &mut Flecsq, entity: u64, id: u64) -> i32
    ensures { ByStepper (OnFact Add entity id) (held_by handle.old) (held_by handle.new) result }
{
    let Some(mut engine) = taken(alloc, handle) else {
        return CLOSED;
    };
    let status = add(&mut engine.stepper, entity, id);
    put(handle, engine);
    status
}

/// Sets the value of a fact; adds the fact if it isn't held.
#[unsafe(no_mangle)]
pub extern "C" fn flecsq_set(
    alloc: Global,
    handle: &mut Flecsq,
    entity: u64,
    id: u64,
    values: &[i64],
) -> i32
    ensures { ByStepper (Sets entity id values.now) (held_by handle.old) (held_by handle.new) result }
{
    let Some(mut engine) = taken(alloc, handle) else {
        return CLOSED;
    };
    let status = set(&mut engine.stepper, entity, id, values);
    put(handle, engine);
    status
}

/// Removes a fact, if it is held.
#[unsafe(no_mangle)]
pub extern "C" fn flecsq_remove(alloc: Global, handle: &mut Flecsq, entity: u64, id: u64) -> i32
    ensures { ByStepper (OnFact Remove entity id) (held_by handle.old) (held_by handle.new) result }
{
    let Some(mut engine) = taken(alloc, handle) else {
        return CLOSED;
    };
    let status = remove(&mut engine.stepper, entity, id);
    put(handle, engine);
    status
}

/// Deletes an entity, and what its relationships say to delete with it.
#[unsafe(no_mangle)]
pub extern "C" fn flecsq_delete(alloc: Global, handle: &mut Flecsq, entity: u64) -> i32
    ensures { ByStepper (OnEntity Delete entity) (held_by handle.old) (held_by handle.new) result }
{
    let Some(mut engine) = taken(alloc, handle) else {
        return CLOSED;
    };
    let status = delete(&mut engine.stepper, entity);
    put(handle, engine);
    status
}

fn find(stepper: &Stepper<Global>, name: &[u8], entity: &mut u64) -> i32
    ensures { Finds name.now entity.old entity.new stepper.now.stepping stepper.now.stepping result }
{
    let Ok(name) = str::from_utf8(name) else {
        return UNKNOWN;
    };
    match stepper.find(name) {
        Some(found) => {
            *entity = found.packed();
            OK
        }
        None => UNKNOWN,
    }
}

fn create(stepper: &mut Stepper<Global>, entity: &mut u64) -> i32
    ensures { Creates Fresh entity.old entity.new stepper.old.stepping stepper.new.stepping result }
{
    let answer = stepper.fresh();
    if let Ok(created) = answer {
        *entity = created.packed();
    }
    command_status(answer)
}

fn create_named(stepper: &mut Stepper<Global>, name: &[u8], entity: &mut u64) -> i32
    ensures { CreatesNamed name.now entity.old entity.new stepper.old.stepping stepper.new.stepping result }
{
    let Ok(name) = str::from_utf8(name) else {
        return UNKNOWN;
    };
    let answer = stepper.entity(name);
    if let Ok(created) = answer {
        *entity = created.packed();
    }
    command_status(answer)
}

fn add(stepper: &mut Stepper<Global>, entity: u64, id: u64) -> i32
    ensures { OnFact Add entity id stepper.old.stepping stepper.new.stepping result }
{
    match both(entity, id) {
        Some(both) => command_status(stepper.add(both.0, both.1)),
        None => UNKNOWN,
    }
}

fn set(stepper: &mut Stepper<Global>, entity: u64, id: u64, values: &[i64]) -> i32
    ensures { Sets entity id values.now stepper.old.stepping stepper.new.stepping result }
{
    if values.len() > MOST_VALUES {
        return NUMBER;
    }
    let mut wide = [0; MOST_VALUES];
    widen(values, &mut wide);
    match both(entity, id) {
        Some(both) => command_status(stepper.set(both.0, both.1, &wide[..values.len()])),
        None => UNKNOWN,
    }
}

fn remove(stepper: &mut Stepper<Global>, entity: u64, id: u64) -> i32
    ensures { OnFact Remove entity id stepper.old.stepping stepper.new.stepping result }
{
    match both(entity, id) {
        Some(both) => command_status(stepper.remove(both.0, both.1)),
        None => UNKNOWN,
    }
}

fn delete(stepper: &mut Stepper<Global>, entity: u64) -> i32
    ensures { OnEntity Delete entity stepper.old.stepping stepper.new.stepping result }
{
    match EntityId::unpack(entity) {
        Some(entity) => command_status(stepper.delete(entity)),
        None => UNKNOWN,
    }
}

/// The entity and the id of these numbers.
fn both(entity: u64, id: u64) -> Option<(EntityId, Id)>
    ensures some { IfSome result (λ both. (entity_number both.0 ≡ entity) × (packed both.1 ≡ id)) }
    ensures none { result ≡ None → ¬ ((entity < 2 ^ 48) × IsPacking id) }
{
    let entity = EntityId::unpack(entity)?;
    let id = Id::unpack(id)?;
    Some((entity, id))
}

/// Puts the values to the beginning of wider ones.
fn widen(values: &[i64], wide: &mut [i128; MOST_VALUES])
    requires { length values.now ≤ 8 }
    ensures { take (length values.now) wide.new ≡ values.now }
{
    let mut count = 0;
    while count < values.len() {
        wide[count] = i128::from(values[count]);
        count += 1;
    }
}
