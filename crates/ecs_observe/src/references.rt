//! Entities and ids by name or by handle, looked up in a world. A dead handle is reported before an unknown name,
//! wherever the two stand.

ghost use Rattle.std.specs.Prelude.{◌≡◌, IfOk, IfSome, IsTrue};
ghost use Rattle.std.specs.List.{list_any};
ghost use Rattle.ecs_id.specs.Id.{IsIndex};
ghost use Rattle.ecs_model.specs.Orders.{entity_found, found, id_found, is_dead_handle, refs_of_id};
ghost use Rattle.ecs_model.specs.World.{is_alive};
ghost use Rattle.ecs_observe.specs.Commands.{FindsBoth};
ghost use Rattle.ecs_model.specs.References.{seen_id, seen_reference};

use ecs_id::{EntityId, Id};
use ecs_model::faults::Refusal;
use ecs_model::references::{IdReference, Reference};
use ecs_world::World;
use std::alloc::Allocator;

/// The entity of a reference. Refused as `Dead` where the handle is of no live entity, and as `UnknownName` where no
/// entity has the name.
pub fn find_entity<A: Allocator>(
    world: &World<A>,
    entity: Reference<'_>,
) -> Result<EntityId, Refusal>
    ensures value { result ≡ entity_found world.now.state (seen_reference entity.entry) }
    ensures alive { IfOk result (λ e. IsTrue (is_alive world.now.state e)) }
{
    if is_dead_handle(world, entity) {
        return Err(Refusal::Dead);
    }
    match live_entity(world, entity) {
        Some(entity) => Ok(entity),
        None => Err(Refusal::UnknownName),
    }
}

/// The entity of a reference, and the id of others. A dead handle among them is reported before an unknown name.
#[inline(always)]
pub fn find_both<A: Allocator>(
    world: &World<A>,
    entity: Reference<'_>,
    id: IdReference<'_>,
) -> Result<(EntityId, Id), Refusal>
    ensures { FindsBoth world.now.state (seen_reference entity.entry) (seen_id id.entry) result }
{
    if is_dead_handle(world, entity) || names_dead_handle(world, id) {
        return Err(Refusal::Dead);
    }
    let Some(entity) = live_entity(world, entity) else {
        return Err(Refusal::UnknownName);
    };
    let Some(id) = live_id(world, id) else {
        return Err(Refusal::UnknownName);
    };
    Ok((entity, id))
}

/// Whether a reference is a handle of no live entity.
fn is_dead_handle<A: Allocator>(world: &World<A>, reference: Reference<'_>) -> bool
    ensures { result ≡ is_dead_handle world.now.state (seen_reference reference.entry) }
{
    match reference {
        Reference::Name(_) => false,
        Reference::Handle(entity) => !world.is_alive(entity),
    }
}

/// Whether a reference in an id is a handle of no live entity.
#[inline(always)]
fn names_dead_handle<A: Allocator>(world: &World<A>, id: IdReference<'_>) -> bool
    ensures { result ≡ list_any (is_dead_handle world.now.state) (refs_of_id (seen_id id.entry)) }
{
    match id {
        IdReference::Plain(reference) => is_dead_handle(world, reference),
        IdReference::Pair {
            relationship,
            target,
        } => is_dead_handle(world, relationship) || is_dead_handle(world, target),
    }
}

/// The live entity of a reference.
#[inline(always)]
fn live_entity<A: Allocator>(world: &World<A>, reference: Reference<'_>) -> Option<EntityId>
    ensures value { result ≡ found world.now.state (seen_reference reference.entry) }
    ensures index { IfSome result (λ e. IsIndex e.index) }
{
    world.keeps();
    match reference {
        Reference::Name(name) => world.find(name),
        Reference::Handle(entity) => {
            if world.is_alive(entity) {
                Some(entity)
            } else {
                None
            }
        }
    }
}

/// The id of references, if each is of a live entity.
#[inline(always)]
fn live_id<A: Allocator>(world: &World<A>, id: IdReference<'_>) -> Option<Id>
    ensures { result ≡ id_found world.now.state (seen_id id.entry) }
{
    match id {
        IdReference::Plain(reference) => {
            let component = live_entity(world, reference)?;
            Some(Id::plain(component.index))
        }
        IdReference::Pair {
            relationship,
            target,
        } => {
            let relationship = live_entity(world, relationship)?;
            let target = live_entity(world, target)?;
            Some(Id::pair(relationship.index, target.index))
        }
    }
}
