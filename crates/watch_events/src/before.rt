//! What events say of the world before a command, found from the world after it and the changes.

ghost use Rattle.std.specs.Prelude.{◌≡◌, ◌++◌, ◌==◌, IfOk, OnOk, map};
ghost use Rattle.std.specs.List.{find, list_any};
ghost use Rattle.std.specs.List.Sorted.{IsStrictlySortedBy};
ghost use Rattle.std.specs.Option.{option_copied};
ghost use Rattle.std.specs.Ordering.{nat_cmp};
ghost use Rattle.ecs_model.specs.World.{key_cmp, key_eq};
ghost use Rattle.watch_concerns.specs.Since.{IsAfter, dead_text, entity_before, entity_text_before, held_before};
ghost use Rattle.watch_concerns.specs.Since.{id_text_before, index_text_before};

use crate::text::Text;
use crate::texts::{entity_now, entity_text, handle_text};
use ecs_id::{EntityId, Id};
use ecs_model::FactKey;
use ecs_print::{write_handle, write_index};
use ecs_world::{Changes, Death, World};
use std::alloc::{AllocError, Allocator};

/// Whether the entity at an index held an id before the command: the fact was removed, or it is held now and wasn't
/// added.
pub(crate) fn held_before<A: Allocator>(
    world: &World<A>,
    changes: &Changes<A>,
    entity: u32,
    id: Id,
) -> bool
    requires { IsAfter world.now.state changes.now }
    ensures { result ≡ held_before world.now.state changes.now entity id }
{
    world.keeps();
    let fact = FactKey::new(entity, id);
    is_among(changes.went(), fact) || world.has(entity, id) && !is_among(changes.came(), fact)
}

/// Whether sorted facts contain this fact.
fn is_among(facts: &[FactKey], fact: FactKey) -> bool
    requires { IsStrictlySortedBy key_cmp facts.now }
    ensures { result ≡ list_any (key_eq fact) facts.now }
{
    facts.binary_search(&fact).is_ok()
}

/// The deleted entity at an index.
fn death_at<A: Allocator>(changes: &Changes<A>, index: u32) -> Option<&Death<A>>
    requires { IsStrictlySortedBy nat_cmp (map (λ d. (d.0).index) changes.now.died) }
    ensures { option_copied result ≡ find (λ d. (d.0).index == index) changes.now.died }
{
    let died = changes.died();
    match died.binary_search_by_key(&index, |death| death.entity().index) {
        Ok(place) => Some(&died[place]),
        Err(_) => None,
    }
}

/// The entity at an index before the command; where none lived there, what `entity_now` answers.
pub(crate) fn entity_before<A: Allocator>(
    world: &World<A>,
    changes: &Changes<A>,
    index: u32,
) -> EntityId
    requires { IsAfter world.now.state changes.now }
    ensures { result ≡ entity_before world.now.state changes.now index }
{
    match death_at(changes, index) {
        Some(death) => death.entity(),
        None => entity_now(world, index),
    }
}

/// The text by which the entity at an index was printed before the command.
pub(crate) fn entity_text_before<A: Allocator + Copy>(
    alloc: A,
    world: &World<A>,
    changes: &Changes<A>,
    index: u32,
) -> Result<Text<A>, AllocError>
    requires { IsAfter world.now.state changes.now }
    ensures { IfOk result (λ text. text ≡ entity_text_before world.now.state changes.now index) }
{
    match death_at(changes, index) {
        Some(death) => dead_text(alloc, death),
        None => entity_text(alloc, world, entity_now(world, index)),
    }
}

/// The text of a deleted entity: the name that it had, or its handle where it had none.
fn dead_text<A: Allocator + Copy>(alloc: A, death: &Death<A>) -> Result<Text<A>, AllocError>
    ensures { IfOk result (λ text. text ≡ dead_text death.now) }
{
    match death.name() {
        Some(name) => Text::from_slice(alloc, name.as_bytes()),
        None => handle_text(alloc, death.entity()),
    }
}

/// The text by which an id was printed before the command.
pub(crate) fn id_text_before<A: Allocator + Copy>(
    alloc: A,
    world: &World<A>,
    changes: &Changes<A>,
    id: Id,
) -> Result<Vec<u8, A>, AllocError>
    requires { IsAfter world.now.state changes.now }
    ensures { IfOk result (λ text. text.items ≡ id_text_before world.now.state changes.now id) }
{
    let mut text = Vec::new(alloc);
    write_id_before(world, changes, id, &mut text)?;
    Ok(text)
}

fn write_id_before<A: Allocator>(
    world: &World<A>,
    changes: &Changes<A>,
    id: Id,
    out: &mut Vec<u8, A>,
) -> Result<(), AllocError>
    requires { IsAfter world.now.state changes.now }
    ensures { OnOk result (out.new.items ≡ out.old.items ++ id_text_before world.now.state changes.now id) }
{
    match id.second() {
        None => write_index_before(world, changes, id.first(), out),
        Some(target) => {
            out.extend_from_slice(b"(")?;
            write_index_before(world, changes, id.first(), out)?;
            out.extend_from_slice(b",")?;
            write_index_before(world, changes, target, out)?;
            out.extend_from_slice(b")")
        }
    }
}

/// Writes the text of an index in an id.
fn write_index_before<A: Allocator>(
    world: &World<A>,
    changes: &Changes<A>,
    index: u32,
    out: &mut Vec<u8, A>,
) -> Result<(), AllocError>
    requires { IsAfter world.now.state changes.now }
    ensures { OnOk result (out.new.items ≡ out.old.items ++ index_text_before world.now.state changes.now index) }
{
    match death_at(changes, index) {
        Some(death) => write_dead(death, out),
        None => write_index(world, index, out),
    }
}

/// Writes the text of a deleted entity: the name that it had, or its handle where it had none.
fn write_dead<A: Allocator>(death: &Death<A>, out: &mut Vec<u8, A>) -> Result<(), AllocError>
    ensures { OnOk result (out.new.items ≡ out.old.items ++ dead_text death.now) }
{
    match death.name() {
        Some(name) => out.extend_from_slice(name.as_bytes()),
        None => write_handle(death.entity(), out),
    }
}
