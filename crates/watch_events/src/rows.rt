//! The events of monitors: an entity has left the rows, or has entered them.

ghost use Rattle.std.specs.Prelude.{◌≡◌, ◌++◌, ◌∷◌, [], OnErr, OnOk, map};
ghost use Rattle.ecs_model.specs.declared.watches.EventKind.TheVariants.{Entered};
ghost use Rattle.ecs_model.specs.stored.Watches.{entity_event};
ghost use Rattle.ecs_print.specs.Stops.{StopsWithin};
ghost use Rattle.watch_concerns.specs.Since.{IsAfter, left_event};
ghost use Rattle.watch_events.specs.Told.{told_of_moves};

use crate::before::{entity_before, entity_text_before};
use crate::event::{Event, push_event};
use crate::text::Text;
use crate::texts::{entity_now, entity_text};
use ecs_model::watches::EventKind;
use ecs_world::{Changes, World};
use std::alloc::{AllocError, Allocator};

/// The entities that have left the rows of a monitor, and those that have entered them, each by ascending index.
#[derive(Clone, Copy)]
pub struct Moves<'m> {
    pub left: &'m [u32],
    pub entered: &'m [u32],
}

/// Appends the events of a monitor, from the entities that have left its rows and those that have entered them. Those
/// that left come first.
///
/// Fails where memory is refused; then some of these events, the first ones, may be appended.
pub fn tell_moves<A: Allocator + Copy>(
    alloc: A,
    world: &World<A>,
    changes: &Changes<A>,
    name: &[u8],
    moves: Moves<'_>,
    events: &mut Vec<Event<A>, A>,
) -> Result<(), AllocError>
    requires { IsAfter world.now.state changes.now }
    ensures told { OnOk result (events.new.items ≡ events.old.items
        ++ told_of_moves world.now.state changes.now name.now (moves.entry.left).now (moves.entry.entered).now) }
    ensures front { OnErr result (StopsWithin events.old.items events.new.items
        (told_of_moves world.now.state changes.now name.now (moves.entry.left).now (moves.entry.entered).now)) }
{
    tell_each_left(alloc, world, changes, name, moves.left, events)?;
    tell_each_entered(alloc, world, name, moves.entered, events)
}

/// Appends an event for each entity that has left.
fn tell_each_left<A: Allocator + Copy>(
    alloc: A,
    world: &World<A>,
    changes: &Changes<A>,
    name: &[u8],
    left: &[u32],
    events: &mut Vec<Event<A>, A>,
) -> Result<(), AllocError>
    requires { IsAfter world.now.state changes.now }
    ensures told { OnOk result (events.new.items ≡ events.old.items
        ++ map (left_event world.now.state changes.now name.now) left.now) }
    ensures front { OnErr result (StopsWithin events.old.items events.new.items
        (map (left_event world.now.state changes.now name.now) left.now)) }
{
    for index in left {
        push_left(alloc, world, changes, name, *index, events)?;
    }
    Ok(())
}

/// Appends an event for each entity that has entered.
fn tell_each_entered<A: Allocator + Copy>(
    alloc: A,
    world: &World<A>,
    name: &[u8],
    entered: &[u32],
    events: &mut Vec<Event<A>, A>,
) -> Result<(), AllocError>
    ensures told { OnOk result (events.new.items ≡ events.old.items
        ++ map (entity_event name.now Entered world.now.state) entered.now) }
    ensures front { OnErr result (StopsWithin events.old.items events.new.items
        (map (entity_event name.now Entered world.now.state) entered.now)) }
{
    for index in entered {
        push_entered(alloc, world, name, *index, events)?;
    }
    Ok(())
}

/// Appends the event of an entity that has left, with the names before the command.
// (the event is made in its place, since to move it would take longer than the rest)
#[inline(always)]
fn push_left<A: Allocator + Copy>(
    alloc: A,
    world: &World<A>,
    changes: &Changes<A>,
    name: &[u8],
    index: u32,
    events: &mut Vec<Event<A>, A>,
) -> Result<(), AllocError>
    requires { IsAfter world.now.state changes.now }
    ensures told { OnOk result (events.new.items ≡ events.old.items
        ++ left_event world.now.state changes.now name.now index ∷ []) }
    ensures kept { OnErr result (events.new.items ≡ events.old.items) }
{
    let watch = Text::from_slice(alloc, name)?;
    let entity_text = entity_text_before(alloc, world, changes, index)?;
    push_event(
        Event {
            kind: EventKind::Left,
            entity: entity_before(world, changes, index),
            id: None,
            value: None,
            watch,
            entity_text,
            id_text: Vec::new(alloc),
        },
        events,
    )
}

/// Appends the event of an entity that has entered.
#[inline(always)]
fn push_entered<A: Allocator + Copy>(
    alloc: A,
    world: &World<A>,
    name: &[u8],
    index: u32,
    events: &mut Vec<Event<A>, A>,
) -> Result<(), AllocError>
    ensures told { OnOk result (events.new.items ≡ events.old.items
        ++ entity_event name.now Entered world.now.state index ∷ []) }
    ensures kept { OnErr result (events.new.items ≡ events.old.items) }
{
    let entity = entity_now(world, index);
    let watch = Text::from_slice(alloc, name)?;
    let entity_text = entity_text(alloc, world, entity)?;
    push_event(
        Event {
            kind: EventKind::Entered,
            entity,
            id: None,
            value: None,
            watch,
            entity_text,
            id_text: Vec::new(alloc),
        },
        events,
    )
}
