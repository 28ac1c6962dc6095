//! The events of observers after a command.

ghost use Rattle.std.specs.Prelude.{◌≡◌, ◌≢◌, ◌++◌, [], OnErr, OnOk};
ghost use Rattle.ecs_model.specs.declared.watches.StoredKind.TheVariants.{Monitor};
ghost use Rattle.ecs_print.specs.Stops.{StopsWithin};
ghost use Rattle.watch_concerns.specs.Since.{IsAfter, told_since};

use crate::event::Event;
use crate::facts::tell_facts;
use crate::removals::tell_removals;
use ecs_model::watches::{EventKind, StoredKind};
use ecs_world::{Changes, World};
use query_check::Query;
use std::alloc::{AllocError, Allocator};

/// An observer that is notified of a command.
#[derive(Clone, Copy)]
pub struct Audience<'q, A: Allocator> {
    pub name: &'q [u8],
    pub kind: StoredKind,
    pub query: &'q Query<A>,
}

/// Appends the events of an observer for a command, from the world after it. For a monitor use `tell_moves`.
///
/// Facts are tested against the observer's one term before the world is read. Fails where memory is refused; then some
/// of these events, the first ones, may be appended.
pub fn tell<A: Allocator + Copy>(
    alloc: A,
    world: &World<A>,
    changes: &Changes<A>,
    audience: Audience<'_, A>,
    events: &mut Vec<Event<A>, A>,
) -> Result<(), AllocError>
    requires after { IsAfter world.now.state changes.now }
    requires observes { audience.kind ≢ Monitor }
    ensures told { OnOk result (events.new.items ≡ events.old.items
        ++ told_since world.now.state changes.now (audience.entry.name).now audience.entry.kind
        (audience.entry.query).now []) }
    ensures front { OnErr result (StopsWithin events.old.items events.new.items
        (told_since world.now.state changes.now (audience.entry.name).now audience.entry.kind
        (audience.entry.query).now [])) }
{
    match audience.kind {
        StoredKind::Kept => Ok(()),
        StoredKind::Monitor => Ok(()),
        StoredKind::OnAdd => {
            tell_facts(alloc, world, changes, audience, EventKind::Added, events)
        }
        StoredKind::OnRemove => tell_removals(alloc, world, changes, audience, events),
        StoredKind::OnSet => {
            tell_facts(alloc, world, changes, audience, EventKind::Written, events)
        }
    }
}
