//! The events of observers for removed facts.

ghost use Rattle.std.specs.Prelude.{◌≡◌, ◌++◌, IfOk, OnErr, OnOk, filter, map};
ghost use Rattle.ecs_id.specs.Id.{IsIndex};
ghost use Rattle.ecs_print.specs.Stops.{StopsWithin};
ghost use Rattle.watch_concerns.specs.Since.{IsAfter, held_before, observed_before, removed_event};
ghost use Rattle.watch_events.specs.Terms.{has_unasked, tells};

use crate::before::{entity_before, entity_text_before, held_before, id_text_before};
use crate::event::{Event, push_event};
use crate::telling::Audience;
use crate::terms::{asks_tag_of_this, matches, only_term};
use crate::text::Text;
use ecs_id::Id;
use ecs_model::FactKey;
use ecs_model::built_ins::{DISABLED, PREFAB};
use ecs_model::watches::EventKind;
use ecs_world::{Changes, World};
use query_model::query::Term;
use std::alloc::{AllocError, Allocator};

/// Appends the events of an observer for removed facts: each fact that its term matches and whose entity wasn't hidden
/// from the query before the command.
pub(crate) fn tell_removals<A: Allocator + Copy>(
    alloc: A,
    world: &World<A>,
    changes: &Changes<A>,
    audience: Audience<'_, A>,
    events: &mut Vec<Event<A>, A>,
) -> Result<(), AllocError>
    requires { IsAfter world.now.state changes.now }
    ensures told { OnOk result (events.new.items ≡ events.old.items
        ++ map (removed_event world.now.state changes.now (audience.entry.name).now)
        (filter (observed_before world.now.state changes.now (audience.entry.query).now) changes.now.went)) }
    ensures front { OnErr result (StopsWithin events.old.items events.new.items
        (map (removed_event world.now.state changes.now (audience.entry.name).now)
        (filter (observed_before world.now.state changes.now (audience.entry.query).now) changes.now.went))) }
{
    let Some(term) = only_term(audience.query) else {
        return Ok(());
    };
    let facts = changes.went();
    for fact in facts {
        if tells_before(world, changes, term, *fact) {
            push_event(
                removed_event(alloc, world, changes, audience.name, *fact)?,
                events,
            )?;
        }
    }
    Ok(())
}

/// Whether an observer with this term is notified of a removed fact. Few facts match, so the id is tested first.
fn tells_before<A: Allocator>(
    world: &World<A>,
    changes: &Changes<A>,
    term: &Term,
    fact: FactKey,
) -> bool
    requires { IsAfter world.now.state changes.now }
    ensures { result ≡ tells (held_before world.now.state changes.now) term.now fact }
{
    matches(term, fact.id())
        && !(had_unasked(world, changes, term, PREFAB, fact.entity())
            || had_unasked(world, changes, term, DISABLED, fact.entity()))
}

/// Whether an entity had a tag before that the term doesn't ask for.
fn had_unasked<A: Allocator>(
    world: &World<A>,
    changes: &Changes<A>,
    term: &Term,
    tag: u32,
    entity: u32,
) -> bool
    requires after { IsAfter world.now.state changes.now }
    requires tag { IsIndex tag }
    ensures { result ≡ has_unasked (held_before world.now.state changes.now) term.now tag entity }
{
    held_before(world, changes, entity, Id::plain(tag)) && !asks_tag_of_this(term, tag)
}

/// The event of a removed fact, with the names before the command.
fn removed_event<A: Allocator + Copy>(
    alloc: A,
    world: &World<A>,
    changes: &Changes<A>,
    name: &[u8],
    fact: FactKey,
) -> Result<Event<A>, AllocError>
    requires { IsAfter world.now.state changes.now }
    ensures { IfOk result (λ event. event ≡ removed_event world.now.state changes.now name.now fact) }
{
    Ok(Event {
        kind: EventKind::Removed,
        entity: entity_before(world, changes, fact.entity()),
        id: Some(fact.id()),
        value: None,
        watch: Text::from_slice(alloc, name)?,
        entity_text: entity_text_before(alloc, world, changes, fact.entity())?,
        id_text: id_text_before(alloc, world, changes, fact.id())?,
    })
}
