//! The events of observers for added facts, and for facts whose values were set.

ghost use Rattle.std.specs.Prelude.{◌≡◌, ◌++◌, IfOk, OnErr, OnOk, filter, map};
ghost use Rattle.ecs_id.specs.Id.{IsIndex};
ghost use Rattle.ecs_model.specs.rows.View.{view_of};
ghost use Rattle.ecs_model.specs.stored.Watches.{fact_event, observes};
ghost use Rattle.ecs_model.specs.World.{holds};
ghost use Rattle.ecs_print.specs.Stops.{StopsWithin};
ghost use Rattle.watch_events.specs.Terms.{has_unasked, tells, told_facts, told_value};

use crate::event::{Event, push_event};
use crate::telling::Audience;
use crate::terms::{asks_tag_of_this, matches, only_term};
use crate::text::Text;
use crate::texts::{entity_now, entity_text, id_text};
use ecs_id::Id;
use ecs_model::built_ins::{DISABLED, PREFAB};
use ecs_model::watches::EventKind;
use ecs_model::{FactKey, Value};
use ecs_world::{Changes, World};
use query_model::query::Term;
use std::alloc::{AllocError, Allocator};

/// Appends the events of an observer for added facts, or for facts whose values were set: each fact that its term
/// matches and whose entity isn't hidden from the query, as the world is after the command.
pub(crate) fn tell_facts<A: Allocator + Copy>(
    alloc: A,
    world: &World<A>,
    changes: &Changes<A>,
    audience: Audience<'_, A>,
    kind: EventKind,
    events: &mut Vec<Event<A>, A>,
) -> Result<(), AllocError>
    ensures told { OnOk result (events.new.items ≡ events.old.items
        ++ map (fact_event (audience.entry.name).now kind world.now.state (told_value world.now.state kind))
        (filter (observes (view_of world.now.state) (audience.entry.query).now) (told_facts changes.now kind))) }
    ensures front { OnErr result (StopsWithin events.old.items events.new.items
        (map (fact_event (audience.entry.name).now kind world.now.state (told_value world.now.state kind))
        (filter (observes (view_of world.now.state) (audience.entry.query).now) (told_facts changes.now kind)))) }
{
    let Some(term) = only_term(audience.query) else {
        return Ok(());
    };
    let facts = told_facts(changes, kind);
    for fact in facts {
        if tells(world, term, *fact) {
            push_event(
                fact_event(alloc, world, audience.name, kind, *fact)?,
                events,
            )?;
        }
    }
    Ok(())
}

/// The facts whose values were set, or else the added facts.
fn told_facts<A: Allocator>(changes: &Changes<A>, kind: EventKind) -> &[FactKey]
    ensures { result.now ≡ told_facts changes.now kind }
{
    match kind {
        EventKind::Written => changes.written(),
        _ => changes.came(),
    }
}

/// Whether an observer with this term is notified of a fact. Few facts match, so the id is tested first.
fn tells<A: Allocator>(world: &World<A>, term: &Term, fact: FactKey) -> bool
    ensures { result ≡ tells (holds world.now.state) term.now fact }
{
    matches(term, fact.id())
        && !(has_unasked(world, term, PREFAB, fact.entity())
            || has_unasked(world, term, DISABLED, fact.entity()))
}

/// Whether an entity has a tag that the term doesn't ask for.
fn has_unasked<A: Allocator>(world: &World<A>, term: &Term, tag: u32, entity: u32) -> bool
    requires { IsIndex tag }
    ensures { result ≡ has_unasked (holds world.now.state) term.now tag entity }
{
    world.has(entity, Id::plain(tag)) && !asks_tag_of_this(term, tag)
}

/// The event of a fact, from the world after the command.
fn fact_event<A: Allocator + Copy>(
    alloc: A,
    world: &World<A>,
    name: &[u8],
    kind: EventKind,
    fact: FactKey,
) -> Result<Event<A>, AllocError>
    ensures { IfOk result (λ event. event ≡ fact_event name.now kind world.now.state
        (told_value world.now.state kind) fact) }
{
    let entity = entity_now(world, fact.entity());
    Ok(Event {
        kind,
        entity,
        id: Some(fact.id()),
        value: told_value(world, kind, fact),
        watch: Text::from_slice(alloc, name)?,
        entity_text: entity_text(alloc, world, entity)?,
        id_text: id_text(alloc, world, fact.id())?,
    })
}

/// The value of a fact that was set; none where the fact was added.
fn told_value<A: Allocator>(world: &World<A>, kind: EventKind, fact: FactKey) -> Option<Value>
    ensures { result ≡ told_value world.now.state kind fact }
{
    match kind {
        EventKind::Written => world.value(fact.entity(), fact.id()),
        _ => None,
    }
}
