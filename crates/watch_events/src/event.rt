//! Events, and their lines.

ghost use Rattle.std.specs.Prelude.{◌≡◌, ◌++◌, ◌∷◌, [], OnErr, OnOk, Some, flat_map};
ghost use Rattle.std.specs.Fmt.{signed_decimal};
ghost use Rattle.ecs_model.specs.Print.{value_text};
ghost use Rattle.ecs_model.specs.stored.Watches.{event_id_text, event_text, event_word};
ghost use Rattle.ecs_print.specs.Stops.{StopsWithin};
ghost use Rattle.ecs_print.specs.Values.{behind_comma};

use crate::text::Text;
use ecs_id::{EntityId, Id};
use ecs_model::Value;
use ecs_model::watches::EventKind;
use itoa::Buffer;
use std::alloc::{AllocError, Allocator, Global};
use std::marker::Model;

/// What a stored query is notified of: an entity left or entered its rows, or a fact was added, removed or set.
#[derive(Drop)]
pub struct Event<A: Allocator = Global> {
    pub(crate) kind: EventKind,
    pub(crate) entity: EntityId,
    pub(crate) id: Option<Id>,
    pub(crate) value: Option<Value>,
    pub(crate) watch: Text<A>,
    pub(crate) entity_text: Text<A>,
    pub(crate) id_text: Vec<u8, A>,
}

impl<A: Allocator> Model for Event<A> {
    ghost use Rattle.ecs_model.specs.stored.Watches as model;

    ghost Value = { model.Event };

    ghost view = { λ e. record {
      watch = e.watch;
      kind = e.kind;
      entity = e.entity;
      id = e.id;
      value = e.value;
      entity_text = e.entity_text;
      id_text = e.id_text.items;
    } };
}

impl<A: Allocator> Event<A> {
    /// The name of the stored query that is notified.
    pub fn watch(&self) -> &[u8]
        ensures { result.now ≡ (self.now).watch }
    {
        self.watch.as_slice()
    }

    /// What happened.
    pub fn kind(&self) -> EventKind
        ensures { result ≡ (self.now).kind }
    {
        self.kind
    }

    /// The entity to which it happened.
    pub fn entity(&self) -> EntityId
        ensures { result ≡ (self.now).entity }
    {
        self.entity
    }

    /// The id of the fact that was added, removed or set; none where an entity left or entered.
    pub fn id(&self) -> Option<Id>
        ensures { result ≡ (self.now).id }
    {
        self.id
    }

    /// The value that was set, if one was; it is empty where the id has no fields.
    pub fn value(&self) -> Option<Value>
        ensures { result ≡ (self.now).value }
    {
        self.value
    }

    /// The entity as it prints: its name, or its handle where it has none. An entity that is deleted prints as before.
    pub fn entity_text(&self) -> &[u8]
        ensures { result.now ≡ (self.now).entity_text }
    {
        self.entity_text.as_slice()
    }

    /// The id as it prints; empty where `id` is none.
    pub fn id_text(&self) -> &[u8]
        ensures { result.now ≡ (self.now).id_text }
    {
        self.id_text.as_slice()
    }
}

/// Appends an event. Most commands have just one, so only room for one is made.
#[inline(always)]
pub(crate) fn push_event<A: Allocator>(
    event: Event<A>,
    events: &mut Vec<Event<A>, A>,
) -> Result<(), AllocError>
    ensures told { OnOk result (events.new.items ≡ events.old.items ++ event ∷ []) }
    ensures kept { OnErr result (events.new.items ≡ events.old.items) }
{
    if events.is_empty() {
        events.reserve_exact(1)?;
    }
    events.push(event)?;
    Ok(())
}

/// Writes the line of an event: its word, the name of the stored query, the entity, and for a fact its id and the value
/// that was set.
///
/// Fails where memory is refused; then a prefix of the line may be written.
pub fn write_event<A: Allocator>(event: &Event<A>, out: &mut Vec<u8, A>) -> Result<(), AllocError>
    ensures written { OnOk result (out.new.items ≡ out.old.items ++ event_text event.now) }
    ensures front { OnErr result (StopsWithin out.old.items out.new.items (event_text event.now)) }
{
    out.extend_from_slice(word(event.kind))?;
    out.extend_from_slice(event.watch.as_slice())?;
    out.push(b' ')?;
    out.extend_from_slice(event.entity_text.as_slice())?;
    write_event_id(event, out)?;
    out.push(b'\n')?;
    Ok(())
}

/// The word for a kind of event, with the space after it.
fn word(kind: EventKind) -> &'static [u8]
    ensures { result.now ≡ event_word kind }
{
    match kind {
        EventKind::Left => b"leave ",
        EventKind::Entered => b"enter ",
        EventKind::Added => b"add ",
        EventKind::Removed => b"remove ",
        EventKind::Written => b"set ",
    }
}

/// Writes the id of an event's fact and the value that was set; nothing for an event without a fact.
fn write_event_id<A: Allocator>(event: &Event<A>, out: &mut Vec<u8, A>) -> Result<(), AllocError>
    ensures written { OnOk result (out.new.items ≡ out.old.items ++ event_id_text event.now) }
    ensures front { OnErr result (StopsWithin out.old.items out.new.items (event_id_text event.now)) }
{
    if event.id.is_none() {
        return Ok(());
    }
    out.push(b' ')?;
    out.extend_from_slice(event.id_text.as_slice())?;
    match &event.value {
        Some(value) => write_numbers(value.as_slice(), out),
        None => Ok(()),
    }
}

/// Writes the numbers of a value: `=`, then the numbers with commas between; nothing where there are none.
fn write_numbers<A: Allocator>(numbers: &[i128], out: &mut Vec<u8, A>) -> Result<(), AllocError>
    ensures written { OnOk result (out.new.items ≡ out.old.items ++ value_text (Some numbers.now)) }
    ensures front { OnErr result (StopsWithin out.old.items out.new.items (value_text (Some numbers.now))) }
{
    let Some((first, others)) = numbers.split_first() else {
        return Ok(());
    };
    out.extend_from_slice(b"=")?;
    write_integer(first, out)?;
    write_others(others, out)
}

/// Writes numbers, each after a comma.
fn write_others<A: Allocator>(numbers: &[i128], out: &mut Vec<u8, A>) -> Result<(), AllocError>
    ensures written { OnOk result (out.new.items ≡ out.old.items ++ flat_map behind_comma numbers.now) }
    ensures front { OnErr result (StopsWithin out.old.items out.new.items (flat_map behind_comma numbers.now)) }
{
    for number in numbers {
        out.extend_from_slice(b",")?;
        write_integer(number, out)?;
    }
    Ok(())
}

/// Writes a whole number in decimal.
fn write_integer<A: Allocator>(number: &i128, out: &mut Vec<u8, A>) -> Result<(), AllocError>
    ensures written { OnOk result (out.new.items ≡ out.old.items ++ signed_decimal number.now) }
    ensures refused { OnErr result (out.new.items ≡ out.old.items) }
{
    let mut buffer = Buffer::new();
    out.extend_from_slice(buffer.format(*number).as_bytes())
}
