//! The references of a query, in the order of the text.

ghost use Rattle.std.specs.Prelude.{◌≡◌, ◌++◌, length, map, option_map, IfOk, Some};
ghost use Rattle.query_model.specs.Query.{entity_named};
ghost use Rattle.query_check.specs.Found.{AreFound};
ghost use Rattle.query_check.specs.Places.{places_of};
ghost use Rattle.query_check.specs.Seen.{at_level, level_uses, seen_use};
ghost use Rattle.query_model.specs.Seen.{seen_part, seen_reference, seen_term};
ghost use Rattle.query_model.specs.Uses.{risen, uses_of, uses_of_term, written};

use crate::lookup::Lookup;
use crate::places::PartPlace;
use ecs_id::EntityId;
use query_model::query::Position;
use query_model::syntax::{Flags, Part, Reference, Rise, Spoken, TermSyntax};
use std::alloc::{AllocError, Allocator};

/// A reference, what it is to its part, the level in which it stands, and the entity that it names, if it names one.
#[derive(Clone, Copy)]
pub(crate) struct Use<'a> {
    pub(crate) level: usize,
    pub(crate) position: Position,
    pub(crate) reference: Reference<'a>,
    pub(crate) entity: Option<EntityId>,
}

/// The references of a query's parts.
pub(crate) fn uses<'a, A: Allocator + Copy, W: Lookup>(
    alloc: A,
    world: &W,
    parts: &[Part<'a>],
    places: &[PartPlace],
) -> Result<Vec<Use<'a>, A>, AllocError>
    requires places { places.now ≡ places_of (map seen_part parts.now) }
    requires length { length places.now ≡ length parts.now }
    ensures uses { IfOk result (λ uses. map seen_use uses.items ≡ level_uses (map seen_part parts.now)) }
    ensures found { IfOk result (λ uses. AreFound (W.known world.now) uses.items) }
{
    let mut uses = Vec::with_capacity(alloc, parts.len())?;
    for (i, part) in parts.iter().enumerate() {
        add_part(world, places[i].level, part, &mut uses)?;
    }
    Ok(uses)
}

/// Adds the references of a part.
fn add_part<'a, A: Allocator, W: Lookup>(
    world: &W,
    level: usize,
    part: &Part<'a>,
    uses: &mut Vec<Use<'a>, A>,
) -> Result<(), AllocError>
    ensures uses { IfOk result (λ _. map seen_use uses.new.items
        ≡ map seen_use uses.old.items ++ map (at_level level) (uses_of (seen_part part.now))) }
    ensures found { AreFound (W.known world.now) uses.old.items
        → IfOk result (λ _. AreFound (W.known world.now) uses.new.items) }
{
    match part {
        Part::Term(_, term) => add_term(world, level, term, uses),
        Part::Opened(_) | Part::Closed => Ok(()),
        Part::Equality(left, _, right) => {
            add(world, level, Position::Left, left, uses)?;
            add(world, level, Position::Right, right, uses)
        }
    }
}

/// Adds the references of a term.
fn add_term<'a, A: Allocator, W: Lookup>(
    world: &W,
    level: usize,
    term: &TermSyntax<'a>,
    uses: &mut Vec<Use<'a>, A>,
) -> Result<(), AllocError>
    ensures uses { IfOk result (λ _. map seen_use uses.new.items
        ≡ map seen_use uses.old.items ++ map (at_level level) (uses_of_term (seen_term term.now))) }
    ensures found { AreFound (W.known world.now) uses.old.items
        → IfOk result (λ _. AreFound (W.known world.now) uses.new.items) }
{
    add(world, level, Position::Component, &term.component, uses)?;
    add_written(world, level, Position::Source, &term.source, uses)?;
    if let Some(along) = risen(term) {
        add(world, level, Position::Risen, along, uses)?;
    }
    add_written(world, level, Position::Target, &term.target, uses)
}

/// Adds a reference, if it is written.
fn add_written<'a, A: Allocator, W: Lookup>(
    world: &W,
    level: usize,
    position: Position,
    reference: &Option<Reference<'a>>,
    uses: &mut Vec<Use<'a>, A>,
) -> Result<(), AllocError>
    ensures uses { IfOk result (λ _. map seen_use uses.new.items
        ≡ map seen_use uses.old.items ++ map (at_level level) (written position
        (option_map seen_reference reference.now))) }
    ensures found { AreFound (W.known world.now) uses.old.items
        → IfOk result (λ _. AreFound (W.known world.now) uses.new.items) }
{
    match reference {
        Some(reference) => add(world, level, position, reference, uses),
        None => Ok(()),
    }
}

/// Adds a reference.
fn add<'a, A: Allocator, W: Lookup>(
    world: &W,
    level: usize,
    position: Position,
    reference: &Reference<'a>,
    uses: &mut Vec<Use<'a>, A>,
) -> Result<(), AllocError>
    ensures uses { IfOk result (λ _. map seen_use uses.new.items
        ≡ map seen_use uses.old.items ++ map (at_level level) (written position
        (Some (seen_reference reference.now)))) }
    ensures found { AreFound (W.known world.now) uses.old.items
        → IfOk result (λ _. AreFound (W.known world.now) uses.new.items) }
{
    let entity = entity_named(world, reference);
    uses.reserve(1)?;
    uses.push_reserved(Use {
        level,
        position,
        reference: *reference,
        entity,
    });
    Ok(())
}

/// The entity that a reference names.
fn entity_named<W: Lookup>(world: &W, reference: &Reference<'_>) -> Option<EntityId>
    ensures { result ≡ entity_named (W.known world.now) (seen_reference reference.now).spoken }
{
    match reference.spoken {
        Spoken::Word(word) => world.find(word),
        _ => None,
    }
}

/// The relationship after a term's `up` or `cascade`, if it is written.
fn risen<'t, 'a>(term: &'t TermSyntax<'a>) -> Option<&'t Reference<'a>>
    ensures { option_map (λ r. seen_reference r.now) result ≡ risen (seen_term term.now) }
{
    match &term.flags {
        Some(
            Flags {
                rise: Rise::Up(_, Some(along)),
                ..
            },
        ) => Some(along),
        _ => None,
    }
}
