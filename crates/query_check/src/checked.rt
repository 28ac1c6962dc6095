//! The check of a query's syntax: its least fault, or the checked query.

ghost use Rattle.std.specs.Prelude.{◌≡◌, length, map, None, IfOk};
ghost use Rattle.query_check.specs.Found.{AreFound};
ghost use Rattle.query_check.specs.Places.{IsTree, places_of};
ghost use Rattle.query_check.specs.Seen.{AnswersCheck, level_uses, seen_cascading, seen_occurrence, seen_use};
ghost use Rattle.query_check.specs.Seen.{syntax_of};
ghost use Rattle.query_model.specs.Cascades.{cascades as cascades_in};
ghost use Rattle.query_model.specs.Check.{faults};
ghost use Rattle.query_model.specs.Faults.{least_from};
ghost use Rattle.query_model.specs.Query.{check_of};
ghost use Rattle.query_model.specs.Scope.{sightings};
ghost use Rattle.query_model.specs.Seen.{seen_part, seen_syntax};

use crate::cascades::{Cascading, cascades};
use crate::faults::{of_cascades, of_depth, of_names, of_terms, of_unbound, of_uses};
use crate::lookup::Lookup;
use crate::places::{PartPlace, places};
use crate::query::{Query, build};
use crate::scope::{Occurrence, occurrences};
use crate::uses::{Use, uses};
use query_model::faults::{Fault, QueryFault};
use query_model::syntax::{Part, Syntax};
use std::alloc::{AllocError, Allocator};

/// The checked query of a syntax, in a world.
///
/// Fails with the fault that starts first, and of several at one place with the one reported first. Or memory is
/// refused.
pub fn check<A: Allocator + Copy, W: Lookup>(
    alloc: A,
    world: &W,
    syntax: &Syntax<'_, A>,
) -> Result<Query<A>, QueryFault>
    ensures { AnswersCheck (W.known world.now) (seen_syntax syntax.now) result }
{
    match answer(alloc, world, syntax.parts.as_slice(), syntax.length) {
        Ok(Ok(query)) => Ok(query),
        Ok(Err(fault)) => Err(QueryFault::Fault(fault)),
        Err(_) => Err(QueryFault::Memory),
    }
}

/// The same of parts, where refused memory differs from a fault.
fn answer<'a, A: Allocator + Copy, W: Lookup>(
    alloc: A,
    world: &W,
    parts: &[Part<'a>],
    text_length: usize,
) -> Result<Result<Query<A>, Fault>, AllocError>
    ensures { IfOk result (λ answer. check_of (W.known world.now) (syntax_of (map seen_part parts.now) text_length)
        ≡ answer) }
{
    let places = places(alloc, parts)?;
    let places = places.as_slice();
    let uses = uses(alloc, world, parts, places)?;
    let uses = uses.as_slice();
    let found = occurrences(alloc, uses)?;
    let found = found.as_slice();
    let cascades = cascades(alloc, parts, places)?;
    let cascades = cascades.as_slice();
    if let Some(fault) = least_fault(alloc, world, parts, places, uses, found, cascades)? {
        return Ok(Err(fault));
    }
    let query = build(
        alloc,
        world,
        parts,
        text_length,
        places,
        uses,
        found,
        cascades,
    )?;
    Ok(Ok(query))
}

/// The least fault of a query's parts, by their places, their references, their variables and their `cascade`.
fn least_fault<A: Allocator + Copy, W: Lookup>(
    alloc: A,
    world: &W,
    parts: &[Part<'_>],
    places: &[PartPlace],
    uses: &[Use<'_>],
    found: &[Occurrence<'_>],
    cascades: &[Cascading<'_>],
) -> Result<Option<Fault>, AllocError>
    requires places { places.now ≡ places_of (map seen_part parts.now) }
    requires length { length places.now ≡ length parts.now }
    requires tree { IsTree places.now }
    requires uses { map seen_use uses.now ≡ level_uses (map seen_part parts.now) }
    requires found { AreFound (W.known world.now) uses.now }
    requires occurrences { map seen_occurrence found.now ≡ sightings (map seen_part parts.now) }
    requires cascades { map seen_cascading cascades.now ≡ cascades_in (map seen_part parts.now) }
    ensures { IfOk result (λ least. least ≡ least_from None (faults (W.known world.now) (map seen_part parts.now))) }
{
    let by_uses = of_uses(world, uses, None);
    let by_depth = of_depth(parts, places, by_uses);
    let by_terms = of_terms(parts, by_depth);
    let by_names = of_names(alloc, found, by_terms)?;
    let by_unbound = of_unbound(parts, places, found, by_names);
    Ok(of_cascades(cascades, by_unbound))
}
