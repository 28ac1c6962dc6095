//! The faults of a query's syntax, kind by kind: each function answers the least of its own and of the one that was
//! found before.

ghost use Rattle.std.specs.Prelude.{◌≡◌, ◌≤◌, [], ◌∷◌, if◌then◌else◌, bytes_eq, flat_map, length, map, option_map};
ghost use Rattle.std.specs.Prelude.{option_to_list, IfOk};
ghost use Rattle.std.specs.List.{list_any};
ghost use Rattle.query_check.specs.Found.{AreFound, IsFound};
ghost use Rattle.query_check.specs.Places.{IsRooted, IsTree, places_of};
ghost use Rattle.query_check.specs.Seen.{seen_cascading, seen_use, seen_occurrence};
ghost use Rattle.query_model.specs.Cascades.{is_misplaced, misplaced};
ghost use Rattle.query_model.specs.Check.{Known, cascade_fault, counted_spans, faults_of_position, faults_of_use};
ghost use Rattle.query_model.specs.Check.{item_at, most_names, most_terms, new_names};
ghost use Rattle.query_model.specs.Check.{not_traversable, too_deep, too_deep_part, unbound, unknown_word, wildcard};
ghost use Rattle.query_model.specs.Faults.{is_before, kind_number, fault_at, least_from, lesser};
ghost use Rattle.query_model.specs.Levels.{Path, placed_parts};
ghost use Rattle.query_model.specs.Scope.{occurrences, sighting, sightings, this};
ghost use Rattle.query_model.specs.Seen.{seen_part, seen_reference};
ghost use Rattle.query_model.specs.Scope as specs;

use crate::cascades::{Cascading, is_misplaced};
use crate::lookup::Lookup;
use crate::places::PartPlace;
use crate::scope::{Occurrence, THIS, is_bound, owner};
use crate::uses::Use;
use query_model::Span;
use query_model::faults::{Fault, FaultKind};
use query_model::query::Position;
use query_model::syntax::{Part, Reference, Spoken};
use std::alloc::{AllocError, Allocator};

/// How many terms and equalities a query may have.
const MOST_TERMS: usize = 64;

/// How many names of variables besides `$this` a query may have.
const MOST_NAMES: usize = 32;

/// How many groups may stand around a part.
const MOST_GROUPS: usize = 4;

/// A fault of a kind, by its place.
pub(crate) fn fault_at(kind: FaultKind, span: Span) -> Fault
    ensures { result ≡ fault_at kind span }
{
    Fault { kind, span }
}

/// The least fault of references.
pub(crate) fn of_uses<W: Lookup>(world: &W, uses: &[Use<'_>], found: Option<Fault>) -> Option<Fault>
    requires { AreFound (W.known world.now) uses.now }
    ensures { result ≡ least_from found (flat_map (λ u. faults_of_use (W.known world.now) u.1)
        (map seen_use uses.now)) }
{
    let mut least = found;
    for used in uses {
        add_use(world, used, &mut least);
    }
    least
}

/// Looks at one more reference.
fn add_use<W: Lookup>(world: &W, used: &Use<'_>, least: &mut Option<Fault>)
    requires { IsFound (W.known world.now) used.now }
    ensures { least.new ≡ least_from least.old (faults_of_use (W.known world.now) (seen_use used.now).1) }
{
    add_fault(least, unknown_word(used));
    add_fault(least, of_position(world, used));
}

/// The lesser of the fault that was found and another, if there is another.
fn with_fault(found: Option<Fault>, other: Option<Fault>) -> Option<Fault>
    ensures { result ≡ least_from found (option_to_list other) }
{
    let mut least = found;
    add_fault(&mut least, other);
    least
}

/// The same, where nothing is written unless the other is less: mostly there is none.
fn add_fault(least: &mut Option<Fault>, other: Option<Fault>)
    ensures { least.new ≡ least_from least.old (option_to_list other) }
{
    if let Some(fault) = other {
        if is_less(&fault, *least) {
            *least = Some(fault);
        }
    }
}

/// Whether a fault is reported before another.
fn is_before(fault: &Fault, other: &Fault) -> bool
    ensures { result ≡ is_before fault.now other.now }
{
    fault.span.start < other.span.start
        || fault.span.start == other.span.start && number_of(fault.kind) < number_of(other.kind)
}

/// The place of a kind in the order in which faults at one place are reported.
fn number_of(kind: FaultKind) -> u8
    ensures { result ≡ kind_number kind }
{
    kind as u8 + 1
}

/// The fault of a word that names no entity.
fn unknown_word(used: &Use<'_>) -> Option<Fault>
    ensures { let r = seen_reference (used.now).reference in (k : Known) → IsFound k used.now
        → option_to_list result ≡ unknown_word k r.spoken r.span }
{
    match used.reference.spoken {
        Spoken::Word(_) if used.entity.is_none() => {
            Some(fault_at(FaultKind::UnknownName, used.reference.span))
        }
        _ => None,
    }
}

/// The fault of a reference for what it is to its part.
fn of_position<W: Lookup>(world: &W, used: &Use<'_>) -> Option<Fault>
    requires { IsFound (W.known world.now) used.now }
    ensures { let r = seen_reference (used.now).reference in option_to_list result
        ≡ faults_of_position (W.known world.now) (used.now).position r.spoken r.span }
{
    match used.position {
        Position::Risen => not_traversable(world, used),
        Position::Source => wildcard(FaultKind::WildcardSource, &used.reference),
        Position::Right => wildcard(FaultKind::WildcardEquality, &used.reference),
        _ => None,
    }
}

/// The fault of a relationship after `up` or `cascade` that can't be traversed.
fn not_traversable<W: Lookup>(world: &W, used: &Use<'_>) -> Option<Fault>
    requires { IsFound (W.known world.now) used.now }
    ensures { let r = seen_reference (used.now).reference in option_to_list result
        ≡ not_traversable (W.known world.now) r.spoken r.span }
{
    match used.entity {
        Some(entity) if !world.is_traversable(entity.index) => {
            Some(fault_at(FaultKind::NotTraversable, used.reference.span))
        }
        _ => None,
    }
}

/// The fault of a wildcard.
fn wildcard(kind: FaultKind, reference: &Reference<'_>) -> Option<Fault>
    ensures { let r = seen_reference reference.now in option_to_list result ≡ wildcard kind r.spoken r.span }
{
    match reference.spoken {
        Spoken::Any | Spoken::AnyOnce => Some(fault_at(kind, reference.span)),
        _ => None,
    }
}

/// The least fault of groups that are too deep.
pub(crate) fn of_depth(
    parts: &[Part<'_>],
    places: &[PartPlace],
    found: Option<Fault>,
) -> Option<Fault>
    requires places { places.now ≡ places_of (map seen_part parts.now) }
    requires length { length places.now ≡ length parts.now }
    ensures { result ≡ least_from found (flat_map too_deep_part (placed_parts (map seen_part parts.now))) }
{
    let mut least = found;
    for (i, part) in parts.iter().enumerate() {
        add_fault(&mut least, too_deep(part, places[i].depth));
    }
    least
}

/// The fault of a group inside four groups, which is itself one of the levels in which it stands.
fn too_deep(part: &Part<'_>, depth: usize) -> Option<Fault>
    ensures { (path : Path) → length path ≡ depth → option_to_list result ≡ too_deep path (seen_part part.now) }
{
    match part {
        Part::Opened(span) if depth > MOST_GROUPS => Some(fault_at(FaultKind::TooDeep, *span)),
        _ => None,
    }
}

/// The least fault of a query with too many terms.
pub(crate) fn of_terms(parts: &[Part<'_>], found: Option<Fault>) -> Option<Fault>
    ensures { result ≡ least_from found (map (fault_at FaultKind.TooManyTerms)
        (item_at most_terms (flat_map counted_spans (map seen_part parts.now)))) }
{
    match one_too_many(parts) {
        Some(span) => with_fault(found, Some(fault_at(FaultKind::TooManyTerms, span))),
        None => found,
    }
}

/// The span of the first term or equality that is one too many.
fn one_too_many(parts: &[Part<'_>]) -> Option<Span>
    ensures { option_to_list result ≡ item_at most_terms (flat_map counted_spans (map seen_part parts.now)) }
{
    let mut left = MOST_TERMS;
    for part in parts {
        if let Some(span) = counted_span(part) {
            if left == 0 {
                return Some(span);
            }
            left -= 1;
        }
    }
    None
}

/// The span of a part that counts as a term.
fn counted_span(part: &Part<'_>) -> Option<Span>
    ensures { option_to_list result ≡ counted_spans (seen_part part.now) }
{
    match part {
        Part::Term(_, term) => Some(term.span),
        Part::Opened(_) | Part::Closed => None,
        Part::Equality(left, _, right) => Some(Span {
            start: left.span.start,
            end: right.span.end,
        }),
    }
}

/// The least fault of a query with too many names of variables.
pub(crate) fn of_names<A: Allocator + Copy>(
    alloc: A,
    occurrences: &[Occurrence<'_>],
    found: Option<Fault>,
) -> Result<Option<Fault>, AllocError>
    ensures { IfOk result (λ least. least ≡ least_from found (map (λ s. fault_at FaultKind.TooManyVariables s.span)
        (item_at most_names (new_names (this ∷ []) (map seen_occurrence occurrences.now))))) }
{
    if occurrences.len() <= MOST_NAMES {
        return Ok(found);
    }
    let fault = one_name_too_many(alloc, occurrences)?.map(|o| fault_at(
        FaultKind::TooManyVariables,
        o.span,
    ));
    Ok(with_fault(found, fault))
}

/// The first occurrence of the 33rd name besides `$this`.
fn one_name_too_many<'a, A: Allocator + Copy>(
    alloc: A,
    occurrences: &[Occurrence<'a>],
) -> Result<Option<Occurrence<'a>>, AllocError>
    ensures { IfOk result (λ found. option_to_list (option_map seen_occurrence found)
        ≡ item_at most_names (new_names (this ∷ []) (map seen_occurrence occurrences.now))) }
{
    let mut seen = Vec::new(alloc);
    seen.push(THIS)?;
    for occurrence in occurrences {
        if !is_among(seen.as_slice(), occurrence.name) {
            if seen.len() > MOST_NAMES {
                return Ok(Some(*occurrence));
            }
            seen.push(occurrence.name)?;
        }
    }
    Ok(None)
}

/// Whether a name is one of some names.
fn is_among(names: &[&[u8]], name: &[u8]) -> bool
    ensures { result ≡ list_any (bytes_eq name.now) (map (λ n. n.now) names.now) }
{
    for other in names {
        if name == *other {
            return true;
        }
    }
    false
}

/// The least fault of variables that aren't bound.
pub(crate) fn of_unbound(
    parts: &[Part<'_>],
    places: &[PartPlace],
    found_in: &[Occurrence<'_>],
    found: Option<Fault>,
) -> Option<Fault>
    requires places { places.now ≡ places_of (map seen_part parts.now) }
    requires length { length places.now ≡ length parts.now }
    requires tree { IsTree places.now }
    requires occurrences { map seen_occurrence found_in.now ≡ sightings (map seen_part parts.now) }
    ensures { let ps = map seen_part parts.now in result ≡ least_from found (flat_map (unbound ps) (occurrences ps)) }
{
    let mut least = found;
    for occurrence in found_in {
        least = of_variable(parts, places, found_in, occurrence, least);
    }
    least
}

/// The lesser of the fault that was found and that of a variable that isn't bound.
fn of_variable(
    parts: &[Part<'_>],
    places: &[PartPlace],
    found_in: &[Occurrence<'_>],
    occurrence: &Occurrence<'_>,
    found: Option<Fault>,
) -> Option<Fault>
    requires places { places.now ≡ places_of (map seen_part parts.now) }
    requires length { length places.now ≡ length parts.now }
    requires tree { IsTree places.now }
    requires occurrences { map seen_occurrence found_in.now ≡ sightings (map seen_part parts.now) }
    requires within { occurrence.now.level ≤ length places.now }
    ensures { (o : specs.Occurrence) → sighting o ≡ seen_occurrence occurrence.now → IsRooted places.now o.path
        → result ≡ least_from found (unbound (map seen_part parts.now) o) }
{
    let fault = Fault {
        kind: FaultKind::UnboundVariable,
        span: occurrence.span,
    };
    if !is_less(&fault, found) || occurrence.name == THIS {
        return found;
    }
    let owner = owner(places, found_in, occurrence.name, occurrence.level);
    if is_bound(parts, places, occurrence.name, owner) {
        return found;
    }
    Some(fault)
}

/// The least fault of a `cascade` that stands where it may not: the first, if it is misplaced, and each after it.
pub(crate) fn of_cascades(cascades: &[Cascading<'_>], found: Option<Fault>) -> Option<Fault>
    ensures { result ≡ least_from found (flat_map cascade_fault (misplaced (map seen_cascading cascades.now))) }
{
    let Some((first, others)) = cascades.split_first() else {
        return found;
    };
    let least = if is_misplaced(first) {
        with_fault(found, Some(misplaced(first)))
    } else {
        found
    };
    of_others(others, least)
}

/// The least fault of each `cascade` after the first.
fn of_others(others: &[Cascading<'_>], found: Option<Fault>) -> Option<Fault>
    ensures { result ≡ least_from found (flat_map cascade_fault (map seen_cascading others.now)) }
{
    let mut least = found;
    for other in others {
        add_fault(&mut least, Some(misplaced(other)));
    }
    least
}

fn misplaced(cascading: &Cascading<'_>) -> Fault
    ensures { cascade_fault (seen_cascading cascading.now) ≡ result ∷ [] }
{
    fault_at(FaultKind::CascadePlace, cascading.span)
}

/// Whether a fault is reported before the one that was found, if there is one.
fn is_less(fault: &Fault, found: Option<Fault>) -> bool
    ensures { lesser found fault.now ≡ (if result then Some fault.now else found) }
{
    found.is_none_or(|least| is_before(fault, &least))
}
