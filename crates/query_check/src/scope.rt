//! The variables of a query: where they occur, to which level each belongs, and which are bound.

ghost use Rattle.std.specs.Prelude.{◌≡◌, ◌≤◌, drop, flat_map, length, map, option_map, option_to_list, IfOk};
ghost use Rattle.std.specs.List.{list_all};
ghost use Rattle.query_check.specs.Places.{IsRooted, IsTree, places_of};
ghost use Rattle.query_check.specs.Seen.{as_alternative, seen_occurrence, seen_use, sighting_of};
ghost use Rattle.query_model.specs.Levels.{Path, alternatives, level_of};
ghost use Rattle.query_model.specs.Scope.{binds, is_bound, is_sighting_of, is_variable, is_variable_if_written};
ghost use Rattle.query_model.specs.Scope.{is_word, names_variable, occurs_in, owner};
ghost use Rattle.query_model.specs.Seen.{seen_part, seen_reference, seen_term};

use crate::places::PartPlace;
use crate::uses::Use;
use query_model::Span;
use query_model::syntax::{Part, Reference, Role, Spoken, TermSyntax};
use std::alloc::{AllocError, Allocator};

/// The name of the variable that stands for each answer.
pub(crate) const THIS: &[u8] = b"this";

/// A variable where it stands, and the level in which that is.
#[derive(Clone, Copy)]
pub(crate) struct Occurrence<'a> {
    pub(crate) name: &'a [u8],
    pub(crate) level: usize,
    pub(crate) span: Span,
}

/// The variables among references, in the same order.
pub(crate) fn occurrences<'a, A: Allocator>(
    alloc: A,
    uses: &[Use<'a>],
) -> Result<Vec<Occurrence<'a>, A>, AllocError>
    ensures { IfOk result (λ found. map seen_occurrence found.items ≡ flat_map sighting_of (map seen_use uses.now)) }
{
    let mut found = Vec::new(alloc);
    for used in uses {
        if let Some(occurrence) = occurrence_of(used) {
            found.push(occurrence)?;
        }
    }
    Ok(found)
}

fn occurrence_of<'a>(used: &Use<'a>) -> Option<Occurrence<'a>>
    ensures { option_to_list (option_map seen_occurrence result) ≡ sighting_of (seen_use used.now) }
{
    match used.reference.spoken {
        Spoken::Variable(variable) => Some(Occurrence {
            name: name_of(variable),
            level: used.level,
            span: used.reference.span,
        }),
        _ => None,
    }
}

/// The name of a variable, which stands after its `$`.
pub(crate) fn name_of<'a>(variable: &'a str) -> &'a [u8]
    ensures { result.now ≡ drop 1 variable.now }
{
    match variable.as_bytes().split_first() {
        Some((_, name)) => name,
        None => &[],
    }
}

/// The level to which a variable belongs that occurs in a level: the outermost on the way to the whole query in which
/// its name occurs directly.
pub(crate) fn owner(
    places: &[PartPlace],
    occurrences: &[Occurrence<'_>],
    name: &[u8],
    level: usize,
) -> usize
    requires tree { IsTree places.now }
    requires within { level ≤ length places.now }
    ensures { (path : Path) → level ≡ level_of path → IsRooted places.now path
        → result ≡ owner (map seen_occurrence occurrences.now) name.now path }
{
    if name == THIS || occurs_in(occurrences, name, 0) {
        return 0;
    }
    let mut owner = 0;
    let mut inner = level;
    while inner != 0 {
        if occurs_in(occurrences, name, inner) {
            owner = inner;
        }
        inner = places[inner - 1].outer;
    }
    owner
}

/// Whether a name occurs directly in a level.
fn occurs_in(occurrences: &[Occurrence<'_>], name: &[u8], level: usize) -> bool
    ensures { result ≡ occurs_in (map seen_occurrence occurrences.now) name.now level }
{
    for occurrence in occurrences {
        if is_of(occurrence, name, level) {
            return true;
        }
    }
    false
}

/// Whether an occurrence is of a name in a level.
fn is_of(occurrence: &Occurrence<'_>, name: &[u8], level: usize) -> bool
    ensures { result ≡ is_sighting_of name.now level (seen_occurrence occurrence.now) }
{
    occurrence.level == level && occurrence.name == name
}

/// Whether a variable of a level is bound.
pub(crate) fn is_bound(parts: &[Part<'_>], places: &[PartPlace], name: &[u8], level: usize) -> bool
    requires places { places.now ≡ places_of (map seen_part parts.now) }
    requires length { length places.now ≡ length parts.now }
    ensures { result ≡ is_bound (map seen_part parts.now) name.now level }
{
    for (i, part) in parts.iter().enumerate() {
        if places[i].level == level && binds(part, &parts[i + 1..], name) {
            return true;
        }
    }
    false
}

/// Whether a part, after which others stand, binds a variable of its level.
fn binds(part: &Part<'_>, behind: &[Part<'_>], name: &[u8]) -> bool
    ensures { result ≡ binds name.now (alternatives (map seen_part behind.now)) (seen_part part.now) }
{
    match part {
        Part::Term(Role::And, term) => {
            names_variable(term, name) && alternatives_name(behind, name)
        }
        Part::Term(Role::Not, term) => names_variable(term, name),
        Part::Equality(left, true, right) => is_variable(left, name) && is_word(right),
        _ => false,
    }
}

/// Whether each of the alternatives at the beginning of parts names a variable.
fn alternatives_name(parts: &[Part<'_>], name: &[u8]) -> bool
    ensures { result ≡ list_all (names_variable name.now) (alternatives (map seen_part parts.now)) }
{
    for part in parts {
        let Some(term) = alternative(part) else {
            return true;
        };
        if !names_variable(term, name) {
            return false;
        }
    }
    true
}

/// The term of a part that is an alternative to the one before it.
pub(crate) fn alternative<'p, 'a>(part: &'p Part<'a>) -> Option<&'p TermSyntax<'a>>
    ensures { option_map (λ t. seen_term t.now) result ≡ as_alternative (seen_part part.now) }
{
    match part {
        Part::Term(Role::Or, term) => Some(term),
        _ => None,
    }
}

/// Whether a term names a variable.
fn names_variable(term: &TermSyntax<'_>, name: &[u8]) -> bool
    ensures { result ≡ names_variable name.now (seen_term term.now) }
{
    is_variable(&term.component, name)
        || is_variable_if_written(&term.source, name)
        || is_variable_if_written(&term.target, name)
}

fn is_variable_if_written(reference: &Option<Reference<'_>>, name: &[u8]) -> bool
    ensures { result ≡ is_variable_if_written name.now (option_map seen_reference reference.now) }
{
    reference.is_some_and(|reference| is_variable(&reference, name))
}

pub(crate) fn is_variable(reference: &Reference<'_>, name: &[u8]) -> bool
    ensures { result ≡ is_variable name.now (seen_reference reference.now) }
{
    match reference.spoken {
        Spoken::Variable(variable) => name_of(variable) == name,
        _ => false,
    }
}

fn is_word(reference: &Reference<'_>) -> bool
    ensures { result ≡ is_word (seen_reference reference.now) }
{
    matches!(reference.spoken, Spoken::Word(_))
}
