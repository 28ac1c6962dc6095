//! The variables of a query by number.

ghost use Rattle.std.specs.Prelude.{◌≡◌, ◌≤◌, filter, fold, length, map, IfOk};
ghost use Rattle.std.specs.List.{list_any};
ghost use Rattle.query_check.specs.Places.{IsRooted, IsTree, places_of};
ghost use Rattle.query_check.specs.Seen.{seen_occurrence, seen_variable};
ghost use Rattle.query_model.specs.Levels.{Path, level_of};
ghost use Rattle.query_model.specs.Numbers.{add_new, has_this, understands_this, is_this, is_whole, number_from};
ghost use Rattle.query_model.specs.Numbers.{numbers_from, same_variable, variables};
ghost use Rattle.query_model.specs.Scope.{occurrences, owner, sightings};
ghost use Rattle.query_model.specs.Seen.{seen_part};

use crate::places::PartPlace;
use crate::query::Scope;
use crate::scope::{Occurrence, THIS, owner};
use query_model::syntax::Part;
use std::alloc::{AllocError, Allocator};

/// A variable: its name, and the level to which it belongs.
#[derive(Clone, Copy)]
pub(crate) struct Variable<'a> {
    pub(crate) name: &'a [u8],
    pub(crate) level: usize,
}

/// The variables of a query in the order of their numbers: `$this`, the others of the whole query, and then those of
/// groups, each by first appearance.
pub(crate) fn variables<'a, A: Allocator + Copy>(
    alloc: A,
    parts: &[Part<'a>],
    places: &[PartPlace],
    found: &[Occurrence<'a>],
) -> Result<Vec<Variable<'a>, A>, AllocError>
    requires places { places.now ≡ places_of (map seen_part parts.now) }
    requires tree { IsTree places.now }
    requires occurrences { map seen_occurrence found.now ≡ sightings (map seen_part parts.now) }
    ensures { IfOk result (λ numbered. map seen_variable numbered.items ≡ variables (map seen_part parts.now)) }
{
    let mut owned = Vec::new(alloc);
    for occurrence in found {
        owned.push(Variable {
            name: occurrence.name,
            level: owner(places, found, occurrence.name, occurrence.level),
        })?;
    }
    let mut numbered = Vec::new(alloc);
    if has_this(parts, found) {
        numbered.push(Variable {
            name: THIS,
            level: 0,
        })?;
    }
    add_new(&mut numbered, owned.as_slice(), true)?;
    add_new(&mut numbered, owned.as_slice(), false)?;
    Ok(numbered)
}

/// Adds the variables of the whole query, or those of groups, each once.
fn add_new<'a, A: Allocator>(
    numbered: &mut Vec<Variable<'a>, A>,
    owned: &[Variable<'a>],
    whole: bool,
) -> Result<(), AllocError>
    ensures { IfOk result (λ _. map seen_variable numbered.new.items
        ≡ fold add_new (map seen_variable numbered.old.items) (filter (is_whole whole) (map seen_variable owned.now))) }
{
    for variable in owned {
        if is_whole(variable, whole) && !is_among(numbered.as_slice(), variable) {
            numbered.push(*variable)?;
        }
    }
    Ok(())
}

fn is_whole(variable: &Variable<'_>, whole: bool) -> bool
    ensures { result ≡ is_whole whole (seen_variable variable.now) }
{
    if whole {
        variable.level == 0
    } else {
        variable.level != 0
    }
}

/// Whether a variable is one of some variables.
fn is_among(variables: &[Variable<'_>], variable: &Variable<'_>) -> bool
    ensures { result ≡ list_any (same_variable (seen_variable variable.now)) (map seen_variable variables.now) }
{
    for other in variables {
        if is_same(variable, other) {
            return true;
        }
    }
    false
}

fn is_same(variable: &Variable<'_>, other: &Variable<'_>) -> bool
    ensures { result ≡ same_variable (seen_variable variable.now) (seen_variable other.now) }
{
    variable.name == other.name && variable.level == other.level
}

/// Whether `$this` occurs: it is written, or a term names no source.
pub(crate) fn has_this(parts: &[Part<'_>], found: &[Occurrence<'_>]) -> bool
    requires { map seen_occurrence found.now ≡ sightings (map seen_part parts.now) }
    ensures { result ≡ has_this (map seen_part parts.now) }
{
    is_written(found) || is_understood(parts)
}

fn is_written(found: &[Occurrence<'_>]) -> bool
    ensures { result ≡ list_any is_this (map seen_occurrence found.now) }
{
    for occurrence in found {
        if occurrence.name == THIS {
            return true;
        }
    }
    false
}

fn is_understood(parts: &[Part<'_>]) -> bool
    ensures { result ≡ list_any understands_this (map seen_part parts.now) }
{
    for part in parts {
        if understands(part) {
            return true;
        }
    }
    false
}

/// Whether a part is a term that names no source.
fn understands(part: &Part<'_>) -> bool
    ensures { result ≡ understands_this (seen_part part.now) }
{
    match part {
        Part::Term(_, term) => term.source.is_none(),
        _ => false,
    }
}

/// The number of a variable that occurs in a level.
pub(crate) fn number_of(scope: &Scope<'_, '_>, name: &[u8], level: usize) -> usize
    requires tree { IsTree scope.now.places.now }
    requires within { level ≤ length scope.now.places.now }
    ensures { (path : Path) → level ≡ level_of path → IsRooted scope.now.places.now path
        → result ≡ number_from 0 (name.now, owner (map seen_occurrence scope.now.found.now) name.now path)
        (map seen_variable scope.now.numbered.now) }
{
    let variable = Variable {
        name,
        level: owner(scope.places, scope.found, name, level),
    };
    place_among(scope.numbered, &variable)
}

/// The place of a variable among others.
fn place_among(numbered: &[Variable<'_>], variable: &Variable<'_>) -> usize
    ensures { result ≡ number_from 0 (seen_variable variable.now) (map seen_variable numbered.now) }
{
    for (i, other) in numbered.iter().enumerate() {
        if is_same(variable, other) {
            return i;
        }
    }
    0
}

/// The numbers of a level's own variables.
pub(crate) fn own_numbers<A: Allocator>(
    alloc: A,
    numbered: &[Variable<'_>],
    level: usize,
) -> Result<Vec<usize, A>, AllocError>
    ensures { IfOk result (λ own. own.items ≡ numbers_from 0 level (map seen_variable numbered.now)) }
{
    let mut own = Vec::new(alloc);
    for (i, variable) in numbered.iter().enumerate() {
        if variable.level == level {
            own.push(i)?;
        }
    }
    Ok(own)
}
