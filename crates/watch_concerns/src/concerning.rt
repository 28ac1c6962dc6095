//! Which ids concern a query, and which terms have `$this` or its ancestors as the source.

ghost use Rattle.std.specs.Prelude.{◌≡◌};
ghost use Rattle.watch_concerns.specs.Concerns.{is_asked_by_all, is_pair_of, leads_up, may_be, may_match};
ghost use Rattle.watch_concerns.specs.Concerns.{term_concerns};
ghost use Rattle.watch_concerns.specs.Others.{asks_this_stored, says_how_far};

use ecs_id::Id;
use ecs_model::built_ins::{DISABLED, PREFAB, REFLEXIVE, TRANSITIVE};
use query_model::query::{Ref, Term};

/// Whether an id is one of the tags that concern every query: `Transitive` and `Reflexive`, which say how far a
/// relationship reaches, and `Prefab` and `Disabled`, which hide an entity from queries.
#[inline(always)]
pub fn is_asked_by_all(id: Id) -> bool
    ensures { result ≡ is_asked_by_all id }
{
    if id.second().is_some() {
        return false;
    }
    let tag = id.first();
    tag == TRANSITIVE || tag == REFLEXIVE || tag == PREFAB || tag == DISABLED
}

/// Whether an id is one of the tags `Transitive` and `Reflexive`, which say how far a relationship reaches.
#[inline(always)]
pub fn says_how_far(id: Id) -> bool
    ensures { result ≡ says_how_far id }
{
    if id.second().is_some() {
        return false;
    }
    let tag = id.first();
    tag == TRANSITIVE || tag == REFLEXIVE
}

/// Whether a term tests stored facts of `$this` or of its ancestors. A closed term, of a transitive or reflexive
/// relationship, also matches facts that aren't stored.
pub(crate) fn asks_this_stored(term: &Term) -> bool
    ensures { result ≡ asks_this_stored term.now }
{
    term.source.is_first() && !term.closed
}

/// Whether an id concerns a term: the term may match it, goes up along it to ancestors, or follows it as a transitive
/// or reflexive relationship.
pub(crate) fn term_concerns(term: &Term, id: Id) -> bool
    ensures { result ≡ term_concerns id term.now }
{
    may_match(term.component, term.target, id)
        || leads_up(term.up, id)
        || (term.closed && is_pair_of(term.component, id))
}

/// Whether a pattern may match an id: with a target only pairs, without a target only plain ids.
pub(crate) fn may_match(first: Ref, target: Option<Ref>, id: Id) -> bool
    ensures { result ≡ may_match first target id }
{
    match (target, id.second()) {
        (None, None) => may_be(id.first(), first),
        (Some(target), Some(second)) => may_be(id.first(), first) && may_be(second, target),
        _ => false,
    }
}

/// Whether an id is a pair of the relationship along which a term goes up to ancestors.
fn leads_up(up: Option<u32>, id: Id) -> bool
    ensures { result ≡ leads_up up id }
{
    up.is_some_and(|relationship| is_pair_of(Ref::Is(relationship), id))
}

/// Whether an id is a pair of a relationship, whatever its target.
fn is_pair_of(first: Ref, id: Id) -> bool
    ensures { result ≡ is_pair_of first id }
{
    id.second().is_some() && may_be(id.first(), first)
}

/// Whether a reference may stand for the entity at an index; a variable may stand for any.
fn may_be(index: u32, reference: Ref) -> bool
    ensures { result ≡ may_be index reference }
{
    match reference {
        Ref::Is(named) => named == index,
        Ref::Var(_) | Ref::Any | Ref::AnyOnce => true,
    }
}
