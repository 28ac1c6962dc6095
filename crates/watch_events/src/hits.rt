//! Whether a stored query may be notified of a command, by the ids of the changed facts.

ghost use Rattle.std.specs.Prelude.{◌≡◌, List, [], ℕ, false};
ghost use Rattle.std.specs.List.{list_any};
ghost use Rattle.ecs_model.specs.World.{WorldState};
ghost use Rattle.ecs_model.specs.rows.Rows.{matches};
ghost use Rattle.watch_concerns.specs.Since.{told_since};
ghost use Rattle.ecs_model.specs.stored.Watches.{matches_term};
ghost use Rattle.watch_events.specs.Hits.{any_matches, may_tell, may_tell_set};

use crate::terms::{matches, only_term};
use ecs_id::Id;
use ecs_model::FactKey;
use ecs_model::watches::StoredKind;
use ecs_world::Changes;
use query_check::Query;
use query_model::query::Term;
use std::alloc::Allocator;

/// Whether a stored query may be notified of a command: an observer where its term matches the id of a fact of its kind
/// of change, a monitor always, a kept query never.
///
/// It takes no memory, and a few steps for each changed fact.
pub fn may_tell<A: Allocator>(kind: StoredKind, query: &Query<A>, changes: &Changes<A>) -> bool
    ensures may { result ≡ may_tell changes.now kind query.now }
    ensures nothing { result ≡ false
        → (after : WorldState) (name old : List ℕ) → told_since after changes.now name kind query.now old ≡ [] }
{
    match kind {
        StoredKind::Kept => false,
        StoredKind::Monitor => true,
        StoredKind::OnAdd => any_matches(query, changes.came()),
        StoredKind::OnRemove => any_matches(query, changes.went()),
        StoredKind::OnSet => any_matches(query, changes.written()),
    }
}

/// Whether a stored query may be notified where the value of a held id is set: an observer of `set` whose term matches
/// the id.
pub fn may_tell_set<A: Allocator>(kind: StoredKind, query: &Query<A>, id: Id) -> bool
    ensures { result ≡ may_tell_set id kind query.now }
{
    match kind {
        StoredKind::OnSet => matches_id(query, id),
        _ => false,
    }
}

/// Whether an observer's term matches an id.
fn matches_id<A: Allocator>(query: &Query<A>, id: Id) -> bool
    ensures { result ≡ matches_term query.now id }
{
    match only_term(query) {
        Some(term) => matches(term, id),
        None => false,
    }
}

/// Whether an observer's term matches the id of one of these facts.
#[inline(always)]
fn any_matches<A: Allocator>(query: &Query<A>, facts: &[FactKey]) -> bool
    ensures { result ≡ any_matches query.now facts.now }
{
    match only_term(query) {
        Some(term) => any_fits(term, facts),
        None => false,
    }
}

/// Whether a term matches the id of one of these facts.
#[inline(always)]
fn any_fits(term: &Term, facts: &[FactKey]) -> bool
    ensures { result ≡ list_any (λ k. matches [] term.now.component term.now.target k.1) facts.now }
{
    facts.iter().any(|fact| matches(term, fact.id()))
}
