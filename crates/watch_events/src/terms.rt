//! The one term of an observer's query, and the ids that it matches.

ghost use Rattle.std.specs.Prelude.{◌≡◌, []};
ghost use Rattle.std.specs.Option.{option_copied};
ghost use Rattle.ecs_model.specs.rows.Rows.{asks_tag_of_this, fits, matches};
ghost use Rattle.ecs_model.specs.stored.Watches.{only_term};

use ecs_id::Id;
use query_check::{Item, Piece, Query};
use query_model::query::{Ref, Term};
use std::alloc::Allocator;

/// The one term of a query that consists of one required term; none for any other query.
pub(crate) fn only_term<A: Allocator>(query: &Query<A>) -> Option<&Term>
    ensures { option_copied result ≡ only_term (query.now).pieces }
{
    match query.pieces() {
        [Piece::Item(Item::And(term))] => Some(term),
        _ => None,
    }
}

/// Whether a term matches an id. A variable matches nothing here.
pub(crate) fn matches(term: &Term, id: Id) -> bool
    ensures { result ≡ matches [] term.now.component term.now.target id }
{
    match (term.target, id.second()) {
        (None, None) => fits(term.component, id.first()),
        (Some(target), Some(second)) => fits(term.component, id.first()) && fits(target, second),
        _ => false,
    }
}

fn fits(reference: Ref, entity: u32) -> bool
    ensures { result ≡ fits [] entity reference }
{
    match reference {
        Ref::Is(index) => index == entity,
        Ref::Var(_) => false,
        Ref::Any | Ref::AnyOnce => true,
    }
}

/// Whether the term asks `$this` for this tag.
pub(crate) fn asks_tag_of_this(term: &Term, tag: u32) -> bool
    ensures { result ≡ asks_tag_of_this tag term.now }
{
    match (term.component, term.target, term.source) {
        (Ref::Is(component), None, Ref::Var(number)) => component == tag && number == 0,
        _ => false,
    }
}
