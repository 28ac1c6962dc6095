//! For which entities an id concerns a query.

ghost use Rattle.std.specs.Prelude.{◌≡◌};
ghost use Rattle.watch_concerns.specs.Whom.{concern_of, joined_concerns, term_concern, terms_concern};

use crate::concerning::{asks_this_stored, is_asked_by_all, says_how_far, term_concerns};
use ecs_id::Id;
use query_check::Query;
use query_model::query::Term;
use std::alloc::Allocator;

/// For which entities an id concerns a query, if one of them gains or loses it.
#[derive(Clone, Copy)]
pub struct Concern {
    /// For its holder or for another entity.
    pub anyone: bool,
    /// For entities besides its holder and those below it.
    pub others: bool,
    /// For the entities below its holder, whose ancestor it is.
    pub below: bool,
}

/// For no entity.
pub const NOBODY: Concern = Concern {
    anyone: false,
    others: false,
    below: false,
};

/// For which entities an id concerns a query: the answers of `concerns`, `concerns_others` and `concerns_below` in one
/// pass.
///
/// It takes no memory, and time in the number of terms of the query.
#[tactic(auto, unfolding(crate::specs::Concerns::concerns, crate::specs::Others::concerns_others, crate::specs::Others::concerns_below))]
pub fn concern_of<A: Allocator>(query: &Query<A>, id: Id) -> Concern
    ensures { result ≡ concern_of query.now id }
{
    let of_tags = Concern {
        anyone: is_asked_by_all(id),
        others: says_how_far(id),
        below: false,
    };
    joined_concerns(of_tags, of_terms(query.terms(), id))
}

/// For which entities one of the two does.
#[inline(always)]
pub fn joined_concerns(one: Concern, other: Concern) -> Concern
    ensures { result ≡ joined_concerns one other }
{
    Concern {
        anyone: one.anyone | other.anyone,
        others: one.others | other.others,
        below: one.below | other.below,
    }
}

fn of_terms(terms: &[Term], id: Id) -> Concern
    ensures { result ≡ terms_concern id terms.now }
{
    let mut found = NOBODY;
    for term in terms {
        found = joined_concerns(found, of_term(term, id));
    }
    found
}

#[inline(always)]
fn of_term(term: &Term, id: Id) -> Concern
    ensures { result ≡ term_concern id term.now }
{
    if !term_concerns(term, id) {
        return NOBODY;
    }
    let this = asks_this_stored(term);
    Concern {
        anyone: true,
        others: !this,
        below: this && term.up.is_some(),
    }
}
