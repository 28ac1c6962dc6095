//! A query together with what it asks, for judging changed facts.

ghost use Rattle.std.specs.Prelude.{◌≡◌, IfSome, List, false};
ghost use Rattle.ecs_id.specs.Id as id_specs;
ghost use Rattle.watch_concerns.specs.Concerns.{concerns, is_asked_by_all};
ghost use Rattle.watch_concerns.specs.Others.{concerns_below, concerns_others, says_how_far};
ghost use Rattle.watch_concerns.specs.OwnIds.{lacks, meets};
ghost use Rattle.watch_concerns.specs.Whom.{concern_of, joined_concerns};
ghost use Rattle.watch_asked.specs.Asked.{IsAskedBy, asked_concern, one_concern};

use crate::asked::{AskedTerm, AskedTerms};
use crate::asked_id::have_all;
use ecs_id::Id;
use query_check::Query;
use std::alloc::Allocator;
use std::marker::Model;
use watch_concerns::{
    Concern, NOBODY, concern_of, is_asked_by_all, joined_concerns, lacks, meets, says_how_far,
};

/// A query, and what it asks if that is kept. Otherwise each call goes through the terms of the query.
#[derive(Drop)]
pub struct AskedQuery<'q, A: Allocator> {
    query: &'q Query<A>,
    terms: Option<&'q AskedTerms<A>>,
}

impl<'q, A: Allocator> Model for AskedQuery<'q, A> {
    ghost use Rattle.std.specs.Prelude.{IfSome};
    ghost use Rattle.query_model.specs.Query as queries;
    ghost use Rattle.watch_asked.specs.Asked.{IsAskedBy};

    ghost Value = { queries.Query };

    ghost view = { λ asked. asked.query.now };

    ghost invariant = { λ asked. IfSome asked.terms (λ terms. IsAskedBy asked.query.now terms.now) };
}

impl<'q, A: Allocator> AskedQuery<'q, A> {
    /// A query, and what it asks if that is kept.
    pub fn new(query: &'q Query<A>, terms: Option<&'q AskedTerms<A>>) -> Self
        requires asked { IfSome terms (λ terms. IsAskedBy query.now terms.now) }
        ensures { result ≡ query.now }
    {
        AskedQuery { query, terms }
    }

    /// What the query asks, if that is kept.
    #[inline(always)]
    pub fn kept(&self) -> Option<&'q AskedTerms<A>>
        ensures { IfSome result (λ terms. IsAskedBy self.now terms.now) }
    {
        self.terms
    }

    /// Whether an id concerns the query.
    #[inline(always)]
    pub fn concerns(&self, id: Id) -> bool
        ensures { result ≡ concerns self.now id }
    {
        self.concern_of(id).anyone
    }

    /// For which entities an id concerns the query.
    #[inline(always)]
    pub fn concern_of(&self, id: Id) -> Concern
        ensures { result ≡ concern_of self.now id }
    {
        match self.terms {
            Some(terms) => of_asked(terms, id),
            None => concern_of(self.query, id),
        }
    }

    /// Whether an id concerns the query for entities besides its holder and those below it.
    pub fn concerns_others(&self, id: Id) -> bool
        ensures { result ≡ concerns_others self.now id }
    {
        self.concern_of(id).others
    }

    /// Whether an id concerns the query for the entities below its holder.
    pub fn concerns_below(&self, id: Id) -> bool
        ensures { result ≡ concerns_below self.now id }
    {
        self.concern_of(id).below
    }

    /// Whether these ids lack an id that the query requires on `$this` itself.
    #[inline(always)]
    pub fn lacks(&self, ids: &[Id]) -> bool
        ensures { result ≡ lacks self.now ids.now }
    {
        match self.terms {
            Some(terms) => !have_all(terms.this.as_slice(), ids, &[]),
            None => lacks(self.query, ids),
        }
    }

    /// Whether these ids alone meet the query.
    #[inline(always)]
    pub fn meets(&self, ids: &[Id]) -> bool
        ensures { result ≡ meets self.now ids.now }
    {
        self.may_meet() && meets(self.query, ids)
    }

    /// Whether some ids may meet the query, as far as is kept.
    #[inline(always)]
    fn may_meet(&self) -> bool
        ensures { result ≡ false → (ids : List id_specs.Id) → meets self.now ids ≡ false }
    {
        match self.terms {
            Some(terms) => terms.may_meet,
            None => true,
        }
    }
}

/// For which entities an id concerns a query that asks this.
#[inline(always)]
fn of_asked<A: Allocator>(asked: &AskedTerms<A>, id: Id) -> Concern
    ensures { result ≡ joined_concerns (record {
      anyone = is_asked_by_all id;
      others = says_how_far id;
      below = false;
    }) (asked_concern id asked.now.terms.items) }
{
    let of_tags = Concern {
        anyone: is_asked_by_all(id),
        others: says_how_far(id),
        below: false,
    };
    joined_concerns(of_tags, of_terms(asked.terms.as_slice(), id))
}

fn of_terms(terms: &[AskedTerm], id: Id) -> Concern
    ensures { result ≡ asked_concern id terms.now }
{
    let mut found = NOBODY;
    for term in terms {
        found = joined_concerns(found, of_term(term, id));
    }
    found
}

#[inline(always)]
fn of_term(term: &AskedTerm, id: Id) -> Concern
    ensures { result ≡ one_concern id term.now }
{
    if !term.asked.matches(id) {
        return NOBODY;
    }
    Concern {
        anyone: true,
        others: !term.this,
        below: term.below,
    }
}
