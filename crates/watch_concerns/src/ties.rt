//! Whether a query is tied: it tests only `$this`, its ancestors, and the targets of pairs that `$this` itself holds.

ghost use Rattle.std.specs.Prelude.{◌≡◌};
ghost use Rattle.std.specs.List.{list_all, list_any};
ghost use Rattle.query_check.specs.Seen.{seen_item};
ghost use Rattle.watch_concerns.specs.Tied.{asks_near, is_tied, item_ties, needs_no_tie, term_asks, term_ties};

use crate::anchoring::{is_variable, may_be_variable};
use crate::bonds::{Bond, are_all_bound};
use crate::concerning::asks_this_stored;
use query_check::{Item, Query};
use query_model::query::Term;
use std::alloc::Allocator;

/// Whether a query is tied. Each term tests stored facts of `$this`, of its ancestors, or of the entity of a variable
/// itself. And each variable that is the source of a term is a target of `$this`: an item directly in the variable's
/// own level holds only where `$this` itself holds a pair whose target is the variable's entity. Then, if a fact of
/// another entity changes, the only entities that may enter or leave the rows are the holders of a pair with that
/// entity as the target, and the entities below it.
///
/// It takes no memory. Its time grows at most with the square of the number of pieces of the query.
#[tactic(auto, unfolding(crate::specs::Tied::is_tied))]
pub fn is_tied<A: Allocator>(query: &Query<A>) -> bool
    ensures { result ≡ is_tied query.now }
{
    all_ask_near(query.terms()) && are_all_bound(query, &Bond::Tie)
}

pub(crate) fn all_ask_near(terms: &[Term]) -> bool
    ensures { result ≡ list_all asks_near terms.now }
{
    terms.iter().all(|term| asks_near(term))
}

/// Whether a term tests stored facts of `$this` or its ancestors, or of a variable's entity itself.
fn asks_near(term: &Term) -> bool
    ensures { result ≡ asks_near term.now }
{
    asks_this_stored(term) || (!term.source.is_constant() && term.up.is_none() && !term.closed)
}

/// Whether a variable is `$this`, or is the source of none of these terms.
pub(crate) fn needs_no_tie(terms: &[Term], variable: usize) -> bool
    ensures { result ≡ needs_no_tie terms.now variable }
{
    variable == 0 || !any_asks(terms, variable)
}

fn any_asks(terms: &[Term], variable: usize) -> bool
    ensures { result ≡ list_any (term_asks variable) terms.now }
{
    terms.iter().any(|term| is_variable(term.source, variable))
}

/// Whether an item holds only where `$this` itself holds a pair whose target is the entity of a variable.
pub(crate) fn item_ties<A: Allocator>(item: &Item<A>, variable: usize) -> bool
    ensures { result ≡ item_ties variable (seen_item item.now) }
{
    match item {
        Item::And(term) => term_ties(term, variable),
        Item::Or(terms) => all_tie(terms.as_slice(), variable),
        Item::Optional(_) | Item::Equal(_, _) | Item::Differ(_, _) => false,
    }
}

fn all_tie(terms: &[Term], variable: usize) -> bool
    ensures { result ≡ list_all (term_ties variable) terms.now }
{
    terms.iter().all(|term| term_ties(term, variable))
}

/// Whether a term matches only where `$this` itself holds such a pair.
fn term_ties(term: &Term, variable: usize) -> bool
    ensures { result ≡ term_ties variable term.now }
{
    term.asks_first() && may_be_variable(term.target, variable)
}
