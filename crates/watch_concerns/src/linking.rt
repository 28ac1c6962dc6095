//! Whether a query is linked: a chain of pairs leads from `$this` to the entity of each variable.

ghost use Rattle.std.specs.Prelude.{◌≡◌};
ghost use Rattle.std.specs.List.{list_all};
ghost use Rattle.query_check.specs.Seen.{seen_item};
ghost use Rattle.watch_concerns.specs.Linked.{is_before, is_linked, item_links, may_be_before, term_links};

use crate::anchoring::{is_variable, may_be_variable};
use crate::bonds::{Bond, are_all_bound};
use crate::ties::all_ask_near;
use query_check::{Item, Query};
use query_model::query::{Ref, Term};
use std::alloc::Allocator;

/// Whether a query is linked. Each term tests stored facts of `$this`, of its ancestors, or of the entity of a variable
/// itself. And each variable but `$this` shares a pair with an earlier one: an item directly in the variable's own
/// level holds only where one of their two entities holds a pair whose target is the other. Then, if a fact of another
/// entity changes, the only entities that may enter or leave the rows are those from which the query's terms lead to
/// that entity, and the entities below it.
///
/// It takes no memory. Its time grows at most with the square of the number of pieces of the query.
#[tactic(auto, unfolding(crate::specs::Linked::is_linked))]
pub fn is_linked<A: Allocator>(query: &Query<A>) -> bool
    ensures { result ≡ is_linked query.now }
{
    all_ask_near(query.terms()) && are_all_bound(query, &Bond::Link)
}

/// Whether an item holds only where the entity of a variable shares a pair with the entity of an earlier one.
pub(crate) fn item_links<A: Allocator>(item: &Item<A>, variable: usize) -> bool
    ensures { result ≡ item_links variable (seen_item item.now) }
{
    match item {
        Item::And(term) => term_links(term, variable),
        Item::Or(terms) => all_link(terms.as_slice(), variable),
        Item::Optional(_) | Item::Equal(_, _) | Item::Differ(_, _) => false,
    }
}

fn all_link(terms: &[Term], variable: usize) -> bool
    ensures { result ≡ list_all (term_links variable) terms.now }
{
    terms.iter().all(|term| term_links(term, variable))
}

/// Whether a term matches only by such a pair.
fn term_links(term: &Term, variable: usize) -> bool
    ensures { result ≡ term_links variable term.now }
{
    term.up.is_none()
        && !term.closed
        && ((is_variable(term.source, variable) && may_be_before(term.target, variable))
            || (is_before(term.source, variable) && may_be_variable(term.target, variable)))
}

fn may_be_before(reference: Option<Ref>, variable: usize) -> bool
    ensures { result ≡ may_be_before variable reference }
{
    reference.is_some_and(|reference| is_before(reference, variable))
}

/// Whether a reference is a variable before this one.
fn is_before(reference: Ref, variable: usize) -> bool
    ensures { result ≡ is_before variable reference }
{
    match reference {
        Ref::Var(number) => number < variable,
        Ref::Is(_) | Ref::Any | Ref::AnyOnce => false,
    }
}
