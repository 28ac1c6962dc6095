//! The items of a local query, judged by the ids of the entity that `$this` stands for.

ghost use Rattle.std.specs.Prelude.{◌≡◌};
ghost use Rattle.std.specs.List.{list_any};
ghost use Rattle.query_check.specs.Seen.{seen_item};
ghost use Rattle.query_local.specs.Judging.{has_hit, is_same, item_holds, stands_for, suits};

use ecs_id::Id;
use query_check::Item;
use query_model::query::{Ref, Term};
use std::alloc::Allocator;

/// Whether an item holds of an entity with these ids.
pub(crate) fn item_holds<A: Allocator>(entity: u32, ids: &[Id], item: &Item<A>) -> bool
    ensures { result ≡ item_holds entity ids.now (seen_item item.now) }
{
    match item {
        Item::And(term) => has_hit(entity, ids, term),
        Item::Optional(_) => true,
        Item::Or(terms) => any_has_hit(entity, ids, terms.as_slice()),
        Item::Equal(variable, reference) => is_same(entity, *variable, *reference),
        Item::Differ(variable, reference) => !is_same(entity, *variable, *reference),
    }
}

fn any_has_hit(entity: u32, ids: &[Id], terms: &[Term]) -> bool
    ensures { result ≡ list_any (has_hit entity ids.now) terms.now }
{
    terms.iter().any(|term| has_hit(entity, ids, term))
}

/// Whether a term matches one of the ids.
fn has_hit(entity: u32, ids: &[Id], term: &Term) -> bool
    ensures { result ≡ has_hit entity ids.now term.now }
{
    let first = term.component;
    let target = term.target;
    ids.iter().any(|id| suits(entity, first, target, *id))
}

/// Whether a pattern matches an id: a pair where it has a target, and a plain id where it has none.
fn suits(entity: u32, first: Ref, target: Option<Ref>, id: Id) -> bool
    ensures { result ≡ suits entity first target id }
{
    match (target, id.second()) {
        (None, None) => stands_for(entity, id.first(), first),
        (Some(target), Some(second)) => {
            stands_for(entity, id.first(), first) && stands_for(entity, second, target)
        }
        _ => false,
    }
}

/// Whether a reference may stand for an index, where `$this` is this entity.
fn stands_for(entity: u32, index: u32, reference: Ref) -> bool
    ensures { result ≡ stands_for entity index reference }
{
    match reference {
        Ref::Is(named) => named == index,
        Ref::Var(variable) => variable == 0 && entity == index,
        Ref::Any | Ref::AnyOnce => true,
    }
}

/// Whether a variable is `$this`, and a reference may stand for that.
fn is_same(entity: u32, variable: usize, reference: Ref) -> bool
    ensures { result ≡ is_same entity variable reference }
{
    variable == 0 && stands_for(entity, entity, reference)
}
