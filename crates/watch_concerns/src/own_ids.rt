//! Whether an entity is `$this` of a row, as far as its own ids decide it.

ghost use Rattle.std.specs.Prelude.{◌≡◌, map, false};
ghost use Rattle.std.specs.List.{list_any};
ghost use Rattle.ecs_id.specs.Id.{IsIndex, plain};
ghost use Rattle.ecs_model.specs.Links.{is_held};
ghost use Rattle.query_check.specs.Seen.{seen_item, seen_piece};
ghost use Rattle.watch_concerns.specs.Concerns.{may_match};
ghost use Rattle.watch_concerns.specs.OwnIds.{item_is_met, item_lacks, lacks, lacks_from, meets, meets_from};
ghost use Rattle.watch_concerns.specs.OwnIds.{term_is_met};

use crate::concerning::may_match;
use ecs_id::Id;
use ecs_model::built_ins::{DISABLED, PREFAB};
use query_check::{Item, Piece, Query};
use query_model::query::{Ref, Term};
use std::alloc::Allocator;

/// Whether an entity with these ids lacks an id that the query requires on `$this` itself, by a term before the first
/// group. Then it is `$this` of no row.
///
/// It takes no memory, and time in the number of terms and of ids.
#[tactic(auto, unfolding(crate::specs::OwnIds::lacks))]
pub fn lacks<A: Allocator>(query: &Query<A>, ids: &[Id]) -> bool
    ensures { result ≡ lacks query.now ids.now }
{
    pieces_lack(query.pieces(), ids)
}

fn pieces_lack<A: Allocator>(pieces: &[Piece<A>], ids: &[Id]) -> bool
    ensures { result ≡ lacks_from ids.now (map seen_piece pieces.now) }
{
    for piece in pieces {
        match piece {
            Piece::Item(item) => {
                if item_lacks(item, ids) {
                    return true;
                }
            }
            Piece::Opening(_, _) | Piece::Closing => return false,
        }
    }
    false
}

fn item_lacks<A: Allocator>(item: &Item<A>, ids: &[Id]) -> bool
    ensures { result ≡ item_lacks ids.now (seen_item item.now) }
{
    match item {
        Item::And(term) => term.asks_first() && !any_matches(term, ids),
        Item::Optional(_) | Item::Or(_) | Item::Equal(_, _) | Item::Differ(_, _) => false,
    }
}

/// Whether a term may match one of these ids.
pub(crate) fn any_matches(term: &Term, ids: &[Id]) -> bool
    ensures { result ≡ list_any (may_match term.now.component term.now.target) ids.now }
{
    ids.iter()
        .any(|id| may_match(term.component, term.target, *id))
}

/// Whether these ids of an entity alone meet the query: they meet each item outside groups, and in each group some item
/// requires an id that is missing. Then the entity, if alive, is `$this` of a row. False doesn't mean that it is in no
/// row: items that test another entity or use a variable, and groups inside groups, aren't judged.
///
/// It takes no memory, and time in the number of terms and of ids.
#[tactic(auto, unfolding(crate::specs::OwnIds::meets))]
pub fn meets<A: Allocator>(query: &Query<A>, ids: &[Id]) -> bool
    ensures { result ≡ meets query.now ids.now }
{
    query.variables().len() != 0
        && !has(ids, PREFAB)
        && !has(ids, DISABLED)
        && pieces_meet(query.pieces(), ids)
}

/// Whether a tag is among these ids.
fn has(ids: &[Id], tag: u32) -> bool
    requires { IsIndex tag }
    ensures { result ≡ is_held ids.now (plain tag) }
{
    let wanted = Id::plain(tag);
    ids.iter().any(|id| *id == wanted)
}

fn pieces_meet<A: Allocator>(pieces: &[Piece<A>], ids: &[Id]) -> bool
    ensures { result ≡ meets_from ids.now false false (map seen_piece pieces.now) }
{
    let mut inside = false;
    let mut failed = false;
    for piece in pieces {
        match piece {
            Piece::Item(item) => {
                if inside {
                    failed = failed || item_lacks(item, ids);
                } else if !item_is_met(item, ids) {
                    return false;
                }
            }
            Piece::Opening(_, _) => {
                if inside {
                    return false;
                }
                inside = true;
            }
            Piece::Closing => {
                if !inside || !failed {
                    return false;
                }
                inside = false;
                failed = false;
            }
        }
    }
    !inside || failed
}

/// Whether an item holds by these ids alone.
fn item_is_met<A: Allocator>(item: &Item<A>, ids: &[Id]) -> bool
    ensures { result ≡ item_is_met ids.now (seen_item item.now) }
{
    match item {
        Item::And(term) => term_is_met(term, ids),
        Item::Optional(_) => true,
        Item::Or(terms) => any_is_met(terms.as_slice(), ids),
        Item::Equal(_, _) | Item::Differ(_, _) => false,
    }
}

fn any_is_met(terms: &[Term], ids: &[Id]) -> bool
    ensures { result ≡ list_any (term_is_met ids.now) terms.now }
{
    terms.iter().any(|term| term_is_met(term, ids))
}

/// Whether a term without variables matches one of these ids on `$this` itself.
fn term_is_met(term: &Term, ids: &[Id]) -> bool
    ensures { result ≡ term_is_met ids.now term.now }
{
    term.asks_first()
        && term.component.is_constant()
        && term.target.map_or(true, Ref::is_constant)
        && any_matches(term, ids)
}
