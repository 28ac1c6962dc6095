//! Which queries have chunks, and what their terms ask of the ids of a table.

ghost use Rattle.std.specs.Prelude.{◌≡◌, ◌==◌, ◌-◌, length, map, option_map, slice_get, if◌then◌else◌};
ghost use Rattle.std.specs.List.{list_all};
ghost use Rattle.query_check.specs.Seen.{seen_item, seen_piece};
ghost use Rattle.query_model.specs.Local.{asks_one_id};
ghost use Rattle.query_model.specs.Query.{item as as_piece};
ghost use Rattle.query_chunks.specs.Asked.{has_chunks, hit, is_chunked_piece, is_named, items_from, names};

use ecs_id::Id;
use query_check::{Item, Piece, Query};
use query_model::query::{Ref, Term};
use std::alloc::Allocator;

/// Whether the rows of a query come by table: `$this` is its one variable, and every term asks it itself for one stored
/// id. There may be And, Optional and Not terms, alternatives and groups, and no `cascade`.
pub fn has_chunks<B: Allocator>(query: &Query<B>) -> bool
    ensures { result ≡ has_chunks query.now }
{
    query.has_this()
        && has_one_variable(query)
        && query.cascade().is_none()
        && are_chunked(query.pieces())
}

fn has_one_variable<B: Allocator>(query: &Query<B>) -> bool
    ensures { result ≡ (length query.now.variables == 1) }
{
    query.variables().len() == 1
}

fn are_chunked<B: Allocator>(pieces: &[Piece<B>]) -> bool
    ensures { result ≡ list_all is_chunked_piece (map seen_piece pieces.now) }
{
    for piece in pieces {
        if !is_chunked(piece) {
            return false;
        }
    }
    true
}

fn is_chunked<B: Allocator>(piece: &Piece<B>) -> bool
    ensures { result ≡ is_chunked_piece (seen_piece piece.now) }
{
    match piece {
        Piece::Item(item) => is_chunked_item(item),
        Piece::Opening(_, own) => own.is_empty(),
        Piece::Closing => true,
    }
}

fn is_chunked_item<B: Allocator>(item: &Item<B>) -> bool
    ensures { result ≡ is_chunked_piece (as_piece (seen_item item.now)) }
{
    match item {
        Item::And(term) | Item::Optional(term) => term.asks_one_id(),
        Item::Or(terms) => all_ask_one_id(terms.as_slice()),
        Item::Equal(_, _) | Item::Differ(_, _) => false,
    }
}

fn all_ask_one_id(terms: &[Term]) -> bool
    ensures { result ≡ list_all asks_one_id terms.now }
{
    terms.iter().all(|term| term.asks_one_id())
}

/// The item with this number among those outside all groups.
pub(crate) fn outer_item<B: Allocator>(pieces: &[Piece<B>], number: usize) -> Option<&Item<B>>
    ensures { option_map (λ i. seen_item i.now) result ≡ slice_get (items_from 0 (map seen_piece pieces.now)) number }
{
    // how many groups are open
    let mut depth = 0;
    let mut left = number;
    for piece in pieces {
        match piece {
            Piece::Item(item) => {
                if depth == 0 && left == 0 {
                    return Some(item);
                }
                left = left_behind(depth, left);
            }
            Piece::Opening(_, _) => depth += 1,
            Piece::Closing => depth = usize::saturating_sub(depth, 1),
        }
    }
    None
}

/// How many items are left to pass over after one more.
fn left_behind(depth: usize, left: usize) -> usize
    ensures { result ≡ (if depth == 0 then left - 1 else left) }
{
    if depth == 0 {
        usize::saturating_sub(left, 1)
    } else {
        left
    }
}

/// The id among these that a term asks for.
pub(crate) fn hit(ids: &[Id], term: &Term) -> Option<Id>
    ensures { result ≡ hit ids.now term.now }
{
    let mut rest = ids;
    while let Some((id, later)) = rest.split_first() {
        if is_named(term.component, term.target, *id) {
            return Some(*id);
        }
        rest = later;
    }
    None
}

/// Whether an id is the one by these names.
fn is_named(first: Ref, target: Option<Ref>, id: Id) -> bool
    ensures { result ≡ is_named first target id }
{
    match (target, id.second()) {
        (None, None) => names(first, id.first()),
        (Some(target), Some(second)) => names(first, id.first()) && names(target, second),
        _ => false,
    }
}

fn names(reference: Ref, index: u32) -> bool
    ensures { result ≡ names reference index }
{
    match reference {
        Ref::Is(named) => named == index,
        _ => false,
    }
}
