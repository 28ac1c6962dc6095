//! Queries of special forms: those of observers, and those that ask each entity for its own ids alone.

ghost use Rattle.std.specs.Prelude.{◌≡◌, map};
ghost use Rattle.std.specs.List.{list_all, list_any};
ghost use Rattle.query_check.specs.Seen.{seen_item, seen_piece};
ghost use Rattle.query_model.specs.Query.{item as as_piece};
ghost use Rattle.query_model.specs.Local.{asks_first, asks_one_id, is_local_piece, is_must, is_simple_piece};
ghost use Rattle.query_model.specs.Observers.{asks_first_alone, is_one_term};

use crate::query::{Item, Piece};
use query_model::query::{Ref, Term};
use std::alloc::Allocator;

/// Whether the pieces are one term that must match, asks the first variable itself, and names no other.
pub(crate) fn is_one_term<A: Allocator>(pieces: &[Piece<A>]) -> bool
    ensures { result ≡ is_one_term (map seen_piece pieces.now) }
{
    match pieces {
        [Piece::Item(Item::And(term))] => asks_first_alone(term),
        _ => false,
    }
}

fn asks_first_alone(term: &Term) -> bool
    ensures { result ≡ asks_first_alone term.now }
{
    term.source.is_first()
        && term.on_source
        && term.up.is_none()
        && term.component.is_constant()
        && term.target.map_or(true, Ref::is_constant)
}

/// Whether all terms ask the first variable itself, for ids that are stored, and no group has variables of its own.
pub(crate) fn are_local<A: Allocator>(pieces: &[Piece<A>]) -> bool
    ensures { result ≡ list_all is_local_piece (map seen_piece pieces.now) }
{
    for piece in pieces {
        if !is_local_piece(piece) {
            return false;
        }
    }
    true
}

fn is_local_piece<A: Allocator>(piece: &Piece<A>) -> bool
    ensures { result ≡ is_local_piece (seen_piece piece.now) }
{
    match piece {
        Piece::Item(item) => is_local_item(item),
        Piece::Opening(_, own) => own.is_empty(),
        Piece::Closing => true,
    }
}

fn is_local_item<A: Allocator>(item: &Item<A>) -> bool
    ensures { result ≡ is_local_piece (as_piece (seen_item item.now)) }
{
    match item {
        Item::And(term) | Item::Optional(term) => term.asks_first(),
        Item::Or(terms) => all_ask_first(terms.as_slice()),
        Item::Equal(_, _) | Item::Differ(_, _) => true,
    }
}

fn all_ask_first(terms: &[Term]) -> bool
    ensures { result ≡ list_all asks_first terms.now }
{
    terms.iter().all(|term| term.asks_first())
}

/// Whether all pieces are items whose terms ask the first variable for one id each.
pub(crate) fn are_simple<A: Allocator>(pieces: &[Piece<A>]) -> bool
    ensures { result ≡ list_all is_simple_piece (map seen_piece pieces.now) }
{
    for piece in pieces {
        if !is_simple_piece(piece) {
            return false;
        }
    }
    true
}

fn is_simple_piece<A: Allocator>(piece: &Piece<A>) -> bool
    ensures { result ≡ is_simple_piece (seen_piece piece.now) }
{
    match piece {
        Piece::Item(Item::And(term) | Item::Optional(term)) => term.asks_one_id(),
        Piece::Item(Item::Or(terms)) => all_ask_one_id(terms.as_slice()),
        _ => false,
    }
}

fn all_ask_one_id(terms: &[Term]) -> bool
    ensures { result ≡ list_all asks_one_id terms.now }
{
    terms.iter().all(|term| term.asks_one_id())
}

/// Whether one of the pieces is a term that must match.
pub(crate) fn has_must<A: Allocator>(pieces: &[Piece<A>]) -> bool
    ensures { result ≡ list_any is_must (map seen_piece pieces.now) }
{
    for piece in pieces {
        if is_must(piece) {
            return true;
        }
    }
    false
}

fn is_must<A: Allocator>(piece: &Piece<A>) -> bool
    ensures { result ≡ is_must (seen_piece piece.now) }
{
    matches!(piece, Piece::Item(Item::And(_)))
}
