//! Copies of what a checked query is made of.

ghost use Rattle.std.specs.Prelude.{◌≡◌, map, IfOk};
ghost use Rattle.query_check.specs.Seen.{seen_item, seen_piece};

use crate::query::{Item, Piece};
use std::alloc::{AllocError, Allocator};

pub(crate) fn copy_of_names<A: Allocator + Copy>(
    alloc: A,
    names: &[Vec<u8, A>],
) -> Result<Vec<Vec<u8, A>, A>, AllocError>
    ensures { IfOk result (λ copy. map (λ n. n.items) copy.items ≡ map (λ n. n.items) names.now) }
{
    let mut copy = Vec::with_capacity(alloc, names.len())?;
    for name in names {
        copy.push(Vec::from_slice(alloc, name.as_slice())?)?;
    }
    Ok(copy)
}

pub(crate) fn copy_of_pieces<A: Allocator + Copy>(
    alloc: A,
    pieces: &[Piece<A>],
) -> Result<Vec<Piece<A>, A>, AllocError>
    ensures { IfOk result (λ copy. map seen_piece copy.items ≡ map seen_piece pieces.now) }
{
    let mut copy = Vec::with_capacity(alloc, pieces.len())?;
    for piece in pieces {
        copy.push(copy_of_piece(alloc, piece)?)?;
    }
    Ok(copy)
}

fn copy_of_piece<A: Allocator + Copy>(alloc: A, piece: &Piece<A>) -> Result<Piece<A>, AllocError>
    ensures { IfOk result (λ copy. seen_piece copy ≡ seen_piece piece.now) }
{
    match piece {
        Piece::Item(item) => Ok(Piece::Item(copy_of_item(alloc, item)?)),
        Piece::Opening(from_term, own) => {
            let own = Vec::from_slice(alloc, own.as_slice())?;
            Ok(Piece::Opening(*from_term, own))
        }
        Piece::Closing => Ok(Piece::Closing),
    }
}

fn copy_of_item<A: Allocator + Copy>(alloc: A, item: &Item<A>) -> Result<Item<A>, AllocError>
    ensures { IfOk result (λ copy. seen_item copy ≡ seen_item item.now) }
{
    match item {
        Item::And(term) => Ok(Item::And(*term)),
        Item::Optional(term) => Ok(Item::Optional(*term)),
        Item::Or(terms) => Ok(Item::Or(Vec::from_slice(alloc, terms.as_slice())?)),
        Item::Equal(variable, other) => Ok(Item::Equal(*variable, *other)),
        Item::Differ(variable, other) => Ok(Item::Differ(*variable, *other)),
    }
}
