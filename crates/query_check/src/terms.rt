//! The terms of a query.

ghost use Rattle.std.specs.Prelude.{◌≡◌, flat_map, map, IfOk};
ghost use Rattle.query_check.specs.Terms.{piece_terms};
ghost use Rattle.query_check.specs.Seen.{seen_piece};

use crate::query::Piece;
use query_model::query::Term;
use std::alloc::{AllocError, Allocator};

/// The terms of the items among some pieces, in order.
pub(crate) fn terms<A: Allocator + Copy>(
    alloc: A,
    pieces: &[Piece<A>],
) -> Result<Vec<Term, A>, AllocError>
    ensures { IfOk result (λ terms. terms.items ≡ flat_map piece_terms (map seen_piece pieces.now)) }
{
    let mut terms = Vec::with_capacity(alloc, pieces.len())?;
    for piece in pieces {
        terms.extend_from_slice(terms_of(piece))?;
    }
    Ok(terms)
}

fn terms_of<A: Allocator>(piece: &Piece<A>) -> &[Term]
    ensures { result.now ≡ piece_terms (seen_piece piece.now) }
{
    match piece {
        Piece::Item(item) => item.terms(),
        Piece::Opening(_, _) | Piece::Closing => &[],
    }
}
