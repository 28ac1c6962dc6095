//! The judgement of one entity.

ghost use Rattle.std.specs.Prelude.{◌≡◌, ◌+◌, ◌<◌, ◌≤◌, ◌^◌, map, Contains};
ghost use Rattle.ecs_id.specs.Id.{IsIndex, plain};
ghost use Rattle.ecs_model.specs.Links.{is_held};
ghost use Rattle.ecs_model.specs.rows.Rows.{is_cut};
ghost use Rattle.ecs_model.specs.rows.View.{View};
ghost use Rattle.ecs_model.specs.stored.Watches.{matching};
ghost use Rattle.query_check.specs.Seen.{seen_piece};
ghost use Rattle.query_meaning.specs.Local.{IsLocal};
ghost use Rattle.query_meaning.specs.Variables.{contains};
ghost use Rattle.query_local.specs.declared.nesting.Nesting.TheVariants.{Holding};
ghost use Rattle.query_local.specs.Judging.{behind, holds_from, judged, open_groups};

use crate::items::item_holds;
use crate::nesting::{Nesting, at_end, end_of_failed, end_of_holding, with_item};
use crate::tags::mentions;
use ecs_id::Id;
use ecs_model::built_ins::{DISABLED, PREFAB};
use query_check::{Piece, Query};
use std::alloc::Allocator;

/// Whether an entity, by its index, is `$this` of some row of a local query, in each world in which it lives with just
/// these ids. Takes no memory.
#[tactic(auto, using(crate::proofs::LocalMatches::judged_matches))]
pub fn judge<A: Allocator>(query: &Query<A>, entity: u32, ids: &[Id]) -> bool
    requires { IsLocal query.now }
    ensures { (w : View) → Contains w.entities entity → w.ids entity ≡ ids.now
        → result ≡ contains (matching w query.now) entity }
{
    judged(query, entity, ids)
}

/// Whether all levels of a query hold by the ids alone, and no tag cuts the entity off.
pub(crate) fn judged<A: Allocator>(query: &Query<A>, entity: u32, ids: &[Id]) -> bool
    ensures { result ≡ judged query.now entity ids.now }
{
    hold(query.pieces(), entity, ids)
        && !is_cut(query, ids, PREFAB)
        && !is_cut(query, ids, DISABLED)
}

/// Whether the pieces of a query hold of an entity with these ids.
fn hold<A: Allocator>(pieces: &[Piece<A>], entity: u32, ids: &[Id]) -> bool
    ensures { result ≡ holds_from entity ids.now (Holding 0) (map seen_piece pieces.now) }
{
    let mut nesting = Nesting::Holding(0);
    for piece in pieces {
        nesting = behind(nesting, piece, entity, ids);
    }
    at_end(nesting)
}

/// What is known of the levels after one more piece.
fn behind<A: Allocator>(nesting: Nesting, piece: &Piece<A>, entity: u32, ids: &[Id]) -> Nesting
    requires { open_groups nesting + 1 < 2 ^ 64 }
    ensures value { result ≡ behind entity ids.now nesting (seen_piece piece.now) }
    ensures few { open_groups result ≤ open_groups nesting + 1 }
{
    match (nesting, piece) {
        (Nesting::Holding(depth), Piece::Item(item)) => {
            with_item(item_holds(entity, ids, item), depth)
        }
        (Nesting::Holding(depth), Piece::Opening(_, _)) => Nesting::Holding(depth + 1),
        (Nesting::Holding(depth), Piece::Closing) => end_of_holding(depth),
        (Nesting::Failed(_, _), Piece::Item(_)) => nesting,
        (Nesting::Failed(depth, inside), Piece::Opening(_, _)) => Nesting::Failed(
            depth,
            inside + 1,
        ),
        (Nesting::Failed(depth, inside), Piece::Closing) => end_of_failed(depth, inside),
    }
}

/// Whether the ids have a tag that the query doesn't mention.
fn is_cut<A: Allocator>(query: &Query<A>, ids: &[Id], tag: u32) -> bool
    requires { IsIndex tag }
    ensures { result ≡ is_cut query.now ids.now tag }
{
    has(ids, Id::plain(tag)) && !mentions(query, tag)
}

fn has(ids: &[Id], wanted: Id) -> bool
    ensures { result ≡ is_held ids.now wanted }
{
    ids.iter().any(|id| *id == wanted)
}
