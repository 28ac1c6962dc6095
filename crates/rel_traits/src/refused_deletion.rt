//! Why a deletion is refused.
ghost use Rattle.std.specs.Prelude.{◌≡◌, ◌↔◌, ◌≤◌, [], ◌∷◌, ℕ, Contains, nat_lt};
ghost use Rattle.std.specs.List.{list_any};
ghost use Rattle.ecs_model.specs.Map.{count_at, keys};
ghost use Rattle.ecs_model.specs.Refusal.{first_reason};
ghost use Rattle.ecs_model.specs.steps.FactChanges.{deleted as all_deleted};
ghost use Rattle.ecs_model.specs.steps.Step.{delete_reasons};
ghost use Rattle.rel_travel.specs.Referring.{is_forbidden, referrers};
ghost use Rattle.rel_traits.specs.Sees.{HasCounts};
ghost use Rattle.rel_traits.specs.Deletions.{IsDeletion, OfDeletion};

use crate::PinCounts;
use crate::stored_queries::any_pinned;
use ecs_model::faults::Refusal;
use rel_travel::{Graph, Holders, Scratch, deleted, deletion_is_forbidden, find_referrers};
use std::alloc::Allocator;

/// Finds all who fall with an entity and all who refer to these, and answers why they can't be deleted: a stored query
/// mentions one, a cleanup rule forbids it, or no further command is counted.
///
/// It goes through what mentions each of those who fall. That the entity isn't built in is for the caller to see
/// before.
pub fn judge_delete<G: Holders, A: Allocator>(
    graph: &G,
    index: u32,
    pins: &PinCounts<A>,
    is_spent: bool,
    scratch: &mut Scratch<A>,
) -> Option<Refusal>
    requires covered { G.size graph.now ≤ scratch.old.size }
    requires lives { Contains (G.entities graph.now) index }
    ensures size { scratch.new.size ≡ scratch.old.size }
    ensures found { IsDeletion (G.entities graph.now) (G.ids graph.now) scratch.new index }
    ensures dead { OfDeletion (G.entities graph.now) (G.ids graph.now) scratch.new
        (λ w e. (y : ℕ) → Contains scratch.new.found y ↔ Contains (keys (all_deleted w e)) y) }
    ensures judged { OfDeletion (G.entities graph.now) (G.ids graph.now) scratch.new
        (λ w e. HasCounts w pins.now.entries is_spent → result ≡ first_reason (delete_reasons w (all_deleted w e))) }
{
    let _ = graph.size();
    deleted(graph, index, scratch);
    find_referrers(graph, scratch);
    reason_against(graph, pins, is_spent, scratch)
}

/// The first reason against the deletion of the found.
fn reason_against<G: Graph, A: Allocator>(
    graph: &G,
    pins: &PinCounts<A>,
    is_spent: bool,
    scratch: &Scratch<A>,
) -> Option<Refusal>
    requires covered { G.size graph.now ≤ scratch.now.size }
    requires referrers { (y : ℕ) → Contains scratch.now.referrers y
        ↔ Contains (referrers (G.ids graph.now) (G.entities graph.now) scratch.now.found) y }
    ensures { result ≡ first_reason ((
      list_any (λ i. nat_lt 0 (count_at pins.now.entries i)) scratch.now.found,
      Refusal.InUse,
    )
        ∷ (is_forbidden (G.ids graph.now) (G.entities graph.now) scratch.now.found, Refusal.Panic)
        ∷ (is_spent, Refusal.Full) ∷ []) }
{
    if any_pinned(pins, scratch.found()) {
        return Some(Refusal::InUse);
    }
    if deletion_is_forbidden(graph, scratch) {
        return Some(Refusal::Panic);
    }
    if is_spent { Some(Refusal::Full) } else { None }
}
