//! Why an added fact is refused.
ghost use Rattle.std.specs.Prelude.{◌≡◌, ◌↔◌, ◌⊎◌, ◌==◌, ◌<◌, ◌≤◌, ◌+◌, ◌-◌, ◌&&◌, ◌||◌, false, [], ◌∷◌, All, Contains};
ghost use Rattle.std.specs.Prelude.{IfSome, IsTrue, count_by, length};
ghost use Rattle.std.specs.Prelude.{nat_lt};
ghost use Rattle.std.specs.List.{cons_option, list_any};
ghost use Rattle.ecs_id.specs.Id.{mentioned, second_of};
ghost use Rattle.ecs_model.specs.Added.{is_used};
ghost use Rattle.ecs_model.specs.Map.{count_at};
ghost use Rattle.ecs_model.specs.Refusal.{first_reason};
ghost use Rattle.ecs_model.specs.World.{WorldState, most_ids};
ghost use Rattle.ecs_model.specs.steps.Step.{add_reasons, adds_built_in as brings_built_in};
ghost use Rattle.ecs_model.specs.steps.Rules.{is_trait as is_trait_id};
ghost use Rattle.rel_traits.specs.After.{ClosesOne};
ghost use Rattle.rel_traits.specs.FactLists.{IsOfLive};
ghost use Rattle.rel_traits.specs.Additions.{TellsAddition};
ghost use Rattle.rel_traits.specs.Sees.{HasCounts, Sees};

use crate::addition::Additions;
use crate::stored_queries::is_pinned;
use crate::trait_facts::is_trait;
use crate::{PinCounts, adds_cycle, in_use};
use ecs_model::faults::Refusal;
use ecs_model::{FactKey, MOST_IDS};
use rel_travel::{Graph, Holders, Scratch};
use std::alloc::Allocator;

/// Why a fact can't be added: a trait would come to what is used or to what a stored query mentions, an acyclic
/// relationship would get a cycle, an entity would hold too many ids, or no further command is counted.
///
/// That nothing comes to what is built in is for the caller to see before, by `adds_built_in`.
pub fn judge_add<G: Holders, A: Allocator>(
    graph: &G,
    fact: FactKey,
    additions: &Additions<A>,
    pins: &PinCounts<A>,
    is_spent: bool,
    scratch: &mut Scratch<A>,
) -> Option<Refusal>
    requires covered { G.size graph.now ≤ scratch.old.size }
    requires entity { Contains (G.entities graph.now) fact.0 }
    requires mentions { All (Contains (G.entities graph.now)) (mentioned fact.1) }
    requires live { All (IsOfLive (G.entities graph.now)) additions.now.added.items }
    requires copies_live { All (IsOfLive (G.entities graph.now)) additions.now.copies.items }
    ensures size { scratch.new.size ≡ scratch.old.size }
    ensures judged { (w : WorldState) → Sees w (G.entities graph.now) (G.ids graph.now)
        → HasCounts w pins.now.entries is_spent
        → TellsAddition w fact additions.now.base additions.now.added.items additions.now.copies.items
        additions.now.came.items additions.now.went.items
        → brings_built_in w fact.0 fact.1 ≡ false → result ≡ first_reason (add_reasons w fact.0 fact.1) }
{
    let _ = graph.size();
    let added = additions.added.as_slice();
    let copies = additions.copies.as_slice();
    let came = additions.came.as_slice();
    let went = additions.went.as_slice();
    let changes = changes_trait(graph, came, pins);
    let closes = close_cycle(graph, fact.entity(), added, copies, scratch);
    let crowds = crowds_one(graph, fact, came, went);
    first_refusal(changes, closes, crowds, is_spent)
}

/// Whether one of the added facts, or one of the copies, closes a cycle.
fn close_cycle<G: Holders, A: Allocator>(
    graph: &G,
    entity: u32,
    added: &[FactKey],
    copies: &[FactKey],
    scratch: &mut Scratch<A>,
) -> bool
    requires covered { G.size graph.now ≤ scratch.old.size }
    requires entity { entity < scratch.old.size }
    requires added { All (λ k. IfSome (second_of k.1) (λ t. t < scratch.old.size)) added.now }
    requires copies { All (λ k. IfSome (second_of k.1) (λ t. t < scratch.old.size)) copies.now }
    ensures size { scratch.new.size ≡ scratch.old.size }
    ensures closes { IsTrue result ↔ (ClosesOne (G.ids graph.now) entity added.now
        ⊎ ClosesOne (G.ids graph.now) entity copies.now) }
{
    adds_cycle(graph, entity, added, scratch) || adds_cycle(graph, entity, copies, scratch)
}

/// The first of these reasons.
fn first_refusal(changes: bool, closes: bool, crowds: bool, is_spent: bool) -> Option<Refusal>
    ensures { result ≡ first_reason ((changes, Refusal.TraitFixed) ∷ (closes, Refusal.Cycle)
        ∷ (crowds, Refusal.TooManyIds) ∷ (is_spent, Refusal.Full) ∷ []) }
{
    if changes {
        Some(Refusal::TraitFixed)
    } else if closes {
        Some(Refusal::Cycle)
    } else if crowds {
        Some(Refusal::TooManyIds)
    } else if is_spent {
        Some(Refusal::Full)
    } else {
        None
    }
}

/// Whether one of the facts is a trait and comes to what is used as component or relationship, or to what a stored
/// query mentions.
fn changes_trait<G: Holders, A: Allocator>(graph: &G, came: &[FactKey], pins: &PinCounts<A>) -> bool
    ensures { result ≡ list_any (λ k. is_trait_id k.1 && (is_used (G.ids graph.now) (G.entities graph.now) k.0
        || nat_lt 0 (count_at pins.now.entries k.0)))
        came.now }
{
    came.iter().any(|fact| {
        is_trait(fact.id()) && (in_use(graph, fact.entity()) || is_pinned(pins, fact.entity()))
    })
}

/// Whether the entity of the fact, or its target if it has one, would hold too many ids. No other entity gets one of
/// the added facts.
fn crowds_one<G: Graph>(graph: &G, fact: FactKey, came: &[FactKey], went: &[FactKey]) -> bool
    ensures { result ≡ list_any (λ x. nat_lt most_ids (length (G.ids graph.now x) + count_by
        (λ k. k.0 == x) came.now - count_by (λ k. k.0 == x) went.now))
        (fact.0 ∷ cons_option (second_of fact.1) []) }
{
    let target = fact.id().second();
    is_crowded(graph, fact.entity(), came, went)
        || target.is_some_and(|target| is_crowded(graph, target, came, went))
}

/// Whether an entity would hold too many ids, after these facts have come and these have gone.
fn is_crowded<G: Graph>(graph: &G, entity: u32, came: &[FactKey], went: &[FactKey]) -> bool
    ensures { result ≡ nat_lt most_ids (length (G.ids graph.now entity) + count_by
        (λ k. k.0 == entity) came.now - count_by (λ k. k.0 == entity) went.now) }
{
    let held = graph.ids(entity).len() + count_of(came, entity);
    held.saturating_sub(count_of(went, entity)) > MOST_IDS
}

/// How many of the facts are of an entity.
fn count_of(facts: &[FactKey], entity: u32) -> usize
    ensures count { result ≡ count_by (λ k. k.0 == entity) facts.now }
    ensures few { result ≤ length facts.now }
{
    let mut count = 0;
    for fact in facts {
        if fact.entity() == entity {
            count += 1;
        }
    }
    count
}
