//! Whether an added fact comes alone, or in the place of one other.
ghost use Rattle.std.specs.Prelude.{◌≡◌, ℕ, List, [], None, false, IfOk, IsTrue};
ghost use Rattle.std.specs.List.{cons_option};
ghost use Rattle.ecs_id.specs.Id.{Id as IdValue, first_of, second_of};
ghost use Rattle.ecs_model.specs.Added.{brought};
ghost use Rattle.ecs_model.specs.Links.{targets_in};
ghost use Rattle.rel_traits.specs.Simple.{ComesAlone, GivesWay, Arrives, leads_to_copies as leads_to_copies_of};
ghost use Rattle.rel_traits.specs.After.{ClosesAt};
ghost use Rattle.rel_traits.specs.TraitBits.{AreTraits};

use crate::copies::gives_copies;
use crate::trait_facts::is_trait;
use crate::{TraitSet, traits_among};
use bitflags::Flags;
use ecs_id::Id;
use ecs_model::FactKey;
use ecs_model::built_ins::{IS_A, WITH};
use rel_travel::{Graph, Holders, may_be_target, target_under};

/// What comes and goes with an added fact, as far as it is known.
#[derive(Clone, Copy, Debug, PartialEq, Eq)]
pub enum Arrival {
    /// No other comes, and none goes.
    Alone,
    /// No other comes, and the entity's fact of this id goes, and no other.
    InPlaceOf(Id),
    /// Others may come or go.
    WithOthers,
}

/// More than one target.
struct Several;

/// How a fact comes. One that comes alone, or in the place of another, is no trait, brings no other, copies nothing,
/// and closes no cycle.
///
/// Some facts that come alone or in a place aren't seen to do so: one whose relationship leads to the entity, and a
/// pair of IsA where the entity has all that its base could give. It takes time in the ids of the fact's component or
/// relationship, in those of its entity where that is exclusive, and in those of a base.
pub fn arrival_of<G: Holders>(graph: &G, fact: FactKey) -> Arrival
    ensures { Arrives (G.ids graph.now) fact result }
{
    let id = fact.id();
    let held = graph.ids(id.first());
    let traits = traits_among(held);
    if is_trait(id)
        || may_bring(held, traits, id)
        || leads_to_copies(graph, id)
        || may_close(graph, traits, fact)
    {
        return Arrival::WithOthers;
    }
    match giving_way(graph, traits, fact) {
        Ok(None) => Arrival::Alone,
        Ok(Some(old)) => Arrival::InPlaceOf(old),
        Err(Several) => Arrival::WithOthers,
    }
}

/// Whether a fact of a plain id is seen to come alone, by what its component holds. It needs no search.
#[inline(always)]
pub fn plain_comes_alone(traits: &[Id], id: Id) -> bool
    requires { second_of id ≡ None }
    ensures { IsTrue result → (ids : ℕ → List IdValue) (e : ℕ) → traits.now ≡ ids (first_of id)
        → ComesAlone ids (e, id) }
{
    !is_trait(id) && !has_target(traits, WITH)
}

/// Whether facts of an id may bring others, where its component or relationship holds these ids, and so has these
/// traits.
fn may_bring(held: &[Id], traits: TraitSet, id: Id) -> bool
    requires { AreTraits held.now traits.0 }
    ensures { result ≡ false → (ids : ℕ → List IdValue) (e : ℕ) → held.now ≡ ids (first_of id)
        → brought ids (e, id) ≡ [] }
{
    has_target(held, WITH) || id.is_pair() && traits.contains(TraitSet::SYMMETRIC)
}

/// Whether an id leads from an instance to a base of which something may be copied.
fn leads_to_copies<G: Graph>(graph: &G, id: Id) -> bool
    ensures { result ≡ leads_to_copies_of (G.ids graph.now) id }
{
    id.first() == IS_A
        && id
            .second()
            .is_some_and(|target| gives_copies(graph, target))
}

/// The id of the one fact that gives way to a fact without mirror, if any does, or that there may be several.
fn giving_way<G: Graph>(graph: &G, traits: TraitSet, fact: FactKey) -> Result<Option<Id>, Several>
    requires traits { AreTraits (G.ids graph.now (first_of fact.1)) traits.0 }
    requires alone { brought (G.ids graph.now) fact ≡ [] }
    ensures { IfOk result (GivesWay (G.ids graph.now) fact) }
{
    let _ = graph.size();
    let id = fact.id();
    let Some(target) = id.second() else {
        return Ok(None);
    };
    if !traits.contains(TraitSet::EXCLUSIVE) {
        return Ok(None);
    }
    let Some(other) = only_target(graph.ids(fact.entity()), id.first())? else {
        return Ok(None);
    };
    if other == target {
        return Ok(None);
    }
    Ok(Some(Id::pair(id.first(), other)))
}

/// The target of the pairs of the relationship among the ids, if there is any.
fn only_target(ids: &[Id], relationship: u32) -> Result<Option<u32>, Several>
    ensures { IfOk result (λ only. targets_in ids.now relationship ≡ cons_option only []) }
{
    let mut only = None;
    for id in ids {
        only = one_of(only, target_under(*id, relationship))?;
    }
    Ok(only)
}

/// The one of two targets that is there.
fn one_of(only: Option<u32>, other: Option<u32>) -> Result<Option<u32>, Several>
    ensures { IfOk result (λ one. cons_option one [] ≡ cons_option only (cons_option other [])) }
{
    match (only, other) {
        (None, _) => Ok(other),
        (_, None) => Ok(only),
        (Some(_), Some(_)) => Err(Several),
    }
}

/// Whether a fact may close a cycle.
fn may_close<G: Holders>(graph: &G, traits: TraitSet, fact: FactKey) -> bool
    requires { AreTraits (G.ids graph.now (first_of fact.1)) traits.0 }
    ensures { result ≡ false → ¬ (ClosesAt (G.ids graph.now) fact.0 fact) }
{
    let id = fact.id();
    let Some(target) = id.second() else {
        return false;
    };
    traits.contains(TraitSet::ACYCLIC)
        && (target == fact.entity() || may_be_target(graph, id.first(), fact.entity()))
}

/// Whether one of the ids is a pair of the relationship.
fn has_target(ids: &[Id], relationship: u32) -> bool
    ensures { result ≡ false → targets_in ids.now relationship ≡ [] }
{
    for id in ids {
        if target_under(*id, relationship).is_some() {
            return true;
        }
    }
    false
}
