//! What an instance gets from its base.
ghost use Rattle.std.specs.Prelude.{◌≡◌, [], ◌==◌, ◌&&◌, ◌||◌, ◌++◌, ◌↔◌, ◌⊎◌, Contains, IfOk, OnOk, is_some};
ghost use Rattle.std.specs.List.{list_any};
ghost use Rattle.std.specs.List.Sorted.{IsStrictlySortedBy};
ghost use Rattle.ecs_id.specs.Id.{IsIndex, id_eq, pair, plain};
ghost use Rattle.ecs_model.specs.BuiltIns.{dont_inherit_mode, inherit_mode, on_instantiate};
ghost use Rattle.ecs_model.specs.Copied.{has_pair, is_copied as is_copied_of, stays_behind as stays};
ghost use Rattle.ecs_model.specs.Links.{is_held, target_under as target_of};
ghost use Rattle.ecs_model.specs.World.{Key, key_cmp};
ghost use Rattle.rel_traits.specs.Copies.{IsJoined, base_among, base_at, copies_of, copies_of_base, copy_of, gets_copy};
ghost use Rattle.rel_traits.specs.Copies.{has_own, pairs_with, takes_own};
ghost use Rattle.rel_traits.specs.Copies.{takes_pair_own};

use crate::held_facts::put_in_order;
use crate::trait_facts::is_trait;
use crate::{TraitSet, is_fact, traits_among};
use bitflags::Flags;
use ecs_id::Id;
use ecs_model::FactKey;
use ecs_model::built_ins::{
    COMPONENT, DISABLED, DONT_INHERIT, INHERIT, IS_A, ON_INSTANTIATE, PREFAB,
};
use rel_travel::{Graph, target_under};
use std::alloc::{AllocError, Allocator};

/// Lists the copies that come with an added fact, where these facts are added with it. It answers the base from which
/// they come, if there is one.
pub(crate) fn list_copies<G: Graph, A: Allocator>(
    graph: &G,
    fact: FactKey,
    added: &[FactKey],
    copies: &mut Vec<FactKey, A>,
) -> Result<Option<u32>, AllocError>
    ensures base { IfOk result (λ base. base ≡ base_among (G.ids graph.now) fact added.now) }
    ensures copies { IfOk result (λ base. copies.new.items ≡ copies_of_base (G.ids graph.now) fact.0 added.now base) }
{
    copies.clear();
    let Some(base) = new_base(graph, fact, added) else {
        return Ok(None);
    };
    push_copies(graph, fact.entity(), base, added, copies)?;
    Ok(Some(base))
}

/// Puts the copies of a base's facts among those that came. Without a base these stay as they are.
pub(crate) fn join_copies<A: Allocator>(
    base: Option<u32>,
    copies: &[FactKey],
    came: &mut Vec<FactKey, A>,
) -> Result<(), AllocError>
    ensures { OnOk result (IsJoined base came.old.items copies.now came.new.items) }
{
    match base {
        None => Ok(()),
        Some(_) => join(copies, came),
    }
}

/// Puts these facts among others, all in order.
fn join<A: Allocator>(facts: &[FactKey], all: &mut Vec<FactKey, A>) -> Result<(), AllocError>
    ensures ascend { OnOk result (IsStrictlySortedBy key_cmp all.new.items) }
    ensures same { OnOk result ((k : Key) → Contains all.new.items k
        ↔ (Contains all.old.items k ⊎ Contains facts.now k)) }
{
    all.extend_from_slice(facts)?;
    put_in_order(all);
    Ok(())
}

/// The base that an added fact gives its entity, where these facts are added with it.
fn new_base<G: Graph>(graph: &G, fact: FactKey, added: &[FactKey]) -> Option<u32>
    ensures { result ≡ base_among (G.ids graph.now) fact added.now }
{
    match fact.id().second() {
        None => None,
        Some(target) => base_at(graph, fact.entity(), target, added),
    }
}

/// The target, if it is a new base of the entity, where these facts are added.
fn base_at<G: Graph>(graph: &G, entity: u32, target: u32, added: &[FactKey]) -> Option<u32>
    requires { IsIndex target }
    ensures { result ≡ base_at (G.ids graph.now) entity added.now target }
{
    let base = FactKey::new(entity, Id::pair(IS_A, target));
    if added.contains(&base) && !is_fact(graph, base) {
        Some(target)
    } else {
        None
    }
}

/// Adds the copies that an entity gets of what a base holds.
fn push_copies<G: Graph, A: Allocator>(
    graph: &G,
    entity: u32,
    base: u32,
    added: &[FactKey],
    copies: &mut Vec<FactKey, A>,
) -> Result<(), AllocError>
    ensures { OnOk result (copies.new.items ≡ copies.old.items ++ copies_of (G.ids graph.now) entity added.now base) }
{
    let held = graph.ids(entity);
    for id in graph.ids(base) {
        push_copy(graph, entity, held, added, *id, copies)?;
    }
    Ok(())
}

/// Adds the copy of an id, if the entity, which holds these ids, gets one.
fn push_copy<G: Graph, A: Allocator>(
    graph: &G,
    entity: u32,
    held: &[Id],
    added: &[FactKey],
    id: Id,
    copies: &mut Vec<FactKey, A>,
) -> Result<(), AllocError>
    requires { held.now ≡ G.ids graph.now entity }
    ensures { OnOk result (copies.new.items ≡ copies.old.items ++ copy_of (G.ids graph.now) entity added.now id) }
{
    if is_copied(graph.ids(id.first()), held, entity, added, id) {
        copies.push(FactKey::new(entity, id))?;
    }
    Ok(())
}

/// Whether something of a base may be copied to an entity, whatever that has of its own.
pub(crate) fn gives_copies<G: Graph>(graph: &G, base: u32) -> bool
    ensures { result ≡ list_any (is_copied_of (G.ids graph.now) []) (G.ids graph.now base) }
{
    graph.ids(base).iter().any(|id| may_be_copied(graph, *id))
}

/// Whether an id may be copied to an entity, whatever that has of its own.
fn may_be_copied<G: Graph>(graph: &G, id: Id) -> bool
    ensures { result ≡ is_copied_of (G.ids graph.now) [] id }
{
    let traits = graph.ids(id.first());
    !is_left_to_base(traits) && !stays_behind(id) && takes(&[], 0, &[], traits, id)
}

/// Whether an entity that holds these ids and gets these facts gets a copy of an id of its base, whose component or
/// relationship has these traits.
fn is_copied(traits: &[Id], held: &[Id], entity: u32, added: &[FactKey], id: Id) -> bool
    ensures { result ≡ gets_copy traits.now held.now entity added.now id }
{
    !is_left_to_base(traits)
        && !stays_behind(id)
        && !is_own(held, entity, added, id)
        && takes(held, entity, added, traits, id)
}

/// Whether instances inherit facts of a component or relationship with these traits, or have nothing of them.
fn is_left_to_base(traits: &[Id]) -> bool
    ensures { result ≡ is_held traits.now (pair on_instantiate inherit_mode)
        || is_held traits.now (pair on_instantiate dont_inherit_mode) }
{
    for id in traits {
        if *id == Id::pair(ON_INSTANTIATE, INHERIT)
            || *id == Id::pair(ON_INSTANTIATE, DONT_INHERIT)
        {
            return true;
        }
    }
    false
}

/// Whether an id stays with the base.
fn stays_behind(id: Id) -> bool
    ensures { result ≡ stays id }
{
    match id.second() {
        None => {
            let first = id.first();
            first == COMPONENT || first == PREFAB || first == DISABLED || is_trait(id)
        }
        Some(_) => is_trait(id),
    }
}

/// Whether an entity that holds these ids has an id, or gets it by these facts.
fn is_own(held: &[Id], entity: u32, added: &[FactKey], id: Id) -> bool
    ensures { result ≡ has_own held.now entity added.now id }
{
    held.contains(&id) || is_added(entity, added, id)
}

fn is_added(entity: u32, added: &[FactKey], id: Id) -> bool
    ensures { result ≡ list_any (λ k. k.0 == entity && id_eq k.1 id) added.now }
{
    added
        .iter()
        .any(|fact| fact.entity() == entity && fact.id() == id)
}

/// Whether an id may come to an entity that holds these ids and gets these facts, where its component or relationship
/// has these traits.
fn takes(held: &[Id], entity: u32, added: &[FactKey], traits: &[Id], id: Id) -> bool
    ensures { result ≡ takes_own traits.now held.now entity added.now id }
{
    id.second().is_none() || takes_pair(held, entity, added, traits, id.first())
}

/// The same of a pair of a relationship.
fn takes_pair(held: &[Id], entity: u32, added: &[FactKey], traits: &[Id], relationship: u32) -> bool
    ensures { result ≡ takes_pair_own traits.now held.now entity added.now relationship }
{
    let traits = traits_among(traits);
    !traits.contains(TraitSet::TRAVERSABLE)
        && !traits.contains(TraitSet::SYMMETRIC)
        && !(traits.contains(TraitSet::EXCLUSIVE)
            && has_own_pair(held, entity, added, relationship))
}

/// Whether an entity that holds these ids has a pair of a relationship, or gets one by these facts.
fn has_own_pair(held: &[Id], entity: u32, added: &[FactKey], relationship: u32) -> bool
    ensures { result ≡ pairs_with held.now entity added.now relationship }
{
    holds_pair(held, relationship) || gets_pair(entity, added, relationship)
}

fn holds_pair(held: &[Id], relationship: u32) -> bool
    ensures { result ≡ has_pair held.now relationship }
{
    held.iter()
        .any(|id| target_under(*id, relationship).is_some())
}

fn gets_pair(entity: u32, added: &[FactKey], relationship: u32) -> bool
    ensures { result ≡ list_any (λ k. k.0 == entity && is_some (target_of relationship k.1)) added.now }
{
    added.iter().any(|fact| fact.entity() == entity
        && target_under(fact.id(), relationship).is_some())
}
