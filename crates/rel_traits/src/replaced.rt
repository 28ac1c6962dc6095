//! Which facts go with an added one.
ghost use Rattle.std.specs.Prelude.{◌≡◌, ◌++◌, [], ◌∷◌, All, IsTrue, flat_map, OnOk};
ghost use Rattle.ecs_id.specs.Id.{IsIndex};
ghost use Rattle.ecs_model.specs.Added.{displaced, others_of};
ghost use Rattle.rel_traits.specs.FactLists.{GivesWay, IsListOf, is_fact};

use crate::fact_lists::{keep_held, put_in_order};
use ecs_id::Id;
use ecs_model::FactKey;
use ecs_model::built_ins::{EXCLUSIVE, SYMMETRIC};
use rel_travel::{Graph, target_under};
use std::alloc::{AllocError, Allocator};

/// Finds the replaced facts, in order: those that are held and give way to the added ones, by their relationships that
/// are exclusive, and their mirrors.
///
/// It takes time in the ids of the entities of the added facts and of their mirrors.
pub fn replaced_by<G: Graph, A: Allocator>(
    graph: &G,
    added: &[FactKey],
    replaced: &mut Vec<FactKey, A>,
) -> Result<(), AllocError>
    requires { All (λ k. IsIndex k.0) added.now }
    ensures { OnOk result (IsListOf (λ z. GivesWay (G.ids graph.now) added.now z × IsTrue (is_fact (G.ids graph.now) z))
        replaced.new.items) }
{
    list_displaced(graph, added, replaced)?;
    keep_held(graph, replaced);
    put_in_order(replaced);
    Ok(())
}

/// What gives way to the added facts, held or not, and each as often as it does.
fn list_displaced<G: Graph, A: Allocator>(
    graph: &G,
    added: &[FactKey],
    replaced: &mut Vec<FactKey, A>,
) -> Result<(), AllocError>
    requires { All (λ k. IsIndex k.0) added.now }
    ensures { OnOk result (replaced.new.items ≡ flat_map (displaced (G.ids graph.now)) added.now) }
{
    replaced.clear();
    for fact in added {
        push_displaced(graph, *fact, replaced)?;
    }
    Ok(())
}

/// Adds the facts that give way to one.
fn push_displaced<G: Graph, A: Allocator>(
    graph: &G,
    fact: FactKey,
    facts: &mut Vec<FactKey, A>,
) -> Result<(), AllocError>
    requires { IsIndex fact.0 }
    ensures { OnOk result (facts.new.items ≡ facts.old.items ++ displaced (G.ids graph.now) fact) }
{
    let id = fact.id();
    if let Some(target) = id.second() {
        let relationship = id.first();
        let traits = graph.ids(relationship);
        if traits.contains(&Id::plain(EXCLUSIVE)) {
            let is_symmetric = traits.contains(&Id::plain(SYMMETRIC));
            let ids = graph.ids(fact.entity());
            return push_others(
                is_symmetric,
                fact.entity(),
                relationship,
                target,
                ids,
                facts,
            );
        }
    }
    Ok(())
}

/// Adds the pairs of a relationship with other targets than this, and their mirrors where there are mirrors.
fn push_others<A: Allocator>(
    is_symmetric: bool,
    entity: u32,
    relationship: u32,
    target: u32,
    ids: &[Id],
    facts: &mut Vec<FactKey, A>,
) -> Result<(), AllocError>
    requires entity { IsIndex entity }
    requires relationship { IsIndex relationship }
    ensures { OnOk result (facts.new.items ≡ facts.old.items ++ others_of is_symmetric entity relationship target
        ids.now) }
{
    for id in ids {
        push_other(is_symmetric, entity, relationship, target, *id, facts)?;
    }
    Ok(())
}

/// The same for one id.
fn push_other<A: Allocator>(
    is_symmetric: bool,
    entity: u32,
    relationship: u32,
    target: u32,
    id: Id,
    facts: &mut Vec<FactKey, A>,
) -> Result<(), AllocError>
    requires entity { IsIndex entity }
    requires relationship { IsIndex relationship }
    ensures { OnOk result (facts.new.items ≡ facts.old.items ++ others_of is_symmetric entity relationship target
        (id ∷ [])) }
{
    if let Some(other) = target_under(id, relationship) {
        if other != target {
            facts.push(FactKey::new(entity, id))?;
            if is_symmetric {
                facts.push(FactKey::new(other, Id::pair(relationship, entity)))?;
            }
        }
    }
    Ok(())
}
