//! Sorted facts: whether a fact is among them, the facts of one entity, and their ids.

ghost use Rattle.std.specs.Prelude.{◌≡◌, ◌++◌, ◌==◌, filter, map, not, IfOk, OnOk};
ghost use Rattle.std.specs.List.{list_any};
ghost use Rattle.std.specs.List.Sorted.{IsStrictlySortedBy};
ghost use Rattle.ecs_model.specs.World.{key_cmp, key_eq};

use ecs_id::Id;
use ecs_model::FactKey;
use std::alloc::{AllocError, Allocator};

/// Whether sorted facts contain this fact.
fn is_among(facts: &[FactKey], fact: FactKey) -> bool
    requires { IsStrictlySortedBy key_cmp facts.now }
    ensures { result ≡ list_any (key_eq fact) facts.now }
{
    facts.binary_search(&fact).is_ok()
}

/// The facts of one entity, out of sorted facts.
pub(crate) fn facts_of(facts: &[FactKey], entity: u32) -> &[FactKey]
    requires { IsStrictlySortedBy key_cmp facts.now }
    ensures { result.now ≡ filter (λ k. k.0 == entity) facts.now }
{
    let start = facts.partition_point(|fact| fact.entity() < entity);
    let rest = &facts[start..];
    let count = rest.partition_point(|fact| fact.entity() <= entity);
    &rest[..count]
}

/// The ids that an entity holds, without the ids of the added facts.
pub(crate) fn ids_not_come<A: Allocator>(
    alloc: A,
    came: &[FactKey],
    entity: u32,
    ids: &[Id],
) -> Result<Vec<Id, A>, AllocError>
    requires { IsStrictlySortedBy key_cmp came.now }
    ensures { IfOk result (λ old. old.items ≡ filter (λ i. not (list_any (key_eq (entity, i)) came.now)) ids.now) }
{
    let mut old = Vec::new(alloc);
    for id in ids {
        if !is_among(came, FactKey::new(entity, *id)) {
            old.push(*id)?;
        }
    }
    Ok(old)
}

/// Appends the ids of these facts.
pub(crate) fn push_ids<A: Allocator>(
    facts: &[FactKey],
    ids: &mut Vec<Id, A>,
) -> Result<(), AllocError>
    ensures { OnOk result (ids.new.items ≡ ids.old.items ++ map (λ k. k.1) facts.now) }
{
    for fact in facts {
        ids.push(fact.id())?;
    }
    Ok(())
}
