//! Lists of facts.
ghost use Rattle.std.specs.Prelude.{◌≡◌, ◌++◌, OnOk, map};

pub(crate) use crate::put_in_order;
use ecs_model::FactKey;
use rel_travel::Graph;
use std::alloc::{AllocError, Allocator};

/// Adds all facts of an entity.
pub fn push_facts<G: Graph, A: Allocator>(
    graph: &G,
    entity: u32,
    facts: &mut Vec<FactKey, A>,
) -> Result<(), AllocError>
    ensures { OnOk result (facts.new.items ≡ facts.old.items ++ map (λ i. (entity, i)) (G.ids graph.now entity)) }
{
    for id in graph.ids(entity) {
        facts.push(FactKey::new(entity, *id))?;
    }
    Ok(())
}
