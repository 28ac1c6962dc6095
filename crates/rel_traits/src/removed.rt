//! Which facts go with a removed one.
ghost use Rattle.std.specs.Prelude.{◌≡◌, [], ◌∷◌, Contains, IsTrue, OnOk};
ghost use Rattle.std.specs.List.{cons_option};
ghost use Rattle.ecs_id.specs.Id.{IsIndex};
ghost use Rattle.ecs_model.specs.Added.{mirror};
ghost use Rattle.rel_traits.specs.FactLists.{IsListOf, is_fact};

use crate::fact_lists::{keep_held, put_in_order};
use ecs_id::Id;
use ecs_model::FactKey;
use ecs_model::built_ins::SYMMETRIC;
use rel_travel::Graph;
use std::alloc::{AllocError, Allocator};

/// Finds the removed facts, in order: the fact and its mirror, where they are held.
///
/// It takes time in the ids of the fact's entity and of its target.
pub fn closure_remove<G: Graph, A: Allocator>(
    graph: &G,
    fact: FactKey,
    removed: &mut Vec<FactKey, A>,
) -> Result<(), AllocError>
    requires { IsIndex fact.0 }
    ensures { OnOk result (IsListOf (λ z. Contains (fact ∷ mirror (G.ids graph.now) fact) z
        × IsTrue (is_fact (G.ids graph.now) z)) removed.new.items) }
{
    removed.clear();
    removed.push(fact)?;
    if let Some(mirror) = mirror_of(graph, fact) {
        removed.push(mirror)?;
    }
    keep_held(graph, removed);
    put_in_order(removed);
    Ok(())
}

/// The mirror of a fact, which comes and goes with it.
pub fn mirror_of<G: Graph>(graph: &G, fact: FactKey) -> Option<FactKey>
    requires { IsIndex fact.0 }
    ensures { cons_option result [] ≡ mirror (G.ids graph.now) fact }
{
    let id = fact.id();
    let target = id.second()?;
    if graph.ids(id.first()).contains(&Id::plain(SYMMETRIC)) {
        Some(FactKey::new(target, Id::pair(id.first(), fact.entity())))
    } else {
        None
    }
}
