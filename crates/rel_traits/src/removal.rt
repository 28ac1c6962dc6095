//! What goes with a removed fact, and why it can't be removed.
ghost use Rattle.std.specs.Prelude.{◌≡◌, [], ◌∷◌, OnOk, filter};
ghost use Rattle.std.specs.List.{list_any};
ghost use Rattle.ecs_id.specs.Id.{IsIndex};
ghost use Rattle.ecs_model.specs.Map.{keys};
ghost use Rattle.ecs_model.specs.Refusal.{first_reason};
ghost use Rattle.ecs_model.specs.World.{WorldState, key_eq};
ghost use Rattle.ecs_model.specs.steps.FactChanges.{removed as all_removed};
ghost use Rattle.ecs_model.specs.steps.Rules.{is_trait as is_trait_id};
ghost use Rattle.rel_traits.specs.Additions.{is_of_built_in};
ghost use Rattle.rel_traits.specs.Sees.{Sees};

use crate::closure_remove;
use crate::trait_facts::{is_fixed, is_trait};
use ecs_model::FactKey;
use ecs_model::faults::Refusal;
use rel_travel::Graph;
use std::alloc::{AllocError, Allocator};

/// Makes the list that of the facts which go with a removed one, ascending: the fact and its mirror, where they are
/// held.
///
/// It takes time in the ids of the fact's entity and of its target. Memory can be refused only where the list has no
/// room.
pub fn gather_remove<G: Graph, A: Allocator>(
    graph: &G,
    fact: FactKey,
    removed: &mut Vec<FactKey, A>,
) -> Result<(), AllocError>
    requires { IsIndex fact.0 }
    ensures { OnOk result ((w : WorldState) → Sees w (G.entities graph.now) (G.ids graph.now)
        → removed.new.items ≡ filter (λ k. list_any (key_eq k) (all_removed w fact.0 fact.1)) (keys w.facts)) }
{
    closure_remove(graph, fact, removed)?;
    Ok(())
}

/// Why a fact of live entities can't be removed: it is of a built-in entity or is the tag of components, it is a trait,
/// or no further command is counted.
pub fn judge_remove(fact: FactKey, is_spent: bool) -> Option<Refusal>
    ensures { result ≡ first_reason ((is_of_built_in fact, Refusal.BuiltIn) ∷ (is_trait_id fact.1, Refusal.TraitFixed)
        ∷ (is_spent, Refusal.Full) ∷ []) }
{
    if is_fixed(fact) {
        Some(Refusal::BuiltIn)
    } else if is_trait(fact.id()) {
        Some(Refusal::TraitFixed)
    } else if is_spent {
        Some(Refusal::Full)
    } else {
        None
    }
}
