//! Lists of facts.
ghost use Rattle.std.specs.Prelude.{◌≡◌, ◌↔◌, Contains, filter};
ghost use Rattle.std.specs.List.Sorted.{IsStrictlySortedBy};
ghost use Rattle.ecs_model.specs.World.{Key, key_cmp};
ghost use Rattle.rel_traits.specs.FactLists.{is_fact};

use ecs_model::FactKey;
use rel_travel::Graph;
use std::alloc::Allocator;

/// Whether the fact is held.
pub fn is_fact<G: Graph>(graph: &G, fact: FactKey) -> bool
    ensures { result ≡ is_fact (G.ids graph.now) fact }
{
    graph.ids(fact.entity()).contains(&fact.id())
}

/// Keeps those that are held.
pub fn keep_held<G: Graph, A: Allocator>(graph: &G, facts: &mut Vec<FactKey, A>)
    ensures { facts.new.items ≡ filter (is_fact (G.ids graph.now)) facts.old.items }
{
    facts.retain(|fact| is_fact(graph, *fact));
}

/// Puts the facts in order, each once. It takes no memory.
pub fn put_in_order<A: Allocator>(facts: &mut Vec<FactKey, A>)
    ensures ascend { IsStrictlySortedBy key_cmp facts.new.items }
    ensures same { (k : Key) → Contains facts.new.items k ↔ Contains facts.old.items k }
{
    if facts.len() < 2 {
        return;
    }
    facts.sort_unstable();
    facts.dedup();
}
