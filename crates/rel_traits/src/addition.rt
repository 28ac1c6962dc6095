//! What comes and goes with an added fact.
ghost use Rattle.std.specs.Prelude.{◌≡◌, ◌≤◌, [], All, Contains, None, OnOk, filter, not};
ghost use Rattle.ecs_id.specs.Id.{mentioned};
ghost use Rattle.ecs_model.specs.World.{WorldState};
ghost use Rattle.rel_traits.specs.FactLists.{IsOfLive, is_fact as is_fact_of};
ghost use Rattle.rel_traits.specs.Additions.{TellsAddition};
ghost use Rattle.rel_traits.specs.Sees.{Sees};

use crate::copies::{join_copies, list_copies};
use crate::{closure_add, is_fact, replaced_by};
use ecs_model::FactKey;
use rel_travel::{Graph, Scratch};
use std::alloc::{AllocError, Allocator, Global};

/// What an added fact brings and takes. Its lists ascend.
#[derive(Drop)]
pub struct Additions<A: Allocator = Global> {
    /// The fact, and all facts that come with it by With and by Symmetric, held or not.
    pub added: Vec<FactKey, A>,
    /// The base that the fact gives its entity, if there is one.
    pub base: Option<u32>,
    /// The entity's copies of the base's facts. None of them is held or added.
    pub copies: Vec<FactKey, A>,
    /// The copies, and those of the added facts that aren't held yet.
    pub came: Vec<FactKey, A>,
    /// The held facts that give way to them.
    pub went: Vec<FactKey, A>,
}

impl<A: Allocator + Copy> Additions<A> {
    /// Empty lists, which take no memory.
    pub fn new(alloc: A) -> Additions<A>
        ensures added { result.added.items ≡ [] }
        ensures base { result.base ≡ None }
        ensures copies { result.copies.items ≡ [] }
        ensures came { result.came.items ≡ [] }
        ensures went { result.went.items ≡ [] }
    {
        Additions {
            added: Vec::new(alloc),
            base: None,
            copies: Vec::new(alloc),
            came: Vec::new(alloc),
            went: Vec::new(alloc),
        }
    }
}

impl<A: Allocator> Additions<A> {
    /// Lists what comes and goes with a fact that is added to a live entity, with an id of live ones, in place of what
    /// was listed before.
    ///
    /// It takes time in what a base holds, in what With leads to, and in the ids of the entities of the added facts and
    /// of their mirrors, besides the time to sort the lists. Memory can be refused only where a list has no room.
    pub fn gather<G: Graph>(
        &mut self,
        graph: &G,
        fact: FactKey,
        scratch: &mut Scratch<A>,
    ) -> Result<(), AllocError>
        requires covered { G.size graph.now ≤ scratch.old.size }
        requires entity { Contains (G.entities graph.now) fact.0 }
        requires mentions { All (Contains (G.entities graph.now)) (mentioned fact.1) }
        ensures size { scratch.new.size ≡ scratch.old.size }
        ensures tells { OnOk result ((w : WorldState) → Sees w (G.entities graph.now) (G.ids graph.now)
            → TellsAddition w fact self.new.base self.new.added.items self.new.copies.items self.new.came.items
            self.new.went.items) }
        ensures live { OnOk result (All (IsOfLive (G.entities graph.now)) self.new.added.items) }
        ensures copies_live { OnOk result (All (IsOfLive (G.entities graph.now)) self.new.copies.items) }
    {
        let _ = graph.size();
        closure_add(graph, fact, scratch, &mut self.added)?;
        replaced_by(graph, &self.added, &mut self.went)?;
        self.base = list_copies(graph, fact, &self.added, &mut self.copies)?;
        list_new(graph, &self.added, self.copies.len(), &mut self.came)?;
        join_copies(self.base, &self.copies, &mut self.came)?;
        Ok(())
    }
}

/// Makes the list that of those of the facts that aren't held, with room for so many more.
fn list_new<G: Graph, A: Allocator>(
    graph: &G,
    facts: &[FactKey],
    more: usize,
    came: &mut Vec<FactKey, A>,
) -> Result<(), AllocError>
    ensures { OnOk result (came.new.items ≡ filter (λ k. not (is_fact_of (G.ids graph.now) k)) facts.now) }
{
    came.clear();
    came.reserve(facts.len().saturating_add(more))?;
    for fact in facts {
        if !is_fact(graph, *fact) {
            came.push(*fact)?;
        }
    }
    Ok(())
}
