//! Facts that come and go with an added one, copies from a new base among them, and those that go with a removed one.

ghost use Rattle.std.specs.Prelude.{◌≡◌, ◌<◌, [], ◌∷◌, false, true, None, All, IfOk, IsTrue, OnErr, OnOk, filter};
ghost use Rattle.std.specs.Prelude.{length, nat_le};
ghost use Rattle.std.specs.List.{list_all, list_any};
ghost use Rattle.ecs_archetypes.specs.Staying.{TablesStay};
ghost use Rattle.ecs_id.specs.Id.{mentioned};
ghost use Rattle.ecs_model.specs.steps.Outcomes.{with_facts};
ghost use Rattle.ecs_model.specs.Map.{keys};
ghost use Rattle.ecs_model.specs.Refusal.{first_reason};
ghost use Rattle.ecs_model.specs.World.{entities, holds, is_alive, is_live, key_eq, type_of_id};
ghost use Rattle.ecs_model.specs.steps.FactChanges.{facts_after_add, facts_after_remove, removed};
ghost use Rattle.ecs_model.specs.steps.Step.{Add, Remove, add_reasons, adds_built_in as brings_built_in, reasons};
ghost use Rattle.ecs_model.specs.steps.WellFormed.{IsWellFormed};
ghost use Rattle.ecs_world.specs.Changes.{AreCopies, facts_with_new, sized_by, with_bytes, with_copies};
ghost use Rattle.ecs_world.specs.Releases.{NoneGo, gets_no_data};
ghost use Rattle.ecs_world.specs.State.{byte_count};
ghost use Rattle.rel_traits.specs.Additions.{TellsAddition};
ghost use Rattle.rel_traits.specs.FactLists.{IsOfLive};
ghost use Rattle.table_store.specs.Going.{TablesGoOn};

use crate::releases::release_tag_pairs;
use crate::{Memory, World};
use ecs_archetypes::{Links, SizedFact};
use ecs_id::{EntityId, Id};
use ecs_model::FactKey;
use ecs_model::faults::Refusal;
use rel_traits::{Additions, gather_remove, judge_add};
use std::alloc::Allocator;

impl<A: Allocator + Copy> World<A> {
    /// Lists what comes and goes with a fact of live entities. The world stays as it is.
    pub(crate) fn list_additions(
        &mut self,
        entity: EntityId,
        id: Id,
        additions: &mut Additions<A>,
    ) -> Result<(), Memory>
        requires alive { is_alive self.old.state entity ≡ true }
        requires mentions { list_all (is_live self.old.state) (mentioned id) ≡ true }
        ensures same { self.new ≡ self.old }
        ensures tells { OnOk result (TellsAddition self.old.state (entity.index, id) additions.new.base
            additions.new.added.items additions.new.copies.items
            additions.new.came.items additions.new.went.items) }
        ensures live { OnOk result (All (IsOfLive (entities self.old.state)) additions.new.added.items) }
        ensures copies_live { OnOk result (All (IsOfLive (entities self.old.state)) additions.new.copies.items) }
    {
        let size = self.archetypes.size();
        self.scratch.reserve(size)?;
        let links = Links::new(&self.archetypes, size);
        let fact = FactKey::new(entity.index, id);
        additions.gather(&links, fact, &mut self.scratch)?;
        Ok(())
    }

    /// Why a fact of live entities is not added with what it brings, where nothing comes to what is built in. The world
    /// stays as it is. Where memory is refused there is no answer.
    pub(crate) fn addition_refusal(
        &mut self,
        entity: EntityId,
        id: Id,
        additions: &Additions<A>,
    ) -> Result<Option<Refusal>, Memory>
        requires alive { is_alive self.old.state entity ≡ true }
        requires mentions { list_all (is_live self.old.state) (mentioned id) ≡ true }
        requires tells { TellsAddition self.old.state (entity.index, id) additions.now.base additions.now.added.items
            additions.now.copies.items
            additions.now.came.items additions.now.went.items }
        requires live { All (IsOfLive (entities self.old.state)) additions.now.added.items }
        requires copies_live { All (IsOfLive (entities self.old.state)) additions.now.copies.items }
        requires others { brings_built_in self.old.state entity.index id ≡ false }
        ensures same { self.new ≡ self.old }
        ensures judged { IfOk result (λ refusal. refusal ≡ first_reason (add_reasons self.old.state entity.index id)) }
    {
        let size = self.archetypes.size();
        self.scratch.reserve(size)?;
        let is_spent = self.is_spent();
        let links = Links::new(&self.archetypes, size);
        let fact = FactKey::new(entity.index, id);
        Ok(judge_add(
            &links,
            fact,
            additions,
            &self.pins,
            is_spent,
            &mut self.scratch,
        ))
    }

    /// Brings what comes with an added fact, copies with the values of the base, and takes what gives way to it. All
    /// growth comes first. The command is not counted yet.
    pub(crate) fn bring(
        &mut self,
        entity: EntityId,
        id: Id,
        additions: &Additions<A>,
    ) -> Result<(), Memory>
        requires judged { first_reason (reasons self.old.state (Add entity id)) ≡ None }
        requires tells { TellsAddition self.old.state (entity.index, id) additions.now.base additions.now.added.items
            additions.now.copies.items
            additions.now.came.items additions.now.went.items }
        ensures brought { OnOk result (self.new.state ≡ with_facts self.old.state
            (facts_after_add self.old.state entity.index id)) }
        ensures refused { OnErr result (self.new.state ≡ self.old.state) }
        ensures goes_on { TablesGoOn self.old.tables self.new.tables }
        ensures stay { OnOk result (TablesStay (list_any (gets_no_data
            (sized_by self.old.state additions.now.came.items))) self.old.tables self.new.tables) }
        ensures kept { OnErr result (NoneGo self.old self.new) }
    {
        self.keeps();
        self.bring_new(entity, id, additions)?;
        if let Some(base) = additions.base {
            self.write_copies(entity, base, &additions.copies);
        }
        Ok(())
    }

    /// Moves the rows of what comes and goes: all that comes has zeros, copies too. What memory this takes is got
    /// before the first row moves.
    fn bring_new(
        &mut self,
        entity: EntityId,
        id: Id,
        additions: &Additions<A>,
    ) -> Result<(), Memory>
        requires judged { first_reason (reasons self.old.state (Add entity id)) ≡ None }
        requires tells { TellsAddition self.old.state (entity.index, id) additions.now.base additions.now.added.items
            additions.now.copies.items
            additions.now.came.items additions.now.went.items }
        ensures brought { OnOk result (self.new.state ≡ with_facts self.old.state
            (facts_with_new self.old.state entity.index id)) }
        ensures refused { OnErr result (self.new.state ≡ self.old.state) }
        ensures goes_on { TablesGoOn self.old.tables self.new.tables }
        ensures stay { OnOk result (TablesStay (list_any (gets_no_data
            (sized_by self.old.state additions.now.came.items))) self.old.tables self.new.tables) }
        ensures kept { OnErr result (NoneGo self.old self.new) }
    {
        let _ = (entity, id);
        let mut came = Vec::new(self.alloc);
        self.size_facts(&additions.came, &mut came)?;
        self.archetypes
            .change_facts(&mut self.plan, &came, &additions.went, &[])?;
        release_tag_pairs(&mut self.archetypes, &came);
        Ok(())
    }

    /// Gives each of these facts of an entity the value that the base's fact of the same id has. It takes no memory,
    /// and cannot fail.
    fn write_copies(&mut self, entity: EntityId, base: u32, copies: &[FactKey])
        requires { AreCopies self.old.state entity base copies.now }
        ensures state { self.new.state ≡ with_copies self.old.state base copies.now }
        ensures goes_on { TablesGoOn self.old.tables self.new.tables }
        ensures stay { NoneGo self.old self.new }
    {
        for copy in copies {
            self.write_copy(entity, base, copy.id());
        }
    }

    /// Gives a fact that a live entity holds the value that the base's fact of the same id has.
    fn write_copy(&mut self, entity: EntityId, base: u32, id: Id)
        requires alive { is_alive self.old.state entity ≡ true }
        requires held { holds self.old.state entity.index id ≡ true }
        requires of_base { holds self.old.state base id ≡ true }
        requires sound { IsWellFormed (with_copies self.old.state base ((entity.index, id) ∷ [])) }
        ensures state { self.new.state ≡ with_copies self.old.state base ((entity.index, id) ∷ []) }
        ensures goes_on { TablesGoOn self.old.tables self.new.tables }
        ensures stay { NoneGo self.old self.new }
    {
        self.keeps();
        let bytes = self.bytes(base, id).unwrap();
        let size = bytes.len();
        if size > 0 {
            let mut buffer = [0; 64];
            buffer[..size].copy_from_slice(bytes);
            self.write(entity, id, &buffer[..size]);
        }
    }

    /// Makes the list that of these facts, each with the bytes of its values.
    fn size_facts(&self, facts: &[FactKey], sized: &mut Vec<SizedFact, A>) -> Result<(), Memory>
        ensures sized { OnOk result (sized.new.items ≡ sized_by self.now.state facts.now) }
        ensures small { OnOk result (IsTrue (list_all (λ c. nat_le c.1 64) sized.new.items)) }
    {
        sized.clear();
        sized.reserve(facts.len())?;
        for fact in facts {
            let sized_fact = SizedFact::new(*fact, self.size_of(fact.id()));
            if sized.push(sized_fact).is_err() {
                return Err(Memory);
            }
        }
        Ok(())
    }

    /// Writes a value of an id with data that the entity holds.
    pub(crate) fn write(&mut self, entity: EntityId, id: Id, bytes: &[u8])
        requires alive { is_alive self.old.state entity ≡ true }
        requires held { holds self.old.state entity.index id ≡ true }
        requires data { 0 < length bytes.now }
        requires size { length bytes.now ≡ byte_count (type_of_id self.old.state id) }
        requires sound { IsWellFormed (with_bytes self.old.state entity.index id bytes.now) }
        ensures state { self.new.state ≡ with_bytes self.old.state entity.index id bytes.now }
        ensures goes_on { TablesGoOn self.old.tables self.new.tables }
        ensures stay { NoneGo self.old self.new }
    {
        let found = self.archetypes.find(entity, id).unwrap();
        self.archetypes.set_value(entity, found.place, id, bytes);
    }

    /// Lists the facts that go with a removed one. The world stays as it is.
    pub(crate) fn list_removals(
        &self,
        entity: EntityId,
        id: Id,
        went: &mut Vec<FactKey, A>,
    ) -> Result<(), Memory>
        requires alive { is_alive self.now.state entity ≡ true }
        ensures { OnOk result (went.new.items ≡ filter (λ k. list_any (key_eq k)
            (removed self.now.state entity.index id)) (keys self.now.state.facts)) }
    {
        let links = Links::new(&self.archetypes, self.archetypes.size());
        let fact = FactKey::new(entity.index, id);
        gather_remove(&links, fact, went)?;
        Ok(())
    }

    /// Takes the facts that go with a removed one. The command is not counted yet.
    pub(crate) fn take(&mut self, entity: EntityId, id: Id, went: &[FactKey]) -> Result<(), Memory>
        requires judged { first_reason (reasons self.old.state (Remove entity id)) ≡ None }
        requires listed { went.now ≡ filter (λ k. list_any (key_eq k) (removed self.old.state entity.index id))
            (keys self.old.state.facts) }
        ensures taken { OnOk result (self.new.state ≡ with_facts self.old.state
            (facts_after_remove self.old.state entity.index id)) }
        ensures refused { OnErr result (self.new.state ≡ self.old.state) }
        ensures goes_on { TablesGoOn self.old.tables self.new.tables }
        ensures stay { NoneGo self.old self.new }
    {
        let _ = (entity, id);
        self.archetypes.change_facts(&mut self.plan, &[], went, &[])
    }
}
