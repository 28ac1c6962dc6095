//! `delete`, with all who fall with an entity and all facts that mention these.

ghost use Rattle.std.specs.Prelude.{◌≡◌, ◌==◌, ◌↔◌, ◌<◌, ℕ, List, None, Some, false, true, Contains, IfErr, IfOk};
ghost use Rattle.std.specs.Prelude.{OnErr, OnOk, filter, filter_map, length};
ghost use Rattle.std.specs.List.{list_any};
ghost use Rattle.std.specs.List.Sorted.{IsStrictlySortedBy};
ghost use Rattle.std.specs.Ordering.{nat_cmp};
ghost use Rattle.std.specs.FinMap as finite;
ghost use Rattle.ecs_archetypes.specs.Holdings.{entity_at};
ghost use Rattle.ecs_archetypes.specs.Housing.{holdings_of};
ghost use Rattle.ecs_archetypes.specs.Staying.{TablesStay};
ghost use Rattle.ecs_id.specs.declared.EntityId.{EntityId};
ghost use Rattle.ecs_model.specs.steps.Outcomes.{AnswersStep};
ghost use Rattle.ecs_model.specs.Map.{IsMap, keys, without};
ghost use Rattle.ecs_model.specs.Refusal.{first_reason};
ghost use Rattle.ecs_model.specs.World.{is_alive, is_built_in as is_built_in_index, name_of};
ghost use Rattle.ecs_model.specs.steps.FactChanges.{deleted, mentions_gone};
ghost use Rattle.ecs_model.specs.steps.Step.{Delete, delete_reasons, reasons, step, without_entities};
ghost use Rattle.ecs_world.specs.Changes.{TellsRefusal, entities_at, entity_cmp, with_names};
ghost use Rattle.ecs_world.specs.State.{listed, no_change};
ghost use Rattle.ecs_world.specs.Releases.{NoneGo, OnlyForgottenGo, mentions_one};
ghost use Rattle.rel_traits.specs.Deletions.{is_lost};
ghost use Rattle.table_store.specs.Going.{TablesGoOn};

use crate::changes::{ChangeLists, Fallen, Told};
use crate::death_names::DeathName;
use crate::refusals::is_built_in;
use crate::releases::release_dead;
use crate::{Changes, Death, Memory, World};
use ecs_archetypes::{Archetypes, Links};
use ecs_id::EntityId;
use ecs_model::FactKey;
use ecs_model::faults::{CommandError, Refusal};
use ecs_schema::Schema;
use name_index::NameIndex;
use rel_traits::{GoneFacts, judge_delete};
use std::alloc::{AllocError, Allocator};
use std::collections::BTreeMap;
use std::mem;

/// Who is deleted, and the facts that go with them.
pub(crate) struct Deletion<A: Allocator> {
    /// By ascending index.
    dead: Vec<EntityId, A>,
    facts: GoneFacts<A>,
}

impl<A: Allocator> Drop for Deletion<A> {
    #[inline(always)]
    fn drop(self) {
        let Self { dead: _, facts: _ } = self;
    }
}

impl<A: Allocator + Copy> Deletion<A> {
    /// Empty lists, which take no memory.
    pub(crate) fn new(alloc: A) -> Deletion<A> {
        Deletion {
            dead: Vec::new(alloc),
            facts: GoneFacts::new(alloc),
        }
    }
}

impl<A: Allocator + Copy> World<A> {
    /// Deletes an entity, and with it all who fall by the cleanup rules of what they hold: OnDelete and OnDeleteTarget
    /// with Delete. All facts that mention one of these go, and so do their names and fields.
    pub fn delete(&mut self, entity: EntityId) -> Result<Changes<A>, CommandError>
        ensures answers { AnswersStep result (step self.old.state (Delete entity)) self.old.state self.new.state }
        ensures goes_on { TablesGoOn self.old.tables self.new.tables }
        ensures stay { OnlyForgottenGo self.old self.new }
    {
        if !self.is_alive(entity) {
            return Err(CommandError::Refused(Refusal::Dead));
        }
        if is_built_in(entity.index) {
            return Err(CommandError::Refused(Refusal::BuiltIn));
        }
        // Its lists are lent by the world, so that not every deletion takes some.
        let mut deletion = mem::replace(&mut self.deletion, Deletion::new(self.alloc));
        let changes = self.delete_with(entity, &mut deletion);
        self.deletion = deletion;
        changes
    }

    /// Deletes a live entity that isn't built in, with all who fall with it.
    fn delete_with(
        &mut self,
        entity: EntityId,
        deletion: &mut Deletion<A>,
    ) -> Result<Changes<A>, CommandError>
        requires alive { is_alive self.old.state entity ≡ true }
        requires own { is_built_in_index entity.index ≡ false }
        ensures answers { AnswersStep result (step self.old.state (Delete entity)) self.old.state self.new.state }
        ensures goes_on { TablesGoOn self.old.tables self.new.tables }
        ensures stay { OnlyForgottenGo self.old self.new }
    {
        self.keeps();
        self.find_deletion(entity, deletion)?;
        let Ok(changes) = self.tell_deletion(deletion) else {
            return Err(CommandError::Memory);
        };
        if self.bury(entity, deletion).is_err() {
            return Err(CommandError::Memory);
        }
        self.accepted += 1;
        Ok(changes)
    }

    /// Finds all who are deleted with an entity and what goes with them, or why they can't be deleted. The world stays
    /// as it is.
    fn find_deletion(
        &mut self,
        entity: EntityId,
        deletion: &mut Deletion<A>,
    ) -> Result<(), CommandError>
        requires alive { is_alive self.old.state entity ≡ true }
        ensures same { self.new ≡ self.old }
        ensures dead { OnOk result (deletion.new.dead.items ≡ entities_at self.old.state
            (keys (deleted self.old.state entity.index))) }
        ensures lost { OnOk result (deletion.new.facts.lost.items ≡ filter (is_lost self.old.state entity.index)
            (keys self.old.state.facts)) }
        ensures went { OnOk result (deletion.new.facts.went.items ≡ filter
            (mentions_gone self.old.state (deleted self.old.state entity.index))
            (keys self.old.state.facts)) }
        ensures judged { OnOk result (first_reason (delete_reasons self.old.state (deleted self.old.state entity.index))
            ≡ None) }
        ensures refused { IfErr result (TellsRefusal (first_reason (delete_reasons self.old.state
            (deleted self.old.state entity.index)))) }
    {
        let size = self.archetypes.size();
        if self.scratch.reserve(size).is_err() {
            return Err(CommandError::Memory);
        }
        let is_spent = self.is_spent();
        let links = Links::new(&self.archetypes, size);
        let index = entity.index;
        if let Some(refusal) = judge_delete(
            &links,
            index,
            &self.pins,
            is_spent,
            &mut self.scratch,
        ) {
            return Err(CommandError::Refused(refusal));
        }
        if deletion.facts.gather(&links, &self.scratch).is_err() {
            return Err(CommandError::Memory);
        }
        let found = self.scratch.found();
        if list_entities(&self.archetypes, found, &mut deletion.dead).is_err() {
            return Err(CommandError::Memory);
        }
        Ok(())
    }

    /// What a deletion will have changed. All memory that this takes is got here.
    fn tell_deletion(&self, deletion: &mut Deletion<A>) -> Result<Changes<A>, Memory>
        ensures told { IfOk result (λ changes. changes ≡ record no_change {
          died = with_names self.now.state deletion.old.dead.items;
          went = deletion.old.facts.went.items;
        }) }
        ensures dead { deletion.new.dead ≡ deletion.old.dead }
        ensures lost { deletion.new.facts.lost ≡ deletion.old.facts.lost }
    {
        let mut died = Vec::new(self.alloc);
        self.list_deaths(&deletion.dead, &mut died)?;
        if deletion.facts.went.len() < 2 {
            let went = only_of(&deletion.facts.went);
            let Ok(fallen) = Box::new(self.alloc, Fallen { died, went }) else {
                return Err(Memory);
            };
            return Ok(Changes::of(Told::Died(fallen)));
        }
        let lists = ChangeLists::new(self.alloc)?;
        let went = mem::replace(&mut deletion.facts.went, Vec::new(self.alloc));
        let lists = lists.with_facts(Vec::new(self.alloc), went);
        Ok(Changes::of(Told::Lists(lists.with_died(died))))
    }

    /// Lists these entities with their names.
    fn list_deaths(&self, dead: &[EntityId], died: &mut Vec<Death<A>, A>) -> Result<(), Memory>
        ensures { OnOk result (died.new.items ≡ with_names self.now.state dead.now) }
    {
        died.clear();
        for entity in dead {
            let death = self.death_of(*entity)?;
            if died.push(death).is_err() {
                return Err(Memory);
            }
        }
        Ok(())
    }

    /// The death of an entity, with its name.
    fn death_of(&self, entity: EntityId) -> Result<Death<A>, Memory>
        ensures { IfOk result (λ death. death ≡ (entity, name_of self.now.state entity.index)) }
    {
        let name = match self.name_of(entity.index) {
            None => None,
            Some(name) => Some(DeathName::copied(self.alloc, name)?),
        };
        Ok(Death::new(entity, name))
    }

    /// Deletes the entities that were found, with all facts that mention them. The command is not counted yet.
    fn bury(&mut self, entity: EntityId, deletion: &Deletion<A>) -> Result<(), Memory>
        requires judged { first_reason (reasons self.old.state (Delete entity)) ≡ None }
        requires dead { deletion.now.dead.items ≡ entities_at self.old.state
            (keys (deleted self.old.state entity.index)) }
        requires lost { deletion.now.facts.lost.items ≡ filter (is_lost self.old.state entity.index)
            (keys self.old.state.facts) }
        ensures buried { OnOk result (self.new.state ≡ without_entities self.old.state
            (deleted self.old.state entity.index)) }
        ensures refused { OnErr result (self.new.state ≡ self.old.state) }
        ensures goes_on { TablesGoOn self.old.tables self.new.tables }
        ensures stay { OnOk result (TablesStay (list_any (mentions_one (keys (deleted self.old.state entity.index))))
            self.old.tables self.new.tables) }
        ensures kept { OnErr result (NoneGo self.old self.new) }
    {
        let _ = entity;
        let dead = deletion.dead.as_slice();
        self.archetypes
            .change_facts(&mut self.plan, &[], &deletion.facts.lost, dead)?;
        release_dead(&mut self.archetypes, dead);
        forget(&mut self.names, &mut self.schemas, dead);
        Ok(())
    }
}

/// Lists the live entities of these indexes in order, each once.
fn list_entities<A: Allocator + Copy>(
    archetypes: &Archetypes<A>,
    indexes: &[u32],
    entities: &mut Vec<EntityId, A>,
) -> Result<(), AllocError>
    ensures ascend { OnOk result (IsStrictlySortedBy entity_cmp entities.new.items) }
    ensures same { OnOk result ((e : EntityId) → Contains entities.new.items e
        ↔ Contains (filter_map (entity_at (holdings_of archetypes.now)) indexes.now) e) }
{
    entities.clear();
    for index in indexes {
        if let Some(entity) = archetypes.at(*index) {
            entities.push(entity)?;
        }
    }
    entities.sort_unstable();
    entities.dedup();
    Ok(())
}

/// The fact of a list that has one at most.
fn only_of(facts: &[FactKey]) -> Option<FactKey>
    requires { length facts.now < 2 }
    ensures { listed result ≡ facts.now }
{
    facts.first().copied()
}

/// Forgets the names of the dead, and the fields of those that were components.
fn forget<A: Allocator + Copy>(
    names: &mut NameIndex<A>,
    schemas: &mut BTreeMap<u32, Schema<A>, A>,
    dead: &[EntityId],
)
    ensures names { (n : List ℕ) (e : EntityId) → (finite.get names.new n ≡ Some e)
        ↔ ((finite.get names.old n ≡ Some e) × (Contains dead.now e → ⊥)) }
    ensures schemas { IsMap nat_cmp schemas.old.entries → schemas.new.entries
        ≡ without nat_cmp schemas.old.entries (λ i. list_any (λ e. e.index == i) dead.now) }
{
    for entity in dead {
        names.unbind(*entity);
        schemas.remove(&entity.index);
    }
}
