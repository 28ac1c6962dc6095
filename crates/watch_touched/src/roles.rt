//! The candidates of a linked query by changed facts of other entities. The search walks back from the holder of each
//! changed fact, along the terms that link the query's variables, to the entities that may be `$this`.

ghost use Rattle.std.specs.Prelude.{◌≡◌, ◌+◌, ◌==◌, ◌&&◌, ◌++◌, ◌∷◌, [], false, true, filter, flat_map, map, OnOk};
ghost use Rattle.std.specs.List.{list_any};
ghost use Rattle.id_pattern.specs.Patterns.{matches};
ghost use Rattle.ecs_model.specs.World.{WorldState};
ghost use Rattle.watch_asked.specs.Asked.{IsAskedBy, any_counts_as};
ghost use Rattle.watch_touched.specs.Leaning.{Adds, HoldAll, HoldTheirs, IfDone, leaning, leans, pairs_to};
ghost use Rattle.watch_touched.specs.Leaning.{standing_in};
ghost use Rattle.watch_touched.specs.Moving.{may_be_this};
ghost use Rattle.watch_touched.specs.Roles.{roles_of, this_among};
ghost use Rattle.watch_touched.specs.Searches.{AddsBehind, leads, this_behind};
ghost use Rattle.watch_touched.specs.Steps.{behind_gone, behind_target, found_from, step_back};

use crate::leaning::{MOST, MOST_TABLES, are_among, is_among, is_pair_to, push_each};
use crate::touching::ids_at;
use ecs_id::{EntityId, Id, ListedKey};
use ecs_model::FactKey;
use ecs_world::{Changes, World};
use rel_travel::Holders;
use short_list::ShortList;
use std::alloc::{AllocError, Allocator};
use table_store::TableStore;
use watch_asked::{AskedOf, AskedQuery, AskedTerms, LinkStep};

/// What a walk back uses.
#[derive(Drop)]
pub(crate) struct Walk<'a, 'q, A: Allocator, B: Allocator> {
    pub(crate) alloc: A,
    pub(crate) query: &'a AskedQuery<'q, B>,
    /// What the query asks, as it is kept.
    pub(crate) asked: &'a AskedTerms<B>,
    pub(crate) world: &'a World<A>,
    pub(crate) changes: &'a Changes<A>,
}

/// One step of a walk back: a term that links two variables, and the entity that it leads to.
#[derive(Clone, Copy)]
struct StepBack<'a> {
    step: &'a LinkStep,
    entity: u32,
}

impl<A: Allocator + Copy, B: Allocator> Walk<'_, '_, A, B> {
    /// Adds each candidate that a changed fact of another entity may have moved, where that entity may stand for a
    /// variable besides `$this`. Answers false where more than `MOST` entities would be looked at.
    ///
    /// A walk begins at the holder of each changed fact, once for each variable that is asked for this fact and whose
    /// required ids the holder has or had. Each step goes to an earlier variable, so every walk ends.
    pub(crate) fn push_by_roles(&self, moving: &mut ShortList<A>) -> Result<bool, AllocError>
        requires asked { IsAskedBy self.now.query.now self.now.asked.now }
        ensures { IfDone result (Adds (this_among self.now.query.now self.now.world.now.state (λ v t. true)
            self.now.changes.now
            (roles_of self.now.query.now self.now.world.now.state (λ v t. true) self.now.changes.now
            (map (λ a. a.variable) self.now.asked.now.others.items)))
            moving.old.items moving.new.items) }
    {
        let mut free = MOST;
        let came = self.changes.came();
        if !self.push_from_facts(came, &mut free, moving)? {
            return Ok(false);
        }
        let went = self.changes.went();
        self.push_from_facts(went, &mut free, moving)
    }

    /// Adds the entities that may be `$this` and lead to the holder of one of these facts. Answers false where the
    /// budget `free` is used up.
    #[inline(always)]
    fn push_from_facts(
        &self,
        facts: &[FactKey],
        free: &mut usize,
        moving: &mut ShortList<A>,
    ) -> Result<bool, AllocError>
        requires asked { IsAskedBy self.now.query.now self.now.asked.now }
        ensures { IfDone result (Adds (flat_map (found_from self.now.query.now self.now.world.now.state
            self.now.changes.now self.now.asked.now.others.items) facts.now) moving.old.items moving.new.items) }
    {
        for fact in facts {
            if !self.push_from_fact(*fact, free, moving)? {
                return Ok(false);
            }
        }
        Ok(true)
    }

    /// Adds the entities that may be `$this` and lead to the holder of a fact, for each variable for which the fact
    /// counts. Answers false where the budget `free` is used up.
    // (out of line, so that a command without added or removed facts pays nothing for it)
    #[inline(never)]
    fn push_from_fact(
        &self,
        fact: FactKey,
        free: &mut usize,
        moving: &mut ShortList<A>,
    ) -> Result<bool, AllocError>
        requires asked { IsAskedBy self.now.query.now self.now.asked.now }
        ensures { IfDone result (Adds (found_from self.now.query.now self.now.world.now.state self.now.changes.now
            self.now.asked.now.others.items fact) moving.old.items moving.new.items) }
    {
        let entity = fact.entity();
        let ids = ids_at(self.world, entity);
        let went = self.changes.went();
        'entries: for one in self.asked.others() {
            if !one.counts(ids, went, fact.id()) {
                continue 'entries;
            }
            if !take(free, 1) {
                return Ok(false);
            }
            let variable = one.variable();
            if !self.push_behind(variable, entity, free, moving)? {
                return Ok(false);
            }
        }
        Ok(true)
    }

    /// Adds the entities that may be `$this` and lead to this entity as the one that the variable stands for. Answers
    /// false where the budget `free` is used up.
    #[cycle(behind)]
    fn push_behind(
        &self,
        variable: usize,
        entity: u32,
        free: &mut usize,
        moving: &mut ShortList<A>,
    ) -> Result<bool, AllocError>
        requires asked { IsAskedBy self.now.query.now self.now.asked.now }
        ensures { IfDone result (AddsBehind variable (λ n. this_behind self.now n variable entity)
            moving.old.items moving.new.items) }
    {
        if variable == 0 {
            self.push_if_matching(entity, moving)?;
            return Ok(true);
        }
        'each: for step in self.asked.steps() {
            if !leads_to(step, variable) {
                continue 'each;
            }
            if !self.push_by_step(StepBack { step, entity }, free, moving)? {
                return Ok(false);
            }
        }
        Ok(true)
    }

    /// Adds an entity that isn't in the list yet, if it has every id that the query requires on `$this` itself.
    fn push_if_matching(&self, entity: u32, found: &mut ShortList<A>) -> Result<(), AllocError>
        ensures { OnOk result (Adds (filter (may_be_this self.now.query.now self.now.world.now.state) (entity ∷ []))
            found.old.items found.new.items) }
    {
        if is_among(found.as_slice(), entity) {
            return Ok(());
        }
        if self.query.lacks(ids_at(self.world, entity)) {
            return Ok(());
        }
        found.push(self.alloc, entity)
    }

    /// Walks one step back from an entity, to the holders of a pair with it, or to the targets of pairs that it holds
    /// or lost, and adds the entities that may be `$this` and lead to one of these. Answers false where the budget
    /// `free` is used up.
    #[cycle(behind)]
    fn push_by_step(
        &self,
        back: StepBack<'_>,
        free: &mut usize,
        moving: &mut ShortList<A>,
    ) -> Result<bool, AllocError>
        requires asked { IsAskedBy self.now.query.now self.now.asked.now }
        ensures { IfDone result (AddsBehind (back.entry.step).now.from
            (λ n. flat_map (this_behind self.now n (back.entry.step).now.from)
            (step_back self.now.query.now self.now.world.now.state self.now.asked.now.others.items
            self.now.changes.now.went (back.entry.step).now back.entry.entity))
            moving.old.items moving.new.items) }
    {
        if back.step.is_outward() {
            return self.push_behind_holders(back, free, moving);
        }
        let ids = ids_at(self.world, back.entity);
        if !self.push_behind_targets(back.step, ids, free, moving)? {
            return Ok(false);
        }
        self.push_behind_gone(back, free, moving)
    }

    /// Adds the entities that may be `$this` and lead to a holder of a pair with this entity, where the step's term may
    /// match that pair. Answers false where the budget `free` is used up.
    #[cycle(behind)]
    fn push_behind_holders(
        &self,
        back: StepBack<'_>,
        free: &mut usize,
        moving: &mut ShortList<A>,
    ) -> Result<bool, AllocError>
        requires asked { IsAskedBy self.now.query.now self.now.asked.now }
        ensures { IfDone result (AddsBehind (back.entry.step).now.from
            (λ n. flat_map (this_behind self.now n (back.entry.step).now.from)
            (leaning (leads self.now (back.entry.step).now) self.now.world.now.state back.entry.entity))
            moving.old.items moving.new.items) }
    {
        let variable = back.step.from();
        if variable == 0 {
            return self.push_holders(back, free, moving);
        }
        let mut between = ShortList::new();
        if !self.push_holders(back, free, &mut between)? {
            return Ok(false);
        }
        let entities = between.as_slice();
        self.push_behind_all(variable, entities, free, moving)
    }

    /// Adds the entities that may be `$this` and lead to the target of a pair among these ids, where the step's term
    /// may match that pair. Answers false where the budget `free` is used up.
    #[cycle(behind)]
    fn push_behind_targets(
        &self,
        step: &LinkStep,
        ids: &[Id],
        free: &mut usize,
        moving: &mut ShortList<A>,
    ) -> Result<bool, AllocError>
        requires asked { IsAskedBy self.now.query.now self.now.asked.now }
        ensures { IfDone result (AddsBehind step.now.from (λ n. flat_map (behind_target self.now.query.now
            self.now.world.now.state self.now.changes.now n step.now) ids.now)
            moving.old.items moving.new.items) }
    {
        for id in ids {
            if !self.push_behind_target(step, *id, free, moving)? {
                return Ok(false);
            }
        }
        Ok(true)
    }

    /// The same for the removed pairs of an entity. Answers false where the budget `free` is used up.
    #[cycle(behind)]
    fn push_behind_gone(
        &self,
        back: StepBack<'_>,
        free: &mut usize,
        moving: &mut ShortList<A>,
    ) -> Result<bool, AllocError>
        requires asked { IsAskedBy self.now.query.now self.now.asked.now }
        ensures { IfDone result (AddsBehind (back.entry.step).now.from
            (λ n. flat_map (behind_gone self.now.query.now self.now.world.now.state self.now.changes.now n
            (back.entry.step).now back.entry.entity) self.now.changes.now.went)
            moving.old.items moving.new.items) }
    {
        let went = self.changes.went();
        let entity = back.entity;
        'facts: for fact in went {
            if fact.entity() != entity {
                continue 'facts;
            }
            if !self.push_behind_target(back.step, fact.id(), free, moving)? {
                return Ok(false);
            }
        }
        Ok(true)
    }

    /// Adds the entities that may be `$this` and lead to the target of this id, if it is a pair that the step's term
    /// may match. Answers false where the budget `free` is used up.
    #[cycle(behind)]
    fn push_behind_target(
        &self,
        step: &LinkStep,
        id: Id,
        free: &mut usize,
        moving: &mut ShortList<A>,
    ) -> Result<bool, AllocError>
        requires asked { IsAskedBy self.now.query.now self.now.asked.now }
        ensures { IfDone result (AddsBehind step.now.from (λ n. behind_target self.now.query.now
            self.now.world.now.state self.now.changes.now n step.now id)
            moving.old.items moving.new.items) }
    {
        let Some(target) = id.second() else {
            return Ok(true);
        };
        if !step.matches(id) {
            return Ok(true);
        }
        if !take(free, 1) {
            return Ok(false);
        }
        self.push_behind(step.from(), target, free, moving)
    }

    /// Adds the entities that may be `$this` and lead to one of these entities as the one that the variable stands for.
    /// Answers false where the budget `free` is used up.
    #[cycle(behind)]
    fn push_behind_all(
        &self,
        variable: usize,
        entities: &[u32],
        free: &mut usize,
        moving: &mut ShortList<A>,
    ) -> Result<bool, AllocError>
        requires asked { IsAskedBy self.now.query.now self.now.asked.now }
        ensures { IfDone result (AddsBehind variable (λ n. flat_map (this_behind self.now n variable) entities.now)
            moving.old.items moving.new.items) }
    {
        for entity in entities {
            if !self.push_behind(variable, *entity, free, moving)? {
                return Ok(false);
            }
        }
        Ok(true)
    }

    /// Adds the holders of a pair with an entity, where the step's term may match that pair. Answers false where the
    /// budget `free` is used up.
    fn push_holders(
        &self,
        back: StepBack<'_>,
        free: &mut usize,
        found: &mut ShortList<A>,
    ) -> Result<bool, AllocError>
        ensures { IfDone result (Adds
            (leaning (leads self.now (back.entry.step).now) self.now.world.now.state back.entry.entity)
            found.old.items found.new.items) }
    {
        let links = self.world.links();
        let store = links.tables().store();
        let tables = links.tables_of(back.step.pairs_with(back.entity));
        if tables.len() > MOST_TABLES {
            return Ok(false);
        }
        self.push_holders_in(back, store, tables, free, found)
    }

    /// The same for the holders in these tables. Answers false where the budget `free` is used up; then some are
    /// missing.
    fn push_holders_in(
        &self,
        back: StepBack<'_>,
        store: &TableStore<A>,
        tables: &[ListedKey],
        free: &mut usize,
        found: &mut ShortList<A>,
    ) -> Result<bool, AllocError>
        ensures { IfDone result ((w : WorldState) → HoldTheirs w store.now
            → Adds (filter (leans (leads self.now (back.entry.step).now) w back.entry.entity)
            (flat_map (standing_in store.now) tables.now)) found.old.items found.new.items) }
    {
        'tables: for listed in tables {
            let key = listed.key();
            let Some(table) = store.get(key) else {
                continue 'tables;
            };
            let rows = table.rows();
            let ids = table.ids();
            if !self.push_rows(back, ids, rows, free, found)? {
                return Ok(false);
            }
        }
        Ok(true)
    }

    /// Adds these entities, which all hold the same ids, if the step may lead from a holder of those ids to its entity.
    /// Answers false where the budget `free` is used up: a table takes 1 of it, and the number of its entities if they
    /// are added.
    #[inline(always)]
    fn push_rows(
        &self,
        back: StepBack<'_>,
        ids: &[Id],
        entities: &[EntityId],
        free: &mut usize,
        found: &mut ShortList<A>,
    ) -> Result<bool, AllocError>
        ensures { IfDone result ((w : WorldState) → HoldAll w ids.now (map (λ e. e.index) entities.now)
            → Adds (filter (leans (leads self.now (back.entry.step).now) w back.entry.entity)
            (map (λ e. e.index) entities.now))
            found.old.items found.new.items) }
    {
        // entities that are in the list already needn't be tested
        if are_among(found.as_slice(), entities) {
            return Ok(true);
        }
        if !take(free, 1) {
            return Ok(false);
        }
        if !self.may_lead(back, ids) {
            return Ok(true);
        }
        if !take(free, entities.len()) {
            return Ok(false);
        }
        push_each(self.alloc, entities, found)?;
        Ok(true)
    }
}

impl<A: Allocator, B: Allocator> Walk<'_, '_, A, B> {
    /// Whether the step may lead to its entity from a holder of these ids. The caller knows that one of the ids is a
    /// matching pair, so for `$this` only the required ids are tested.
    fn may_lead(&self, back: StepBack<'_>, ids: &[Id]) -> bool
        ensures { result ≡ false → list_any (λ i. matches (pairs_to back.entry.entity) i
            && leads self.now (back.entry.step).now ids.now i) ids.now ≡ false }
    {
        let variable = back.step.from();
        if variable == 0 {
            return !self.query.lacks(ids);
        }
        self.leads_from_other(back, ids)
    }

    /// The same for a variable besides `$this`, from whose entity the step leads.
    fn leads_from_other(&self, back: StepBack<'_>, ids: &[Id]) -> bool
        ensures { result ≡ list_any (λ i. matches (pairs_to back.entry.entity) i
            && (matches (back.entry.step).now.asked i
            && any_counts_as (λ v. v == (back.entry.step).now.from) self.now.asked.now.others.items
            (ids.now ++ map (λ k. k.1) self.now.changes.now.went) i)) ids.now }
    {
        for id in ids {
            if self.leads_by_pair(back, ids, *id) {
                return true;
            }
        }
        false
    }

    /// Whether the step may lead so by this one of the ids.
    #[inline(always)]
    fn leads_by_pair(&self, back: StepBack<'_>, ids: &[Id], id: Id) -> bool
        ensures { result ≡ (matches (pairs_to back.entry.entity) id && (matches (back.entry.step).now.asked id
            && any_counts_as (λ v. v == (back.entry.step).now.from) self.now.asked.now.others.items
            (ids.now ++ map (λ k. k.1) self.now.changes.now.went) id)) }
    {
        is_pair_to(id, back.entity) && back.step.matches(id) && self.counts_from(back.step, ids, id)
    }

    /// Whether a holder of these ids is asked for this id as the entity that the step leads from.
    fn counts_from(&self, step: &LinkStep, ids: &[Id], id: Id) -> bool
        ensures { result ≡ any_counts_as (λ v. v == step.now.from) self.now.asked.now.others.items
            (ids.now ++ map (λ k. k.1) self.now.changes.now.went) id }
    {
        let others = self.asked.others();
        let variable = step.from();
        let went = self.changes.went();
        any_counts_as(others, variable, ids, went, id)
    }
}

/// Takes `count` out of the budget. Answers false where so much isn't left.
#[inline(always)]
fn take(free: &mut usize, count: usize) -> bool
    ensures { result ≡ true → free.new + count ≡ free.old }
{
    if count > *free {
        return false;
    }
    *free -= count;
    true
}

/// Whether the step leads to the entity of this variable.
#[inline(always)]
fn leads_to(step: &LinkStep, variable: usize) -> bool
    ensures { result ≡ (step.now.to == variable) }
{
    step.to() == variable
}

/// Whether an entity that has held only these ids, and the ids of these facts, is asked for an id as the entity of a
/// variable.
fn any_counts_as<B: Allocator>(
    others: &[AskedOf<B>],
    variable: usize,
    ids: &[Id],
    facts: &[FactKey],
    id: Id,
) -> bool
    ensures { result ≡ any_counts_as (λ v. v == variable) others.now (ids.now ++ map (λ k. k.1) facts.now) id }
{
    for one in others {
        if one.variable() == variable && one.counts(ids, facts, id) {
            return true;
        }
    }
    false
}
