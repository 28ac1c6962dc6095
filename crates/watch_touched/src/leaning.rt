//! The holders of a pair with an entity as the target, where that pair concerns a query.

ghost use Rattle.std.specs.Prelude.{◌≡◌, ◌==◌, ◌&&◌, ◌∷◌, [], filter, flat_map, map, OnOk};
ghost use Rattle.std.specs.List.{list_all, list_any};
ghost use Rattle.id_pattern.specs.Patterns.{matches};
ghost use Rattle.ecs_model.specs.World.{WorldState};
ghost use Rattle.watch_touched.specs.Leaning.{Adds, HasAllBelow, HoldAll, HoldTheirs, IfDone, is_sought, leans};
ghost use Rattle.watch_touched.specs.Leaning.{pairs_to, standing_in};
ghost use Rattle.watch_touched.specs.Searches.{is_looked_for, leaners_on};

use crate::sought::{Sought, is_sought};
use ecs_id::{EntityId, Id, ListedKey};
use ecs_world::World;
use id_pattern::{Part, Pattern};
use rel_travel::Holders;
use short_list::ShortList;
use std::alloc::{AllocError, Allocator};
use table_store::TableStore;
use watch_asked::AskedQuery;

/// How many entities a search finds at most, and how many it looks at for one target. Above that, finding all rows
/// takes less time.
pub(crate) const MOST: usize = 64;

/// How many tables a search goes through for one target. Most of them may be empty.
pub(crate) const MOST_TABLES: usize = 256;

/// A search for the holders of a pair with a target. `sought` says which pairs and holders count.
#[derive(Drop)]
pub(crate) struct Leaners<'a, 'q, A: Allocator, B: Allocator> {
    pub(crate) alloc: A,
    pub(crate) query: &'a AskedQuery<'q, B>,
    pub(crate) sought: Sought,
    pub(crate) world: &'a World<A>,
}

impl<A: Allocator + Copy, B: Allocator> Leaners<'_, '_, A, B> {
    /// Adds the holders found for each target. Answers false where they may be too many; then some are missing.
    pub(crate) fn push_leaning_on_all(
        &self,
        targets: &[u32],
        found: &mut ShortList<A>,
    ) -> Result<bool, AllocError>
        ensures { IfDone result (Adds (flat_map (leaners_on self.now) targets.now) found.old.items found.new.items) }
    {
        if targets.len() > MOST {
            return Ok(false);
        }
        for target in targets {
            if !self.push_leaning(*target, found)? {
                return Ok(false);
            }
        }
        Ok(true)
    }

    /// Adds the holders found for each entity in the list, then the holders found for those, and so on. Answers false
    /// where they may be too many.
    pub(crate) fn push_all_below(&self, found: &mut ShortList<A>) -> Result<bool, AllocError>
        ensures { IfDone result (HasAllBelow (is_looked_for self.now) self.now.world.now.state found.old.items
            found.new.items) }
    {
        for next in 0..MOST {
            if next >= found.len() {
                return Ok(true);
            }
            let target = found.as_slice()[next];
            if !self.push_leaning(target, found)? {
                return Ok(false);
            }
        }
        Ok(found.len() <= MOST)
    }

    /// Adds the holders found for one target. Answers false where they may be too many.
    fn push_leaning(&self, target: u32, found: &mut ShortList<A>) -> Result<bool, AllocError>
        ensures { IfDone result (Adds (leaners_on self.now target) found.old.items found.new.items) }
    {
        let links = self.world.links();
        let store = links.tables().store();
        let pattern = Pattern {
            first: Part::Any,
            second: Some(Part::Is(target)),
        };
        let tables = links.tables_of(pattern);
        if tables.len() > MOST_TABLES {
            return Ok(false);
        }
        if !self.push_from_tables(store, tables, target, found)? {
            return Ok(false);
        }
        Ok(found.len() <= MOST)
    }

    /// Adds the holders found for a target in these tables. All entities of a table hold the same ids. Answers false
    /// where more than `MOST` entities would be looked at; then some are missing.
    fn push_from_tables(
        &self,
        store: &TableStore<A>,
        tables: &[ListedKey],
        target: u32,
        found: &mut ShortList<A>,
    ) -> Result<bool, AllocError>
        ensures { IfDone result ((w : WorldState) → HoldTheirs w store.now
            → Adds (filter (leans (is_looked_for self.now) w target) (flat_map (standing_in store.now) tables.now))
            found.old.items found.new.items) }
    {
        let mut free = MOST;
        'tables: for listed in tables {
            let key = listed.key();
            let Some(table) = store.get(key) else {
                continue 'tables;
            };
            let rows = table.rows();
            if rows.len() > free {
                return Ok(false);
            }
            free -= rows.len();
            let ids = table.ids();
            self.push_alike(ids, rows, target, found)?;
        }
        Ok(true)
    }

    /// Adds these entities, which all hold the same ids, if those ids make them holders that are sought for the target.
    #[inline(always)]
    fn push_alike(
        &self,
        ids: &[Id],
        entities: &[EntityId],
        target: u32,
        found: &mut ShortList<A>,
    ) -> Result<(), AllocError>
        ensures { OnOk result ((w : WorldState) → HoldAll w ids.now (map (λ e. e.index) entities.now)
            → Adds (filter (leans (is_looked_for self.now) w target) (map (λ e. e.index) entities.now))
            found.old.items found.new.items) }
    {
        // entities that are in the list already needn't be tested
        if are_among(found.as_slice(), entities) {
            return Ok(());
        }
        if !lean(self.query, self.sought, target, ids) {
            return Ok(());
        }
        push_each(self.alloc, entities, found)
    }
}

/// Adds each of these entities that isn't in the list yet.
pub(crate) fn push_each<A: Allocator + Copy>(
    alloc: A,
    entities: &[EntityId],
    found: &mut ShortList<A>,
) -> Result<(), AllocError>
    ensures { OnOk result (Adds (map (λ e. e.index) entities.now) found.old.items found.new.items) }
{
    for entity in entities {
        push_new(alloc, entity.index, found)?;
    }
    Ok(())
}

/// Adds an entity if it isn't in the list yet.
fn push_new<A: Allocator + Copy>(
    alloc: A,
    entity: u32,
    found: &mut ShortList<A>,
) -> Result<(), AllocError>
    ensures { OnOk result (Adds (entity ∷ []) found.old.items found.new.items) }
{
    if !is_among(found.as_slice(), entity) {
        found.push(alloc, entity)?;
    }
    Ok(())
}

pub(crate) fn is_among(entities: &[u32], entity: u32) -> bool
    ensures { result ≡ list_any (λ x. x == entity) entities.now }
{
    entities.iter().any(|x| *x == entity)
}

/// Whether each of these entities is in the list.
pub(crate) fn are_among(found: &[u32], entities: &[EntityId]) -> bool
    ensures { result ≡ list_all (λ e. list_any (λ x. x == e.index) found.now) entities.now }
{
    entities.iter().all(|entity| is_among(found, entity.index))
}

/// Whether an entity with these ids is a holder that is sought for this target.
fn lean<B: Allocator>(query: &AskedQuery<'_, B>, sought: Sought, target: u32, ids: &[Id]) -> bool
    ensures { result ≡ list_any (λ i. matches (pairs_to target) i && is_sought sought query.now ids.now i) ids.now }
{
    for id in ids {
        if is_pair_to(*id, target) && is_sought(query, sought, ids, *id) {
            return true;
        }
    }
    false
}

pub(crate) fn is_pair_to(id: Id, target: u32) -> bool
    ensures { result ≡ matches (pairs_to target) id }
{
    match id.second() {
        Some(second) => second == target,
        None => false,
    }
}
