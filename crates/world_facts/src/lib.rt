//! The facts of a world, as the runs of queries read them.
#![tactic(auto)]

ghost use Rattle.std.specs.Prelude.{◌≡◌};
ghost use Rattle.world_facts.specs.Kept.{KeepsTables};
ghost use Rattle.world_facts.specs.Lists.{ListsTables};
ghost use Rattle.world_facts.specs.Shown.{standing_in, table_of};

mod climb;
pub mod laws;

use crate::climb::first_up;
use ecs_id::{EntityId, Id, ListedKey, TableKey};
use ecs_model::built_ins::REFLEXIVE;
use ecs_world::{Links, World};
use id_pattern::Pattern;
use plan_steps::Facts;
use rel_travel::{
    Graph, Holders, Known, Scratch, Ways, above, below, known_depth, known_reaches, pull, reaches,
};
use std::alloc::Allocator;
use std::marker::Model;

/// What a run reads of a world: its facts, and the lists by which candidates are found.
///
/// It takes no memory, and all that it gives are slices of the world's own. Ids are found by an entity's place, and
/// tables by one look-up of a pattern.
#[derive(Drop)]
pub struct WorldFacts<'w, A: Allocator> {
    world: &'w World<A>,
    links: Links<'w, A>,
    /// The keys of all tables, and perhaps of some that were released.
    every: &'w [ListedKey],
}

impl<'w, A: Allocator> Model for WorldFacts<'w, A> {
    ghost use Rattle.ecs_world.specs.Standing.{IsLinksOf};
    ghost use Rattle.world_facts.specs.Shown.{AreRemembered, Shown};

    ghost Value = { Shown };

    ghost view = { λ f. record { world = f.world.now; links = f.links; every = f.every.now } };

    ghost invariant = { λ f. IsLinksOf f.world.now f.links × AreRemembered f.links.housing.tables f.every.now };
}

impl<'w, A: Allocator> WorldFacts<'w, A> {
    /// The facts of a world, which stays as it is while they are read.
    pub fn new(world: &'w World<A>) -> Self
        ensures { result.world ≡ world.now }
    {
        let links = world.links();
        let every = links.tables().store().remembered();
        WorldFacts {
            world,
            links,
            every,
        }
    }

    /// Law: the tables that a query lists in the world are kept for it, as runs over given tables ask. The call does
    /// nothing.
    pub fn keeps_tables(&self)
        ensures { KeepsTables self.now }
    {
        // A field is read for what holds of the links.
        let _world = self.world;
    }

    /// Law: the tables that are listed for each pattern are those of the world that have an id which it matches, each
    /// once. So of any two facts of one world the lists are equally long. The call does nothing.
    pub fn keeps_lists(&self)
        ensures { ListsTables self.now }
    {
        // What is known of the lists.
        let _ = self.links.tables();
        let _world = self.world;
    }

    /// The table in which the entity of an index stands.
    fn table_of(&self, entity: u32) -> Option<TableKey>
        ensures { result ≡ table_of (self.now).links entity }
    {
        let index = self.links.tables().index();
        let place = index.place(index.at(entity)?)?;
        Some(place.table)
    }

    /// The entities that stand in a table; none in one that is gone.
    fn standing_in(&self, table: TableKey) -> &[EntityId]
        ensures { result.now ≡ standing_in (self.now).links table }
    {
        match self.links.tables().store().filled(table) {
            Some(table) => table.rows(),
            None => &[],
        }
    }
}

impl<A: Allocator> Facts for WorldFacts<'_, A> {
    ghost use Rattle.world_facts.specs.Shown.{reading_of};

    ghost reading = { λ f. reading_of f };

    fn keeps(&self) {
        let _ = self.links.size();
        self.links.lists_holders();
        let tables = self.links.tables();
        // What is known of each row and of each place, and that each live entity has one.
        let _ = tables.store();
        let _ = tables.index();
        let _ = self.world.graph().index();
    }

    fn size(&self) -> u32 {
        self.links.size()
    }

    fn is_live(&self, index: u32) -> bool {
        self.world.at(index).is_some()
    }

    fn ids_of(&self, entity: u32) -> &[Id] {
        self.links.ids(entity)
    }

    fn has(&self, entity: u32, id: Id) -> bool {
        self.links.ids(entity).contains(&id)
    }

    fn every_table(&self) -> &[ListedKey] {
        self.every
    }

    fn tables_of(&self, pattern: Pattern) -> &[ListedKey] {
        self.links.tables_of(pattern)
    }

    fn rows_of(&self, table: ListedKey) -> &[EntityId] {
        self.standing_in(table.key())
    }

    fn peers_of(&self, entity: u32) -> &[EntityId] {
        match self.table_of(entity) {
            Some(table) => self.standing_in(table),
            None => &[],
        }
    }

    fn ids_in(&self, table: ListedKey) -> &[Id] {
        match self.links.tables().store().get(table.key()) {
            Some(table) => table.ids(),
            None => &[],
        }
    }

    fn above<B: Allocator>(&self, relationship: u32, source: u32, scratch: &mut Scratch<B>) {
        let _ = self.links.size();
        if self.is_live(source) {
            above(&self.links, source, relationship, scratch);
        } else {
            scratch.clear();
        }
    }

    fn below<B: Allocator>(&self, relationship: u32, target: u32, scratch: &mut Scratch<B>) {
        let _ = self.links.size();
        if self.is_live(target) {
            below(&self.links, target, relationship, scratch);
        } else {
            scratch.clear();
        }
    }

    fn reaches<B: Allocator>(
        &self,
        relationship: u32,
        source: u32,
        target: u32,
        scratch: &mut Scratch<B>,
    ) -> bool {
        let size = self.links.size();
        if source < size && target < size {
            return reaches(&self.links, relationship, source, target, scratch);
        }
        // No pair has a source or a target that isn't live.
        source == target && self.has(relationship, Id::plain(REFLEXIVE))
    }

    fn known_reaches<B: Allocator, C: Allocator>(
        &self,
        relationship: u32,
        source: u32,
        target: u32,
        ways: &mut Ways<C>,
        scratch: &mut Scratch<B>,
    ) -> bool {
        let size = self.links.size();
        if source < size && target < size {
            return known_reaches(&self.links, relationship, source, target, ways, scratch);
        }
        self.reaches(relationship, source, target, scratch)
    }

    fn first_up<B: Allocator, K: Known>(
        &self,
        entity: u32,
        own: bool,
        relationship: u32,
        pattern: Pattern,
        known: &mut K,
        scratch: &mut Scratch<B>,
    ) -> Option<u32> {
        first_up(
            &self.links,
            entity,
            own,
            relationship,
            pattern,
            known,
            scratch,
        )
    }

    fn depth<B: Allocator>(
        &self,
        relationship: u32,
        entity: u32,
        known: &mut [u32],
        scratch: &mut Scratch<B>,
    ) -> u32 {
        known_depth(&self.links, entity, relationship, known, scratch)
    }

    fn pull<B: Allocator>(&self, scratch: &mut Scratch<B>) -> Option<u32> {
        pull(&self.links, scratch)
    }
}
