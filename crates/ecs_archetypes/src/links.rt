//! Entities in tables as the graph that searches along relationships go through.

ghost use Rattle.std.specs.Prelude.{◌≡◌};
ghost use Rattle.ecs_archetypes.specs.Linked.{AreLinked, AreListsOf, Linked};

use crate::{Archetypes, TableGraph as Tables};
use component_index::Listings;
use ecs_id::{EntityId, Id, ListedKey};
use id_pattern::Pattern;
use rel_travel::{Graph, Holders};
use std::alloc::Allocator;
use std::marker::Model;

/// A view of entities in tables: who lives, which ids each holds, and which tables have an id that a pattern matches.
///
/// It takes no memory. An entity's ids are found by its place, and are those of its table.
#[derive(Drop)]
pub struct Links<'a, A: Allocator> {
    archetypes: &'a Archetypes<A>,
    size: u32,
    listings: Listings<'a, A>,
}

impl<'a, A: Allocator> Model for Links<'a, A> {
    ghost use Rattle.ecs_archetypes.specs.Linked.{AreJoined, Linked};

    ghost Value = { Linked };

    ghost view = { λ l. record { housing = l.archetypes.now; size = l.size; lists = l.listings } };

    ghost invariant = { λ l. AreJoined (record { housing = l.archetypes.now; size = l.size; lists = l.listings }) };
}

impl<'a, A: Allocator> Links<'a, A> {
    /// The view of these entities, all of whose indexes are below the size.
    ///
    /// Only live entities hold ids, and these mention live entities alone, as in every world.
    pub fn new(archetypes: &'a Archetypes<A>, size: u32) -> Self
        requires linked { AreLinked archetypes.now size }
        ensures { result ≡ record { housing = archetypes.now; size = size; lists = result.lists } }
    {
        let listings = archetypes.graph().listings();
        Links {
            archetypes,
            size,
            listings,
        }
    }

    /// The entities with their places, and the tables with their rows.
    pub fn tables(&self) -> Tables<'a, A>
        ensures tables { result ≡ self.now.housing }
        ensures lists { AreListsOf self.now.housing self.now.lists }
    {
        let _ = self.size;
        self.archetypes.graph()
    }
}

impl<A: Allocator> Graph for Links<'_, A> {
    ghost use Rattle.ecs_archetypes.specs.Linked.{ids_at_index, indexes};

    ghost size = { λ l. l.size };

    ghost entities = { λ l. indexes l };

    ghost ids = { λ l e. ids_at_index l e };

    fn size(&self) -> u32 {
        self.size
    }

    fn ids(&self, index: u32) -> &[Id] {
        let Some(entity) = self.archetypes.at(index) else {
            return &[];
        };
        match self.archetypes.ids_of(entity) {
            Some(ids) => ids,
            None => &[],
        }
    }
}

impl<A: Allocator> Holders for Links<'_, A> {
    ghost use Rattle.ecs_archetypes.specs.Linked.{rows_under, tables_under};

    ghost rows = { λ l k. rows_under l k };

    ghost listed = { λ l p. tables_under l p };

    fn lists_holders(&self) {
        let graph = self.archetypes.graph();
        // What is known of each row and of each place.
        let _ = graph.store();
        let _ = graph.index();
        let _ = self.size;
    }

    fn rows(&self, table: ListedKey) -> &[EntityId] {
        let graph = self.archetypes.graph();
        match graph.store().filled(table.key()) {
            Some(table) => table.rows(),
            None => &[],
        }
    }

    fn tables_of(&self, pattern: Pattern) -> &[ListedKey] {
        self.lists_holders();
        self.listings.tables_of(pattern)
    }
}
