//! Who holds an id that a pattern matches.
ghost use Rattle.std.specs.Prelude.{◌≡◌, ◌<◌, ◌↔◌, ℕ, false, All, Contains, flat_map, map};
ghost use Rattle.ecs_model.specs.Links.{upward};
ghost use Rattle.rel_travel.specs.Holders.{holders, holders_of_pair};
ghost use Rattle.rel_travel.specs.Coming.{downward, with_finds};
ghost use Rattle.rel_travel.specs.Growing.{IsGrownBy};

use crate::found::Found;
use crate::graph::Graph;
use crate::work_list::Rule;
use ecs_id::{EntityId, ListedKey};
use id_pattern::{Part, Pattern};
use std::alloc::Allocator;

/// A view of the tables of a world, by what their entities hold.
pub trait Holders: Graph {
    ghost use Rattle.std.specs.Prelude.{List, ℕ};
    ghost use Rattle.ecs_id.specs.declared.TableKey.{TableKey as Key};
    ghost use Rattle.id_pattern.specs.declared.Pattern.{Pattern as Asked};

    /// The indexes of the entities in a table.
    ghost rows: { Self → Key → List ℕ };

    /// The tables whose entities hold an id that the pattern matches, in the order in which they are given.
    ghost listed: { Self → Asked → List Key };

    /// Law: the tables that are listed for a pattern have exactly the live entities with an id that it matches. The
    /// call does nothing.
    fn lists_holders(&self)
        ensures { (pattern : Asked) (y : ℕ) → Contains (flat_map (rows self.now) (listed self.now pattern)) y
            ↔ Contains (holders (Self.entities self.now) (Self.ids self.now) pattern) y };

    fn rows(&self, table: ListedKey) -> &[EntityId]
        ensures { map (λ e. e.index) result.now ≡ rows self.now table };

    /// The tables whose entities hold an id that the pattern matches.
    fn tables_of(&self, pattern: Pattern) -> &[ListedKey]
        ensures listed { result.now ≡ listed self.now pattern }
        ensures holders { (y : ℕ) → Contains (flat_map (rows self.now) result.now) y
            ↔ Contains (holders (Self.entities self.now) (Self.ids self.now) pattern) y };
}

/// From an entity to those that hold a pair of a relationship with it as the target.
#[derive(Drop)]
pub struct Downward<'a, G> {
    pub graph: &'a G,
    pub relationship: u32,
}

impl<G: Holders> Rule for Downward<'_, G> {
    ghost next = { λ d x. holders_of_pair (G.entities d.graph.now) (G.ids d.graph.now) x d.relationship };

    fn follow<A: Allocator>(&self, index: u32, found: &mut Found<A>)
        requires { All (λ y. y < found.old.size) (holders_of_pair (G.entities self.now.graph.now)
            (G.ids self.now.graph.now) index self.now.relationship) }
        ensures size { found.new.size ≡ found.old.size }
        ensures grown { IsGrownBy (holders_of_pair (G.entities self.now.graph.now)
            (G.ids self.now.graph.now) index self.now.relationship) found.old.items
            found.new.items }
        ensures items { found.new.items ≡ with_finds found.old.items
            (downward (G.rows self.now.graph.now) (G.listed self.now.graph.now) self.now.relationship index) }
    {
        let first = Part::Is(self.relationship);
        let second = Some(Part::Is(index));
        add_holders(self.graph, Pattern { first, second }, found);
    }
}

/// Whether a table is listed for the pairs of a relationship with this target. Where none is, the relationship leads to
/// it in no step from anywhere.
///
/// It looks one list up: who stands in its tables is not asked.
pub fn may_be_target<G: Holders>(graph: &G, relationship: u32, index: u32) -> bool
    ensures { result ≡ false → (y : ℕ) → ¬ (Contains (upward (G.ids graph.now) relationship y) index) }
{
    let _ = graph.size();
    let first = Part::Is(relationship);
    let second = Some(Part::Is(index));
    !graph.tables_of(Pattern { first, second }).is_empty()
}

/// Adds the entities that hold an id which the pattern matches, table by table.
pub fn add_holders<G: Holders, A: Allocator>(graph: &G, pattern: Pattern, found: &mut Found<A>)
    requires { All (λ y. y < found.old.size) (holders (G.entities graph.now) (G.ids graph.now) pattern) }
    ensures size { found.new.size ≡ found.old.size }
    ensures grown { IsGrownBy (holders (G.entities graph.now) (G.ids graph.now) pattern) found.old.items
        found.new.items }
    ensures items { found.new.items ≡ with_finds found.old.items
        (flat_map (G.rows graph.now) (G.listed graph.now pattern)) }
{
    for table in graph.tables_of(pattern) {
        add_rows(graph.rows(*table), found);
    }
}

/// Adds the entities of a table, in order.
fn add_rows<A: Allocator>(rows: &[EntityId], found: &mut Found<A>)
    requires { All (λ e. e.index < found.old.size) rows.now }
    ensures size { found.new.size ≡ found.old.size }
    ensures items { found.new.items ≡ with_finds found.old.items (map (λ e. e.index) rows.now) }
{
    for entity in rows {
        found.add(entity.index);
    }
}
