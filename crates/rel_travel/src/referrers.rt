//! Who refers to the found entities.
ghost use Rattle.std.specs.Prelude.{◌≡◌, ◌↔◌, ◌≤◌, ◌<◌, ℕ, All, Contains, filter, map};
ghost use Rattle.rel_travel.specs.Growing.{IsGrownBy};
ghost use Rattle.rel_travel.specs.Outside.{is_outside, outside_holders, outside_referrers};
ghost use Rattle.rel_travel.specs.Referring.{referrers};

use crate::found::Found;
use crate::holders::Holders;
use ecs_id::EntityId;
use id_pattern::{Part, Pattern};
use std::alloc::Allocator;

/// Finds the entities outside of the members that hold an id which mentions one of them, each once.
pub fn list_referrers<G: Holders, A: Allocator>(graph: &G, members: &Found<A>, found: &mut Found<A>)
    requires covered { G.size graph.now ≤ found.old.size }
    requires members { G.size graph.now ≤ members.now.size }
    ensures size { found.new.size ≡ found.old.size }
    ensures exact { (y : ℕ) → Contains found.new.items y ↔ Contains
        (referrers (G.ids graph.now) (G.entities graph.now) members.now.items) y }
{
    let _ = graph.size();
    found.clear();
    for member in members.as_slice() {
        add_referrers(graph, *member, members, found);
    }
}

/// Adds those that refer to one of the members.
fn add_referrers<G: Holders, A: Allocator>(
    graph: &G,
    member: u32,
    members: &Found<A>,
    found: &mut Found<A>,
)
    requires covered { G.size graph.now ≤ found.old.size }
    requires members { G.size graph.now ≤ members.now.size }
    ensures size { found.new.size ≡ found.old.size }
    ensures grown { IsGrownBy (outside_referrers (G.entities graph.now) (G.ids graph.now) members.now.items member)
        found.old.items found.new.items }
{
    let itself = Part::Is(member);
    let any = Some(Part::Any);
    let first = itself;
    add_outside(
        graph,
        Pattern {
            first,
            second: None,
        },
        members,
        found,
    );
    add_outside(graph, Pattern { first, second: any }, members, found);
    let second = Some(itself);
    add_outside(
        graph,
        Pattern {
            first: Part::Any,
            second,
        },
        members,
        found,
    );
}

/// Adds those outside of the members that hold an id which the pattern matches.
fn add_outside<G: Holders, A: Allocator>(
    graph: &G,
    pattern: Pattern,
    members: &Found<A>,
    found: &mut Found<A>,
)
    requires covered { G.size graph.now ≤ found.old.size }
    requires members { G.size graph.now ≤ members.now.size }
    ensures size { found.new.size ≡ found.old.size }
    ensures grown { IsGrownBy (outside_holders (G.entities graph.now) (G.ids graph.now) members.now.items pattern)
        found.old.items found.new.items }
{
    let _ = graph.size();
    for table in graph.tables_of(pattern) {
        add_rows_outside(graph.rows(*table), members, found);
    }
}

/// Adds those of a table's entities that are outside of the members.
fn add_rows_outside<A: Allocator>(rows: &[EntityId], members: &Found<A>, found: &mut Found<A>)
    requires covered { All (λ e. e.index < found.old.size) rows.now }
    requires members { All (λ e. e.index < members.now.size) rows.now }
    ensures size { found.new.size ≡ found.old.size }
    ensures grown { IsGrownBy (filter (is_outside members.now.items) (map (λ e. e.index) rows.now)) found.old.items
        found.new.items }
{
    for entity in rows {
        if !members.is_found(entity.index) {
            found.add(entity.index);
        }
    }
}
