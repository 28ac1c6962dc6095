//! A graph that is a list: at each index the ids of its entity.
ghost use Rattle.std.specs.Prelude.{◌≡◌, ◌<◌, ◌↔◌, ◌⊎◌, ℕ, [], length, All, Contains, IfSome, IsTrue};
ghost use Rattle.ecs_id.specs.Id.{second_of};
ghost use Rattle.ecs_model.specs.Links.{IsAcyclic};
ghost use Rattle.test_store.specs.Closed.{FallBelow, MentionsInside, live_in, row_at, rows_in};

use ecs_id::{Id, LAST_INDEX};
use ecs_model::built_ins::CHILD_OF;
use id_pattern::Pattern;
use rel_travel::{Graph, Scratch, Unknown, first_up, would_cycle};
use std::alloc::{AllocError, Global};
use std::marker::Model;

/// A graph with entities at all indexes from 1 on.
#[derive(Drop)]
pub struct ListGraph {
    rows: Vec<Vec<Id>>,
}

impl Model for ListGraph {
    ghost use Rattle.test_store.specs.Closed.{IsClosed, Rows, rows_in};

    ghost Value = { Rows };

    ghost view = { λ g. rows_in g.rows.items };

    ghost invariant = { λ g. IsClosed (rows_in g.rows.items) };
}

impl Graph for ListGraph {
    ghost use Rattle.std.specs.Prelude.{length};
    ghost use Rattle.test_store.specs.Closed.{live_in, row_at};

    ghost size = { λ g. length g };

    ghost entities = { live_in };

    ghost ids = { row_at };

    fn size(&self) -> u32 {
        self.rows.len() as u32
    }

    fn ids(&self, index: u32) -> &[Id] {
        match self.rows.get(index as usize) {
            Some(row) => row.as_slice(),
            None => &[],
        }
    }
}

impl ListGraph {
    /// The graph of these rows. None where an id mentions an index without a row, or there are ids at index 0.
    pub fn new(rows: Vec<Vec<Id>>) -> Option<ListGraph> {
        let count = rows.len();
        if count > LAST_INDEX as usize + 1 || !is_free(&rows) || !are_closed(&rows, count) {
            return None;
        }
        Some(ListGraph { rows })
    }

    /// Whether there is an entity at an index.
    pub fn is_live(&self, index: u32) -> bool
        ensures { IsTrue result ↔ Contains (live_in self.now) index }
    {
        1 <= index && index < self.size()
    }

    /// Whether each pair leads to a lower index, so that no relationship has a cycle.
    pub fn leads_down(&self) -> bool
        ensures { IsTrue result → (r : ℕ) → IsAcyclic (row_at self.now) r }
    {
        let rows = self.rows.as_slice();
        for index in 0..rows.len() {
            if !fall_below(&rows[index], index) {
                return false;
            }
        }
        true
    }
}

/// Whether there are no ids at index 0.
fn is_free(rows: &[Vec<Id>]) -> bool
    ensures { IsTrue result → (length rows.now ≡ 0) ⊎ (row_at (rows_in rows.now) 0 ≡ []) }
{
    match rows.first() {
        Some(row) => row.is_empty(),
        None => true,
    }
}

/// Whether all ids of these rows mention indexes from 1 on below the count alone.
fn are_closed(rows: &[Vec<Id>], count: usize) -> bool
    ensures { IsTrue result → All (λ row. All (MentionsInside count) row.items) rows.now }
{
    for row in rows {
        if !are_inside(row, count) {
            return false;
        }
    }
    true
}

fn are_inside(row: &[Id], count: usize) -> bool
    ensures { IsTrue result → All (MentionsInside count) row.now }
{
    for id in row {
        if !is_inside(*id, count) {
            return false;
        }
    }
    true
}

fn is_inside(id: Id, count: usize) -> bool
    ensures { IsTrue result → MentionsInside count id }
{
    if id.first() as usize >= count {
        return false;
    }
    match id.second() {
        Some(target) => (target as usize) < count,
        None => true,
    }
}

/// Whether the target of a pair is below this.
fn falls_below(id: Id, index: usize) -> bool
    ensures { IsTrue result → IfSome (second_of id) (λ target. target < index) }
{
    match id.second() {
        Some(target) => (target as usize) < index,
        None => true,
    }
}

/// Whether the targets of all pairs are below this.
fn fall_below(row: &[Id], index: usize) -> bool
    ensures { IsTrue result → FallBelow index row.now }
{
    for id in row {
        if !falls_below(*id, index) {
            return false;
        }
    }
    true
}

/// Rows without ids.
pub fn empty_rows(alloc: Global, count: usize) -> Result<Vec<Vec<Id>>, AllocError> {
    let mut rows = Vec::new(alloc);
    for _ in 0..count {
        rows.push(Vec::new(alloc))?;
    }
    Ok(rows)
}

/// One more id, where there is a row.
pub fn give(rows: &mut Vec<Vec<Id>>, entity: usize, id: Id) -> Result<(), AllocError> {
    if let Some(row) = rows.get_mut(entity) {
        row.push(id)?;
    }
    Ok(())
}

/// The first ancestor along ChildOf that holds what the pattern matches. The graph leads down, and has the entity.
pub fn first_parent(
    graph: &ListGraph,
    index: u32,
    pattern: Pattern,
    scratch: &mut Scratch,
) -> Option<u32> {
    if !graph.leads_down() || !scratch.covers(graph) || index >= graph.size() {
        return None;
    }
    first_up(graph, index, CHILD_OF, pattern, &mut Unknown, scratch)
}

/// Whether a pair would close a chain of ChildOf. Both entities are in the graph.
pub fn closes(graph: &ListGraph, source: u32, target: u32, scratch: &mut Scratch) -> bool {
    let size = graph.size();
    if !scratch.covers(graph) || source >= size || target >= size {
        return false;
    }
    would_cycle(graph, CHILD_OF, source, target, scratch)
}
