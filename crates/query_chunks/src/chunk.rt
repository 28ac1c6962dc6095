//! The rows of a query that are of one table.

ghost use Rattle.std.specs.Prelude.{◌≡◌, [], ◌∷◌, IfSome, length, option_map, slice_get, unwrap_or};
ghost use Rattle.ecs_table.specs.Archetype.{column_of};
ghost use Rattle.query_check.specs.Seen.{seen_item};
ghost use Rattle.query_model.specs.Query as model;
ghost use Rattle.query_chunks.specs.Chunk.{AreWhole, IsWhole, chunk_in, chunk_of, column_of_id, column_of_item};
ghost use Rattle.query_chunks.specs.Chunk.{column_of_terms, seen_column};

use crate::asked::{hit, outer_item};
use crate::column::Column;
use ecs_id::{EntityId, Id, TableKey};
use ecs_table::Table;
use ecs_world::World;
use query_check::{Item, Query};
use query_model::query::Term;
use std::alloc::{Allocator, Global};
use std::marker::Model;

/// A table of a world whose entities match a query, as a `TableCursor` gives it. Its fields are read by that query. It
/// takes no memory.
#[derive(Drop)]
pub struct MatchingTable<'r, A: Allocator = Global> {
    world: &'r World<A>,
    key: TableKey,
    table: &'r Table<A>,
}

impl<'r, A: Allocator> Model for MatchingTable<'r, A> {
    ghost use Rattle.query_chunks.specs.Chunk as model;
    ghost use Rattle.query_model.specs.Query as query;

    ghost Value = { model.Matching };

    ghost view = { λ m. record { state = m.world.now.state; key = m.key; table = m.table.now } };

    ghost invariant = { λ m. (q : query.Query) → model.AreWhole
        (model.chunk_of m.world.now.state q m.key m.table.now) };
}

impl<'r, A: Allocator> MatchingTable<'r, A> {
    pub(crate) fn new(world: &'r World<A>, key: TableKey, table: &'r Table<A>) -> Self
        requires { (q : model.Query) → AreWhole (chunk_of world.now.state q key table.now) }
        ensures { result ≡ record { state = world.now.state; key = key; table = table.now } }
    {
        MatchingTable { world, key, table }
    }

    /// The key of the table.
    pub fn key(&self) -> TableKey
        ensures { result ≡ self.now.key }
    {
        self.key
    }

    /// The entities by row.
    pub fn entities(&self) -> &'r [EntityId]
        ensures { result.now ≡ self.now.table.entities }
    {
        self.table.rows()
    }

    /// The column of the item with this number among those of the query that show fields, in the order of the text.
    /// Those inside groups show none.
    pub fn column<B: Allocator>(&self, query: &Query<B>, number: usize) -> Option<Column<'r, A>>
        ensures column { option_map seen_column result ≡ slice_get (chunk_in self.now query.now).columns number }
        ensures whole { IfSome result (λ column. IsWhole (length self.now.table.entities) (seen_column column)) }
    {
        let item = outer_item(query.pieces(), number)?;
        Some(column_of_item(self.world, self.table, item))
    }
}

/// Entities of one table, one a row, and for each item that shows a field the column of its values. It takes no memory.
#[derive(Drop)]
pub struct Chunk<'r, A: Allocator = Global, B: Allocator = Global> {
    table: MatchingTable<'r, A>,
    query: &'r Query<B>,
}

impl<'r, A: Allocator, B: Allocator> Model for Chunk<'r, A, B> {
    ghost use Rattle.query_chunks.specs.Chunk as model;

    ghost Value = { model.Chunk };

    ghost view = { λ c. model.chunk_in c.table c.query.now };

    ghost invariant = { λ c. model.AreWhole (model.chunk_in c.table c.query.now) };
}

impl<'r, A: Allocator, B: Allocator> Chunk<'r, A, B> {
    pub(crate) fn new(table: MatchingTable<'r, A>, query: &'r Query<B>) -> Self
        requires { AreWhole (chunk_in table query.now) }
        ensures { result ≡ chunk_in table.entry query.now }
    {
        Chunk { table, query }
    }

    /// The key of its table.
    pub fn table(&self) -> TableKey
        ensures { result ≡ self.now.table }
    {
        self.table.key()
    }

    /// The entities by row.
    pub fn entities(&self) -> &'r [EntityId]
        ensures { result.now ≡ self.now.entities }
    {
        self.table.entities()
    }

    /// The column of the item with this number among those that show fields, in the order of the text. Those inside
    /// groups show none. Its bytes are cut into as many values as there are entities by the size of one.
    pub fn column(&self, number: usize) -> Option<Column<'r, A>>
        ensures column { option_map seen_column result ≡ slice_get self.now.columns number }
        ensures whole { IfSome result (λ column. IsWhole (length self.now.entities) (seen_column column)) }
    {
        self.table.column(self.query, number)
    }
}

fn column_of_item<'r, A: Allocator, B: Allocator>(
    world: &'r World<A>,
    table: &'r Table<A>,
    item: &Item<B>,
) -> Column<'r, A>
    ensures { seen_column result ≡ column_of_item world.now.state table.now (seen_item item.now) }
{
    match item {
        Item::And(term) => column_of_term(world, table, term),
        Item::Optional(term) => column_of_term(world, table, term),
        Item::Or(terms) => column_of_terms(world, table, terms.as_slice()),
        Item::Equal(_, _) | Item::Differ(_, _) => Column::Unset,
    }
}

fn column_of_term<'r, A: Allocator>(
    world: &'r World<A>,
    table: &'r Table<A>,
    term: &Term,
) -> Column<'r, A>
    ensures { seen_column result ≡ column_of_terms world.now.state table.now (term.now ∷ []) }
{
    match hit(table.ids(), term) {
        Some(id) => column_of_id(world, table, term, id),
        None => Column::Unset,
    }
}

/// The column of the first term that has a hit.
fn column_of_terms<'r, A: Allocator>(
    world: &'r World<A>,
    table: &'r Table<A>,
    terms: &[Term],
) -> Column<'r, A>
    ensures { seen_column result ≡ column_of_terms world.now.state table.now terms.now }
{
    let mut rest = terms;
    while let Some((term, later)) = rest.split_first() {
        if let Some(id) = hit(table.ids(), term) {
            return column_of_id(world, table, term, id);
        }
        rest = later;
    }
    Column::Unset
}

fn column_of_id<'r, A: Allocator>(
    world: &'r World<A>,
    table: &'r Table<A>,
    term: &Term,
    id: Id,
) -> Column<'r, A>
    ensures { seen_column result ≡ column_of_id world.now.state table.now term.now id }
{
    if !term.shows_value {
        return Column::Id(id);
    }
    match world.type_of(id) {
        Some(schema) => Column::Values(id, schema, bytes_of(table, id)),
        None => Column::Id(id),
    }
}

/// The bytes of an id's values in a table, none where the table has no data of it.
fn bytes_of<'r, A: Allocator>(table: &'r Table<A>, id: Id) -> &'r [u8]
    ensures { result.now ≡ unwrap_or (column_of table.now id) [] }
{
    match table.column(id) {
        Some(bytes) => bytes,
        None => &[],
    }
}
