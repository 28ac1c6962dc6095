//! The first columns of a table.

ghost use Rattle.std.specs.Prelude.{◌≡◌, [], option_copied, option_map};
ghost use Rattle.query_chunks.specs.Chunk.{chunk_in, seen_column};
ghost use Rattle.world_rows.specs.Found.{column_found};
ghost use Rattle.world_rows.specs.Tabled.{AreOf};

use query_check::Query;
use query_chunks::{Column, MatchingTable};
use std::alloc::Allocator;

/// The first columns of a table, found once for all its rows. It has no more than these few, as it takes no memory.
#[derive(Drop)]
pub(crate) struct FirstColumns<'w, W: Allocator> {
    first: Option<Column<'w, W>>,
    second: Option<Column<'w, W>>,
    third: Option<Column<'w, W>>,
    fourth: Option<Column<'w, W>>,
}

impl<'w, W: Allocator> FirstColumns<'w, W> {
    /// Those of no table.
    pub(crate) fn none() -> Self
        ensures { AreOf (column_found result) [] }
    {
        FirstColumns {
            first: None,
            second: None,
            third: None,
            fourth: None,
        }
    }

    /// Those of a table.
    pub(crate) fn of<A: Allocator>(table: &MatchingTable<'w, W>, query: &Query<A>) -> Self
        ensures { AreOf (column_found result) (chunk_in table.now query.now).columns }
    {
        FirstColumns {
            first: table.column(query, 0),
            second: table.column(query, 1),
            third: table.column(query, 2),
            fourth: table.column(query, 3),
        }
    }

    /// The column with this number, if it was found.
    pub(crate) fn get(&self, number: usize) -> Option<&Column<'w, W>>
        ensures { option_map seen_column (option_copied result) ≡ column_found self.now number }
    {
        match number {
            0 => self.first.as_ref(),
            1 => self.second.as_ref(),
            2 => self.third.as_ref(),
            3 => self.fourth.as_ref(),
            _ => None,
        }
    }
}
