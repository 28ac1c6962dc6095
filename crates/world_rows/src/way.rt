//! The two ways by which rows are found.

use crate::search_rows::SearchRows;
use crate::table_rows::TableRows;
use std::alloc::{Allocator, Global};

/// How the rows of a query are found.
#[derive(Drop)]
pub(crate) enum Way<'w, W: Allocator, A: Allocator = Global> {
    /// Table by table, where one judgement decides for all entities of a table.
    Tables(TableRows<'w, W, A>),
    /// By a run of the query's plan.
    Search(SearchRows<'w, W, A>),
}
