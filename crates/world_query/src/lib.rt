//! Queries of a world: from a text to the rows that it asks for, as they print.
//!
//! A query is read, planned by how many tables each of its items would be found through, and run; its answers are
//! sorted, and for each of them the fields are gone through and printed.
#![tactic(auto)]

mod answering;
mod candidates;
mod labels;
pub mod laws;
mod names;
mod reading;
mod row_lines;
mod rows;
mod sending;
mod sheet;
mod table_counts;

pub use names::Names;
pub use reading::read_query;
pub use rows::{
    QUERY_ROOM, asking_in, candidates_in, matching, plan_for_kept, plan_in, send_planned_rows,
    send_rows, send_rows_in, write_planned_rows, write_rows, write_rows_in,
};
pub use sending::{Nowhere, SendError, send_list};
