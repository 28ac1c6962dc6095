//! A table: the rows of the entities that have exactly the same ids, and a column for each id with data.
#![tactic(auto)]

mod columns;
mod data_ids;
mod entity_list;
mod id_list;
mod table;
mod table_data;

pub use table::Table;
