//! The rows of a query table by table: the entities of a table as a slice, and for each item the column of its values.
//!
//! ```text
//! if has_chunks(&query) {
//!     let mut chunks = Chunks::start(&world, &query);
//!     while let Some(chunk) = chunks.next_chunk() {
//!         if let Some(Column::Values(_, schema, bytes)) = chunk.column(0) {
//!             for (entity, value) in chunk.entities().iter().zip(bytes.chunks_exact(schema.size())) { .. }
//!         }
//!     }
//! }
//! ```
//!
//! A run and its chunks take no memory: all that they give are slices of the world's own.
#![tactic(auto, using(ecs_id::specs::Id::id_tests))]

mod asked;
mod chunk;
mod column;
mod cursor;
mod leading;
mod run;

pub use asked::has_chunks;
pub use chunk::{Chunk, MatchingTable};
pub use column::Column;
pub use cursor::TableCursor;
pub use run::Chunks;
