//! The fields of one item in all rows of a chunk.

use ecs_id::Id;
use ecs_schema::Schema;
use std::alloc::{Allocator, Global};

/// The fields that an item shows in the rows of a chunk.
#[derive(Drop)]
pub enum Column<'r, A: Allocator = Global> {
    /// An optional term without a hit: the field is unset.
    Unset,
    /// Each row has this id, and shows no value: the id has no fields, or `[none]` is written.
    Id(Id),
    /// Each row has this id with a value of these fields. The bytes of the values stand one row after another.
    Values(Id, &'r Schema<A>, &'r [u8]),
}
