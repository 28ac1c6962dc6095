//! Entities that a command touched.

use ecs_id::Id;
use std::alloc::Allocator;

/// An entity that a command touched, by its index, with the ids that it held before the command and holds after it:
/// None where it doesn't live.
#[derive(Drop)]
pub struct Touched<'w, A: Allocator> {
    pub index: u32,
    pub before: Option<Vec<Id, A>>,
    pub after: Option<&'w [Id]>,
}
