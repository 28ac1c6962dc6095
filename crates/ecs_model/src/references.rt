//! Entities and ids as lines and commands name them.

use ecs_id::EntityId;

/// An entity by its name or by its handle.
#[derive(Clone, Copy, Debug)]
pub enum Reference<'a> {
    Name(&'a str),
    /// Its index and its generation. There may be no such entity, or no more.
    Handle(EntityId),
}

/// An id by references.
#[derive(Clone, Copy, Debug)]
pub enum IdReference<'a> {
    /// A component or tag.
    Plain(Reference<'a>),
    Pair {
        relationship: Reference<'a>,
        target: Reference<'a>,
    },
}
