//! An id with the size of its values.
ghost use Rattle.std.specs.Prelude.{◌≡◌};

use ecs_id::Id;
use std::marker::Model;

/// An id, and how many bytes a value of it has in tables: 0 for a tag.
#[derive(Clone, Copy, Debug)]
pub struct SizedId {
    id: Id,
    size: usize,
}

impl Model for SizedId {
    ghost use Rattle.std.specs.Prelude.{ℕ};
    ghost use Rattle.ecs_id.specs.Id.{Id as IdValue};

    ghost Value = { IdValue × ℕ };

    ghost view = { λ s. (s.id, s.size) };

    ghost inverse = { λ p. record { id = p.0; size = p.1 } };
}

impl SizedId {
    /// An id whose values have so many bytes.
    pub fn new(id: Id, size: usize) -> SizedId
        ensures { result ≡ (id, size) }
    {
        SizedId { id, size }
    }

    /// An id whose facts have no values.
    pub fn tag(id: Id) -> SizedId
        ensures { result ≡ (id, 0) }
    {
        SizedId { id, size: 0 }
    }

    /// The id.
    pub fn id(self) -> Id
        ensures { result ≡ self.0 }
    {
        self.id
    }

    /// The bytes of a value.
    pub fn size(self) -> usize
        ensures { result ≡ self.1 }
    {
        self.size
    }
}
