//! Whether a stored query mentions an entity.
ghost use Rattle.std.specs.Prelude.{◌≡◌, nat_lt};
ghost use Rattle.std.specs.List.{list_any};
ghost use Rattle.ecs_model.specs.Map.{count_at};

use crate::PinCounts;
use std::alloc::Allocator;

/// Whether one does, by how many mention each.
pub fn is_pinned<A: Allocator>(pins: &PinCounts<A>, index: u32) -> bool
    ensures { result ≡ nat_lt 0 (count_at pins.now.entries index) }
{
    pins.count(index) > 0
}

/// Whether one mentions any of these.
pub fn any_pinned<A: Allocator>(pins: &PinCounts<A>, indexes: &[u32]) -> bool
    ensures { result ≡ list_any (λ i. nat_lt 0 (count_at pins.now.entries i)) indexes.now }
{
    indexes.iter().any(|index| is_pinned(pins, *index))
}
