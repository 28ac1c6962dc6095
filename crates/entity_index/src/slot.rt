//! What is known of one index.
ghost use Rattle.std.specs.Prelude.{◌≡◌, IfOk, None, map};
ghost use Rattle.std.specs.List.{range_with_len};
ghost use Rattle.ecs_model.specs.World.{first_index};
ghost use Rattle.entity_index.specs.Slots.{first_slot};

use crate::packed::PackedPlace;
use ecs_model::{FIRST_INDEX, LAST_BUILT_IN};
use std::alloc::{AllocError, Allocator};

/// The state of an index: how often it was deleted, and whether an entity lives there now.
///
/// The generation of the live entity is the number of deletions.
#[derive(Clone, Copy)]
pub struct EntitySlot {
    pub deletions: u32,
    pub live: bool,
}

/// The slot that an index has at first.
fn first_slot_of(index: u32) -> EntitySlot
    ensures { result ≡ first_slot index }
{
    EntitySlot {
        deletions: 0,
        live: 1 <= index && index <= LAST_BUILT_IN,
    }
}

/// The slots of the indexes that are not given out: those of the built-in entities live.
pub fn first_slots<A: Allocator>(alloc: A) -> Result<Vec<EntitySlot, A>, AllocError>
    ensures { IfOk result (λ slots. slots.items ≡ map first_slot (range_with_len 0 first_index)) }
{
    (0..FIRST_INDEX).map(first_slot_of).collect(alloc)
}

/// The places beside these slots: none stands there.
pub fn first_places<A: Allocator>(alloc: A) -> Result<Vec<Option<PackedPlace>, A>, AllocError>
    ensures { IfOk result (λ places. places.items ≡ map (λ _. None) (range_with_len 0 first_index)) }
{
    (0..FIRST_INDEX).map(|_| None).collect(alloc)
}
