//! What a table's columns are made from.
ghost use Rattle.std.specs.Prelude.{◌≡◌, IfOk, nat_lt};
ghost use Rattle.std.specs.List.{filter};
ghost use Rattle.ecs_table.specs.Archetype.{ids_with_data};

use ecs_id::Id;
use smallvec::SmallVec;
use std::alloc::{AllocError, Allocator};

/// The ids with data: those of which a value has bytes.
pub fn ids_with_data<A: Allocator>(
    alloc: A,
    ids: &[Id],
    sizes: &[usize],
) -> Result<Vec<Id, A>, AllocError>
    ensures { IfOk result (λ found. found.items ≡ ids_with_data ids.now sizes.now) }
{
    ids.iter()
        .zip(sizes.iter())
        .filter(|(_, size)| **size > 0)
        .map(|(id, _)| *id)
        .collect(alloc)
}

// So many sizes take no block of memory.
const FEW: usize = 8;

/// Sizes that are needed for a moment. Few of them take no block of memory.
pub type Sizes<'a, A> = SmallVec<usize, FEW, &'a A>;

/// The sizes of the ids with data.
pub fn sizes_with_data<'a, A: Allocator>(
    alloc: &'a A,
    sizes: &[usize],
) -> Result<Sizes<'a, A>, AllocError>
    ensures { IfOk result (λ found. found.items ≡ filter (λ s. nat_lt 0 s) sizes.now) }
{
    sizes
        .iter()
        .copied()
        .filter(|size| *size > 0)
        .collect(alloc)
}
