//! More items than stand in a value.

ghost use Rattle.std.specs.Prelude.{◌≡◌, ◌++◌, ◌∷◌, [], IfOk};
ghost use Rattle.short_list.specs.Items.{IsInOrder};

use std::alloc::{AllocError, Allocator};

/// These items and one after them.
pub(crate) fn with_one_more<T: Copy, A: Allocator>(
    alloc: A,
    items: &[T],
    item: T,
) -> Result<Vec<T, A>, AllocError>
    ensures { IfOk result (λ many. many.items ≡ items.now ++ item ∷ []) }
{
    let mut many = Vec::from_slice(alloc, items)?;
    many.push(item)?;
    Ok(many)
}

/// Puts items in order, and leaves each once.
pub(crate) fn put_many_in_order<T: Ord + Drop, A: Allocator>(items: &mut Vec<T, A>)
    ensures { IsInOrder T.cmp T.eq items.old.items items.new.items }
{
    items.sort_unstable();
    items.dedup();
}
