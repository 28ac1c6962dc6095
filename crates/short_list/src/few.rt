//! A few items in a value.

ghost use Rattle.std.specs.Prelude.{◌≡◌, ◌≤◌, length};
ghost use Rattle.std.specs.List.{dedup};
ghost use Rattle.short_list.specs.Items.{IsInOrder};

use arrayvec::ArrayVec;

/// So many take no block of memory.
pub(crate) const FEW: usize = 4;

/// Puts items in order, and leaves each once.
pub(crate) fn put_few_in_order<T: Ord + Copy + Default>(few: &mut ArrayVec<T, FEW>)
    ensures { IsInOrder T.cmp T.eq few.old.items few.new.items }
{
    if few.len() > 1 {
        few.sort_unstable();
        *few = each_once(few.as_slice());
    }
}

/// Of items in order each once.
fn each_once<T: PartialEq + Copy + Default>(sorted: &[T]) -> ArrayVec<T, FEW>
    requires few { length sorted.now ≤ 4 }
    ensures { result.items ≡ dedup T.eq sorted.now }
{
    let mut once = ArrayVec::new();
    let Some((first, rest)) = sorted.split_first() else {
        return once;
    };
    let mut last = *first;
    once.push(last);
    for item in rest {
        if *item != last {
            last = *item;
            once.push(last);
        }
    }
    once
}
