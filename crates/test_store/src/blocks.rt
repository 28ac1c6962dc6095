//! Rows of blocks, and the memory that they take.
ghost use Rattle.std.specs.Prelude.{◌<◌, ◌≤◌, ◌≡◌, ◌∷◌, [], ℕ, length, slice_index};
ghost use Rattle.raw_column.specs.Contents.{empty_contents};

use raw_column::{Block, Memory};
use refusing_alloc::Refusing;
use std::alloc::Global;
use std::process::Abort;
use std::test::Fail;

fn fill_gap_of_row(rt: &impl Abort, block: &mut Block) -> Result<(), Memory>
    requires { block.old ≡ empty_contents (4 ∷ 1 ∷ []) }
{
    block.reserve(2)?;
    block.push_zero();
    block.push_zero();
    block.set(0, 0, &[1, 2, 3, 4]);
    block.set(1, 1, &[9]);
    block.swap_remove(0);
    assert!(rt; block.len() == 1);
    block.reserve(1_000)?;
    block.shrink_to(0);
    assert!(rt; block.room() < 100);
    assert!(rt; block.get(0, 0) == [0u8; 4].as_slice());
    assert!(rt; block.get(1, 0) == [9u8].as_slice());
    Ok(())
}

#[test]
fn the_last_row_fills_the_gap(rt: HostRuntime) -> Result<(), Fail> {
    let mut block = Block::new(rt.alloc(), &[4, 1])?;
    let done = fill_gap_of_row(&rt, &mut block);
    drop(block);
    Ok(done?)
}

fn push_one_by_one(rt: &impl Abort, block: &mut Block<&Refusing<Global>>) -> Result<(), Memory> {
    for _ in 0..5_000 {
        block.reserve(1)?;
        block.push_zero();
    }
    assert!(rt; block.len() == 5_000);
    Ok(())
}

/// Pushes rows one by one, for which so many growths must do.
fn grow_seldom(
    rt: &impl Abort,
    heap: &Refusing<Global>,
    sizes: &[usize],
    growths: u64,
) -> Result<(), Memory>
    requires { (k : ℕ) → k < length sizes.now → (0 < slice_index sizes.now k) × (slice_index sizes.now k ≤ 64) }
{
    let mut block = Block::new(heap, sizes)?;
    heap.refuse_after(growths);
    let done = push_one_by_one(rt, &mut block);
    assert!(rt; heap.left() == 0);
    drop(block);
    done
}

/// A growth of all columns is one request, and at least doubles what fits. Rows without columns take no memory.
#[test]
fn rows_grow_seldom(rt: HostRuntime) -> Result<(), Fail> {
    let heap = Refusing::new(rt.alloc());
    let columns = grow_seldom(&rt, &heap, &[4, 8], 13);
    let none = grow_seldom(&rt, &heap, &[], 0);
    drop(heap);
    columns?;
    Ok(none?)
}
