//! Columns in a run of bytes: one after another, each with a place for each of so many rows.
ghost use Rattle.std.specs.Prelude.{◌≡◌, ◌+◌, ◌*◌, ◌^◌, ◌<◌, ◌≤◌, ◌++◌, length, map, take, drop, replicate};
ghost use Rattle.std.specs.Prelude.{slice_index};
ghost use Rattle.std.specs.List.{sum};
ghost use Rattle.raw_column.specs.Places.{column_resized, columns_in, gap_filled, over, place_of, resized};

use crate::element::{clear, copy};
use crate::sizes::Sizes;
use std::alloc::Allocator;

// So many bytes are copied at once at most, which is a short loop over vectors.
const RUN: usize = 1024;

/// Fills the gap at `row` of each column with the value at `last`, which becomes zeros.
#[inline(always)]
pub(crate) fn remove_each<A: Allocator>(
    bytes: &mut [u8],
    sizes: &Sizes<A>,
    capacity: usize,
    row: usize,
    last: usize,
)
    requires row { (row ≤ last) × (last < capacity) }
    requires all { (length bytes.old ≡ capacity * sum sizes.now) × (capacity * sum sizes.now < 2 ^ 63) }
    ensures { columns_in capacity sizes.now bytes.new ≡ map (gap_filled row last)
        (columns_in capacity sizes.now bytes.old) }
{
    for column in 0..sizes.count() {
        let size = sizes.size(column);
        let to = sizes.offset_of(column, row, capacity);
        let from = sizes.offset_of(column, last, capacity);
        fill_gap(bytes, to, from, size);
    }
}

/// Moves `size` bytes from `from` down to `to`, unless that is their place, and leaves zeros.
#[inline(always)]
fn fill_gap(bytes: &mut [u8], to: usize, from: usize, size: usize)
    requires order { to ≤ from }
    requires apart { to < from → to + size ≤ from }
    requires within { from + size ≤ length bytes.old }
    ensures { bytes.new ≡ over from size (over to size bytes.old (take size (drop from bytes.old))) (replicate size 0) }
{
    if to < from {
        copy_down(bytes, to, from, size);
    }
    clear_at(bytes, from, size);
}

/// Copies `size` bytes to a lower place.
#[inline(always)]
fn copy_down(bytes: &mut [u8], to: usize, from: usize, size: usize)
    requires { (to + size ≤ from) × (from + size ≤ length bytes.old) }
    ensures { bytes.new ≡ over to size bytes.old (take size (drop from bytes.old)) }
{
    let (front, back) = bytes.split_at_mut(from);
    copy(&mut front[to..to + size], &back[..size]);
}

/// Copies `size` bytes to a higher place.
fn copy_up(bytes: &mut [u8], to: usize, from: usize, size: usize)
    requires { (from + size ≤ to) × (to + size ≤ length bytes.old) }
    ensures { bytes.new ≡ over to size bytes.old (take size (drop from bytes.old)) }
{
    let (front, back) = bytes.split_at_mut(to);
    copy(&mut back[..size], &front[from..from + size]);
}

/// Overwrites `size` bytes with zeros.
#[inline(always)]
fn clear_at(bytes: &mut [u8], at: usize, size: usize)
    requires { at + size ≤ length bytes.old }
    ensures { bytes.new ≡ over at size bytes.old (replicate size 0) }
{
    clear(&mut bytes[at..at + size]);
}

/// Moves `size` bytes, also where the places overlap: in runs that don't, from the end to the beginning on the way up,
/// and from the beginning on the way down.
fn shift(bytes: &mut [u8], to: usize, from: usize, size: usize)
    requires { (from + size ≤ length bytes.old) × (to + size ≤ length bytes.old) }
    ensures { bytes.new ≡ over to size bytes.old (take size (drop from bytes.old)) }
{
    if from < to {
        shift_up(bytes, to, from, size);
    } else if to < from {
        shift_down(bytes, to, from, size);
    }
}

fn shift_up(bytes: &mut [u8], to: usize, from: usize, size: usize)
    requires { (from < to) × (to + size ≤ length bytes.old) }
    ensures { bytes.new ≡ over to size bytes.old (take size (drop from bytes.old)) }
{
    let gap = (to - from).min(RUN);
    let mut left = size;
    while 0 < left {
        let run = left.min(gap);
        left -= run;
        copy_up(bytes, to + left, from + left, run);
    }
}

fn shift_down(bytes: &mut [u8], to: usize, from: usize, size: usize)
    requires { (to < from) × (from + size ≤ length bytes.old) }
    ensures { bytes.new ≡ over to size bytes.old (take size (drop from bytes.old)) }
{
    let gap = (from - to).min(RUN);
    let mut done = 0;
    while done < size {
        let run = (size - done).min(gap);
        copy_down(bytes, to + done, from + done, run);
        done += run;
    }
}

/// Moves a column's first `len` rows to where it begins with places for `to` rows each, and writes zeros after them.
fn place_column<A: Allocator>(
    bytes: &mut [u8],
    sizes: &Sizes<A>,
    column: usize,
    len: usize,
    from: usize,
    to: usize,
)
    requires column { column < length sizes.now }
    requires rows { (len ≤ from) × (len ≤ to) }
    requires from { (from * sum sizes.now ≤ length bytes.old) × (from * sum sizes.now < 2 ^ 63) }
    requires to { (to * sum sizes.now ≤ length bytes.old) × (to * sum sizes.now < 2 ^ 63) }
    ensures { bytes.new ≡ over (place_of to sizes.now column 0) (to * slice_index sizes.now column) bytes.old
        (column_resized len to (slice_index sizes.now column) (drop (place_of from sizes.now column 0) bytes.old)) }
{
    let size = sizes.size(column);
    let had = sizes.offset_of(column, 0, from);
    let at = sizes.offset_of(column, 0, to);
    let kept = len * size;
    shift(bytes, at, had, kept);
    clear_at(bytes, at + kept, (to - len) * size);
}

/// Moves columns with places for `from` rows each apart, so that there are places for `to`, from the last one to the
/// first. The first `len` rows stay, and zeros come after them.
pub(crate) fn spread<A: Allocator>(
    bytes: &mut [u8],
    sizes: &Sizes<A>,
    len: usize,
    from: usize,
    to: usize,
)
    requires rows { (len ≤ from) × (from ≤ to) }
    requires all { (length bytes.old ≡ to * sum sizes.now) × (to * sum sizes.now < 2 ^ 63) }
    ensures { bytes.new ≡ resized len from to sizes.now bytes.old }
{
    for column in (0..sizes.count()).rev() {
        place_column(bytes, sizes, column, len, from, to);
    }
}

/// Moves columns with places for `from` rows each together, so that there are places for `to`, from the first one to
/// the last. The first `len` rows stay, and zeros come after them.
pub(crate) fn gather<A: Allocator>(
    bytes: &mut [u8],
    sizes: &Sizes<A>,
    len: usize,
    from: usize,
    to: usize,
)
    requires rows { (len ≤ to) × (to ≤ from) }
    requires all { (length bytes.old ≡ from * sum sizes.now) × (from * sum sizes.now < 2 ^ 63) }
    ensures { bytes.new ≡ resized len from to sizes.now bytes.old ++ drop (to * sum sizes.now) bytes.old }
{
    for column in 0..sizes.count() {
        place_column(bytes, sizes, column, len, from, to);
    }
}
