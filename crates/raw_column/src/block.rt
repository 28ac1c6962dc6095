//! The columns of a table in one block.
ghost use Rattle.std.specs.Prelude.{◌≡◌, ℕ, ◌+◌, ◌-◌, ◌*◌, ◌^◌, ◌<◌, ◌≤◌, length, map, min, slice_get, slice_index};
ghost use Rattle.std.specs.Prelude.{slice_index_or, IfOk, Some, OnOk, OnErr};
ghost use Rattle.std.specs.Prelude.{IsOk, IsErr};
ghost use Rattle.std.specs.List.{concat, fold, sum};
ghost use Rattle.raw_column.specs.Contents.{HaveOneSize, capacity_of, column_at, empty_contents, most_of, row_bytes};
ghost use Rattle.raw_column.specs.Contents.{with_column, with_copied, with_item_in};
ghost use Rattle.raw_column.specs.Contents.{with_zeros, without_row};

use crate::buffer::Buffer;
use crate::sizes::Sizes;
use std::alloc::{AllocError, Allocator, Global};
use std::convert::From;
use std::marker::Model;
use thiserror::Error;

/// There was no memory, or more was asked than a block can have.
#[derive(Clone, Copy, PartialEq, Eq, Debug, Error)]
#[error("out of memory")]
pub struct Memory;

impl From<AllocError> for Memory {
    fn from(_error: AllocError) -> Memory {
        Memory
    }
}

/// Rows of values, by column. In a column each value has as many bytes. It takes memory in `new` and `reserve`, and
/// gives it back in `shrink_to` and when it is dropped.
///
/// All columns lie in one allocation, one after another. The places after the last row are zero, so that a new row
/// is there without a write. A block without columns counts its rows alone.
#[derive(Drop)]
pub struct Block<A: Allocator = Global> {
    buffer: Buffer<A>,
    // How many rows there are places for.
    capacity: usize,
    sizes: Sizes<A>,
    len: usize,
}

impl<A: Allocator> Model for Block<A> {
    ghost use Rattle.std.specs.Prelude.{◌-◌, map};
    ghost use Rattle.raw_column.specs.Contents.{Contents, IsLaidOut, first_of};
    ghost use Rattle.raw_column.specs.Places.{columns_in};

    ghost Value = { Contents };

    ghost view = { λ b. record {
      len = b.len;
      room = b.capacity - b.len;
      columns = map (first_of b.len) (columns_in b.capacity b.sizes b.buffer);
    } };

    ghost invariant = { λ b. IsLaidOut b.sizes b.capacity b.len b.buffer };
}

impl<A: Allocator + Copy> Block<A> {
    /// No rows, in columns of values of so many bytes, each 1 to 64.
    pub fn new(alloc: A, sizes: &[usize]) -> Result<Block<A>, Memory>
        requires { (k : ℕ) → k < length sizes.now → (0 < slice_index sizes.now k) × (slice_index sizes.now k ≤ 64) }
        ensures { IfOk result (λ block. block ≡ empty_contents sizes.now) }
    {
        Ok(Block {
            sizes: Sizes::new(alloc, sizes)?,
            buffer: Buffer::new(alloc),
            capacity: 0,
            len: 0,
        })
    }
}

impl<A: Allocator> Block<A> {
    /// How many columns there are.
    pub fn columns(&self) -> usize
        ensures { result ≡ length self.now.columns }
    {
        self.sizes.count()
    }

    /// The bytes of a value in a column.
    pub fn size(&self, column: usize) -> usize
        requires { column < length self.now.columns }
        ensures size { result ≡ (column_at self.now column).size }
        ensures within { (0 < result) × (result ≤ 64) }
    {
        self.sizes.size(column)
    }

    /// The bytes of a row in all columns.
    pub fn row_size(&self) -> usize
        ensures value { result ≡ row_bytes self.now }
        ensures small { result < 2 ^ 32 }
    {
        self.sizes.width()
    }

    /// How many rows there are.
    pub fn len(&self) -> usize
        ensures { result ≡ self.now.len }
    {
        self.len
    }

    /// How many more rows fit before memory is asked for.
    pub fn room(&self) -> usize
        ensures value { result ≡ self.now.room }
        ensures within { self.now.len + result < 2 ^ 63 }
    {
        self.capacity - self.len
    }

    /// Makes room for `additional` more rows. A growth is one request, and at least doubles what fits.
    pub fn reserve(&mut self, additional: usize) -> Result<(), Memory>
        ensures room { OnOk result (additional ≤ self.new.room) }
        ensures rows { OnOk result (self.new ≡ record self.old { room = self.new.room }) }
        ensures err { OnErr result (self.new ≡ self.old) }

        // Room that is there already is never refused, and stays as it is.
        ensures succeeds { additional ≤ self.old.room → IsOk result × (self.new ≡ self.old) }
        ensures too_large { most_of self.old < self.old.len + additional → IsErr result }
        ensures doubles { self.old.room < additional → OnOk result (min (2 * capacity_of self.old) (most_of self.old)
            ≤ capacity_of self.new) }
    {
        if additional <= self.capacity - self.len {
            return Ok(());
        }
        let most = isize::MAX as usize / self.sizes.width().max(1);
        if most - self.len < additional {
            return Err(Memory);
        }
        let least = (self.len + additional).max(2 * self.capacity);
        let capacity = self.rounded(least).min(most);
        self.buffer
            .grow(&self.sizes, self.len, self.capacity, capacity)?;
        self.capacity = capacity;
        Ok(())
    }

    /// Gives memory back: a smaller block that has places for about `min_capacity` rows, or for all that there are. A
    /// block that is refused leaves all as it was. Without rows and places nothing is kept.
    pub fn shrink_to(&mut self, min_capacity: usize)
        ensures rows { self.new ≡ record self.old { room = self.new.room } }
        ensures capacity { capacity_of self.new ≤ capacity_of self.old }
        ensures lower_bound { min min_capacity (capacity_of self.old) ≤ capacity_of self.new }
        ensures frees { self.old.len ≡ 0 → min_capacity ≡ 0 → self.new.room ≡ 0 }
    {
        let least = self.len.max(min_capacity);
        if self.capacity <= least {
            return;
        }
        let capacity = self.rounded(least);
        if self.capacity <= capacity {
            return;
        }
        if self
            .buffer
            .shrink(&self.sizes, self.len, self.capacity, capacity)
            .is_ok()
        {
            self.capacity = capacity;
        }
    }

    /// A row of zeros at the end.
    #[inline(always)]
    pub fn push_zero(&mut self)
        requires { 0 < self.old.room }
        ensures { self.new ≡ with_zeros self.old }
    {
        self.len += 1;
    }

    /// The bytes of the value in a column and a row.
    #[inline(always)]
    pub fn get(&self, column: usize, row: usize) -> &[u8]
        requires column { column < length self.now.columns }
        requires row { row < self.now.len }
        ensures value { slice_get (column_at self.now column).items row ≡ Some result.now }
        ensures len { length result.now ≡ (column_at self.now column).size }
    {
        let at = self.sizes.offset_of(column, row, self.capacity);
        self.buffer.read(at, self.sizes.size(column))
    }

    /// The bytes of all values in a column, those of one row after another.
    #[inline(always)]
    pub fn column(&self, column: usize) -> &[u8]
        requires { column < length self.now.columns }
        ensures { result.now ≡ concat (column_at self.now column).items }
    {
        let at = self.sizes.offset_of(column, 0, self.capacity);
        let len = self.len * self.sizes.size(column);
        self.buffer.read(at, len)
    }

    /// Overwrites the value in a column and a row with as many bytes.
    #[inline(always)]
    pub fn set(&mut self, column: usize, row: usize, value: &[u8])
        requires column { column < length self.old.columns }
        requires row { row < self.old.len }
        requires size { length value.now ≡ (column_at self.old column).size }
        ensures { self.new ≡ with_item_in self.old column row value.now }
    {
        let at = self.sizes.offset_of(column, row, self.capacity);
        self.buffer.write(at, value);
    }

    /// Overwrites all values in a column with as many bytes, those of one row after another.
    #[inline(always)]
    pub fn set_column(&mut self, column: usize, bytes: &[u8])
        requires column { column < length self.old.columns }
        requires size { length bytes.now ≡ self.old.len * (column_at self.old column).size }
        ensures { self.new ≡ with_column self.old column bytes.now }
    {
        let at = self.sizes.offset_of(column, 0, self.capacity);
        self.buffer.write(at, bytes);
    }

    /// Removes a row. The last one fills the gap.
    pub fn swap_remove(&mut self, row: usize)
        requires { row < self.old.len }
        ensures { self.new ≡ without_row self.old row }
    {
        let last = self.len - 1;
        self.buffer
            .remove_row(&self.sizes, self.capacity, row, last);
        self.len = last;
    }

    /// Moves a row to the end of `other`. Each pair is a column here and one of `other` that gets its value; columns in
    /// no pair get zeros. The last row of this block fills the gap.
    pub fn move_row(&mut self, row: usize, other: &mut Block<A>, pairs: &[(usize, usize)])
        requires row { row < self.old.len }
        requires room { 0 < other.old.room }
        requires within { (k : ℕ) → k < length pairs.now → HaveOneSize self.old other.old
            (slice_index_or pairs.now k (0, 0)) }
        ensures moved { other.new ≡ fold (with_copied self.old row) (with_zeros other.old) pairs.now }
        ensures left { self.new ≡ without_row self.old row }
    {
        other.push_zero();
        let last = other.len - 1;
        for (from, to) in pairs {
            other.set(*to, last, self.get(*from, row));
        }
        self.swap_remove(row);
    }

    /// The least multiple of the step that is `rows` or more, unless there is none.
    #[inline(always)]
    fn rounded(&self, rows: usize) -> usize
        ensures enough { rows ≤ result }
        ensures none { rows ≡ 0 → result ≡ 0 }
    {
        rows.checked_next_multiple_of(self.sizes.step())
            .unwrap_or(rows)
    }
}
