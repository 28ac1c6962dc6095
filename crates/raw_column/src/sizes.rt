//! Where the columns of a block begin.
ghost use Rattle.std.specs.Prelude.{◌≡◌, ℕ, ◌+◌, ◌*◌, ◌^◌, ◌<◌, ◌≤◌, length, slice_index, IfOk};
ghost use Rattle.std.specs.List.{sum};
ghost use Rattle.raw_column.specs.Places.{place_of};

use std::alloc::{AllocError, Allocator};
use std::marker::Model;

/// The bytes of a value in a column, and those of the columns before it together.
#[derive(Clone, Copy)]
struct Span {
    before: u32,
    size: u32,
}

/// How many bytes a value has in each column, 1 to 64. A clause sees it as the list of these sizes.
#[derive(Drop)]
pub(crate) struct Sizes<A: Allocator> {
    spans: Vec<Span, A>,
    // the bytes of a row in all columns
    width: u32,
    // by which each size becomes a multiple of eight
    step: u32,
}

impl<A: Allocator> Model for Sizes<A> {
    ghost use Rattle.std.specs.Prelude.{ℕ, List, map};
    ghost use Rattle.raw_column.specs.Sizes.{IsSpread, sizes_of};

    ghost Value = { List ℕ };

    ghost view = { λ s. sizes_of s.spans.items };

    ghost invariant = { λ s. IsSpread s.spans.items s.width };
}

impl<A: Allocator> Sizes<A> {
    pub(crate) fn new(alloc: A, sizes: &[usize]) -> Result<Sizes<A>, AllocError>
        requires { (k : ℕ) → k < length sizes.now → (0 < slice_index sizes.now k) × (slice_index sizes.now k ≤ 64) }
        ensures { IfOk result (λ all. all ≡ sizes.now) }
    {
        let step = step_of(sizes);
        let mut spans = Vec::with_capacity(alloc, sizes.len())?;
        let mut width = 0u32;
        for size in sizes {
            let size = *size as u32;
            let Some(more) = width.checked_add(size) else {
                return Err(AllocError);
            };
            let span = Span {
                before: width,
                size,
            };
            list_growth::push(&mut spans, span)?;
            width = more;
        }
        Ok(Sizes { spans, width, step })
    }

    /// How many columns there are.
    #[inline(always)]
    pub(crate) fn count(&self) -> usize
        ensures { result ≡ length self.now }
    {
        self.spans.len()
    }

    /// The bytes of a row in all columns.
    #[inline(always)]
    pub(crate) fn width(&self) -> usize
        ensures sum { result ≡ sum self.now }
        ensures small { result < 2 ^ 32 }
    {
        self.width as usize
    }

    /// A column with places for a multiple of so many rows has a multiple of eight bytes.
    #[inline(always)]
    pub(crate) fn step(&self) -> usize {
        self.step as usize
    }

    /// The bytes of a value in a column.
    #[inline(always)]
    pub(crate) fn size(&self, column: usize) -> usize
        requires { column < length self.now }
        ensures size { result ≡ slice_index self.now column }
        ensures within { (0 < result) × (result ≤ 64) }
    {
        self.spans[column].size as usize
    }

    /// The byte at which a column's value in a row begins, where there are places for `capacity` rows.
    #[inline(always)]
    pub(crate) fn offset_of(&self, column: usize, row: usize, capacity: usize) -> usize
        requires column { column < length self.now }
        requires row { row ≤ capacity }
        requires in_block { capacity * sum self.now < 2 ^ 63 }
        ensures value { result ≡ place_of capacity self.now column row }
        ensures within { result ≤ capacity * sum self.now }
        ensures inside { row < capacity → result + slice_index self.now column ≤ capacity * sum self.now }
    {
        let span = self.spans[column];
        span.before as usize * capacity + row * span.size as usize
    }
}

/// The least of 1, 2, 4 and 8 by which each of these sizes becomes a multiple of eight.
fn step_of(sizes: &[usize]) -> u32 {
    let bits = sizes.iter().fold(0, |bits, size| bits | *size);
    if bits % 8 == 0 {
        1
    } else if bits % 4 == 0 {
        2
    } else if bits % 2 == 0 {
        4
    } else {
        8
    }
}
