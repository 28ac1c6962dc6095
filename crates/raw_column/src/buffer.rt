//! A run of bytes in a block from an allocator, or none. A clause sees it as its bytes.
ghost use Rattle.std.specs.Prelude.{◌≡◌, ℕ, ◌+◌, ◌*◌, ◌^◌, ◌<◌, ◌≤◌, [], ◌++◌, length, map, take, drop, replicate};
ghost use Rattle.std.specs.Prelude.{slice_index, IfOk, IfErr, OnOk, OnErr, IsOk};
ghost use Rattle.std.specs.Prelude.{Some};
ghost use Rattle.std.specs.List.{sum};
ghost use Rattle.raw_column.specs.Buffer.{IsPlaced, bytes_of};
ghost use Rattle.raw_column.specs.Places.{columns_in, gap_filled, padded, resized};

use crate::element::copy;
use crate::memory::{Base, Bytes, Deed, allocate, deallocate, grow, shrink};
use crate::places::{gather, remove_each, spread};
use crate::sizes::Sizes;
use std::alloc::{AllocError, Allocator};
use std::marker::Model;
use std::mem;

/// One block, and the right to give it back.
pub(crate) struct Allocation<A: Allocator> {
    base: Base,
    len: usize,
    bytes: Bytes,
    deed: Deed<A>,
}

pub(crate) struct Buffer<A: Allocator> {
    allocation: Option<Allocation<A>>,
    alloc: A,
}

impl<A: Allocator> Model for Buffer<A> {
    ghost use Rattle.std.specs.Prelude.{ℕ, List};

    ghost Value = { List ℕ };

    ghost use Rattle.raw_column.specs.Buffer.{bytes_of, IsPlaced};

    ghost view = { λ b. bytes_of b.allocation };

    ghost invariant = { λ b. IsPlaced b.allocation b.alloc };
}

impl<A: Allocator> Buffer<A> {
    /// No bytes, which takes no memory.
    pub(crate) fn new(alloc: A) -> Buffer<A>
        ensures { result ≡ [] }
    {
        Buffer {
            allocation: None,
            alloc,
        }
    }

    /// The `len` bytes from `from` on.
    #[inline(always)]
    pub(crate) fn read(&self, from: usize, len: usize) -> &[u8]
        requires { from + len ≤ length self.now }
        ensures { result.now ≡ take len (drop from self.now) }
    {
        match &self.allocation {
            Some(held) => held.bytes.slice(held.base, from, len),
            None => &[],
        }
    }

    /// Overwrites the bytes from `from` on.
    #[inline(always)]
    pub(crate) fn write(&mut self, from: usize, src: &[u8])
        requires { from + length src.now ≤ length self.old }
        ensures { self.new ≡ take from self.old ++ src.now ++ drop (from + length src.now) self.old }
    {
        if let Some(held) = &mut self.allocation {
            let base = held.base;
            copy(held.bytes.slice_mut(base, from, src.len()), src);
        }
    }

    /// Removes a row of the columns that lie in these bytes, with places for `capacity` rows. The row `last` fills the
    /// gap and becomes zeros.
    #[inline(always)]
    pub(crate) fn remove_row<B: Allocator>(
        &mut self,
        sizes: &Sizes<B>,
        capacity: usize,
        row: usize,
        last: usize,
    )
        requires sized { (k : ℕ) → k < length sizes.now → 0 < slice_index sizes.now k }
        requires row { (row ≤ last) × (last < capacity) }
        requires all { (length self.old ≡ capacity * sum sizes.now) × (capacity * sum sizes.now < 2 ^ 63) }
        ensures columns { columns_in capacity sizes.now self.new ≡ map (gap_filled row last)
            (columns_in capacity sizes.now self.old) }
        ensures len { length self.new ≡ length self.old }
    {
        if let Some(held) = &mut self.allocation {
            let (base, end) = (held.base, held.len);
            let bytes = held.bytes.slice_mut(base, 0, end);
            remove_each(bytes, sizes, capacity, row, last);
        }
    }

    /// Makes places for `to` rows in each column, where there were places for `from`. The first `len` rows stay, and
    /// zeros come after them. No bytes take no memory.
    pub(crate) fn grow<B: Allocator>(
        &mut self,
        sizes: &Sizes<B>,
        len: usize,
        from: usize,
        to: usize,
    ) -> Result<(), AllocError>
        requires rows { (len ≤ from) × (from ≤ to) }
        requires old { length self.old ≡ from * sum sizes.now }
        requires new { to * sum sizes.now < 2 ^ 63 }
        ensures ok { OnOk result (self.new ≡ resized len from to sizes.now self.old) }
        ensures err { OnErr result (self.new ≡ self.old) }
    {
        self.set_len(to * sizes.width())?;
        self.spread(sizes, len, from, to);
        Ok(())
    }

    /// Leaves places for `to` rows in each column, where there were places for `from`. The first `len` rows stay, and
    /// zeros come after them, also where the smaller block is refused.
    pub(crate) fn shrink<B: Allocator>(
        &mut self,
        sizes: &Sizes<B>,
        len: usize,
        from: usize,
        to: usize,
    ) -> Result<(), AllocError>
        requires rows { (len ≤ to) × (to ≤ from) }
        requires all { (length self.old ≡ from * sum sizes.now) × (from * sum sizes.now < 2 ^ 63) }
        ensures ok { OnOk result (self.new ≡ resized len from to sizes.now self.old) }
        ensures err { OnErr result (self.new ≡ resized len from from sizes.now self.old) }
        ensures free { to * sum sizes.now ≡ 0 → IsOk result }
    {
        self.gather(sizes, len, from, to);
        match self.set_len(to * sizes.width()) {
            Ok(()) => Ok(()),
            Err(error) => {
                self.spread(sizes, len, to, from);
                Err(error)
            }
        }
    }

    /// Moves the columns apart, from `from` places each to `to`, which all these bytes are for.
    fn spread<B: Allocator>(&mut self, sizes: &Sizes<B>, len: usize, from: usize, to: usize)
        requires rows { (len ≤ from) × (from ≤ to) }
        requires all { (length self.old ≡ to * sum sizes.now) × (to * sum sizes.now < 2 ^ 63) }
        ensures { self.new ≡ resized len from to sizes.now self.old }
    {
        if let Some(held) = &mut self.allocation {
            let (base, end) = (held.base, held.len);
            spread(held.bytes.slice_mut(base, 0, end), sizes, len, from, to);
        }
    }

    /// Moves the columns together, from `from` places each, which all these bytes are for, to `to`.
    fn gather<B: Allocator>(&mut self, sizes: &Sizes<B>, len: usize, from: usize, to: usize)
        requires rows { (len ≤ to) × (to ≤ from) }
        requires all { (length self.old ≡ from * sum sizes.now) × (from * sum sizes.now < 2 ^ 63) }
        ensures { self.new ≡ resized len from to sizes.now self.old ++ drop (to * sum sizes.now) self.old }
    {
        if let Some(held) = &mut self.allocation {
            let (base, end) = (held.base, held.len);
            gather(held.bytes.slice_mut(base, 0, end), sizes, len, from, to);
        }
    }

    /// Keeps the first `len` bytes, or has zeros after those that there are. A block of another length that is refused
    /// is as it was, but for zeros after the first `len` bytes.
    fn set_len(&mut self, len: usize) -> Result<(), AllocError>
        requires { len < 2 ^ 63 }
        ensures ok { OnOk result (self.new ≡ padded len len self.old) }
        ensures err { OnErr result (self.new ≡ padded len (length self.old) self.old) }
        ensures free { len ≡ 0 → IsOk result }
    {
        let held = mem::replace(&mut self.allocation, None);
        match with_len(held, &self.alloc, len) {
            Ok(new) => {
                replace(&mut self.allocation, new, &self.alloc);
                Ok(())
            }
            Err(old) => {
                replace(&mut self.allocation, old, &self.alloc);
                Err(AllocError)
            }
        }
    }
}

/// A block of another length, by way of the one that is held.
fn with_len<A: Allocator>(
    held: Option<Allocation<A>>,
    alloc: &A,
    len: usize,
) -> Result<Option<Allocation<A>>, Option<Allocation<A>>>
    requires placed { IsPlaced held alloc.now }
    requires small { len < 2 ^ 63 }
    ensures ok { IfOk result (λ new. IsPlaced new alloc.now × (bytes_of new ≡ padded len len (bytes_of held))) }
    ensures err { IfErr result (λ old. IsPlaced old alloc.now ×
        (bytes_of old ≡ padded len (length (bytes_of held)) (bytes_of held))) }
    ensures free { len ≡ 0 → IsOk result }
{
    match held {
        Some(held) if len == 0 => {
            held.free(alloc);
            Ok(None)
        }
        Some(held) => match held.with_len(alloc, len) {
            Ok(new) => Ok(Some(new)),
            Err(old) => Err(Some(old)),
        },
        None if len == 0 => Ok(None),
        None => match Allocation::new(alloc, len) {
            Ok(new) => Ok(Some(new)),
            Err(_) => Err(None),
        },
    }
}

/// Another block, or none, in the place of the one that is held, which goes back to the allocator.
fn replace<A: Allocator>(held: &mut Option<Allocation<A>>, new: Option<Allocation<A>>, alloc: &A)
    requires { IsPlaced held.old alloc.now }
    ensures { held.new ≡ new }
{
    if let Some(old) = mem::replace(held, new) {
        old.free(alloc);
    }
}

impl<A: Allocator> Drop for Buffer<A> {
    fn drop(self) {
        let Buffer { allocation, alloc } = self;
        if let Some(held) = allocation {
            held.free(&alloc);
        }
    }
}

impl<A: Allocator> Allocation<A> {
    /// A block of zeros.
    fn new(alloc: &A, len: usize) -> Result<Allocation<A>, AllocError>
        requires { len < 2 ^ 63 }
        ensures { IfOk result (λ new. IsPlaced (Some new) alloc.now × (new.bytes.items ≡ replicate len 0)) }
    {
        let (base, filling, deed) = allocate(alloc, len)?;
        let bytes = filling.zeros(base, 0, len).whole();
        Ok(Allocation {
            base,
            len,
            bytes,
            deed,
        })
    }

    /// A block of another length, which may be the same one: the first bytes stay, and zeros come after them. Where it
    /// is refused, the same block with zeros after the first `len` bytes.
    fn with_len(self, alloc: &A, len: usize) -> Result<Allocation<A>, Allocation<A>>
        requires placed { IsPlaced (Some self) alloc.now }
        requires small { len < 2 ^ 63 }
        ensures ok { IfOk result (λ new. IsPlaced (Some new) alloc.now
            × (new.bytes.items ≡ padded len len self.bytes.items)) }
        ensures err { IfErr result (λ old. IsPlaced (Some old) alloc.now
            × (old.bytes.items ≡ padded len self.len self.bytes.items)) }
    {
        let Allocation {
            base,
            len: had,
            bytes,
            deed,
        } = self;
        let kept = had.min(len);
        let filling = bytes.begun(kept);
        let resized = if had <= len {
            grow(alloc, base, filling, deed, kept, had, len)
        } else {
            shrink(alloc, base, filling, deed, kept, had, len)
        };
        match resized {
            Ok((base, filling, deed)) => Ok(Allocation {
                base,
                len,
                bytes: filling.zeros(base, kept, len - kept).whole(),
                deed,
            }),
            Err((filling, deed)) => Err(Allocation {
                base,
                len: had,
                bytes: filling.zeros(base, kept, had - kept).whole(),
                deed,
            }),
        }
    }

    fn free(self, alloc: &A)
        requires { IsPlaced (Some self) alloc.now }
    {
        let Allocation {
            base,
            len,
            bytes,
            deed,
        } = self;
        deallocate(alloc, base, len, bytes, deed);
    }
}
