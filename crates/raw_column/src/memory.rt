//! The raw layer: a block of bytes from an allocator, reached by a pointer. Every raw pointer of the crate is here.
ghost use Rattle.std.specs.Prelude.{◌≡◌, ℕ, ◌+◌, ◌^◌, ◌<◌, ◌≤◌, List, [], ◌∷◌, ◌++◌, length, take, drop, replicate};
ghost use Rattle.std.specs.Prelude.{IfOk, MatchResult};
ghost use Rattle.std.specs.Borrow.{sem};
ghost use base.Fml.{ftrue};
ghost use denote.RawPtr.{Ptr};
ghost use Rattle.raw_column.specs.Ownership.{filling_owns, bytes_own, bytes_lent, deed_owns};

use std::alloc::{AllocError, Allocator};
use std::marker::{Model, PhantomData, Send, Sync};
use std::slice;

/// Where a block begins. It owns nothing.
#[derive(Clone, Copy)]
pub(crate) struct Base {
    ptr: *mut u8,
}

unsafe impl Send for Base {}

unsafe impl Sync for Base {}

/// The owner of a block that is being filled from its beginning: `items` are written, and the `spare` places after
/// them hold no value yet. It takes no space.
pub(crate) struct Filling {
    ghost at: { Ptr },
    ghost items: { List ℕ },
    ghost spare: { ℕ },
}

impl Model for Filling {
    ghost also_owns = { λ f. filling_owns f.at f.items f.spare };
}

/// The owner of a block's bytes, all of which hold a value. It takes no space.
pub(crate) struct Bytes {
    ghost at: { Ptr },
    ghost items: { List ℕ },
}

impl Model for Bytes {
    ghost also_owns = { λ b. bytes_own b.at b.items };

    ghost also_shares = { λ b _ κ. bytes_lent b.at b.items κ };
}

unsafe impl Send for Bytes {}

unsafe impl Sync for Bytes {}

/// The right to give the block of `len` bytes at `at` back to `alloc`. It takes no space, and isn't `Drop`:
/// a block that isn't given back does not compile.
pub(crate) struct Deed<A: Allocator> {
    mark: PhantomData<*const A>,
    ghost at: { Ptr },
    ghost len: { ℕ },
    ghost alloc: { A },
}

impl<A: Allocator> Model for Deed<A> {
    ghost also_owns = { λ d. deed_owns (A.dealloc_token d.alloc) d.at d.len };

    ghost also_shares = { λ _ _ _. ftrue };
}

unsafe impl<A: Allocator + Send> Send for Deed<A> {}

// A `&` to it holds nothing.
unsafe impl<A: Allocator> Sync for Deed<A> {}

/// A block of `len` bytes, none of which holds a value yet.
pub(crate) fn allocate<A: Allocator>(
    alloc: &A,
    len: usize,
) -> Result<(Base, Filling, Deed<A>), AllocError>
    requires { len < 2 ^ 63 }
    ensures { IfOk result (λ r. (r.1.at ≡ r.0.ptr) × (r.1.items ≡ []) × (r.1.spare ≡ len) × (r.2.at ≡ r.0.ptr)
        × (r.2.len ≡ len) × (r.2.alloc ≡ alloc.now)) }
{
    match alloc.allocate(len, 1) {
        Ok(ptr) => Ok((Base { ptr }, Filling {}, Deed { mark: PhantomData })),
        Err(error) => Err(error),
    }
}

/// Makes a block of `len` bytes, of which `filled` are written, one of `to`, which may begin elsewhere. What is written
/// stays. A refused one is as it was.
pub(crate) fn grow<A: Allocator>(
    alloc: &A,
    base: Base,
    filling: Filling,
    deed: Deed<A>,
    filled: usize,
    len: usize,
    to: usize,
) -> Result<(Base, Filling, Deed<A>), (Filling, Deed<A>)>
    requires block { (filling.at ≡ base.ptr) × (length filling.items ≡ filled) × (filled + filling.spare ≡ len)
        × (deed.at ≡ base.ptr) × (deed.len ≡ len)
        × (deed.alloc ≡ alloc.now) }
    requires larger { (len ≤ to) × (to < 2 ^ 63) }
    ensures { MatchResult result (λ r. (r.1.at ≡ r.0.ptr) × (r.1.items ≡ filling.items) × (filled + r.1.spare ≡ to)
        × (r.2.at ≡ r.0.ptr) × (r.2.len ≡ to)
        × (r.2.alloc ≡ alloc.now)) (λ r. (r.0 ≡ filling) × (r.1 ≡ deed)) }
{
    let Filling {} = filling;
    let Deed { mark: _ } = deed;
    match unsafe { alloc.grow(base.ptr, filled, len, to) } {
        Ok(ptr) => Ok((Base { ptr }, Filling {}, Deed { mark: PhantomData })),
        Err(_) => Err((Filling {}, Deed { mark: PhantomData })),
    }
}

/// The same to a smaller block, in which all that is written has its place.
pub(crate) fn shrink<A: Allocator>(
    alloc: &A,
    base: Base,
    filling: Filling,
    deed: Deed<A>,
    filled: usize,
    len: usize,
    to: usize,
) -> Result<(Base, Filling, Deed<A>), (Filling, Deed<A>)>
    requires block { (filling.at ≡ base.ptr) × (length filling.items ≡ filled) × (filled + filling.spare ≡ len)
        × (deed.at ≡ base.ptr) × (deed.len ≡ len)
        × (deed.alloc ≡ alloc.now) }
    requires smaller { (filled ≤ to) × (to ≤ len) × (len < 2 ^ 63) }
    ensures { MatchResult result (λ r. (r.1.at ≡ r.0.ptr) × (r.1.items ≡ filling.items) × (filled + r.1.spare ≡ to)
        × (r.2.at ≡ r.0.ptr) × (r.2.len ≡ to)
        × (r.2.alloc ≡ alloc.now)) (λ r. (r.0 ≡ filling) × (r.1 ≡ deed)) }
{
    let Filling {} = filling;
    let Deed { mark: _ } = deed;
    match unsafe { alloc.shrink(base.ptr, filled, len, to) } {
        Ok(ptr) => Ok((Base { ptr }, Filling {}, Deed { mark: PhantomData })),
        Err(_) => Err((Filling {}, Deed { mark: PhantomData })),
    }
}

/// Gives a block back, with the size and the alignment with which it was got.
pub(crate) fn deallocate<A: Allocator>(
    alloc: &A,
    base: Base,
    len: usize,
    bytes: Bytes,
    deed: Deed<A>,
)
    requires { (bytes.at ≡ base.ptr) × (length bytes.items ≡ len) × (deed.at ≡ base.ptr) × (deed.len ≡ len)
        × (deed.alloc ≡ alloc.now) }
{
    let Bytes {} = bytes;
    let Deed { mark: _ } = deed;
    unsafe {
        alloc.deallocate(base.ptr, len, 1);
    }
}

impl Filling {
    /// Writes the next byte, after the `filled` that are written.
    #[inline(always)]
    fn push(self, base: Base, filled: usize, byte: u8) -> Filling
        requires { (base.ptr ≡ self.at) × (filled ≡ length self.items) × (0 < self.spare) }
        ensures { (result.at ≡ self.at) × (result.items ≡ self.items ++ byte ∷ []) × (result.spare + 1 ≡ self.spare) }
    {
        let Filling {} = self;
        unsafe {
            base.ptr.add(filled).write(byte);
        }
        Filling {}
    }

    /// Writes `count` zeros, after the `filled` bytes that are written.
    pub(crate) fn zeros(self, base: Base, filled: usize, count: usize) -> Filling
        requires place { (base.ptr ≡ self.at) × (filled ≡ length self.items) }
        requires room { (count ≤ self.spare) × (filled + count < 2 ^ 63) }
        ensures { (result.at ≡ self.at) × (result.items ≡ self.items ++ replicate count 0)
            × (result.spare + count ≡ self.spare) }
    {
        let mut filling = self;
        for i in 0..count {
            filling = filling.push(base, filled + i, 0);
        }
        filling
    }

    /// The same block, once each of its places holds a value.
    pub(crate) fn whole(self) -> Bytes
        requires { self.spare ≡ 0 }
        ensures { (result.at ≡ self.at) × (result.items ≡ self.items) }
    {
        let Filling {} = self;
        Bytes {}
    }
}

impl Bytes {
    ghost use Rattle.raw_column.specs.Lends.{lends_run};

    /// The same block, in which only the first `kept` bytes count as written.
    pub(crate) fn begun(self, kept: usize) -> Filling
        requires { kept ≤ length self.items }
        ensures { (result.at ≡ self.at) × (result.items ≡ take kept self.items)
            × (kept + result.spare ≡ length self.items) }
    {
        let Bytes {} = self;
        Filling {}
    }

    /// The `len` bytes from `from` on.
    #[inline(always)]
    pub(crate) fn slice(&self, base: Base, from: usize, len: usize) -> &[u8]
        requires { (base.ptr ≡ self.now.at) × (from + len ≤ length self.now.items) }
        ensures { result.now ≡ take len (drop from self.now.items) }
    {
        unsafe { slice::from_raw_parts(base.ptr.add(from), len) }
    }

    /// The `len` bytes from `from` on, to be written.
    #[inline(always)]
    pub(crate) fn slice_mut(&mut self, base: Base, from: usize, len: usize) -> &mut [u8]
        requires { (base.ptr ≡ self.old.at) × (from + len ≤ length self.old.items) }
        ensures* writes_back { sem 𝓛 (lends_run self.entry from len result) }
        ensures value { result.now ≡ take len (drop from self.old.items) }
    {
        unsafe { slice::from_raw_parts_mut(base.ptr.add(from), len) }
    }
}
