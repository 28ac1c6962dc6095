//! An allocator for tests, which refuses growths: it shows what a call leaves when memory is refused.
//!
//! ```text
//! for allowed in 0..32 {
//!     let heap = Refusing::new(rt.alloc());
//!     let mut subject = Subject::new(&heap);      // a fresh one each round: growth that stayed would change the count
//!     heap.refuse_after(allowed);
//!     let done = subject.change();
//!     heap.refuse_none();
//!     if done.is_ok() {
//!         break;
//!     }
//!     // .. the subject is as before
//!     refusals = allowed + 1;
//! }
//! // .. refusals is the number of growths of the call, so they really were refused
//! ```
#![tactic(auto)]

use std::alloc::{AllocError, Allocator};
use std::cell::Cell;

/// Passes each call on to `inner`, until it is told to refuse. It is shared by a `&`, which is an allocator too.
///
/// A block that it gave out is freed through it at any time, also while it refuses.
pub struct Refusing<B: Allocator> {
    inner: B,
    left: Cell<u64>,
}

impl<B: Allocator> Refusing<B> {
    /// Refuses nothing yet.
    pub fn new(inner: B) -> Refusing<B> {
        Refusing {
            inner,
            left: Cell::new(u64::MAX),
        }
    }

    /// From now on `allowed` blocks are given out, and then none.
    pub fn refuse_after(&self, allowed: u64) {
        self.left.set(allowed);
    }

    /// From now on nothing is refused.
    pub fn refuse_none(&self) {
        self.left.set(u64::MAX);
    }

    /// How many blocks are still given out. `u64::MAX` stands for any number.
    pub fn left(&self) -> u64 {
        self.left.get()
    }
}

impl<B: Allocator> Drop for Refusing<B> {
    fn drop(self) {
        let Self { inner: _, left: _ } = self;
    }
}

/// Whether the next block is refused. If not, it counts.
fn refuses(left: &Cell<u64>) -> bool {
    let allowed = left.get();
    if allowed == 0 {
        return true;
    }
    if allowed < u64::MAX {
        left.set(allowed - 1);
    }
    false
}

unsafe impl<B: Allocator> Allocator for Refusing<B> {
    ghost dealloc_token = { λ heap ty ptr. B.dealloc_token heap.inner ty ptr };

    fn allocate(&self, size: usize, align: usize) -> Result<*mut u8, AllocError> {
        if refuses(&self.left) {
            return Err(AllocError);
        }
        self.inner.allocate(size, align)
    }

    unsafe fn deallocate(&self, ptr: *mut u8, size: usize, align: usize) {
        self.inner.deallocate(ptr, size, align);
    }
}
