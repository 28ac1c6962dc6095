//! The text of a name or a handle; a short one is kept inside the value.
ghost use Rattle.std.specs.Prelude.{◌≡◌, IfOk};

use arrayvec::ArrayVec;
use std::alloc::{AllocError, Allocator};
use std::marker::Model;

// A text of up to so many bytes takes no block of its own.
const FEW: usize = 24;

#[derive(Drop)]
pub(crate) enum Kept<A: Allocator> {
    Few(ArrayVec<u8, FEW>),
    Many(Vec<u8, A>),
}

/// A text that never changes. A short one takes no memory besides the value.
#[derive(Drop)]
pub(crate) struct Text<A: Allocator> {
    pub(crate) kept: Kept<A>,
}

impl<A: Allocator> Model for Text<A> {
    ghost use Rattle.std.specs.Prelude.{List, ℕ};
    ghost use Rattle.watch_events.specs.Text.{kept_bytes};

    ghost Value = { List ℕ };

    ghost view = { λ t. kept_bytes t.kept };
}

impl<A: Allocator> Text<A> {
    /// A text of these bytes. Takes memory, and can fail, only where it is longer than a short one.
    pub(crate) fn from_slice(alloc: A, bytes: &[u8]) -> Result<Text<A>, AllocError>
        ensures { IfOk result (λ text. text ≡ bytes.now) }
    {
        if bytes.len() <= FEW {
            let mut few = ArrayVec::new();
            if few.try_extend_from_slice(bytes).is_ok() {
                return Ok(Text {
                    kept: Kept::Few(few),
                });
            }
        }
        Text::of_many(alloc, bytes)
    }

    /// The same, in a block of its own.
    #[inline(never)]
    fn of_many(alloc: A, bytes: &[u8]) -> Result<Text<A>, AllocError>
        ensures { IfOk result (λ text. text ≡ bytes.now) }
    {
        Ok(Text {
            kept: Kept::Many(Vec::from_slice(alloc, bytes)?),
        })
    }

    /// A text from bytes that were written.
    pub(crate) fn from_vec(bytes: Vec<u8, A>) -> Text<A>
        ensures { result ≡ bytes.items }
    {
        Text {
            kept: Kept::Many(bytes),
        }
    }

    pub(crate) fn as_slice(&self) -> &[u8]
        ensures { result.now ≡ self.now }
    {
        match &self.kept {
            Kept::Few(few) => few.as_slice(),
            Kept::Many(many) => many.as_slice(),
        }
    }
}
