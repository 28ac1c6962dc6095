//! The list of wider numbers.

ghost use Rattle.std.specs.Prelude.{◌≡◌, ◌==◌, ◌++◌, ◌∷◌, [], OnOk};
ghost use Rattle.std.specs.Ordering.{nat_cmp};
ghost use Rattle.short_list.specs.Items.{IsInOrder};

use crate::few::{FEW, put_few_in_order};
use crate::many::{put_many_in_order, with_one_more};
use arrayvec::ArrayVec;
use std::alloc::{AllocError, Allocator};
use std::marker::Model;

#[derive(Drop)]
pub(crate) enum Kept<A: Allocator> {
    Few(ArrayVec<u64, FEW>),
    Many(Vec<u64, A>),
}

/// A list of numbers of 64 bits of which up to four stand in the value, and take no block of memory.
#[derive(Drop)]
pub struct ShortNumbers<A: Allocator> {
    pub(crate) kept: Kept<A>,
}

impl<A: Allocator> Model for ShortNumbers<A> {
    ghost use Rattle.short_list.specs.Items.{Items, kept_numbers};

    ghost Value = { Items };

    ghost view = { λ l. record { items = kept_numbers l.kept } };
}

impl<A: Allocator> ShortNumbers<A> {
    /// Of nothing.
    #[inline(always)]
    pub fn new() -> Self
        ensures { result.items ≡ [] }
    {
        ShortNumbers {
            kept: Kept::Few(ArrayVec::new()),
        }
    }

    #[inline(always)]
    pub fn as_slice(&self) -> &[u64]
        ensures { result.now ≡ self.now.items }
    {
        match &self.kept {
            Kept::Few(few) => few.as_slice(),
            Kept::Many(many) => many.as_slice(),
        }
    }

    /// Appends one. Memory can be refused only where they are more than a few.
    #[inline(always)]
    pub fn push(&mut self, alloc: A, item: u64) -> Result<(), AllocError>
        ensures { OnOk result (self.new.items ≡ self.old.items ++ item ∷ []) }
    {
        match &mut self.kept {
            Kept::Few(few) => {
                if few.try_push(item).is_ok() {
                    return Ok(());
                }
            }
            Kept::Many(many) => {
                many.push(item)?;
                return Ok(());
            }
        }
        self.spill(alloc, item)
    }

    /// Appends one to the others, which all move out of the value.
    #[inline(never)]
    fn spill(&mut self, alloc: A, item: u64) -> Result<(), AllocError>
        ensures { OnOk result (self.new.items ≡ self.old.items ++ item ∷ []) }
    {
        self.kept = Kept::Many(with_one_more(alloc, self.as_slice(), item)?);
        Ok(())
    }

    /// Puts the items in order, and leaves each once.
    pub fn put_in_order(&mut self)
        ensures { IsInOrder nat_cmp ◌==◌ self.old.items self.new.items }
    {
        match &mut self.kept {
            Kept::Few(few) => put_few_in_order(few),
            Kept::Many(many) => put_many_in_order(many),
        }
    }
}
