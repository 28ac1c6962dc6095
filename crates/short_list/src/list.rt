//! The list.

ghost use Rattle.std.specs.Prelude.{◌≡◌, ◌==◌, ◌++◌, ◌∷◌, [], OnOk, length};
ghost use Rattle.std.specs.Ordering.{nat_cmp};
ghost use Rattle.short_list.specs.Items.{IsInOrder};

use crate::few::{FEW, put_few_in_order};
use crate::many::{put_many_in_order, with_one_more};
use arrayvec::ArrayVec;
use std::alloc::{AllocError, Allocator};
use std::marker::Model;

#[derive(Drop)]
pub(crate) enum Kept<A: Allocator> {
    Few(ArrayVec<u32, FEW>),
    Many(Vec<u32, A>),
}

/// A list of numbers of which up to four stand in the value, and take no block of memory.
///
/// It isn't made for any type of items: a value that holds some of a type parameter has no known size, which each
/// caller would have to answer for. So `ShortNumbers` is a second one.
#[derive(Drop)]
pub struct ShortList<A: Allocator> {
    pub(crate) kept: Kept<A>,
}

impl<A: Allocator> Model for ShortList<A> {
    ghost use Rattle.short_list.specs.Items.{Items, kept_items};

    ghost Value = { Items };

    ghost view = { λ l. record { items = kept_items l.kept } };
}

impl<A: Allocator> ShortList<A> {
    /// Of nothing.
    #[inline(always)]
    pub fn new() -> Self
        ensures { result.items ≡ [] }
    {
        ShortList {
            kept: Kept::Few(ArrayVec::new()),
        }
    }

    /// Of the items of a list.
    pub fn from_vec(items: Vec<u32, A>) -> Self
        ensures { result.items ≡ items.items }
    {
        ShortList {
            kept: Kept::Many(items),
        }
    }

    #[inline(always)]
    pub fn as_slice(&self) -> &[u32]
        ensures { result.now ≡ self.now.items }
    {
        match &self.kept {
            Kept::Few(few) => few.as_slice(),
            Kept::Many(many) => many.as_slice(),
        }
    }

    #[inline(always)]
    pub fn len(&self) -> usize
        ensures { result ≡ length self.now.items }
    {
        self.as_slice().len()
    }

    /// Appends one. Memory can be refused only where they are more than a few.
    #[inline(always)]
    pub fn push(&mut self, alloc: A, item: u32) -> Result<(), AllocError>
        ensures { OnOk result (self.new.items ≡ self.old.items ++ item ∷ []) }
    {
        match &mut self.kept {
            Kept::Few(few) => {
                if few.try_push(item).is_ok() {
                    return Ok(());
                }
            }
            Kept::Many(many) => {
                many.push(item)?;
                return Ok(());
            }
        }
        self.spill(alloc, item)
    }

    /// Appends one to the others, which all move out of the value.
    #[inline(never)]
    fn spill(&mut self, alloc: A, item: u32) -> Result<(), AllocError>
        ensures { OnOk result (self.new.items ≡ self.old.items ++ item ∷ []) }
    {
        self.kept = Kept::Many(with_one_more(alloc, self.as_slice(), item)?);
        Ok(())
    }

    /// Puts the items in order, and leaves each once.
    pub fn put_in_order(&mut self)
        ensures { IsInOrder nat_cmp ◌==◌ self.old.items self.new.items }
    {
        match &mut self.kept {
            Kept::Few(few) => put_few_in_order(few),
            Kept::Many(many) => put_many_in_order(many),
        }
    }
}
