//! For each kind of change, the stored queries that listen for it.
ghost use Rattle.std.specs.Prelude.{◌≡◌, ◌↔◌, ◌++◌, [], ℕ, Contains, OnErr, OnOk, false, flat_map};
ghost use Rattle.std.specs.List.Sorted.{IsStrictlyIncreasing};
ghost use Rattle.watch_index.specs.Listed.{Adds, AreSame, Drops, is_among, is_listed, listed};
ghost use Rattle.watch_index.specs.Occasions.{happening};
ghost use Rattle.watch_index.specs.declared.occasion.Occasion.{Occasion as Awaited};

use crate::gathering::{Happened, gather, put_in_order};
use crate::lists::{Lists, list_all, push_list, unlist_all};
use crate::marks::Marks;
use crate::occasion::Occasion;
use indexmap::IndexMap;
use secret_hashing::Hashing;
use short_list::ShortNumbers;
use std::alloc::{AllocError, Allocator, Global};
use std::hash::RandomState;
use std::marker::Model;

/// For each kind of change (an `Occasion`), the numbers of the stored queries that listen for it.
///
/// `enter` and `leave` take time in the number of occasions of the stored query, and for each of their lists at most
/// one move for every 64 numbers that lie side by side. `led` takes time in the number of changes and of the numbers
/// that it answers, however many other queries are stored. `leave` takes no memory.
#[derive(Drop)]
pub struct WatchIndex<A: Allocator = Global> {
    lists: Lists<A>,
    // A mark is cleared only together with all others, when the index becomes empty.
    marks: Marks,
}

impl<A: Allocator> Model for WatchIndex<A> {
    ghost use Rattle.watch_index.specs.Listed.{AreMarked, Listings};

    ghost Value = { Listings };

    ghost view = { λ index. index.lists.entries };

    ghost invariant = { λ index. AreMarked index.marks.words index.lists.entries };
}

impl<A: Allocator + Copy> WatchIndex<A> {
    /// An index without stored queries, which hashes occasions with these random keys. It takes no memory until the
    /// first query is entered.
    pub fn new(alloc: A, random: RandomState) -> Self
        ensures { result ≡ [] }
    {
        WatchIndex {
            lists: IndexMap::with_hasher(alloc, Hashing::new(random)),
            marks: Marks::none(),
        }
    }

    /// Enters a stored query under a number that isn't in use, for each occasion that it listens for.
    ///
    /// Where memory is refused, each list has the same numbers as before.
    pub fn enter(&mut self, number: u64, occasions: &[Occasion]) -> Result<(), AllocError>
        requires free { (o : Awaited) → is_listed self.old o number ≡ false }
        ensures entered { OnOk result (Adds self.old self.new (is_among occasions.now) number) }
        ensures refused { OnErr result (AreSame self.old self.new) }
    {
        self.marks.set_all(occasions);
        if let Err(error) = list_all(&mut self.lists, occasions, number) {
            unlist_all(&mut self.lists, occasions, number);
            return Err(error);
        }
        Ok(())
    }

    /// Puts the numbers of the stored queries that listen for one of these changes into an empty list, in ascending
    /// order. Fails where memory is refused. The list is filled in place: where no query listens, to move it would take
    /// longer than all the rest.
    #[inline(always)]
    pub fn led(
        &self,
        happened: Happened<'_>,
        numbers: &mut ShortNumbers<A>,
    ) -> Result<(), AllocError>
        requires empty { numbers.old.items ≡ [] }
        ensures ascend { OnOk result (IsStrictlyIncreasing numbers.new.items) }
        ensures exact { OnOk result ((n : ℕ) → Contains numbers.new.items n
            ↔ Contains (flat_map (listed self.now) (happening happened.entry.lives (happened.entry.came).now
            (happened.entry.went).now
            (happened.entry.written).now)) n) }
    {
        gather(self, happened, numbers)?;
        put_in_order(numbers);
        Ok(())
    }

    /// Adds the numbers listed for an occasion. An occasion without a mark isn't looked up.
    #[inline(always)]
    pub(crate) fn push_listed(
        &self,
        occasion: &Occasion,
        numbers: &mut ShortNumbers<A>,
    ) -> Result<(), AllocError>
        ensures { OnOk result (numbers.new.items ≡ numbers.old.items ++ listed self.now occasion.now) }
    {
        if self.marks.has(occasion) {
            // (a copy, so that an occasion that isn't looked up needn't be kept in memory)
            let wanted = *occasion;
            return push_list(&self.lists, &wanted, numbers);
        }
        Ok(())
    }
}

impl<A: Allocator> WatchIndex<A> {
    /// Takes the stored query of a number out of the lists of its occasions. It takes no memory.
    pub fn leave(&mut self, number: u64, occasions: &[Occasion])
        ensures { Drops self.old self.new (is_among occasions.now) number }
    {
        unlist_all(&mut self.lists, occasions, number);
        if !occasions.is_empty() && self.lists.is_empty() {
            self.marks = Marks::none();
        }
    }
}
