//! The list of numbers for each occasion.
ghost use Rattle.std.specs.Prelude.{◌≡◌, ◌++◌, OnErr, OnOk};
ghost use Rattle.std.specs.Map.{lookup};
ghost use Rattle.std.specs.Option.{option_copied};
ghost use Rattle.watch_index.specs.Listed.{Adds, Drops, Keeps, is_among, listed};
ghost use Rattle.watch_index.specs.SameOccasion.{occasion_eq};

use crate::numbers::Numbers;
use crate::occasion::Occasion;
use indexmap::IndexMap;
use secret_hashing::Hashing;
use short_list::ShortNumbers;
use std::alloc::{AllocError, Allocator};

// No list is empty: the entry of an occasion is removed with the last number of its list.
pub type Lists<A> = IndexMap<Occasion, Numbers<A>, Hashing, A>;

/// Up to so many lists are searched one by one: to hash the occasion would take longer.
const FEW_LISTS: usize = 8;

/// Puts the number into the list of the occasion, unless it is there.
fn list<A: Allocator + Copy>(
    lists: &mut Lists<A>,
    occasion: &Occasion,
    number: u64,
) -> Result<(), AllocError>
    ensures listed { OnOk result (Adds lists.old.entries lists.new.entries (occasion_eq occasion.now) number) }
    ensures refused { OnErr result (Keeps lists.old.entries lists.new.entries (occasion_eq occasion.now) number) }
{
    let alloc = *lists.allocator();
    if let Some(list) = lists.get_mut(occasion) {
        list.insert(number)?;
        return Ok(());
    }
    lists.insert(*occasion, Numbers::one(alloc, number)?)?;
    Ok(())
}

/// Takes the number out of the list of the occasion, if it is there.
fn unlist<A: Allocator>(lists: &mut Lists<A>, occasion: &Occasion, number: u64)
    ensures { Drops lists.old.entries lists.new.entries (occasion_eq occasion.now) number }
{
    let Some(list) = lists.get_mut(occasion) else {
        return;
    };
    list.remove(number);
    if list.is_empty() {
        lists.swap_remove(occasion);
    }
}

/// Puts the number into the list of each of these occasions. After an error some of the lists have it.
pub fn list_all<A: Allocator + Copy>(
    lists: &mut Lists<A>,
    occasions: &[Occasion],
    number: u64,
) -> Result<(), AllocError>
    ensures listed { OnOk result (Adds lists.old.entries lists.new.entries (is_among occasions.now) number) }
    ensures refused { OnErr result (Keeps lists.old.entries lists.new.entries (is_among occasions.now) number) }
{
    for occasion in occasions {
        list(lists, occasion, number)?;
    }
    Ok(())
}

/// Takes the number out of the list of each of these occasions.
pub fn unlist_all<A: Allocator>(lists: &mut Lists<A>, occasions: &[Occasion], number: u64)
    ensures { Drops lists.old.entries lists.new.entries (is_among occasions.now) number }
{
    for occasion in occasions {
        unlist(lists, occasion, number);
    }
}

/// Appends the numbers listed for an occasion.
pub fn push_list<A: Allocator + Copy>(
    lists: &Lists<A>,
    occasion: &Occasion,
    numbers: &mut ShortNumbers<A>,
) -> Result<(), AllocError>
    ensures { OnOk result (numbers.new.items ≡ numbers.old.items ++ listed lists.now.entries occasion.now) }
{
    if let Some(list) = find_list(lists, occasion) {
        let alloc = *lists.allocator();
        list.push_to(alloc, numbers)?;
    }
    Ok(())
}

/// The list of an occasion, if it has one.
fn find_list<'l, A: Allocator>(lists: &'l Lists<A>, occasion: &Occasion) -> Option<&'l Numbers<A>>
    ensures { option_copied result ≡ lookup (occasion_eq occasion.now) lists.now.entries }
{
    if lists.len() > FEW_LISTS {
        return lists.get(occasion);
    }
    find_among(lists, occasion)
}

/// The same, by a search through all lists.
#[inline(always)]
fn find_among<'l, A: Allocator>(lists: &'l Lists<A>, occasion: &Occasion) -> Option<&'l Numbers<A>>
    ensures { option_copied result ≡ lookup (occasion_eq occasion.now) lists.now.entries }
{
    for at in 0..lists.len() {
        let Some((other, list)) = lists.get_index(at) else {
            return None;
        };
        if is_same(occasion, other) {
            return Some(list);
        }
    }
    None
}

/// Whether two occasions are equal.
#[inline(always)]
fn is_same(one: &Occasion, other: &Occasion) -> bool
    ensures { result ≡ occasion_eq one.now other.now }
{
    one == other
}
