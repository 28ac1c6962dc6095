//! Lists that grow out of line.
//!
//! ```text
//! list_growth::push(&mut ids, id)?;
//! ```
#![tactic(auto)]

ghost use Rattle.std.specs.Prelude.{◌≡◌, ◌+◌, ◌<◌, ◌≤◌, ◌++◌, ◌∷◌, [], if◌then◌else◌, is_ok, OnOk, vec_capacity};
ghost use Rattle.std.specs.Prelude.{vec_len};

use std::alloc::{AllocError, Allocator};

// From so many items on a list grows to eight times its length.
const LONG: usize = 64;

// From so many on it grows to twice its length again, as each list does at first.
const VERY_LONG: usize = 8192;

/// Puts an item last, as `Vec::push` does.
#[inline(always)]
pub fn push<T: Copy, A: Allocator>(list: &mut Vec<T, A>, item: T) -> Result<(), AllocError>
    ensures items { list.new.items ≡ (if is_ok result then list.old.items ++ item ∷ [] else list.old.items) }
    ensures len { vec_len list.new ≡ (if is_ok result then vec_len list.old + 1 else vec_len list.old) }
    ensures capacity { vec_capacity list.old ≤ vec_capacity list.new }
{
    make_room(list)?;
    list.push_reserved(item);
    Ok(())
}

/// Makes room for one more, as `Vec::reserve` does. A list that is full and long gets room for many more.
#[inline(always)]
pub fn make_room<T, A: Allocator>(list: &mut Vec<T, A>) -> Result<(), AllocError>
    ensures items { list.new.items ≡ list.old.items }
    ensures len { vec_len list.new ≡ vec_len list.old }
    ensures room { OnOk result (vec_len list.new < vec_capacity list.new) }
    ensures capacity { vec_capacity list.old ≤ vec_capacity list.new }
{
    if list.len() < list.capacity() {
        return Ok(());
    }
    lengthen(list)
}

/// Makes room for so many more, as `Vec::reserve` does. Mostly that is one.
#[inline(always)]
pub fn reserve<T, A: Allocator>(list: &mut Vec<T, A>, additional: usize) -> Result<(), AllocError>
    ensures items { list.new.items ≡ list.old.items }
    ensures len { vec_len list.new ≡ vec_len list.old }
    ensures room { OnOk result (vec_len list.new + additional ≤ vec_capacity list.new) }
    ensures capacity { vec_capacity list.old ≤ vec_capacity list.new }
{
    if additional == 1 && list.len() < list.capacity() {
        return Ok(());
    }
    grow(list, additional)
}

// For how many more a list of this length gets room when it is full: for one, where twice the room is enough.
fn ahead(len: usize) -> usize
    ensures { 0 < result }
{
    if LONG <= len && len < VERY_LONG {
        7 * len
    } else {
        1
    }
}

// A growth of a list that takes one item after another.
#[cold]
#[inline(never)]
fn lengthen<T, A: Allocator>(list: &mut Vec<T, A>) -> Result<(), AllocError>
    ensures items { list.new.items ≡ list.old.items }
    ensures len { vec_len list.new ≡ vec_len list.old }
    ensures room { OnOk result (vec_len list.new < vec_capacity list.new) }
    ensures capacity { vec_capacity list.old ≤ vec_capacity list.new }
{
    list.reserve(ahead(list.len()))?;
    Ok(())
}

// A list grows seldom. In line, what that takes would stand between what comes before it and after it.
#[cold]
#[inline(never)]
fn grow<T, A: Allocator>(list: &mut Vec<T, A>, additional: usize) -> Result<(), AllocError>
    ensures items { list.new.items ≡ list.old.items }
    ensures len { vec_len list.new ≡ vec_len list.old }
    ensures room { OnOk result (vec_len list.new + additional ≤ vec_capacity list.new) }
    ensures capacity { vec_capacity list.old ≤ vec_capacity list.new }
{
    list.reserve(additional)
}
