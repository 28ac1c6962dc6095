//! Bits in words: that of a number `e` is bit `e % 64` of the word `e / 64`.

ghost use Rattle.std.specs.Prelude.{◌≡◌, ◌↔◌, ◌<◌, ◌≤◌, ◌*◌, ◌==◌, ◌&&◌, ◌||◌, ◌++◌, [], ◌∷◌, ℕ, All, IsTrue, OnOk};
ghost use Rattle.std.specs.Prelude.{filter, if◌then◌else◌, length, not};
ghost use Rattle.std.specs.Prelude.{slice_index};
ghost use Rattle.std.specs.List.{list_any};
ghost use Rattle.ecs_model.specs.BitWords.{has_bit};
ghost use Rattle.entity_set.specs.Members.{has_else, indexes_of};

use std::alloc::{AllocError, Allocator};

/// Whether the bit of a number is set.
pub(crate) fn has(words: &[u64], number: u32) -> bool
    ensures { result ≡ has_bit words.now number }
{
    let place = (number / 64) as usize;
    if place >= words.len() {
        return false;
    }
    words[place] >> (number % 64) & 1 == 1
}

/// Sets the bit of a number. Where it has no word yet, words are added up to its own.
///
/// Fails where memory is refused.
pub(crate) fn put<A: Allocator>(words: &mut Vec<u64, A>, number: u32) -> Result<(), AllocError>
    requires few { length words.old.items ≤ 67108864 }
    ensures has { OnOk result ((e : ℕ) → has_bit words.new.items e ≡ (e == number || has_bit words.old.items e)) }
    ensures few { length words.new.items ≤ 67108864 }
{
    grow(words, number)?;
    set(words.as_mut_slice(), number);
    Ok(())
}

/// Adds words up to that of a number.
fn grow<A: Allocator>(words: &mut Vec<u64, A>, number: u32) -> Result<(), AllocError>
    requires few { length words.old.items ≤ 67108864 }
    ensures same { OnOk result ((e : ℕ) → has_bit words.new.items e ≡ has_bit words.old.items e) }
    ensures within { OnOk result (number < 64 * length words.new.items) }
    ensures few { length words.new.items ≤ 67108864 }
{
    let place = (number / 64) as usize;
    if place < words.len() {
        return Ok(());
    }
    words.resize(place + 1, 0)?;
    Ok(())
}

/// Sets the bit of a number that has a word.
fn set(words: &mut [u64], number: u32)
    requires within { number < 64 * length words.old }
    ensures length { length words.new ≡ length words.old }
    ensures has { (e : ℕ) → has_bit words.new e ≡ (e == number || has_bit words.old e) }
{
    words[(number / 64) as usize] |= 1u64 << (number % 64);
}

/// Clears the bit of a number.
pub(crate) fn take_out<A: Allocator>(words: &mut Vec<u64, A>, number: u32)
    ensures length { length words.new.items ≡ length words.old.items }
    ensures has { (e : ℕ) → has_bit words.new.items e ≡ (has_bit words.old.items e && not (e == number)) }
{
    clear(words.as_mut_slice(), number);
}

fn clear(words: &mut [u64], number: u32)
    ensures length { length words.new ≡ length words.old }
    ensures has { (e : ℕ) → has_bit words.new e ≡ (has_bit words.old e && not (e == number)) }
{
    let place = (number / 64) as usize;
    if place < words.len() {
        words[place] &= !(1u64 << (number % 64));
    }
}

/// Whether all of these have words.
pub(crate) fn have_words(words: &[u64], numbers: &[u32]) -> bool
    ensures { IsTrue result ↔ All (λ e. e < 64 * length words.now) numbers.now }
{
    for number in numbers {
        if (*number / 64) as usize >= words.len() {
            return false;
        }
    }
    true
}

/// Clears the bits of some, and then sets those of others, as far as these have words.
pub(crate) fn exchange<A: Allocator>(words: &mut Vec<u64, A>, left: &[u32], entered: &[u32])
    ensures length { length words.new.items ≡ length words.old.items }
    ensures has { (e : ℕ) → e < 64 * length words.old.items
        → has_bit words.new.items e ≡ ((has_bit words.old.items e && not (list_any (λ x. x == e) left.now))
        || list_any (λ x. x == e) entered.now) }
{
    exchange_in(words.as_mut_slice(), left, entered);
}

fn exchange_in(words: &mut [u64], left: &[u32], entered: &[u32])
    ensures length { length words.new ≡ length words.old }
    ensures has { (e : ℕ) → e < 64 * length words.old
        → has_bit words.new e ≡ ((has_bit words.old e && not (list_any (λ x. x == e) left.now))
        || list_any (λ x. x == e) entered.now) }
{
    for number in left {
        clear(words, *number);
    }
    for number in entered {
        set_if_within(words, *number);
    }
}

/// Sets the bit of a number, if it has a word.
fn set_if_within(words: &mut [u64], number: u32)
    ensures length { length words.new ≡ length words.old }
    ensures has { (e : ℕ) → e < 64 * length words.old → has_bit words.new e ≡ (e == number || has_bit words.old e) }
{
    let place = (number / 64) as usize;
    if place < words.len() {
        set(words, number);
    }
}

/// Adds the numbers of one word that are set in some words and not in others.
pub(crate) fn push_others<A: Allocator>(
    words: &[u64],
    others: &[u64],
    place: usize,
    found: &mut Vec<u32, A>,
) -> Result<(), AllocError>
    requires few { place < 67108864 }
    ensures { OnOk result (found.new.items ≡ found.old.items ++ filter (has_else words.now others.now)
        (indexes_of place)) }
{
    let others_are_in = word_at(words, place) & !word_at(others, place) == 0;
    if others_are_in {
        return Ok(());
    }
    let first = place as u32 * 64;
    for bit in 0..64u32 {
        let number = first + bit;
        push_if(has_else(words, others, number), number, found)?;
    }
    Ok(())
}

/// The word at a place, none of whose bits is set where there is no such word.
fn word_at(words: &[u64], place: usize) -> u64
    ensures { result ≡ slice_index words.now place }
{
    if place < words.len() { words[place] } else { 0 }
}

fn has_else(words: &[u64], others: &[u64], number: u32) -> bool
    ensures { result ≡ has_else words.now others.now number }
{
    has(words, number) && !has(others, number)
}

fn push_if<A: Allocator>(
    wanted: bool,
    number: u32,
    numbers: &mut Vec<u32, A>,
) -> Result<(), AllocError>
    ensures { OnOk result (numbers.new.items ≡ numbers.old.items ++ (if wanted then number ∷ [] else [])) }
{
    if wanted {
        numbers.push(number)?;
    }
    Ok(())
}
