//! A bit for each slot: that of slot `n` is bit `n % 64` of the word `n / 64`.

ghost use Rattle.std.specs.Prelude.{◌≡◌, ◌+◌, ◌<◌, ◌≤◌, ◌^◌, ℕ, [], OnOk, IsTrue, false, true, if◌then◌else◌, length};
ghost use Rattle.std.specs.Prelude.{slice_index_or, slice_set};
ghost use Rattle.std.specs.Int.{bit_at};
ghost use Rattle.table_store.specs.SlotBits.{is_set};

use std::alloc::{AllocError, Allocator};
use std::marker::Model;

/// Bits of slots, 64 in a word. A slot past the last word has a bit that is clear.
#[derive(Drop)]
pub(crate) struct SlotBits<A: Allocator> {
    words: Vec<u64, A>,
}

impl<A: Allocator> Model for SlotBits<A> {
    ghost use Rattle.std.specs.Prelude.{Bool, List};
    ghost use Rattle.table_store.specs.SlotBits.{bits_of};

    ghost Value = { List Bool };

    ghost view = { λ bits. bits_of bits.words.items };
}

impl<A: Allocator> SlotBits<A> {
    /// No bits, which take no memory.
    pub(crate) fn new(alloc: A) -> Self
        ensures { result ≡ [] }
    {
        SlotBits {
            words: Vec::new(alloc),
        }
    }

    /// Whether the bit of a slot is set.
    #[inline(always)]
    pub(crate) fn has(&self, slot: u32) -> bool
        ensures { result ≡ slice_index_or self.now slot false }
    {
        let word = word_at(self.words.as_slice(), (slot / 64) as usize);
        word >> (slot % 64) & 1 == 1
    }

    /// Sets the bit of a slot.
    #[inline(always)]
    pub(crate) fn set(&mut self, slot: u32)
        requires { slot < length self.old }
        ensures { self.new ≡ slice_set self.old slot true }
    {
        self.words[(slot / 64) as usize] |= 1u64 << (slot % 64);
    }

    /// Clears the bit of a slot.
    #[inline(always)]
    pub(crate) fn clear(&mut self, slot: u32)
        requires { slot < length self.old }
        ensures { self.new ≡ slice_set self.old slot false }
    {
        self.words[(slot / 64) as usize] &= !(1u64 << (slot % 64));
    }

    /// Makes sure that a slot has a bit. Those that had none are clear.
    pub(crate) fn reach(&mut self, slot: u32) -> Result<(), AllocError>
        ensures within { OnOk result (slot < length self.new) }
        ensures longer { length self.old ≤ length self.new }
        ensures same { (n : ℕ) → slice_index_or self.new n false ≡ slice_index_or self.old n false }
    {
        grow(&mut self.words, (slot / 64) as usize)
    }

    /// The bits of the 64 slots from this one on, that of the first lowest.
    #[inline(always)]
    pub(crate) fn window(&self, slot: u32) -> u64
        ensures { (n : ℕ) → n < 64 → bit_at result n ≡ (if slice_index_or self.now (slot + n) false then 1 else 0) }
    {
        window_of(self.words.as_slice(), slot)
    }

    /// Whether the bits of slots that follow this one are all set, for `width` slots with it.
    #[inline(always)]
    pub(crate) fn are_set_behind(&self, slot: u32, width: u32) -> bool
        requires { width ≤ 64 }
        ensures { IsTrue result → (n : ℕ) → n + 1 < width → slice_index_or self.now (slot + (n + 1)) false ≡ true }
    {
        // a shift by 64, for a width of 0, must not happen
        let behind = u64::MAX >> ((64 - width) % 64) & !1;
        !self.window(slot) & behind == 0
    }
}

/// The word in a place, 0 past the last.
#[inline(always)]
fn word_at(words: &[u64], place: usize) -> u64
    ensures { result ≡ slice_index_or words.now place 0 }
{
    match words.get(place) {
        Some(word) => *word,
        None => 0,
    }
}

/// Makes sure that a place has a word. Of words that are added no bit is set.
fn grow<A: Allocator>(words: &mut Vec<u64, A>, place: usize) -> Result<(), AllocError>
    requires { place < 2 ^ 32 }
    ensures within { OnOk result (place < length words.new.items) }
    ensures longer { length words.old.items ≤ length words.new.items }
    ensures same { (n : ℕ) → slice_index_or words.new.items n 0 ≡ slice_index_or words.old.items n 0 }
{
    if words.len() <= place {
        words.resize(place + 1, 0)?;
    }
    Ok(())
}

/// The bits of the 64 slots from this one on: those of its word, and of the next the lowest.
#[inline(always)]
fn window_of(words: &[u64], slot: u32) -> u64
    ensures { (n : ℕ) → n < 64 → bit_at result n ≡ (if is_set words.now (slot + n) then 1 else 0) }
{
    let place = (slot / 64) as usize;
    let shift = slot % 64;
    let low = word_at(words, place) >> shift;
    if shift == 0 {
        return low;
    }
    low | word_at(words, place + 1) << (64 - shift)
}
