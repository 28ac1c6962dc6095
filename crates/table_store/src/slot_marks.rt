//! What is known of the tables in slots without a look at them.

ghost use Rattle.std.specs.Prelude.{◌≡◌, ◌+◌, ◌-◌, ◌<◌, ◌≤◌, ◌^◌, ℕ, [], OnOk, IsTrue, Some, false, true};
ghost use Rattle.std.specs.Prelude.{if◌then◌else◌, length, slice_index_or, slice_set};
ghost use Rattle.std.specs.Int.{bit_at};
ghost use Rattle.table_store.specs.Kept.{Follows, HasMarks, HaveGrown, IsTurnNoted, serial_at};

use crate::slot_bits::SlotBits;
use crate::store::Slots;
use ecs_id::ListedKey;
use std::alloc::{AllocError, Allocator};

/// Marks of slots, each a bit.
#[derive(Drop)]
pub(crate) struct SlotMarks<A: Allocator> {
    // whether the table in the slot has rows: where tables are gone through, most have none
    filled: SlotBits<A>,
    // that the slot and the one before have tables, this one with the serial after that one's; where it isn't set they
    // may have such tables all the same
    in_turn: SlotBits<A>,
}

impl<A: Allocator + Copy> SlotMarks<A> {
    /// No marks, which take no memory.
    pub(crate) fn new(alloc: A) -> Self
        ensures filled { result.filled ≡ [] }
        ensures in_turn { result.in_turn ≡ [] }
    {
        SlotMarks {
            filled: SlotBits::new(alloc),
            in_turn: SlotBits::new(alloc),
        }
    }
}

impl<A: Allocator> SlotMarks<A> {
    /// Makes sure that a slot has marks, which are clear where there were none.
    pub(crate) fn reach(&mut self, slot: u32) -> Result<(), AllocError>
        requires { slot < 2 ^ 32 - 1 }
        ensures within { OnOk result (HasMarks self.new slot) }
        ensures same { HaveGrown self.old self.new }
    {
        self.filled.reach(slot)?;
        // of the slot behind a bit is cleared with that of the slot
        self.in_turn.reach(slot + 1)
    }

    /// Whether the table in a slot has rows.
    #[inline(always)]
    pub(crate) fn is_filled(&self, slot: u32) -> bool
        ensures { result ≡ slice_index_or self.now.filled slot false }
    {
        self.filled.has(slot)
    }

    /// Of the 64 slots from this one on, those whose tables have rows.
    #[inline(always)]
    pub(crate) fn filled_bits(&self, slot: u32) -> u64
        ensures { (n : ℕ) → n < 64 → bit_at result n
            ≡ (if slice_index_or self.now.filled (slot + n) false then 1 else 0) }
    {
        self.filled.window(slot)
    }

    /// Marks the slot of a table to which a row has come, its first or another.
    #[inline(always)]
    pub(crate) fn fill(&mut self, slot: u32, first: bool)
        requires within { slot < length self.old.filled }
        requires filled { first ≡ false → slice_index_or self.old.filled slot false ≡ true }
        ensures { self.new ≡ record self.old { filled = slice_set self.old.filled slot true } }
    {
        // most tables have rows already: their marks are let be
        if first {
            self.filled.set(slot);
        }
    }

    /// Marks the slot of a table that a row has left: whether it has others.
    #[inline(always)]
    pub(crate) fn take_row(&mut self, slot: u32, stays_filled: bool)
        requires within { slot < length self.old.filled }
        requires filled { slice_index_or self.old.filled slot false ≡ true }
        ensures { self.new ≡ record self.old { filled = slice_set self.old.filled slot stays_filled } }
    {
        if !stays_filled {
            self.filled.clear(slot);
        }
    }

    /// Marks the slot of a table that was made, if the slot before has the table that was made before.
    pub(crate) fn note_turn(&mut self, tables: &Slots<A>, key: ListedKey)
        requires within { key.slot < length self.old.in_turn }
        ensures filled { self.new.filled ≡ self.old.filled }
        ensures noted { IsTurnNoted tables.now key self.old.in_turn self.new.in_turn }
    {
        if comes_in_turn(tables, key) {
            self.in_turn.set(key.slot());
        }
    }

    /// Marks that the table in a slot is gone.
    pub(crate) fn forget_turn(&mut self, slot: u32)
        requires room { slot + 1 < length self.old.in_turn }
        requires small { slot < 2 ^ 32 - 1 }
        ensures { self.new ≡ record self.old {
          in_turn = slice_set (slice_set self.old.in_turn slot false) (slot + 1) false;
        } }
    {
        self.in_turn.clear(slot);
        self.in_turn.clear(slot + 1);
    }

    /// Whether the slots that follow this one are marked as in turn, `width` slots with it.
    #[inline(always)]
    pub(crate) fn are_in_turn(&self, slot: u32, width: u32) -> bool
        requires { width ≤ 64 }
        ensures { IsTrue result → (n : ℕ) → n + 1 < width
            → slice_index_or self.now.in_turn (slot + (n + 1)) false ≡ true }
    {
        self.in_turn.are_set_behind(slot, width)
    }
}

/// Whether the slot before that of a key has the table of the serial before.
fn comes_in_turn<A: Allocator>(tables: &Slots<A>, key: ListedKey) -> bool
    ensures { IsTrue result → (n : ℕ) → key.slot ≡ n + 1 → Follows (serial_at tables.now n) (Some key.serial) }
{
    let Some(before) = key.slot().checked_sub(1) else {
        return false;
    };
    match tables.get(before as usize) {
        Some(slot) => slot.serial.checked_add(1) == Some(key.serial()),
        None => false,
    }
}
