//! Tables whose serials and slots go side by side, a bit for each.

ghost use Rattle.std.specs.Prelude.{◌≡◌, ◌<◌, ◌≤◌, ◌==◌, ◌++◌, ◌∷◌, [], IfSome, IsTrue, OnOk, filter, if◌then◌else◌};
ghost use Rattle.std.specs.Prelude.{◌+◌, ◌^◌, IsSome, OnErr, is_some, length, take, true, ℕ};
ghost use Rattle.std.specs.Int.{bit_at};
ghost use Rattle.std.specs.List.{Contains};
ghost use Rattle.ecs_id.specs.declared.TableKey.{TableKey};
ghost use Rattle.query_cache.specs.Kept.{has_rows};
ghost use Rattle.query_cache.specs.TableList.{IsBlock, key_at, keeps, keys_of};
ghost use Rattle.table_store.specs.Store.{table_at};

use ecs_id::{ListedKey, TableKey};
use std::alloc::{AllocError, Allocator, Global};
use table_store::TableStore;

/// Which tables stay in a list.
#[derive(Drop)]
pub enum Keep<'s, A: Allocator = Global> {
    /// Those that stand in a store.
    Standing(&'s TableStore<A>),
    /// Those of serials up to this one.
    UpTo(u128),
}

impl<A: Allocator> Keep<'_, A> {
    #[inline(always)]
    fn keeps(&self, key: TableKey) -> bool
        ensures { result ≡ keeps self.now key }
    {
        match self {
            Keep::Standing(tables) => tables.get(key).is_some(),
            Keep::UpTo(serial) => key.serial <= *serial,
        }
    }

    /// Whether it is known at once that `width` tables all stay whose slots and serials follow one another from this
    /// one on.
    #[inline(always)]
    fn keeps_run(&self, first: TableKey, width: u32) -> bool
        requires { width ≤ 64 }
        ensures { IsTrue result → (n : ℕ) → n < width → keeps self.now (record {
          slot = first.slot + n;
          serial = first.serial + n;
        }) ≡ true }
    {
        match self {
            Keep::Standing(tables) => tables.stand_in_turn(first, width),
            Keep::UpTo(_) => false,
        }
    }
}

/// Tables whose serials and slots are by some number up to 63 greater than those of the first.
#[derive(Clone, Copy)]
pub(crate) struct Block {
    /// Of the first.
    pub(crate) serial: u64,
    /// Bit `n` is set where the table is listed that comes `n` after the first.
    pub(crate) bits: u64,
    /// Of the first.
    pub(crate) slot: u32,
    /// No bit is set from here on.
    pub(crate) width: u32,
}

impl Block {
    /// Of one table.
    pub(crate) fn of(key: ListedKey) -> Block
        ensures keys { keys_of result ≡ key ∷ [] }
        ensures block { IsBlock result }
    {
        Block {
            serial: key.serial(),
            bits: 1,
            slot: key.slot(),
            width: 1,
        }
    }

    /// Appends a table, and answers whether it has a bit here for that.
    #[inline(always)]
    pub(crate) fn put(&mut self, key: ListedKey) -> bool
        requires block { IsBlock self.old }
        ensures keys { keys_of self.new ≡ keys_of self.old ++ (if result then key ∷ [] else []) }
        ensures block { IsBlock self.new }
    {
        let Some(bit) = self.bit_behind(key) else {
            return false;
        };
        self.bits |= 1u64 << bit;
        self.width = bit + 1;
        true
    }

    /// The bit of a table, if it has one after all others.
    #[inline(always)]
    fn bit_behind(&self, key: ListedKey) -> Option<u32>
        ensures behind { IfSome result (λ bit. self.now.width ≤ bit) }
        ensures small { IfSome result (λ bit. bit < 64) }
        ensures key { IfSome result (λ bit. key_at self.now bit ≡ key) }
        ensures slot { IfSome result (λ bit. self.now.slot + bit < 2 ^ 32) }
        ensures serial { IfSome result (λ bit. self.now.serial + bit < 2 ^ 64) }
    {
        let behind = key.serial().checked_sub(self.serial)?;
        if behind >= 64 || u64::from(key.slot()) != u64::from(self.slot) + behind {
            return None;
        }
        let bit = behind as u32;
        if bit < self.width {
            return None;
        }
        Some(bit)
    }

    /// Appends the tables to a list. Where memory is refused, some may be after what was there.
    pub(crate) fn push_onto<A: Allocator>(
        &self,
        keys: &mut Vec<ListedKey, A>,
    ) -> Result<(), AllocError>
        requires block { IsBlock self.now }
        ensures pushed { OnOk result (keys.new.items ≡ keys.old.items ++ keys_of self.now) }
        ensures front { OnErr result (take (length keys.old.items) keys.new.items ≡ keys.old.items) }
    {
        let mut left = self.bits;
        'bits: while left != 0 {
            let bit = left.trailing_zeros();
            self.push_one(bit, keys)?;
            left &= !(1u64 << bit);
        }
        Ok(())
    }

    /// Appends the table of a bit to a list.
    #[inline(always)]
    fn push_one<A: Allocator>(
        &self,
        bit: u32,
        keys: &mut Vec<ListedKey, A>,
    ) -> Result<(), AllocError>
        requires block { IsBlock self.now }
        requires within { bit < self.now.width }
        ensures pushed { OnOk result (keys.new.items ≡ keys.old.items ++ key_at self.now bit ∷ []) }
        ensures refused { OnErr result (keys.new.items ≡ keys.old.items) }
    {
        let Some(key) = ListedKey::of(self.key_at(bit)) else {
            unreachable!();
        };
        keys.push(key)?;
        Ok(())
    }

    /// Appends those tables to a list that have rows. Where memory is refused, some may be after what was there.
    pub(crate) fn push_filled_onto<A: Allocator, B: Allocator>(
        &self,
        store: &TableStore<B>,
        keys: &mut Vec<ListedKey, A>,
    ) -> Result<(), AllocError>
        requires block { IsBlock self.now }
        requires stand { (k : TableKey) → Contains (keys_of self.now) k → IsSome (table_at store.now k) }
        ensures pushed { OnOk result (keys.new.items ≡ keys.old.items
            ++ filter (has_rows store.now) (keys_of self.now)) }
        ensures front { OnErr result (take (length keys.old.items) keys.new.items ≡ keys.old.items) }
    {
        let filled = Block {
            bits: self.bits & store.filled_bits(self.slot),
            ..*self
        };
        // of most blocks no table has rows
        if filled.bits == 0 {
            return Ok(());
        }
        filled.push_onto(keys)
    }

    /// How many tables it has.
    #[inline(always)]
    pub(crate) fn count(&self) -> u32
        requires block { IsBlock self.now }
        ensures { result ≡ length (keys_of self.now) }
    {
        self.bits.count_ones()
    }

    /// Leaves those that are to stay.
    pub(crate) fn retain<A: Allocator>(&mut self, keep: &Keep<'_, A>)
        requires block { IsBlock self.old }
        ensures keys { keys_of self.new ≡ filter (keeps keep.now) (keys_of self.old) }
        ensures block { IsBlock self.new }
    {
        // mostly all stay
        if keep.keeps_run(self.first(), self.width) {
            return;
        }
        let mut kept = self.bits;
        for bit in 0..self.width {
            if !keep.keeps(self.key_at(bit)) {
                kept &= !(1u64 << bit);
            }
        }
        self.bits = kept;
    }

    /// The first table, whether it is listed or not.
    #[inline(always)]
    fn first(&self) -> TableKey
        ensures slot { result.slot ≡ self.now.slot }
        ensures serial { result.serial ≡ self.now.serial }
    {
        TableKey {
            slot: self.slot,
            serial: u128::from(self.serial),
        }
    }

    /// The table of a bit.
    #[inline(always)]
    fn key_at(&self, bit: u32) -> TableKey
        requires block { IsBlock self.now }
        requires within { bit < self.now.width }
        ensures { result ≡ key_at self.now bit }
    {
        TableKey {
            slot: self.slot + bit,
            serial: u128::from(self.serial + u64::from(bit)),
        }
    }
}
