//! The list.

ghost use Rattle.std.specs.Prelude.{◌≡◌, ◌≤◌, ◌^◌, ◌++◌, ◌∷◌, [], All, IsTrue, MatchOption, OnErr, OnOk, filter, length};
ghost use Rattle.std.specs.Prelude.{if◌then◌else◌};
ghost use Rattle.std.specs.List.{Contains};
ghost use Rattle.ecs_id.specs.declared.TableKey.{TableKey};
ghost use Rattle.query_cache.specs.Kept.{has_rows, stands};
ghost use Rattle.query_cache.specs.TableList.{IsBlock, keeps, keys_in};

use crate::table_block::{Block, Keep};
use ecs_id::ListedKey;
use std::alloc::{AllocError, Allocator, Global};
use std::marker::Model;
use table_store::TableStore;

/// A list of tables. It takes 24 bytes for each 64 tables that were made one after another in new slots, and never more
/// than 24 bytes a table.
#[derive(Drop)]
pub struct TableList<A: Allocator = Global> {
    blocks: Vec<Block, A>,
}

impl<A: Allocator> Model for TableList<A> {
    ghost use Rattle.std.specs.Prelude.{All};
    ghost use Rattle.query_cache.specs.TableList.{IsBlock, Tables, keys_in};

    ghost Value = { Tables };

    ghost view = { λ list. record { items = keys_in list.blocks.items } };

    ghost invariant = { λ list. All IsBlock list.blocks.items };
}

impl<A: Allocator> TableList<A> {
    /// Of nothing. It takes no memory before the first table.
    pub fn new(alloc: A) -> Self
        ensures { result.items ≡ [] }
    {
        TableList {
            blocks: Vec::new(alloc),
        }
    }

    /// Appends a table.
    ///
    /// Where memory is refused, the list stays as it was.
    #[inline(always)]
    pub fn push(&mut self, key: ListedKey) -> Result<(), AllocError>
        ensures pushed { OnOk result (self.new.items ≡ self.old.items ++ key ∷ []) }
        ensures refused { OnErr result (self.new.items ≡ self.old.items) }
    {
        if put_in_last(self.blocks.as_mut_slice(), key) {
            return Ok(());
        }
        self.blocks.push(Block::of(key))?;
        Ok(())
    }

    /// Leaves those that are to stay, in their order. It takes no memory.
    pub fn retain<B: Allocator>(&mut self, keep: &Keep<'_, B>)
        ensures { self.new.items ≡ filter (keeps keep.now) self.old.items }
    {
        retain_in(self.blocks.as_mut_slice(), keep);
        self.blocks.retain(|block| block.bits != 0);
    }

    /// How many tables it has. None where a `usize` doesn't count so many.
    pub fn count(&self) -> Option<usize>
        ensures { MatchOption result (2 ^ 64 ≤ length self.now.items) (λ n. n ≡ length self.now.items) }
    {
        let mut count: usize = 0;
        for block in &self.blocks {
            let Some(more) = count.checked_add(block.count() as usize) else {
                return None;
            };
            count = more;
        }
        Some(count)
    }

    /// Appends the tables to another list.
    ///
    /// Where memory is refused, the other list stays as it was.
    pub fn push_onto<B: Allocator>(&self, keys: &mut Vec<ListedKey, B>) -> Result<(), AllocError>
        ensures pushed { OnOk result (keys.new.items ≡ keys.old.items ++ self.now.items) }
        ensures refused { OnErr result (keys.new.items ≡ keys.old.items) }
    {
        let before = keys.len();
        for block in &self.blocks {
            if block.push_onto(keys).is_err() {
                keys.truncate(before);
                return Err(AllocError);
            }
        }
        Ok(())
    }

    /// Appends those tables to another list that have rows in a store, where all tables of this list stand.
    ///
    /// Where memory is refused, the other list stays as it was.
    pub fn push_filled_onto<B: Allocator, C: Allocator>(
        &self,
        store: &TableStore<B>,
        keys: &mut Vec<ListedKey, C>,
    ) -> Result<(), AllocError>
        requires stand { (k : TableKey) → Contains self.now.items k → IsTrue (stands store.now k) }
        ensures pushed { OnOk result (keys.new.items ≡ keys.old.items ++ filter (has_rows store.now) self.now.items) }
        ensures refused { OnErr result (keys.new.items ≡ keys.old.items) }
    {
        let before = keys.len();
        for block in &self.blocks {
            if block.push_filled_onto(store, keys).is_err() {
                keys.truncate(before);
                return Err(AllocError);
            }
        }
        Ok(())
    }
}

/// Puts a table into the last of some blocks, and answers whether it has a bit there.
#[inline(always)]
fn put_in_last(blocks: &mut [Block], key: ListedKey) -> bool
    requires blocks { All IsBlock blocks.old }
    ensures keys { keys_in blocks.new ≡ keys_in blocks.old ++ (if result then key ∷ [] else []) }
    ensures length { length blocks.new ≡ length blocks.old }
    ensures blocks { All IsBlock blocks.new }
{
    let Some(last) = blocks.len().checked_sub(1) else {
        return false;
    };
    blocks[last].put(key)
}

/// Leaves of some blocks the tables that are to stay.
fn retain_in<A: Allocator>(blocks: &mut [Block], keep: &Keep<'_, A>)
    requires blocks { All IsBlock blocks.old }
    ensures keys { keys_in blocks.new ≡ filter (keeps keep.now) (keys_in blocks.old) }
    ensures length { length blocks.new ≡ length blocks.old }
    ensures blocks { All IsBlock blocks.new }
{
    for place in 0..blocks.len() {
        blocks[place].retain(keep);
    }
}
