//! Which slot has the table of which ids.
ghost use Rattle.std.specs.Prelude.{◌≡◌, ◌≢◌, ℕ, false, true, IsSome, IfSome, MatchOption, OnOk};
ghost use Rattle.std.specs.List.{Contains};
ghost use Rattle.slab.specs.Slab.{get as slot_at};
ghost use Rattle.table_store.specs.ByIds.{HasSlot, IsTakenOut, KeepsSlots, has_ids, ids_hash, is_first_of};

use crate::store::Slots;
use ecs_id::{Id, TableKey};
use indexmap::IndexMap;
use secret_hashing::Hashing;
use std::alloc::{AllocError, Allocator};
use std::hash::{BuildHasher, BuildHasherDefault, FoldHasher};

// Its keys are hashes by secret numbers, so nobody can choose which of them fall together.
type ByHash<A> = IndexMap<u64, u32, BuildHasherDefault<FoldHasher>, A>;

/// The slots of tables by the hash of their ids.
///
/// No ids stand here: who finds a slot checks whether its table has them.
#[derive(Drop)]
pub struct ByIds<A: Allocator> {
    // by a hash the slot of the last table that came whose ids have it
    first: ByHash<A>,
    // the slots of those before it, of which there are none but by chance
    others: Vec<u32, A>,
    hashing: Hashing,
}

impl<A: Allocator + Copy> ByIds<A> {
    /// No slots, which take no memory. Ids are hashed by these secret numbers.
    pub fn new(alloc: A, hashing: Hashing) -> ByIds<A>
        ensures none { (hash slot : ℕ) → HasSlot result hash slot → ⊥ }
        ensures hashing { result.hashing ≡ hashing }
    {
        ByIds {
            first: IndexMap::new(alloc),
            others: Vec::new(alloc),
            hashing,
        }
    }
}

impl<A: Allocator> ByIds<A> {
    /// The hash of ids.
    pub fn hash_of(&self, ids: &[Id]) -> u64
        ensures { result ≡ ids_hash self.now.hashing ids.now }
    {
        self.hashing.hash_one(ids)
    }

    /// The slot of the table that has these ids, which have this hash.
    pub fn find(&self, tables: &Slots<A>, hash: u64, ids: &[Id]) -> Option<u32>
        ensures { MatchOption result ((slot : ℕ) → HasSlot self.now hash slot → has_ids tables.now ids.now slot ≡ false)
            (λ slot. has_ids tables.now ids.now slot ≡ true) }
    {
        match self.first.get(&hash) {
            Some(slot) if has_ids(tables, *slot, ids) => Some(*slot),
            _ => among(tables, self.others.as_slice(), ids),
        }
    }

    /// Enters the slot of a table whose ids have this hash.
    pub fn insert(&mut self, hash: u64, slot: u32) -> Result<(), AllocError>
        ensures entered { OnOk result (HasSlot self.new hash slot) }
        ensures kept { KeepsSlots self.old self.new }
    {
        list_growth::make_room(&mut self.others)?;
        if let Some(other) = self.first.insert(hash, slot)? {
            self.others.push_reserved(other);
        }
        Ok(())
    }

    /// Takes out the slot of a table with these ids.
    pub fn remove(&mut self, ids: &[Id], slot: u32)
        ensures gone { IsTakenOut self.old self.new (ids_hash self.old.hashing ids.now) slot }
        ensures others { (hash other : ℕ) → other ≢ slot → HasSlot self.old hash other → HasSlot self.new hash other }
        ensures hashing { self.new.hashing ≡ self.old.hashing }
    {
        let hash = self.hash_of(ids);
        if self.is_first(hash, slot) {
            self.first.swap_remove(&hash);
        } else {
            self.others.retain(|other| *other != slot);
        }
    }

    // Whether the slot is the first of the hash.
    fn is_first(&self, hash: u64, slot: u32) -> bool
        ensures { result ≡ is_first_of self.now hash slot }
    {
        match self.first.get(&hash) {
            Some(first) => *first == slot,
            None => false,
        }
    }
}

/// Whether the table in a slot has these ids.
pub fn has_ids<A: Allocator>(tables: &Slots<A>, slot: u32, ids: &[Id]) -> bool
    ensures { result ≡ has_ids tables.now ids.now slot }
{
    match tables.get(slot as usize) {
        Some(held) => held.table.ids() == ids,
        None => false,
    }
}

// Which of these slots has the table of the ids.
fn among<A: Allocator>(tables: &Slots<A>, slots: &[u32], ids: &[Id]) -> Option<u32>
    ensures { MatchOption result ((slot : ℕ) → Contains slots.now slot → has_ids tables.now ids.now slot ≡ false)
        (λ slot. has_ids tables.now ids.now slot ≡ true) }
{
    let at = slots.iter().position(|slot| has_ids(tables, *slot, ids))?;
    Some(slots[at])
}

/// The key of the table in a slot.
pub fn key_in<A: Allocator>(tables: &Slots<A>, slot: u32) -> TableKey
    requires { IsSome (slot_at tables.now slot) }
    ensures slot { result.slot ≡ slot }
    ensures serial { IfSome (slot_at tables.now slot) (λ x. result.serial ≡ x.value.serial) }
{
    TableKey {
        slot,
        serial: u128::from(tables[slot as usize].serial),
    }
}
