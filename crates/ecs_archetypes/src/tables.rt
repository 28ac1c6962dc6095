//! Tables come and go together with their entries in the component index.
ghost use Rattle.std.specs.Prelude.{◌≡◌, ◌↔◌, ◌≤◌, ◌<◌, ◌+◌, ℕ, [], ◌∷◌, length, None, Some, IfOk, OnOk, IsSome};
ghost use Rattle.std.specs.Prelude.{IsTrue, MatchOption, nat_le};
ghost use Rattle.std.specs.List.{Contains, IsDistinct, list_all};
ghost use Rattle.std.specs.FinMap as finite;
ghost use Rattle.component_index.specs.Listings.{listed_in};
ghost use Rattle.id_pattern.specs.declared.Pattern.{Pattern as Asked};
ghost use Rattle.ecs_id.specs.Id.{id_cmp};
ghost use Rattle.ecs_id.specs.TableKeys.{table_eq};
ghost use Rattle.ecs_id.specs.declared.Place.{Place};
ghost use Rattle.ecs_id.specs.declared.TableKey.{TableKey};
ghost use Rattle.ecs_model.specs.Map.{IsMap};
ghost use Rattle.ecs_archetypes.specs.Archetypes.{known_in};
ghost use Rattle.ecs_archetypes.specs.Holdings.{KeepsSizes, agrees};
ghost use Rattle.ecs_archetypes.specs.Housing.{AreEntered, HaveGrown};
ghost use Rattle.ecs_archetypes.specs.Scans.{HasMatch, StandApart};
ghost use Rattle.ecs_archetypes.specs.Tables.{StandAlike};
ghost use Rattle.table_store.specs.Kept.{IsMade};
ghost use Rattle.table_store.specs.Rows.{AreValues, IsStored, Row, row_at, rows_in, with_cell, with_column_at};
ghost use Rattle.table_store.specs.Rows.{with_row_at};
ghost use Rattle.table_store.specs.Store.{Shape, Store, find_in, room_at, shape_at, size_in, table_at, with_id};
ghost use Rattle.table_store.specs.Store.{without_id};

use crate::plans::Room;
use component_index::{ComponentIndex, Listings};
use ecs_id::{Id, ListedKey, TableKey};
use ecs_table::Table;
use id_pattern::Pattern;
use raw_column::Memory;
use std::alloc::Allocator;
use std::hash::RandomState;
use std::marker::Model;
use table_store::{SizedId, TableStore};

/// The tables that stand, each of which is entered in the index by pattern with its ids.
#[derive(Drop)]
pub struct EnteredTables<A: Allocator> {
    pub(crate) store: TableStore<A>,
    index: ComponentIndex<A>,
}

impl<A: Allocator> Model for EnteredTables<A> {
    ghost use Rattle.ecs_archetypes.specs.Housing.{AreEntered};
    ghost use Rattle.table_store.specs.Store.{Store as Tables};

    ghost Value = { Tables };

    ghost view = { λ t. t.store };

    ghost invariant = { λ t. AreEntered t.store t.index };
}

impl<A: Allocator + Copy> EnteredTables<A> {
    /// No tables. Their ids, patterns and keys are hashed with these random keys.
    pub fn new(alloc: A, random: RandomState) -> Self
        ensures empty { result.tables ≡ [] }
        ensures whole { IsStored result }
    {
        let store = TableStore::new(alloc, random);
        let index = ComponentIndex::new(alloc, random);
        EnteredTables { store, index }
    }

    /// The table of these ids, with room for so many rows.
    pub fn table_for<R: Room>(&mut self, ids: &[SizedId], room: &R) -> Result<TableKey, Memory>
        requires ascend { IsMap id_cmp ids.now }
        requires small { IsTrue (list_all (λ c. nat_le c.1 64) ids.now) }
        requires agree { IsTrue (list_all (λ c. agrees (known_in self.old) c.0 c.1) ids.now) }
        ensures shape { IfOk result (λ key. shape_at self.new key ≡ Some ids.now) }
        ensures room { IfOk result (λ key. R.wanted room.now key ≤ room_at self.new key) }
        ensures kept { HaveGrown ids.now self.old self.new }
    {
        let last = self.store.last();
        let key = self.store.find_or_make(ids)?;
        enter_made(&mut self.store, &mut self.index, key, last, room)?;
        Ok(key)
    }

    /// The table with one id more than this one, with such room.
    pub fn wider<R: Room>(
        &mut self,
        key: TableKey,
        id: Id,
        size: usize,
        room: &R,
    ) -> Result<TableKey, Memory>
        requires stands { IsSome (table_at self.old key) }
        requires small { size ≤ 64 }
        requires agree { IsTrue (agrees (known_in self.old) id size) }
        ensures shape { (f : Shape) → shape_at self.old key ≡ Some f
            → IfOk result (λ to. shape_at self.new to ≡ Some (with_id f id size)) }
        ensures room { IfOk result (λ to. R.wanted room.now to ≤ room_at self.new to) }
        ensures kept { HaveGrown ((id, size) ∷ []) self.old self.new }
    {
        let last = self.store.last();
        let to = self.store.with(key, id, size)?;
        enter_made(&mut self.store, &mut self.index, to, last, room)?;
        Ok(to)
    }

    /// The table with one id less than this one, with such room.
    pub fn narrower<R: Room>(&mut self, key: TableKey, id: Id, room: &R) -> Result<TableKey, Memory>
        requires stands { IsSome (table_at self.old key) }
        ensures shape { (f : Shape) → shape_at self.old key ≡ Some f
            → IfOk result (λ to. shape_at self.new to ≡ Some (without_id f id)) }
        ensures room { IfOk result (λ to. R.wanted room.now to ≤ room_at self.new to) }
        ensures kept { HaveGrown [] self.old self.new }
    {
        let last = self.store.last();
        let to = self.store.without(key, id)?;
        enter_made(&mut self.store, &mut self.index, to, last, room)?;
        Ok(to)
    }

    /// Gives back the memory that rows have left in a table, and its room.
    pub fn shrink(&mut self, key: TableKey)
        requires stands { IsSome (table_at self.old key) }
        ensures rows { (p : Place) → row_at self.new p ≡ row_at self.old p }
        ensures alike { StandAlike self.old self.new }
        ensures whole { IsStored self.new }
    {
        self.store.shrink_to(key, 0);
    }
}

impl<A: Allocator> EnteredTables<A> {
    /// The tables, with their rows.
    pub fn store(&self) -> &TableStore<A>
        ensures { result.now ≡ self.now }
    {
        &self.store
    }

    /// The table under a key, None once it was released.
    #[inline(always)]
    pub fn get(&self, key: TableKey) -> Option<&Table<A>>
        ensures table { MatchOption result (table_at self.now key ≡ None) (λ t. table_at self.now key ≡ Some t.now) }
    {
        self.store.get(key)
    }

    /// The tables that have an id that the pattern matches, each once.
    pub fn tables_of(&self, pattern: Pattern) -> &[ListedKey]
        ensures listed { (key : TableKey) → Contains result.now key ↔ HasMatch self.now pattern key }
        ensures once { IsDistinct table_eq result.now }
    {
        self.index.tables_of(pattern)
    }

    /// The lists of tables of all patterns, each of which has a table once.
    pub fn listings(&self) -> Listings<'_, A>
        ensures listed { (pattern : Asked) (key : TableKey) → Contains (listed_in result pattern) key
            ↔ HasMatch self.now pattern key }
        ensures once { (pattern : Asked) → IsDistinct table_eq (listed_in result pattern) }
    {
        self.index.listings()
    }

    /// Overwrites the value of an id with data at a row, with as many bytes.
    pub fn set_value(&mut self, key: TableKey, row: usize, id: Id, value: &[u8])
        requires there { row < rows_in self.old key }
        requires data { 0 < length value.now }
        requires size { (f : Shape) → shape_at self.old key ≡ Some f → find_in id f ≡ Some (length value.now) }
        ensures rows { (v : Row) → row_at self.old (record { table = key; row = row }) ≡ Some v
            → (s : Place) → row_at self.new s ≡ with_row_at (row_at self.old) (record {
              table = key;
              row = row;
            }) (with_cell v id value.now) s }
        ensures alike { StandAlike self.old self.new }
        ensures whole { IsStored self.new }
    {
        self.store.set_value(key, row, id, value);
    }

    /// Overwrites the values of an id with data in all rows of a table, with as many bytes, those of one row after
    /// another.
    pub fn set_column(&mut self, key: TableKey, id: Id, bytes: &[u8])
        requires { AreValues self.old key id bytes.now }
        ensures rows { (n : ℕ) → size_in self.old key id ≡ Some n → (p : Place)
            → row_at self.new p ≡ with_column_at (row_at self.old) key id n bytes.now p }
        ensures alike { StandAlike self.old self.new }
        ensures whole { IsStored self.new }
    {
        self.store.set_column(key, id, bytes);
    }

    /// Releases each table that has an id that the pattern matches, with its entry. None of them has rows.
    pub fn release_matched(&mut self, pattern: Pattern)
        requires stored { IsStored self.old }
        requires empty { (k : TableKey) → HasMatch self.old pattern k → rows_in self.old k ≡ 0 }
        ensures gone { (k : TableKey) → HasMatch self.new pattern k → ⊥ }
        ensures others { StandApart pattern self.old self.new }
        ensures rows { (p : Place) → row_at self.new p ≡ row_at self.old p }
        ensures whole { IsStored self.new }
    {
        while let Some(listed) = self.index.tables_of(pattern).first() {
            let key = listed.key();
            let table = self.store.get(key).unwrap();
            self.index.leave(key, table.ids());
            self.store.release(key);
        }
    }
}

// Enters a table if it was made after this serial was the last, and makes its room. One that can't be entered is
// released again.
#[inline(always)]
fn enter_made<A: Allocator + Copy, R: Room>(
    store: &mut TableStore<A>,
    index: &mut ComponentIndex<A>,
    key: TableKey,
    last: u128,
    room: &R,
) -> Result<(), Memory>
    requires stands { IsSome (table_at store.old key) }
    requires fresh { last < key.serial → finite.get index.old key ≡ None }
    requires empty { last < key.serial → rows_in store.old key ≡ 0 }
    ensures shapes { OnOk result ((q : TableKey) → shape_at store.new q ≡ shape_at store.old q) }
    ensures room { OnOk result (R.wanted room.now key ≤ room_at store.new key) }
    ensures kept { (s : Store) (f added : Shape) → s.last ≡ last → IsMade s f key store.old → AreEntered s index.old
        → KeepsSizes (known_in s) added (known_in store.old) → HaveGrown added s store.new
        × AreEntered store.new index.new }
{
    // (any answer says that the tables are whole)
    let _ = store.get(key);
    let rows = room.rows(key);
    if key.serial <= last {
        let known = store.reserve(key, rows);
        return known;
    }
    enter_new(store, index, key)?;
    store.reserve(key, rows)
}

// Enters a table that was just made. If it can't be entered, it is released again.
#[cold]
#[inline(never)]
fn enter_new<A: Allocator + Copy>(
    store: &mut TableStore<A>,
    index: &mut ComponentIndex<A>,
    key: TableKey,
) -> Result<(), Memory>
    requires stands { IsSome (table_at store.old key) }
    requires fresh { finite.get index.old key ≡ None }
    requires empty { rows_in store.old key ≡ 0 }
    ensures store { OnOk result (store.new ≡ store.old) }
    ensures kept { (s : Store) (f added : Shape) → s.last < key.serial → IsMade s f key store.old
        → AreEntered s index.old
        → KeepsSizes (known_in s) added (known_in store.old) → HaveGrown added s store.new
        × AreEntered store.new index.new }
{
    let table = store.get(key).unwrap();
    let Ok(()) = index.enter(key, table.ids()) else {
        store.release(key);
        return Err(Memory);
    };
    Ok(())
}
