//! The store of tables.
ghost use Rattle.std.specs.Prelude.{◌≡◌, ◌==◌, ◌↔◌, ◌<◌, ◌≤◌, ◌-◌, ◌+◌, ◌*◌, ◌^◌, ◌⊎◌, ◌≢◌, ◌++◌, ◌∷◌, MatchResult, ℕ};
ghost use Rattle.std.specs.Prelude.{[], IfOk, OnOk, OnErr, IsOk, IsNone};
ghost use Rattle.std.specs.Prelude.{IsSome, IfSome, MatchOption, None, Some, map, max, min, length, option_map};
ghost use Rattle.std.specs.Prelude.{slice_get, nat_lt, if◌then◌else◌, IsTrue};
ghost use Rattle.std.specs.Int.{bit_at};
ghost use Rattle.std.specs.FinMap.{is_sorted};
ghost use Rattle.std.specs.Ordering.{nat_cmp};
ghost use Rattle.std.specs.List.{Contains, filter};
ghost use Rattle.std.specs.List.Sorted.{IsStrictlySortedBy};
ghost use Rattle.slab.specs.Slab.{HasRoomFor, get as slot_at, slab_len};
ghost use Rattle.ecs_id.specs.Id.{Id, id_cmp};
ghost use Rattle.ecs_id.specs.declared.Place.{Place};
ghost use Rattle.ecs_id.specs.declared.TableKey.{TableKey};
ghost use Rattle.ecs_table.specs.Archetype.{Archetype, with_column, with_row, with_value, without_row};
ghost use Rattle.table_store.specs.Store.{HasSize, Shape, changed_at, find_in, moved_at, released_at, room_at};
ghost use Rattle.table_store.specs.Store.{shape_at, shaped, size_in, table_at, with_id};
ghost use Rattle.table_store.specs.Store.{without_id};
ghost use Rattle.table_store.specs.ByIds.{HasSlot, KeepsSlots};
ghost use Rattle.table_store.specs.Kept.{HasNoEdge, IsMade, IsPut, IsWritten, edge_of, edges_of, is_held, standing};
ghost use Rattle.table_store.specs.Kept.{HasMarks, HaveGrown, stepped};
ghost use Rattle.table_store.specs.Rows.{AreValues, IsStored, Row, filler, moved_rows, removed_rows, row_at, rows_in};
ghost use Rattle.table_store.specs.Rows.{with_cell, with_column_at, with_row_at};
ghost use Rattle.table_store.specs.Rows.{zero_cells};

use crate::by_ids::{ByIds, has_ids, key_in};
use crate::edges::Edges;
use crate::shape::{Sizes, are_tags, next_shape, push_sizes, set_ids};
use crate::since::Since;
use crate::sized::SizedId;
use crate::slot_marks::SlotMarks;
use ecs_id::{EntityId, Id, ListedKey, TableKey};
use ecs_table::Table;
use raw_column::Memory;
use secret_hashing::Hashing;
use slab::Slab;
use std::alloc::{AllocError, Allocator, Global};
use std::hash::RandomState;
use std::marker::Model;
use std::mem;

/// A table with its serial, and the edges that lead from it.
///
/// The serial stands before what comes first in a table, as these are read together.
pub(crate) struct TableSlot<A: Allocator> {
    // of 64 bits, as no key with a greater serial is given
    pub(crate) serial: u64,
    pub(crate) table: Table<A>,
    // for an id, the table with it added
    more: Edges<A>,
    // for an id, the table with it taken away
    less: Edges<A>,
}

impl<A: Allocator> Drop for TableSlot<A> {
    fn drop(self) {
        let Self {
            serial: _,
            table: _,
            more: _,
            less: _,
        } = self;
    }
}

const _: () = prove!(size_of::<TableSlot<Global>>() == 184);

// In boxes, so that one can be taken out for a moment: two slots of one slab can't be borrowed at once.
pub(crate) type Slots<A> = Slab<Box<TableSlot<A>, A>, A>;

// Serials only rise, so each new key stands at the end. Keys of released tables may be among them: at most one more
// than tables stand.
type BySerial<A> = Vec<ListedKey, A>;

/// The tables of a world, one for each set of ids.
pub struct TableStore<A: Allocator = Global> {
    tables: Slots<A>,
    // of each slot, whether its table has rows, and whether it was made right after that in the slot before
    marks: SlotMarks<A>,
    by_ids: ByIds<A>,
    by_serial: BySerial<A>,
    // the greatest serial that was given
    last: u128,
    hashing: Hashing,
    // where the shape of a table to be found or made stands for a moment, and its ids
    cells: Vec<SizedId, A>,
    ids: Vec<Id, A>,
    // the slot of the table that was found or made last, which is mostly the one that is asked for next
    recent: u32,
    alloc: A,
}

impl<A: Allocator> Drop for TableStore<A> {
    fn drop(self) {
        let Self {
            tables: _,
            marks: _,
            by_ids: _,
            by_serial: _,
            last: _,
            hashing: _,
            cells: _,
            ids: _,
            recent: _,
            alloc: _,
        } = self;
    }
}

impl<A: Allocator> Model for TableStore<A> {
    ghost use Rattle.table_store.specs.Store.{Store};
    ghost use Rattle.table_store.specs.Kept.{store_of, AreInTurn, AreMarked, IsKept};

    ghost Value = { Store };

    ghost view = { λ s. store_of s.tables s.last };

    ghost invariant = { λ s. IsKept s.tables s.by_ids s.by_serial s.last × AreMarked s.tables s.marks.filled
        × AreInTurn s.tables s.marks.in_turn };
}

impl<A: Allocator + Copy> TableStore<A> {
    /// A store without tables, which hashes lists of ids with these random keys. It takes no memory before the first
    /// table.
    pub fn new(alloc: A, random: RandomState) -> Self
        ensures empty { result.tables ≡ [] }
        ensures unused { result.last ≡ 0 }
        ensures whole { IsStored result }
    {
        let hashing = Hashing::new(random);
        TableStore {
            tables: Slab::new(alloc),
            marks: SlotMarks::new(alloc),
            by_ids: ByIds::new(alloc, hashing),
            by_serial: Vec::new(alloc),
            last: 0,
            hashing,
            cells: Vec::new(alloc),
            ids: Vec::new(alloc),
            recent: 0,
            alloc,
        }
    }

    /// The table of these ids, which is made where there is none. Beside each id stands how many bytes its value has, 0
    /// to 64: 0 for a tag.
    ///
    /// A serial is never given twice: past the greatest `u64`, and past 4,294,967,295 slots, it answers `Memory`.
    pub fn find_or_make(&mut self, cells: &[SizedId]) -> Result<TableKey, Memory>
        requires ascend { IsTrue (is_sorted id_cmp cells.now) }
        requires small { (j : ℕ) → IfSome (slice_get cells.now j) (λ c. c.1 ≤ 64) }
        requires sizes { (j : ℕ) → IfSome (slice_get cells.now j) (λ c. HasSize self.old c.0 c.1) }
        ensures { IsPut self.old cells.now result self.new }
    {
        if let Some(bare) = self.bare(cells) {
            return Ok(bare);
        }
        // Its list of ids is lent by the store, so that not every call takes one.
        let mut ids = mem::replace(&mut self.ids, Vec::new(self.alloc));
        let put = self.put_by(&mut ids, cells);
        self.ids = ids;
        self.recent = slot_or(&put, self.recent);
        put
    }

    // The table of no ids, where these are none, and it was found or made last: so it mostly is where entities are
    // made.
    #[inline(always)]
    fn bare(&self, cells: &[SizedId]) -> Option<TableKey>
        requires { (j : ℕ) → IfSome (slice_get cells.now j) (λ c. HasSize self.now c.0 c.1) }
        ensures { IfSome result (λ key. IsMade self.now cells.now key self.now × IsStored self.now) }
    {
        if 0 < cells.len() {
            return None;
        }
        if has_ids(&self.tables, self.recent, &[]) {
            Some(key_in(&self.tables, self.recent))
        } else {
            None
        }
    }

    // `find_or_make`, with a list for the ids of the table: the table that has them, or a new one.
    fn put_by(&mut self, ids: &mut Vec<Id, A>, cells: &[SizedId]) -> Result<TableKey, Memory>
        requires ascend { IsTrue (is_sorted id_cmp cells.now) }
        requires small { (j : ℕ) → IfSome (slice_get cells.now j) (λ c. c.1 ≤ 64) }
        requires sizes { (j : ℕ) → IfSome (slice_get cells.now j) (λ c. HasSize self.old c.0 c.1) }
        ensures { IsPut self.old cells.now result self.new }
    {
        let recent = self.recent;
        set_ids(ids, cells)?;
        let ids = ids.as_slice();
        if has_ids(&self.tables, recent, ids) {
            let known = key_in(&self.tables, recent);
            return Ok(known);
        }
        let hash = self.by_ids.hash_of(ids);
        if let Some(slot) = self.by_ids.find(&self.tables, hash, ids) {
            let found = key_in(&self.tables, slot);
            return Ok(found);
        }
        let key = next_key(&self.tables, self.last)?;
        let slot = prepare(
            self.alloc,
            &mut self.tables,
            &mut self.marks,
            &mut self.by_ids,
            &mut self.by_serial,
            key,
            hash,
            ids,
            cells,
        )?;
        self.tables.insert_reserved(slot);
        self.marks.note_turn(&self.tables, key);
        let given = key.key();
        self.last = given.serial;
        Ok(given)
    }

    /// The table that has the ids of this one, and one more. Beside the id stands how many bytes its value has.
    pub fn with(&mut self, key: TableKey, id: Id, size: usize) -> Result<TableKey, Memory>
        requires stands { IsSome (table_at self.old key) }
        requires small { size ≤ 64 }
        requires sizes { HasSize self.old id size }
        ensures { (f : Shape) → shape_at self.old key ≡ Some f → IsPut self.old (with_id f id size) result self.new }
    {
        self.step(key, id, Some(size))
    }

    /// The table that has the ids of this one, without one of them.
    pub fn without(&mut self, key: TableKey, id: Id) -> Result<TableKey, Memory>
        requires stands { IsSome (table_at self.old key) }
        ensures { (f : Shape) → shape_at self.old key ≡ Some f → IsPut self.old (without_id f id) result self.new }
    {
        self.step(key, id, None)
    }

    // The table with one more id, where a size of it is given, or with one less.
    fn step(&mut self, key: TableKey, id: Id, added: Option<usize>) -> Result<TableKey, Memory>
        requires stands { IsSome (table_at self.old key) }
        requires small { IfSome added (λ n. n ≤ 64) }
        requires sizes { IfSome added (λ n. HasSize self.old id n) }
        ensures { (f : Shape) → shape_at self.old key ≡ Some f → IsPut self.old (stepped f id added) result self.new }
    {
        match self.follow(key, id, added) {
            Some(to) => Ok(to),
            None => self.step_anew(key, id, added),
        }
    }

    // The table to which an edge leads, if there is one and the table stands.
    fn follow(&self, key: TableKey, id: Id, added: Option<usize>) -> Option<TableKey>
        requires stands { IsSome (table_at self.now key) }
        requires sizes { IfSome added (λ n. HasSize self.now id n) }
        ensures found { IfSome result (λ to. (f : Shape) → shape_at self.now key ≡ Some f
            → IsMade self.now (stepped f id added) to self.now) }
        ensures whole { IsStored self.now }
    {
        edge_end(&self.tables, &self.tables[key.slot as usize], id, added)
    }

    // `step` where no edge leads there yet. Its list of cells is lent by the store, so that not every step takes one.
    #[cold]
    #[inline(never)]
    fn step_anew(&mut self, key: TableKey, id: Id, added: Option<usize>) -> Result<TableKey, Memory>
        requires stands { IsSome (table_at self.old key) }
        requires small { IfSome added (λ n. n ≤ 64) }
        requires sizes { IfSome added (λ n. HasSize self.old id n) }
        ensures { (f : Shape) → shape_at self.old key ≡ Some f → IsPut self.old (stepped f id added) result self.new }
    {
        let mut cells = mem::replace(&mut self.cells, Vec::new(self.alloc));
        let stepped = self.step_by(&mut cells, key, id, added);
        self.cells = cells;
        stepped
    }

    // `step_anew`, with a list for the cells of the table: it is found by its ids, or made.
    fn step_by(
        &mut self,
        cells: &mut Vec<SizedId, A>,
        key: TableKey,
        id: Id,
        added: Option<usize>,
    ) -> Result<TableKey, Memory>
        requires stands { IsSome (table_at self.old key) }
        requires small { IfSome added (λ n. n ≤ 64) }
        requires sizes { IfSome added (λ n. HasSize self.old id n) }
        ensures { (f : Shape) → shape_at self.old key ≡ Some f → IsPut self.old (stepped f id added) result self.new }
    {
        let slot = &self.tables[key.slot as usize];
        next_shape(cells, &slot.table, id, added)?;
        let to = self.find_or_make(cells.as_slice())?;
        self.keep_edge(key, id, added, to);
        Ok(to)
    }

    // Keeps an edge for the next time. Where memory is refused, the table is found by its ids again.
    fn keep_edge(&mut self, key: TableKey, id: Id, added: Option<usize>, to: TableKey)
        requires stands { IsSome (table_at self.old key) }
        requires leads { (f : Shape) → shape_at self.old key ≡ Some f
            → shape_at self.old to ≡ Some (stepped f id added) }
        ensures { self.new ≡ self.old }
    {
        let (alloc, hashing) = (self.alloc, self.hashing);
        write_edge(
            alloc,
            hashing,
            &mut self.tables[key.slot as usize],
            id,
            added,
            to,
        );
    }

    /// Makes room for `additional` more rows in a table. After an error the store is as it was.
    pub fn reserve(&mut self, key: TableKey, additional: usize) -> Result<(), Memory>
        requires stands { IsSome (table_at self.old key) }
        ensures tables { OnOk result ((q : TableKey) → table_at self.new q
            ≡ changed_at self.old key (λ t. record t { room = max t.room additional }) q) }
        ensures shapes { (q : TableKey) → shape_at self.new q ≡ shape_at self.old q }
        ensures last { self.new.last ≡ self.old.last }
        ensures rows { (p : Place) → row_at self.new p ≡ row_at self.old p }
        ensures err { OnErr result (self.new ≡ self.old) }
        ensures succeeds { additional ≤ room_at self.old key → IsOk result }
        ensures whole { IsStored self.new }
    {
        self.tables[key.slot as usize].table.reserve(additional)
    }

    /// Keeps room for `room` more rows at most in a table, and gives back memory that rows have left, as
    /// `Table::shrink_to` does.
    pub fn shrink_to(&mut self, key: TableKey, room: usize)
        requires stands { IsSome (table_at self.old key) }
        ensures tables { (q : TableKey) → table_at self.new q ≡ changed_at self.old key
            (λ t. record t { room = min t.room room }) q }
        ensures shapes { (q : TableKey) → shape_at self.new q ≡ shape_at self.old q }
        ensures rows { (p : Place) → row_at self.new p ≡ row_at self.old p }
        ensures last { self.new.last ≡ self.old.last }
        ensures whole { IsStored self.new }
    {
        self.tables[key.slot as usize].table.shrink_to(room);
    }
}

// The slot of the table that was found or made, or this one.
fn slot_or(put: &Result<TableKey, Memory>, other: u32) -> u32 {
    match put {
        Ok(key) => key.slot,
        Err(_) => other,
    }
}

// The key that the next table gets, if there is a serial and a slot for one more.
fn next_key<A: Allocator>(tables: &Slots<A>, last: u128) -> Result<ListedKey, Memory>
    ensures serial { IfOk result (λ key. key.serial ≡ last + 1) }
    ensures slot { IfOk result (λ key. key.slot ≡ tables.now.vacant_key) }
    ensures numbered { IfOk result (λ key. key.slot < 2 ^ 32 - 1) }
    ensures vacant { IfOk result (λ key. slot_at tables.now key.slot ≡ None) }
{
    if last == u128::MAX {
        return Err(Memory);
    }
    let slot = tables.vacant_key();
    if slot >= u32::MAX as usize {
        return Err(Memory);
    }
    let key = TableKey {
        slot: slot as u32,
        serial: last + 1,
    };
    match ListedKey::of(key) {
        Some(listed) => Ok(listed),
        None => Err(Memory),
    }
}

// All that is to grow for a new table, and its slot, whose number stands under the hash of its ids then, and its key
// last among those by serial.
fn prepare<A: Allocator + Copy>(
    alloc: A,
    tables: &mut Slots<A>,
    marks: &mut SlotMarks<A>,
    by_ids: &mut ByIds<A>,
    by_serial: &mut BySerial<A>,
    key: ListedKey,
    hash: u64,
    ids: &[Id],
    cells: &[SizedId],
) -> Result<Box<TableSlot<A>, A>, Memory>
    requires ids { ids.now ≡ map (λ c. c.0) cells.now }
    requires small { (j : ℕ) → IfSome (slice_get cells.now j) (λ c. c.1 ≤ 64) }
    requires slot { key.slot < 2 ^ 32 - 1 }
    ensures tables { tables.new ≡ record tables.old { capacity = tables.new.capacity } }
    ensures within { OnOk result (HasMarks marks.new key.slot) }
    ensures marks { HaveGrown marks.old marks.new }
    ensures by_ids { KeepsSlots by_ids.old by_ids.new }
    ensures entered { OnOk result (HasSlot by_ids.new hash key.slot) }
    ensures by_serial { MatchResult result (λ _. by_serial.new.items ≡ by_serial.old.items ++ key ∷ [])
        (λ _. by_serial.new.items ≡ by_serial.old.items) }
    ensures slot { OnOk result (HasRoomFor tables.new 1) }
    ensures serial { IfOk result (λ slot. slot.value.serial ≡ key.serial) }
    ensures table { IfOk result (λ slot. slot.value.table ≡ shaped cells.now) }
    ensures more { IfOk result (λ slot. HasNoEdge slot.value.more) }
    ensures less { IfOk result (λ slot. HasNoEdge slot.value.less) }
{
    let slot = new_slot(alloc, key.serial(), ids, cells)?;
    tables.reserve(1)?;
    marks.reach(key.slot())?;
    enter(by_ids, by_serial, hash, key)?;
    Ok(slot)
}

// A slot with an empty table.
fn new_slot<A: Allocator + Copy>(
    alloc: A,
    serial: u64,
    ids: &[Id],
    cells: &[SizedId],
) -> Result<Box<TableSlot<A>, A>, Memory>
    requires ids { ids.now ≡ map (λ c. c.0) cells.now }
    requires small { (j : ℕ) → IfSome (slice_get cells.now j) (λ c. c.1 ≤ 64) }
    ensures serial { IfOk result (λ slot. slot.value.serial ≡ serial) }
    ensures table { IfOk result (λ slot. slot.value.table ≡ shaped cells.now) }
    ensures more { IfOk result (λ slot. HasNoEdge slot.value.more) }
    ensures less { IfOk result (λ slot. HasNoEdge slot.value.less) }
{
    let slot = TableSlot {
        serial,
        table: new_table(alloc, ids, cells)?,
        more: Edges::new(),
        less: Edges::new(),
    };
    match Box::new(alloc, slot) {
        Ok(slot) => Ok(slot),
        Err(_) => Err(Memory),
    }
}

// An empty table of these cells, whose ids are these.
fn new_table<A: Allocator + Copy>(
    alloc: A,
    ids: &[Id],
    cells: &[SizedId],
) -> Result<Table<A>, Memory>
    requires ids { ids.now ≡ map (λ c. c.0) cells.now }
    requires small { (j : ℕ) → IfSome (slice_get cells.now j) (λ c. c.1 ≤ 64) }
    ensures { IfOk result (λ table. table ≡ shaped cells.now) }
{
    if are_tags(cells) {
        return Table::of_tags(alloc, ids);
    }
    let mut sizes = Sizes::new(&alloc);
    push_sizes(&mut sizes, cells)?;
    Table::new(alloc, ids, sizes.as_slice())
}

// Enters a key into both indexes, or into neither.
fn enter<A: Allocator>(
    by_ids: &mut ByIds<A>,
    by_serial: &mut BySerial<A>,
    hash: u64,
    key: ListedKey,
) -> Result<(), Memory>
    ensures by_ids { KeepsSlots by_ids.old by_ids.new }
    ensures entered { OnOk result (HasSlot by_ids.new hash key.slot) }
    ensures by_serial { MatchResult result (λ _. by_serial.new.items ≡ by_serial.old.items ++ key ∷ [])
        (λ _. by_serial.new.items ≡ by_serial.old.items) }
{
    list_growth::make_room(by_serial)?;
    by_ids.insert(hash, key.slot())?;
    by_serial.push_reserved(key);
    Ok(())
}

// The keys with greater serials, among keys by rising serial.
fn newer(keys: &[ListedKey], serial: u128) -> &[ListedKey]
    requires { IsStrictlySortedBy nat_cmp (map (λ q. q.serial) keys.now) }
    ensures listed { (q : TableKey) → Contains keys.now q → serial < q.serial → Contains result.now q }
    ensures newer { (q : TableKey) → Contains result.now q → serial < q.serial }
    ensures rising { IsStrictlySortedBy nat_cmp (map (λ q. q.serial) result.now) }
{
    let known = keys.partition_point(|key| key.key().serial <= serial);
    &keys[known..]
}

// Takes the keys of released tables out of the list, once most of its keys are such: so each costs a constant.
fn forget_released<A: Allocator>(by_serial: &mut BySerial<A>, tables: &Slots<A>)
    requires { IsStrictlySortedBy nat_cmp (map (λ q. q.serial) by_serial.old.items) }
    ensures few { length by_serial.new.items ≤ 2 * slab_len tables.now + 1 }
    ensures kept { (by_serial.new.items ≡ by_serial.old.items) ⊎
        (by_serial.new.items ≡ filter (is_held tables.now) by_serial.old.items) }
{
    if by_serial.len() / 2 > tables.len() {
        by_serial.retain(|key| stands(tables, key.key()));
    }
}

// Whether a table stands under the key.
pub(crate) fn stands<A: Allocator>(tables: &Slots<A>, key: TableKey) -> bool
    ensures { result ≡ is_held tables.now key }
{
    match tables.get(key.slot as usize) {
        Some(slot) => u128::from(slot.serial) == key.serial,
        None => false,
    }
}

// Whether the table in a slot has this serial.
fn has_serial<A: Allocator>(slot: &TableSlot<A>, serial: u128) -> bool
    ensures { result ≡ (slot.now.serial == serial) }
{
    u128::from(slot.serial) == serial
}

// Where the edge for an id leads, if there is one and the table stands.
fn edge_end<A: Allocator>(
    tables: &Slots<A>,
    slot: &TableSlot<A>,
    id: Id,
    added: Option<usize>,
) -> Option<TableKey>
    ensures edge { IfSome result (λ to. edge_of (edges_of slot.now added) id ≡ Some to) }
    ensures stands { IfSome result (λ to. IsSome (standing (slot_at tables.now to.slot) to.serial)) }
{
    let edges = match added {
        Some(_) => &slot.more,
        None => &slot.less,
    };
    let to = edges.get(id)?;
    if stands(tables, to) { Some(to) } else { None }
}

// Writes an edge, if there is memory for it.
fn write_edge<A: Allocator + Copy>(
    alloc: A,
    hashing: Hashing,
    slot: &mut TableSlot<A>,
    id: Id,
    added: Option<usize>,
    to: TableKey,
)
    ensures slot { slot.new ≡ record slot.old { more = slot.new.more; less = slot.new.less } }
    ensures more { (slot.new.more ≡ slot.old.more) ⊎ (IsSome added × IsWritten id to slot.old.more slot.new.more) }
    ensures less { (slot.new.less ≡ slot.old.less) ⊎ (IsNone added × IsWritten id to slot.old.less slot.new.less) }
{
    match added {
        Some(_) => slot.more.keep(alloc, hashing, id, to),
        None => slot.less.keep(alloc, hashing, id, to),
    }
}

impl<A: Allocator> TableStore<A> {
    /// The greatest serial that a table was given, 0 before the first.
    pub fn last(&self) -> u128
        ensures { result ≡ self.now.last }
    {
        self.last
    }

    /// The table under a key, None once it was released.
    pub fn get(&self, key: TableKey) -> Option<&Table<A>>
        ensures table { MatchOption result (table_at self.now key ≡ None) (λ t. table_at self.now key ≡ Some t.now) }
        ensures whole { IsStored self.now }
    {
        let slot = self.tables.get(key.slot as usize)?;
        if has_serial(slot, key.serial) {
            Some(&slot.table)
        } else {
            None
        }
    }

    /// The table under a key, if it has rows. Of most that have none this is known without a look at the table.
    pub fn filled(&self, key: TableKey) -> Option<&Table<A>>
        ensures table { MatchOption result (rows_in self.now key ≡ 0) (λ t. table_at self.now key ≡ Some t.now) }
        ensures filled { IfSome result (λ t. 0 < length (t.now).entities) }
        ensures whole { IsStored self.now }
    {
        if self.marks.is_filled(key.slot) {
            self.get(key)
        } else {
            None
        }
    }

    /// Of the 64 slots from this one on, those in which a table has rows: a bit each, the lowest for the first.
    pub fn filled_bits(&self, slot: u32) -> u64
        ensures filled { (k : TableKey) → IsSome (table_at self.now k) → slot ≤ k.slot → k.slot < slot + 64
            → bit_at result (k.slot - slot) ≡ (if nat_lt 0 (rows_in self.now k) then 1 else 0) }
        ensures whole { IsStored self.now }
    {
        self.marks.filled_bits(slot)
    }

    /// Whether `width` tables stand whose slots and serials follow one another from this one on. It takes constant
    /// time. That it is true where they stand isn't promised.
    pub fn stand_in_turn(&self, first: TableKey, width: u32) -> bool
        requires { width ≤ 64 }
        ensures stand { IsTrue result → (n : ℕ) → n < width → IsSome (table_at self.now (record {
          slot = first.slot + n;
          serial = first.serial + n;
        })) }
        ensures whole { IsStored self.now }
    {
        self.marks.are_in_turn(first.slot, width) && stands(&self.tables, first)
    }

    /// A row at the end of a table, whose values are zeros. Answers its number.
    pub fn append(&mut self, key: TableKey, entity: EntityId) -> usize
        requires room { 0 < room_at self.old key }
        ensures row { result ≡ rows_in self.old key }
        ensures tables { (q : TableKey) → table_at self.new q ≡ changed_at self.old key (λ t. with_row t entity) q }
        ensures shapes { (q : TableKey) → shape_at self.new q ≡ shape_at self.old q }
        ensures vacant { row_at self.old (record { table = key; row = result }) ≡ None }
        ensures rows { (f : Shape) → shape_at self.old key ≡ Some f → (s : Place)
            → row_at self.new s ≡ with_row_at (row_at self.old) (record {
              table = key;
              row = result;
            }) (entity, zero_cells f) s }
        ensures left { room_at self.new key ≡ room_at self.old key - 1 }
        ensures last { self.new.last ≡ self.old.last }
        ensures whole { IsStored self.new }
    {
        let slot = key.slot as usize;
        let table = &mut self.tables[slot].table;
        let row = table.rows().len();
        table.append(entity);
        self.marks.fill(key.slot, row == 0);
        row
    }

    /// Overwrites the value of an id with data at a row, with as many bytes.
    pub fn set_value(&mut self, key: TableKey, row: usize, id: Id, value: &[u8])
        requires there { row < rows_in self.old key }
        requires data { 0 < length value.now }
        requires size { (f : Shape) → shape_at self.old key ≡ Some f → find_in id f ≡ Some (length value.now) }
        ensures tables { (q : TableKey) → table_at self.new q ≡ changed_at self.old key
            (λ t. with_value t row id value.now) q }
        ensures shapes { (q : TableKey) → shape_at self.new q ≡ shape_at self.old q }
        ensures rows { (v : Row) → row_at self.old (record {
          table = key;
          row = row;
        }) ≡ Some v → (s : Place) → row_at self.new s ≡ with_row_at (row_at self.old) (record {
          table = key;
          row = row;
        }) (with_cell v id value.now) s }
        ensures last { self.new.last ≡ self.old.last }
        ensures whole { IsStored self.new }
    {
        self.tables[key.slot as usize]
            .table
            .set_value(row, id, value);
    }

    /// Overwrites the values of an id with data in all rows of a table, with as many bytes, those of one row after
    /// another.
    pub fn set_column(&mut self, key: TableKey, id: Id, bytes: &[u8])
        requires { AreValues self.old key id bytes.now }
        ensures tables { (q : TableKey) → table_at self.new q ≡ changed_at self.old key
            (λ t. with_column t id bytes.now) q }
        ensures shapes { (q : TableKey) → shape_at self.new q ≡ shape_at self.old q }
        ensures rows { (n : ℕ) → size_in self.old key id ≡ Some n → (p : Place)
            → row_at self.new p ≡ with_column_at (row_at self.old) key id n bytes.now p }
        ensures last { self.new.last ≡ self.old.last }
        ensures whole { IsStored self.new }
    {
        self.tables[key.slot as usize].table.set_column(id, bytes);
    }

    /// Takes a row away. The last row fills the gap; its entity is answered, unless it is the one that went.
    pub fn remove_row(&mut self, key: TableKey, row: usize) -> Option<EntityId>
        requires there { row < rows_in self.old key }
        ensures tables { (q : TableKey) → table_at self.new q ≡ changed_at self.old key (λ t. without_row t row) q }
        ensures shapes { (q : TableKey) → shape_at self.new q ≡ shape_at self.old q }
        ensures rows { (s : Place) → row_at self.new s ≡ removed_rows self.old (record { table = key; row = row }) s }
        ensures filled { result ≡ option_map (λ r. r.0) (filler self.old (record { table = key; row = row })) }
        ensures last { self.new.last ≡ self.old.last }
        ensures whole { IsStored self.new }
    {
        let slot = key.slot as usize;
        let table = &mut self.tables[slot].table;
        let stays_filled = 1 < table.rows().len();
        self.marks.take_row(key.slot, stays_filled);
        table.remove_row(row)
    }

    /// Moves a row to the end of another table: the values of common ids are kept, the others are zeros.
    ///
    /// Answers the row there, and the entity that fills the gap here, as `remove_row` does.
    pub fn move_row(
        &mut self,
        from: TableKey,
        row: usize,
        to: TableKey,
    ) -> (usize, Option<EntityId>)
        requires there { row < rows_in self.old from }
        requires apart { from ≢ to }
        requires room { 0 < room_at self.old to }
        ensures row { result.0 ≡ rows_in self.old to }
        ensures tables { (s : Archetype) → table_at self.old from ≡ Some s
            → (q : TableKey) → table_at self.new q ≡ moved_at self.old from to s row q }
        ensures shapes { (q : TableKey) → shape_at self.new q ≡ shape_at self.old q }
        ensures vacant { row_at self.old (record { table = to; row = result.0 }) ≡ None }
        ensures rows { (v : Row) (f : Shape) → row_at self.old (record {
          table = from;
          row = row;
        }) ≡ Some v → shape_at self.old to ≡ Some f
            → (s : Place) → row_at self.new s ≡ moved_rows self.old (record {
              table = from;
              row = row;
            }) v (record { table = to; row = result.0 }) f s }
        ensures filled { result.1 ≡ option_map (λ r. r.0) (filler self.old (record { table = from; row = row })) }
        ensures last { self.new.last ≡ self.old.last }
        ensures whole { IsStored self.new }
    {
        // Out of its place and back: two slots of one slab can't be borrowed at once.
        let mut source = self.tables.remove(from.slot as usize);
        let target = &mut self.tables[to.slot as usize].table;
        let moved = source.table.move_to(row, target);
        let stays_filled = !source.table.rows().is_empty();
        self.tables.insert_reserved(source);
        self.marks.fill(to.slot, moved.0 == 0);
        self.marks.take_row(from.slot, stays_filled);
        moved
    }

    /// The keys of the tables whose serials are greater than this one, by rising serial.
    pub fn since(&self, serial: u128) -> Since<'_, A>
        ensures exact { (q : TableKey) → Contains result q ↔ (IsSome (table_at self.now q) × (serial < q.serial)) }
        ensures rising { IsStrictlySortedBy nat_cmp (map (λ q. q.serial) result) }
        ensures whole { IsStored self.now }
    {
        Since::new(&self.tables, newer(self.by_serial.as_slice(), serial))
    }

    /// The keys that the store remembers, by rising serial: those of the tables that stand, and some of tables that
    /// were released, at most one more than tables stand.
    pub fn remembered(&self) -> &[ListedKey]
        ensures listed { (q : TableKey) → IsSome (table_at self.now q) → Contains result.now q }
        ensures rising { IsStrictlySortedBy nat_cmp (map (λ q. q.serial) result.now) }
        ensures few { length result.now ≤ 2 * length self.now.tables + 1 }
        ensures whole { IsStored self.now }
    {
        self.by_serial.as_slice()
    }

    /// Releases a table without rows, and its key for good. Of a key that is gone it does nothing.
    pub fn release(&mut self, key: TableKey)
        requires empty { rows_in self.old key ≡ 0 }
        ensures tables { (q : TableKey) → table_at self.new q ≡ released_at self.old key q }
        ensures rows { (p : Place) → row_at self.new p ≡ row_at self.old p }
        ensures last { self.new.last ≡ self.old.last }
        ensures whole { IsStored self.new }
    {
        if !stands(&self.tables, key) {
            return;
        }
        let slot = self.tables.remove(key.slot as usize);
        self.marks.forget_turn(key.slot);
        self.by_ids.remove(slot.table.ids(), key.slot);
        forget_released(&mut self.by_serial, &self.tables);
    }
}
