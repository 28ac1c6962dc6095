//! The table.
ghost use Rattle.std.specs.Prelude.{◌≡◌, ℕ, ◌*◌, ◌-◌, ◌<◌, ◌≤◌, max, min, IfOk, IfSome, OnOk, OnErr, IsOk, MatchOption};
ghost use Rattle.std.specs.Prelude.{length, List, map, None, option_map};
ghost use Rattle.std.specs.Prelude.{replicate, Some, option_copied, slice_get, slice_index, slice_index_or, slice_set};
ghost use Rattle.std.specs.List.{zip};
ghost use Rattle.raw_column.specs.Contents.{column_at};
ghost use Rattle.ecs_id.specs.Id.{Id};
ghost use Rattle.ecs_table.specs.Archetype.{byte_size, column_of, empty_table, moved_into, replaced, size_of, value_of};
ghost use Rattle.ecs_table.specs.Archetype.{values_at, with_column, with_moved};
ghost use Rattle.ecs_table.specs.Archetype.{with_row, with_value, without_row, HaveEqualSizes, IsSound};

use crate::entity_list::EntityList;
use crate::id_list::IdList;
use crate::table_data::TableData;
use ecs_id::{EntityId, Id};
use raw_column::{Block, Memory};
use std::alloc::{Allocator, Global};
use std::marker::Model;

// Places of so many bytes are kept: a few rows that come and go aren't worth a new block.
const FEW_BYTES: usize = 512;

// The bytes of an entity in the list of rows.
const ENTITY_BYTES: usize = 8;

/// The rows of the entities that have exactly the same ids.
///
/// Each id with data has a column with a value for each row. A tag has none. Only `new`, `of_tags` and `reserve` take
/// memory, and `shrink_to` gives it back.
#[derive(Drop)]
pub struct Table<A: Allocator = Global> {
    // First what is read of the table of an entity: its ids, and a column for each id with data.
    ids: IdList<A>,
    values: TableData<A>,
    entities: EntityList<A>,
    // how many more rows fit, with their values
    room: usize,
}

const _: () = prove!(size_of::<Table<Global>>() == 112);

impl<A: Allocator> Model for Table<A> {
    ghost use Rattle.ecs_table.specs.Archetype.{Archetype, seen, IsStored};

    ghost Value = { Archetype };

    ghost view = { λ t. seen t.ids t.values.ids t.values.block t.entities.items t.room };

    ghost invariant = { λ t. IsStored t.ids t.values.ids t.values.block t.entities t.room };
}

impl<A: Allocator + Copy> Table<A> {
    /// A table with no row, of these ids. Beside each id stands how many bytes its value has, 0 to 64: 0 for a tag.
    pub fn new(alloc: A, ids: &[Id], sizes: &[usize]) -> Result<Table<A>, Memory>
        requires paired { length ids.now ≡ length sizes.now }
        requires small { (k : ℕ) → k < length sizes.now → slice_index sizes.now k ≤ 64 }
        ensures { IfOk result (λ table. table ≡ empty_table ids.now sizes.now) }
    {
        Ok(Table {
            ids: IdList::from_slice(alloc, ids)?,
            values: TableData::new(alloc, ids, sizes)?,
            entities: EntityList::new(alloc),
            room: 0,
        })
    }

    /// A table with no row, of these ids, none of which has data.
    pub fn of_tags(alloc: A, ids: &[Id]) -> Result<Table<A>, Memory>
        ensures { IfOk result (λ table. table ≡ empty_table ids.now (replicate (length ids.now) 0)) }
    {
        let room = 0;
        Ok(Table {
            ids: IdList::from_slice(alloc, ids)?,
            values: TableData::of_tags(),
            entities: EntityList::new(alloc),
            room,
        })
    }

    /// Makes room for `additional` more rows. After an error the table is as it was.
    pub fn reserve(&mut self, additional: usize) -> Result<(), Memory>
        ensures ok { OnOk result (self.new ≡ record self.old { room = max self.old.room additional }) }
        ensures err { OnErr result (self.new ≡ self.old) }
        ensures succeeds { additional ≤ self.old.room → IsOk result }
    {
        if additional <= self.room {
            return Ok(());
        }
        self.entities.reserve(additional)?;
        self.values.reserve(additional)?;
        self.room = additional;
        Ok(())
    }

    /// Keeps room for `room` more rows at most, and gives memory back where the rows fill less than three quarters of
    /// it.
    ///
    /// Without rows no more than a few hundred bytes stay. A smaller block that is refused is no error. Where `room` is
    /// at most an eighth of the rows, the cost is a constant for each row that came or went.
    pub fn shrink_to(&mut self, room: usize)
        ensures { self.new ≡ record self.old { room = min self.old.room room } }
    {
        self.room = self.room.min(room);
        let rows = self.entities.len();
        let capacity = rows + self.values.room();
        if 0 < rows && capacity - capacity / 4 <= rows {
            return;
        }
        let few = FEW_BYTES / (self.values.row_size() + ENTITY_BYTES);
        if capacity <= few {
            return;
        }
        // Places for an eighth more rows stay, so that giving back and growing again are a constant for a row.
        let kept = (rows + rows / 8).max(rows + self.room).max(few);
        self.entities.shrink_to(kept);
        self.values.shrink_to(kept);
    }
}

impl<A: Allocator> Table<A> {
    /// The ids of each row's entity.
    pub fn ids(&self) -> &[Id]
        ensures value { result.now ≡ self.now.ids }
        ensures sound { IsSound self.now }
    {
        self.ids.as_slice()
    }

    /// The entities by row.
    pub fn rows(&self) -> &[EntityId]
        ensures value { result.now ≡ self.now.entities }
        ensures sound { IsSound self.now }
    {
        self.entities.as_slice()
    }

    /// How many more rows fit before memory is asked for.
    pub fn room(&self) -> usize
        ensures value { result ≡ self.now.room }
        ensures sound { IsSound self.now }
    {
        self.room
    }

    /// How many bytes a value of an id has: 0 for a tag, and for an id that the table doesn't have.
    pub fn size(&self, id: Id) -> usize
        ensures { result ≡ byte_size self.now id }
    {
        match self.values.find(id) {
            None => 0,
            Some(column) => self.values.size(column),
        }
    }

    /// A row at the end, whose values are zeros.
    pub fn append(&mut self, entity: EntityId)
        requires { 0 < self.old.room }
        ensures { self.new ≡ with_row self.old entity }
    {
        self.entities.push(entity);
        self.values.push_zero();
        self.room -= 1;
    }

    /// The bytes of an id's value at a row, None where the table has no data of the id.
    pub fn value(&self, row: usize, id: Id) -> Option<&[u8]>
        requires { row < length self.now.entities }
        ensures value { MatchOption result (value_of self.now row id ≡ None)
            (λ bytes. value_of self.now row id ≡ Some bytes.now) }
        ensures size { IfSome result (λ bytes. size_of self.now id ≡ Some (length bytes.now)) }
    {
        match self.values.find(id) {
            None => None,
            Some(column) => Some(self.value_in(column, row)),
        }
    }

    /// The bytes of an id's values, those of one row after another, None where the table has no data of the id.
    pub fn column(&self, id: Id) -> Option<&[u8]>
        ensures { MatchOption result (column_of self.now id ≡ None) (λ bytes. column_of self.now id ≡ Some bytes.now) }
    {
        match self.values.find(id) {
            None => None,
            Some(index) => Some(self.values.column(index)),
        }
    }

    /// `value`, with where the search of the id is to begin and where that of the next one.
    fn value_from(&self, from: usize, row: usize, id: Id) -> (usize, Option<&[u8]>)
        requires { row < length self.now.entities }
        ensures { MatchOption result.1 (value_of self.now row id ≡ None)
            (λ bytes. value_of self.now row id ≡ Some bytes.now) }
    {
        let (next, found) = self.values.find_from(from, id);
        match found {
            None => (next, None),
            Some(column) => (next, Some(self.value_in(column, row))),
        }
    }

    /// The bytes of the value in a column at a row.
    fn value_in(&self, column: usize, row: usize) -> &[u8]
        requires column { column < length self.now.columns }
        requires row { row < length self.now.entities }
        ensures value { slice_get (values_at self.now.columns column).items row ≡ Some result.now }
        ensures size { length result.now ≡ (values_at self.now.columns column).size }
    {
        self.values.get(column, row)
    }

    /// Overwrites the value of an id with data at a row, with as many bytes.
    pub fn set_value(&mut self, row: usize, id: Id, value: &[u8])
        requires row { row < length self.old.entities }
        requires size { size_of self.old id ≡ Some (length value.now) }
        ensures { self.new ≡ with_value self.old row id value.now }
    {
        if let Some(column) = self.values.find(id) {
            self.values.set(column, row, value);
        }
    }

    /// Overwrites the values of an id in all rows, with as many bytes, those of one row after another. Of an id without
    /// data it does nothing.
    pub fn set_column(&mut self, id: Id, bytes: &[u8])
        requires { IfSome (size_of self.old id) (λ size. length bytes.now ≡ length self.old.entities * size) }
        ensures { self.new ≡ with_column self.old id bytes.now }
    {
        if let Some(column) = self.values.find(id) {
            self.values.set_column(column, bytes);
        }
    }

    /// Removes a row. The last row fills the gap, and its entity is answered, unless it is the row that went.
    pub fn remove_row(&mut self, row: usize) -> Option<EntityId>
        requires { row < length self.old.entities }
        ensures row { self.new ≡ without_row self.old row }
        ensures moved { result ≡ moved_into self.old row }
    {
        self.entities.swap_remove(row);
        self.values.swap_remove(row);
        self.room += 1;
        self.entities.as_slice().get(row).copied()
    }

    /// Moves a row to the end of another table: the values of common ids are kept, the others are zeros.
    ///
    /// Answers the row there, and the entity that fills the gap here, as `remove_row` does.
    pub fn move_to(&mut self, row: usize, target: &mut Table<A>) -> (usize, Option<EntityId>)
        requires row { row < length self.old.entities }
        requires room { 0 < target.old.room }
        requires sizes { HaveEqualSizes self.old target.old }
        ensures row { result.0 ≡ length target.old.entities }
        ensures moved { result.1 ≡ moved_into self.old row }
        ensures left { self.new ≡ without_row self.old row }
        ensures came { target.new ≡ with_moved target.old self.old row }

        // What this says of each id: with data in both tables it keeps its value, and without data here it has zeros.
        ensures kept { (i : Id) (n : ℕ) (bytes : List ℕ) → size_of target.old i ≡ Some n
            → value_of self.old row i ≡ Some bytes
            → value_of target.new result.0 i ≡ Some bytes }
        ensures zeros { (i : Id) → value_of self.old row i ≡ None → value_of target.new result.0 i
            ≡ option_map (λ n. replicate n 0) (size_of target.old i) }
    {
        let last = target.entities.len();
        target.push_row(self, row);
        (last, self.remove_row(row))
    }

    /// A row at the end with the entity and the values of a row of another table, and zeros for its other ids.
    fn push_row(&mut self, source: &Table<A>, row: usize)
        requires row { row < length source.now.entities }
        requires room { 0 < self.old.room }
        requires sizes { HaveEqualSizes source.now self.old }
        ensures came { self.new ≡ with_moved self.old source.now row }
        ensures kept { (i : Id) (n : ℕ) (bytes : List ℕ) → size_of self.old i ≡ Some n
            → value_of source.now row i ≡ Some bytes
            → value_of self.new (length self.old.entities) i ≡ Some bytes }
        ensures zeros { (i : Id) → value_of source.now row i ≡ None
            → value_of self.new (length self.old.entities) i ≡ option_map (λ n. replicate n 0) (size_of self.old i) }
    {
        self.entities.push(source.entities.at(row));
        self.values.push_zero();
        self.values.copy_row(source, row);
        self.room -= 1;
    }
}

/// Copies the values of a row of a table over those in the last row of these columns, where the table has data of a
/// column's id.
pub(crate) fn copy_values<A: Allocator>(
    columns: &mut Block<A>,
    ids: &[Id],
    source: &Table<A>,
    row: usize,
)
    requires row { row < length source.now.entities }
    requires last { 0 < columns.old.len }
    requires paired { length ids.now ≡ length columns.old.columns }
    ensures { columns.new ≡ record columns.old {
      columns = map (λ p. replaced (columns.old.len - 1) (value_of source.now row p.0) p.1)
          (zip ids.now columns.old.columns);
    } }
{
    let last = columns.len() - 1;
    let mut from = 0;
    for k in 0..ids.len() {
        let (next, value) = source.value_from(from, row, ids[k]);
        copy_value(columns, k, last, value);
        from = next;
    }
}

/// Overwrites a value, if there is one of its size to take its place.
fn copy_value<A: Allocator>(columns: &mut Block<A>, column: usize, row: usize, value: Option<&[u8]>)
    requires column { column < length columns.old.columns }
    requires row { row < columns.old.len }
    ensures { columns.new ≡ record columns.old {
      columns = slice_set columns.old.columns column
          (replaced row (option_copied value.entry) (column_at columns.old column));
    } }
{
    if let Some(bytes) = value
        && bytes.len() == columns.size(column)
    {
        columns.set(column, row, bytes);
    }
}
