//! The ids with data of a table and their columns, for which a table of tags has no memory.
ghost use Rattle.std.specs.Prelude.{◌≡◌, ℕ, ◌+◌, ◌-◌, ◌*◌, ◌^◌, ◌<◌, ◌≤◌, [], length, map, min, nat_lt, slice_get};
ghost use Rattle.std.specs.Prelude.{slice_index, IfOk, IfSome, IsOk, OnErr};
ghost use Rattle.std.specs.Prelude.{OnOk, Some};
ghost use Rattle.std.specs.List.{concat, filter, zip};
ghost use Rattle.raw_column.specs.Contents.{capacity_of, column_at, empty_contents, row_bytes, with_column};
ghost use Rattle.raw_column.specs.Contents.{with_item_in, with_zeros, without_row};
ghost use Rattle.ecs_table.specs.Archetype.{ids_with_data, index_in, replaced, value_of};

use crate::columns::{ids_with_data, sizes_with_data};
use crate::data_ids::DataIds;
use crate::table::{Table, copy_values};
use ecs_id::Id;
use raw_column::{Block, Memory};
use std::alloc::Allocator;
use std::marker::Model;

/// The ids with data, and a column for each.
#[derive(Drop)]
pub(crate) struct Columns<A: Allocator> {
    ids: DataIds<A>,
    block: Block<A>,
}

/// How many rows without data there are, and how many there are places for.
#[derive(Clone, Copy)]
pub(crate) struct Places {
    len: usize,
    capacity: usize,
}

// The columns stand in a box, since most tables of many have tags alone.
#[derive(Drop)]
pub(crate) enum Stored<A: Allocator> {
    Tags(Places),
    Data(Box<Columns<A>, A>),
}

/// The ids with data, and the values of each row. Of tags the rows are counted alone.
#[derive(Drop)]
pub(crate) struct TableData<A: Allocator> {
    stored: Stored<A>,
}

impl<A: Allocator> Model for TableData<A> {
    ghost use Rattle.ecs_table.specs.TableData.{IsPlaced, Values, values_in};

    ghost Value = { Values };

    ghost view = { λ d. values_in d.stored };

    ghost invariant = { λ d. IsPlaced d.stored };
}

impl<A: Allocator + Copy> TableData<A> {
    /// No rows of these ids. Beside each id stands how many bytes its value has, 0 for a tag.
    pub(crate) fn new(alloc: A, ids: &[Id], sizes: &[usize]) -> Result<TableData<A>, Memory>
        requires small { (k : ℕ) → k < length sizes.now → slice_index sizes.now k ≤ 64 }
        ensures ids { IfOk result (λ values. values.ids ≡ ids_with_data ids.now sizes.now) }
        ensures block { IfOk result (λ values. values.block ≡ empty_contents (filter (λ s. nat_lt 0 s) sizes.now)) }
    {
        let sized = sizes_with_data(&alloc, sizes)?;
        let columns = Columns {
            block: Block::new(alloc, sized.as_slice())?,
            ids: DataIds::new(ids_with_data(alloc, ids, sizes)?),
        };
        match Box::new(alloc, columns) {
            Ok(columns) => Ok(TableData {
                stored: Stored::Data(columns),
            }),
            Err(_) => Err(Memory),
        }
    }
}

impl<A: Allocator> TableData<A> {
    /// No rows of tags alone, which take no memory.
    pub(crate) fn of_tags() -> TableData<A>
        ensures ids { result.ids ≡ [] }
        ensures block { result.block ≡ empty_contents [] }
    {
        TableData {
            stored: Stored::Tags(Places {
                len: 0,
                capacity: 0,
            }),
        }
    }

    /// The column of an id.
    #[inline(always)]
    #[tactic(auto, unfolding(crate::specs::Archetype::index_in))]
    pub(crate) fn find(&self, id: Id) -> Option<usize>
        ensures index { result ≡ index_in self.now.ids id }
        ensures within { IfSome result (λ index. index < length self.now.ids) }
    {
        match &self.stored {
            Stored::Tags(_) => None,
            Stored::Data(columns) => columns.ids.find(id),
        }
    }

    /// The columns of many ids in turn: the search begins at `from`, and answers where that of the next one is to
    /// begin.
    #[inline(always)]
    #[tactic(auto, unfolding(crate::specs::Archetype::index_in))]
    pub(crate) fn find_from(&self, from: usize, id: Id) -> (usize, Option<usize>)
        ensures index { result.1 ≡ index_in self.now.ids id }
        ensures within { IfSome result.1 (λ index. index < length self.now.ids) }
    {
        match &self.stored {
            Stored::Tags(_) => (0, None),
            Stored::Data(columns) => columns.ids.find_from(from, id),
        }
    }

    /// The bytes of a value in a column.
    pub(crate) fn size(&self, column: usize) -> usize
        requires { column < length self.now.block.columns }
        ensures { result ≡ (column_at self.now.block column).size }
    {
        match &self.stored {
            Stored::Tags(_) => unreachable!(),
            Stored::Data(columns) => columns.block.size(column),
        }
    }

    /// The bytes of a row in all columns.
    pub(crate) fn row_size(&self) -> usize
        ensures value { result ≡ row_bytes self.now.block }
        ensures small { result < 2 ^ 32 }
    {
        match &self.stored {
            Stored::Tags(_) => 0,
            Stored::Data(columns) => columns.block.row_size(),
        }
    }

    /// How many more rows fit before memory is asked for.
    #[inline(always)]
    pub(crate) fn room(&self) -> usize
        ensures value { result ≡ self.now.block.room }
        ensures within { self.now.block.len + result < 2 ^ 63 }
    {
        match &self.stored {
            Stored::Tags(places) => places.capacity - places.len,
            Stored::Data(columns) => columns.block.room(),
        }
    }

    /// Makes room for `additional` more rows. A growth at least doubles what fits.
    pub(crate) fn reserve(&mut self, additional: usize) -> Result<(), Memory>
        ensures ids { self.new.ids ≡ self.old.ids }
        ensures room { OnOk result (additional ≤ self.new.block.room) }
        ensures rows { OnOk result (self.new.block ≡ record self.old.block { room = self.new.block.room }) }
        ensures err { OnErr result (self.new.block ≡ self.old.block) }
        ensures succeeds { additional ≤ self.old.block.room → IsOk result × (self.new.block ≡ self.old.block) }
    {
        match &mut self.stored {
            Stored::Tags(places) => {
                if additional <= places.capacity - places.len {
                    return Ok(());
                }
                *places = grown(*places, additional)?;
                Ok(())
            }
            Stored::Data(columns) => columns.block.reserve(additional),
        }
    }

    /// Gives memory back: there are places for about `min_capacity` rows then, or for all that there are.
    pub(crate) fn shrink_to(&mut self, min_capacity: usize)
        ensures ids { self.new.ids ≡ self.old.ids }
        ensures rows { self.new.block ≡ record self.old.block { room = self.new.block.room } }
        ensures capacity { capacity_of self.new.block ≤ capacity_of self.old.block }
        ensures lower_bound { min min_capacity (capacity_of self.old.block) ≤ capacity_of self.new.block }
    {
        match &mut self.stored {
            Stored::Tags(places) => *places = shrunk(*places, min_capacity),
            Stored::Data(columns) => columns.block.shrink_to(min_capacity),
        }
    }

    /// A row of zeros at the end.
    #[inline(always)]
    pub(crate) fn push_zero(&mut self)
        requires { 0 < self.old.block.room }
        ensures ids { self.new.ids ≡ self.old.ids }
        ensures block { self.new.block ≡ with_zeros self.old.block }
    {
        match &mut self.stored {
            Stored::Tags(places) => places.len += 1,
            Stored::Data(columns) => columns.block.push_zero(),
        }
    }

    /// The bytes of the value in a column and a row.
    #[inline(always)]
    pub(crate) fn get(&self, column: usize, row: usize) -> &[u8]
        requires column { column < length self.now.block.columns }
        requires row { row < self.now.block.len }
        ensures value { slice_get (column_at self.now.block column).items row ≡ Some result.now }
        ensures len { length result.now ≡ (column_at self.now.block column).size }
    {
        match &self.stored {
            Stored::Tags(_) => unreachable!(),
            Stored::Data(columns) => columns.block.get(column, row),
        }
    }

    /// The bytes of all values in a column, those of one row after another.
    #[inline(always)]
    pub(crate) fn column(&self, column: usize) -> &[u8]
        requires { column < length self.now.block.columns }
        ensures { result.now ≡ concat (column_at self.now.block column).items }
    {
        match &self.stored {
            Stored::Tags(_) => unreachable!(),
            Stored::Data(columns) => columns.block.column(column),
        }
    }

    /// Overwrites the value in a column and a row with as many bytes.
    #[inline(always)]
    pub(crate) fn set(&mut self, column: usize, row: usize, value: &[u8])
        requires column { column < length self.old.block.columns }
        requires row { row < self.old.block.len }
        requires size { length value.now ≡ (column_at self.old.block column).size }
        ensures ids { self.new.ids ≡ self.old.ids }
        ensures block { self.new.block ≡ with_item_in self.old.block column row value.now }
    {
        match &mut self.stored {
            Stored::Tags(_) => unreachable!(),
            Stored::Data(columns) => columns.block.set(column, row, value),
        }
    }

    /// Overwrites all values in a column with as many bytes, those of one row after another.
    #[inline(always)]
    pub(crate) fn set_column(&mut self, column: usize, bytes: &[u8])
        requires column { column < length self.old.block.columns }
        requires size { length bytes.now ≡ self.old.block.len * (column_at self.old.block column).size }
        ensures ids { self.new.ids ≡ self.old.ids }
        ensures block { self.new.block ≡ with_column self.old.block column bytes.now }
    {
        match &mut self.stored {
            Stored::Tags(_) => unreachable!(),
            Stored::Data(columns) => columns.block.set_column(column, bytes),
        }
    }

    /// Removes a row. The last one fills the gap.
    #[inline(always)]
    pub(crate) fn swap_remove(&mut self, row: usize)
        requires { row < self.old.block.len }
        ensures ids { self.new.ids ≡ self.old.ids }
        ensures block { self.new.block ≡ without_row self.old.block row }
    {
        match &mut self.stored {
            Stored::Tags(places) => places.len -= 1,
            Stored::Data(columns) => columns.block.swap_remove(row),
        }
    }

    /// Copies the values of a row of a table over those in the last row, where the table has data of a column's id.
    #[inline(always)]
    pub(crate) fn copy_row(&mut self, source: &Table<A>, row: usize)
        requires row { row < length source.now.entities }
        requires last { 0 < self.old.block.len }
        requires paired { length self.old.ids ≡ length self.old.block.columns }
        ensures ids { self.new.ids ≡ self.old.ids }
        ensures block { self.new.block ≡ record self.old.block {
          columns = map (λ p. replaced (self.old.block.len - 1) (value_of source.now row p.0) p.1)
              (zip self.old.ids self.old.block.columns);
        } }
    {
        match &mut self.stored {
            Stored::Tags(_) => {}
            Stored::Data(columns) => columns.copy_row(source, row),
        }
    }
}

impl<A: Allocator> Columns<A> {
    fn copy_row(&mut self, source: &Table<A>, row: usize)
        requires row { row < length source.now.entities }
        requires last { 0 < self.old.block.len }
        requires paired { length self.old.ids ≡ length self.old.block.columns }
        ensures ids { self.new.ids ≡ self.old.ids }
        ensures block { self.new.block ≡ record self.old.block {
          columns = map (λ p. replaced (self.old.block.len - 1) (value_of source.now row p.0) p.1)
              (zip self.old.ids self.old.block.columns);
        } }
    {
        copy_values(&mut self.block, self.ids.as_slice(), source, row);
    }
}

/// Places for so many more rows, and for twice as many as before where that is more.
fn grown(places: Places, additional: usize) -> Result<Places, Memory>
    requires { (places.len ≤ places.capacity) × (places.capacity < 2 ^ 63) }
    ensures len { IfOk result (λ p. p.len ≡ places.len) }
    ensures room { IfOk result (λ p. places.len + additional ≤ p.capacity) }
    ensures within { IfOk result (λ p. (p.len ≤ p.capacity) × (p.capacity < 2 ^ 63)) }
{
    let most = isize::MAX as usize;
    if most - places.len < additional {
        return Err(Memory);
    }
    let least = (places.len + additional).max(2 * places.capacity);
    Ok(Places {
        len: places.len,
        capacity: least.min(most),
    })
}

/// Places for at most so many rows, or for all that there are.
fn shrunk(places: Places, min_capacity: usize) -> Places
    requires { places.len ≤ places.capacity }
    ensures len { result.len ≡ places.len }
    ensures within { places.len ≤ result.capacity }
    ensures fewer { result.capacity ≤ places.capacity }
    ensures lower_bound { min min_capacity places.capacity ≤ result.capacity }
{
    Places {
        len: places.len,
        capacity: places.capacity.min(places.len.max(min_capacity)),
    }
}
