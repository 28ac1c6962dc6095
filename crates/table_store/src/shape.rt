//! The shapes of tables: their ids in order, each with how many bytes its values have.
ghost use Rattle.std.specs.Prelude.{◌≡◌, ◌==◌, ◌++◌, IfOk, OnOk, IsTrue, map, not};
ghost use Rattle.std.specs.FinMap.{is_sorted};
ghost use Rattle.std.specs.List.{filter, list_all};
ghost use Rattle.std.specs.Ordering.{is_lt};
ghost use Rattle.ecs_id.specs.Id.{id_cmp, id_eq};
ghost use Rattle.table_store.specs.Kept.{stepped};
ghost use Rattle.table_store.specs.Store.{byte_size, shape_of};

use crate::sized::SizedId;
use ecs_id::Id;
use ecs_table::Table;
use list_growth::push;
use smallvec::SmallVec;
use std::alloc::{AllocError, Allocator};

/// Makes the list the shape of a table with one more id, where a size of it is given, or with one less.
pub fn next_shape<A: Allocator>(
    cells: &mut Vec<SizedId, A>,
    table: &Table<A>,
    id: Id,
    added: Option<usize>,
) -> Result<(), AllocError>
    requires { IsTrue (is_sorted id_cmp (shape_of table.now)) }
    ensures { OnOk result (cells.new.items ≡ stepped (shape_of table.now) id added) }
{
    cells.clear();
    match added {
        Some(size) => {
            push_below(cells, table, id)?;
            push(cells, SizedId::new(id, size))?;
            push_above(cells, table, id)
        }
        None => push_others(cells, table, id),
    }
}

// The ids of a table that are below this one, with their sizes.
fn push_below<A: Allocator>(
    cells: &mut Vec<SizedId, A>,
    table: &Table<A>,
    id: Id,
) -> Result<(), AllocError>
    ensures { OnOk result (cells.new.items ≡ cells.old.items ++ map (λ i. (i, byte_size table.now i))
        (filter (λ i. is_lt (id_cmp i id)) (table.now).ids)) }
{
    for known in table.ids() {
        if *known < id {
            push(cells, SizedId::new(*known, table.size(*known)))?;
        }
    }
    Ok(())
}

// The ids of a table that are above this one, with their sizes.
fn push_above<A: Allocator>(
    cells: &mut Vec<SizedId, A>,
    table: &Table<A>,
    id: Id,
) -> Result<(), AllocError>
    ensures { OnOk result (cells.new.items ≡ cells.old.items ++ map (λ i. (i, byte_size table.now i))
        (filter (λ i. is_lt (id_cmp id i)) (table.now).ids)) }
{
    for known in table.ids() {
        if id < *known {
            push(cells, SizedId::new(*known, table.size(*known)))?;
        }
    }
    Ok(())
}

// The ids of a table but for this one, with their sizes.
fn push_others<A: Allocator>(
    cells: &mut Vec<SizedId, A>,
    table: &Table<A>,
    id: Id,
) -> Result<(), AllocError>
    ensures { OnOk result (cells.new.items ≡ cells.old.items ++ map (λ i. (i, byte_size table.now i))
        (filter (λ i. not (id_eq i id)) (table.now).ids)) }
{
    for known in table.ids() {
        if *known != id {
            push(cells, SizedId::new(*known, table.size(*known)))?;
        }
    }
    Ok(())
}

/// Whether no id of a shape has data.
pub fn are_tags(shape: &[SizedId]) -> bool
    ensures { result ≡ list_all (λ c. c.1 == 0) shape.now }
{
    shape.iter().all(|cell| cell.size() == 0)
}

/// Makes the list the ids of a shape.
pub fn set_ids<A: Allocator>(ids: &mut Vec<Id, A>, shape: &[SizedId]) -> Result<(), AllocError>
    ensures { OnOk result (ids.new.items ≡ map (λ c. c.0) shape.now) }
{
    ids.clear();
    for cell in shape {
        push(ids, cell.id())?;
    }
    Ok(())
}

// So many sizes take no block of memory.
const FEW: usize = 8;

/// Sizes that are needed for a moment. Few of them take no block of memory.
pub type Sizes<'a, A> = SmallVec<usize, FEW, &'a A>;

/// Adds the sizes of a shape.
pub fn push_sizes<A: Allocator>(
    sizes: &mut Sizes<'_, A>,
    shape: &[SizedId],
) -> Result<(), AllocError>
    ensures { OnOk result (sizes.new.items ≡ sizes.old.items ++ map (λ c. c.1) shape.now) }
{
    for cell in shape {
        sizes.push(cell.size())?;
    }
    Ok(())
}
