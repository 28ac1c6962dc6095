//! What entities and tables do together, so that each entity keeps its row.
ghost use Rattle.std.specs.Prelude.{◌≡◌, ◌≢◌, ◌<◌, Some, None, IsTrue, length};
ghost use Rattle.std.specs.Option.{option_copied};
ghost use Rattle.ecs_id.specs.Id.{id_cmp};
ghost use Rattle.ecs_model.specs.Map.{value_at};
ghost use Rattle.entity_index.specs.Entities.{is_alive, is_deletable, place_of};
ghost use Rattle.ecs_archetypes.specs.Archetypes.{IsSound, meaning};
ghost use Rattle.ecs_table.specs.Archetype.{zero_cells};
ghost use Rattle.ecs_archetypes.specs.Holdings.{HoldAlike, held_at, with_cells, without_entity};
ghost use Rattle.ecs_archetypes.specs.Tables.{StandAlike, TakesRoom};
ghost use Rattle.table_store.specs.Rows.{carried, cells_of};
ghost use Rattle.table_store.specs.Store.{Shape, room_at, shape_at};

use crate::tables::EnteredTables;
use ecs_id::{EntityId, Id, Place, TableKey};
use ecs_table::Table;
use entity_index::EntityIndex;
use std::alloc::Allocator;

/// Puts an entity that stands nowhere into a table.
pub fn enter<A: Allocator>(
    entities: &mut EntityIndex<A>,
    tables: &mut EnteredTables<A>,
    entity: EntityId,
    key: TableKey,
)
    requires sound { IsSound entities.old tables.old }
    requires alive { IsTrue (is_alive entities.old entity) }
    requires nowhere { place_of entities.old entity ≡ None }
    requires room { 0 < room_at tables.old key }
    ensures sound { IsSound entities.new tables.new }
    ensures held { (f : Shape) → shape_at tables.old key ≡ Some f
        → HoldAlike (meaning entities.new tables.new) (with_cells (meaning entities.old tables.old) entity.index
        (zero_cells f)) }
    ensures alike { StandAlike tables.old tables.new }
    ensures room { TakesRoom key tables.old tables.new }
{
    let row = tables.store.append(key, entity);
    entities.set_place(entity, Place { table: key, row });
}

/// Moves the row of an entity to another table, and answers where it stands then. The entity whose row fills the gap
/// stands there from then on. The memory that the row has left is kept.
pub fn carry<A: Allocator>(
    entities: &mut EntityIndex<A>,
    tables: &mut EnteredTables<A>,
    entity: EntityId,
    place: Place,
    to: TableKey,
) -> Place
    requires sound { IsSound entities.old tables.old }
    requires there { place_of entities.old entity ≡ Some place }
    requires apart { place.table ≢ to }
    requires room { 0 < room_at tables.old to }
    ensures sound { IsSound entities.new tables.new }
    ensures placed { place_of entities.new entity ≡ Some result }
    ensures held { (f : Shape) → shape_at tables.old to ≡ Some f
        → HoldAlike (meaning entities.new tables.new) (with_cells (meaning entities.old tables.old) entity.index
        (carried f (held_at (meaning entities.old tables.old) entity.index))) }
    ensures alike { StandAlike tables.old tables.new }
    ensures room { TakesRoom to tables.old tables.new }
{
    let (row, filled) = tables.store.move_row(place.table, place.row, to);
    let now = Place { table: to, row };
    entities.set_place(entity, now);
    let Some(other) = filled else {
        return now;
    };
    entities.set_place(other, place);
    now
}

/// `carry`, after which the table that lost the row gives back the memory that its rows have left.
pub fn carry_alone<A: Allocator + Copy>(
    entities: &mut EntityIndex<A>,
    tables: &mut EnteredTables<A>,
    entity: EntityId,
    place: Place,
    to: TableKey,
) -> Place
    requires sound { IsSound entities.old tables.old }
    requires there { place_of entities.old entity ≡ Some place }
    requires apart { place.table ≢ to }
    requires room { 0 < room_at tables.old to }
    ensures sound { IsSound entities.new tables.new }
    ensures placed { place_of entities.new entity ≡ Some result }
    ensures held { (f : Shape) → shape_at tables.old to ≡ Some f
        → HoldAlike (meaning entities.new tables.new) (with_cells (meaning entities.old tables.old) entity.index
        (carried f (held_at (meaning entities.old tables.old) entity.index))) }
    ensures alike { StandAlike tables.old tables.new }
{
    let now = carry(entities, tables, entity, place, to);
    tables.shrink(place.table);
    now
}

/// Deletes an entity with its row. The entity whose row fills the gap stands there from then on.
pub fn leave<A: Allocator>(
    entities: &mut EntityIndex<A>,
    tables: &mut EnteredTables<A>,
    entity: EntityId,
    place: Place,
)
    requires sound { IsSound entities.old tables.old }
    requires there { place_of entities.old entity ≡ Some place }
    requires deletable { IsTrue (is_deletable entities.old entity) }
    ensures sound { IsSound entities.new tables.new }
    ensures held { HoldAlike (meaning entities.new tables.new) (without_entity
        (meaning entities.old tables.old) entity.index) }
    ensures alike { StandAlike tables.old tables.new }
{
    entities.delete(entity);
    let filled = tables.store.remove_row(place.table, place.row);
    let Some(other) = filled else {
        return;
    };
    entities.set_place(other, place);
}

/// `leave`, after which the table that lost the row gives back the memory that its rows have left.
pub fn leave_alone<A: Allocator + Copy>(
    entities: &mut EntityIndex<A>,
    tables: &mut EnteredTables<A>,
    entity: EntityId,
    place: Place,
)
    requires sound { IsSound entities.old tables.old }
    requires there { place_of entities.old entity ≡ Some place }
    requires deletable { IsTrue (is_deletable entities.old entity) }
    ensures sound { IsSound entities.new tables.new }
    ensures held { HoldAlike (meaning entities.new tables.new) (without_entity
        (meaning entities.old tables.old) entity.index) }
    ensures alike { StandAlike tables.old tables.new }
{
    leave(entities, tables, entity, place);
    tables.shrink(place.table);
}

/// The bytes of an id's value at a row of a table: none for a tag.
pub fn value_in<A: Allocator>(table: &Table<A>, row: usize, id: Id) -> Option<&[u8]>
    requires { row < length table.now.entities }
    ensures { option_copied result ≡ value_at id_cmp (cells_of table.now row) id }
{
    let ids = table.ids();
    // An id with data is one of them.
    match table.value(row, id) {
        Some(bytes) => Some(bytes),
        None => { if ids.contains(&id) { Some(&[]) } else { None } }
    }
}
