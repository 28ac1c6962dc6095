//! The fields of a row, with their values.

ghost use Rattle.std.specs.Prelude.{◌≡◌, ◌≤◌, ◌+◌, ◌*◌, Some, IfSome, length, option_map, slice_get, if◌then◌else◌};
ghost use Rattle.std.specs.Prelude.{None};
ghost use Rattle.ecs_model.specs.Bytes.{size_of};
ghost use Rattle.ecs_model.specs.World.{WorldState, type_of_id};
ghost use Rattle.ecs_model.specs.rows.View.{view_of};
ghost use Rattle.query_chunks.specs.Chunk.{field_at as column_field, seen_column, value_at as column_value};
ghost use Rattle.plan_fields.specs.Fields.{shown_field};
ghost use Rattle.world_rows.specs.Fields.{HasItsFields, as_field};
ghost use Rattle.world_rows.specs.Tabled.{HasRow, IsTyped};
ghost use Rattle.world_rows.specs.Values.{numbers_of};

use ecs_id::Id;
use ecs_schema::Schema;
use ecs_schema::laws::bytes_are_a_value;
use ecs_world::World;
use plan_fields::ShownFact;
use query_chunks::Column;
use std::alloc::Allocator;
use std::marker::Model;

/// A field of a row that is set: the entity that has the fact, the fact's id, and its value, if the term shows it and
/// the id has fields.
#[derive(Drop)]
pub struct Field<'w, W: Allocator> {
    pub source: u32,
    pub id: Id,
    pub value: Option<FactValue<'w, W>>,
}

/// The value of a fact, as it stands in its table, with the fields of its id.
#[derive(Drop)]
pub struct FactValue<'w, W: Allocator> {
    schema: &'w Schema<W>,
    bytes: &'w [u8],
}

impl<'w, W: Allocator> Model for FactValue<'w, W> {
    ghost use Rattle.std.specs.Prelude.{◌≡◌, length};
    ghost use Rattle.ecs_model.specs.Bytes.{size_of};
    ghost use Rattle.world_rows.specs.Values.{ShownValue};

    ghost Value = { ShownValue };

    ghost view = { λ v. record { schema = v.schema.now; bytes = v.bytes.now } };

    ghost invariant = { λ v. length v.bytes.now ≡ size_of v.schema.now };
}

impl<'w, W: Allocator> FactValue<'w, W> {
    /// The fields of the id.
    pub fn schema(&self) -> &'w Schema<W>
        ensures { result.now ≡ (self.now).schema }
    {
        self.schema
    }

    /// The bytes of the value, as `Schema::decode` reads them.
    pub fn bytes(&self) -> &'w [u8]
        ensures bytes { result.now ≡ (self.now).bytes }
        ensures size { length result.now ≡ size_of (self.now).schema }
    {
        self.bytes
    }

    /// The number of the field with this place, if there is one.
    pub fn number(&self, field: usize) -> Option<i128>
        ensures { result ≡ slice_get (numbers_of self.now) field }
    {
        bytes_are_a_value(self.schema, self.bytes);
        if field >= self.schema.field_count() {
            return None;
        }
        Some(self.schema.decode(self.bytes, field))
    }
}

/// The field that shows a fact of a world.
pub(crate) fn field_of<'w, W: Allocator>(world: &'w World<W>, fact: ShownFact) -> Field<'w, W>
    ensures field { as_field (Some result) ≡ shown_field (view_of world.now.state) (Some fact) }
    ensures fields { HasItsFields world.now.state (Some result) }
{
    let (source, id) = (fact.source, fact.id);
    let value = shown_value(world, source, id, fact.shows_value);
    Field { source, id, value }
}

/// The field that a column has in a row, in which this entity stands.
pub(crate) fn field_at<'w, W: Allocator>(
    column: &Column<'w, W>,
    row: usize,
    source: u32,
) -> Option<Field<'w, W>>
    requires { HasRow row (seen_column column.now) }
    ensures field { as_field result ≡ column_field source row (seen_column column.now) }
    ensures fields { (w : WorldState) → IsTyped w (seen_column column.now) → HasItsFields w result }
{
    match column {
        Column::Unset => None,
        Column::Id(id) => Some(Field {
            source,
            id: *id,
            value: None,
        }),
        Column::Values(id, schema, bytes) => Some(Field {
            source,
            id: *id,
            value: Some(value_at(schema, bytes, row)),
        }),
    }
}

/// The value of a row in the bytes of a column.
fn value_at<'w, W: Allocator>(
    schema: &'w Schema<W>,
    bytes: &'w [u8],
    row: usize,
) -> FactValue<'w, W>
    requires { (row + 1) * size_of schema.now ≤ length bytes.now }
    ensures numbers { numbers_of result ≡ column_value row (schema.now, bytes.now) }
    ensures schema { result.schema ≡ schema.now }
{
    let size = schema.size();
    let from = &bytes[row * size..];
    FactValue {
        schema,
        bytes: &from[..size],
    }
}

/// The value of a fact of a world, if it is to be shown.
fn shown_value<'w, W: Allocator>(
    world: &'w World<W>,
    source: u32,
    id: Id,
    shows_value: bool,
) -> Option<FactValue<'w, W>>
    ensures numbers { option_map numbers_of result ≡ (if shows_value then
        (view_of world.now.state).value source id else None) }
    ensures schema { IfSome result (λ v. type_of_id world.now.state id ≡ Some v.schema) }
{
    if !shows_value {
        return None;
    }
    value_of(world, source, id)
}

/// The value of a fact of a world: none where there is no such fact, or its id has no fields.
fn value_of<'w, W: Allocator>(world: &'w World<W>, source: u32, id: Id) -> Option<FactValue<'w, W>>
    ensures numbers { option_map numbers_of result ≡ (view_of world.now.state).value source id }
    ensures schema { IfSome result (λ v. type_of_id world.now.state id ≡ Some v.schema) }
{
    let schema = world.type_of(id)?;
    let bytes = world.bytes(source, id)?;
    Some(FactValue { schema, bytes })
}
