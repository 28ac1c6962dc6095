//! The line of a row.

ghost use Rattle.std.specs.Prelude.{◌≡◌, ◌+◌, ◌<◌, ◌≤◌, ◌++◌, All, OnErr, OnOk, Some, codes, flat_map, length, map};
ghost use Rattle.std.specs.List.{zip};
ghost use Rattle.ecs_model.specs.Bytes.{size_of, values_in};
ghost use Rattle.ecs_model.specs.Print.{field_text, index_text, value_text};
ghost use Rattle.ecs_model.specs.rows.View.{view_of};
ghost use Rattle.ecs_print.specs.Stops.{StopsWithin};
ghost use Rattle.plan_fields.specs.Fields.{shown_field};
ghost use Rattle.world_query.specs.Lines.{AreTexts, IsEntityText, IsKept, IsLabel, IsLabelOf, field_end, label_text};
ghost use Rattle.world_query.specs.Lines.{line_end, line_headed, row_alone, started};
ghost use Rattle.world_query.specs.Lines.{starts_in, text_of};

use crate::labels::{EntityText, Label, PaddedText, place_of_source, place_of_text};
use crate::sheet::{CHUNK, Sheet};
use ecs_id::Id;
use ecs_print::{MOST_TEXT, put_fields};
use ecs_schema::Schema;
use ecs_world::World;
use plan_fields::{Fields, ShownFact};
use std::alloc::{AllocError, Allocator};

/// What is kept while the rows of a query are printed: the text of an entity for each place of a row, which are its
/// columns, one for each visible variable, and after them its fields; and a label for each field.
///
/// A place shows the text of its own, or one that stands before it. Only its own is changed for it, so none that a row
/// has shown is lost before the row ends, and each entity of a row is looked up at most once.
#[derive(Drop)]
pub(crate) struct Texts<'w, A: Allocator, B: Allocator> {
    pub(crate) entities: Vec<EntityText<B>, B>,
    pub(crate) labels: Vec<Label<'w, A, B>, B>,
}

/// Writes the line of a row: `row`, a binding for each visible variable, and its fields. Each binding has its start,
/// ` $v=`, and that of the first one begins with `row`.
pub(crate) fn write_row<'w, A: Allocator, B: Allocator>(
    world: &'w World<A>,
    starts: &[PaddedText<B>],
    entities: &[u32],
    fields: &Fields<B>,
    texts: &mut Texts<'w, A, B>,
    sheet: &mut Sheet<A>,
) -> Result<(), AllocError>
    requires texts { AreTexts world.now.state (length starts.now) (length (fields.now).items) texts.old }
    ensures texts { OnOk result (AreTexts world.now.state (length starts.now) (length (fields.now).items) texts.new) }
    ensures row { OnOk result (sheet.new ≡ sheet.old
        ++ line_headed world.now.state (starts_in starts.now) entities.now (fields.now).current) }
    ensures front { OnErr result (StopsWithin sheet.old sheet.new
        (line_headed world.now.state (starts_in starts.now) entities.now (fields.now).current)) }
{
    begin_row(starts, sheet)?;
    write_bindings(
        world,
        starts,
        entities,
        texts.entities.as_mut_slice(),
        sheet,
    )?;
    write_all_fields(world, fields, starts.len(), texts, sheet)
}

/// Writes `row` where no binding begins with it.
fn begin_row<A: Allocator, B: Allocator>(
    starts: &[PaddedText<B>],
    sheet: &mut Sheet<A>,
) -> Result<(), AllocError>
    ensures text { OnOk result (sheet.new ≡ sheet.old ++ row_alone (starts_in starts.now)) }
    ensures front { OnErr result (StopsWithin sheet.old sheet.new (row_alone (starts_in starts.now))) }
{
    match starts {
        [] => sheet.put_text(b"row"),
        [_, ..] => Ok(()),
    }
}

/// Writes the entities of variables, ` $v=E` for each.
fn write_bindings<A: Allocator, B: Allocator>(
    world: &World<A>,
    starts: &[PaddedText<B>],
    entities: &[u32],
    texts: &mut [EntityText<B>],
    sheet: &mut Sheet<A>,
) -> Result<(), AllocError>
    requires places { length starts.now ≤ length texts.old }
    requires texts { All (IsKept world.now.state) texts.old }
    ensures texts { OnOk result (All (IsKept world.now.state) texts.new) }
    ensures text { OnOk result (sheet.new ≡ sheet.old
        ++ flat_map (started world.now.state) (zip (starts_in starts.now) entities.now)) }
    ensures front { OnErr result (StopsWithin sheet.old sheet.new
        (flat_map (started world.now.state) (zip (starts_in starts.now) entities.now))) }
{
    for place in 0..starts.len().min(entities.len()) {
        write_binding(world, &starts[place], entities[place], place, texts, sheet)?;
    }
    Ok(())
}

/// Writes the current choice of fields, after so many columns, and the end of the line.
fn write_all_fields<'w, A: Allocator, B: Allocator>(
    world: &'w World<A>,
    fields: &Fields<B>,
    columns: usize,
    texts: &mut Texts<'w, A, B>,
    sheet: &mut Sheet<A>,
) -> Result<(), AllocError>
    requires texts { AreTexts world.now.state columns (length (fields.now).items) texts.old }
    ensures texts { OnOk result (AreTexts world.now.state columns (length (fields.now).items) texts.new) }
    ensures text { OnOk result (sheet.new ≡ sheet.old
        ++ flat_map (field_text world.now.state) (map (shown_field (view_of world.now.state)) (fields.now).current)
        ++ codes "\n") }
    ensures front { OnErr result (StopsWithin sheet.old sheet.new
        (flat_map (field_text world.now.state) (map (shown_field (view_of world.now.state)) (fields.now).current)
        ++ codes "\n")) }
{
    let Some(last) = fields.len().checked_sub(1) else {
        return sheet.put_text(b"\n");
    };
    for number in 0..fields.len() {
        write_field(
            world,
            fields.field(number),
            number == last,
            columns + number,
            texts.entities.as_mut_slice(),
            &mut texts.labels[number],
            sheet,
        )?;
    }
    Ok(())
}

/// Writes a binding after its start.
fn write_binding<A: Allocator, B: Allocator>(
    world: &World<A>,
    start: &PaddedText<B>,
    entity: u32,
    place: usize,
    texts: &mut [EntityText<B>],
    sheet: &mut Sheet<A>,
) -> Result<(), AllocError>
    requires place { place < length texts.old }
    requires texts { All (IsKept world.now.state) texts.old }
    ensures texts { OnOk result (All (IsKept world.now.state) texts.new) }
    ensures text { OnOk result (sheet.new ≡ sheet.old ++ started world.now.state (text_of start.now, entity)) }
    ensures front { OnErr result (StopsWithin sheet.old sheet.new
        (started world.now.state (text_of start.now, entity))) }
{
    let found = place_of_text(world, texts, place, entity)?;
    let text = &texts[found];
    sheet.put_pair(
        start.bytes.as_slice(),
        start.count,
        text.bytes.as_slice(),
        text.alone,
    )
}

/// Writes a field: ` [ID@E=v,v]`, ` [ID@E]` without a value, and ` [-]` where it is unset. Behind the last one it ends
/// the line.
fn write_field<'w, A: Allocator, B: Allocator>(
    world: &'w World<A>,
    shown: Option<ShownFact>,
    is_last: bool,
    place: usize,
    texts: &mut [EntityText<B>],
    label: &mut Label<'w, A, B>,
    sheet: &mut Sheet<A>,
) -> Result<(), AllocError>
    requires place { place < length texts.old }
    requires texts { All (IsKept world.now.state) texts.old }
    requires label { IsLabel world.now.state label.old }
    ensures texts { OnOk result (All (IsKept world.now.state) texts.new) }
    ensures label { OnOk result (IsLabel world.now.state label.new) }
    ensures text { OnOk result (sheet.new ≡ sheet.old
        ++ field_text world.now.state (shown_field (view_of world.now.state) shown) ++ line_end is_last) }
    ensures front { OnErr result (StopsWithin sheet.old sheet.new
        (field_text world.now.state (shown_field (view_of world.now.state) shown) ++ line_end is_last)) }
{
    let Some(fact) = shown else {
        return write_unset(is_last, sheet);
    };
    label.turn_to(world, fact.id)?;
    let found = place_of_source(world, texts, place, fact.source)?;
    let source = &texts[found];
    if fact.shows_value {
        return write_valued(world, fact, is_last, label, source, sheet);
    }
    write_bare(world, fact.id, is_last, label, source, sheet)
}

/// Writes a field that is unset.
fn write_unset<A: Allocator>(is_last: bool, sheet: &mut Sheet<A>) -> Result<(), AllocError>
    ensures text { OnOk result (sheet.new ≡ sheet.old ++ codes " [-]" ++ line_end is_last) }
    ensures front { OnErr result (StopsWithin sheet.old sheet.new (codes " [-]" ++ line_end is_last)) }
{
    if is_last {
        return sheet.put_text(b" [-]\n");
    }
    sheet.put_text(b" [-]")
}

/// Writes a field with its value, and without one where its id has no fields of values.
fn write_valued<'w, A: Allocator, B: Allocator>(
    world: &'w World<A>,
    fact: ShownFact,
    is_last: bool,
    label: &Label<'w, A, B>,
    source: &EntityText<B>,
    sheet: &mut Sheet<A>,
) -> Result<(), AllocError>
    requires label { IsLabelOf world.now.state label.now fact.id }
    requires source { IsEntityText world.now.state source.now }
    ensures text { OnOk result (sheet.new ≡ sheet.old ++ label_text world.now.state fact.id
        ++ index_text world.now.state (source.now).index
        ++ value_text ((view_of world.now.state).value fact.source fact.id) ++ field_end is_last) }
    ensures front { OnErr result (StopsWithin sheet.old sheet.new
        (label_text world.now.state fact.id ++ index_text world.now.state (source.now).index
        ++ value_text ((view_of world.now.state).value fact.source fact.id) ++ field_end is_last)) }
{
    let Some(schema) = label.schema else {
        return write_bare(world, fact.id, is_last, label, source, sheet);
    };
    match world.bytes(fact.source, fact.id) {
        None => write_bare(world, fact.id, is_last, label, source, sheet),
        Some(bytes) => {
            sheet.put_pair(
                label.text.bytes.as_slice(),
                label.text.count,
                source.bytes.as_slice(),
                source.alone,
            )?;
            write_numbers(schema, bytes, is_last, sheet)
        }
    }
}

/// Writes a field without a value.
#[inline(always)]
fn write_bare<'w, A: Allocator, B: Allocator>(
    world: &'w World<A>,
    id: Id,
    is_last: bool,
    label: &Label<'w, A, B>,
    source: &EntityText<B>,
    sheet: &mut Sheet<A>,
) -> Result<(), AllocError>
    requires label { IsLabelOf world.now.state label.now id }
    requires source { IsEntityText world.now.state source.now }
    ensures text { OnOk result (sheet.new ≡ sheet.old ++ label_text world.now.state id
        ++ index_text world.now.state (source.now).index ++ field_end is_last) }
    ensures front { OnErr result (StopsWithin sheet.old sheet.new
        (label_text world.now.state id ++ index_text world.now.state (source.now).index ++ field_end is_last)) }
{
    sheet.put_pair(
        label.text.bytes.as_slice(),
        label.text.count,
        source.bytes.as_slice(),
        source.closing(world, is_last),
    )
}

/// Writes the value that bytes mean, and the bracket that closes its field.
fn write_numbers<A: Allocator>(
    schema: &Schema<A>,
    bytes: &[u8],
    is_last: bool,
    sheet: &mut Sheet<A>,
) -> Result<(), AllocError>
    requires { length bytes.now ≡ size_of schema.now }
    ensures text { OnOk result (sheet.new ≡ sheet.old
        ++ value_text (Some (values_in schema.now bytes.now)) ++ field_end is_last) }
    ensures front { OnErr result (StopsWithin sheet.old sheet.new
        (value_text (Some (values_in schema.now bytes.now)) ++ field_end is_last)) }
{
    let mut text = [b']'; MOST_TEXT + CHUNK];
    text[MOST_TEXT + 1] = b'\n';
    let start = put_fields(schema, bytes, &mut text);
    sheet.put(&text[start..], value_end(is_last) - start)
}

/// Where the text ends of a value and of what closes its field, if the numbers end where the most of them would.
#[inline(always)]
fn value_end(is_last: bool) -> usize
    ensures { result ≡ 176 + length (field_end is_last) }
{
    if is_last {
        MOST_TEXT + 2
    } else {
        MOST_TEXT + 1
    }
}
