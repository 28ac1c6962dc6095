//! Rows one at a time, compared with the rows of a query as they print.

use crate::bound::compare_bound;
use crate::kept::tables_in;
use crate::matches::compare_matches;
use crate::numbers::{Sum, sum_of, with, with_fact, with_name, with_value};
use crate::worked::{DIAMOND, fill};
use crate::worlds::{add_all, new_world};
use ecs_model::built_ins::IS_A;
use ecs_model::faults::CommandError;
use ecs_world::World;
use query_check::Query;
use std::alloc::Global;
use std::process::Abort;
use std::test::Fail;
use world_query::read_query;
use world_rows::{Asked, Field, Rows, WorldView};

/// The number of a row that goes on with a field: its fact, and its value, if it shows one.
fn with_shown(number: u64, world: &World, field: &Field<'_, Global>) -> u64 {
    let number = with_fact(number, world, field.id, field.source);
    match &field.value {
        Some(value) => with_value(number, value.schema(), value.bytes()),
        None => number,
    }
}

/// The same with a field of the row that was given last, if it is set.
pub(crate) fn with_field(number: u64, world: &World, field: Option<Field<'_, Global>>) -> u64 {
    let Some(field) = field else {
        return with(number, b" [-]");
    };
    let number = with_shown(number, world, &field);
    drop(field);
    with(number, b"]")
}

/// The same with all fields of that row.
fn with_fields(number: u64, world: &World, rows: &Rows<'_, Global>) -> u64 {
    let mut number = number;
    for place in 0..rows.field_count() {
        number = with_field(number, world, rows.field(place));
    }
    number
}

/// The same with a variable and its entity.
fn with_binding(number: u64, world: &World, variable: &[u8], entity: u32) -> u64 {
    let named = with(with(with(number, b" $"), variable), b"=");
    with_name(named, world, entity)
}

/// The same with all variables of a query, and the entities of a row.
pub(crate) fn with_bindings(number: u64, world: &World, query: &Query, entities: &[u32]) -> u64 {
    let mut number = number;
    let mut entities = entities;
    for variable in query.variables() {
        let [entity, others @ ..] = entities else {
            break;
        };
        number = with_binding(number, world, variable.as_slice(), *entity);
        entities = others;
    }
    number
}

/// The number of the row that was given last.
fn row_number(world: &World, query: &Query, rows: &Rows<'_, Global>) -> u64 {
    let number = with_bindings(with(0, b"row"), world, query, rows.entities());
    with_fields(number, world, rows)
}

/// Takes the rows to come.
fn sum_rows(world: &World, query: &Query, rows: &mut Rows<'_, Global>) -> Sum {
    let mut number = 0u64;
    for came in 0..1000 {
        if !rows.next() {
            return (came, number);
        }
        number = number.wrapping_add(row_number(world, query, rows));
    }
    (1000, number)
}

/// The rows to come are those that are printed.
fn expect_rows(
    rt: &impl Abort,
    world: &World,
    query: &Query,
    rows: &mut Rows<'_, Global>,
    printed: Sum,
) {
    let sum = sum_rows(world, query, rows);
    assert!(rt; sum == printed);
}

/// Asks a query for its rows, which are those that are printed, and gives it back.
fn ask(
    rt: &impl Abort,
    view: &WorldView<'_, Global>,
    query: &Query,
    asked: Asked,
    printed: Sum,
) -> Asked {
    assert!(rt; asked.is_current(view) && asked.covers(view));
    let mut rows = asked.rows(view);
    expect_rows(rt, view.world(), query, &mut rows, printed);
    rows.into_asked()
}

/// The same from the tables that are kept for the query.
fn ask_kept(
    rt: &impl Abort,
    alloc: Global,
    view: &WorldView<'_, Global>,
    query: &Query,
    asked: Asked,
    printed: Sum,
) -> Asked {
    assert!(rt; asked.is_current(view) && asked.covers(view));
    let tables = tables_in(rt, alloc, view.world(), asked.query());
    let mut rows = asked.rows_in(view, tables.as_slice());
    expect_rows(rt, view.world(), query, &mut rows, printed);
    rows.into_asked()
}

/// The rows of a query are those that are printed: also when it is asked again, and from the tables that are kept for
/// it. Their `$this` are the entities that are in it, and they are the rows of all entities.
pub(crate) fn compare_rows(
    rt: &impl Abort,
    alloc: Global,
    world: &World,
    query: &Query,
    text: &str,
    printed: Sum,
) {
    let view = WorldView::new(world);
    let asked = Asked::new(alloc, &view, text).expect(rt, "it is no query");
    let asked = ask(rt, &view, query, asked, printed);
    let asked = ask(rt, &view, query, asked, printed);
    let asked = ask_kept(rt, alloc, &view, query, asked, printed);
    compare_bound(rt, alloc, &view, query, &asked, printed);
    compare_matches(rt, alloc, &view, asked);
}

pub(crate) const KINDS_OF_A: &str = "(IsA,A)";

/// The rows of that query in the diamond, and in the world that it grows to.
const KINDS: &str = "row $this=A [(IsA,A)@A]
row $this=B [(IsA,A)@B]
row $this=C [(IsA,A)@C]
row $this=D [(IsA,A)@D]
rows 4
";

const LATER_KINDS: &str = "row $this=A [(IsA,A)@A]
row $this=B [(IsA,A)@B]
row $this=C [(IsA,A)@C]
row $this=D [(IsA,A)@D]
row $this=Late [(IsA,A)@Late]
rows 5
";

/// The index of the first entity after those of the diamond.
const FIRST: u32 = 68;

/// How many entities without names come.
const MANY: u32 = 300;

/// Many entities come to the diamond, and after them one more that is its last.
fn grow(world: &mut World) -> Result<(), CommandError> {
    for _ in 0..MANY {
        drop(world.fresh()?);
    }
    drop(world.entity("Late")?);
    add_all(world, &[(FIRST + MANY, IS_A, Some(FIRST - 1))])
}

/// Asks a query in a world that has outgrown its room: more is made first.
fn ask_later(
    rt: &impl Abort,
    alloc: Global,
    view: &WorldView<'_, Global>,
    query: &Query,
    asked: Asked,
) -> Asked {
    let mut asked = asked;
    assert!(rt; !asked.covers(view));
    assert!(rt; asked.reserve(alloc, view).is_ok());
    ask(rt, view, query, asked, sum_of(LATER_KINDS))
}

fn ask_before_and_later(rt: &impl Abort, alloc: Global, world: &mut World, query: &Query) {
    let asked = Asked::new(alloc, &WorldView::new(world), KINDS_OF_A).expect(rt, "it is no query");
    let asked = ask(rt, &WorldView::new(world), query, asked, sum_of(KINDS));
    let grown = grow(world);
    let asked = ask_later(rt, alloc, &WorldView::new(world), query, asked);
    drop(asked);
    assert!(rt; grown.is_ok());
}

#[test]
fn rows_come_in_a_world_that_has_outgrown_their_room(rt: HostRuntime) -> Result<(), Fail> {
    let mut world = new_world(&rt)?;
    fill(rt.alloc(), &mut world, &DIAMOND).expect(&rt, "out of memory");
    let query = read_query(rt.alloc(), &world, KINDS_OF_A).expect(&rt, "it is no query");
    ask_before_and_later(&rt, rt.alloc(), &mut world, &query);
    drop(query);
    drop(world);
    Ok(())
}
