//! The same entities, gone through by the rows of a query.

use crate::iterating::product_of;
use ecs_world::World;
use query_model::faults::QueryFault;
use std::alloc::Global;
use world_rows::{Asked, Rows, WorldView};

/// The bytes of the value that a field shows, if it shows one.
fn bytes_of<'w>(rows: &Rows<'w, Global>, number: usize) -> Option<&'w [u8]> {
    let value = rows.field(number)?.value?;
    Some(value.bytes())
}

/// The product of a row's two values, if both are there.
fn product_of_values(rows: &Rows<'_, Global>) -> Option<i64> {
    let position = bytes_of(rows, 0)?;
    let velocity = bytes_of(rows, 1)?;
    Some(product_of(position, velocity))
}

/// What is added up of a row: its two values, or its first entity.
fn number_of(rows: &Rows<'_, Global>, values: bool) -> u64 {
    if values {
        return product_of_values(rows).unwrap_or(0).cast_unsigned();
    }
    match rows.entities() {
        [entity, ..] => u64::from(*entity),
        [] => 0,
    }
}

/// Adds up the rows to come.
fn sum_of(rows: &mut Rows<'_, Global>, values: bool) -> u64 {
    let mut sum = 0u64;
    for _ in 0..u32::MAX {
        if !rows.next() {
            break;
        }
        sum = sum.wrapping_add(number_of(rows, values));
    }
    sum
}

/// Adds up all rows of a query, and gives it back.
fn sum_once(view: &WorldView<'_, Global>, asked: Asked, values: bool) -> (Asked, u64) {
    if !asked.is_current(view) || !asked.covers(view) {
        return (asked, 0);
    }
    let mut rows = asked.rows(view);
    let sum = sum_of(&mut rows, values);
    (rows.into_asked(), sum)
}

/// Begins the rows of a query, and gives it back with the first entity of the first row.
fn first_once(view: &WorldView<'_, Global>, asked: Asked) -> (Asked, u64) {
    if !asked.is_current(view) || !asked.covers(view) {
        return (asked, 0);
    }
    let mut rows = asked.rows(view);
    let mut first = 0;
    if rows.next() {
        first = number_of(&rows, false);
    }
    (rows.into_asked(), first)
}

/// A sum over the first row of the query that a text asks, begun so often.
pub(crate) fn sum_of_first(
    alloc: Global,
    world: &World,
    text: &str,
    times: u32,
) -> Result<u64, QueryFault> {
    let view = WorldView::new(world);
    let mut asked = Asked::new(alloc, &view, text)?;
    let mut sum = 0u64;
    for _ in 0..times {
        let (again, first) = first_once(&view, asked);
        asked = again;
        sum = sum.wrapping_add(first);
    }
    drop(asked);
    Ok(sum)
}

/// A sum over all rows of the query that a text asks, so often: of their entities or their values. The room for them is
/// made once.
pub(crate) fn sum_by_rows(
    alloc: Global,
    world: &World,
    text: &str,
    values: bool,
    times: u32,
) -> Result<u64, QueryFault> {
    let view = WorldView::new(world);
    let mut asked = Asked::new(alloc, &view, text)?;
    let mut sum = 0u64;
    for _ in 0..times {
        let (again, more) = sum_once(&view, asked, values);
        asked = again;
        sum = sum.wrapping_add(more);
    }
    drop(asked);
    Ok(sum)
}
