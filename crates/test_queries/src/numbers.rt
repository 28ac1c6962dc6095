//! Numbers of texts, so that rows are compared with what is printed in whatever order they come, and without
//! memory.

use ecs_id::Id;
use ecs_print::{MOST_TEXT, put_fields};
use ecs_schema::Schema;
use ecs_world::World;
use std::process::Abort;

/// How many rows there are, and the number of their texts.
pub(crate) type Sum = (usize, u64);

/// A failure says what was tried. To prove a message takes longer than most tests, so it stands here alone.
pub(crate) fn expect(rt: &impl Abort, holds: bool, tried: &str) {
    assert!(rt; holds, "{tried}");
}

/// The number of a text that begins as the one with this number, and goes on with these bytes.
pub(crate) fn with(number: u64, text: &[u8]) -> u64 {
    let mut number = number;
    for byte in text {
        number = number
            .wrapping_mul(1_000_003)
            .wrapping_add(u64::from(*byte));
    }
    number
}

/// The same with the name of an entity.
pub(crate) fn with_name(number: u64, world: &World, index: u32) -> u64 {
    with(number, world.name_of(index).unwrap_or("?").as_bytes())
}

/// The same with what a field shows of a fact: its id and its entity.
pub(crate) fn with_fact(number: u64, world: &World, id: Id, source: u32) -> u64 {
    let mut number = with(number, b" [");
    if id.second().is_some() {
        number = with(number, b"(");
    }
    number = with_name(number, world, id.first());
    if let Some(target) = id.second() {
        number = with(with_name(with(number, b","), world, target), b")");
    }
    with_name(with(number, b"@"), world, source)
}

/// The same with a value, after `=`.
pub(crate) fn with_value(number: u64, schema: &Schema, bytes: &[u8]) -> u64 {
    if bytes.len() != schema.size() {
        return number;
    }
    let mut text = [0; MOST_TEXT];
    let start = put_fields(schema, bytes, &mut text);
    with(number, &text[start..])
}

/// How many rows are printed, and the number of their texts.
pub(crate) fn sum_of(printed: &str) -> Sum {
    let mut sum = (0usize, 0u64);
    for line in printed.lines() {
        if line.starts_with("row ") {
            let number = with(0, line.as_bytes());
            sum = (sum.0.saturating_add(1), sum.1.wrapping_add(number));
        }
    }
    sum
}
