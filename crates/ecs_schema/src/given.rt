//! What can be wrong with the fields that a schema is to have.

ghost use Rattle.std.specs.Prelude.{◌≡◌, ◌||◌, drop, bytes_eq};
ghost use Rattle.std.specs.List.{list_all, list_any};
ghost use Rattle.ecs_model.specs.Text.{is_name};
ghost use Rattle.ecs_model.specs.Schema.{repeats_name, schema_fault};
ghost use Rattle.ecs_schema.specs.Given.{given};

use ecs_model::faults::SchemaFault;
use ecs_model::{Kind, is_name};

/// A component has at most eight fields.
const MOST_FIELDS: usize = 8;

/// The first reason why these fields make no schema.
pub fn fault_of(fields: &[(&str, Kind)]) -> Option<SchemaFault>
    ensures { result ≡ schema_fault (given fields.now) }
{
    if fields.len() > MOST_FIELDS {
        return Some(SchemaFault::TooManyFields);
    }
    if fields.is_empty() {
        return Some(SchemaFault::NoFields);
    }
    if !are_named(fields) || repeats_name(fields) {
        return Some(SchemaFault::BadField);
    }
    None
}

fn are_named(fields: &[(&str, Kind)]) -> bool
    ensures { result ≡ list_all (λ field. is_name (field.0).now) fields.now }
{
    fields.iter().all(|(name, _)| is_name(name.as_bytes()))
}

fn repeats_name(fields: &[(&str, Kind)]) -> bool
    ensures { result ≡ repeats_name (given fields.now) }
{
    for i in 0..fields.len() {
        if repeats_first_name(&fields[i..]) {
            return true;
        }
    }
    false
}

/// Whether a later field has the first field's name.
fn repeats_first_name(fields: &[(&str, Kind)]) -> bool
    ensures { repeats_name (given fields.now) ≡ (result || repeats_name (given (drop 1 fields.now))) }
{
    let Some(((name, _), later)) = fields.split_first() else {
        return false;
    };
    has_name(later, name)
}

fn has_name(fields: &[(&str, Kind)], name: &str) -> bool
    ensures { result ≡ list_any (λ field. bytes_eq name.now (field.0).now) fields.now }
{
    fields.iter().any(|(other, _)| name == *other)
}
