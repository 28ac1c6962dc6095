//! Values of given fields.

ghost use Rattle.std.specs.Prelude.{◌≡◌, ◌*◌, ◌<◌, ◌≤◌, length, Some, slice_get};
ghost use Rattle.ecs_model.specs.Schema.{all_fit};
ghost use Rattle.ecs_model.specs.Bytes.{size_of, value_bytes, values_in};
ghost use Rattle.ecs_schema.specs.Given.{IsValueOf};

use crate::fields::Field;
use crate::numbers::{fits, read_number, width, write_number};
use std::alloc::Allocator;

/// How many bytes a value of these fields has.
pub fn size_of<A: Allocator>(fields: &[Field<A>]) -> usize
    requires { length fields.now ≤ 8 }
    ensures value { result ≡ size_of fields.now }
    ensures some { length fields.now ≤ result }
    ensures few { result ≤ 8 * length fields.now }
{
    let mut size = 0;
    for field in fields {
        size += width(field.kind());
    }
    size
}

/// Whether each number is in the range of its field.
pub fn all_fit<A: Allocator>(fields: &[Field<A>], values: &[i128]) -> bool
    ensures { result ≡ all_fit fields.now values.now }
{
    fields
        .iter()
        .zip(values)
        .all(|(field, value)| fits(field.kind(), *value))
}

/// Writes the bytes of a value.
pub fn write_value<A: Allocator>(fields: &[Field<A>], values: &[i128], bytes: &mut [u8])
    requires few { length fields.now ≤ 8 }
    requires value { IsValueOf fields.now values.now }
    requires size { length bytes.old ≡ size_of fields.now }
    ensures { bytes.new ≡ value_bytes fields.now values.now }
{
    let mut start = 0;
    for (field, value) in fields.iter().zip(values) {
        let kind = field.kind();
        let end = start + width(kind);
        write_number(kind, *value, &mut bytes[start..end]);
        start = end;
    }
}

/// Reads a field's number from the bytes of a value.
pub fn read_field<A: Allocator>(fields: &[Field<A>], bytes: &[u8], field: usize) -> i128
    requires few { length fields.now ≤ 8 }
    requires size { length bytes.now ≡ size_of fields.now }
    requires field { field < length fields.now }
    ensures { slice_get (values_in fields.now bytes.now) field ≡ Some result }
{
    let kind = fields[field].kind();
    let start = size_of(&fields[..field]);
    read_number(kind, &bytes[start..start + width(kind)])
}
