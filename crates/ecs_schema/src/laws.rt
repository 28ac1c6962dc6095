//! What is proved of the bytes of values alone: each function's contract is a law, and its body does nothing.

ghost use Rattle.std.specs.Prelude.{◌≡◌, replicate};
ghost use Rattle.ecs_model.specs.Schema.{zeros};
ghost use Rattle.ecs_model.specs.Bytes.{size_of, values_in};
ghost use Rattle.ecs_schema.specs.Given.{IsValueOf};

use crate::Schema;
use std::alloc::Allocator;

/// Law: bytes that are all zero mean a new value.
pub fn zero_bytes_are_a_new_value<A: Allocator>(schema: &Schema<A>)
    ensures { values_in schema.now (replicate (size_of schema.now) 0) ≡ zeros schema.now }
{
    let _ = schema;
}

/// Law: whatever the bytes are, they mean a value of the schema.
pub fn bytes_are_a_value<A: Allocator>(schema: &Schema<A>, bytes: &[u8])
    ensures { IsValueOf schema.now (values_in schema.now bytes.now) }
{
    let _ = schema;
    let _ = bytes;
}
