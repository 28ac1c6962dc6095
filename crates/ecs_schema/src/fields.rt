//! A field of a component.

ghost use Rattle.std.specs.Prelude.{◌≡◌, IfOk};

use ecs_model::Kind;
use std::alloc::{AllocError, Allocator, Global};
use std::marker::Model;

/// A field: its name, and the kind of its numbers.
#[derive(Drop)]
pub struct Field<A: Allocator = Global> {
    name: String<A>,
    kind: Kind,
}

impl<A: Allocator> Model for Field<A> {
    ghost use Rattle.std.specs.String.{string_bytes};
    ghost use Rattle.ecs_model.specs.Schema as model;

    ghost Value = { model.Field };

    ghost view = { λ f. record { name = string_bytes f.name; kind = f.kind } };
}

impl<A: Allocator> Field<A> {
    /// A field with a copy of this name.
    pub(crate) fn new(alloc: A, name: &str, kind: Kind) -> Result<Field<A>, AllocError>
        ensures { IfOk result (λ f. f ≡ record { name = name.now; kind = kind }) }
    {
        let name = String::from_str(alloc, name)?;
        Ok(Field { name, kind })
    }

    /// The name, unique among the schema's fields.
    pub fn name(&self) -> &str
        ensures { result.now ≡ self.now.name }
    {
        self.name.as_str()
    }

    /// The kind of the field's numbers.
    pub fn kind(&self) -> Kind
        ensures { result ≡ self.now.kind }
    {
        self.kind
    }
}
