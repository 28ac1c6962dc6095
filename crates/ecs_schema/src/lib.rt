//! The fields of components, and what a value of a component is in memory: its fields in order, little end first,
//! without padding.
#![tactic(auto)]

ghost use Rattle.std.specs.Prelude.{◌≡◌, ◌≢◌, ◌<◌, ◌≤◌, ◌↔◌, true, false, length, Some, None, IsTrue, IfOk, OnOk};
ghost use Rattle.std.specs.Prelude.{OnErr, IsErrOf, slice_get};
ghost use Rattle.ecs_model.specs.Schema.{all_fit, schema_fault};
ghost use Rattle.ecs_model.specs.Bytes.{size_of, value_bytes, values_in};
ghost use Rattle.ecs_model.specs.declared.faults.SchemaFault.{SchemaFault};
ghost use Rattle.ecs_schema.specs.Given.{IsValueOf, given};

mod errors;
mod fields;
mod given;
pub mod laws;
mod numbers;
mod values;

pub use ecs_model::Kind;
pub use errors::{SchemaError, ValueFault};
pub use fields::Field;
use given::fault_of;
use std::alloc::{Allocator, Global};
use std::marker::Model;
use values::{all_fit, read_field, size_of, write_value};

/// The fields of a component, in order: one to eight, each with a name of its own.
#[derive(Drop)]
pub struct Schema<A: Allocator = Global> {
    fields: Vec<Field<A>, A>,
}

impl<A: Allocator> Model for Schema<A> {
    ghost use Rattle.std.specs.Prelude.{◌≡◌, None};
    ghost use Rattle.ecs_model.specs.Schema as model;

    ghost Value = { model.Schema };

    ghost view = { λ s. s.fields.items };

    ghost invariant = { λ s. model.schema_fault s.fields.items ≡ None };
}

impl<A: Allocator + Copy> Schema<A> {
    /// A schema with these fields, whose names are copied.
    ///
    /// More than eight fields are refused, then none, then a field whose name is no name or is given twice.
    pub fn new(alloc: A, fields: &[(&str, Kind)]) -> Result<Schema<A>, SchemaError>
        ensures made { IfOk result (λ schema. schema ≡ given fields.now) }
        ensures sound { OnOk result (schema_fault (given fields.now) ≡ None) }

        ensures refused { (fault : SchemaFault)
            → IsErrOf result (SchemaError.Fault fault) ↔ (schema_fault (given fields.now) ≡ Some fault) }
        ensures memory { IsErrOf result SchemaError.Memory → schema_fault (given fields.now) ≡ None }
    {
        if let Some(fault) = fault_of(fields) {
            return Err(SchemaError::Fault(fault));
        }
        let mut made = Vec::with_capacity(alloc, fields.len())?;
        for (name, kind) in fields {
            made.push(Field::new(alloc, name, *kind)?)?;
        }
        Ok(Schema { fields: made })
    }
}

impl<A: Allocator> Schema<A> {
    /// The fields in order.
    pub fn fields(&self) -> &[Field<A>]
        ensures value { result.now ≡ self.now }
        ensures sound { schema_fault self.now ≡ None }
    {
        self.fields.as_slice()
    }

    /// How many fields there are: one to eight.
    pub fn field_count(&self) -> usize
        ensures value { result ≡ length self.now }
        ensures some { 1 ≤ result }
        ensures few { result ≤ 8 }
    {
        self.fields.len()
    }

    /// How many bytes a value has: those of its fields, without padding. They are 1 to 64.
    pub fn size(&self) -> usize
        ensures value { result ≡ size_of self.now }
        ensures some { 1 ≤ result }
        ensures few { result ≤ 64 }
    {
        size_of(&self.fields)
    }

    /// Whether these numbers are a value of this schema: as many as there are fields, and each in its field's range.
    pub fn check(&self, values: &[i128]) -> Result<(), ValueFault>
        ensures fits { OnOk result (IsValueOf self.now values.now) }
        ensures count { IsErrOf result ValueFault.Count ↔ (length values.now ≢ length self.now) }
        ensures range { IsErrOf result ValueFault.Range
            ↔ ((length values.now ≡ length self.now) × (all_fit self.now values.now ≡ false)) }
    {
        if values.len() != self.fields.len() {
            return Err(ValueFault::Count);
        }
        if !all_fit(&self.fields, values) {
            return Err(ValueFault::Range);
        }
        Ok(())
    }

    /// Writes a value as bytes. Numbers that are no value of this schema are refused, and the bytes stay as they were.
    pub fn encode(&self, values: &[i128], bytes: &mut [u8]) -> Result<(), ValueFault>
        requires { length bytes.old ≡ size_of self.now }
        ensures written { OnOk result (bytes.new ≡ value_bytes self.now values.now) }
        ensures read_back { OnOk result (values_in self.now bytes.new ≡ values.now) }
        ensures fits { OnOk result (IsValueOf self.now values.now) }

        ensures count { IsErrOf result ValueFault.Count ↔ (length values.now ≢ length self.now) }
        ensures range { IsErrOf result ValueFault.Range
            ↔ ((length values.now ≡ length self.now) × (all_fit self.now values.now ≡ false)) }
        ensures unchanged { OnErr result (bytes.new ≡ bytes.old) }
    {
        self.check(values)?;
        write_value(&self.fields, values, bytes);
        Ok(())
    }

    /// Reads a field's number, by the field's place, from the bytes of a value.
    pub fn decode(&self, bytes: &[u8], field: usize) -> i128
        requires size { length bytes.now ≡ size_of self.now }
        requires field { field < length self.now }
        ensures { slice_get (values_in self.now bytes.now) field ≡ Some result }
    {
        read_field(&self.fields, bytes, field)
    }
}
