//! Why fields make no schema, and why numbers are no value of a schema.

ghost use Rattle.std.specs.Prelude.{◌≡◌};
ghost use Rattle.ecs_schema.specs.declared.errors.SchemaError.TheVariants.{Memory};

use ecs_model::faults::SchemaFault;
use std::alloc::{AllocError, AllocFailed};
use thiserror::Error;

/// Why a schema is not made: a fault of its fields, or memory that was refused.
#[derive(Clone, Copy, Debug, PartialEq, Eq, Error)]
pub enum SchemaError {
    #[error("no schema: {0}")]
    Fault(SchemaFault),
    #[error("out of memory")]
    Memory,
}

impl From<AllocError> for SchemaError {
    ghost from_gives = { λ _ e. e ≡ Memory };

    fn from(_e: AllocError) -> SchemaError {
        SchemaError::Memory
    }
}

impl<T: Drop> From<AllocFailed<T>> for SchemaError {
    ghost from_gives = { λ _ e. e ≡ Memory };

    fn from(_e: AllocFailed<T>) -> SchemaError {
        SchemaError::Memory
    }
}

/// Why numbers are no value of a schema. The first that applies is answered.
#[derive(Clone, Copy, Debug, PartialEq, Eq, Error)]
pub enum ValueFault {
    /// There are more or fewer numbers than fields.
    #[error("not as many numbers as fields")]
    Count,
    /// A number is outside the range of its field.
    #[error("a number is outside the range of its field")]
    Range,
}
