//! Why a name is not bound.

ghost use Rattle.std.specs.Prelude.{◌≡◌};
ghost use Rattle.name_index.specs.declared.error.BindError.TheVariants.{Memory};

use std::alloc::AllocError;
use thiserror::Error;

/// Why a name is not bound. The first that applies is answered, and a refusal changes nothing.
#[derive(Clone, Copy, Debug, PartialEq, Eq, Error)]
pub enum BindError {
    /// The text is no name: a name is 1 to 64 letters, digits, `_` and `.`, the first a letter, and no word of the
    /// query language.
    #[error("the text is no name")]
    BadName,
    /// An entity has the name.
    #[error("an entity has the name")]
    NameTaken,
    /// Memory was refused.
    #[error("out of memory")]
    Memory,
}

impl From<AllocError> for BindError {
    ghost from_gives = { λ _ e. e ≡ Memory };

    fn from(_error: AllocError) -> BindError {
        BindError::Memory
    }
}
