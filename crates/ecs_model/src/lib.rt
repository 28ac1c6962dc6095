//! The meaning of worlds, queries and scripts, as definitions in `specs/`, and the plain types that they share with the
//! code.
//!
//! The definitions are what every contract of the engine cites. `laws` has what is proved of them alone.
#![tactic(auto)]

pub mod built_ins;
pub mod fact_laws;
pub mod facts;
pub mod faults;
pub mod laws;
pub mod names;
pub mod reach_laws;
pub mod references;
pub mod trait_laws;
pub mod values;
pub mod watches;

pub use facts::FactKey;
pub use names::is_name;
pub use values::Value;

/// The last index of the built-in entities, which each world begins with. Their first is 1.
pub const LAST_BUILT_IN: u32 = 22;

/// The first index that is given to a new entity.
pub const FIRST_INDEX: u32 = 64;

/// How many ids an entity holds at most.
pub const MOST_IDS: usize = 64;

/// The whole numbers that a field of a component can hold. In memory they take 1, 2, 4 or 8 bytes, little end first.
#[derive(Clone, Copy, Debug, PartialEq, Eq)]
pub enum Kind {
    I8,
    U8,
    I16,
    U16,
    I32,
    U32,
    I64,
    U64,
}
