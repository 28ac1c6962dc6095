//! A set of entities by their indexes, a bit for each index up to the greatest.
#![tactic(auto)]

mod bits;
mod set;

pub use set::EntitySet;
