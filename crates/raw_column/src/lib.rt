//! The columns of a table: values of fixed sizes in raw memory, column after column in one block. The type of a value
//! is its size alone.
#![tactic(auto)]

mod block;
mod buffer;
mod element;
mod memory;
mod places;
mod sizes;

pub use block::{Block, Memory};
