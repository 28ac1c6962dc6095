//! The tables that a kept query is about, brought up to date with those that have come and gone.
//!
//! ```text
//! let mut kept = Kept::new(rt.alloc(), &query)?;
//!
//! // each table is judged once, when it is new
//! kept.sync(world.graph().store())?;
//! kept.push_tables(&mut tables)?;
//!
//! // later, whatever commands the world has taken: those that came, without those that were released
//! kept.sync(world.graph().store())?;
//! ```
//!
//! A list follows one world: what its caller proves is that it fits that world (`Fits`). A new list fits each, `sync`
//! leaves it so, and so does each call of the world (`laws::fits_later`).
#![tactic(auto)]

mod judge;
mod kept;
pub mod laws;
mod patterns;
mod table_block;
mod table_list;

pub use kept::Kept;
pub use table_block::Keep;
pub use table_list::TableList;
