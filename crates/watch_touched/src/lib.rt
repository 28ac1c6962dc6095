//! Which entities a command touched, whether its changes concern a query, and which entities may have entered or left
//! the query's rows.
#![tactic(auto)]

mod bonds;
mod concerned;
mod facts;
mod indexes;
pub mod laws;
mod leaning;
mod moving;
mod roles;
mod sought;
mod touching;

pub use bonds::Bonds;
pub use concerned::has_births_or_deaths;
pub use moving::{Moved, told_by_ids, who_may_have_moved};
pub use touching::touched;
