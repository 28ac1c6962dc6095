//! Lists of which a few items stand in the value.
#![tactic(auto)]

mod few;
mod list;
mod many;
mod wide;

pub use list::ShortList;
pub use wide::ShortNumbers;
