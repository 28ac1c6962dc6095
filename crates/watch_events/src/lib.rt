//! The events that a stored query is notified of after a command, each with the texts by which it prints.
#![tactic(auto)]

mod before;
mod event;
mod facts;
mod hits;
mod removals;
mod rows;
mod telling;
mod terms;
mod text;
mod texts;

pub use event::{Event, write_event};
pub use hits::{may_tell, may_tell_set};
pub use rows::{Moves, tell_moves};
pub use telling::{Audience, tell};
