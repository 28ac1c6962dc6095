//! Local queries: those that ask each entity for its own ids alone. Ids decide, without a world, whether an entity is
//! `$this` of one of their rows, and who leaves or enters the rows by a command.
#![tactic(auto)]

mod items;
mod judging;
mod nesting;
mod tags;
mod told;
mod touched;

pub use judging::judge;
pub use tags::mentions;
pub use told::{Told, local_told};
pub use touched::Touched;
