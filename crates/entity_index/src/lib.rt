//! Which entities are alive, with their generations, and where their rows stand.
#![tactic(auto)]

mod index;
mod live;
mod packed;
mod sized;
mod slot;

pub use index::CreateError;
pub use live::Live;
pub use sized::EntityIndex;
