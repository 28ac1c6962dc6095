//! Which ids concern a query, and for which entities. If only facts with other ids are added and removed, the query
//! keeps rows of the same entities. What stored queries are notified of after a command is defined in `specs/`, with
//! laws about it.
#![tactic(auto)]

mod anchoring;
mod bonds;
mod concerning;
pub mod laws;
mod linking;
mod own_ids;
mod ties;
pub mod told_laws;
mod whom;

pub use anchoring::{is_anchored, is_variable};
pub use bonds::{depth_behind, is_end};
pub use concerning::{is_asked_by_all, says_how_far};
pub use linking::is_linked;
pub use own_ids::{lacks, meets};
pub use ties::is_tied;
pub use whom::{Concern, NOBODY, concern_of, joined_concerns};
