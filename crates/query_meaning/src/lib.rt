//! The meaning of queries and of plans, as definitions in `specs/`, and the plain types that they share with the code.
//!
//! What a query asks of a world is a view of it: its live entities, their ids, and the values of facts. `laws` has what
//! is proved of the definitions alone.
#![tactic(auto)]

pub mod laws;
pub mod steps;

pub use steps::{Mode, PlanRefusal, Step};
