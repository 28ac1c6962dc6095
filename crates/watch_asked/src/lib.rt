//! What a query asks, kept as patterns of ids with fast tests, so that a changed fact is judged by its id.
#![tactic(auto)]

mod asked;
mod asked_id;
mod asked_query;
mod steps;

pub use asked::{AskedOf, AskedTerms};
pub use asked_query::AskedQuery;
pub use steps::LinkStep;
