//! One stored query: what a session holds of it, and the events that it is notified of after a command.
//!
//! ```text
//! // what a session holds of a query that was read
//! let mut stored = stored_query(alloc, &world, kind, query, &mut compared)?;
//!
//! // after a command: its events, and its changed rows unless they stay
//! let effect = Effect { world: &world, changes: &changes };
//! let listener = Listener { place, name: &name, query: &stored };
//! tell_one(&effect, &touched, &listener, &mut report)?;
//! stored.keep(&mut report.rows[0].1);
//! ```
#![tactic(auto)]

mod asking;
mod moves;
mod report;
mod stored;
mod telling;
mod watched;

pub use moves::RowsAfter;
pub use report::{Effect, Listener, Report, Searches};
pub use stored::{JudgedPlan, StoredQuery, is_outgrown, is_told};
pub use telling::tell_one;
pub use watched::{newest_table, stored_query};
