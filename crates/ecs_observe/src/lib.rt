//! A session: a world, its stored queries, and the events that monitors and observers are notified of after each
//! command.
//!
//! If a stored query is a monitor or an observer, events wait after an accepted command of the world, and no other
//! command is carried out until `events` has delivered them.
#![tactic(auto)]

mod applying;
mod batches;
mod columns;
mod commands;
mod errors;
mod kept;
mod pinning;
mod queries;
mod references;
mod session;
mod storing;
mod telling;
mod watched;

pub use applying::{Answer, Command};
pub use ecs_model::references::{IdReference, Reference};
pub use errors::{ApplyAllError, SendRowsError, SessionError, SetColumnError};
pub use references::{find_both, find_entity};
pub use session::Session;
pub use watch_events::{Event, write_event};
