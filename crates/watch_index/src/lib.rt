//! Which stored queries a command may concern, found by the kinds of change that they listen for, in the order in which
//! they were stored.
//!
//! ```text
//! let mut index = WatchIndex::new(rt.alloc(), RandomState::new(&rt)?);
//!
//! // a stored query under its number, with the occasions that it listens for
//! let occasions = occasions_of(rt.alloc(), StoredKind::Monitor, &query, is_anchored(&query))?;
//! index.enter(7, occasions.as_slice())?;
//!
//! // the numbers of those that listen for a change of a command
//! let mut numbers = ShortNumbers::new();
//! index.led(happened, &mut numbers)?;
//! for number in numbers.as_slice() { .. }
//! index.leave(7, occasions.as_slice());
//! ```
#![tactic(auto)]

mod gathering;
mod index;
pub mod laws;
mod lists;
mod marks;
mod name_order;
mod numbers;
mod occasion;
mod wanting;
mod watch_order;
mod words;

pub use gathering::Happened;
pub use index::WatchIndex;
pub use name_order::{NameOrder, Named};
pub use occasion::{Occasion, Way};
pub use wanting::occasions_of;
pub use watch_order::{Boxed, WatchOrder, Watcher};
