//! All tables of a world, under keys: one for each set of ids.
//!
//! ```text
//! let (position, frozen) = (Id::plain(64), Id::plain(65));
//! let mut store = TableStore::new(rt.alloc(), RandomState::new(&rt)?);
//!
//! // a table by its ids, each with how many bytes its value has, and its neighbour with one more tag
//! let moving = store.find_or_make(&[SizedId::new(position, 8)])?;
//! let still = store.with(moving, frozen, 0)?;
//!
//! // a row with its value, and its move along the edge
//! store.reserve(moving, 1)?;
//! let row = store.append(moving, entity);
//! store.set_value(moving, row, position, &[1, 0, 0, 0, 2, 0, 0, 0]);
//! store.reserve(still, 1)?;
//! let (row, filled) = store.move_row(moving, row, still);
//! assert!(rt; store.without(still, frozen) == Ok(moving) && filled.is_none());
//!
//! // the tables that were made after one, and one that is gone for good
//! for key in store.since(moving.serial) { .. }
//! store.release(moving);
//! assert!(rt; store.get(moving).is_none());
//! ```
//!
//! What a call requires, as a key under which a table stands, its caller proves: no call fails for want of it. Only
//! `find_or_make`, `with`, `without` and `reserve` take memory. Where it is refused they answer `Memory`, and the store
//! is as it was.
#![tactic(auto, using(ecs_id::specs::Id::id_tests))]

mod by_ids;
mod edges;
mod shape;
mod since;
mod sized;
mod slot_bits;
mod slot_marks;
mod store;

pub use since::Since;
pub use sized::SizedId;
pub use store::TableStore;
