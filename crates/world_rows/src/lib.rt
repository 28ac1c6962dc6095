//! Rows of a query, one at a time, those of one entity, and whether an entity is in them.
//!
//! ```text
//! let view = WorldView::new(&world);
//! let asked = Asked::new(rt.alloc(), &view, "Ship, Fuel, ?(DockedTo,$port)")?;
//! let mut rows = asked.rows(&view);
//! for _ in 0..u64::MAX {
//!     if !rows.next() {
//!         break;
//!     }
//!     // the entities of the variables, and the fields, each with the bytes of its value
//!     let ship = rows.entities();
//!     if let Some(field) = rows.field(1) && let Some(fuel) = field.value {
//!         println!(rt; "{:?}", fuel.number(0))?;
//!     }
//! }
//! // the room is for the next time: then no memory is taken
//! let asked = rows.into_asked();
//!
//! // whether one entity is in the query, whatever other rows it has
//! let mut matcher = asked.matcher(rt.alloc(), &view)?;
//! let is_ship = matcher.matches(rt.alloc(), &view, heron)?;
//!
//! // the rows in which `$this` is one entity
//! let mut binder = asked.binder(rt.alloc(), &view)?;
//! binder.bind(rt.alloc(), &view, heron)?;
//! let mut rows = binder.rows(&view);
//! ```
#![tactic(auto)]

mod asked;
mod binder;
mod bound_rows;
mod columns;
mod fields;
mod matcher;
mod rows;
mod search_rows;
mod table_rows;
mod view;
mod way;

pub use asked::Asked;
pub use binder::Binder;
pub use bound_rows::BoundRows;
pub use fields::{FactValue, Field};
pub use matcher::{MatchError, Matcher};
pub use rows::Rows;
pub use view::WorldView;
