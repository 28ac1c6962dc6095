//! The check of a query's syntax against what a world knows of names: its least fault, or the checked query.
#![tactic(auto)]

mod cascades;
mod checked;
mod copies;
mod faults;
mod local;
mod lookup;
mod numbered;
mod numbers;
mod places;
mod query;
mod scope;
mod terms;
mod uses;

pub use checked::check;
pub use lookup::Lookup;
pub use numbered::{Entry, EntryKind, Numbered};
pub use query::{Item, Piece, Query};
