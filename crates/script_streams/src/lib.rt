//! The bytes of a script as they come, and those of its output as they go.
#![tactic(auto)]

mod lines;
mod patience;
mod std_streams;
mod streams;
mod tapes;

pub use lines::{FillError, Lines, MOST_BYTES};
pub use patience::{Fault, read_patiently, write_all};
pub use std_streams::{FromRead, ToWrite};
pub use streams::{Calls, Sink, Source, Stop};
pub use tapes::{Tape, Turn};
