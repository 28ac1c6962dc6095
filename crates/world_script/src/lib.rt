//! From the bytes of a script to the bytes of its output.
//!
//! What the contract of `run` says rests on definitions in many crates: `docs/BELIEVE.md` lists them from the top down.
#![tactic(auto)]

mod commanding;
mod errors;
mod interpreters;
mod lines;
mod runners;
mod runs;
mod sessions;
mod showing;
mod stepping;
mod telling;

pub use errors::{RunError, StepError};
pub use lines::Summary;
pub use runs::{run, run_without_cleanup};
pub use script_streams::{Calls, FromRead, MOST_BYTES, Sink, Source, Stop, Tape, ToWrite, Turn};
pub use stepping::{Stepper, lines_step_as_script};
