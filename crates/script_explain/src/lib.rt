//! What is wrong with a refused line of a script, in a few lines of text.
//!
//! A script runs as ever: `Watched` stands before its reader and `Explaining` before its writer. Both pass on what they
//! are given and answer as what stands behind them does. Each output line `error LINE KIND` that was written is
//! explained to a second writer: with the line itself, a mark under what is wrong, and a sentence.
#![tactic(auto)]

mod bytes;
mod commands;
mod explanations;
mod findings;
mod hints;
mod kinds;
pub mod laws;
mod misfits;
mod names;
mod nearness;
mod parts;
mod quotes;
mod ranges;
mod refusals;
mod scripts;
mod watching;

pub use scripts::Script;
pub use watching::{Explaining, Watched};
