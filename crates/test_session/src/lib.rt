//! A session at work: what scripts print, each growth of each of their lines refused in turn, and whole scripts over
//! tapes.
#![tactic(auto)]

#[cfg(test)]
mod batches;
#[cfg(test)]
mod growths;
#[cfg(test)]
mod lines;
#[cfg(test)]
mod lists;
#[cfg(test)]
mod named;
#[cfg(test)]
mod scripts;
#[cfg(test)]
mod tapes;
