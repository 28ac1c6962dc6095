//! Searches along the relationships of a world, in room that is made once.
#![tactic(auto)]

mod chains;
mod depths;
mod falls;
mod forbidding;
mod found;
mod graph;
mod holders;
mod line;
mod path;
mod referrers;
mod scratch;
mod spread;
mod up_words;
mod ways;
mod work_list;

pub use falls::Falling;
pub use found::Found;
pub use graph::{Graph, Upward, target_under};
pub use holders::{Downward, Holders, add_holders, may_be_target};
pub use scratch::{
    Scratch, above, below, deleted, deletion_is_forbidden, depth, find_referrers, first_up, gather,
    known_depth, pull, reaches, would_cycle,
};
pub use up_words::{Known, NOBODY, Unknown, told, word_of};
pub use ways::{Ways, known_reaches};
pub use work_list::Rule;
