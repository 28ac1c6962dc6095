//! The kinds of change that a stored query may listen for.

use id_pattern::Pattern;

/// How a fact changes.
#[derive(Clone, Copy, Debug, PartialEq, Eq, Hash)]
pub enum Way {
    /// It is added or removed.
    Moves,
    /// Its value is set.
    IsWritten,
}

/// A kind of change that a stored query may listen for.
#[derive(Clone, Copy, Debug, PartialEq, Eq, Hash)]
pub enum Occasion {
    /// An entity is created or deleted.
    Life,
    /// A fact with a tag that concerns every query is added or removed.
    AskedByAll,
    /// A fact whose id matches the pattern changes in this way.
    Fact(Way, Pattern),
}
