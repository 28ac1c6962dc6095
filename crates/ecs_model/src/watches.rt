//! What a session keeps of queries, and the events of its world.

/// The kind of a stored query: what it gives.
#[derive(Clone, Copy, Debug, PartialEq, Eq)]
pub enum StoredKind {
    /// Its rows, when they are asked for.
    Kept,
    /// Which entities leave and enter its rows.
    Monitor,
    /// Which of the facts that its term matches are added.
    OnAdd,
    /// Which of them are removed.
    OnRemove,
    /// Which of them are set.
    OnSet,
}

/// What has happened to an entity.
#[derive(Clone, Copy, Debug, PartialEq, Eq)]
pub enum EventKind {
    /// It has left the rows of a monitor.
    Left,
    /// It has entered them.
    Entered,
    /// A fact of it was added.
    Added,
    /// A fact of it was removed.
    Removed,
    /// The value of a fact of it was set.
    Written,
}
