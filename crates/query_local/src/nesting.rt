//! What is known of the levels of a query, gone through from the left.

ghost use Rattle.std.specs.Prelude.{◌≡◌, ◌+◌, ◌<◌, ◌≤◌, ◌^◌};
ghost use Rattle.query_local.specs.Judging.{at_end, end_of_failed, end_of_holding, open_groups, with_item};

/// What is known of the levels that are open after some pieces. The whole query has depth 0, and a group one more than
/// the level around it.
#[derive(Clone, Copy)]
pub(crate) enum Nesting {
    /// The innermost level has this depth, and no level is known not to hold.
    Holding(usize),
    /// The level of this depth doesn't hold, and so many groups are open inside it, which don't matter. No level around
    /// it is known not to hold.
    Failed(usize, usize),
}

/// One more item of the innermost level, at this depth.
pub(crate) fn with_item(holds: bool, depth: usize) -> Nesting
    ensures { result ≡ with_item holds depth }
{
    if holds {
        Nesting::Holding(depth)
    } else {
        Nesting::Failed(depth, 0)
    }
}

/// The end of a group that holds: the level around it doesn't. An end of a group that isn't open ends nothing.
pub(crate) fn end_of_holding(depth: usize) -> Nesting
    ensures value { result ≡ end_of_holding depth }
    ensures fewer { open_groups result ≤ depth }
{
    if depth == 0 {
        Nesting::Holding(0)
    } else {
        Nesting::Failed(depth - 1, 0)
    }
}

/// The end of a group in a level that doesn't hold, or of that level itself.
pub(crate) fn end_of_failed(depth: usize, inside: usize) -> Nesting
    ensures value { result ≡ end_of_failed depth inside }
    ensures fewer { open_groups result ≤ depth + inside }
{
    if inside > 0 {
        Nesting::Failed(depth, inside - 1)
    } else if depth > 0 {
        Nesting::Holding(depth - 1)
    } else {
        Nesting::Failed(0, 0)
    }
}

/// Whether the whole query holds, where all groups end: the level around one that holds doesn't, and the level around
/// one that doesn't does.
pub(crate) fn at_end(nesting: Nesting) -> bool
    ensures { result ≡ at_end nesting }
{
    match nesting {
        Nesting::Holding(depth) => depth % 2 == 0,
        Nesting::Failed(depth, _) => depth % 2 == 1,
    }
}
