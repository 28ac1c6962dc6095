//! What is proved of kept lists: each function's contract is a law, and its body does nothing.

ghost use Rattle.query_cache.specs.Laws.{FitsLater, PatternsSuffice};

/// Law: a list that fits a store fits whatever the store goes on to.
pub fn fits_later()
    ensures { FitsLater }
{}

/// Law: a kept query lists the tables of some ids exactly where its patterns have their hits among them.
pub fn patterns_suffice()
    ensures { PatternsSuffice }
{}
