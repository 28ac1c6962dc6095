//! What is proved of the definitions alone: the function's contract is a law, and its body does nothing.

ghost use Rattle.watch_index.specs.Laws.{WhomChangesConcernTheyLeadTo};

/// Law: each stored query that the changes may concern listens for one of them.
pub fn whom_changes_concern_they_lead_to()
    ensures { WhomChangesConcernTheyLeadTo }
{}
