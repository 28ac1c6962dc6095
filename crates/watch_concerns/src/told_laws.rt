//! What is proved of the definitions alone: each function's contract is a law, and its body does nothing.

ghost use Rattle.watch_concerns.specs.ToldLaws.{QueriesMentionOnce, TellsSince};

/// Law: what a stored query is notified of after a command follows from the world after it and from its changes; for a
/// monitor also from the entities of its rows before.
pub fn watches_are_told_since()
    ensures { TellsSince }
{}

/// Law: a query read from a text mentions no entity twice.
pub fn queries_mention_once()
    ensures { QueriesMentionOnce }
{}
