//! What is proved of the definitions alone: each function's contract is a law, and its body does nothing.

ghost use Rattle.watch_touched.specs.Laws.{OthersThanMovingStay, OthersThanRolesStay, QueriesMatchedBefore};
ghost use Rattle.watch_touched.specs.Laws.{ShowsWorldBefore, UnconcernedQueriesMatchOn};

/// Law: the view before a command, computed from the world after it and from its changes, shows the same live entities
/// with the same ids as the world before.
pub fn view_before_shows_the_world_before()
    ensures { ShowsWorldBefore }
{}

/// Law: in that view a query has rows of the same entities as in the world before.
pub fn queries_matched_before()
    ensures { QueriesMatchedBefore }
{}

/// Law: a query that a command doesn't concern has rows of the same entities before and after it.
pub fn unconcerned_queries_match_on()
    ensures { UnconcernedQueriesMatchOn }
{}

/// Law: for an anchored query, where a changed fact of another entity may move only the holders of a pair with it or
/// with an entity below it: if a list includes every candidate (`AreMoving`), every other entity is in the rows after
/// the command exactly if it was before.
pub fn others_than_moving_stay()
    ensures { OthersThanMovingStay }
{}

/// Law: the same for a linked query. An entity stays in the rows or out of them where three things hold: none of its
/// own facts was added or removed; the query's terms lead from it to no entity with a changed fact that the query asks
/// of a variable besides `$this`; and it is below no entity with a changed fact that concerns entities below.
pub fn others_than_those_who_may_stand_stay()
    ensures { OthersThanRolesStay }
{}
