//! What is proved of the definitions alone: each function's contract is a law, and its body does nothing.

ghost use Rattle.watch_concerns.specs.Laws.{LackingMatchNothing, MatchByOwnFacts, MatchByRoles, MatchByTies};
ghost use Rattle.watch_concerns.specs.Laws.{MatchByWhatConcerns, MatchWhoeverElseLives};
ghost use Rattle.watch_concerns.specs.Laws.{MeetingMatch};

/// Law: if the same entities are alive in two views, and each holds the same of the ids that concern a query, then the
/// query has rows of the same entities in both.
pub fn queries_match_by_what_concerns_them()
    ensures { MatchByWhatConcerns }
{}

/// Law: for an anchored query it doesn't even matter which entities are alive, if each fact is held by a live entity
/// and mentions only live ones.
pub fn anchored_queries_match_whoever_else_lives()
    ensures { MatchWhoeverElseLives }
{}

/// Law: an entity is `$this` of a row of an anchored query in both views or in neither, if three things are the same in
/// both: of its own ids those that concern the query; of the ids of its ancestors those that concern the query for
/// entities below; and of the ids of all entities those that concern it for other entities.
pub fn anchored_queries_match_by_own_facts()
    ensures { MatchByOwnFacts }
{}

/// Law: if the anchored query is also tied, only some other entities matter, besides the ancestors: the targets of
/// pairs that the entity holds and that concern the query.
pub fn tied_queries_match_by_facts_of_their_targets()
    ensures { MatchByTies }
{}

/// Law: if the anchored query is linked by some terms, only the entities matter that may stand for one of its
/// variables: the entity itself for `$this`, and each entity to which these terms lead from there, over any number of
/// pairs. Of their ids only those matter that the query asks of that variable.
pub fn linked_queries_match_by_facts_of_those_who_may_stand()
    ensures { MatchByRoles }
{}

/// Law: an entity that lacks an id which the query requires on `$this` itself is `$this` of no row.
pub fn entities_that_lack_match_nothing()
    ensures { LackingMatchNothing }
{}

/// Law: a live entity whose own ids alone meet the query is `$this` of a row.
pub fn entities_that_meet_match()
    ensures { MeetingMatch }
{}
