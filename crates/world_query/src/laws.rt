//! What is proved of runs of planned queries: each function's contract is a law, and its body does nothing.

ghost use Rattle.world_query.specs.Probes.{AskedQueriesHaveTerms, FactsCountAlike, KeptQueriesStayWithin};
ghost use Rattle.world_query.specs.Probes.{KeptRowsStayWithin, PlannedQueriesStayWithin};
ghost use Rattle.world_query.specs.Probes.{SimpleQueriesStayWithin};

/// Law: a run of a simple query, planned in the world in which it runs, makes at most as many probes as the query has
/// items times the tables of the shortest list among its items that must match.
pub fn simple_queries_stay_within_their_probes()
    ensures { SimpleQueriesStayWithin }
{}

/// Law: a run of a simple query through the tables that are kept for it makes at most as many probes as the query has
/// items times these tables, in whatever world it was planned.
pub fn kept_queries_stay_within_their_tables()
    ensures { KeptQueriesStayWithin }
{}

/// Law: the probes that `write_rows_in` answers are of a simple query at most as many as it has items times the tables
/// that were given, in whatever world it was planned.
pub fn kept_rows_stay_within_their_tables()
    ensures { KeptRowsStayWithin }
{}

/// Law: no chain of alternatives is empty in a query that some text asked.
pub fn asked_queries_have_terms()
    ensures { AskedQueriesHaveTerms }
{}

/// Law: all facts of one world count as many tables for each item of a query.
pub fn facts_count_alike()
    ensures { FactsCountAlike }
{}

/// Law: a run of a simple query over `WorldFacts` of the world in which `plan_in` planned it makes at most as many
/// probes as the query has items times the tables of the shortest list among its items that must match.
/// `WorldFacts::keeps_lists`, `Facts::keeps` and the clause `tables` of `Run::start` give what the law asks of the run.
pub fn planned_queries_stay_within_their_probes()
    ensures { PlannedQueriesStayWithin }
{}
