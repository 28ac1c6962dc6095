//! What is proved of the rows of queries and of plans: each function's contract is a law, and its body does nothing.

ghost use Rattle.query_meaning.specs.Laws.{CheckedQueriesAreSound, CheckedQueriesGoUpWithoutCycles};
ghost use Rattle.query_meaning.specs.Laws.{CheckedQueriesNameTheLiving, ItemsGoByNumber, LocalByIds};
ghost use Rattle.query_meaning.specs.Laws.{PlansGiveAllRows, PlansGiveRows, RowsAreAnswers, RowsAreDistinct};
ghost use Rattle.query_meaning.specs.Laws.{RowsAreTheirIds, WorldsHaveNoRepeats};
ghost use Rattle.query_meaning.specs.Standing.{AskedQueriesAreCurrent, CurrentQueriesGoUpWithoutCycles};
ghost use Rattle.query_meaning.specs.Standing.{CurrentQueriesNameTheLiving};
ghost use Rattle.query_meaning.specs.Standing.{CurrentQueriesOrderWithoutCycles, PinsKeepQueriesCurrent, PinsKeepViews};
ghost use Rattle.query_meaning.specs.Standing.{StepsKeepPins, StepsKeepQueriesCurrent};

/// Law: what the others ask of a query, every query has that a text asks.
pub fn checked_queries_are_sound()
    ensures { CheckedQueriesAreSound }
{}

/// Law: a query that a text asks in a world names live entities.
pub fn checked_queries_name_the_living()
    ensures { CheckedQueriesNameTheLiving }
{}

/// Law: a query that a text asks in a well-formed world asks ancestors along relationships without cycles.
pub fn checked_queries_go_up_without_cycles()
    ensures { CheckedQueriesGoUpWithoutCycles }
{}

/// Law: a query is current in the world in which a text asks it.
pub fn asked_queries_are_current()
    ensures { AskedQueriesAreCurrent }
{}

/// Law: a query that is current in a world names live entities.
pub fn current_queries_name_the_living()
    ensures { CurrentQueriesNameTheLiving }
{}

/// Law: a query that is current in a well-formed world asks ancestors along relationships without cycles.
pub fn current_queries_go_up_without_cycles()
    ensures { CurrentQueriesGoUpWithoutCycles }
{}

/// Law: a query that is current in a well-formed world orders its rows along a relationship without cycles, where it
/// orders them by depth.
pub fn current_queries_order_without_cycles()
    ensures { CurrentQueriesOrderWithoutCycles }
{}

/// Law: a command changes no count of stored queries.
pub fn steps_keep_pins()
    ensures { StepsKeepPins }
{}

/// Law: a current query stays current for as long as stored queries mention what it names.
pub fn steps_keep_queries_current()
    ensures { StepsKeepQueriesCurrent }
{}

/// Law: a current query stays current, whatever is counted of stored queries.
pub fn pins_keep_queries_current()
    ensures { PinsKeepQueriesCurrent }
{}

/// Law: queries see the same of a world, whatever is counted of stored queries.
pub fn pins_keep_views()
    ensures { PinsKeepViews }
{}

/// Law: what the others ask of a view, every well-formed world shows.
pub fn worlds_have_no_repeats()
    ensures { WorldsHaveNoRepeats }
{}

/// Law: items have the numbers and the levels that the check gives them.
pub fn items_go_by_number()
    ensures { ItemsGoByNumber }
{}

/// Law: no row of a query is there twice.
pub fn no_row_stands_twice()
    ensures { RowsAreDistinct }
{}

/// Law: two rows with the same entities and the same ids are one row.
pub fn rows_with_equal_entities_and_ids_are_one()
    ensures { RowsAreTheirIds }
{}

/// Law: the rows are those of the assignments under which all items hold.
pub fn rows_are_those_of_the_answers()
    ensures { RowsAreAnswers }
{}

/// Law: every valid plan gives the assignments of the rows, each once, in some order.
pub fn every_valid_plan_gives_the_answers()
    ensures { PlansGiveRows }
{}

/// Law: the rows under the assignments of a valid plan are all rows, each once, in some order.
pub fn every_valid_plan_gives_all_rows()
    ensures { PlansGiveAllRows }
{}

/// Law: whether an entity is `$this` of a row of a local query depends on its own life and ids alone.
pub fn local_queries_ask_an_entity_alone()
    ensures { LocalByIds }
{}
