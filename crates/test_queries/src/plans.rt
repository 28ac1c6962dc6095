//! Steps of a few queries, with the answers that rules written apart from the code give.

use crate::ask;
use crate::numbers::expect;
use query_meaning::Mode::{Above, Check, Scan, Targets};
use query_meaning::PlanRefusal::{MissingItem, RepeatedItem, UnboundMode};
use query_meaning::Step::{Deal, Enter, Every, Leave};
use query_meaning::{PlanRefusal, Step};
use query_plan::{Plan, PlanFault};
use std::alloc::Global;
use std::test::Fail;

/// A text, steps, and why they are no plan of it, if they are none.
type Judged = (&'static str, &'static [Step], Option<PlanRefusal>);

/// A group that waits for its variables, a closed term with a variable at its end, and two terms.
static JUDGED: [Judged; 14] = [
    (
        WAITING,
        &[Deal(Scan, 2), Enter(0), Deal(Check, 1), Leave],
        None,
    ),
    (
        WAITING,
        &[Enter(0), Deal(Scan, 1), Leave, Deal(Scan, 2)],
        Some(UnboundMode),
    ),
    (WAITING, &[Deal(Scan, 2)], Some(MissingItem)),
    (
        WAITING,
        &[
            Deal(Scan, 2),
            Deal(Check, 2),
            Enter(0),
            Deal(Check, 1),
            Leave,
        ],
        Some(RepeatedItem),
    ),
    (
        WAITING,
        &[Deal(Scan, 2), Deal(Check, 1), Enter(0), Leave],
        Some(MissingItem),
    ),
    (
        WAITING,
        &[Deal(Scan, 2), Enter(0), Deal(Check, 1)],
        Some(MissingItem),
    ),
    (CLOSED, &[Deal(Above, 0)], None),
    (CLOSED, &[Every(0), Deal(Check, 0)], None),
    (CLOSED, &[Deal(Scan, 0)], Some(UnboundMode)),
    (PARENTS, &[Deal(Scan, 1), Deal(Scan, 0)], None),
    (PARENTS, &[Deal(Scan, 0), Deal(Check, 1)], None),
    (
        PARENTS,
        &[Deal(Scan, 1), Deal(Scan, 0), Deal(Check, 7)],
        Some(MissingItem),
    ),
    (
        PARENTS,
        &[Deal(Scan, 0), Deal(Targets, 1)],
        Some(UnboundMode),
    ),
    (PARENTS, &[Deal(Scan, 1), Deal(Scan, 1)], Some(MissingItem)),
];

const WAITING: &str = "!(Likes,$x), (ChildOf,$x)";

const CLOSED: &str = "IsA(Moon,$x)";

const PARENTS: &str = "(ChildOf,$p), Planet($p)";

/// Why steps are no plan of a text, if they are none.
fn reason_of(alloc: Global, text: &str, steps: &[Step]) -> Result<Option<PlanRefusal>, Fail> {
    let query = ask(alloc, text)?;
    let made = Plan::from_steps(alloc, &query, steps);
    drop(query);
    match made.err() {
        None => Ok(None),
        Some(PlanFault::Refused(reason)) => Ok(Some(reason)),
        Some(memory) => Err(memory)?,
    }
}

#[test]
fn steps_are_a_plan_or_not(rt: HostRuntime) -> Result<(), Fail> {
    for (text, steps, reason) in &JUDGED {
        let found = reason_of(rt.alloc(), text, steps)?;
        expect(&rt, found == *reason, text);
    }
    Ok(())
}

/// A text, how many tables each of its items is searched in, and the planner's steps.
type Planned = (&'static str, &'static [usize], &'static [Step]);

/// The shortest list comes first, and what is tied to bound variables before others.
static PLANNED: [Planned; 9] = [
    (PARENTS, &[5, 1], &[Deal(Scan, 1), Deal(Scan, 0)]),
    (PARENTS, &[1, 5], &[Deal(Scan, 0), Deal(Check, 1)]),
    (PARENTS, &[1, 1], &[Deal(Scan, 0), Deal(Check, 1)]),
    (
        WAITING,
        &[0, 1, 2],
        &[Deal(Scan, 2), Enter(0), Deal(Check, 1), Leave],
    ),
    (CLOSED, &[7], &[Deal(Above, 0)]),
    (
        "!Planet",
        &[0, 0],
        &[Every(0), Enter(0), Deal(Check, 1), Leave],
    ),
    ("Planet, Planet", &[1, 1], &[Deal(Scan, 0), Deal(Check, 1)]),
    (
        "Sun($s), (ChildOf,$s), (Likes,$x), Position($x)",
        &[2, 9, 5, 4],
        &[
            Deal(Scan, 0),
            Deal(Scan, 1),
            Deal(Targets, 2),
            Deal(Check, 3),
        ],
    ),
    (
        "(ChildOf,$p), ChildOf($p,$s), Planet($s), Sun",
        &[9, 9, 1, 2],
        &[Deal(Scan, 2), Deal(Scan, 1), Deal(Scan, 0), Deal(Check, 3)],
    ),
];

/// Whether these are the steps of the planner's plan.
fn is_planned(alloc: Global, text: &str, lists: &[usize], steps: &[Step]) -> Result<bool, Fail> {
    let query = ask(alloc, text)?;
    let made = Plan::of_lists(alloc, &query, lists);
    drop(query);
    let plan = made?;
    let is_planned = plan.steps() == steps;
    drop(plan);
    Ok(is_planned)
}

#[test]
fn the_shortest_list_comes_first(rt: HostRuntime) -> Result<(), Fail> {
    for (text, lists, steps) in &PLANNED {
        let is_planned = is_planned(rt.alloc(), text, lists, steps)?;
        expect(&rt, is_planned, text);
    }
    Ok(())
}
