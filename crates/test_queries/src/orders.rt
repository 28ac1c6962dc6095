//! Whatever order the steps of a plan have, its rows are the same.
//!
//! Each item is taken in each way, and the steps of a group stay in it, as they do in every plan. Plans of more than
//! six steps (those with two groups) are tried in the ways of plain terms alone, since in all six they have 186,624
//! orders. With each query one plan is tried that the planner doesn't choose, where it is one: each entity, and then
//! the test of the only term.

ghost use Rattle.std.specs.Prelude.{◌≡◌, ◌+◌, ◌<◌, ◌≤◌, length};
ghost use Rattle.ecs_model.specs.rows.View.{view_of};
ghost use Rattle.world_query.specs.Answerable.{IsAnswerable, IsAsked};

use crate::numbers::expect;
use crate::worked::WorkedRow;
use ecs_world::World;
use query_check::Query;
use query_meaning::{Mode, Step};
use query_plan::{Plan, PlanFault};
use std::alloc::{AllocError, Global};
use std::process::Abort;
use std::test::Fail;
use world_query::{plan_in, read_query, write_planned_rows};

/// The ways to deal with an item, those of a plain term first.
const MODES: usize = 6;

/// The ways to deal with a plain term, which is no equality and doesn't follow its relationship.
const PLAIN_MODES: usize = 3;

/// Plans of more steps than these have more orders than can be tried, so their items, which are plain terms, are taken
/// in the ways of these alone.
const FEW_STEPS: usize = 6;

/// Each entity, and then the test of the only term.
static BY_EACH: [Step; 2] = [Step::Every(0), Step::Deal(Mode::Check, 0)];

/// A query in a world, and the rows that it should give.
#[derive(Clone, Copy)]
struct Tried<'w> {
    world: &'w World,
    query: &'w Query,
    rows: &'w [u8],
}

/// How many ways there are to take a step of so many.
fn modes_of(step: Step, count: usize) -> usize {
    match step {
        Step::Deal(_, _) if count > FEW_STEPS => PLAIN_MODES,
        Step::Deal(_, _) => MODES,
        _ => 1,
    }
}

/// A step that deals with the same item in one of the ways.
fn in_mode(step: Step, way: usize) -> Step {
    let Step::Deal(_, item) = step else {
        return step;
    };
    let mode = match way {
        0 => Mode::Check,
        1 => Mode::Scan,
        2 => Mode::Targets,
        3 => Mode::Above,
        4 => Mode::Fix,
        _ => Mode::Below,
    };
    Step::Deal(mode, item)
}

impl Tried<'_> {
    /// Runs the steps, if they are a plan: how many plans these are, none or one. None where they don't give the rows
    /// that they should.
    fn runs(&self, alloc: Global, steps: &[Step]) -> Result<Option<usize>, AllocError>
        requires { IsAnswerable (view_of self.now.world.now.state) self.now.query.now }
    {
        let plan = match Plan::from_steps(alloc, self.query, steps) {
            Ok(plan) => plan,
            Err(PlanFault::Refused(_)) => return Ok(Some(0)),
            Err(PlanFault::Memory) => return Err(AllocError),
        };
        let mut rows = Vec::new(alloc);
        let written = write_planned_rows(alloc, self.world, &plan, &mut rows);
        drop(plan);
        let is_right = rows.as_slice() == self.rows;
        drop(rows);
        written?;
        Ok(if is_right { Some(1) } else { None })
    }

    /// Tries each order of the steps from a place on, in each mode: how many are plans, if all of these give the rows.
    /// The steps of a group stay in it, in each of their orders, since no plan has one of them elsewhere.
    fn all_run(
        &self,
        alloc: Global,
        steps: &mut [Step],
        at: usize,
    ) -> Result<Option<usize>, AllocError>
        requires answerable { IsAnswerable (view_of self.now.world.now.state) self.now.query.now }
        requires within { at ≤ length steps.old }
        ensures length { length steps.new ≡ length steps.old }
    {
        if at == steps.len() {
            return self.runs(alloc, steps);
        }
        let end = level_end(steps, at);
        if end == at {
            return self.all_run(alloc, steps, at + 1);
        }
        let mut plans = 0usize;
        let mut turned = 0;
        'pieces: while turned < end - at {
            for mode in 0..modes_of(steps[at], steps.len()) {
                steps[at] = in_mode(steps[at], mode);
                let Some(more) = self.all_run(alloc, steps, at + 1)? else {
                    return Ok(None);
                };
                plans = plans.saturating_add(more);
            }
            let piece = piece_at(steps, at, end);
            steps[at..end].rotate_left(piece);
            turned += piece;
        }
        Ok(Some(plans))
    }
}

/// Where the level of a step ends: at the end of its group, or of all steps.
fn level_end(steps: &[Step], at: usize) -> usize
    requires { at ≤ length steps.now }
    ensures after { at ≤ result }
    ensures within { result ≤ length steps.now }
{
    let mut open = 0usize;
    for place in at..steps.len() {
        match steps[place] {
            Step::Enter(_) => open = open.saturating_add(1),
            Step::Leave if open == 0 => return place,
            Step::Leave => open -= 1,
            _ => {}
        }
    }
    steps.len()
}

/// How many steps stand together here, in a level that ends there: those of a group, or one.
fn piece_at(steps: &[Step], at: usize, end: usize) -> usize
    requires some { at < end }
    requires within { end ≤ length steps.now }
    ensures some { 1 ≤ result }
    ensures within { at + result ≤ end }
{
    match steps[at] {
        Step::Enter(_) => (level_end(steps, at + 1) + 1).min(end) - at,
        _ => 1,
    }
}

/// How many orders of the planner's steps are plans, and the steps by each entity, if all of these give the same rows,
/// which are written after others.
fn plans_of(
    alloc: Global,
    world: &World,
    query: &Query,
    rows: &mut Vec<u8>,
) -> Result<Option<usize>, AllocError>
    requires { IsAsked world.now.state query.now }
{
    world.keeps();
    let planned = plan_in(alloc, world, query.try_clone(alloc)?)?;
    let written = write_planned_rows(alloc, world, &planned, rows);
    let copied = Vec::from_slice(alloc, planned.steps());
    drop(planned);
    let mut steps = copied?;
    let rows = rows.as_slice();
    let tried = Tried { world, query, rows };
    let by_each = tried.runs(alloc, &BY_EACH);
    let plans = tried.all_run(alloc, steps.as_mut_slice(), 0);
    drop(steps);
    written?;
    Ok(both(by_each?, plans?))
}

/// How many there are together, if all are known.
fn both(one: Option<usize>, other: Option<usize>) -> Option<usize> {
    Some(one?.saturating_add(other?))
}

/// How many orders of the steps of a row's plan are plans, if all of these give the rows that are printed, and else 0.
fn plans_of_row(alloc: Global, world: &World, row: &WorkedRow) -> Result<usize, Fail> {
    let query = read_query(alloc, world, row.query)?;
    let mut rows = Vec::new(alloc);
    let plans = plans_of(alloc, world, &query, &mut rows);
    drop(query);
    let is_printed = rows.as_slice() == row.answer.as_bytes();
    drop(rows);
    let plans = plans?.unwrap_or(0);
    Ok(if is_printed { plans } else { 0 })
}

/// All orders give what the worked row prints, if they can be tried.
pub(crate) fn try_orders(
    rt: &impl Abort,
    alloc: Global,
    world: &World,
    row: &WorkedRow,
) -> Result<(), Fail> {
    if row.plans > 0 {
        let plans = plans_of_row(alloc, world, row)?;
        expect(rt, row.plans <= plans, row.query);
    }
    Ok(())
}
