//! Runs of whole rows, a row a pull, which are given up at any time.

ghost use Rattle.std.specs.Prelude.{◌≡◌, ◌≤◌};
ghost use Rattle.plan_steps.specs.Instructions.{instructions_of};
ghost use Rattle.plan_fields.specs.Fields.{field_items};
ghost use Rattle.plan_steps.specs.Tables.{by_tables};
ghost use Rattle.whole_rows.specs.WholeRows.{Fits};
ghost use Rattle.query_meaning.specs.Names.{GoesUpWithoutCycles};
ghost use Rattle.world_query.specs.Answerable.{IsAsked};

use crate::numbers::expect;
use crate::worked::WorkedRow;
use ecs_world::World;
use plan_steps::Facts;
use query_check::Query;
use query_plan::Plan;
use refusing_alloc::Refusing;
use std::alloc::{AllocError, Allocator, Global};
use std::process::Abort;
use std::test::Fail;
use whole_rows::laws::rising_queries_start;
use whole_rows::{Row, RowFrames, RowRun};
use world_facts::WorldFacts;
use world_query::{plan_in, read_query};

/// Pulls rows until so many came or none is to come, and answers how many came.
fn pull<F: Facts, A: Allocator>(run: &mut RowRun<'_, F, A>, row: &mut Row, most: usize) -> usize
    requires fits { Fits row.old run.old }
    ensures room { run.new.room ≡ run.old.room }
    ensures fits { Fits row.new run.new }
{
    for at in 0..most {
        if !run.next_into(row) {
            return at;
        }
    }
    most
}

/// Pulls as `pull` does, and at the end once more: no row comes.
fn pull_past_end<F: Facts, A: Allocator>(
    rt: &impl Abort,
    run: &mut RowRun<'_, F, A>,
    row: &mut Row,
    most: usize,
) -> usize
    requires fits { Fits row.old run.old }
{
    let rows = pull(run, row, most);
    assert!(rt; rows == most || pull(run, row, 1) == 0);
    rows
}

/// Runs frames of a plan up to so many rows, and gives the run up. From its start all memory is refused.
fn run_frames<F: Facts>(
    rt: &impl Abort,
    room: &Refusing<Global>,
    facts: &F,
    plan: &Plan,
    frames: RowFrames<&Refusing<Global>>,
    row: &mut Row,
    most: usize,
) -> usize
    requires steps { frames.frames.steps ≡ by_tables (instructions_of (plan.now).query (plan.now).steps) }
    requires items { frames.items ≡ field_items (plan.now).query }
    requires covers { (F.reading facts.now).size ≤ frames.frames.size }
    requires rises { GoesUpWithoutCycles (F.reading facts.now).view (plan.now).query }
{
    rising_queries_start();
    room.refuse_after(0);
    let mut run = RowRun::start(frames, facts);
    assert!(rt; row.fits(&run));
    let came = pull_past_end(rt, &mut run, row, most);
    drop(run);
    came
}

fn run_plan<F: Facts>(
    rt: &impl Abort,
    alloc: Global,
    facts: &F,
    plan: &Plan,
    most: usize,
) -> Result<usize, AllocError>
    requires rises { GoesUpWithoutCycles (F.reading facts.now).view (plan.now).query }
{
    let room = Refusing::new(alloc);
    let mut row = Row::new(alloc, plan.query())?;
    let frames = RowFrames::of(&room, plan.query(), plan.steps(), facts.size())?;
    Ok(run_frames(rt, &room, facts, plan, frames, &mut row, most))
}

/// The same of a query that was read in the world.
fn run_query(
    rt: &impl Abort,
    alloc: Global,
    world: &World,
    query: Query,
    most: usize,
) -> Result<usize, AllocError>
    requires { IsAsked world.now.state query }
{
    world.keeps();
    let plan = plan_in(alloc, world, query)?;
    let came = run_plan(rt, alloc, &WorldFacts::new(world), &plan, most);
    drop(plan);
    came
}

/// The same of a text: how many rows came.
pub(crate) fn run_text(
    rt: &impl Abort,
    alloc: Global,
    world: &World,
    text: &str,
    most: usize,
) -> Result<usize, Fail> {
    let query = read_query(alloc, world, text)?;
    Ok(run_query(rt, alloc, world, query, most)?)
}

/// A run of a worked row gives as many rows as are printed, and is given up after each number of them.
pub(crate) fn give_up_anywhere(
    rt: &impl Abort,
    alloc: Global,
    world: &World,
    row: &WorkedRow,
) -> Result<(), Fail> {
    let rows = row.answer.lines().count().saturating_sub(1);
    for most in 0..rows.saturating_add(2) {
        let came = run_text(rt, alloc, world, row.query, most)?;
        expect(rt, came == most.min(rows), row.query);
    }
    Ok(())
}
