//! A simple query makes no more probes than is promised of it.

ghost use Rattle.std.specs.Prelude.{ℕ, ◌≡◌, ◌≤◌, ◌<◌, ◌*◌, IfOk, length, slice_index, true};
ghost use Rattle.plan_steps.specs.Factual.{IsFactual};
ghost use Rattle.query_meaning.specs.Names.{GoesUpWithoutCycles};
ghost use Rattle.query_meaning.specs.Variables.{entries, entry_at};
ghost use Rattle.query_model.specs.Local.{is_simple};
ghost use Rattle.query_plan.specs.Simple.{is_leading};
ghost use Rattle.test_queries.specs.Probes.{StaysWithinSteps};
ghost use Rattle.world_facts.specs.Lists.{ListsTables};
ghost use Rattle.world_facts.specs.Shown.{Shown, reading_of};
ghost use Rattle.world_query.specs.Answerable.{IsAsked, table_counts};

use crate::runs::run_text;
use crate::worlds::{first_at, name_all, new_world};
use ecs_id::Id;
use ecs_model::faults::CommandError;
use ecs_world::World;
use plan_exec::{Frames, Run};
use plan_steps::Facts;
use query_check::Query;
use query_plan::Plan;
use std::alloc::{AllocError, Allocator, Global};
use std::process::Abort;
use std::test::Fail;
use whole_rows::laws::rising_queries_start;
use world_facts::WorldFacts;
use world_query::laws::{
    asked_queries_have_terms, facts_count_alike, planned_queries_stay_within_their_probes,
};
use world_query::{plan_in, read_query};

/// Pulls rows until so many came or none is to come.
fn pull<F: Facts, A: Allocator>(run: &mut Run<'_, F, A>, row: &mut [u32], most: usize)
    requires width { length row.old ≡ run.old.width }
    ensures { run.new.limit ≤ run.old.limit }
{
    let mut came = 0;
    'rows: while came < most {
        if !run.next(row) {
            return;
        }
        came += 1;
    }
}

/// Pulls some rows of a plan over any facts, and says how many probes were made till then: no more than its steps allow.
fn probes_over<F: Facts>(
    alloc: Global,
    facts: &F,
    plan: &Plan,
    most: usize,
) -> Result<u64, AllocError>
    requires { GoesUpWithoutCycles (F.reading facts.now).view (plan.now).query }
    ensures factual { IsFactual (F.reading facts.now) }
    ensures within { IfOk result (StaysWithinSteps (F.reading facts.now) plan.now) }
{
    facts.keeps();
    rising_queries_start();
    let frames = Frames::of(alloc, plan.query(), plan.steps(), facts.size())?;
    let mut row = vec![in alloc; 0; frames.width()]?;
    let mut run = Run::start(frames, facts);
    pull(&mut run, row.as_mut_slice(), most);
    Ok(run.probes())
}

/// Plans a simple query in a world, pulls some of its rows there, and says how many probes were made till then: at most
/// as many as the query has items times the tables of each item that must match, whatever facts of the world count
/// these.
fn probes_of(alloc: Global, world: &World, query: Query, most: usize) -> Result<u64, AllocError>
    requires asked { IsAsked world.now.state query }
    requires simple { is_simple query ≡ true }
    ensures { IfOk result (λ probes. (s : Shown) → s.world ≡ world.now → ListsTables s → (j : ℕ)
        → is_leading (entry_at query j) ≡ true
        → probes ≤ length (entries query) * slice_index (table_counts (reading_of s) query) j) }
{
    world.keeps();
    asked_queries_have_terms();
    facts_count_alike();
    planned_queries_stay_within_their_probes();
    let plan = plan_in(alloc, world, query)?;
    let facts = WorldFacts::new(world);
    facts.keeps_lists();
    let probes = probes_over(alloc, &facts, &plan, most);
    drop(plan);
    probes
}

/// A query's text is read, and its rows are pulled where it is simple.
fn probes_of_text(
    rt: &impl Abort,
    alloc: Global,
    world: &World,
    text: &str,
    most: usize,
) -> Result<u64, Fail> {
    let query = read_query(alloc, world, text)?;
    assert!(rt; query.is_simple());
    Ok(probes_of(alloc, world, query, most)?)
}

const C: u32 = 64;

const U: u32 = 65;

/// The first of the entities without names: 2,000 tags, and as many entities that get them.
const FIRST: u32 = 66;

fn make_fresh(world: &mut World, count: u32) -> Result<(), CommandError> {
    for _ in 0..count {
        drop(world.fresh()?);
    }
    Ok(())
}

/// Gives entities C and a tag of their own each.
fn tag_each(world: &mut World, from: u32, end: u32) -> Result<(), CommandError>
    requires first { 0 < from }
    requires last { end ≤ 10_000 }
{
    for tag in from..end {
        let entity = first_at(tag + 2000);
        drop(world.add(entity, Id::plain(C))?);
        drop(world.add(entity, Id::plain(tag))?);
    }
    Ok(())
}

/// A run of a thousand million rows is given up after three. Of 2,000 tables with C, the one that has U is judged.
fn expect_few(rt: &impl Abort, alloc: Global, world: &mut World) -> Result<(), Fail> {
    name_all(world, &["C", "U"])?;
    make_fresh(world, 4000)?;
    tag_each(world, FIRST, FIRST + 1000)?;
    assert!(rt; run_text(rt, alloc, world, "C($a), C($b), C($c)", 3)? == 3);
    tag_each(world, FIRST + 1000, FIRST + 2000)?;
    drop(world.add(first_at(FIRST + 2007), Id::plain(U))?);
    assert!(rt; run_text(rt, alloc, world, "C, U", 10)? == 1);
    let probes = probes_of_text(rt, alloc, world, "C, U", 10)?;
    assert!(rt; probes > 0 && probes <= 2);
    Ok(())
}

#[test]
fn a_run_looks_no_further_than_it_is_asked(rt: HostRuntime) -> Result<(), Fail> {
    let mut world = new_world(&rt)?;
    let done = expect_few(&rt, rt.alloc(), &mut world);
    drop(world);
    done
}
