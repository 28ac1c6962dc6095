//! Reads texts of queries, from their bytes to the checked query or the fault, and prints what came of each; or plans
//! them.

ghost use Rattle.std.specs.Prelude.{IfOk};
ghost use Rattle.query_meaning.specs.Sound.{IsSound};

use crate::words::Words;
use crate::{is_asked, texts};
use query_check::{Query, check};
use query_meaning::laws::checked_queries_are_sound;
use query_model::faults::QueryFault;
use query_parser::{lex, parse};
use query_plan::Plan;
use std::alloc::{AllocError, Global};
use std::io;

/// The texts by name: one that has all that a query may have, and some that try to be slow.
static TEXTS: [&str; 9] = [
    "terms",
    "plain",
    "alternatives",
    "variables",
    "occurrences",
    "groups",
    "nested",
    "marks",
    "blanks",
];

fn text_of(alloc: Global, name: &str) -> Result<String, AllocError> {
    match name {
        "terms" => texts::terms(alloc),
        "plain" => texts::plain(alloc),
        "alternatives" => texts::repeated(alloc, "N", "||N"),
        "variables" => texts::variables(alloc),
        "occurrences" => texts::repeated(alloc, "N", ",N($a,$b)"),
        "groups" => texts::repeated(alloc, "N", ",!{!{!{N($a,$b)}}}"),
        "nested" => texts::repeated(alloc, "", "!{"),
        "marks" => texts::repeated(alloc, "", "|||"),
        _ => texts::repeated(alloc, "N", " "),
    }
}

/// The query of a text. It is sound, as every query is that a text asks.
#[tactic(auto, using(crate::proofs::SoundQueries::asked_is_sound))]
fn ask(alloc: Global, text: &str) -> Result<Query, QueryFault>
    ensures { IfOk result (λ query. IsSound query) }
{
    checked_queries_are_sound();
    let tokens = match lex(alloc, text) {
        Ok(tokens) => tokens,
        Err(fault) => return Err(fault),
    };
    let syntax = match parse(alloc, tokens.as_slice()) {
        Ok(syntax) => syntax,
        Err(fault) => return Err(fault),
    };
    check(alloc, &Words, &syntax)
}

/// Reads a text up to a phase: its tokens, or their syntax too.
fn ask_phase(alloc: Global, text: &str, phase: &str) -> Result<usize, QueryFault> {
    let tokens = match lex(alloc, text) {
        Ok(tokens) => tokens,
        Err(fault) => return Err(fault),
    };
    if phase == "lex" {
        return Ok(tokens.len());
    }
    let syntax = match parse(alloc, tokens.as_slice()) {
        Ok(syntax) => syntax,
        Err(fault) => return Err(fault),
    };
    Ok(syntax.parts.len())
}

/// Whether a third word asks for plans.
fn asks_plans(phase: &str) -> bool {
    matches!(phase, "plan" | "tested" | "steps" | "copy")
}

/// Reads a text so often, up to a phase if one is asked for, and the last time as a whole.
fn read_often(
    alloc: Global,
    text: &str,
    phase: &Option<String>,
    times: u64,
) -> Result<Query, QueryFault> {
    for _ in 1..times {
        match phase {
            Some(phase) => drop(ask_phase(alloc, text, phase)),
            None => drop(ask(alloc, text)),
        }
    }
    ask(alloc, text)
}

/// How many tables each item would be searched in.
const TABLES: [usize; 64] = [3; 64];

/// Does once what a phase asks: plans the query, with a test of the steps or without one, judges the steps of its plan,
/// or copies it.
fn plan_once(alloc: Global, query: &Query, plan: &Plan, tables: &[usize; 64], phase: &str)
    requires { IsSound query.now }
{
    match phase {
        "plan" => drop(Plan::new(alloc, query, tables)),
        "tested" => drop(Plan::of_lists(alloc, query, tables)),
        "copy" => drop(query.try_clone(alloc)),
        _ => drop(Plan::from_steps(alloc, query, plan.steps())),
    }
}

/// Does that so often, and answers how many steps the plan has.
fn plan_query_often(
    alloc: Global,
    query: &Query,
    phase: &str,
    times: u64,
) -> Result<usize, QueryFault>
    requires { IsSound query.now }
{
    let tables = TABLES;
    let Ok(plan) = Plan::new(alloc, query, &tables) else {
        return Err(QueryFault::Memory);
    };
    for _ in 1..times {
        plan_once(alloc, query, &plan, &tables, phase);
    }
    let steps = plan.steps().len();
    drop(plan);
    Ok(steps)
}

/// Plans a query that is checked once so often, with a test of the steps or without one, or judges the steps of its
/// plan, or copies the query.
fn plan_often(alloc: Global, text: &str, phase: &str, times: u64) -> Result<usize, QueryFault> {
    let query = ask(alloc, text)?;
    let steps = plan_query_often(alloc, &query, phase, times);
    drop(query);
    steps
}

/// How many pieces, mentions and variables a query has.
fn lengths_of(query: &Query) -> [usize; 3] {
    [
        query.pieces().len(),
        query.mentions().len(),
        query.variables().len(),
    ]
}

/// The same of an answer, or its fault.
fn lengths_in(answer: Result<Query, QueryFault>) -> Result<[usize; 3], QueryFault> {
    let query = answer?;
    let lengths = lengths_of(&query);
    drop(query);
    Ok(lengths)
}

fn told(rt: &HostRuntime, name: &str, answer: Result<[usize; 3], QueryFault>) -> io::Result<()> {
    match answer {
        Ok(lengths) => {
            let [pieces, mentions, variables] = lengths;
            println!(rt; "{name}: {pieces} pieces, {mentions} mentions, {variables} variables")
        }
        Err(QueryFault::Memory) => println!(rt; "{name}: Memory"),
        Err(QueryFault::Fault(fault)) => println!(rt;
            "{name}: {:?} {}..{}",
            fault.kind, fault.span.start, fault.span.end
        ),
    }
}

fn told_plan(rt: &HostRuntime, name: &str, steps: Result<usize, QueryFault>) -> io::Result<()> {
    match steps {
        Ok(steps) => println!(rt; "{name}: a plan of {steps} steps"),
        Err(_) => println!(rt; "{name}: no plan"),
    }
}

fn tell_text(
    rt: &HostRuntime,
    name: &str,
    text: &str,
    times: u64,
    phase: &Option<String>,
) -> io::Result<()> {
    let alloc = rt.alloc();
    match phase {
        Some(phase) if asks_plans(phase) => {
            told_plan(rt, name, plan_often(alloc, text, phase, times))
        }
        _ => told(rt, name, lengths_in(read_often(alloc, text, phase, times))),
    }
}

/// Reads the text that is named, or each, so often, up to a phase if one is asked for, or plans it.
pub(crate) fn tell(
    rt: &HostRuntime,
    chosen: &Option<String>,
    times: u64,
    phase: &Option<String>,
) -> io::Result<()> {
    for name in &TEXTS {
        if is_asked(chosen, name) {
            let text = text_of(rt.alloc(), name)?;
            let done = tell_text(rt, name, &text, times, phase);
            drop(text);
            done?;
        }
    }
    Ok(())
}
