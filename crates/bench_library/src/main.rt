//! Programs that are timed from outside: the indexes, texts of queries, and commands on a world.
//!
//! The first word names one of them, and without one all four are run:
//!
//! - `indexes`: makes and deletes a million entities, and looks up a million names
//! - `query TEXT TIMES PHASE`: reads a text so often, up to a phase, or plans it. Time it once and many times, so that
//!   the difference is what one costs. Without a text each is read once.
//! - `iterate WORKLOAD TIMES SIZE`: goes so often over 10,000 entities in twenty tables, or as many as are asked for,
//!   by chunks
//!   - `ids`: their entities; `values`: two values of each
//!   - `row_ids`, `row_values`: the same by rows
//!   - `plain_ids`, `plain_values`: the same over plain slices
//!   - `starts`, `row_starts`, `search_starts`: only the first chunk, or the first row, by table or by a run of a plan
//!   - `asked`: each entity of the world is asked whether it is in the query
//!   - `bound`: each entity of the world is asked for its rows in the query
//!   - `written`, `plain_written`: one value of each is set to a new one, by table and in plain slices, and then all are read
//! - `world WORKLOAD SIZE`: carries out commands, 10,000 times where no size is named
//!   - `values`: entities with three components, whose values are set; each moves to another table and on to a third
//!   - `tree`: each entity is a child of one of those before it, chosen at random
//!   - `felled`: the same, and then the first is deleted, and all with it
//!   - `pairs`: pairs of a symmetric and exclusive relationship come and go among a hundred entities
//!   - `chain`: each entity is a child of the one before it, and it is asked first whether this would close a cycle
#![tactic(auto)]

mod asking;
mod by_rows;
mod commands;
mod indexes;
mod iterating;
mod reading;
mod relations;
mod texts;
mod values;
mod words;
mod writing;

use std::{env, io};

/// Whether something is run: what a word names, or all where there is none.
fn is_asked(word: &Option<String>, name: &str) -> bool {
    match word {
        Some(word) => word.as_str() == name,
        None => true,
    }
}

/// The number that a word is, if it is one.
fn number(word: &Option<String>) -> Option<u32> {
    word.as_ref()?.parse().ok()
}

/// What the words after the program's name ask for.
#[derive(Drop)]
struct Order {
    part: Option<String>,
    chosen: Option<String>,
    size: Option<String>,
    phase: Option<String>,
}

fn read_order(rt: &HostRuntime) -> io::Result<Order> {
    let mut words = env::args(rt)?.skip(1);
    let order = Order {
        part: words.next(),
        chosen: words.next(),
        size: words.next(),
        phase: words.next(),
    };
    drop(words);
    Ok(order)
}

/// Runs the part that is asked for, or all.
fn run(rt: &HostRuntime, order: &Order) -> io::Result<()> {
    if is_asked(&order.part, "indexes") {
        indexes::tell(rt)?;
    }
    if is_asked(&order.part, "query") {
        let times = number(&order.size).unwrap_or(1);
        reading::tell(rt, &order.chosen, u64::from(times), &order.phase)?;
    }
    if is_asked(&order.part, "iterate") {
        iterating::tell(
            rt,
            &order.chosen,
            number(&order.size).unwrap_or(1),
            number(&order.phase),
        )?;
    }
    if is_asked(&order.part, "world") {
        commands::tell(rt, &order.chosen, number(&order.size))?;
    }
    Ok(())
}

fn main(rt: HostRuntime) -> io::Result<()> {
    let order = read_order(&rt)?;
    let done = run(&rt, &order);
    drop(order);
    done
}
