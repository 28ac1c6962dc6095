//! Reads query texts, a line each, and prints for each the fault that it has in a small world, or `ok`.
//!
//! A number as argument says how often each text is read and checked, for whoever times it.
#![tactic(auto)]

#[cfg(test)]
mod bound;
#[cfg(test)]
mod chunks;
#[cfg(test)]
mod judging;
#[cfg(test)]
mod kept;
#[cfg(test)]
mod lists;
#[cfg(test)]
mod matches;
#[cfg(test)]
mod numbers;
#[cfg(test)]
mod orders;
#[cfg(test)]
mod plans;
#[cfg(test)]
mod probes;
#[cfg(test)]
mod rows;
#[cfg(test)]
mod runs;
#[cfg(test)]
mod searches;
mod sky;
#[cfg(test)]
mod travel;
#[cfg(test)]
mod worked;
#[cfg(test)]
mod worlds;

use query_check::{Query, check};
use query_model::faults::QueryFault;
use query_parser::{lex, parse};
use sky::Sky;
use std::alloc::Global;
use std::{env, io};

/// The checked query of a text.
fn ask(alloc: Global, text: &str) -> Result<Query, QueryFault> {
    let tokens = match lex(alloc, text) {
        Ok(tokens) => tokens,
        Err(fault) => return Err(fault),
    };
    let syntax = match parse(alloc, tokens.as_slice()) {
        Ok(syntax) => syntax,
        Err(fault) => return Err(fault),
    };
    check(alloc, &Sky, &syntax)
}

/// The fault of a text, if it has one, after as many readings as are asked for.
fn fault_of(alloc: Global, text: &str, times: usize) -> Option<QueryFault> {
    let mut fault = None;
    for _ in 0..times {
        fault = ask(alloc, text).err();
    }
    fault
}

fn main(rt: HostRuntime) -> io::Result<()> {
    let alloc = rt.alloc();
    let times = match env::args(&rt)?.nth(1) {
        Some(word) => word.parse().unwrap_or(1),
        None => 1,
    };
    let texts = io::read_to_string(alloc, rt.stdin())?;
    for text in texts.lines() {
        match fault_of(alloc, text, times) {
            None => println!(rt; "ok")?,
            Some(QueryFault::Memory) => println!(rt; "Memory")?,
            Some(QueryFault::Fault(fault)) => {
                println!(rt; "{:?} {}..{}", fault.kind, fault.span.start, fault.span.end)?;
            }
        }
    }
    Ok(())
}
