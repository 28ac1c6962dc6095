//! The engine for C: a session behind a handle, line by line, and whole scripts over memory.
//!
//! `flecsq.h` has the same calls as C sees them.
#![tactic(auto)]

ghost use Rattle.std.specs.Prelude.{◌≡◌, None, codes, length};
ghost use Rattle.flecsq_c.specs.Calls.{ByStepper, CopiesOutput, Forgets, LendsOutput, Opens, RunsLine, held_by};
ghost use Rattle.flecsq_c.specs.Runs.{RunsScript};

mod asking;
mod commands;
mod engine;
mod handle;
mod holding;
mod lent;
mod memory;
mod numbered;
mod seed;
mod status;
mod tables;

use engine::made;
use handle::{Flecsq, Span};
use holding::{put, taken};
use memory::{Reading, Writing, copy_front, copy_whole};
use seed::random;
use status::{CLOSED, MEMORY, OK, ROOM, line_status, run_status, status_text};
use std::alloc::Global;
use std::hash::RandomState;
use world_script::run;

/// The version of the library.
const VERSION: &str = "0.1.0 (proved)";

/// Opens an engine, in which no line was run. An engine that the handle holds is closed first.
///
/// Names are hashed with these sixteen random bytes, so that no script can choose names that make it slow.
#[unsafe(no_mangle)]
pub extern "C" fn flecsq_open(alloc: Global, low: u64, high: u64, handle: &mut Flecsq) -> i32
    ensures { Opens (held_by handle.new) result }
{
    drop(taken(alloc, handle));
    match made(alloc, low, high) {
        Ok(engine) => {
            put(handle, engine);
            OK
        }
        Err(_) => MEMORY,
    }
}

/// Closes the engine, if the handle holds one.
#[unsafe(no_mangle)]
pub extern "C" fn flecsq_close(alloc: Global, handle: &mut Flecsq)
    ensures { held_by handle.new ≡ None }
{
    drop(taken(alloc, handle));
}

/// Runs a line of a script, which has no line feed. What it prints comes after the output.
#[unsafe(no_mangle)]
pub extern "C" fn flecsq_line(alloc: Global, handle: &mut Flecsq, line: &[u8]) -> i32
    ensures { ByStepper (RunsLine line.now) (held_by handle.old) (held_by handle.new) result }
{
    let Some(mut engine) = taken(alloc, handle) else {
        return CLOSED;
    };
    let status = line_status(engine.stepper.line(line));
    put(handle, engine);
    status
}

/// Where the output is. It is lent until the next call with this handle.
#[unsafe(no_mangle)]
pub extern "C" fn flecsq_output(alloc: Global, handle: &mut Flecsq, out: &mut Span) -> i32
    ensures lent { LendsOutput (held_by handle.old) out.new.len result }
    ensures kept { held_by handle.new ≡ held_by handle.old }
{
    let Some(engine) = taken(alloc, handle) else {
        return CLOSED;
    };
    *out = Span::of(engine.stepper.output());
    put(handle, engine);
    OK
}

/// Copies as many bytes of the output as fit, and answers how many.
#[unsafe(no_mangle)]
pub extern "C" fn flecsq_copy(alloc: Global, handle: &mut Flecsq, to: &mut [u8]) -> usize
    ensures copied { CopiesOutput (held_by handle.old) to.old to.new result }
    ensures kept { held_by handle.new ≡ held_by handle.old }
{
    let Some(engine) = taken(alloc, handle) else {
        return 0;
    };
    let count = copy_front(engine.stepper.output(), to);
    put(handle, engine);
    count
}

/// Forgets the output.
#[unsafe(no_mangle)]
pub extern "C" fn flecsq_forget(alloc: Global, handle: &mut Flecsq) -> i32
    ensures { Forgets (held_by handle.old) (held_by handle.new) result }
{
    let Some(mut engine) = taken(alloc, handle) else {
        return CLOSED;
    };
    engine.stepper.forget();
    put(handle, engine);
    OK
}

/// What was run of a script: the bytes of its output, its lines, and those of them that were refused.
#[repr(C)]
#[derive(Clone, Copy, Drop)]
pub struct Ran {
    pub written: usize,
    pub lines: usize,
    pub refused: usize,
}

/// Runs a whole script in a session of its own, and copies its output to the buffer's beginning.
///
/// Where the script is not run to its end, a prefix of the output of its beginning is copied, and no lines are counted.
#[unsafe(no_mangle)]
pub extern "C" fn flecsq_run(
    alloc: Global,
    low: u64,
    high: u64,
    script: &[u8],
    output: &mut [u8],
    ran: &mut Ran,
) -> i32
    ensures { RunsScript script.now output.old output.new ran.new result }
{
    *ran = Ran {
        written: 0,
        lines: 0,
        refused: 0,
    };
    match random(low, high) {
        Ok(random) => run_in_memory(alloc, random, script, output, ran),
        Err(_) => MEMORY,
    }
}

/// Runs a script with these random keys.
fn run_in_memory(
    alloc: Global,
    random: RandomState,
    script: &[u8],
    output: &mut [u8],
    ran: &mut Ran,
) -> i32
    requires { ran.old ≡ record { written = 0; lines = 0; refused = 0 } }
    ensures { RunsScript script.now output.old output.new ran.new result }
{
    let mut reader = Reading::new(script);
    let mut writer = Writing::new(alloc, output.len());
    let done = run(alloc, random, &mut reader, &mut writer);
    let Some(written) = copy_whole(writer.bytes(), output) else {
        return ROOM;
    };
    ran.written = written;
    match done {
        Ok(summary) => {
            ran.lines = summary.lines;
            ran.refused = summary.refused;
            OK
        }
        // A write that is refused memory fails.
        Err(error) => {
            if writer.is_out() {
                MEMORY
            } else {
                run_status(error)
            }
        }
    }
}

/// The version of the library. Its bytes stay.
#[unsafe(no_mangle)]
pub extern "C" fn flecsq_version(out: &mut Span)
    ensures { out.new.len ≡ length (codes "0.1.0 (proved)") }
{
    *out = Span::of(VERSION.as_bytes());
}

/// A text for what a call answered. Its bytes stay.
#[unsafe(no_mangle)]
pub extern "C" fn flecsq_explain(status: i32, out: &mut Span) {
    *out = Span::of(status_text(status).as_bytes());
}
