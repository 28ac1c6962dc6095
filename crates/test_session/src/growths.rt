//! Each growth of each line of scripts is refused in turn: the script prints the same.

ghost use Rattle.std.specs.Prelude.{◌<◌, length};

use crate::lines::{Line, carry_out, new_session_over, print_answer, print_lines, with_events};
use crate::scripts::{Output, SCRIPTS, Script, WAITING_EVENTS};
use ecs_observe::{Session, SessionError};
use ecs_world::World;
use refusing_alloc::Refusing;
use std::alloc::{AllocError, Allocator, Global};
use std::hash::RandomState;
use std::process::Abort;
use std::test::Fail;

/// More room than the events of a line take when they are written.
const ROOM: usize = 4096;

/// No line has as many growths.
const MOST_GROWTHS: u64 = 2000;

/// The lines of a script, what they print, and how often its monitors are evaluated.
#[derive(Clone, Copy)]
struct Lines<'a> {
    base: &'a [Line],
    lines: &'a [Line],
    printed: &'a [u8],
    compared: u64,
}

/// Where memory is refused in a script: at a line between others, which gets so many blocks and no more.
#[derive(Clone, Copy)]
struct Growth<'a> {
    base: &'a [Line],
    before: &'a [Line],
    line: Line,
    after: &'a [Line],
    blocks: u64,
}

/// Both are the same bytes. A failure prints both: to prove that takes longer than most tests, so it stands here alone.
fn expect_bytes(rt: &impl Abort, written: &[u8], expected: &[u8]) {
    assert_eq!(rt; written, expected);
}

/// A number that the live entities make, with the ids of each.
fn facts_number<A: Allocator>(world: &World<A>) -> u64 {
    let mut number = 1u64;
    for entity in world.live() {
        number = number.wrapping_mul(1_000_003).wrapping_add(entity.packed());
        for id in world.ids_of(entity).unwrap_or(&[]) {
            number = number.wrapping_mul(1_000_003).wrapping_add(id.packed());
        }
    }
    number
}

/// How much room there is beforehand for what a line writes. Where events have been delivered, no memory may be wanting
/// to write them.
fn room_for(line: Line) -> usize {
    match line {
        Line::Events => ROOM,
        _ => 0,
    }
}

/// Carries out a line with so many blocks and no more, writes what it prints, and answers whether it was refused for
/// that. Then the facts are as before, and it is carried out again.
fn is_line_refused<'a>(
    rt: &impl Abort,
    heap: &'a Refusing<Global>,
    growth: &Growth<'_>,
    session: &mut Session<&'a Refusing<Global>>,
    out: &mut Vec<u8, &'a Refusing<Global>>,
) -> Result<bool, AllocError> {
    let line = growth.line;
    let before = facts_number(session.world());
    let mut written = Vec::with_capacity(heap, room_for(line))?;
    heap.refuse_after(growth.blocks);
    let mut answer = carry_out(session, heap, line, &mut written);
    heap.refuse_none();
    let refused = matches!(answer, Err(SessionError::Memory));
    if refused {
        assert!(rt; facts_number(session.world()) == before);
        written.clear();
        answer = carry_out(session, heap, line, &mut written);
    }
    let moved = out.extend_from_slice(written.as_slice());
    drop(written);
    moved?;
    print_answer(heap, line, answer, out)?;
    Ok(refused)
}

/// Writes what a script prints in which memory is refused at a line, and answers whether the line was refused.
fn print_refusing<'a>(
    rt: &impl Abort,
    heap: &'a Refusing<Global>,
    growth: &Growth<'_>,
    session: &mut Session<&'a Refusing<Global>>,
    out: &mut Vec<u8, &'a Refusing<Global>>,
) -> Result<bool, AllocError> {
    print_lines(session, heap, growth.base, out)?;
    print_lines(session, heap, growth.before, out)?;
    let refused = is_line_refused(rt, heap, growth, session, out)?;
    print_lines(session, heap, growth.after, out)?;
    Ok(refused)
}

/// Whether a line is refused, in a new session. The script prints what it prints where nothing is refused, and monitors
/// are evaluated as often.
fn is_refused_in<'a>(
    rt: &impl Abort,
    heap: &'a Refusing<Global>,
    growth: &Growth<'_>,
    script: Lines<'_>,
    session: &mut Session<&'a Refusing<Global>>,
) -> Result<bool, AllocError> {
    let mut out = Vec::new(heap);
    let refused = print_refusing(rt, heap, growth, session, &mut out);
    assert!(rt; session.compared() == script.compared);
    expect_bytes(rt, out.as_slice(), script.printed);
    drop(out);
    refused
}

/// Whether a line is refused with so few blocks, in a new session. Where the line makes a session, the new one may be
/// refused.
fn is_refused(
    rt: &impl Abort,
    heap: &Refusing<Global>,
    random: RandomState,
    growth: &Growth<'_>,
    script: Lines<'_>,
) -> Result<bool, AllocError> {
    if matches!(growth.line, Line::New) {
        heap.refuse_after(growth.blocks);
    }
    let made = new_session_over(heap, random);
    heap.refuse_none();
    let Ok(mut session) = made else {
        return Ok(true);
    };
    let refused = is_refused_in(rt, heap, growth, script, &mut session);
    drop(session);
    refused
}

/// Refuses each growth of a line in turn, and counts them.
fn refuse_line(
    rt: &impl Abort,
    heap: &Refusing<Global>,
    random: RandomState,
    script: Lines<'_>,
    place: usize,
) -> Result<u64, AllocError>
    requires { place < length script.lines.now }
{
    let lines = script.lines;
    let mut refusals = 0;
    for blocks in 0..MOST_GROWTHS {
        let growth = Growth {
            base: script.base,
            before: &lines[..place],
            line: lines[place],
            after: &lines[place + 1..],
            blocks,
        };
        if !is_refused(rt, heap, random, &growth, script)? {
            break;
        }
        refusals = blocks + 1;
    }
    assert!(rt; refusals < MOST_GROWTHS);
    Ok(refusals)
}

/// Refuses each growth of each line in turn. There are more growths than lines.
fn refuse_lines(
    rt: &(impl Abort + AllocGlobal),
    random: RandomState,
    script: Lines<'_>,
) -> Result<(), AllocError> {
    let heap = Refusing::new(rt.alloc());
    let mut refusals = 0u64;
    for place in 0..script.lines.len() {
        let more = refuse_line(rt, &heap, random, script, place)?;
        refusals = refusals.saturating_add(more);
    }
    assert!(rt; refusals > script.lines.len() as u64);
    Ok(())
}

/// Writes what lines print in a new session, and answers how often monitors were evaluated.
fn print_script(
    alloc: Global,
    random: RandomState,
    base: &[Line],
    lines: &[Line],
    printed: &mut Vec<u8>,
) -> Result<u64, AllocError> {
    let mut session = new_session_over(alloc, random)?;
    let first = print_lines(&mut session, alloc, base, printed);
    let then = print_lines(&mut session, alloc, lines, printed);
    let compared = session.compared();
    drop(session);
    first?;
    then?;
    Ok(compared)
}

/// A script prints what is known of it.
fn expect_output(rt: &impl Abort, printed: &[u8], compared: u64, output: Option<Output>) {
    if let Some(output) = output {
        expect_bytes(rt, printed, output.text);
        assert!(rt; compared == output.compared);
    }
}

/// Prints what a script prints, with the events after each line, and then refuses each growth of its lines in turn.
fn try_lines(
    rt: &(impl Abort + AllocGlobal),
    random: RandomState,
    script: &Script,
    base: &[Line],
    lines: &[Line],
) -> Result<(), AllocError> {
    let mut printed = Vec::new(rt.alloc());
    let compared = print_script(rt.alloc(), random, base, lines, &mut printed)?;
    expect_output(rt, printed.as_slice(), compared, script.output);
    let printed = printed.as_slice();
    let lines = Lines {
        base,
        lines,
        printed,
        compared,
    };
    refuse_lines(rt, random, lines)
}

fn try_script(
    rt: &(impl Abort + AllocGlobal),
    random: RandomState,
    script: &Script,
) -> Result<(), AllocError> {
    let base = with_events(rt.alloc(), script.base)?;
    let lines = with_events(rt.alloc(), script.lines)?;
    try_lines(rt, random, script, base.as_slice(), lines.as_slice())
}

#[test]
fn scripts_outlast_refusals(rt: HostRuntime) -> Result<(), Fail> {
    let random = RandomState::new(&rt)?;
    for script in &SCRIPTS {
        try_script(&rt, random, script)?;
    }
    Ok(())
}

#[test]
fn no_command_is_carried_out_while_events_wait(rt: HostRuntime) -> Result<(), Fail> {
    let random = RandomState::new(&rt)?;
    let script = &WAITING_EVENTS;
    let mut printed = Vec::new(rt.alloc());
    let compared = print_script(rt.alloc(), random, script.base, script.lines, &mut printed)?;
    expect_output(&rt, printed.as_slice(), compared, script.output);
    Ok(())
}
