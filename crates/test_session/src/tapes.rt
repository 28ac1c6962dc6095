//! Scripts run over tapes.

use refusing_alloc::Refusing;
use std::alloc::AllocError;
use std::hash::RandomState;
use std::process::Abort;
use std::test::Fail;
use world_script::{RunError, Stop, Summary, Tape, Turn, run};

/// The sun with a position, the earth, a planet with one, around it, and the moon around the earth; and a query.
const SCRIPT: &[u8] = b"component Position x:i32 y:i32
entity Planet
entity Likes
entity Sun
entity Earth
entity Moon
add Earth (ChildOf,Sun)
add Moon (ChildOf,Earth)
set Sun Position 0 0
set Earth Position 10 -3
add Earth Planet
query Position
";

const OUTPUT: &[u8] =
    b"row $this=Sun [Position@Sun=0,0]\nrow $this=Earth [Position@Earth=10,-3]\nrows 2\n";

const SUMMARY: Summary = Summary {
    lines: 12,
    refused: 0,
};

/// The same without the query, a deletion, and what comes after it.
const DELETIONS: &[u8] = b"component Position x:i32 y:i32
entity Planet
entity Likes
entity Sun
entity Earth
entity Moon
add Earth (ChildOf,Sun)
add Moon (ChildOf,Earth)
set Sun Position 0 0
set Earth Position 10 -3
add Earth Planet
delete Sun
new
new
show Moon
add #67.0 Planet
query Position
";

const TOLD: &[u8] = b"#67.1\n#68.1\nerror 15 UnknownName\nerror 16 Dead\nrows 0\n";

/// How many bytes of that are written after so many lines.
const TOLD_AFTER: [usize; 18] = [0, 0, 0, 0, 0, 0, 0, 0, 0, 0, 0, 0, 0, 6, 12, 33, 47, 54];

/// The same, and a kept query through changes.
const KEPT: &[u8] = b"component Position x:i32 y:i32
entity Planet
entity Likes
entity Sun
entity Earth
entity Moon
add Earth (ChildOf,Sun)
add Moon (ChildOf,Earth)
set Sun Position 0 0
set Earth Position 10 -3
add Earth Planet
keep k Position, Planet
rows k
entity Hot
add Earth Hot
rows k
delete Hot
set Moon Position 4 4
rows k
add Moon Planet
rows k
remove Earth Planet
rows k
delete Planet
";

const KEPT_OUTPUT: &[u8] = b"row $this=Earth [Position@Earth=10,-3] [Planet@Earth]
rows 1
row $this=Earth [Position@Earth=10,-3] [Planet@Earth]
rows 1
row $this=Earth [Position@Earth=10,-3] [Planet@Earth]
rows 1
row $this=Earth [Position@Earth=10,-3] [Planet@Earth]
row $this=Moon [Position@Moon=4,4] [Planet@Moon]
rows 2
row $this=Moon [Position@Moon=4,4] [Planet@Moon]
rows 1
error 24 InUse
";

const FAILED: Turn = Turn::Stop(Stop::Failed);

const INTERRUPTED: Turn = Turn::Stop(Stop::Interrupted);

/// Runs a script from a tape onto a tape, and compares what was answered and what was written.
fn expect(
    rt: &(impl Abort + AllocGlobal),
    random: RandomState,
    script: &[u8],
    reads: &[Turn],
    writes: &[Turn],
    answer: Result<Summary, RunError>,
    written: &[u8],
) {
    let mut reader = Tape::new(rt.alloc(), script, reads).expect(rt, "out of memory");
    let mut writer = Tape::new(rt.alloc(), b"", writes).expect(rt, "out of memory");
    let answered = run(rt.alloc(), random, &mut reader, &mut writer);
    assert!(rt; answered == answer);
    assert!(rt; writer.bytes() == written);
    drop(writer);
    drop(reader);
}

#[test]
fn a_script_is_read_and_its_output_written_in_any_pieces(rt: HostRuntime) -> Result<(), Fail> {
    let random = RandomState::new(&rt)?;
    let bytes = Vec::from_elem(rt.alloc(), Turn::Pass(1), SCRIPT.len())?;
    let pieces = bytes.as_slice();
    expect(&rt, random, SCRIPT, &[], &[], Ok(SUMMARY), OUTPUT);
    expect(&rt, random, SCRIPT, pieces, pieces, Ok(SUMMARY), OUTPUT);
    drop(bytes);
    let unended = &SCRIPT[..SCRIPT.len() - 1];
    expect(&rt, random, unended, &[], &[], Ok(SUMMARY), OUTPUT);
    Ok(())
}

#[test]
fn a_read_that_fails_is_told_after_the_output_of_whole_lines(rt: HostRuntime) -> Result<(), Fail> {
    let random = RandomState::new(&rt)?;
    let fault = Err(RunError::Read);
    let whole = [Turn::Pass(SCRIPT.len()), FAILED];
    expect(&rt, random, SCRIPT, &whole, &[], fault, OUTPUT);
    let part = [Turn::Pass(SCRIPT.len() - 5), FAILED];
    expect(&rt, random, SCRIPT, &part, &[], fault, b"");
    Ok(())
}

/// Runs a script with a writer that fails, or takes nothing, after each number of bytes of its output.
fn fail_each_write(
    rt: &(impl Abort + AllocGlobal),
    random: RandomState,
    script: &[u8],
    output: &[u8],
) {
    let fault = Err(RunError::Write);
    for count in 0..output.len() {
        let written = &output[..count];
        let stalls = [Turn::Pass(count), Turn::Pass(0)];
        expect(rt, random, script, &[], &stalls, fault, written);
        if count > 0 {
            let fails = [Turn::Pass(count), FAILED];
            expect(rt, random, script, &[], &fails, fault, written);
        }
    }
}

#[test]
fn a_write_fails_at_any_byte(rt: HostRuntime) -> Result<(), Fail> {
    let random = RandomState::new(&rt)?;
    fail_each_write(&rt, random, SCRIPT, OUTPUT);
    fail_each_write(&rt, random, KEPT, KEPT_OUTPUT);
    Ok(())
}

#[test]
fn the_sixty_fifth_interruption_in_a_row_is_a_fault(rt: HostRuntime) -> Result<(), Fail> {
    let random = RandomState::new(&rt)?;
    let turns = Vec::from_elem(rt.alloc(), INTERRUPTED, 65)?;
    let many = turns.as_slice();
    let few = &turns[..64];
    expect(&rt, random, SCRIPT, few, few, Ok(SUMMARY), OUTPUT);
    expect(&rt, random, SCRIPT, many, &[], Err(RunError::Read), b"");
    expect(&rt, random, SCRIPT, &[], many, Err(RunError::Write), b"");
    drop(turns);
    Ok(())
}

/// Adds a line to a script that is longer than any script may be.
fn add_slashes(script: &mut Vec<u8>) -> Result<(), AllocError> {
    for _ in 0..0x10_0000 {
        script.extend_from_slice(b"////////////////")?;
    }
    Ok(())
}

#[test]
fn a_script_without_end_is_too_long_after_its_output(rt: HostRuntime) -> Result<(), Fail> {
    let random = RandomState::new(&rt)?;
    let mut script = Vec::from_slice(rt.alloc(), SCRIPT)?;
    let added = add_slashes(&mut script);
    let fault = Err(RunError::TooLong);
    expect(&rt, random, script.as_slice(), &[], &[], fault, OUTPUT);
    drop(script);
    Ok(added?)
}

/// What is written where so many bytes of the script with deletions were read.
fn told_after(count: usize) -> &'static [u8] {
    let read = DELETIONS.get(..count).unwrap_or(DELETIONS);
    let mut lines = 0usize;
    for byte in read {
        if *byte == b'\n' {
            lines = lines.saturating_add(1);
        }
    }
    let written = TOLD_AFTER.get(lines).copied().unwrap_or(0);
    TOLD.get(..written).unwrap_or(TOLD)
}

#[test]
fn a_read_fails_at_any_byte(rt: HostRuntime) -> Result<(), Fail> {
    let random = RandomState::new(&rt)?;
    let fault = Err(RunError::Read);
    expect(&rt, random, DELETIONS, &[FAILED], &[], fault, b"");
    for count in 1..=DELETIONS.len() {
        let turns = [Turn::Pass(count), FAILED];
        let written = told_after(count);
        expect(&rt, random, DELETIONS, &turns, &[], fault, written);
    }
    Ok(())
}

/// Whether a run is refused with so few blocks. What was written begins its output.
fn is_refused(
    rt: &(impl Abort + AllocGlobal),
    random: RandomState,
    script: &[u8],
    output: &[u8],
    allowed: u64,
) -> bool {
    let heap = Refusing::new(rt.alloc());
    let mut reader = Tape::new(rt.alloc(), script, &[]).expect(rt, "out of memory");
    let mut writer = Tape::new(rt.alloc(), b"", &[]).expect(rt, "out of memory");
    heap.refuse_after(allowed);
    let answered = run(&heap, random, &mut reader, &mut writer);
    let begins = output.starts_with(writer.bytes());
    drop(writer);
    drop(reader);
    drop(heap);
    assert!(rt; begins);
    assert!(rt; answered.is_ok() || answered == Err(RunError::Memory));
    answered.is_err()
}

/// Runs a script with each growth refused in turn, and compares what was written with its output.
fn refuse_each_growth(
    rt: &(impl Abort + AllocGlobal),
    random: RandomState,
    script: &[u8],
    output: &[u8],
) {
    let mut refusals = 0;
    for allowed in 0..4000u64 {
        if !is_refused(rt, random, script, output, allowed) {
            break;
        }
        refusals = allowed + 1;
    }
    assert!(rt; 0 < refusals && refusals < 4000);
}

#[test]
fn each_growth_may_be_refused(rt: HostRuntime) -> Result<(), Fail> {
    let random = RandomState::new(&rt)?;
    refuse_each_growth(&rt, random, SCRIPT, OUTPUT);
    refuse_each_growth(&rt, random, KEPT, KEPT_OUTPUT);
    Ok(())
}
