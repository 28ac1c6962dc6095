//! The program `flecsq`: runs a script from a file or from standard input.
#![tactic(auto)]

use clap::error::ErrorKind;
use clap::{Arg, ArgAction, Command, Error};
use script_explain::{Explaining, Script, Watched};
use std::alloc::{AllocError, Global};
use std::cell::{Cell, RefCell};
use std::env;
use std::fs::File;
use std::hash::RandomState;
use std::io::{self, Read, Stderr};
use std::process::ExitCode;
use world_script::{FromRead, RunError, Summary, ToWrite, run_without_cleanup};

/// A build without proofs says `(not proved)`: `tools/unproved.py` changes this line in its copy.
const VERSION: &str = "0.1.0 (proved)";

const ABOUT: &str = "Runs a script of commands and queries, and prints rows, events and refusals.";

const SCRIPTS: &str = "A script is lines of these forms:
  entity NAME                   Makes an entity
  new                           Makes an entity without a name, and prints it
  component NAME FIELD:KIND ..  Makes a component with one to eight fields
  add ENTITY ID                 Adds an id to an entity, its values zeros
  set ENTITY ID VALUE ..        Adds an id, and gives it these values
  remove ENTITY ID              Takes an id from an entity
  delete ENTITY                 Deletes an entity, and all facts that mention it
  show ENTITY                   Prints an entity with all that it holds
  query TERM, ..                Prints each way in which all of these hold
  keep NAME TERM, ..            Keeps a query
  rows NAME                     Prints the rows of a kept query
  monitor NAME TERM, ..         Reports who enters and leaves its rows
  on EVENT NAME TERM            Reports facts that match; EVENT is add, remove
                                or set
  drop NAME                     Ends a kept query, a monitor or an observer
  // ..                         Does nothing, as an empty line

ENTITY is a name or a handle, as `#64.0`, which `new` prints. ID is an ENTITY or
a pair `(RELATIONSHIP,TARGET)` of two. KIND is i8, u8, i16, u16, i32, u32, i64
or u64. A refused line prints `error LINE KIND`, and changes nothing; with
--explain, standard error gets the line and what is wrong with it. A TERM asks
entities for an id, as `Planet`, `(ChildOf,$parent)`, `Position(up)`,
`Position(cascade)`, `?(Likes,*)` or `!Planet`; a query has at most 64 terms and
32 variables. An event stands after the output of its line, as
`enter NAME ENTITY` or `set NAME ENTITY ID=VALUE,..`.

This script makes a component and an entity, and asks for its value:
  component Position x:i32 y:i32
  entity Sun
  set Sun Position 10 -3
  query Position
It prints `row $this=Sun [Position@Sun=10,-3]` and `rows 1`.

From a terminal or a pipe each line is answered before the next one is read:
`rlwrap flecsq` is a prompt with a history. FILE may be /dev/stdin.

Exit status:
  0  Every line was accepted
  1  A line was refused
  2  The arguments are wrong
  3  A read or a write failed, memory was refused, or the script has more than
     16777216 bytes

The reference of all this is docs/LANGUAGE.md in flecsq's repository.";

/// Why a script gave no summary. The texts are those on standard error.
#[derive(Clone, Copy)]
enum Fault {
    Read,
    /// The system gave no random keys.
    Keys,
    Write,
    Memory,
    TooLong,
}

impl Fault {
    fn text(&self) -> &'static str {
        match *self {
            Fault::Read | Fault::Keys => "flecsq: read fault",
            Fault::Write => "flecsq: write fault",
            Fault::Memory => "flecsq: out of memory",
            Fault::TooLong => "flecsq: script too long",
        }
    }
}

impl From<RunError> for Fault {
    fn from(error: RunError) -> Fault {
        match error {
            RunError::Read => Fault::Read,
            RunError::Write => Fault::Write,
            RunError::Memory => Fault::Memory,
            RunError::TooLong => Fault::TooLong,
        }
    }
}

const USAGE: &str = "flecsq [FILE]
       flecsq --explain [FILE]";

/// What the arguments may be.
fn command<'a>(alloc: Global) -> Result<Command<'a>, AllocError> {
    let file = Arg::new(alloc, "FILE").help("The script; without it, standard input is read");
    let explain = Arg::new(alloc, "explain")
        .long("explain")
        .action(ArgAction::SetTrue)
        .help("Also explains refused lines and read faults on standard error");
    Command::new(alloc, "flecsq")
        .version(VERSION)
        .about(ABOUT)
        .override_usage(USAGE)
        .after_help(SCRIPTS)
        .arg(file)?
        .arg(explain)
}

/// A reader that remembers why its last read that failed did so.
#[derive(Drop)]
struct Remembering<'a, R> {
    reader: R,
    reason: &'a Cell<Option<io::Error>>,
}

impl<R: Read> Read for Remembering<'_, R> {
    ghost remaining = { λ r. R.remaining r.reader };

    fn read(&mut self, buffer: &mut [u8]) -> io::Result<usize> {
        let answer = self.reader.read(buffer);
        if let Err(error) = answer {
            self.reason.set(Some(error));
        }
        answer
    }
}

/// Runs what the reader gives. `run_without_cleanup` reads and writes in pieces, so nothing else is buffered.
fn run_reader<R: Read + Drop>(rt: &HostRuntime, reader: R) -> Result<Summary, Fault> {
    let random = RandomState::new(rt).map_err(|_| Fault::Read)?;
    let mut reader = FromRead::new(reader);
    let output = ToWrite::new(io::writer(rt));
    // The same type of writer as where refusals are explained: what is generic over it stands once in the program.
    let mut writer: Explaining<_, ToWrite<Stderr>> = Explaining::nothing(output);
    let summary = run_without_cleanup(rt.alloc(), random, &mut reader, &mut writer)?;
    Ok(summary)
}

/// Runs what the reader gives in the same way, and explains the refused lines of this file on standard error.
fn run_explained<R: Read + Drop>(
    rt: &HostRuntime,
    reader: R,
    file: &str,
    reason: &Cell<Option<io::Error>>,
) -> Result<Summary, Fault> {
    let random = RandomState::new(rt).map_err(|_| Fault::Keys)?;
    let script = RefCell::new(Script::new(rt.alloc()));
    let reader = Remembering { reader, reason };
    let mut reader = Watched::new(FromRead::new(reader), &script);
    let output = ToWrite::new(io::writer(rt));
    let errors = ToWrite::new(rt.stderr());
    let mut writer = Explaining::new(rt.alloc(), output, errors, &script, file);
    let summary = run_without_cleanup(rt.alloc(), random, &mut reader, &mut writer)?;
    Ok(summary)
}

/// Opens the script and runs it. A file that can't be opened is a read fault.
fn run_script(rt: &HostRuntime, file: Option<&str>) -> Result<Summary, Fault> {
    match file {
        Some(path) => run_reader(rt, File::open(rt, path).map_err(|_| Fault::Read)?),
        None => run_reader(rt, rt.stdin()),
    }
}

/// The same, and explains the refused lines, and a fault of reading.
fn explain_script(rt: &HostRuntime, file: Option<&str>) -> Result<Summary, ExitCode> {
    let reason = Cell::new(None);
    let name = file.unwrap_or("(standard input)");
    let ended = match file {
        Some(path) => open_explained(rt, path, &reason),
        None => run_explained(rt, rt.stdin(), name, &reason),
    };
    ended.map_err(|fault| {
        let status = print_fault(rt, &fault);
        print_reason(rt, fault, name, reason.get());
        status
    })
}

fn open_explained(
    rt: &HostRuntime,
    path: &str,
    reason: &Cell<Option<io::Error>>,
) -> Result<Summary, Fault> {
    match File::open(rt, path) {
        Ok(file) => run_explained(rt, file, path, reason),
        Err(error) => {
            reason.set(Some(error));
            Err(Fault::Read)
        }
    }
}

/// Says after a fault of reading what could not be read, and why, where that is known.
fn print_reason(rt: &HostRuntime, fault: Fault, file: &str, reason: Option<io::Error>) {
    let _ = match (fault, reason) {
        (Fault::Read, Some(error)) => print_error(rt, file, &error),
        (Fault::Read, None) => eprintln!(rt; "flecsq: {file}: reading failed"),
        (Fault::Keys, _) => eprintln!(rt; "flecsq: the system gives no random keys"),
        _ => Ok(()),
    };
}

/// Prints the system's words for an error, without its number.
fn print_error(rt: &HostRuntime, file: &str, error: &io::Error) -> io::Result<()> {
    let words = format!(in rt.alloc(); "{error}")?;
    let words = words.as_str();
    let reason = words
        .split_once(" (os error")
        .map_or(words, |(reason, _)| reason);
    eprintln!(rt; "flecsq: {file}: {reason}")
}

/// Prints help, the version, or what is wrong with the arguments.
fn print_usage(rt: &HostRuntime, error: &Error) -> ExitCode {
    if error.kind() == ErrorKind::OutOfMemory {
        return print_fault(rt, &Fault::Memory);
    }
    match error.print(rt) {
        Ok(()) => ExitCode::from(if error.use_stderr() { 2 } else { 0 }),
        Err(_) => print_fault(rt, &Fault::Write),
    }
}

fn print_fault(rt: &HostRuntime, fault: &Fault) -> ExitCode {
    let _ = rt.eprintln(fault.text());
    ExitCode::from(3)
}

/// The words of the command line, or the status with which the program ends without them.
fn words_of(rt: &HostRuntime) -> Result<Vec<String>, ExitCode> {
    let words = env::args(rt).map_err(|error| print_argument_fault(rt, &error))?;
    words
        .collect(rt.alloc())
        .map_err(|_| print_fault(rt, &Fault::Memory))
}

fn print_argument_fault(rt: &HostRuntime, error: &io::Error) -> ExitCode {
    if error.kind() == io::ErrorKind::OutOfMemory {
        return print_fault(rt, &Fault::Memory);
    }
    let _ = rt.eprintln("error: an argument is not UTF-8");
    ExitCode::from(2)
}

fn run_words(rt: &HostRuntime, words: &[String]) -> Result<ExitCode, ExitCode> {
    let matches = command(rt.alloc())
        .map_err(|_| print_fault(rt, &Fault::Memory))?
        .try_get_matches_from(words)
        .map_err(|error| print_usage(rt, &error))?;
    let file = matches.get_str("FILE");
    let summary = if matches.get_flag("explain") {
        explain_script(rt, file)?
    } else {
        run_script(rt, file).map_err(|fault| print_fault(rt, &fault))?
    };
    Ok(ExitCode::from(if summary.refused == 0 { 0 } else { 1 }))
}

fn main(rt: HostRuntime) -> ExitCode {
    let ended = words_of(&rt).and_then(|words| run_words(&rt, words.as_slice()));
    match ended {
        Ok(status) => status,
        Err(status) => status,
    }
}
