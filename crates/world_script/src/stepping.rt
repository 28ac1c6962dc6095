//! Lines that a program gives one at a time.
ghost use Rattle.std.specs.Prelude.{◌≡◌, ◌++◌, ◌<◌, ◌≤◌, [], IfErr, IfOk, None, OnErr, OnOk, false, true};
ghost use Rattle.ecs_observe.specs.Standing.{session_of};
ghost use Rattle.script_streams.specs.Lines.{HasNoEnd};
ghost use Rattle.world_query.specs.Sent.{most_usize};
ghost use Rattle.world_script.specs.Running.{RunsLine, next_effect};
ghost use Rattle.world_script.specs.Stepping.{LinesStepAsScript, Steps, StopsStepping, first_stepping, forgotten};

use crate::errors::StepError;
use crate::interpreters::Interpreter;
use crate::lines::Summary;
use memchr::memchr;
use script_streams::{Calls, Sink, Stop};
use std::alloc::{AllocError, Allocator, Global};
use std::hash::RandomState;
use std::marker::Model;
use std::mem::swap;

/// Runs the lines that it is given one at a time in a session of its own, and keeps what they print.
///
/// Where memory is refused in a line, it is broken and runs no more: the session may have done what the line says, and
/// what it prints is lost. What was printed before stays.
#[derive(Drop)]
pub struct Stepper<A: Allocator = Global> {
    /// Between lines it has no output.
    pub(crate) interpreter: Interpreter<A>,
    /// What was printed since it was last forgotten.
    pub(crate) printed: Vec<u8, A>,
    pub(crate) is_broken: bool,
}

impl<A: Allocator> Model for Stepper<A> {
    ghost use Rattle.std.specs.Prelude.{◌≡◌, false};
    ghost use Rattle.ecs_observe.specs.Standing.{session_of};
    ghost use Rattle.world_script.specs.Stepping.{IsStepping, StepperState};

    ghost Value = { StepperState };

    ghost view = { λ s. record {
      stepping = record {
        session = session_of s.interpreter.session;
        lines = s.interpreter.summary.lines;
        refused = s.interpreter.summary.refused;
        printed = s.printed.items;
        broken = s.is_broken;
      };
      tables = s.interpreter.session.world.tables;
    } };

    ghost invariant = { λ s. s.is_broken ≡ false → IsStepping s.interpreter };
}

impl<A: Allocator + Copy> Stepper<A> {
    /// A new session, in which no line was run.
    pub fn new(alloc: A, random: RandomState) -> Result<Self, AllocError>
        ensures { IfOk result (λ stepper. stepper.stepping ≡ first_stepping) }
    {
        let interpreter = Interpreter::new(alloc, random)?;
        Ok(Stepper {
            interpreter,
            printed: Vec::new(alloc),
            is_broken: false,
        })
    }

    /// Runs a line, which has no line feed, adds what it prints to the output, and answers whether it was refused.
    pub fn line(&mut self, line: &[u8]) -> Result<bool, StepError>
        ensures ran { IfOk result (Steps line.now self.old.stepping self.new.stepping) }
        ensures stops { IfErr result (StopsStepping line.now self.old.stepping self.new.stepping) }
    {
        if has_end(line) {
            return Err(StepError::LineFeed);
        }
        if self.is_broken {
            return Err(StepError::Memory);
        }
        if self.interpreter.summary.lines == usize::MAX {
            return Err(StepError::TooManyLines);
        }
        match self.interpreter.print_next(line, &mut self.printed) {
            Ok(is_refused) => Ok(is_refused),
            Err(_) => {
                self.is_broken = true;
                Err(StepError::Memory)
            }
        }
    }
}

impl<A: Allocator> Stepper<A> {
    /// What was printed since it was last forgotten.
    pub fn output(&self) -> &[u8]
        ensures { result.now ≡ self.now.stepping.printed }
    {
        self.printed.as_slice()
    }

    /// Forgets what was printed.
    pub fn forget(&mut self)
        ensures { self.new ≡ record self.old { stepping = forgotten self.old.stepping } }
    {
        self.printed.clear();
    }

    /// How many lines were run, and how many of them were refused.
    pub fn summary(&self) -> Summary
        ensures { result ≡ record { lines = self.now.stepping.lines; refused = self.now.stepping.refused } }
    {
        self.interpreter.summary
    }

    /// Whether memory was refused in a line, so that no more are run.
    pub fn is_broken(&self) -> bool
        ensures { result ≡ self.now.stepping.broken }
    {
        self.is_broken
    }
}

impl<A: Allocator + Copy> Interpreter<A> {
    /// Runs a line under the next number, moves what it prints behind what was printed, and answers whether it was
    /// refused.
    fn print_next(&mut self, line: &[u8], printed: &mut Vec<u8, A>) -> Result<bool, AllocError>
        requires none_wait { self.old.session.waiting ≡ None }
        requires room { self.old.summary.lines < most_usize }
        requires few { self.old.summary.refused ≤ self.old.summary.lines }
        requires unprinted { self.old.output.items ≡ [] }
        ensures ran { OnOk result (RunsLine (next_effect self.old line.now) (session_of self.new.session)
            printed.old.items printed.new.items self.old.summary self.new.summary) }
        ensures answered { IfOk result (λ refused. refused ≡ (next_effect self.old line.now).refused) }
        ensures none_wait { OnOk result (self.new.session.waiting ≡ None) }
        ensures unprinted { OnOk result (self.new.output.items ≡ []) }
        ensures kept { OnErr result (printed.new.items ≡ printed.old.items) }
    {
        let before = self.summary.refused;
        let mut nowhere = Nowhere { calls: Calls::NONE };
        match self.run_next(line, usize::MAX, &mut nowhere) {
            Ok(()) => {
                move_behind(&mut self.output, printed)?;
                Ok(self.summary.refused != before)
            }
            Err(_) => Err(AllocError),
        }
    }
}

/// Whether a line feed stands among these bytes.
fn has_end(bytes: &[u8]) -> bool
    ensures none { result ≡ false → HasNoEnd bytes.now }
    ensures some { result ≡ true → ¬ HasNoEnd bytes.now }
{
    memchr(b'\n', bytes).is_some()
}

/// Moves bytes behind others. Where memory is refused, both are as they were.
pub(crate) fn move_behind<A: Allocator>(
    from: &mut Vec<u8, A>,
    to: &mut Vec<u8, A>,
) -> Result<(), AllocError>
    ensures moved { OnOk result (to.new.items ≡ to.old.items ++ from.old.items) }
    ensures empty { OnOk result (from.new.items ≡ []) }
    ensures kept { OnErr result (to.new.items ≡ to.old.items) }
{
    if to.is_empty() {
        swap(from, to);
        return Ok(());
    }
    to.extend_from_slice(from.as_slice())?;
    from.clear();
    Ok(())
}

/// A writer that takes nothing. None of a line's output goes to it.
#[derive(Drop)]
struct Nowhere {
    calls: Calls,
}

impl Sink for Nowhere {
    ghost use Rattle.std.specs.Prelude.{[], Some};

    ghost contents = { λ _. Some [] };

    ghost calls = { λ n. n.calls };

    fn write(&mut self, bytes: &[u8]) -> Result<usize, Stop> {
        let answer = Err(Stop::Failed);
        self.calls.count_write(answer, bytes);
        answer
    }
}

/// Law: the lines of a script have no line feed, and run one at a time they print and count as the script does.
pub fn lines_step_as_script()
    ensures { LinesStepAsScript }
{}
