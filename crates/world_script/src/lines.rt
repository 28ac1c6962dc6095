//! Running one line, and counting it.
ghost use Rattle.std.specs.Prelude.{◌≡◌, ◌<◌, ◌≤◌, ◌++◌, None, OnErr, OnOk};
ghost use Rattle.script_streams.specs.Streams.{TakesFront};
ghost use Rattle.world_query.specs.Sent.{FailsAtWrite, most_usize};
ghost use Rattle.world_script.specs.Running.{RunsNext, next_effect};

use crate::interpreters::Interpreter;
use script_streams::Sink;
use std::alloc::Allocator;
use world_query::SendError;

/// What was run.
#[derive(Clone, Copy, Debug, PartialEq, Eq)]
pub struct Summary {
    /// How many lines the script has.
    pub lines: usize,
    /// How many of them were refused.
    pub refused: usize,
}

impl<A: Allocator + Copy> Interpreter<A> {
    /// Runs a line under the next number, adds what it prints to the output, and counts it. Of the output the rows of a
    /// query may be sent before, where more than `most` bytes of it have come together.
    pub(crate) fn run_next<W: Sink>(
        &mut self,
        line: &[u8],
        most: usize,
        writer: &mut W,
    ) -> Result<(), SendError>
        requires none_wait { self.old.session.waiting ≡ None }
        requires room { self.old.summary.lines < most_usize }
        requires few { self.old.summary.refused ≤ self.old.summary.lines }
        ensures ran { OnOk result (RunsNext line.now self.old self.new (W.contents writer.old)
            (W.contents writer.new)) }
        ensures none_wait { OnOk result (self.new.session.waiting ≡ None) }
        ensures stops { OnErr result (TakesFront (W.contents writer.old) (W.contents writer.new)
            (self.old.output.items ++ (next_effect self.old line.now).printed)) }
        ensures writes { FailsAtWrite (W.calls writer.old) result (W.calls writer.new) }
        ensures kept { most ≡ most_usize → writer.new ≡ writer.old }
    {
        let before = self.summary;
        let number = before.lines + 1;
        self.number = number;
        let is_refused = self.run_line(line, most, writer)?;
        self.summary = Summary {
            lines: number,
            refused: before.refused,
        };
        if is_refused {
            self.summary.refused += 1;
        }
        Ok(())
    }
}
