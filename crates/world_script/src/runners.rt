//! Running the lines of a script as they come.
ghost use Rattle.std.specs.Prelude.{◌≡◌, ◌+◌, ◌≤◌, ◌⊎◌, List, None, Option, ℕ, [], Err, IfErr, IfOk, OnErr, OnOk};
ghost use Rattle.std.specs.Prelude.{length};
ghost use Rattle.std.specs.Io.KnownBytes.{Appends, IsAtEnd};
ghost use Rattle.script_streams.specs.Lines.{most_bytes};
ghost use Rattle.script_streams.specs.Streams.{TakesFront};
ghost use Rattle.world_query.specs.Sent.{FailsAtWrite};
ghost use Rattle.world_script.specs.Running.{HasEnded, IsFirst, IsUnderWay};
ghost use Rattle.world_script.specs.Whole.{FaultyAt, FitsScript, IsCount, IsOutput, WroteFront, WroteFull, WroteToEnd};
ghost use Rattle.world_script.specs.Whole.{WroteWhole};

use crate::errors::RunError;
use crate::interpreters::Interpreter;
use crate::lines::Summary;
use script_streams::{Lines, Sink, Source, write_all};
use std::alloc::Allocator;
use std::hash::RandomState;
use world_query::SendError;

/// Output that is longer is written before the next line is run.
const MOST_OUTPUT: usize = 65_536;

/// A script as it runs: the lines that come, and what runs them.
#[derive(Drop)]
pub(crate) struct Runner<A: Allocator> {
    lines: Lines<A>,
    interpreter: Interpreter<A>,
}

impl<A: Allocator + Copy> Runner<A> {
    /// A new session, and no line yet.
    pub(crate) fn new(alloc: A, random: RandomState) -> Result<Self, RunError>
        ensures lines { IfOk result (λ r. r.lines ≡ record { line = []; front = []; unread = []; read = 0 }) }
        ensures first { IfOk result (λ r. IsFirst r.interpreter) }
        ensures memory { IfErr result (λ error. error ≡ RunError.Memory) }
    {
        let lines = Lines::new(alloc)?;
        let interpreter = Interpreter::new(alloc, random)?;
        Ok(Runner { lines, interpreter })
    }

    /// Runs a script to its end. Output is written before each read, and where much of it has come together.
    pub(crate) fn run_script<R: Source, W: Sink>(
        &mut self,
        reader: &mut R,
        writer: &mut W,
    ) -> Result<(), RunError>
        requires none_wait { self.old.interpreter.session.waiting ≡ None }
        requires running { IsUnderWay (R.remaining reader.old) (R.remaining reader.old) (W.contents writer.old)
            (W.contents writer.old) self.old }
        ensures output { OnOk result (IsOutput (R.remaining reader.old) (W.contents writer.old)
            (W.contents writer.new)) }
        ensures count { OnOk result (IsCount (R.remaining reader.old) self.new.interpreter.summary) }
        ensures fits { OnOk result (FitsScript (R.remaining reader.old)) }
        ensures read_whole { OnOk result (IsAtEnd (R.remaining reader.new)) }

        ensures read { result ≡ Err RunError.Read
            → WroteWhole (R.remaining reader.old) (R.remaining reader.new) (W.contents writer.old)
            (W.contents writer.new) }
        ensures too_long { result ≡ Err RunError.TooLong
            → WroteFull (R.remaining reader.old) (R.remaining reader.new) (W.contents writer.old)
            (W.contents writer.new) }
        ensures memory { result ≡ Err RunError.Memory
            → WroteFront (R.remaining reader.old) (R.remaining reader.new) (W.contents writer.old)
            (W.contents writer.new) }
        ensures write { result ≡ Err RunError.Write
            → WroteFront (R.remaining reader.old) (R.remaining reader.new) (W.contents writer.old)
            (W.contents writer.new)
            ⊎ WroteToEnd (R.remaining reader.old) (R.remaining reader.new) (W.contents writer.old)
            (W.contents writer.new) }

        ensures reads { FaultyAt RunError.Read (R.calls reader.old) result (R.calls reader.new) }
        ensures writes { FaultyAt RunError.Write (W.calls writer.old) result (W.calls writer.new) }
    {
        let mut has_more = true;
        while has_more {
            self.run_ended(writer)?;
            has_more = self.lines.fill(reader)?;
        }
        self.run_last(writer)?;
        write_out(&mut self.interpreter.output, writer)
    }

    /// Runs the lines whose ends have come, and writes what they print.
    fn run_ended<W: Sink>(&mut self, writer: &mut W) -> Result<(), RunError>
        requires none_wait { self.old.interpreter.session.waiting ≡ None }
        requires room { self.old.interpreter.summary.lines + length self.old.lines.unread ≤ most_bytes }
        requires few { self.old.interpreter.summary.refused ≤ self.old.interpreter.summary.lines }
        ensures ran { (told left old : Option (List ℕ)) → IsUnderWay told left old (W.contents writer.old) self.old
            → OnOk result (IsUnderWay told left old (W.contents writer.new) self.new) }
        ensures none_wait { OnOk result (self.new.interpreter.session.waiting ≡ None) }
        ensures taken { OnOk result (self.new.lines.unread ≡ []) }
        ensures written { OnOk result (self.new.interpreter.output.items ≡ []) }
        ensures read { self.new.lines.read ≡ self.old.lines.read }
        ensures fault { IfErr result (λ error. (error ≡ RunError.Memory) ⊎ (error ≡ RunError.Write)) }
        ensures front { (told left old : Option (List ℕ)) → IsUnderWay told left old (W.contents writer.old) self.old
            → OnErr result (WroteFront told left old (W.contents writer.new)) }
        ensures writes { FaultyAt RunError.Write (W.calls writer.old) result (W.calls writer.new) }
    {
        while self.lines.take_line()? {
            self.interpreter
                .run_next(self.lines.line(), MOST_OUTPUT, writer)?;
            if self.interpreter.output.len() > MOST_OUTPUT {
                write_out(&mut self.interpreter.output, writer)?;
            }
        }
        write_out(&mut self.interpreter.output, writer)
    }

    /// Runs the line after the last line feed, if it isn't empty. None of its output is written: where memory is
    /// refused, it is no line yet.
    fn run_last<W: Sink>(&mut self, writer: &mut W) -> Result<(), SendError>
        requires none_wait { self.old.interpreter.session.waiting ≡ None }
        requires room { self.old.interpreter.summary.lines ≤ most_bytes }
        requires few { self.old.interpreter.summary.refused ≤ self.old.interpreter.summary.lines }
        requires taken { self.old.lines.unread ≡ [] }
        ensures ended { (told left old : Option (List ℕ)) → IsUnderWay told left old (W.contents writer.old) self.old
            → OnOk result (HasEnded told left old (W.contents writer.new)
            self.new.interpreter.summary self.new.interpreter.output.items) }
        ensures kept { writer.new ≡ writer.old }
        ensures writes { FailsAtWrite (W.calls writer.old) result (W.calls writer.new) }
    {
        if self.lines.front().is_empty() {
            return Ok(());
        }
        self.interpreter
            .run_next(self.lines.front(), usize::MAX, writer)
    }

    /// What was run so far.
    pub(crate) fn summary(&self) -> Summary
        ensures { result ≡ self.now.interpreter.summary }
    {
        self.interpreter.summary
    }
}

/// Writes the output, and empties it.
fn write_out<A: Allocator, W: Sink>(output: &mut Vec<u8, A>, writer: &mut W) -> Result<(), RunError>
    ensures ok { OnOk result (Appends (W.contents writer.old) (W.contents writer.new) output.old.items) }
    ensures empty { OnOk result (output.new.items ≡ []) }
    ensures front { OnErr result (TakesFront (W.contents writer.old) (W.contents writer.new) output.old.items) }
    ensures fault { IfErr result (λ error. error ≡ RunError.Write) }
    ensures writes { FaultyAt RunError.Write (W.calls writer.old) result (W.calls writer.new) }
{
    write_all(writer, output.as_slice())?;
    output.clear();
    Ok(())
}
