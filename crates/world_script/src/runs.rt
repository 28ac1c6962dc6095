//! A script from its bytes to the bytes of its output.
ghost use Rattle.std.specs.Prelude.{◌≡◌, ◌⊎◌, IfOk, OnOk, Err};
ghost use Rattle.std.specs.Io.KnownBytes.{IsAtEnd};
ghost use Rattle.world_script.specs.Whole.{FaultyAt, FitsScript, IsCount, IsOutput, WroteFront, WroteFull, WroteToEnd};
ghost use Rattle.world_script.specs.Whole.{WroteWhole};

use crate::errors::RunError;
use crate::lines::Summary;
use crate::runners::Runner;
use script_streams::{Sink, Source};
use std::alloc::Allocator;
use std::hash::RandomState;
use std::mem::forget;

/// Runs the lines of a script in a new session, each when its end was read, and writes what they print before it reads
/// on.
///
/// Names are hashed with these random keys, so that no script can choose names that make it slow.
///
/// A read or a write that is interrupted is tried again, up to 64 times in a row. Fails where a read or a write fails
/// otherwise or a write takes no byte, where the script has more than 16,777,216 bytes, and where memory is refused.
/// What was written then is a prefix of the output of the lines whose ends were read, and all of it where a read failed
/// or the script is too long.
pub fn run<A: Allocator + Copy, R: Source, W: Sink>(
    alloc: A,
    random: RandomState,
    reader: &mut R,
    writer: &mut W,
) -> Result<Summary, RunError>
    ensures output { OnOk result (IsOutput (R.remaining reader.old) (W.contents writer.old) (W.contents writer.new)) }
    ensures count { IfOk result (IsCount (R.remaining reader.old)) }
    ensures fits { OnOk result (FitsScript (R.remaining reader.old)) }
    ensures read_whole { OnOk result (IsAtEnd (R.remaining reader.new)) }

    ensures read { result ≡ Err RunError.Read
        → WroteWhole (R.remaining reader.old) (R.remaining reader.new) (W.contents writer.old) (W.contents writer.new) }
    ensures too_long { result ≡ Err RunError.TooLong
        → WroteFull (R.remaining reader.old) (R.remaining reader.new) (W.contents writer.old) (W.contents writer.new) }
    ensures memory { result ≡ Err RunError.Memory
        → WroteFront (R.remaining reader.old) (R.remaining reader.new) (W.contents writer.old) (W.contents writer.new) }
    ensures write { result ≡ Err RunError.Write
        → WroteFront (R.remaining reader.old) (R.remaining reader.new) (W.contents writer.old) (W.contents writer.new)
        ⊎ WroteToEnd (R.remaining reader.old) (R.remaining reader.new) (W.contents writer.old) (W.contents writer.new) }

    ensures reads { FaultyAt RunError.Read (R.calls reader.old) result (R.calls reader.new) }
    ensures writes { FaultyAt RunError.Write (W.calls writer.old) result (W.calls writer.new) }
{
    let mut runner = Runner::new(alloc, random)?;
    runner.run_script(reader, writer)?;
    Ok(runner.summary())
}

/// As `run`, for a program that ends after it: the memory of the session isn't given back, but goes with the process.
pub fn run_without_cleanup<A: Allocator + Copy, R: Source, W: Sink>(
    alloc: A,
    random: RandomState,
    reader: &mut R,
    writer: &mut W,
) -> Result<Summary, RunError>
    ensures output { OnOk result (IsOutput (R.remaining reader.old) (W.contents writer.old) (W.contents writer.new)) }
    ensures count { IfOk result (IsCount (R.remaining reader.old)) }
    ensures fits { OnOk result (FitsScript (R.remaining reader.old)) }
    ensures read_whole { OnOk result (IsAtEnd (R.remaining reader.new)) }

    ensures read { result ≡ Err RunError.Read
        → WroteWhole (R.remaining reader.old) (R.remaining reader.new) (W.contents writer.old) (W.contents writer.new) }
    ensures too_long { result ≡ Err RunError.TooLong
        → WroteFull (R.remaining reader.old) (R.remaining reader.new) (W.contents writer.old) (W.contents writer.new) }
    ensures memory { result ≡ Err RunError.Memory
        → WroteFront (R.remaining reader.old) (R.remaining reader.new) (W.contents writer.old) (W.contents writer.new) }
    ensures write { result ≡ Err RunError.Write
        → WroteFront (R.remaining reader.old) (R.remaining reader.new) (W.contents writer.old) (W.contents writer.new)
        ⊎ WroteToEnd (R.remaining reader.old) (R.remaining reader.new) (W.contents writer.old) (W.contents writer.new) }

    ensures reads { FaultyAt RunError.Read (R.calls reader.old) result (R.calls reader.new) }
    ensures writes { FaultyAt RunError.Write (W.calls writer.old) result (W.calls writer.new) }
{
    let mut runner = Runner::new(alloc, random)?;
    let done = runner.run_script(reader, writer);
    let summary = runner.summary();
    forget(runner);
    match done {
        Ok(()) => Ok(summary),
        Err(error) => Err(error),
    }
}
