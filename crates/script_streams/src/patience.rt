//! Reads and writes that are tried again after an interruption, but not without end.
ghost use Rattle.std.specs.Prelude.{◌≡◌, ℕ, ◌<◌, ◌≤◌, length, take, IfOk, OnErr, OnOk};
ghost use Rattle.std.specs.Io.KnownBytes.{Appends, Consumes, IsAtEnd, Keeps};
ghost use Rattle.script_streams.specs.Streams.{StaysCalm, TakesFront};

use crate::streams::{Sink, Source, Stop};
use thiserror::Error;

/// So many calls in a row may be interrupted before the last is a fault: it is tried again 64 times.
const MOST_TRIES: u8 = 65;

/// A call failed, 65 in a row were interrupted, or a write took no byte.
#[derive(Clone, Copy, Debug, PartialEq, Eq, Error)]
#[error("a read or a write failed")]
pub struct Fault;

/// Reads, and again after each of up to 64 interruptions in a row. Answers how many bytes came: none only at the end.
pub fn read_patiently<R: Source>(reader: &mut R, piece: &mut [u8]) -> Result<usize, Fault>
    requires { 0 < length piece.old }
    ensures bound { IfOk result (λ count. count ≤ length piece.new) }
    ensures bytes { IfOk result (λ count. Consumes (R.remaining reader.old) (R.remaining reader.new)
        (take count piece.new)) }
    ensures end { IfOk result (λ count. count ≡ 0 → IsAtEnd (R.remaining reader.new)) }
    ensures refused { OnErr result (Keeps (R.remaining reader.old) (R.remaining reader.new)) }
    ensures calm { StaysCalm (R.calls reader.old) result (R.calls reader.new) }
{
    for _ in 0..MOST_TRIES {
        match reader.read(piece) {
            Ok(count) => return Ok(count),
            Err(Stop::Failed) => return Err(Fault),
            Err(Stop::Interrupted) => {}
        }
    }
    Err(Fault)
}

/// Writes a prefix of some bytes, and again after each of up to 64 interruptions in a row. Answers how many bytes
/// went: at least one.
fn write_patiently<W: Sink>(writer: &mut W, bytes: &[u8]) -> Result<usize, Fault>
    requires { 0 < length bytes.now }
    ensures some { IfOk result (λ count. 0 < count) }
    ensures bound { IfOk result (λ count. count ≤ length bytes.now) }
    ensures bytes { IfOk result (λ count. Appends (W.contents writer.old) (W.contents writer.new)
        (take count bytes.now)) }
    ensures refused { OnErr result (Keeps (W.contents writer.old) (W.contents writer.new)) }
    ensures calm { StaysCalm (W.calls writer.old) result (W.calls writer.new) }
{
    for _ in 0..MOST_TRIES {
        match writer.write(bytes) {
            Ok(0) => return Err(Fault),
            Ok(count) => return Ok(count),
            Err(Stop::Failed) => return Err(Fault),
            Err(Stop::Interrupted) => {}
        }
    }
    Err(Fault)
}

/// Writes all of the bytes, or a prefix of them up to the first fault.
pub fn write_all<W: Sink>(writer: &mut W, bytes: &[u8]) -> Result<(), Fault>
    ensures ok { OnOk result (Appends (W.contents writer.old) (W.contents writer.new) bytes.now) }
    ensures front { OnErr result (TakesFront (W.contents writer.old) (W.contents writer.new) bytes.now) }
    ensures calm { StaysCalm (W.calls writer.old) result (W.calls writer.new) }
{
    let mut at = 0;
    while at < bytes.len() {
        let count = write_patiently(writer, &bytes[at..])?;
        at += count;
    }
    Ok(())
}
