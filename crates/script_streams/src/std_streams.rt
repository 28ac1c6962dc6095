//! The standard library's readers and writers as sources and sinks.
ghost use Rattle.std.specs.Prelude.{◌≡◌, ◌↔◌, false};
ghost use Rattle.std.specs.IoError.{error_kind};

use crate::streams::{Calls, Sink, Source, Stop};
use std::io;
use std::io::{ErrorKind, Read, Write};

/// A reader of the standard library as a source.
#[derive(Drop)]
pub struct FromRead<R> {
    reader: R,
    calls: Calls,
}

impl<R: Read> FromRead<R> {
    /// The reader, which no call through this source has read yet.
    pub fn new(reader: R) -> Self
        ensures bytes { ⟦<FromRead<R> as Source>⟧.remaining result ≡ R.remaining reader }
        ensures told { ⟦<FromRead<R> as Source>⟧.calls result ≡ record { interruptions = 0; has_failed = false } }
    {
        FromRead {
            reader,
            calls: Calls::NONE,
        }
    }
}

impl<R: Read> Source for FromRead<R> {
    ghost remaining = { λ s. R.remaining s.reader };

    ghost calls = { λ s. s.calls };

    fn read(&mut self, buffer: &mut [u8]) -> Result<usize, Stop> {
        let answer = self.reader.read(buffer).map_err(|error| stop_of(&error));
        self.calls.count_read(answer);
        answer
    }
}

/// A writer of the standard library as a sink.
#[derive(Drop)]
pub struct ToWrite<W> {
    writer: W,
    calls: Calls,
}

impl<W: Write> ToWrite<W> {
    /// The writer, to which no call through this sink has written yet.
    pub fn new(writer: W) -> Self
        ensures bytes { ⟦<ToWrite<W> as Sink>⟧.contents result ≡ W.contents writer }
        ensures told { ⟦<ToWrite<W> as Sink>⟧.calls result ≡ record { interruptions = 0; has_failed = false } }
    {
        ToWrite {
            writer,
            calls: Calls::NONE,
        }
    }
}

impl<W: Write> Sink for ToWrite<W> {
    ghost contents = { λ s. W.contents s.writer };

    ghost calls = { λ s. s.calls };

    fn write(&mut self, bytes: &[u8]) -> Result<usize, Stop> {
        let answer = self.writer.write(bytes).map_err(|error| stop_of(&error));
        self.calls.count_write(answer, bytes);
        answer
    }
}

fn stop_of(error: &io::Error) -> Stop
    ensures { (result ≡ Stop.Interrupted) ↔ (error_kind error.now ≡ ErrorKind.Interrupted) }
{
    if error.kind() == ErrorKind::Interrupted {
        Stop::Interrupted
    } else {
        Stop::Failed
    }
}
