//! Where bytes come from and where they go, and what is known of the calls so far.
ghost use Rattle.std.specs.Prelude.{◌≡◌, ℕ, false};
ghost use Rattle.std.specs.Io.{ReadsAtMost, WritesAtMost};
ghost use Rattle.std.specs.Io.KnownBytes.{ReadConsumes, WriteAppends};

use thiserror::Error;

/// Why a read or a write answered no count.
#[derive(Clone, Copy, Debug, PartialEq, Eq, Error)]
pub enum Stop {
    /// A signal came first. The call may be tried again.
    #[error("a signal came first")]
    Interrupted,
    /// Anything else.
    #[error("the call failed")]
    Failed,
}

/// What is known of the calls of a reader or a writer so far.
#[derive(Clone, Copy, Debug, PartialEq, Eq)]
pub struct Calls {
    /// How many of the last calls in a row were interrupted. From 65 on they are counted no further.
    pub interruptions: u8,
    /// Whether a call has failed otherwise, or a write took no byte of some.
    pub has_failed: bool,
}

impl Calls {
    ghost use Rattle.script_streams.specs.Streams.{after_read, after_write};

    /// No call so far.
    pub const NONE: Calls = Calls {
        interruptions: 0,
        has_failed: false,
    };

    /// One more read.
    pub fn count_read(&mut self, answer: Result<usize, Stop>)
        ensures { self.new ≡ after_read answer self.old }
    {
        match answer {
            Ok(_) => self.interruptions = 0,
            Err(stop) => self.count_stop(stop),
        }
    }

    /// One write of these bytes more.
    pub fn count_write(&mut self, answer: Result<usize, Stop>, bytes: &[u8])
        ensures { self.new ≡ after_write answer bytes.now self.old }
    {
        match answer {
            Ok(count) => {
                self.interruptions = 0;
                self.has_failed = self.has_failed || (count == 0 && !bytes.is_empty());
            }
            Err(stop) => self.count_stop(stop),
        }
    }

    fn count_stop(&mut self, stop: Stop)
        ensures { self.new ≡ after_read (Err stop) self.old }
    {
        match stop {
            Stop::Interrupted => self.interruptions = self.interruptions.saturating_add(1).min(65),
            Stop::Failed => {
                self.interruptions = 0;
                self.has_failed = true;
            }
        }
    }
}

/// Gives bytes.
pub trait Source {
    ghost use Rattle.std.specs.Prelude.{⊤, ℕ, List, Option, None, Result, length};
    ghost use Rattle.script_streams.specs.declared.streams.Calls.{Calls};
    ghost use Rattle.script_streams.specs.declared.streams.Stop.{Stop};
    ghost use Rattle.script_streams.specs.Streams.{after_read};

    // The bytes that reads will give from here on, where they are known.
    ghost remaining: { Self → Option (List ℕ) } = { λ _. None };

    // What is known of the reads so far.
    ghost calls: { Self → Calls };

    // What a read does, where more is known than its bytes: before it, the buffer's length, its answer, and after it.
    ghost reads: { Self → ℕ → Result ℕ Stop → Self → Type 0 } = { λ _ _ _ _. ⊤ };

    /// Puts bytes at the buffer's beginning, and answers how many: none only at the end, or where there is no room.
    fn read(&mut self, buffer: &mut [u8]) -> Result<usize, Stop>
        ensures bound { ReadsAtMost result buffer.new }
        ensures bytes { ReadConsumes (remaining self.old) (remaining self.new) result buffer.new }
        ensures told { calls self.new ≡ after_read result (calls self.old) }
        ensures does { reads self.old (length buffer.old) result self.new };
}

/// Takes bytes.
pub trait Sink {
    ghost use Rattle.std.specs.Prelude.{⊤, ℕ, List, Option, None, Result, length};
    ghost use Rattle.script_streams.specs.declared.streams.Calls.{Calls};
    ghost use Rattle.script_streams.specs.declared.streams.Stop.{Stop};
    ghost use Rattle.script_streams.specs.Streams.{after_write};

    // The bytes taken so far, where they are known.
    ghost contents: { Self → Option (List ℕ) } = { λ _. None };

    // What is known of the writes so far.
    ghost calls: { Self → Calls };

    // What a write does, where more is known than its bytes: before it, how many bytes it is given, its answer, and
    // after it.
    ghost writes: { Self → ℕ → Result ℕ Stop → Self → Type 0 } = { λ _ _ _ _. ⊤ };

    /// Takes the first of the bytes, and answers how many.
    fn write(&mut self, bytes: &[u8]) -> Result<usize, Stop>
        ensures bound { WritesAtMost result bytes.now }
        ensures bytes { WriteAppends (contents self.old) (contents self.new) result bytes.now }
        ensures told { calls self.new ≡ after_write result bytes.now (calls self.old) }
        ensures does { writes self.old (length bytes.now) result self.new };
}
