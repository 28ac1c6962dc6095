//! A reader of bytes that a caller lends, and a writer of at most so many bytes.
ghost use Rattle.std.specs.Prelude.{◌≡◌, ◌+◌, ◌≤◌, ◌<◌, IfSome, None, [], length, take, drop};
ghost use Rattle.flecsq_c.specs.Memory.{Copies, Wrote};

use script_streams::{Calls, Sink, Source, Stop};
use std::alloc::Global;
use std::marker::Model;

/// Reads bytes that are lent.
#[derive(Drop)]
pub(crate) struct Reading<'a> {
    bytes: &'a [u8],
    /// So many of them were read.
    given: usize,
}

impl<'a> Model for Reading<'a> {
    ghost use Rattle.std.specs.Prelude.{ℕ, List, ◌≤◌, drop, length};

    ghost Value = { List ℕ };

    ghost view = { λ r. drop r.given r.bytes.now };

    ghost invariant = { λ r. r.given ≤ length r.bytes.now };
}

impl<'a> Reading<'a> {
    /// Nothing is read yet.
    pub(crate) fn new(bytes: &'a [u8]) -> Self
        ensures { result ≡ bytes.now }
    {
        Reading { bytes, given: 0 }
    }
}

/// Copies to the buffer's beginning as many of the bytes after those given as fit, and answers how many.
fn give(bytes: &[u8], given: usize, buffer: &mut [u8]) -> usize
    requires { given ≤ length bytes.now }
    ensures bound { result ≤ length buffer.new }
    ensures within { given + result ≤ length bytes.now }
    ensures piece { take result buffer.new ≡ take result (drop given bytes.now) }
    ensures end { result ≡ 0 → 0 < length buffer.new → given ≡ length bytes.now }
{
    let count = buffer.len().min(bytes.len() - given);
    buffer[..count].copy_from_slice(&bytes[given..given + count]);
    count
}

impl Source for Reading<'_> {
    ghost use Rattle.std.specs.Prelude.{Some, false};

    ghost remaining = { λ r. Some r };

    // No read fails or is interrupted.
    ghost calls = { λ _. record { interruptions = 0; has_failed = false } };

    /// Gives as many bytes as fit.
    fn read(&mut self, buffer: &mut [u8]) -> Result<usize, Stop> {
        let count = give(self.bytes, self.given, buffer);
        self.given += count;
        Ok(count)
    }
}

/// Keeps the bytes that it takes, and takes at most so many.
#[derive(Drop)]
pub(crate) struct Writing {
    bytes: Vec<u8, Global>,
    most: usize,
    /// Memory was refused for bytes that may be written.
    is_out: bool,
    calls: Calls,
}

impl Model for Writing {
    ghost use Rattle.std.specs.Prelude.{◌≤◌, length};
    ghost use Rattle.flecsq_c.specs.Memory.{WritingState};

    ghost Value = { WritingState };

    ghost view = { λ w. record { written = w.bytes.items; calls = w.calls } };

    ghost invariant = { λ w. length w.bytes.items ≤ w.most };
}

impl Writing {
    /// Nothing is written yet.
    pub(crate) fn new(alloc: Global, most: usize) -> Self
        ensures { result.written ≡ [] }
    {
        Writing {
            bytes: Vec::new(alloc),
            most,
            is_out: false,
            calls: Calls::NONE,
        }
    }

    /// What was written.
    pub(crate) fn bytes(&self) -> &[u8]
        ensures { result.now ≡ self.now.written }
    {
        self.bytes.as_slice()
    }

    /// Whether memory was refused for bytes that may be written.
    pub(crate) fn is_out(&self) -> bool {
        self.is_out
    }
}

impl Sink for Writing {
    ghost use Rattle.std.specs.Prelude.{Some};

    ghost contents = { λ w. Some w.written };

    ghost calls = { λ w. w.calls };

    /// Takes as many bytes as may be written still.
    fn write(&mut self, bytes: &[u8]) -> Result<usize, Stop> {
        let count = bytes.len().min(self.most - self.bytes.len());
        let answer = match self.bytes.extend_from_slice(&bytes[..count]) {
            Ok(()) => Ok(count),
            Err(_) => {
                self.is_out = true;
                Err(Stop::Failed)
            }
        };
        self.calls.count_write(answer, bytes);
        answer
    }
}

/// Copies as many of the bytes as fit to the buffer's beginning, and answers how many.
pub(crate) fn copy_front(bytes: &[u8], to: &mut [u8]) -> usize
    ensures { Copies bytes.now to.old to.new result }
{
    let count = bytes.len().min(to.len());
    to[..count].copy_from_slice(&bytes[..count]);
    count
}

/// Copies the bytes to the buffer's beginning, if they fit, and answers how many they are.
pub(crate) fn copy_whole(bytes: &[u8], to: &mut [u8]) -> Option<usize>
    ensures copied { IfSome result (Wrote bytes.now to.old to.new) }
    ensures kept { result ≡ None → to.new ≡ to.old }
{
    if bytes.len() > to.len() {
        return None;
    }
    Some(copy_front(bytes, to))
}
