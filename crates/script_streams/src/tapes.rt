//! A reader and a writer for tests, which does as it is told.
ghost use Rattle.std.specs.Prelude.{◌≡◌, ◌+◌, ◌-◌, ◌<◌, ◌≤◌, IfOk, length, take, drop};
ghost use Rattle.script_streams.specs.Turns.{next_turn, new_tape, passed};

use crate::streams::{Calls, Sink, Source, Stop};
use std::alloc::{AllocError, Allocator, Global};
use std::marker::Model;

/// What one call of a tape does.
#[derive(Clone, Copy, Debug, PartialEq, Eq)]
pub enum Turn {
    /// At most so many bytes pass. A read gives at least one, where one is left.
    Pass(usize),
    /// The call answers no count.
    Stop(Stop),
}

/// Bytes that are read from their beginning and written at their end.
///
/// Each call does what the next turn says. After the last turn a call passes as many bytes as it can.
#[derive(Drop)]
pub struct Tape<'a, A: Allocator = Global> {
    bytes: Vec<u8, A>,
    /// So many of the bytes have been read.
    given: usize,
    turns: &'a [Turn],
    calls: Calls,
}

impl<'a, A: Allocator> Model for Tape<'a, A> {
    ghost use Rattle.std.specs.Prelude.{◌≤◌, length};
    ghost use Rattle.script_streams.specs.Turns.{TapeState};

    ghost Value = { TapeState };

    ghost view = { λ t. record { bytes = t.bytes.items; given = t.given; turns = t.turns.now; calls = t.calls } };

    ghost invariant = { λ t. t.given ≤ length t.bytes.items };
}

impl<'a, A: Allocator> Tape<'a, A> {
    /// A tape with these bytes on it, and with these turns to come.
    pub fn new(alloc: A, bytes: &[u8], turns: &'a [Turn]) -> Result<Self, AllocError>
        ensures { IfOk result (λ tape. tape ≡ new_tape bytes.now turns.now) }
    {
        Ok(Tape {
            bytes: Vec::from_slice(alloc, bytes)?,
            given: 0,
            turns,
            calls: Calls::NONE,
        })
    }

    /// All its bytes.
    pub fn bytes(&self) -> &[u8]
        ensures { result.now ≡ self.now.bytes }
    {
        self.bytes.as_slice()
    }

    /// The turns to come.
    pub fn turns(&self) -> &[Turn]
        ensures { result.now ≡ self.now.turns }
    {
        self.turns
    }
}

/// Takes the next turn. After the last all bytes pass.
fn take_turn(turns: &mut &[Turn]) -> Turn
    ensures turn { result ≡ next_turn turns.old.now }
    ensures later { turns.new.now ≡ drop 1 turns.old.now }
{
    match turns.split_first() {
        Some((turn, later)) => {
            *turns = later;
            *turn
        }
        None => Turn::Pass(usize::MAX),
    }
}

/// Copies to the buffer's beginning at most so many of the bytes after those given, at least one where there is one and
/// room for it, and answers how many.
fn give(bytes: &[u8], given: usize, most: usize, buffer: &mut [u8]) -> usize
    requires { given ≤ length bytes.now }
    ensures bound { result ≤ length buffer.new }
    ensures within { given + result ≤ length bytes.now }
    ensures piece { take result buffer.new ≡ take result (drop given bytes.now) }
    ensures end { result ≡ 0 → 0 < length buffer.new → given ≡ length bytes.now }
    ensures count { result ≡ passed most (length buffer.new) (length bytes.now - given) }
{
    let count = most.max(1).min(buffer.len()).min(bytes.len() - given);
    buffer[..count].copy_from_slice(&bytes[given..given + count]);
    count
}

impl<A: Allocator> Source for Tape<'_, A> {
    ghost use Rattle.std.specs.Prelude.{◌-◌, Some, drop, length};
    ghost use Rattle.script_streams.specs.Turns.{ReadsInTurn};

    ghost remaining = { λ t. Some (drop t.given t.bytes) };

    ghost calls = { λ t. t.calls };

    ghost reads = { λ t room answer later. ReadsInTurn t.turns room (length t.bytes - t.given) answer later.turns };

    fn read(&mut self, buffer: &mut [u8]) -> Result<usize, Stop> {
        let answer = match take_turn(&mut self.turns) {
            Turn::Stop(stop) => Err(stop),
            Turn::Pass(most) => {
                let count = give(self.bytes.as_slice(), self.given, most, buffer);
                self.given += count;
                Ok(count)
            }
        };
        self.calls.count_read(answer);
        answer
    }
}

impl<A: Allocator> Sink for Tape<'_, A> {
    ghost use Rattle.std.specs.Prelude.{Some};
    ghost use Rattle.script_streams.specs.Turns.{WritesInTurn};

    ghost contents = { λ t. Some t.bytes };

    ghost calls = { λ t. t.calls };

    ghost writes = { λ t count answer later. WritesInTurn t.turns count answer later.turns };

    /// Memory that is refused is a failure.
    fn write(&mut self, bytes: &[u8]) -> Result<usize, Stop> {
        let answer = match take_turn(&mut self.turns) {
            Turn::Stop(stop) => Err(stop),
            Turn::Pass(most) => {
                let count = most.min(bytes.len());
                match self.bytes.extend_from_slice(&bytes[..count]) {
                    Ok(()) => Ok(count),
                    Err(_) => Err(Stop::Failed),
                }
            }
        };
        self.calls.count_write(answer, bytes);
        answer
    }
}
