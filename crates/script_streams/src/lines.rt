//! The lines of a script, as its bytes come.
ghost use Rattle.std.specs.Prelude.{◌≡◌, ◌+◌, ◌≤◌, ◌<◌, [], ◌∷◌, ◌++◌, ℕ, false, length, take, Err, IfOk, IfSome, None};
ghost use Rattle.std.specs.Prelude.{OnErr, OnOk, Ok, true};
ghost use Rattle.std.specs.Io.KnownBytes.{Consumes, IsAtEnd, Keeps};
ghost use Rattle.script_streams.specs.Lines.{HasNoEnd, TakesLine, kept, most_bytes, part};
ghost use Rattle.script_streams.specs.Streams.{IsCalm, IsFaulty, StaysCalm};

use crate::patience::{Fault, read_patiently};
use crate::streams::Source;
use memchr::memchr;
use std::alloc::{AllocError, Allocator, Global};
use std::marker::Model;
use std::mem::swap;
use thiserror::Error;

/// A script has at most so many bytes.
pub const MOST_BYTES: usize = 16_777_216;

/// So many bytes are asked for at once.
const PIECE: usize = 16_384;

/// So many bytes of a line are kept: a longer line is too long, whatever else it has.
const MOST_KEPT: usize = 4_097;

/// Why no more bytes came.
#[derive(Clone, Copy, Debug, PartialEq, Eq, Error)]
pub enum FillError {
    /// A read failed, or 65 in a row were interrupted.
    #[error("read fault")]
    Read,
    /// The script has more than 16,777,216 bytes.
    #[error("script too long")]
    TooLong,
}

/// The bytes of a script that have come and are in no line yet.
#[derive(Drop)]
pub struct Lines<A: Allocator = Global> {
    piece: Vec<u8, A>,
    /// Of the piece, these are still to be taken.
    begin: usize,
    end: usize,
    /// The beginning of a line whose end hasn't come, as far as it is kept.
    front: Vec<u8, A>,
    /// Of the piece, these are the line that was taken last, unless it came in more than one piece.
    line_begin: usize,
    line_end: usize,
    is_joined: bool,
    /// The line that came in more than one piece.
    joined: Vec<u8, A>,
    /// So many bytes were read in all.
    read: usize,
}

impl<A: Allocator> Model for Lines<A> {
    ghost use Rattle.std.specs.Prelude.{◌≡◌, ◌-◌, ◌≤◌, drop, length, take, if◌then◌else◌};
    ghost use Rattle.script_streams.specs.Lines.{Held, IsHeld, part};

    ghost Value = { Held };

    ghost view = { λ l. record {
      line = if l.is_joined then l.joined.items else part l.line_begin l.line_end l.piece.items;
      front = l.front.items;
      unread = part l.begin l.end l.piece.items;
      read = l.read;
    } };

    ghost invariant = { λ l. IsHeld l.begin l.end l.line_begin l.line_end l.piece.items l.front.items l.read };
}

impl<A: Allocator + Copy> Lines<A> {
    /// Nothing has come yet.
    pub fn new(alloc: A) -> Result<Self, AllocError>
        ensures { IfOk result (λ lines. lines ≡ record { line = []; front = []; unread = []; read = 0 }) }
    {
        Ok(Lines {
            piece: Vec::from_elem(alloc, 0u8, PIECE)?,
            begin: 0,
            end: 0,
            front: Vec::new(alloc),
            line_begin: 0,
            line_end: 0,
            is_joined: false,
            joined: Vec::new(alloc),
            read: 0,
        })
    }
}

impl<A: Allocator> Lines<A> {
    /// Takes the next line whose end has come, and answers whether there is one. Where there is none, what has come is
    /// the beginning of one.
    ///
    /// Of a line that came in more than one piece the first 4,097 bytes are kept.
    #[tactic(auto, using(crate::proofs::KeptLines::kept_twice))]
    pub fn take_line(&mut self) -> Result<bool, AllocError>
        ensures taken { IfOk result (λ is_taken. TakesLine is_taken self.old self.new) }
        ensures read { self.new.read ≡ self.old.read }
    {
        let Some(at) = first_end(&self.piece, self.begin, self.end) else {
            keep_front(&mut self.front, &self.piece[self.begin..self.end])?;
            self.begin = self.end;
            return Ok(false);
        };
        self.line_begin = self.begin;
        self.line_end = at;
        self.begin = at + 1;
        self.is_joined = !self.front.is_empty();
        if self.is_joined {
            keep_front(&mut self.front, &self.piece[self.line_begin..at])?;
            self.joined.clear();
            swap(&mut self.front, &mut self.joined);
        }
        Ok(true)
    }

    /// The line that was taken last.
    pub fn line(&self) -> &[u8]
        ensures { result.now ≡ self.now.line }
    {
        if self.is_joined {
            self.joined.as_slice()
        } else {
            &self.piece[self.line_begin..self.line_end]
        }
    }

    /// The beginning of the line whose end hasn't come: after the last byte, the last line, if it isn't empty.
    pub fn front(&self) -> &[u8]
        ensures { result.now ≡ self.now.front }
    {
        self.front.as_slice()
    }

    /// Reads once more, and again after each of up to 64 interruptions in a row. Answers whether bytes came: none only
    /// at the end.
    ///
    /// Fails where a read fails, and where a byte more than a script may have came.
    pub fn fill<R: Source>(&mut self, reader: &mut R) -> Result<bool, FillError>
        requires { self.old.unread ≡ [] }
        ensures bytes { OnOk result (Consumes (R.remaining reader.old) (R.remaining reader.new) self.new.unread) }
        ensures counted { OnOk result (self.new.read ≡ self.old.read + length self.new.unread) }
        ensures front { self.new.front ≡ self.old.front }
        ensures end { result ≡ Ok false → (self.new.unread ≡ []) × IsAtEnd (R.remaining reader.new) }
        ensures some { result ≡ Ok true → 0 < length self.new.unread }
        ensures few { self.new.read ≤ most_bytes }
        ensures stopped { result ≡ Err FillError.Read → Keeps (R.remaining reader.old) (R.remaining reader.new) }
        ensures too_long { result ≡ Err FillError.TooLong → (self.old.read ≡ most_bytes)
            × ((byte : ℕ) × Consumes (R.remaining reader.old) (R.remaining reader.new) (byte ∷ [])) }
        ensures uncounted { OnErr result (self.new.read ≡ self.old.read) }
        ensures calm { IsCalm (R.calls reader.old) → OnOk result (IsCalm (R.calls reader.new)) }
        ensures fault { IsCalm (R.calls reader.old) → result ≡ Err FillError.Read → IsFaulty (R.calls reader.new) }
        ensures calm_too_long { IsCalm (R.calls reader.old) → result ≡ Err FillError.TooLong
            → IsCalm (R.calls reader.new) }
    {
        let room = PIECE.min(MOST_BYTES - self.read);
        if room == 0 {
            return find_end(reader);
        }
        let Ok(count) = read_front(reader, self.piece.as_mut_slice(), room) else {
            return Err(FillError::Read);
        };
        self.begin = 0;
        self.end = count;
        self.read += count;
        Ok(0 < count)
    }
}

/// Reads into the beginning of a piece that has so much room.
#[tactic(auto, using(crate::proofs::Ends::consumes_part, crate::proofs::Ends::consumes_front))]
fn read_front<R: Source>(reader: &mut R, piece: &mut [u8], room: usize) -> Result<usize, Fault>
    requires some { 0 < room }
    requires within { room ≤ length piece.old }
    ensures bound { IfOk result (λ count. count ≤ room) }
    ensures bytes { IfOk result (λ count. Consumes (R.remaining reader.old) (R.remaining reader.new)
        (part 0 count piece.new)) }
    ensures end { IfOk result (λ count. count ≡ 0 → IsAtEnd (R.remaining reader.new)) }
    ensures refused { OnErr result (Keeps (R.remaining reader.old) (R.remaining reader.new)) }
    ensures calm { StaysCalm (R.calls reader.old) result (R.calls reader.new) }
{
    let count = read_patiently(reader, &mut piece[..room])?;
    Ok(count)
}

/// Where the first line feed of a part of a piece stands.
fn first_end(piece: &[u8], begin: usize, end: usize) -> Option<usize>
    requires ascends { begin ≤ end }
    requires within { end ≤ length piece.now }
    ensures within { IfSome result (λ at. (begin ≤ at) × (at < end)) }
    ensures found { IfSome result (λ at. part begin end piece.now
        ≡ part begin at piece.now ++ 10 ∷ part (at + 1) end piece.now) }
    ensures before { IfSome result (λ at. HasNoEnd (part begin at piece.now)) }
    ensures none { result ≡ None → HasNoEnd (part begin end piece.now) }
{
    let count = memchr(b'\n', &piece[begin..end])?;
    Some(begin + count)
}

/// Answers false at the end, and fails where one more byte comes.
fn find_end<R: Source>(reader: &mut R) -> Result<bool, FillError>
    ensures bytes { OnOk result (Consumes (R.remaining reader.old) (R.remaining reader.new) []) }
    ensures end { IfOk result (λ more. (more ≡ false) × IsAtEnd (R.remaining reader.new)) }
    ensures stopped { result ≡ Err FillError.Read → Keeps (R.remaining reader.old) (R.remaining reader.new) }
    ensures too_long { result ≡ Err FillError.TooLong → ((byte : ℕ)
        × Consumes (R.remaining reader.old) (R.remaining reader.new) (byte ∷ [])) }
    ensures calm { IsCalm (R.calls reader.old) → OnOk result (IsCalm (R.calls reader.new)) }
    ensures fault { IsCalm (R.calls reader.old) → result ≡ Err FillError.Read → IsFaulty (R.calls reader.new) }
    ensures calm_too_long { IsCalm (R.calls reader.old) → result ≡ Err FillError.TooLong → IsCalm (R.calls reader.new) }
{
    let mut byte = [0];
    match read_patiently(reader, &mut byte) {
        Ok(0) => Ok(false),
        Ok(_) => Err(FillError::TooLong),
        Err(_) => Err(FillError::Read),
    }
}

/// Adds bytes to the beginning of a line, as far as it is kept.
#[tactic(auto, using(crate::proofs::KeptLines::kept_added))]
fn keep_front<A: Allocator>(front: &mut Vec<u8, A>, bytes: &[u8]) -> Result<(), AllocError>
    requires { length front.old.items ≤ 4097 }
    ensures added { OnOk result (front.new.items ≡ kept (front.old.items ++ bytes.now)) }
    ensures few { length front.new.items ≤ 4097 }
{
    let room = MOST_KEPT - front.len();
    front.extend_from_slice(&bytes[..room.min(bytes.len())])
}
