//! A sheet: short texts are put down one after another without a look for memory at each.

ghost use Rattle.std.specs.Prelude.{◌≡◌, ◌+◌, ◌-◌, ◌<◌, ◌≤◌, ◌++◌, [], OnErr, OnOk, IfOk, drop, false, length};
ghost use Rattle.std.specs.Prelude.{replicate, take, true};
ghost use Rattle.ecs_print.specs.Stops.{StopsWithin};

use std::alloc::{AllocError, Allocator};
use std::marker::Model;
use std::mem;

/// A text of at most so many bytes is put down in one piece, together with what stands after it.
pub(crate) const CHUNK: usize = 32;

/// Two chunks take so many bytes at most.
const PAIR: usize = CHUNK + CHUNK;

/// The room that is made where a sheet has none.
const MORE_ROOM: usize = 1024;

/// Texts one after another: the bytes before `end`. What stands after these is room, and no part of what a sheet is
/// seen as.
#[derive(Drop)]
pub(crate) struct Sheet<A: Allocator> {
    bytes: Vec<u8, A>,
    end: usize,
}

impl<A: Allocator> Model for Sheet<A> {
    ghost use Rattle.std.specs.Prelude.{ℕ, List, ◌≤◌, length, take};

    ghost Value = { List ℕ };

    ghost view = { λ s. take s.end s.bytes.items };

    ghost invariant = { λ s. s.end ≤ length s.bytes.items };
}

impl<A: Allocator + Copy> Sheet<A> {
    /// A sheet with the text of a list, which is empty until it has its bytes back.
    pub(crate) fn taken_from(list: &mut Vec<u8, A>) -> Self
        ensures { result ≡ list.old.items }
    {
        let alloc = *list.allocator();
        let bytes = mem::replace(list, Vec::new(alloc));
        let end = bytes.len();
        Sheet { bytes, end }
    }
}

impl<A: Allocator> Sheet<A> {
    /// The texts alone: the room after them is cut off.
    pub(crate) fn into_bytes(self) -> Vec<u8, A>
        ensures { result.items ≡ self }
    {
        let Sheet { mut bytes, end } = self;
        bytes.truncate(end);
        bytes
    }

    /// How many bytes are written.
    #[inline(always)]
    pub(crate) fn len(&self) -> usize
        ensures { result ≡ length self.now }
    {
        self.end
    }

    /// What is written.
    pub(crate) fn as_slice(&self) -> &[u8]
        ensures { result.now ≡ self.now }
    {
        &self.bytes.as_slice()[..self.end]
    }

    /// All that was written is room.
    pub(crate) fn clear(&mut self)
        ensures { self.new ≡ [] }
    {
        self.end = 0;
    }

    /// Puts down a text of a length that is known before the program runs. So it needs no room after it.
    #[inline(always)]
    pub(crate) fn put_text<const N: usize>(&mut self, text: &[u8; N]) -> Result<(), AllocError>
        ensures text { OnOk result (self.new ≡ self.old ++ text.now) }
        ensures front { OnErr result (StopsWithin self.old self.new text.now) }
    {
        let place = self.end;
        if has_room(place, N, self.bytes.len()) {
            put_chunk(text, place, &mut self.bytes);
            self.end = place + N;
            return Ok(());
        }
        self.put_long(text, N)
    }

    /// Puts down the first bytes of a text.
    #[inline(always)]
    pub(crate) fn put(&mut self, text: &[u8], count: usize) -> Result<(), AllocError>
        ensures text { OnOk result (self.new ≡ self.old ++ take count text.now) }
        ensures front { OnErr result (StopsWithin self.old self.new (take count text.now)) }
    {
        let place = self.end;
        if is_short(text, count) && has_room(place, CHUNK, self.bytes.len()) {
            put_chunk(first_chunk(text), place, &mut self.bytes);
            self.end = place + count;
            return Ok(());
        }
        self.put_long(text, count)
    }

    /// Puts down the first bytes of a text, and after them the first of another, which has room after it. It looks
    /// for memory once.
    #[inline(always)]
    pub(crate) fn put_pair(
        &mut self,
        text: &[u8],
        count: usize,
        other: &[u8],
        more: usize,
    ) -> Result<(), AllocError>
        requires { 32 ≤ length other.now }
        ensures text { OnOk result (self.new ≡ (self.old ++ take count text.now) ++ take more other.now) }
        ensures front { OnErr result (StopsWithin self.old self.new (take count text.now ++ take more other.now)) }
    {
        let place = self.end;
        if is_short(text, count) && more <= CHUNK && has_room(place, PAIR, self.bytes.len()) {
            let middle = place + count;
            put_chunk(first_chunk(text), place, &mut self.bytes);
            put_chunk(first_chunk(other), middle, &mut self.bytes);
            self.end = middle + more;
            return Ok(());
        }
        self.put_long(text, count)?;
        self.put_long(other, more)
    }

    /// Puts down the first bytes of a text, and makes room for them.
    #[inline(never)]
    fn put_long(&mut self, text: &[u8], count: usize) -> Result<(), AllocError>
        ensures text { OnOk result (self.new ≡ self.old ++ take count text.now) }
        ensures front { OnErr result (StopsWithin self.old self.new (take count text.now)) }
    {
        let text = &text[..count.min(text.len())];
        let place = self.end;
        let behind = place.checked_add(text.len()).ok_or(AllocError)?;
        reach(behind, &mut self.bytes)?;
        put_at(text, place, &mut self.bytes);
        self.end = behind;
        Ok(())
    }
}

/// Whether so many bytes of a text can be put down as a chunk.
#[inline(always)]
fn is_short(text: &[u8], count: usize) -> bool
    ensures { result ≡ true → (count ≤ 32) × (32 ≤ length text.now) }
{
    count <= CHUNK && CHUNK <= text.len()
}

/// Whether so many bytes stand after a place of a list that is so long.
#[inline(always)]
fn has_room(place: usize, room: usize, long: usize) -> bool
    ensures has { result ≡ true → room ≤ long - place }
    ensures lacks { result ≡ false → long - place < room }
{
    room <= long.saturating_sub(place)
}

/// The chunk with which a text begins.
#[inline(always)]
fn first_chunk(text: &[u8]) -> &[u8; CHUNK]
    requires { 32 ≤ length text.now }
    ensures { result.now ≡ take 32 text.now }
{
    text.first_chunk::<CHUNK>().unwrap()
}

/// Puts down a chunk at a place of a list.
#[inline(always)]
fn put_chunk<A: Allocator, const N: usize>(chunk: &[u8; N], place: usize, list: &mut Vec<u8, A>)
    requires { place + N ≤ length list.old.items }
    ensures text { take (place + N) list.new.items ≡ take place list.old.items ++ chunk.now }
    ensures long { length list.new.items ≡ length list.old.items }
{
    fill_chunk(&mut list.as_mut_slice()[place..], chunk);
}

/// Fills the first bytes of some room with a chunk.
#[inline(always)]
fn fill_chunk<const N: usize>(room: &mut [u8], chunk: &[u8; N])
    requires { N ≤ length room.old }
    ensures filled { room.new ≡ chunk.now ++ drop N room.old }
    ensures long { length room.new ≡ length room.old }
{
    if let Some(first) = room.first_chunk_mut::<N>() {
        *first = *chunk;
    }
}

/// Puts down a text at a place of a list that is long enough.
pub(crate) fn put_at<A: Allocator>(text: &[u8], place: usize, list: &mut Vec<u8, A>)
    requires room { place + length text.now ≤ length list.old.items }
    ensures text { take (place + length text.now) list.new.items ≡ take place list.old.items ++ text.now }
    ensures long { length list.new.items ≡ length list.old.items }
{
    list.as_mut_slice()[place..place + text.len()].copy_from_slice(text);
}

/// Makes a list at least so long, with room for a pair after that.
fn reach<A: Allocator>(least: usize, list: &mut Vec<u8, A>) -> Result<(), AllocError>
    ensures long { IfOk result (λ _. least ≤ length list.new.items) }
    ensures same { OnOk result (take (length list.old.items) list.new.items ≡ list.old.items) }
    ensures kept { OnErr result (list.new.items ≡ list.old.items) }
{
    if !has_room(least, PAIR, list.len()) {
        let room = least.checked_add(MORE_ROOM).ok_or(AllocError)?;
        list.resize(room, 0)?;
    }
    Ok(())
}

/// Puts room after a text, as `put` and `put_pair` like it.
pub(crate) fn make_room<A: Allocator>(text: &mut Vec<u8, A>) -> Result<(), AllocError>
    ensures { OnOk result (text.new.items ≡ text.old.items ++ replicate 32 0) }
{
    let room = text.len().checked_add(CHUNK).ok_or(AllocError)?;
    text.resize(room, 0)
}
