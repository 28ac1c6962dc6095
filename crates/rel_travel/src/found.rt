//! What a search has found.
ghost use Rattle.std.specs.Prelude.{◌≡◌, ◌==◌, ◌-◌, ◌≤◌, ◌<◌, ◌/◌, ◌%◌, ◌^◌, ◌++◌, [], length, max, replicate};
ghost use Rattle.std.specs.Prelude.{slice_index, vec_capacity, vec_len, OnOk, OnErr};
ghost use Rattle.std.specs.List.{IsDistinct};
ghost use Rattle.rel_travel.specs.Finds.{is_among, is_marked, none_found, with_find};

use std::alloc::{AllocError, Allocator, Global};
use std::marker::Model;

/// How many indexes have their marks in one word.
const MARKS: u32 = 64;

/// So many words are made at a time.
const BLOCK: usize = 256;

static BLANK: [u64; BLOCK] = [0; BLOCK];

/// The entities that a search has found, by index: each once, in the order in which they were found.
///
/// Room for all indexes below a number is made by `reserve`; the other calls take no memory. `add` and `is_found` take
/// constant time, and `clear` takes time in what was found.
#[derive(Drop)]
pub struct Found<A: Allocator = Global> {
    /// Every index below it has a mark.
    size: usize,
    /// A bit for each index: whether the entity was found.
    words: Vec<u64, A>,
    /// Those that were found. It has room for as many as there are marks, which nothing needs to fill.
    order: Vec<u32, A>,
}

impl<A: Allocator> Model for Found<A> {
    ghost use Rattle.std.specs.Prelude.{◌≤◌, vec_capacity};
    ghost use Rattle.rel_travel.specs.Finds.{AreMarked, Finds};

    ghost Value = { Finds };

    ghost view = { λ f. record { size = f.size; items = f.order.items } };

    ghost invariant = { λ f. AreMarked f.size f.words.items f.order.items × (f.size ≤ vec_capacity f.order) };
}

/// The number of the word in which an index has its mark.
fn word_of(index: u32) -> usize
    ensures { result ≡ index / 64 }
{
    (index / MARKS) as usize
}

/// The bit of an index in its word.
fn bit_of(index: u32) -> u64
    ensures { result ≡ 2 ^ (index % 64) }
{
    1 << (index % MARKS)
}

/// Whether an index is marked.
fn is_marked(words: &[u64], index: u32) -> bool
    requires { index / 64 < length words.now }
    ensures { result ≡ is_marked words.now index }
{
    words[word_of(index)] & bit_of(index) != 0
}

/// So many words without marks.
fn blank_block() -> &'static [u64]
    ensures { result.now ≡ replicate 256 0 }
{
    &BLANK
}

/// Adds words without marks, up to so many. There is room for them.
///
/// It copies blocks, where `resize` writes word by word.
fn add_blank<A: Allocator>(words: &mut Vec<u64, A>, count: usize)
    requires longer { vec_len words.old ≤ count }
    requires room { count ≤ vec_capacity words.old }
    ensures { words.new.items ≡ words.old.items ++ replicate (count - vec_len words.old) 0 }
{
    let blank = blank_block();
    while words.len() < count {
        let more = (count - words.len()).min(BLOCK);
        words.extend_from_slice(&blank[..more]).unwrap();
    }
}

impl<A: Allocator + Copy> Found<A> {
    /// Nothing found, and room for nothing.
    pub fn new(alloc: A) -> Self
        ensures { result ≡ none_found 0 }
    {
        Found {
            size: 0,
            words: Vec::new(alloc),
            order: Vec::new(alloc),
        }
    }

    /// Makes room for all indexes below a number, where there is less. Where memory is refused, the room that was there
    /// stays.
    pub fn reserve(&mut self, size: u32) -> Result<(), AllocError>
        ensures items { self.new.items ≡ self.old.items }
        ensures ok { OnOk result (self.new.size ≡ max self.old.size size) }
        ensures err { OnErr result (self.new.size ≡ self.old.size) }
    {
        let size = size as usize;
        if self.size < size {
            let words = size.div_ceil(MARKS as usize);
            self.order.reserve(size - self.order.len())?;
            self.words.reserve(words - self.words.len())?;
            add_blank(&mut self.words, words);
            self.size = size;
        }
        Ok(())
    }
}

impl<A: Allocator> Found<A> {
    /// Whether an entity was found.
    pub fn is_found(&self, index: u32) -> bool
        requires { index < self.now.size }
        ensures { result ≡ is_among self.now.items index }
    {
        is_marked(self.words.as_slice(), index)
    }

    /// How many entities were found.
    pub fn len(&self) -> usize
        ensures count { result ≡ length self.now.items }
        ensures fits { result ≤ self.now.size }
        ensures once { IsDistinct ◌==◌ self.now.items }
    {
        self.order.len()
    }

    /// Every index below it fits.
    pub fn size(&self) -> usize
        ensures { result ≡ self.now.size }
    {
        self.size
    }

    /// The entities that were found.
    pub fn as_slice(&self) -> &[u32]
        ensures items { result.now ≡ self.now.items }
        ensures once { IsDistinct ◌==◌ self.now.items }
    {
        self.order.as_slice()
    }

    /// The entity that was found as one of the first, counted from 0.
    pub fn at(&self, place: usize) -> u32
        requires { place < length self.now.items }
        ensures { result ≡ slice_index self.now.items place }
    {
        self.order[place]
    }

    /// Adds an entity at the end, if it wasn't found yet.
    pub fn add(&mut self, index: u32)
        requires { index < self.old.size }
        ensures size { self.new.size ≡ self.old.size }
        ensures items { self.new.items ≡ with_find self.old.items index }
        ensures fits { length self.new.items ≤ self.new.size }
    {
        if !is_marked(self.words.as_slice(), index) {
            self.words[word_of(index)] |= bit_of(index);
            self.order.push(index).unwrap();
        }
    }

    /// Forgets what was found.
    pub fn clear(&mut self)
        ensures { self.new ≡ none_found self.old.size }
    {
        'marks: while let Some(last) = self.order.pop() {
            // All others are forgotten too, so the whole word is cleared.
            self.words[word_of(last)] = 0;
        }
    }
}
