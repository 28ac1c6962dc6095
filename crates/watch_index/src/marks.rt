//! A mark for each occasion that some stored query listens for.
ghost use Rattle.std.specs.Prelude.{◌≡◌, ◌<◌, ◌≤◌, ◌==◌, ◌||◌, ℕ, false};
ghost use Rattle.watch_index.specs.Listed.{shares_mark};
ghost use Rattle.ecs_model.specs.BitWords.{has_bit};
ghost use Rattle.watch_index.specs.Marks.{mark_of, number_of, second_number, way_number};
ghost use Rattle.watch_index.specs.declared.occasion.Occasion.{Occasion as Awaited};

use crate::occasion::{Occasion, Way};
use id_pattern::{Part, Pattern};

/// Marks of occasions, where several occasions may share one. If the mark of an occasion isn't set, no stored query
/// listens for it.
///
/// To test a mark takes a handful of instructions, and no hash.
#[derive(Clone, Copy)]
pub struct Marks {
    /// Mark `m` is bit `m % 64` of word `m / 64`.
    pub words: [u64; 64],
}

impl Marks {
    /// Marks of which none is set.
    pub fn none() -> Self
        ensures { (o : Awaited) → has_bit result.words (mark_of o) ≡ false }
    {
        Marks { words: [0; 64] }
    }

    /// Whether the mark of an occasion is set.
    #[inline(always)]
    pub fn has(&self, occasion: &Occasion) -> bool
        ensures { result ≡ has_bit self.now.words (mark_of occasion.now) }
    {
        let mark = mark_of(occasion);
        self.words[(mark / 64) as usize] >> (mark % 64) & 1 == 1
    }

    /// Sets the marks of these occasions, and changes no others.
    pub fn set_all(&mut self, occasions: &[Occasion])
        ensures { (m : ℕ) → has_bit self.new.words m ≡ (has_bit self.old.words m || shares_mark occasions.now m) }
    {
        for occasion in occasions {
            let mark = mark_of(occasion);
            self.set(mark);
        }
    }

    fn set(&mut self, mark: u32)
        requires { mark < 4096 }
        ensures { (m : ℕ) → has_bit self.new.words m ≡ (m == mark || has_bit self.old.words m) }
    {
        self.words[(mark / 64) as usize] |= 1u64 << (mark % 64);
    }
}

/// The mark of an occasion. Consecutive indexes, and most others, are spread over all marks.
#[inline(always)]
fn mark_of(occasion: &Occasion) -> u32
    ensures mark { result ≡ mark_of occasion.now }
    ensures few { result < 4096 }
{
    match occasion {
        Occasion::Life => 0,
        Occasion::AskedByAll => 1,
        Occasion::Fact(way, pattern) => {
            let mixed = number_of(pattern.first) * 663_608_941
                + second_number(pattern) * 444_758_425
                + way_number(*way);
            (mixed / 262_144 % 4096) as u32
        }
    }
}

#[inline(always)]
fn way_number(way: Way) -> u64
    ensures number { result ≡ way_number way }
    ensures few { result ≤ 536870912 }
{
    match way {
        Way::Moves => 0,
        Way::IsWritten => 536_870_912,
    }
}

#[inline(always)]
fn second_number(pattern: &Pattern) -> u64
    ensures number { result ≡ second_number pattern.now.second }
    ensures few { result ≤ 4294967297 }
{
    match pattern.second {
        None => 4_294_967_297,
        Some(part) => number_of(part),
    }
}

#[inline(always)]
fn number_of(part: Part) -> u64
    ensures number { result ≡ number_of part }
    ensures few { result ≤ 4294967296 }
{
    match part {
        Part::Is(index) => u64::from(index),
        Part::Any => 4_294_967_296,
    }
}
