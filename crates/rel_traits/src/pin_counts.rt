//! The counts.

ghost use Rattle.std.specs.Prelude.{◌≡◌, ◌<◌, ◌≤◌, ℕ, [], OnErr, OnOk, length, slice_index_or, vec_capacity};
ghost use Rattle.ecs_model.specs.Map.{count_at};
ghost use Rattle.ecs_model.specs.steps.Pins.{with_count};

use std::alloc::{AllocError, Allocator, Global};
use std::marker::Model;

/// How many stored queries mention each entity, by its index. It has room for 8 bytes for each index up to the greatest
/// that was covered, and fills it up to the greatest whose count was kept.
#[derive(Drop)]
pub struct PinCounts<A: Allocator = Global> {
    // by index; each after them is 0
    counts: Vec<u64, A>,
    // how many indexes are covered: there is room for so many counts
    reach: usize,
}

impl<A: Allocator> Model for PinCounts<A> {
    ghost use Rattle.std.specs.Prelude.{◌≤◌, vec_capacity};
    ghost use Rattle.rel_traits.specs.PinCounts.{Counts, counts_of};

    ghost Value = { Counts };

    ghost view = { λ pins. counts_of pins.counts.items pins.reach };

    ghost invariant = { λ pins. pins.reach ≤ vec_capacity pins.counts };
}

impl<A: Allocator> PinCounts<A> {
    /// No entity is mentioned, and no index is covered.
    pub fn new(alloc: A) -> Self
        ensures { result.entries ≡ [] }
    {
        PinCounts {
            counts: Vec::new(alloc),
            reach: 0,
        }
    }

    /// Makes room for the count of an index, and of each below it. No count changes.
    ///
    /// Fails where memory is refused, and then nothing changes.
    pub fn cover(&mut self, index: u32) -> Result<(), AllocError>
        ensures entries { self.new.entries ≡ self.old.entries }
        ensures further { self.old.reach ≤ self.new.reach }
        ensures covers { OnOk result (index < self.new.reach) }
        ensures err { OnErr result (self.new ≡ self.old) }
    {
        let place = index as usize;
        if place < self.reach {
            return Ok(());
        }
        let covered = place + 1;
        let more = covered.saturating_sub(self.counts.len());
        self.counts.reserve(more)?;
        self.reach = covered;
        Ok(())
    }

    /// How many stored queries mention the entity of an index: none, where the index isn't covered.
    pub fn count(&self, index: u32) -> u64
        ensures { result ≡ count_at self.now.entries index }
    {
        let place = index as usize;
        if place < self.counts.len() {
            self.counts[place]
        } else {
            0
        }
    }

    /// Keeps how many stored queries mention the entity of an index that is covered. It takes no memory.
    pub fn set_count(&mut self, index: u32, count: u64)
        requires covered { index < self.old.reach }
        ensures entries { self.new.entries ≡ with_count self.old.entries index count }
        ensures reach { self.new.reach ≡ self.old.reach }
    {
        let place = index as usize;
        fill(&mut self.counts, place);
        self.counts[place] = count;
    }
}

// Appends counts of 0 until there is one at a place, for which there is room.
fn fill<A: Allocator>(counts: &mut Vec<u64, A>, place: usize)
    requires { place < vec_capacity counts.old }
    ensures within { place < length counts.new.items }
    ensures same { (i : ℕ) → slice_index_or counts.new.items i 0 ≡ slice_index_or counts.old.items i 0 }
    ensures capacity { vec_capacity counts.old ≤ vec_capacity counts.new }
{
    if counts.len() <= place {
        counts.resize(place + 1, 0).unwrap();
    }
}
