//! Where tables stand in long lists.
use std::alloc::{AllocError, Allocator};
use std::hash::{BuildHasher, RandomState};

// How many places of tables that are gone are kept at least before those of the others move together.
const SPARE: usize = 64;

// The slot of a head whose table is gone. Its number is above that of each slot.
const NO_SLOT: u32 = u32::MAX;

// The number of the head of a slot whose table has no places.
const NO_HEAD: u32 = u32::MAX;

const SHIFT: u64 = 1 << 32;

/// Where a table stands in a list, of whose word the half is left that a multiplication by a secret number mixes most.
#[derive(Clone, Copy)]
struct ListPlace {
    half: u32,
    at: u32,
}

/// Where the places of the table of a slot begin. They end where those of the next head begin.
#[derive(Clone, Copy)]
struct Head {
    slot: u32,
    start: u32,
}

/// Which places are those of a table: so many, from one on.
#[derive(Clone, Copy)]
struct Range {
    start: usize,
    count: usize,
}

const NONE: Range = Range { start: 0, count: 0 };

/// For tables, by slot, where they stand in their long lists, in the order in which they came into these.
///
/// Who reads a place checks whether the table stands there: so no list depends on what is noted here, but only how fast
/// it loses a table.
#[derive(Drop)]
pub struct Places<A: Allocator> {
    // Those of one table stand together, since a table comes into all its lists at once.
    places: Vec<ListPlace, A>,
    heads: Vec<Head, A>,
    // by slot the number of the head
    by_slot: Vec<u32, A>,
    // how many places are of tables that are gone
    gone: usize,
    // how many places were passed of those of the table that leaves
    passed: usize,
    // By this number words are multiplied, so that nobody who chooses the ids of a table chooses lists of one half.
    secret: u64,
}

impl<A: Allocator> Places<A> {
    /// No places, which take no memory. The words of lists are distinguished by these random keys.
    pub fn new(alloc: A, random: RandomState) -> Places<A>
    where
        A: Copy,
    {
        Places {
            places: Vec::new(alloc),
            heads: Vec::new(alloc),
            by_slot: Vec::new(alloc),
            gone: 0,
            passed: 0,
            // (an odd number, by which two words have one product only where they are one)
            secret: random.hash_one(3u64) | 1,
        }
    }

    /// Notes where the table of a slot, which enters, stands in a list.
    pub fn note(&mut self, slot: u32, word: u64, at: usize) -> Result<(), AllocError> {
        if !self.is_last(slot) {
            self.begin(slot)?;
        }
        let half = self.half_of(word);
        let at = u32::try_from(at).unwrap_or(u32::MAX);
        list_growth::push(&mut self.places, ListPlace { half, at })?;
        Ok(())
    }

    /// Where the table of a slot, which leaves, was noted to stand in a list. Lists are asked for in the order in which
    /// they were noted.
    pub fn next(&mut self, slot: u32, word: u64) -> Option<usize> {
        let half = self.half_of(word);
        let range = self.range_of(slot);
        for passed in self.passed..range.count {
            let place = self.places.get(range.start.saturating_add(passed))?;
            if place.half == half {
                self.passed = passed + 1;
                return Some(place.at as usize);
            }
        }
        None
    }

    /// Notes the new place of the table of a slot in a list, where it had one.
    pub fn moved(&mut self, slot: u32, word: u64, at: usize) {
        let half = self.half_of(word);
        let range = self.range_of(slot);
        for index in 0..range.count {
            match self.places.get_mut(range.start.saturating_add(index)) {
                Some(place) if place.half == half => {
                    place.at = u32::try_from(at).unwrap_or(u32::MAX);
                    return;
                }
                _ => {}
            }
        }
    }

    /// Forgets the places of the table of a slot, which has left its lists.
    pub fn forget(&mut self, slot: u32) {
        self.passed = 0;
        let number = self.number_of(slot);
        let range = self.range_of(slot);
        if let Some(head) = self.heads.get_mut(number as usize) {
            head.slot = NO_SLOT;
        }
        set_number(&mut self.by_slot, slot, NO_HEAD);
        self.gone = self.gone.saturating_add(range.count);
        self.drop_last();
        if self.gone > SPARE && self.gone > self.places.len() / 2 {
            self.close_up();
        }
    }

    // Whether the table of the slot has the last places.
    fn is_last(&self, slot: u32) -> bool {
        match self.heads.last() {
            Some(head) => head.slot == slot,
            None => false,
        }
    }

    // Makes the list by slot long enough.
    #[inline(never)]
    fn lengthen(&mut self, slot: u32) -> Result<(), AllocError> {
        self.by_slot.resize(slot as usize + 1, NO_HEAD)
    }

    // Begins the places of the table of a slot.
    fn begin(&mut self, slot: u32) -> Result<(), AllocError> {
        let index = slot as usize;
        if self.by_slot.len() <= index {
            self.lengthen(slot)?;
        }
        let number = u32::try_from(self.heads.len()).unwrap_or(NO_HEAD);
        let start = u32::try_from(self.places.len()).unwrap_or(u32::MAX);
        list_growth::push(&mut self.heads, Head { slot, start })?;
        set_number(&mut self.by_slot, slot, number);
        Ok(())
    }

    // Takes away the last places, where their table is gone: so nothing is left of a table that could not be entered.
    fn drop_last(&mut self) {
        if !self.is_last(NO_SLOT) {
            return;
        }
        let number = self.heads.len().saturating_sub(1);
        let range = self.range_at(number);
        self.heads.pop();
        self.places.truncate(range.start);
        self.gone = self.gone.saturating_sub(range.count);
    }

    // Moves the places together that are of tables.
    fn close_up(&mut self) {
        let mut kept_heads = 0;
        let mut kept_places = 0;
        for number in 0..self.heads.len() {
            let slot = self.heads[number].slot;
            if slot == NO_SLOT {
                continue;
            }
            let range = self.range_at(number);
            move_places(&mut self.places, range, kept_places);
            self.heads[kept_heads] = Head {
                slot,
                start: u32::try_from(kept_places).unwrap_or(u32::MAX),
            };
            let kept = u32::try_from(kept_heads).unwrap_or(NO_HEAD);
            set_number(&mut self.by_slot, slot, kept);
            kept_heads += 1;
            kept_places = kept_places.saturating_add(range.count);
        }
        self.heads.truncate(kept_heads);
        self.places.truncate(kept_places);
        self.gone = 0;
    }

    fn half_of(&self, word: u64) -> u32 {
        (word.wrapping_mul(self.secret) / SHIFT) as u32
    }

    fn number_of(&self, slot: u32) -> u32 {
        match self.by_slot.get(slot as usize) {
            Some(number) => *number,
            None => NO_HEAD,
        }
    }

    fn range_of(&self, slot: u32) -> Range {
        self.range_at(self.number_of(slot) as usize)
    }

    // The places of the table of a head.
    fn range_at(&self, number: usize) -> Range {
        let Some(head) = self.heads.get(number) else {
            return NONE;
        };
        let start = head.start as usize;
        let end = match self.heads.get(number.saturating_add(1)) {
            Some(next) => next.start as usize,
            None => self.places.len(),
        };
        Range {
            start,
            count: end.saturating_sub(start),
        }
    }
}

fn set_number<A: Allocator>(by_slot: &mut Vec<u32, A>, slot: u32, number: u32) {
    if let Some(old) = by_slot.get_mut(slot as usize) {
        *old = number;
    }
}

// Moves the places of a table to others, from one on, which are not after them.
fn move_places<A: Allocator>(places: &mut Vec<ListPlace, A>, range: Range, start: usize) {
    for index in 0..range.count {
        let Some(&place) = places.get(range.start.saturating_add(index)) else {
            return;
        };
        if let Some(other) = places.get_mut(start.saturating_add(index)) {
            *other = place;
        }
    }
}
