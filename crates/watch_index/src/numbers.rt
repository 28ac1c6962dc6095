//! The numbers of the stored queries that listen for one occasion.
ghost use Rattle.std.specs.Prelude.{◌≡◌, ◌==◌, ◌∷◌, ◌++◌, [], ℕ, true, cond, IfOk, IsTrue, OnErr, OnOk, ◌↔◌, length};
ghost use Rattle.watch_index.specs.Listed.{Loses, has};

use crate::words::{Word, find, push_all};
use short_list::ShortNumbers;
use std::alloc::{AllocError, Allocator};
use std::marker::Model;

/// Numbers in ascending order without duplicates, kept as the bits of words. A word is moved only when another one
/// comes or goes.
#[derive(Drop)]
pub struct Numbers<A: Allocator> {
    // No word is empty, and their blocks ascend.
    words: Vec<Word, A>,
}

impl<A: Allocator> Model for Numbers<A> {
    ghost use Rattle.std.specs.Prelude.{List, ℕ};
    ghost use Rattle.watch_index.specs.Words.{AreWords, numbers_in};

    ghost Value = { List ℕ };

    ghost view = { λ n. numbers_in n.words.items };

    ghost invariant = { λ n. AreWords n.words.items };
}

impl<A: Allocator> Numbers<A> {
    /// Exactly this number.
    pub fn one(alloc: A, number: u64) -> Result<Self, AllocError>
        ensures { IfOk result (λ numbers. numbers ≡ number ∷ []) }
    {
        let mut words = Vec::with_capacity(alloc, 1)?;
        words.push(Word::one(number))?;
        Ok(Numbers { words })
    }

    pub fn is_empty(&self) -> bool
        ensures { IsTrue result ↔ (length self.now ≡ 0) }
    {
        self.words.is_empty()
    }

    /// Adds a number, unless it is there. Fails where memory is refused; then nothing has changed.
    pub fn insert(&mut self, number: u64) -> Result<(), AllocError>
        ensures inserted { OnOk result ((n : ℕ) → has self.new n ≡ cond (number == n) true (has self.old n)) }
        ensures refused { OnErr result (self.new ≡ self.old) }
    {
        match find(self.words.as_slice(), number / 64) {
            Ok(place) => {
                let word = self.words[place];
                self.words[place] = word.with(number);
                Ok(())
            }
            Err(place) => {
                self.words.insert(place, Word::one(number))?;
                Ok(())
            }
        }
    }

    /// Removes a number, if it is there.
    pub fn remove(&mut self, number: u64)
        ensures { Loses self.old self.new number }
    {
        if let Ok(place) = find(self.words.as_slice(), number / 64) {
            let word = self.words[place];
            let left = word.without(number);
            if left.is_empty() {
                self.words.remove(place);
            } else {
                self.words[place] = left;
            }
        }
    }
}

impl<A: Allocator + Copy> Numbers<A> {
    /// Appends the numbers to a list.
    pub fn push_to(&self, alloc: A, numbers: &mut ShortNumbers<A>) -> Result<(), AllocError>
        ensures { OnOk result (numbers.new.items ≡ numbers.old.items ++ self.now) }
    {
        push_all(self.words.as_slice(), alloc, numbers)
    }
}
