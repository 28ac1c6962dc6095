//! Numbers as the bits of words.

ghost use Rattle.std.specs.Prelude.{◌≡◌, ◌↔◌, ◌∷◌, ◌++◌, ◌/◌, ◌==◌, [], ℕ, All, IfErr, IfOk, IsTrue, OnOk, cond, true};
ghost use Rattle.std.specs.List.{AllPairs};
ghost use Rattle.watch_index.specs.Listed.{Loses, has};
ghost use Rattle.watch_index.specs.Words.{Fits, IsBefore, IsPlaceFor, IsWordOf, numbers_in, numbers_of};

use short_list::ShortNumbers;
use std::alloc::{AllocError, Allocator};

/// The numbers of one block of 64 whose bits are set. Number `n` belongs to block `n / 64`, as bit `n % 64`.
#[derive(Clone, Copy)]
pub struct Word {
    block: u64,
    bits: u64,
}

impl Word {
    /// A word with exactly this number.
    pub fn one(number: u64) -> Self
        ensures block { result.block ≡ number / 64 }
        ensures fits { Fits result }
        ensures numbers { numbers_of result ≡ number ∷ [] }
    {
        Word {
            block: number / 64,
            bits: 1u64 << (number % 64),
        }
    }

    /// The word with one more number of its block.
    pub fn with(self, number: u64) -> Self
        requires block { self.block ≡ number / 64 }
        ensures block { result.block ≡ self.block }
        ensures numbers { (n : ℕ) → has (numbers_of result) n ≡ cond (number == n) true (has (numbers_of self) n) }
    {
        Word {
            block: self.block,
            bits: self.bits | 1u64 << (number % 64),
        }
    }

    /// The word without a number of its block.
    pub fn without(self, number: u64) -> Self
        requires block { self.block ≡ number / 64 }
        ensures block { result.block ≡ self.block }
        ensures numbers { Loses (numbers_of self) (numbers_of result) number }
    {
        Word {
            block: self.block,
            bits: self.bits & !(1u64 << (number % 64)),
        }
    }

    /// Whether the word has no number.
    pub fn is_empty(self) -> bool
        ensures { IsTrue result ↔ (numbers_of self ≡ []) }
    {
        self.bits == 0
    }
}

/// The place of a block's word among these, or the place where it would go.
pub fn find(words: &[Word], block: u64) -> Result<usize, usize>
    requires { AllPairs IsBefore words.now }
    ensures found { IfOk result (IsWordOf words.now block) }
    ensures missing { IfErr result (IsPlaceFor words.now block) }
{
    words.binary_search_by_key(&block, |word| word.block)
}

/// Appends the numbers of words to a list.
pub fn push_all<A: Allocator + Copy>(
    words: &[Word],
    alloc: A,
    numbers: &mut ShortNumbers<A>,
) -> Result<(), AllocError>
    requires { All Fits words.now }
    ensures { OnOk result (numbers.new.items ≡ numbers.old.items ++ numbers_in words.now) }
{
    for word in words {
        push_word(*word, alloc, numbers)?;
    }
    Ok(())
}

/// Appends the numbers of a word to a list, in ascending order.
#[inline(always)]
fn push_word<A: Allocator + Copy>(
    word: Word,
    alloc: A,
    numbers: &mut ShortNumbers<A>,
) -> Result<(), AllocError>
    requires { Fits word }
    ensures { OnOk result (numbers.new.items ≡ numbers.old.items ++ numbers_of word) }
{
    let mut left = word.bits;
    'bits: while left != 0 {
        let bit = left.trailing_zeros();
        left &= !(1u64 << bit);
        numbers.push(alloc, word.block * 64 + u64::from(bit))?;
    }
    Ok(())
}
