//! How the keys of indexes are hashed that scripts choose.
//!
//! ```text
//! let hashing = Hashing::new(RandomState::new(&rt)?);
//! let mut by_ids: IndexMap<Vec<Id>, u32, Hashing> = IndexMap::with_hasher(rt.alloc(), hashing);
//! ```
#![tactic(auto)]

ghost use Rattle.std.specs.Hash as fed;
ghost use Rattle.std.specs.Hash.FoldHasher as folding;

use std::hash::{BuildHasher, FoldHasher, Hasher, RandomState};

/// Hashes by multiplications that begin and end with secret numbers.
///
/// An author of scripts chooses what keys are made of, but writes before the numbers are drawn, and no answer depends
/// on them.
#[derive(Clone, Copy)]
pub struct Hashing {
    begun: FoldHasher,
    secret: u128,
}

impl Hashing {
    /// The secret numbers are those that the random keys make of 0, 1 and 2.
    pub fn new(random: RandomState) -> Hashing {
        let mut begun = FoldHasher::default();
        begun.write_u64(random.hash_one(0u64));
        let low = u128::from(random.hash_one(1u64));
        let high = u128::from(random.hash_one(2u64));
        Hashing {
            begun,
            secret: high << 64 | low,
        }
    }
}

impl BuildHasher for Hashing {
    type Hasher = SecretHasher;

    ghost build_hasher = { λ s. record { folded = s.begun; secret = s.secret } };

    fn build_hasher(&self) -> SecretHasher {
        SecretHasher {
            folded: self.begun,
            secret: self.secret,
        }
    }
}

/// Folds in what is written, and at the end the secret, by which the last factor is secret too.
#[derive(Clone, Copy)]
pub struct SecretHasher {
    folded: FoldHasher,
    secret: u128,
}

impl Hasher for SecretHasher {
    ghost use Rattle.std.specs.Prelude.{fold};

    ghost write = { λ s bytes. record s { folded = folding.write s.folded bytes } };

    ghost finish = { λ s. folding.finish (fold folding.write s.folded (fed.u128 s.secret)) };

    fn finish(&self) -> u64 {
        let mut last = self.folded;
        last.write_u128(self.secret);
        last.finish()
    }

    fn write(&mut self, bytes: &[u8]) {
        self.folded.write(bytes);
    }
}
