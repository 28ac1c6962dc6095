//! How names are hashed.

use std::hash::{BuildHasher, FoldHasher, Hasher, RandomState};

/// Makes hashers that all begin where random keys led.
///
/// They are std's fast ones, which elsewhere begin where everybody knows. On short names those of `RandomState` take
/// several times as long.
#[derive(Clone, Copy)]
pub(crate) struct Keyed {
    start: FoldHasher,
}

impl Keyed {
    /// Nobody who chooses names knows where hashers begin that come of random keys.
    pub(crate) fn new(random: RandomState) -> Keyed {
        let mut start = FoldHasher::default();
        start.write_u64(random.build_hasher().finish());
        Keyed { start }
    }
}

impl BuildHasher for Keyed {
    type Hasher = FoldHasher;

    ghost build_hasher = { λ s. s.start };

    fn build_hasher(&self) -> FoldHasher {
        self.start
    }
}
