//! Random keys that the caller gives.

use std::alloc::AllocError;
use std::hash::RandomState;
use std::io;
use std::random::RandomSource;

/// Sixteen bytes that the caller gives, as two numbers.
#[derive(Drop)]
struct Seed {
    low: u64,
    high: u64,
}

impl RandomSource for Seed {
    /// Gives at most sixteen bytes, which are all that the keys of a map take.
    fn fill_bytes(&self, buf: &mut [u8]) -> io::Result<()> {
        let both = u128::from(self.high) << 64 | u128::from(self.low);
        let bytes = both.to_le_bytes();
        let count = buf.len().min(16);
        buf[..count].copy_from_slice(&bytes[..count]);
        Ok(())
    }
}

/// The keys of these sixteen bytes.
pub(crate) fn random(low: u64, high: u64) -> Result<RandomState, AllocError> {
    let seed = Seed { low, high };
    match RandomState::new(&seed) {
        Ok(random) => Ok(random),
        Err(_) => Err(AllocError),
    }
}
