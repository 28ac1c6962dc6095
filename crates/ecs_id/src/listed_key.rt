//! Keys of tables in few bytes.
//!
//! ```text
//! let Some(listed) = ListedKey::of(key) else {
//!     return Err(AllocError);
//! };
//! keys.push(listed)?;
//! ```

ghost use Rattle.std.specs.Prelude.{◌≡◌, ◌↔◌, ◌<◌, ◌^◌, IfSome, IsSome};

use crate::TableKey;
use std::marker::Model;

/// The key of a table in 12 bytes, as lists hold it, where its serial has no more than 64 bits. A `TableKey` takes 32,
/// since a `u128` lies at a multiple of 16.
#[derive(Clone, Copy)]
pub struct ListedKey {
    slot: u32,
    // the halves of the serial: two words, since a `u64` would lie at a multiple of 8
    low: u32,
    high: u32,
}

const _: () = prove!(size_of::<ListedKey>() == 12);

const HALF: u128 = 1 << 32;

const SHIFT: u64 = 1 << 32;

// No serial of a key that is listed is as great.
const LIMIT: u128 = 1 << 64;

impl Model for ListedKey {
    ghost use Rattle.std.specs.Prelude.{◌+◌, ◌*◌, ◌/◌, ◌%◌, ◌^◌, ◌<◌};
    ghost use Rattle.ecs_id.specs.declared.TableKey.{TableKey};
    ghost use Rattle.ecs_id.specs.Halves.{high_given_back, low_given_back};

    ghost Value = { TableKey };

    ghost view = { λ k. record { slot = k.slot; serial = k.low + k.high * 2 ^ 32 } };

    ghost invariant = { λ k. k.low < 2 ^ 32 };

    ghost inverse = { λ key. record { slot = key.slot; low = key.serial % 2 ^ 32; high = key.serial / 2 ^ 32 } };

    ghost inverse_ok = { λ k h i. record {
      slot = k.slot;
      low = low_given_back k.low k.high h i;
      high = high_given_back k.low k.high h i;
    } };
}

impl ListedKey {
    /// The key in this form, if its serial is below 2^64.
    #[tactic(auto, using(crate::specs::Halves::halves))]
    pub fn of(key: TableKey) -> Option<ListedKey>
        ensures exact { IsSome result ↔ (key.serial < 2 ^ 64) }
        ensures value { IfSome result (λ listed. listed ≡ key) }
    {
        if key.serial >= LIMIT {
            return None;
        }
        Some(ListedKey {
            slot: key.slot,
            low: (key.serial % HALF) as u32,
            high: (key.serial / HALF) as u32,
        })
    }

    /// The key itself.
    pub fn key(self) -> TableKey
        ensures { result ≡ self }
    {
        TableKey {
            slot: self.slot,
            serial: u128::from(self.low) + u128::from(self.high) * HALF,
        }
    }

    /// The slot of the table.
    pub fn slot(self) -> u32
        ensures { result ≡ self.slot }
    {
        self.slot
    }

    /// The serial of the table, which fits 64 bits.
    pub fn serial(self) -> u64
        ensures { result ≡ self.serial }
    {
        u64::from(self.low) + u64::from(self.high) * SHIFT
    }
}
