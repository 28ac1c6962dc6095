//! Places in few bytes.
ghost use Rattle.std.specs.Prelude.{◌≡◌};
ghost use Rattle.std.specs.Int.{w64, from_le_bytes};

use ecs_id::{Place, TableKey};
use std::marker::Model;

/// A place in 28 bytes. A `Place` itself takes 48, since a `u128` lies at a multiple of 16 bytes.
///
/// The serial stands in two words: the sixteen bytes of one number would be put together one by one.
#[derive(Drop)]
pub struct PackedPlace {
    low: [u8; 8],
    high: [u8; 8],
    row: [u8; 8],
    slot: u32,
}

const _: () = prove!(size_of::<Option<PackedPlace>>() == 32);

const SHIFT: u128 = 1 << 64;

impl Model for PackedPlace {
    ghost use Rattle.std.specs.Prelude.{◌+◌, ◌*◌, ◌^◌};
    ghost use Rattle.std.specs.Int.{w64, from_le_bytes};
    ghost use Rattle.ecs_id.specs.declared.Place.{Place};

    ghost Value = { Place };

    ghost view = { λ p. record {
      table = record { slot = p.slot; serial = from_le_bytes w64 p.low + from_le_bytes w64 p.high * 2 ^ 64 };
      row = from_le_bytes w64 p.row;
    } };
}

impl PackedPlace {
    #[tactic(auto, using(crate::proofs::Bytes::halves))]
    pub fn new(place: Place) -> PackedPlace
        ensures { result ≡ place }
    {
        let serial = place.table.serial;
        PackedPlace {
            low: word_bytes((serial % SHIFT) as u64),
            high: word_bytes((serial / SHIFT) as u64),
            row: row_bytes(place.row),
            slot: place.table.slot,
        }
    }

    pub fn place(&self) -> Place
        ensures { result ≡ self.now }
    {
        let low = u128::from(u64::from_le_bytes(self.low));
        let high = u128::from(u64::from_le_bytes(self.high));
        Place {
            table: TableKey {
                slot: self.slot,
                serial: low + high * SHIFT,
            },
            row: usize::from_le_bytes(self.row),
        }
    }
}

/// The place that is kept, if there is one.
pub fn unpacked(kept: &Option<PackedPlace>) -> Option<Place>
    ensures { result ≡ kept.now }
{
    match kept {
        Some(packed) => Some(packed.place()),
        None => None,
    }
}

#[tactic(auto, using(crate::proofs::Bytes::read_back_8))]
fn word_bytes(word: u64) -> [u8; 8]
    ensures { from_le_bytes w64 result ≡ word }
{
    word.to_le_bytes()
}

#[tactic(auto, using(crate::proofs::Bytes::read_back_8))]
fn row_bytes(row: usize) -> [u8; 8]
    ensures { from_le_bytes w64 result ≡ row }
{
    row.to_le_bytes()
}
