//! Tables and columns as C sees them, by where their entities and values are.

ghost use Rattle.std.specs.Prelude.{◌≡◌, length};
ghost use denote.RawPtr.{block_ptr};
ghost use Rattle.flecsq_c.specs.Tables.{key_of};

use crate::handle::start_of;
use ecs_id::{EntityId, TableKey};

// An entity is eight bytes for C too: its index, then its generation.
const _: () = prove!(size_of::<EntityId>() == 8);

/// A table: where its entities are, how many they are, and its key.
#[repr(C)]
#[derive(Clone, Copy, Drop)]
pub struct Table {
    pub entities: *const EntityId,
    pub count: usize,
    pub serial_low: u64,
    pub serial_high: u64,
    pub slot: u32,
}

/// The weight of the high half of a serial.
const HALF: u128 = 1 << 64;

impl Table {
    /// The table under a key, which has these entities.
    pub(crate) fn of(key: TableKey, entities: &[EntityId]) -> Table
        ensures key { key_of result ≡ key }
        ensures count { result.count ≡ length entities.now }
    {
        Table {
            entities: start_of_entities(entities),
            count: entities.len(),
            serial_low: (key.serial % HALF) as u64,
            serial_high: (key.serial / HALF) as u64,
            slot: key.slot,
        }
    }

    /// Its key.
    pub(crate) fn key(&self) -> TableKey
        ensures { result ≡ key_of self.now }
    {
        TableKey {
            slot: self.slot,
            serial: u128::from(self.serial_low) + u128::from(self.serial_high) * HALF,
        }
    }
}

/// The values of an id in a table: where they are, how many bytes they have, and how many one value has.
#[repr(C)]
#[derive(Clone, Copy, Drop)]
pub struct Column {
    pub at: *const u8,
    pub len: usize,
    pub size: usize,
}

impl Column {
    /// Values of this size.
    pub(crate) fn of(bytes: &[u8], size: usize) -> Column
        ensures len { result.len ≡ length bytes.now }
        ensures size { result.size ≡ size }
    {
        Column {
            at: start_of(bytes),
            len: bytes.len(),
            size,
        }
    }
}

/// Where the first of these entities is.
fn start_of_entities(entities: &[EntityId]) -> *const EntityId
    ensures { result ≡ block_ptr entities.entry.ref_ptr.0 entities.entry.ref_ptr.1 }
{
    entities.as_ptr()
}
