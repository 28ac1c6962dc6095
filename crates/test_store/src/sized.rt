//! A store whose ids keep their sizes, so that the tests can ask it for any table.
ghost use Rattle.std.specs.Prelude.{◌≡◌, ◌≤◌};
ghost use Rattle.test_store.specs.Sizes.{IsSized, bytes_of};

use ecs_id::{Id, TableKey};
use raw_column::Memory;
use std::alloc::Allocator;
use std::hash::RandomState;
use table_store::{SizedId, TableStore};

/// A store in which values of the plain id 64 have 4 bytes, and all other ids are tags.
#[derive(Drop)]
pub struct Sized<A: Allocator> {
    pub store: TableStore<A>,
    ghost sized: { IsSized store },
}

fn bytes(id: Id) -> usize
    ensures value { result ≡ bytes_of id }
    ensures small { result ≤ 64 }
{
    match id.packed() {
        64 => 4,
        _ => 0,
    }
}

impl<A: Allocator + Copy> Sized<A> {
    pub fn new(alloc: A, random: RandomState) -> Sized<A> {
        Sized {
            store: TableStore::new(alloc, random),
        }
    }

    /// The table without ids.
    pub fn root(&mut self) -> Result<TableKey, Memory> {
        self.store.find_or_make(&[])
    }

    /// The table of two ids, by their list.
    pub fn pair(&mut self) -> Result<TableKey, Memory> {
        let (position, tag) = (Id::plain(64), Id::plain(100));
        self.store
            .find_or_make(&[SizedId::new(position, 4), SizedId::tag(tag)])
    }

    /// The table with one more id. Of a key that is gone it answers Memory, which no test expects there.
    pub fn with(&mut self, key: TableKey, id: Id) -> Result<TableKey, Memory> {
        if self.store.get(key).is_none() {
            return Err(Memory);
        }
        self.store.with(key, id, bytes(id))
    }

    /// The table with an id less, likewise.
    pub fn without(&mut self, key: TableKey, id: Id) -> Result<TableKey, Memory> {
        if self.store.get(key).is_none() {
            return Err(Memory);
        }
        self.store.without(key, id)
    }
}
