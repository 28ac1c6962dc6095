//! Going through the tables by their serials.
ghost use Rattle.std.specs.Prelude.{◌≡◌};
ghost use Rattle.std.specs.List.{filter};
ghost use Rattle.table_store.specs.Kept.{is_held};

use crate::store::{Slots, stands};
use ecs_id::{ListedKey, TableKey};
use std::alloc::{Allocator, Global};
use std::marker::Model;

/// The keys of tables by rising serial, from `TableStore::since`.
#[derive(Drop)]
pub struct Since<'a, A: Allocator = Global> {
    tables: &'a Slots<A>,
    // keys of released tables may be among them, which are passed over
    rest: &'a [ListedKey],
}

impl<'a, A: Allocator> Model for Since<'a, A> {
    ghost use Rattle.std.specs.Prelude.{List};
    ghost use Rattle.std.specs.List.{filter};
    ghost use Rattle.ecs_id.specs.declared.TableKey.{TableKey};
    ghost use Rattle.table_store.specs.Kept.{is_held};

    ghost Value = { List TableKey };

    ghost view = { λ it. filter (is_held it.tables.now) it.rest.now };
}

impl<'a, A: Allocator> Since<'a, A> {
    /// Those of the keys under which tables stand.
    pub(crate) fn new(tables: &'a Slots<A>, keys: &'a [ListedKey]) -> Since<'a, A>
        ensures { result ≡ filter (is_held tables.now) keys.now }
    {
        Since { tables, rest: keys }
    }
}

impl<'a, A: Allocator> Iterator for Since<'a, A> {
    type Item = TableKey;

    ghost use Rattle.std.specs.Iterator.{YieldsFirst, item_count};

    ghost next_gives = { YieldsFirst (λ it. it) };

    ghost remaining = { item_count (λ it. it) };

    fn next(&mut self) -> Option<TableKey> {
        while let Some((key, rest)) = self.rest.split_first() {
            self.rest = rest;
            let key = key.key();
            if stands(self.tables, key) {
                return Some(key);
            }
        }
        None
    }
}
