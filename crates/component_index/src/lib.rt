//! Which tables have an id that a pattern matches.
#![tactic(auto)]

ghost use Rattle.std.specs.Prelude.{◌≡◌, ◌↔◌, Contains, None, Some, OnErr, OnOk};
ghost use Rattle.std.specs.List.{IsDistinct};
ghost use Rattle.std.specs.FinMap as finite;
ghost use Rattle.ecs_id.specs.declared.TableKey.{TableKey};
ghost use Rattle.ecs_id.specs.TableKeys.{table_eq};
ghost use Rattle.component_index.specs.Entered.{IsMatched};
ghost use Rattle.component_index.specs.Listings.{listed_in, ListsEntered};
ghost use Rattle.id_pattern.specs.declared.Pattern.{Pattern as Asked};

mod listings;
mod lists;
mod mentions;
mod places;
mod register;
mod table_list;

use crate::lists::{Lists, list_all, unlist_all};
use crate::mentions::{Marks, note_all};
use crate::places::Places;
use crate::register::{Change, Register};
use ecs_id::{Id, ListedKey, TableKey};
use id_pattern::Pattern;
use indexmap::IndexMap;
pub use listings::Listings;
use secret_hashing::Hashing;
use std::alloc::{AllocError, Allocator, Global};
use std::hash::RandomState;
use std::marker::Model;

/// For each pattern, the tables that have an id that it matches.
///
/// But for growth, `enter` and `leave` take time in the number of the table's ids, and not in that of the tables;
/// `tables_of` takes constant time. So it is whichever ids the tables have, since nobody who chooses them knows the
/// random keys. A list of an entity that no table ever mentioned is known to be empty without a look-up. Only `enter`
/// takes memory.
pub struct ComponentIndex<A: Allocator = Global> {
    entered: Register,
    lists: Lists<A>,
    mentioned: Marks<A>,
    places: Places<A>,
}

impl<A: Allocator> Drop for ComponentIndex<A> {
    fn drop(self) {
        let Self {
            entered: _,
            lists: _,
            mentioned: _,
            places: _,
        } = self;
    }
}

impl<A: Allocator> Model for ComponentIndex<A> {
    ghost use Rattle.std.specs.Coded.{coded_list};
    ghost use Rattle.std.specs.FinMap as finite;
    ghost use Rattle.ecs_id.specs.Id.{id_code};
    ghost use Rattle.component_index.specs.Entered.{Entered as Tables, table_code};
    ghost use Rattle.component_index.specs.Listed.{AreListed};
    ghost use Rattle.component_index.specs.Mentions.{AreMarked};

    ghost Value = { Tables };

    ghost coded = { finite.code table_code (coded_list id_code) };

    ghost view = { λ s. s.entered.tables };

    ghost invariant = { λ s. AreListed s.entered.tables s.lists × AreMarked s.mentioned.items s.entered.tables };
}

impl<A: Allocator + Copy> ComponentIndex<A> {
    /// An index without tables, which hashes patterns and tables with these random keys. It takes no memory before the
    /// first table.
    pub fn new(alloc: A, random: RandomState) -> Self
        ensures empty { result ≡ finite.empty }
    {
        ComponentIndex {
            entered: Register::new(),
            lists: IndexMap::with_hasher(alloc, Hashing::new(random)),
            mentioned: Vec::new(alloc),
            places: Places::new(alloc, random),
        }
    }

    /// Enters a table that isn't entered, with its ids.
    ///
    /// Where memory is refused, the index is as it was. So it is refused to a table whose serial is 2^64 or more, which
    /// takes more bits than lists have for it: nobody can make so many tables.
    pub fn enter(&mut self, key: TableKey, ids: &[Id]) -> Result<(), AllocError>
        requires { finite.get self.old key ≡ None }
        ensures entered { OnOk result (self.new ≡ finite.insert self.old key ids.now) }
        ensures refused { OnErr result (self.new ≡ self.old) }
    {
        let Some(listed) = ListedKey::of(key) else {
            return Err(AllocError);
        };
        note_all(&mut self.mentioned, ids)?;
        if let Err(error) = list_all(&mut self.lists, &mut self.places, ids, listed) {
            unlist_all(&mut self.lists, &mut self.places, ids, key);
            self.places.forget(key.slot);
            return Err(error);
        }
        self.entered = self.entered.after(&Change::Enters(key, ids));
        Ok(())
    }
}

impl<A: Allocator> ComponentIndex<A> {
    /// The entered tables that have an id that the pattern matches, each once and in no particular order.
    pub fn tables_of(&self, pattern: Pattern) -> &[ListedKey]
        ensures listed { (key : TableKey) → Contains result.now key ↔ IsMatched self.now pattern key }
        ensures once { IsDistinct table_eq result.now }
    {
        self.listings().tables_of(pattern)
    }

    /// The lists of all patterns, each of which has a table once.
    pub fn listings(&self) -> Listings<'_, A>
        ensures entered { ListsEntered self.now result }
        ensures once { (pattern : Asked) → IsDistinct table_eq (listed_in result pattern) }
    {
        Listings::new(&self.lists, &self.mentioned)
    }

    /// Takes out a table that was entered with these ids.
    pub fn leave(&mut self, key: TableKey, ids: &[Id])
        requires { finite.get self.old key ≡ Some ids.now }
        ensures left { self.new ≡ finite.remove self.old key }
    {
        unlist_all(&mut self.lists, &mut self.places, ids, key);
        self.places.forget(key.slot);
        self.entered = self.entered.after(&Change::Leaves(key));
    }
}
