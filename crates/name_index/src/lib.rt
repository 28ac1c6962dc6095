//! The names of entities, one to one: no two entities have one name, and no entity has two.
#![tactic(auto)]

ghost use Rattle.std.specs.Prelude.{◌≡◌, ◌≢◌, ◌↔◌, ℕ, List, false, nat_eq, true, None, Some, IsSome, IfNone, OnOk};
ghost use Rattle.std.specs.Prelude.{OnErr, IsErrOf};
ghost use Rattle.std.specs.Cmp.Lexicographic.{pointwise};
ghost use Rattle.std.specs.HashMap.{IsUnique};
ghost use Rattle.std.specs.Option.{option_copied};
ghost use Rattle.std.specs.FinMap as finite;
ghost use Rattle.ecs_id.specs.declared.EntityId.{EntityId};
ghost use Rattle.ecs_model.specs.Text.{is_name};
ghost use Rattle.name_index.specs.Names.{AreApart, IsOneToOne, IsUnnamed, OthersKeepTheirs, names_in};
ghost use Rattle.name_index.specs.Short.{is_short};
ghost use Rattle.name_index.specs.Texts.{first_of, other_of};

mod error;
mod keyed;
mod short;
mod texts;

use crate::keyed::Keyed;
use crate::short::ShortName;
use crate::texts::Texts;
use ecs_id::EntityId;
use ecs_model::is_name;
pub use error::BindError;
use indexmap::IndexMap;
use indexmap::map::Entry;
use std::alloc::{Allocator, Global};
use std::hash::RandomState;
use std::marker::Model;

type ByShort<A> = IndexMap<ShortName, EntityId, Keyed, A>;

type ByLong<A> = IndexMap<String<A>, EntityId, Keyed, A>;

/// Which entity each name names.
///
/// But for growth, each call takes constant time for names of at most 15 bytes, whatever they are, since nobody who
/// chooses them knows the random keys. Longer names are kept apart, and of each entity in order.
pub struct NameIndex<A: Allocator = Global> {
    short: ByShort<A>,
    long: ByLong<A>,
    texts: Texts<A>,
}

impl<A: Allocator> Drop for NameIndex<A> {
    fn drop(self) {
        let Self {
            short: _,
            long: _,
            texts: _,
        } = self;
    }
}

impl<A: Allocator> Model for NameIndex<A> {
    ghost use Rattle.std.specs.Coded.{coded_ℕ, coded_list};
    ghost use Rattle.std.specs.FinMap as finite;
    ghost use Rattle.name_index.specs.Names.{AreKept, Names, entity_code, names_in};

    ghost Value = { Names };

    ghost coded = { finite.code (coded_list coded_ℕ) entity_code };

    ghost view = { λ s. names_in s.short s.long };

    ghost invariant = { λ s. AreKept s.short s.long s.texts };
}

impl<A: Allocator + Copy> NameIndex<A> {
    /// An index without names, which hashes them with these random keys. It takes no memory before the first name.
    pub fn new(alloc: A, random: RandomState) -> Self
        ensures empty { result ≡ finite.empty }
        ensures unnamed { (entity : EntityId) → IsUnnamed result entity }
    {
        let hashing = Keyed::new(random);
        NameIndex {
            short: IndexMap::with_hasher(alloc, hashing),
            long: IndexMap::with_hasher(alloc, hashing),
            texts: Texts::new(alloc),
        }
    }

    /// Binds a name to an entity that has none.
    ///
    /// A text that is no name is refused first, then a name that an entity has.
    pub fn bind(&mut self, name: &str, entity: EntityId) -> Result<(), BindError>
        requires { IsUnnamed self.old entity }
        ensures bound { OnOk result (self.new ≡ finite.insert self.old name.now entity) }
        ensures others { OnOk result (OthersKeepTheirs self.old self.new entity) }
        ensures free { OnOk result ((is_name name.now ≡ true) × (finite.get self.old name.now ≡ None)) }

        ensures bad_name { IsErrOf result BindError.BadName ↔ (is_name name.now ≡ false) }
        ensures name_taken { IsErrOf result BindError.NameTaken
            ↔ ((is_name name.now ≡ true) × IsSome (finite.get self.old name.now)) }
        ensures memory { IsErrOf result BindError.Memory
            → ((is_name name.now ≡ true) × (finite.get self.old name.now ≡ None)) }
        ensures refused { OnErr result (self.new ≡ self.old) }
    {
        if !is_name(name.as_bytes()) {
            return Err(BindError::BadName);
        }
        match ShortName::new(name) {
            Some(key) => self.bind_short(key, name, entity),
            None => self.bind_long(name, entity),
        }
    }

    // Binds a short name.
    #[inline(always)]
    fn bind_short(&mut self, key: ShortName, name: &str, entity: EntityId) -> Result<(), BindError>
        requires unnamed { IsUnnamed self.old entity }
        requires short { is_short name.now ≡ true }
        requires key { key ≡ name.now }
        ensures bound { OnOk result (self.new ≡ finite.insert self.old name.now entity) }
        ensures others { OnOk result (OthersKeepTheirs self.old self.new entity) }
        ensures free { OnOk result (finite.get self.old name.now ≡ None) }
        ensures bad_name { ¬ IsErrOf result BindError.BadName }
        ensures name_taken { IsErrOf result BindError.NameTaken ↔ IsSome (finite.get self.old name.now) }
        ensures memory { IsErrOf result BindError.Memory → finite.get self.old name.now ≡ None }
        ensures refused { OnErr result (self.new ≡ self.old) }
    {
        let place = self.texts.place_for(&self.short, entity);
        let Ok(entry) = self.short.entry(key) else {
            return Err(BindError::Memory);
        };
        match entry {
            Entry::Occupied(_) => Err(BindError::NameTaken),
            Entry::Vacant(vacant) => {
                self.texts.set(entity, name, place)?;
                vacant.insert(entity);
                Ok(())
            }
        }
    }

    // Binds a name that isn't short.
    #[cold]
    #[inline(never)]
    fn bind_long(&mut self, name: &str, entity: EntityId) -> Result<(), BindError>
        requires unnamed { IsUnnamed self.old entity }
        requires long { is_short name.now ≡ false }
        ensures bound { OnOk result (self.new ≡ finite.insert self.old name.now entity) }
        ensures others { OnOk result (OthersKeepTheirs self.old self.new entity) }
        ensures free { OnOk result (finite.get self.old name.now ≡ None) }
        ensures bad_name { ¬ IsErrOf result BindError.BadName }
        ensures name_taken { IsErrOf result BindError.NameTaken ↔ IsSome (finite.get self.old name.now) }
        ensures memory { IsErrOf result BindError.Memory → finite.get self.old name.now ≡ None }
        ensures refused { OnErr result (self.new ≡ self.old) }
    {
        if self.has_long(name) {
            return Err(BindError::NameTaken);
        }
        let key = String::from_str(*self.long.allocator(), name)?;
        self.long.reserve(1)?;
        self.texts.set_apart(entity, name)?;
        self.long.insert(key, entity).unwrap();
        Ok(())
    }
}

impl<A: Allocator> NameIndex<A> {
    /// The entity that has the name.
    pub fn find(&self, name: &str) -> Option<EntityId>
        ensures value { result ≡ finite.get self.now name.now }
        ensures one_to_one { IsOneToOne self.now }
    {
        match ShortName::new(name) {
            Some(key) => self.short.get(&key).copied(),
            None => self.find_long(name),
        }
    }

    // The same of a name that isn't short.
    #[cold]
    #[inline(never)]
    fn find_long(&self, name: &str) -> Option<EntityId>
        requires { is_short name.now ≡ false }
        ensures { result ≡ finite.get self.now name.now }
    {
        self.long.get(name).copied()
    }

    /// The name of the entity.
    pub fn name_of(&self, entity: EntityId) -> Option<&str>
        ensures named { (name : List ℕ)
            → (option_copied result ≡ Some name) ↔ (finite.get self.now name ≡ Some entity) }
        ensures unnamed { IfNone result (IsUnnamed self.now entity) }
    {
        self.texts.get(&self.short, entity)
    }

    /// Frees the name of the entity. Of an entity without a name it does nothing.
    pub fn unbind(&mut self, entity: EntityId)
        ensures freed { IsUnnamed self.new entity }
        ensures others { OthersKeepTheirs self.old self.new entity }
        ensures named { (name : List ℕ)
            → finite.get self.old name ≡ Some entity → self.new ≡ finite.remove self.old name }
        ensures unnamed { IsUnnamed self.old entity → self.new ≡ self.old }
    {
        match self.texts.find(&self.short, entity) {
            Some((place, _)) => {
                self.texts.take(&mut self.short, place);
                self.texts.forget(entity);
            }
            None => {
                let Some(name) = self.texts.remove(entity) else {
                    return;
                };
                take_out(
                    &mut self.short,
                    &mut self.long,
                    &mut self.texts,
                    name.as_str(),
                );
            }
        }
    }

    // Whether an entity has the name, which isn't short.
    fn has_long(&self, name: &str) -> bool
        requires { is_short name.now ≡ false }
        ensures taken { result ≡ true → IsSome (finite.get self.now name.now) }
        ensures free { result ≡ false → finite.get self.now name.now ≡ None }
    {
        self.long.contains_key(name)
    }
}

// Takes a name out of its map, which has it.
fn take_out<A: Allocator>(
    short: &mut ByShort<A>,
    long: &mut ByLong<A>,
    texts: &mut Texts<A>,
    name: &str,
)
    requires apart { AreApart short.old long.old }
    requires unique { IsUnique (pointwise nat_eq) short.old }
    requires held { IsSome (finite.get (names_in short.old long.old) name.now) }
    ensures removed { names_in short.new long.new ≡ finite.remove (names_in short.old long.old) name.now }
    ensures apart { AreApart short.new long.new }
    ensures unique { IsUnique (pointwise nat_eq) short.new }
    ensures stay { (q : List ℕ) (e : EntityId) → q ≢ name.now → first_of texts.old short.old.entries e ≡ Some q
        → first_of texts.new short.new.entries e ≡ Some q }
    ensures others { (e : EntityId) → other_of texts.new e ≡ other_of texts.old e }
{
    match ShortName::new(name) {
        Some(key) => {
            if let Some(place) = short.get_index_of(&key) {
                texts.take(short, place);
            }
        }
        None => {
            long.swap_remove(name);
        }
    }
}
