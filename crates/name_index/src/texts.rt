//! The name of each entity.
ghost use Rattle.std.specs.Prelude.{◌≡◌, ◌≢◌, ◌≤◌, ◌<◌, ◌^◌, ℕ, List, cond, false, length, nat_eq, option_map};
ghost use Rattle.std.specs.Prelude.{slice_get, slice_index_or, None, Some, IfSome};
ghost use Rattle.std.specs.Prelude.{MatchOption, OnErr, OnOk};
ghost use Rattle.std.specs.Cmp.Lexicographic.{pointwise};
ghost use Rattle.std.specs.HashMap.{IsUnique, Updates};
ghost use Rattle.std.specs.Option.{option_copied};
ghost use Rattle.std.specs.String.{string_bytes};
ghost use Rattle.ecs_id.specs.declared.EntityId.{EntityId};
ghost use Rattle.name_index.specs.Names.{entity_eq};
ghost use Rattle.name_index.specs.Texts.{IsKept, IsSame, entry_of, first_of, is_of, moved_to, other_of, text_of};

use crate::ByShort;
use crate::short::ShortName;
use ecs_id::EntityId;
use std::alloc::{AllocError, Allocator};
use std::collections::BTreeMap;

/// The name of each entity that has one, found by index and without a hash.
///
/// A short name stands in the map of short names, and here is its place there, which may be out of date: an entry says
/// itself whose it is.
#[derive(Drop)]
pub struct Texts<A: Allocator> {
    // by index, up to the greatest of an entity that had a short name
    places: Vec<u32, A>,
    // long names, and those of entities of whose index another stands in the list
    others: BTreeMap<EntityId, String<A>, A>,
}

impl<A: Allocator + Copy> Texts<A> {
    pub fn new(alloc: A) -> Self
        ensures placed { (entries : List (List ℕ × EntityId)) (q : EntityId) → first_of result entries q ≡ None }
        ensures others { (q : EntityId) → other_of result q ≡ None }
    {
        Texts {
            places: Vec::new(alloc),
            others: BTreeMap::new(alloc),
        }
    }

    /// Keeps the name of an entity that has none: by its place among the short ones, if that is given.
    pub fn set(
        &mut self,
        entity: EntityId,
        name: &str,
        place: Option<u32>,
    ) -> Result<(), AllocError>
        ensures kept { OnOk result (IsKept self.old self.new entity name.now place) }
        ensures refused { OnErr result (IsSame self.old self.new) }
    {
        match place {
            Some(place) => put_place(&mut self.places, entity.index, place),
            None => self.set_apart(entity, name),
        }
    }

    /// Keeps the name of an entity that has none, apart from the list by index.
    pub fn set_apart(&mut self, entity: EntityId, name: &str) -> Result<(), AllocError>
        ensures kept { OnOk result (IsKept self.old self.new entity name.now None) }
        ensures refused { OnErr result (IsSame self.old self.new) }
    {
        let copy = String::from_str(*self.places.allocator(), name)?;
        self.others.insert(entity, copy)?;
        Ok(())
    }
}

impl<A: Allocator> Texts<A> {
    /// The place of a short name that will stand last, unless the list by index has that of another entity of the
    /// index.
    pub fn place_for(&self, short: &ByShort<A>, entity: EntityId) -> Option<u32>
        ensures { IfSome result (λ at. (at ≡ length short.now.entries)
            × (is_of entity.index (entry_of self.now short.now.entries entity.index) ≡ false)) }
    {
        if self.is_taken(short, entity.index) {
            return None;
        }
        u32::try_from(short.len()).ok()
    }

    // Whether the entry whose place the list has is of an entity of the index.
    fn is_taken(&self, short: &ByShort<A>, index: u32) -> bool
        ensures { result ≡ is_of index (entry_of self.now short.now.entries index) }
    {
        let Some(&place) = self.places.get(index as usize) else {
            return false;
        };
        match short.get_index(place as usize) {
            Some((_, holder)) => holder.index == index,
            None => false,
        }
    }

    /// The short name of the entity and its place, where the list by index has that.
    pub fn find<'a>(
        &self,
        short: &'a ByShort<A>,
        entity: EntityId,
    ) -> Option<(usize, &'a ShortName)>
        ensures { MatchOption result (first_of self.now short.now.entries entity ≡ None)
            (λ r. (first_of self.now short.now.entries entity ≡ Some r.1.now)
            × (slice_get short.now.entries r.0 ≡ Some (r.1.now, entity))) }
    {
        let Some(&place) = self.places.get(entity.index as usize) else {
            return None;
        };
        let place = place as usize;
        match short.get_index(place) {
            Some((name, holder)) if *holder == entity => Some((place, name)),
            _ => None,
        }
    }

    /// The name that is kept for the entity.
    pub fn get<'a>(&'a self, short: &'a ByShort<A>, entity: EntityId) -> Option<&'a str>
        ensures { option_copied result ≡ text_of self.now short.now.entries entity }
    {
        match self.find(short, entity) {
            Some(found) => Some(found.1.as_str()),
            None => self.others.get(&entity).map(|text| text.as_str()),
        }
    }

    /// Takes a short name out of its map, and notes the place of the entry that comes to stand there.
    pub fn take(&mut self, short: &mut ByShort<A>, place: usize)
        requires { place < length short.old.entries }
        ensures removed { (p : List ℕ × EntityId) → slice_get short.old.entries place ≡ Some p
            → Updates (pointwise nat_eq) short.old short.new p.0 None }
        ensures unique { IsUnique (pointwise nat_eq) short.new }
        ensures stay { (p : List ℕ × EntityId) → slice_get short.old.entries place ≡ Some p
            → (q : List ℕ) (e : EntityId) → q ≢ p.0
            → first_of self.old short.old.entries e ≡ Some q → first_of self.new short.new.entries e ≡ Some q }
        ensures others { (e : EntityId) → other_of self.new e ≡ other_of self.old e }
    {
        short.swap_remove_index(place);
        let last = short.len();
        if let Some((_, holder)) = short.get_index(place) {
            move_place(&mut self.places, holder.index, last, place);
        }
    }

    /// Takes out the name that is kept for the entity apart from the list by index.
    pub fn remove(&mut self, entity: EntityId) -> Option<String<A>>
        ensures value { option_map string_bytes result ≡ other_of self.old entity }
        ensures others { (e : EntityId) → other_of self.new e ≡ cond (entity_eq entity e) None (other_of self.old e) }
        ensures places { self.new.places.items ≡ self.old.places.items }
    {
        self.others.remove(&entity)
    }

    /// Forgets that name, if there is one.
    pub fn forget(&mut self, entity: EntityId)
        ensures others { (e : EntityId) → other_of self.new e ≡ cond (entity_eq entity e) None (other_of self.old e) }
        ensures places { self.new.places.items ≡ self.old.places.items }
    {
        if !self.others.is_empty() {
            self.remove(entity);
        }
    }
}

// Writes a place into the list, which it makes long enough.
fn put_place<A: Allocator>(
    places: &mut Vec<u32, A>,
    index: u32,
    place: u32,
) -> Result<(), AllocError>
    ensures within { OnOk result (index < length places.new.items) }
    ensures put { OnOk result (slice_index_or places.new.items index place ≡ place) }
    ensures others { OnOk result ((i : ℕ) → i ≢ index → slice_index_or places.new.items i place
        ≡ slice_index_or places.old.items i place) }
    ensures refused { OnErr result (places.new.items ≡ places.old.items) }
{
    let index = index as usize;
    if index < places.len() {
        places[index] = place;
    } else if index == places.len() {
        list_growth::push(places, place)?;
    } else {
        lengthen(places, index, place)?;
    }
    Ok(())
}

// Makes the list long enough, with the place at its end.
#[cold]
#[inline(never)]
fn lengthen<A: Allocator>(
    places: &mut Vec<u32, A>,
    index: usize,
    place: u32,
) -> Result<(), AllocError>
    requires past { length places.old.items ≤ index }
    requires within { index < 2 ^ 32 }
    ensures within { OnOk result (index < length places.new.items) }
    ensures put { OnOk result (slice_index_or places.new.items index place ≡ place) }
    ensures others { OnOk result ((i : ℕ) → i ≢ index → slice_index_or places.new.items i place
        ≡ slice_index_or places.old.items i place) }
    ensures refused { OnErr result (places.new.items ≡ places.old.items) }
{
    places.resize(index + 1, place)
}

// Writes the place of the entity of the index, where the list has its last one.
fn move_place<A: Allocator>(places: &mut Vec<u32, A>, index: u32, last: usize, place: usize)
    requires { place ≤ last }
    ensures { places.new.items ≡ moved_to places.old.items index last place }
{
    let index = index as usize;
    if index < places.len() && places[index] as usize == last {
        places[index] = place as u32;
    }
}
