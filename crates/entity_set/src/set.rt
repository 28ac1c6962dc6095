//! The set.

ghost use Rattle.std.specs.Prelude.{◌≡◌, ◌↔◌, ◌<◌, ◌==◌, ◌&&◌, ◌||◌, [], ℕ, All, IfOk, IsTrue, filter, not};
ghost use Rattle.std.specs.List.{list_any};
ghost use Rattle.std.specs.List.Sorted.{IsStrictlyIncreasing};
ghost use Rattle.entity_set.specs.Members.{exchanged};

use crate::bits::{exchange, has, have_words, push_others, put, take_out};
use std::alloc::{AllocError, Allocator, Global};
use std::marker::Model;

/// A set of entities. Its items are their indexes, in ascending order. It takes an eighth of a byte for each index up
/// to the greatest that it had, and has room for all below the next multiple of 64.
#[derive(Drop)]
pub struct EntitySet<A: Allocator = Global> {
    /// The bit of an index `e` is bit `e % 64` of the word `e / 64`.
    words: Vec<u64, A>,
}

impl<A: Allocator> Model for EntitySet<A> {
    ghost use Rattle.std.specs.Prelude.{◌≤◌, length};
    ghost use Rattle.entity_set.specs.Members.{Entities, entities_in};

    ghost Value = { Entities };

    ghost view = { λ set. entities_in set.words.items };

    ghost invariant = { λ set. length set.words.items ≤ 67108864 };
}

impl<A: Allocator> EntitySet<A> {
    /// The empty set.
    pub fn new(alloc: A) -> Self
        ensures { result.items ≡ [] }
    {
        EntitySet {
            words: Vec::new(alloc),
        }
    }

    /// Whether an entity is in the set. It takes a few steps, however many are.
    pub fn contains(&self, entity: u32) -> bool
        ensures { result ≡ list_any (λ x. x == entity) self.now.items }
    {
        has(self.words.as_slice(), entity)
    }

    /// Whether there is room in the set for all of these, as there is for its own.
    pub fn has_room(&self, entities: &[u32]) -> bool
        ensures all { IsTrue result ↔ All (λ e. e < self.now.room) entities.now }
        ensures own { All (λ e. e < self.now.room) self.now.items }
    {
        have_words(self.words.as_slice(), entities)
    }

    /// Takes out some and then puts in others, as far as there is room for them. It takes no memory, and a few steps
    /// for each of these.
    pub fn exchange(&mut self, left: &[u32], entered: &[u32])
        ensures { self.new ≡ exchanged left.now entered.now self.old }
    {
        exchange(&mut self.words, left, entered);
    }
}

impl<A: Allocator + Copy> EntitySet<A> {
    /// The set of these entities.
    ///
    /// Fails where memory is refused.
    pub fn of(alloc: A, entities: &[u32]) -> Result<Self, AllocError>
        ensures ascends { IfOk result (λ set. IsStrictlyIncreasing set.items) }
        ensures members { IfOk result (λ set. (e : ℕ) → list_any (λ x. x == e) set.items
            ≡ list_any (λ x. x == e) entities.now) }
    {
        let mut words = Vec::new(alloc);
        for entity in entities {
            put(&mut words, *entity)?;
        }
        Ok(EntitySet { words })
    }

    /// The set after some have left and then some have entered. It takes a copy of the bits, and a few steps for each
    /// of these.
    ///
    /// Fails where memory is refused.
    pub fn moved(&self, alloc: A, left: &[u32], entered: &[u32]) -> Result<Self, AllocError>
        ensures ascends { IfOk result (λ set. IsStrictlyIncreasing set.items) }
        ensures members { IfOk result (λ set. (e : ℕ) → list_any (λ x. x == e) set.items
            ≡ ((list_any (λ x. x == e) self.now.items && not (list_any (λ x. x == e) left.now))
            || list_any (λ x. x == e) entered.now)) }
    {
        let mut words = Vec::from_slice(alloc, self.words.as_slice())?;
        for entity in left {
            take_out(&mut words, *entity);
        }
        for entity in entered {
            put(&mut words, *entity)?;
        }
        Ok(EntitySet { words })
    }

    /// Those of the set who are not in another, in ascending order. It takes a few steps for each 64 indexes, and for
    /// each who is found.
    ///
    /// Fails where memory is refused.
    pub fn without(&self, alloc: A, other: &EntitySet<A>) -> Result<Vec<u32, A>, AllocError>
        ensures { IfOk result (λ found. found.items ≡ filter (λ x. not (list_any (λ y. y == x) other.now.items))
            self.now.items) }
    {
        let words = self.words.as_slice();
        let others = other.words.as_slice();
        let mut found = Vec::new(alloc);
        for place in 0..words.len() {
            push_others(words, others, place, &mut found)?;
        }
        Ok(found)
    }
}
