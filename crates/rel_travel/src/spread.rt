//! Searches from one entity after another, which go on from where they ended.
ghost use Rattle.std.specs.Prelude.{◌≡◌, ◌↔◌, ◌<◌, ℕ, List, [], ◌∷◌, IfSome, IsTrue, None, Some, true};
ghost use Rattle.ecs_model.specs.Reach.{Reached};
ghost use Rattle.rel_travel.specs.Followed.{IsClosed};
ghost use Rattle.rel_travel.specs.Ways.{IsSought, IsSoughtFor};

use crate::found::Found;
use std::alloc::Allocator;

/// How far searches from one entity after another have come.
#[derive(Drop)]
pub struct Spread<A: Allocator> {
    /// Where the last one began, if something is found.
    pub start: Option<u32>,
    /// Whether what those before it found was forgotten.
    pub is_alone: bool,
    pub found: Found<A>,
    /// How many of the found have brought all that they bring.
    pub done: usize,
}

impl<A: Allocator + Copy> Spread<A> {
    /// Nothing is found, and there is room for nothing.
    pub fn new(alloc: A) -> Self
        ensures size { result.found.size ≡ 0 }
        ensures start { result.start ≡ None }
        ensures alone { result.is_alone ≡ true }
        ensures items { result.found.items ≡ [] }
        ensures done { result.done ≡ 0 }
    {
        Spread {
            start: None,
            is_alone: true,
            found: Found::new(alloc),
            done: 0,
        }
    }
}

impl<A: Allocator> Spread<A> {
    /// Whether the last search began with an entity.
    pub fn is_from(&self, start: u32) -> bool
        ensures { result ≡ true → self.now.start ≡ Some start }
    {
        match self.start {
            Some(own) => own == start,
            None => false,
        }
    }

    /// Whether the last search can be asked for an entity: it began with this one, and what those before it left lacks
    /// that other one.
    fn asks_for(&self, start: u32, index: u32) -> bool
        requires { index < self.now.found.size }
        ensures start { result ≡ true → self.now.start ≡ Some start }
        ensures sought { (next : ℕ → List ℕ) → IsTrue result → IsSought next self.now.start self.now.is_alone
            self.now.found.items self.now.done
            → IsSoughtFor next start index self.now.is_alone self.now.found.items self.now.done }
    {
        self.is_from(start) && (self.is_alone || !self.found.is_found(index))
    }

    /// Whether all that was found leads to no others.
    fn is_complete(&self) -> bool
        ensures { (next : ℕ → List ℕ) → IsTrue result → IsSought next self.now.start self.now.is_alone
            self.now.found.items self.now.done
            → IsClosed next self.now.found.items }
    {
        self.start.is_some() && self.found.len() <= self.done
    }

    /// Goes on with a search that asks whether an entity leads to another one, or begins it.
    ///
    /// Where all was followed that was found, and the other one isn't there, this stays: who is found already doesn't
    /// lead to it.
    pub fn seek(&mut self, start: u32, index: u32)
        requires start { start < self.old.found.size }
        requires index { index < self.old.found.size }
        ensures size { self.new.found.size ≡ self.old.found.size }
        ensures start { self.new.start ≡ Some start }
        ensures sought { (next : ℕ → List ℕ) → IsSought next self.old.start self.old.is_alone self.old.found.items
            self.old.done
            → IsSoughtFor next start index self.new.is_alone self.new.found.items self.new.done }
    {
        if self.asks_for(start, index) {
            return;
        }
        if !self.is_complete() || self.found.is_found(index) {
            self.begin(start);
            return;
        }
        self.start = Some(start);
        self.is_alone = false;
        self.done = self.found.len();
        self.found.add(start);
    }

    /// Begins with an entity, and forgets what was found.
    pub fn begin(&mut self, start: u32)
        requires { start < self.old.found.size }
        ensures size { self.new.found.size ≡ self.old.found.size }
        ensures start { self.new.start ≡ Some start }
        ensures alone { self.new.is_alone ≡ true }
        ensures items { self.new.found.items ≡ start ∷ [] }
        ensures done { self.new.done ≡ 0 }
    {
        self.found.clear();
        self.found.add(start);
        self.start = Some(start);
        self.is_alone = true;
        self.done = 0;
    }

    /// Forgets what was found.
    pub fn forget(&mut self)
        ensures size { self.new.found.size ≡ self.old.found.size }
        ensures start { self.new.start ≡ None }
        ensures alone { self.new.is_alone ≡ true }
        ensures items { self.new.found.items ≡ [] }
        ensures done { self.new.done ≡ 0 }
    {
        self.found.clear();
        self.start = None;
        self.is_alone = true;
        self.done = 0;
    }

    /// Whether an entity is reached from another one, if that is known.
    pub fn tells(&self, start: u32, index: u32) -> Option<bool>
        requires { index < self.now.found.size }
        ensures { IfSome result (λ reached. (next : ℕ → List ℕ) → IsSought next self.now.start self.now.is_alone
            self.now.found.items self.now.done
            → (IsTrue reached ↔ Reached next start index)) }
    {
        if !self.asks_for(start, index) {
            return None;
        }
        if self.found.is_found(index) {
            return Some(true);
        }
        if self.found.len() <= self.done {
            return Some(false);
        }
        None
    }
}
