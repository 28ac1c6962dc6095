//! Where a search that goes down before it goes on stands.
ghost use Rattle.std.specs.Prelude.{◌≡◌, ◌==◌, ◌+◌, ◌≤◌, ◌<◌, [], ◌∷◌, length, MatchOption, OnOk, OnErr};

use std::alloc::{AllocError, Allocator, Global};
use std::marker::Model;

/// The ids of an entity, gone through up to one of them.
#[derive(Clone, Copy)]
pub struct Step {
    /// Of the entity.
    pub index: u32,
    /// How many of its ids were gone through.
    pub place: usize,
}

/// The entities whose ids a search goes through, each of them a target of the one before it.
///
/// Room is made by `reserve`; the other calls take no memory.
#[derive(Drop)]
pub struct Path<A: Allocator = Global> {
    steps: Vec<Step, A>,
}

impl<A: Allocator> Model for Path<A> {
    ghost use Rattle.std.specs.Prelude.{reverse, vec_capacity};
    ghost use Rattle.rel_travel.specs.Trail.{Trail};

    ghost Value = { Trail };

    ghost view = { λ p. record { room = vec_capacity p.steps; steps = reverse p.steps.items } };
}

impl<A: Allocator + Copy> Path<A> {
    /// No step.
    pub fn new(alloc: A) -> Self
        ensures { result.steps ≡ [] }
    {
        Path {
            steps: Vec::new(alloc),
        }
    }
}

impl<A: Allocator> Path<A> {
    /// Makes room for as many steps, and forgets those that were there.
    pub fn reserve(&mut self, room: usize) -> Result<(), AllocError>
        ensures steps { self.new.steps ≡ [] }
        ensures room { self.old.room ≤ self.new.room }
        ensures ok { OnOk result (room ≤ self.new.room) }
    {
        self.steps.clear();
        self.steps.reserve(room)
    }

    /// Whether there is no step.
    pub fn is_empty(&self) -> bool
        ensures { result ≡ (length self.now.steps == 0) }
    {
        self.steps.is_empty()
    }

    /// Forgets all steps.
    pub fn clear(&mut self)
        ensures steps { self.new.steps ≡ [] }
        ensures room { self.new.room ≡ self.old.room }
    {
        self.steps.clear();
    }

    /// Goes one step further.
    pub fn push(&mut self, step: Step)
        requires { length self.old.steps < self.old.room }
        ensures steps { self.new.steps ≡ step ∷ self.old.steps }
        ensures room { self.old.room ≤ self.new.room }
    {
        self.steps.push(step).unwrap();
    }

    /// Takes the last step back.
    pub fn pop(&mut self) -> Option<Step>
        ensures steps { MatchOption result ((self.old.steps ≡ []) × (self.new.steps ≡ []))
            (λ step. self.old.steps ≡ step ∷ self.new.steps) }
        ensures room { self.new.room ≡ self.old.room }
    {
        self.steps.pop()
    }
}
