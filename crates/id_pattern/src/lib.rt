//! What a query asks of an id.
#![tactic(auto)]

ghost use Rattle.std.specs.Prelude.{◌≡◌};
ghost use Rattle.id_pattern.specs.Patterns.{index_or, matches, matches_some, packed, takes};

use ecs_id::Id;
use std::hash::{Hash, Hasher};

/// What a pattern asks of the component, tag or relationship of an id, or of its target.
#[derive(Clone, Copy, Debug, PartialEq, Eq, Hash)]
pub enum Part {
    /// This index alone.
    Is(u32),
    /// Any index: the wildcard `*`.
    Any,
}

impl Part {
    fn takes(self, index: u32) -> bool
        ensures { result ≡ takes self index }
    {
        match self {
            Part::Is(own) => own == index,
            Part::Any => true,
        }
    }

    fn index_or(self, any: u32) -> u32
        ensures { result ≡ index_or self any }
    {
        match self {
            Part::Is(index) => index,
            Part::Any => any,
        }
    }
}

/// What a query asks of an id: a pattern with a second part asks for pairs, and one without for plain ids.
///
/// So `*` asks for any plain id, and `(*,*)` for any pair. It is hashed as one 64-bit word, which two patterns share
/// only where they ask for indexes that no entity has.
#[derive(Clone, Copy, Debug, PartialEq, Eq)]
pub struct Pattern {
    /// Of the component or tag, or of the relationship of a pair.
    pub first: Part,
    /// Of the target of a pair.
    pub second: Option<Part>,
}

impl Pattern {
    /// Whether an id is plain where it has one part and a pair where it has two, and each part takes its index.
    pub fn matches(self, id: Id) -> bool
        ensures { result ≡ matches self id }
    {
        match (self.second, id.second()) {
            (None, None) => self.first.takes(id.first()),
            (Some(second), Some(target)) => self.first.takes(id.first()) && second.takes(target),
            _ => false,
        }
    }

    /// Whether there is an id that it matches.
    pub fn matches_some(self, id: &Option<Id>) -> bool
        ensures { result ≡ matches_some self id.now }
    {
        match id {
            Some(id) => self.matches(*id),
            None => false,
        }
    }

    /// The number by which it is hashed. No entity has the index 0 or `u32::MAX`, so no two patterns that ask for
    /// entities share one.
    pub fn packed(self) -> u64
        ensures { result ≡ packed self }
    {
        let first = self.first.index_or(0);
        let second = match self.second {
            Some(part) => part.index_or(u32::MAX),
            None => 0,
        };
        u64::from(first) + u64::from(second) * SHIFT
    }
}

const SHIFT: u64 = 1 << 32;

impl Hash for Pattern {
    ghost use Rattle.std.proofs.Common.{ap};
    ghost use Rattle.std.specs.Hash as fed;
    ghost use Rattle.id_pattern.specs.SamePattern.{same_pattern};

    ghost hash_input = { λ p. fed.u64 (packed p) };

    ghost respects_eq = { λ x y e. ap (λ p. fed.u64 (packed p)) (same_pattern x y e) };

    fn hash<H: Hasher>(&self, state: &mut H) {
        self.packed().hash(state);
    }
}
