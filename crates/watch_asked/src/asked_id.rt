//! Patterns of ids, each with a fast test.

ghost use Rattle.std.specs.Prelude.{◌≡◌, ◌++◌, Some, map};
ghost use Rattle.std.specs.List.{list_any};
ghost use Rattle.id_pattern.specs.Patterns.{matches};
ghost use Rattle.id_pattern.specs.declared.Part.TheVariants.{Is};
ghost use Rattle.watch_asked.specs.Asked.{any_asked, have_all};

use ecs_id::Id;
use ecs_model::FactKey;
use id_pattern::{Part, Pattern};
use plan_steps::word_test::WordTest;
use std::marker::Model;

/// A pattern of ids, with a fast test for it.
#[derive(Drop)]
pub struct AskedId {
    pattern: Pattern,
    test: WordTest,
}

impl Model for AskedId {
    ghost use Rattle.id_pattern.specs.declared.Pattern as patterns;
    ghost use Rattle.plan_steps.specs.WordTests.{IsTestOf};

    ghost Value = { patterns.Pattern };

    ghost view = { λ asked. asked.pattern };

    ghost invariant = { λ asked. IsTestOf asked.test asked.pattern };
}

impl AskedId {
    pub(crate) fn of(pattern: Pattern) -> AskedId
        ensures { result ≡ pattern }
    {
        let test = WordTest::of(pattern);
        AskedId { pattern, test }
    }

    /// The pairs of the pattern's relationship with this target.
    #[inline(always)]
    pub(crate) fn with_target(&self, target: u32) -> Pattern
        ensures { result ≡ record { first = self.now.first; second = Some (Is target) } }
    {
        Pattern {
            first: self.pattern.first,
            second: Some(Part::Is(target)),
        }
    }

    #[inline(always)]
    pub(crate) fn matches(&self, id: Id) -> bool
        ensures { result ≡ matches self.now id }
    {
        self.test.passes(id)
    }
}

/// Whether one of these patterns matches an id.
#[inline(always)]
pub(crate) fn any_asked(asked: &[AskedId], id: Id) -> bool
    ensures { result ≡ any_asked asked.now id }
{
    for one in asked {
        if one.matches(id) {
            return true;
        }
    }
    false
}

/// Whether each of these patterns matches one of these ids, or the id of one of these facts.
#[inline(always)]
pub(crate) fn have_all(asked: &[AskedId], ids: &[Id], facts: &[FactKey]) -> bool
    ensures { result ≡ have_all asked.now (ids.now ++ map (λ k. k.1) facts.now) }
{
    for one in asked {
        if !is_held(one, ids, facts) {
            return false;
        }
    }
    true
}

/// Whether a pattern matches one of these ids, or the id of one of these facts.
#[inline(always)]
fn is_held(asked: &AskedId, ids: &[Id], facts: &[FactKey]) -> bool
    ensures { result ≡ list_any (matches asked.now) (ids.now ++ map (λ k. k.1) facts.now) }
{
    is_among_ids(asked, ids) || is_among_facts(asked, facts)
}

#[inline(always)]
fn is_among_ids(asked: &AskedId, ids: &[Id]) -> bool
    ensures { result ≡ list_any (matches asked.now) ids.now }
{
    for id in ids {
        if asked.matches(*id) {
            return true;
        }
    }
    false
}

#[inline(always)]
fn is_among_facts(asked: &AskedId, facts: &[FactKey]) -> bool
    ensures { result ≡ list_any (matches asked.now) (map (λ k. k.1) facts.now) }
{
    for fact in facts {
        if asked.matches(fact.id()) {
            return true;
        }
    }
    false
}
