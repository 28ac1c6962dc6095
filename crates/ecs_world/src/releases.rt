//! Tables that are released: those whose ids got another type, or mention a dead entity.

ghost use Rattle.std.specs.Prelude.{◌≡◌, ◌==◌, ℕ, false, true};
ghost use Rattle.std.specs.List.{list_any};
ghost use Rattle.ecs_id.specs.Id.{Id, mentioned};
ghost use Rattle.ecs_archetypes.specs.Holdings.{holds_id};
ghost use Rattle.ecs_archetypes.specs.Housing.{IsHoused, holdings_of};
ghost use Rattle.ecs_world.specs.Releases.{AreLeft, gets_no_data, indexes_of, mentions_one};

use crate::built_in::PAIR_IS_TAG;
use ecs_archetypes::{Archetypes, SizedFact};
use ecs_id::{EntityId, Id};
use id_pattern::{Part, Pattern};
use std::alloc::Allocator;

/// Releases the tables of pairs of each relationship to which PairIsTag has come. No entity holds such a pair.
pub(crate) fn release_tag_pairs<A: Allocator + Copy>(
    archetypes: &mut Archetypes<A>,
    came: &[SizedFact],
)
    requires unheld { (e : ℕ) (i : Id) → gets_no_data came.now i ≡ true
        → holds_id (holdings_of archetypes.old) e i ≡ false }
    requires whole { IsHoused archetypes.old }
    ensures { AreLeft (gets_no_data came.now) archetypes.old archetypes.new }
{
    for fact in came {
        if fact.key().id() == Id::plain(PAIR_IS_TAG) {
            archetypes.release_matched(Pattern {
                first: Part::Is(fact.key().entity()),
                second: Some(Part::Any),
            });
        }
    }
}

/// Releases the tables with an id that mentions a dead entity. No entity holds such an id.
pub(crate) fn release_dead<A: Allocator + Copy>(archetypes: &mut Archetypes<A>, dead: &[EntityId])
    requires unheld { (e : ℕ) (i : Id) → mentions_one (indexes_of dead.now) i ≡ true
        → holds_id (holdings_of archetypes.old) e i ≡ false }
    requires whole { IsHoused archetypes.old }
    ensures { AreLeft (mentions_one (indexes_of dead.now)) archetypes.old archetypes.new }
{
    for entity in dead {
        release_mentions(archetypes, entity.index);
    }
}

/// Releases the tables with an id that mentions one dead entity.
fn release_mentions<A: Allocator + Copy>(archetypes: &mut Archetypes<A>, index: u32)
    requires unheld { (e : ℕ) (i : Id) → list_any (λ x. x == index) (mentioned i) ≡ true
        → holds_id (holdings_of archetypes.old) e i ≡ false }
    requires whole { IsHoused archetypes.old }
    ensures { AreLeft (λ i. list_any (λ x. x == index) (mentioned i)) archetypes.old archetypes.new }
{
    let dead = Part::Is(index);
    archetypes.release_matched(Pattern {
        first: dead,
        second: None,
    });
    archetypes.release_matched(Pattern {
        first: dead,
        second: Some(Part::Any),
    });
    archetypes.release_matched(Pattern {
        first: Part::Any,
        second: Some(dead),
    });
}
