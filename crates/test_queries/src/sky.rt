//! A small world.

ghost use Rattle.std.specs.Prelude.{◌≡◌};

use ecs_id::EntityId;
use query_check::Lookup;

/// A world of seven names. ChildOf and IsA can be traversed.
pub(crate) struct Sky;

fn entity(index: u32) -> EntityId
    ensures { result ≡ record { index = index; generation = 0 } }
{
    EntityId {
        index,
        generation: 0,
    }
}

impl Lookup for Sky {
    ghost use Rattle.std.specs.Prelude.{◌==◌, ◌||◌, Some, None, true, false};
    ghost use Rattle.test_queries.specs.Names.{named};

    ghost known = { λ w. record {
      named = named;
      alive = λ e. true;
      traversable = λ i. i == 1 || i == 2;
      transitive = λ i. i == 2;
      reflexive = λ i. false;
      inherited = λ i. false;
    } };

    fn find(&self, name: &str) -> Option<EntityId> {
        match name {
            "ChildOf" => Some(entity(1)),
            "IsA" => Some(entity(2)),
            "Sun" => Some(entity(64)),
            "Moon" => Some(entity(65)),
            "Planet" => Some(entity(66)),
            "Position" => Some(entity(67)),
            "Likes" => Some(entity(68)),
            _ => None,
        }
    }

    fn is_alive(&self, _entity: EntityId) -> bool {
        true
    }

    fn is_traversable(&self, index: u32) -> bool {
        index == 1 || index == 2
    }

    fn is_transitive(&self, index: u32) -> bool {
        index == 2
    }

    fn is_reflexive(&self, _index: u32) -> bool {
        false
    }

    fn is_inherited(&self, _index: u32) -> bool {
        false
    }
}
