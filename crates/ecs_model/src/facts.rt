//! Facts without their values.

ghost use Rattle.std.specs.Prelude.{◌≡◌};

use ecs_id::Id;
use std::cmp::Ordering;
use std::marker::Model;

/// A fact without its value: an entity, by its index, and the id that it holds.
///
/// They are ordered by entity, then by id.
#[derive(Clone, Copy, Debug)]
pub struct FactKey {
    entity: u32,
    id: Id,
}

impl Model for FactKey {
    ghost use Rattle.ecs_model.specs.World.{Key};

    ghost Value = { Key };

    ghost view = { λ k. (k.entity, k.id) };

    ghost inverse = { λ k. record { entity = k.0; id = k.1 } };
}

impl FactKey {
    pub fn new(entity: u32, id: Id) -> FactKey
        ensures { result ≡ (entity, id) }
    {
        FactKey { entity, id }
    }

    /// The entity's index.
    pub fn entity(self) -> u32
        ensures { result ≡ self.0 }
    {
        self.entity
    }

    /// The id that it holds.
    pub fn id(self) -> Id
        ensures { result ≡ self.1 }
    {
        self.id
    }
}

impl PartialEq for FactKey {
    ghost use Rattle.std.specs.Cmp.{partial_equiv_from_equiv};
    ghost use Rattle.ecs_model.specs.World.{key_eq};
    ghost use Rattle.ecs_model.specs.FactOrder.{key_eq_equiv};

    ghost eq = { key_eq };

    ghost laws = { partial_equiv_from_equiv key_eq_equiv };

    fn eq(&self, other: &FactKey) -> bool {
        self.cmp(other).is_eq()
    }
}

impl Eq for FactKey {
    ghost use Rattle.ecs_model.specs.FactOrder.{key_eq_equiv};

    ghost laws = { key_eq_equiv };
}

impl PartialOrd for FactKey {
    ghost use Rattle.std.specs.Ordering.{as_partial_cmp};
    ghost use Rattle.std.specs.Cmp.{partial_order_from_total};
    ghost use Rattle.ecs_model.specs.World.{key_cmp};
    ghost use Rattle.ecs_model.specs.FactOrder.{key_cmp_total};

    ghost partial_cmp = { as_partial_cmp key_cmp };

    ghost laws = { partial_order_from_total key_cmp_total };

    fn partial_cmp(&self, other: &FactKey) -> Option<Ordering> {
        Some(self.cmp(other))
    }
}

impl Ord for FactKey {
    ghost use Rattle.std.specs.Prelude.{refl};
    ghost use Rattle.ecs_model.specs.World.{key_cmp};
    ghost use Rattle.ecs_model.specs.FactOrder.{key_cmp_total};

    ghost cmp = { key_cmp };

    ghost total = { key_cmp_total };

    ghost matches_partial_cmp = { λ _ _. refl };

    ghost matches_eq = { λ _ _. refl };

    #[tactic(auto, using(crate::specs::FactOrder::key_cmp_seen))]
    fn cmp(&self, other: &FactKey) -> Ordering {
        self.entity.cmp(&other.entity).then(self.id.cmp(&other.id))
    }
}
