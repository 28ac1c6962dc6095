//! Going through the live entities.
ghost use Rattle.std.specs.Prelude.{◌≡◌};
ghost use Rattle.entity_index.specs.Slots.{live_from, IsRest};

use crate::slot::EntitySlot;
use ecs_id::EntityId;
use std::marker::Model;

/// The live entities by ascending index, from `EntityIndex::live`.
#[derive(Drop)]
pub struct Live<'a> {
    rest: &'a [EntitySlot],
    index: u32,
}

impl<'a> Model for Live<'a> {
    ghost use Rattle.std.specs.Prelude.{List};
    ghost use Rattle.ecs_id.specs.declared.EntityId.{EntityId};
    ghost use Rattle.entity_index.specs.Slots.{live_from, IsRest};

    ghost Value = { List EntityId };

    ghost view = { λ it. live_from it.index it.rest.now };

    ghost invariant = { λ it. IsRest it.index it.rest.now };
}

impl<'a> Live<'a> {
    /// The live entities of slots of which the first has this number.
    pub(crate) fn new(index: u32, slots: &'a [EntitySlot]) -> Live<'a>
        requires { IsRest index slots.now }
        ensures { result ≡ live_from index slots.now }
    {
        Live { rest: slots, index }
    }
}

impl Iterator for Live<'_> {
    type Item = EntityId;

    ghost use Rattle.std.specs.Iterator.{YieldsFirst, item_count};

    ghost next_gives = { YieldsFirst (λ it. it) };

    ghost remaining = { item_count (λ it. it) };

    fn next(&mut self) -> Option<EntityId> {
        while let Some((slot, rest)) = self.rest.split_first() {
            let index = self.index;
            self.rest = rest;
            self.index += 1;
            if slot.live {
                return Some(EntityId {
                    index,
                    generation: slot.deletions as u16,
                });
            }
        }
        None
    }
}
