//! How many stored queries mention an entity. No command is counted for it.

ghost use Rattle.std.specs.Prelude.{◌≡◌};
ghost use Rattle.ecs_model.specs.Map.{count_at};
ghost use Rattle.ecs_model.specs.steps.Pins.{one_less, one_more, pin, unpin};
ghost use Rattle.ecs_world.specs.Standing.{AnswersPin};

use crate::World;
use ecs_id::EntityId;
use ecs_model::faults::Refusal;
use std::alloc::Allocator;

impl<A: Allocator> World<A> {
    /// How many stored queries mention the entity of an index.
    pub fn pin_count(&self, index: u32) -> u64
        ensures { result ≡ count_at self.now.state.pins index }
    {
        self.pins.count(index)
    }
}

impl<A: Allocator + Copy> World<A> {
    /// Counts one more stored query that mentions an entity. A count that reaches 2^64 - 1 stays for good.
    ///
    /// Fails of a dead entity, and then nothing changes. It takes no memory.
    pub fn pin(&mut self, entity: EntityId) -> Result<(), Refusal>
        ensures answers { AnswersPin result (pin self.old.state entity) self.old.state self.new.state }
        ensures tables { self.new.tables ≡ self.old.tables }
    {
        if !self.is_alive(entity) {
            return Err(Refusal::Dead);
        }
        let count = one_more(self.pin_count(entity.index));
        self.pins.set_count(entity.index, count);
        Ok(())
    }

    /// Counts one stored query less that mentions an entity. Nothing changes where none does, or of a dead entity.
    pub fn unpin(&mut self, entity: EntityId)
        ensures state { self.new.state ≡ unpin self.old.state entity }
        ensures tables { self.new.tables ≡ self.old.tables }
    {
        if !self.is_alive(entity) {
            return;
        }
        let count = one_less(self.pin_count(entity.index));
        self.pins.set_count(entity.index, count);
    }
}

/// The count after one more query.
fn one_more(count: u64) -> u64
    ensures { result ≡ one_more count }
{
    count.saturating_add(1)
}

/// The count after one query less.
fn one_less(count: u64) -> u64
    ensures { result ≡ one_less count }
{
    if count == u64::MAX {
        count
    } else {
        count.saturating_sub(1)
    }
}
