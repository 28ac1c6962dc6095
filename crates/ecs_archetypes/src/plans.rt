//! Moves: what is asked for, and what is planned.
ghost use Rattle.std.specs.Prelude.{◌≡◌, ◌≤◌, ◌+◌, ◌++◌, ◌∷◌, [], OnErr, OnOk, length};
ghost use Rattle.ecs_id.specs.declared.TableKey.{TableKey};
ghost use Rattle.ecs_archetypes.specs.Moves.{moves_to};

use ecs_id::{EntityId, TableKey};
use raw_column::Memory;
use std::alloc::{Allocator, Global};
use std::collections::BTreeMap;
use std::marker::Model;

/// A move that is planned: an entity, the table where it stood, and the table that it moves to.
#[derive(Clone, Copy, Debug, PartialEq, Eq)]
pub struct EntityMove {
    pub entity: EntityId,
    pub from: TableKey,
    pub to: TableKey,
}

/// Moves that are planned one after another, for which all memory was taken.
#[derive(Drop)]
pub struct MovePlan<A: Allocator = Global> {
    moves: Vec<EntityMove, A>,
    /// How many moves lead to the table of a serial, so that each table gets room for its own alone.
    counts: BTreeMap<u128, usize, A>,
}

impl<A: Allocator> Model for MovePlan<A> {
    ghost use Rattle.std.specs.Prelude.{List};
    ghost use Rattle.ecs_archetypes.specs.declared.plans.EntityMove.{EntityMove as OneMove};
    ghost use Rattle.ecs_archetypes.specs.Plans.{AreCounted};

    ghost Value = { List OneMove };

    ghost view = { λ p. p.moves.items };

    ghost invariant = { λ p. AreCounted p.moves.items p.counts };
}

impl<A: Allocator + Copy> MovePlan<A> {
    /// A plan without moves, which takes no memory.
    pub fn new(alloc: A) -> MovePlan<A>
        ensures { result ≡ [] }
    {
        MovePlan {
            moves: Vec::new(alloc),
            counts: BTreeMap::new(alloc),
        }
    }

    /// Lets all moves go. The memory of the list is kept.
    pub(crate) fn clear(&mut self)
        ensures { self.new ≡ [] }
    {
        self.moves.clear();
        self.counts.clear();
    }

    /// One more move, at the end.
    pub(crate) fn push(&mut self, one: EntityMove) -> Result<(), Memory>
        ensures pushed { OnOk result (self.new ≡ self.old ++ one ∷ []) }
        ensures refused { OnErr result (self.new ≡ self.old) }
    {
        let count = self.rows_with_one_more(one.to);
        let serial = one.to.serial;
        let Ok(()) = self.moves.reserve(1) else {
            return Err(Memory);
        };
        let Ok(_) = self.counts.insert(serial, count) else {
            return Err(Memory);
        };
        self.moves.push(one).unwrap();
        Ok(())
    }
}

impl<A: Allocator> MovePlan<A> {
    /// The moves, in the order in which they are carried out.
    pub fn moves(&self) -> &[EntityMove]
        ensures { result.now ≡ self.now }
    {
        self.moves.as_slice()
    }

    /// The room that a table needs for the moves to it and for one more row.
    pub(crate) fn rows_with_one_more(&self, key: TableKey) -> usize
        ensures enough { (q : TableKey) → q.serial ≡ key.serial → moves_to q self.now + 1 ≤ result }
        ensures few { result ≤ length self.now + 1 }
    {
        match self.counts.get(&key.serial) {
            Some(count) => *count + 1,
            None => 1,
        }
    }
}

/// How many rows a table is to have room for.
pub trait Room {
    ghost use Rattle.std.specs.Prelude.{ℕ};
    ghost use Rattle.ecs_id.specs.declared.TableKey.{TableKey as Key};

    ghost wanted: { Self → Key → ℕ };

    fn rows(&self, key: TableKey) -> usize
        ensures { wanted self.now key ≤ result };
}

/// Room for one row.
#[derive(Clone, Copy)]
pub struct OneRow;

impl Room for OneRow {
    ghost wanted = { λ o q. 1 };

    fn rows(&self, _key: TableKey) -> usize {
        1
    }
}

/// Room for the moves to the table that are planned, and for one more row.
impl<A: Allocator> Room for MovePlan<A> {
    ghost wanted = { λ p q. moves_to q p + 1 };

    fn rows(&self, key: TableKey) -> usize {
        self.rows_with_one_more(key)
    }
}
