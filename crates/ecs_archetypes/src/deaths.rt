//! Entities and tables that go, and memory that is given back.
ghost use Rattle.std.specs.Prelude.{◌≡◌, false, IsTrue};
ghost use Rattle.std.specs.List.{list_any};
ghost use Rattle.id_pattern.specs.Patterns.{matches};
ghost use Rattle.ecs_id.specs.declared.TableKey.{TableKey};
ghost use Rattle.ecs_archetypes.specs.Holdings.{AreHoldings, HoldAlike, is_settled, without_entity};
ghost use Rattle.ecs_archetypes.specs.Housing.{IsHoused, holdings_of};
ghost use Rattle.ecs_archetypes.specs.Moves.{are_deletable, without_each};
ghost use Rattle.ecs_archetypes.specs.Scans.{HasMatch, StandApart};
ghost use Rattle.ecs_archetypes.specs.Staying.{TablesStay};
ghost use Rattle.ecs_archetypes.specs.Tables.{StandAlike};
ghost use Rattle.ecs_model.specs.World.{is_built_in};
ghost use Rattle.table_store.specs.Rows.{rows_in};

use crate::Archetypes;
use crate::rows::leave_alone;
use ecs_id::{EntityId, TableKey};
use id_pattern::Pattern;
use std::alloc::Allocator;

impl<A: Allocator + Copy> Archetypes<A> {
    // Deletes entities with their rows, one after another. Each time the table gives memory back.
    pub(crate) fn delete_each(&mut self, dead: &[EntityId])
        requires deletable { IsTrue (are_deletable (holdings_of self.old) dead.now) }
        ensures held { HoldAlike (holdings_of self.new) (without_each dead.now (holdings_of self.old)) }
        ensures alike { StandAlike self.old.tables self.new.tables }
        ensures holdings { AreHoldings (holdings_of self.new) }
        ensures whole { IsHoused self.new }
    {
        for entity in dead {
            self.delete_alone(*entity);
        }
        let _ = &self.entities;
    }

    // Deletes an entity with its row. Its table gives memory back.
    fn delete_alone(&mut self, entity: EntityId)
        requires settled { IsTrue (is_settled (holdings_of self.old) entity) }
        requires deletable { is_built_in entity.index ≡ false }
        ensures held { HoldAlike (holdings_of self.new) (without_entity (holdings_of self.old) entity.index) }
        ensures alike { StandAlike self.old.tables self.new.tables }
    {
        let place = self.entities.place(entity).unwrap();
        leave_alone(&mut self.entities, &mut self.tables, entity, place);
    }

    /// Releases each table that has an id that the pattern matches, with their keys for good. None of them has rows.
    pub fn release_matched(&mut self, pattern: Pattern)
        requires empty { (k : TableKey) → HasMatch self.old.tables pattern k → rows_in self.old.tables k ≡ 0 }
        ensures gone { (k : TableKey) → HasMatch self.new.tables pattern k → ⊥ }
        ensures others { StandApart pattern self.old.tables self.new.tables }
        ensures stay { TablesStay (list_any (matches pattern)) self.old.tables self.new.tables }
        ensures entities { self.new.entities ≡ self.old.entities }
        ensures held { HoldAlike (holdings_of self.new) (holdings_of self.old) }
        ensures whole { IsHoused self.new }
    {
        self.tables.release_matched(pattern);
    }

    // Gives back the memory that rows have left in a table, and its room: not between a plan and its moves.
    // Of a table that is gone it does nothing.
    pub(crate) fn shrink(&mut self, key: TableKey)
        ensures entities { self.new.entities ≡ self.old.entities }
        ensures held { HoldAlike (holdings_of self.new) (holdings_of self.old) }
        ensures alike { StandAlike self.old.tables self.new.tables }
        ensures whole { IsHoused self.new }
    {
        if self.tables.get(key).is_some() {
            self.tables.shrink(key);
        }
    }
}
