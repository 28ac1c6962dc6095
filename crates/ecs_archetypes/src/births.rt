//! Entities that come: into a table that has room, or with all that this takes.
ghost use Rattle.std.specs.Prelude.{◌≡◌, ◌<◌, ◌+◌, None, Some, IfOk, IsSome, OnErr, OnOk, IsTrue, nat_le};
ghost use Rattle.std.specs.List.{list_all};
ghost use Rattle.ecs_id.specs.declared.TableKey.{TableKey};
ghost use Rattle.ecs_id.specs.Id.{id_cmp};
ghost use Rattle.ecs_model.specs.Map.{IsMap};
ghost use Rattle.ecs_archetypes.specs.Archetypes.{known_in};
ghost use Rattle.ecs_table.specs.Archetype.{zero_cells};
ghost use Rattle.ecs_archetypes.specs.Holdings.{AreHoldings, HoldAlike, agrees, cells_at, lives, upcoming, with_cells};
ghost use Rattle.ecs_archetypes.specs.Holdings.{with_entity};
ghost use Rattle.ecs_archetypes.specs.Housing.{IsHoused, holdings_of};
ghost use Rattle.ecs_archetypes.specs.Lasting.{TablesLast};
ghost use Rattle.ecs_archetypes.specs.Tables.{StandAlike};
ghost use Rattle.table_store.specs.Store.{Shape, room_at, shape_at};

use crate::Archetypes;
use crate::plans::OneRow;
use crate::rows::enter;
use ecs_id::{EntityId, TableKey};
use raw_column::Memory;
use std::alloc::Allocator;
use table_store::SizedId;

impl<A: Allocator + Copy> Archetypes<A> {
    /// Puts a live entity that stands nowhere yet into the table of these ids, with zeros as their values.
    pub fn settle(&mut self, entity: EntityId, ids: &[SizedId]) -> Result<(), Memory>
        requires alive { IsTrue (lives (holdings_of self.old) entity) }
        requires unsettled { cells_at (holdings_of self.old) entity.index ≡ None }
        requires ascend { IsMap id_cmp ids.now }
        requires small { IsTrue (list_all (λ c. nat_le c.1 64) ids.now) }
        requires agree { IsTrue (list_all (λ c. agrees (known_in self.old.tables) c.0 c.1) ids.now) }
        ensures settled { OnOk result (HoldAlike (holdings_of self.new)
            (with_cells (holdings_of self.old) entity.index (zero_cells ids.now))) }
        ensures refused { OnErr result (HoldAlike (holdings_of self.new) (holdings_of self.old)) }
        ensures kept { TablesLast ids.now self.old self.new }
    {
        let key = self.tables.table_for(ids, &OneRow)?;
        enter(&mut self.entities, &mut self.tables, entity, key);
        Ok(())
    }

    /// Makes an entity in the table of these ids, with zeros as their values. The caller has seen that an index is
    /// left.
    pub fn create(&mut self, ids: &[SizedId]) -> Result<EntityId, Memory>
        requires left { IsSome (upcoming (holdings_of self.old)) }
        requires ascend { IsMap id_cmp ids.now }
        requires small { IsTrue (list_all (λ c. nat_le c.1 64) ids.now) }
        requires agree { IsTrue (list_all (λ c. agrees (known_in self.old.tables) c.0 c.1) ids.now) }
        ensures next { IfOk result (λ e. upcoming (holdings_of self.old) ≡ Some e) }
        ensures born { IfOk result (λ e. HoldAlike (holdings_of self.new)
            (with_cells (with_entity (holdings_of self.old) e) e.index (zero_cells ids.now))) }
        ensures refused { OnErr result (HoldAlike (holdings_of self.new) (holdings_of self.old)) }
        ensures kept { TablesLast ids.now self.old self.new }
    {
        let key = self.prepare(ids, &OneRow)?;
        let entity = self.create_in(key)?;
        Ok(entity)
    }
}

impl<A: Allocator> Archetypes<A> {
    // Makes an entity in a table that has room, with zeros as its values. The caller has seen that an index is left.
    // Where memory is refused, nothing has changed.
    fn create_in(&mut self, to: TableKey) -> Result<EntityId, Memory>
        requires left { IsSome (upcoming (holdings_of self.old)) }
        requires room { 0 < room_at self.old.tables to }
        ensures next { IfOk result (λ e. upcoming (holdings_of self.old) ≡ Some e) }
        ensures born { (f : Shape) → shape_at self.old.tables to ≡ Some f
            → IfOk result (λ e. HoldAlike (holdings_of self.new) (with_cells
            (with_entity (holdings_of self.old) e) e.index (zero_cells f))) }
        ensures refused { OnErr result (self.new ≡ self.old) }
        ensures alike { StandAlike self.old.tables self.new.tables }
        ensures holdings { AreHoldings (holdings_of self.new) }
        ensures whole { IsHoused self.new }
    {
        let Ok(entity) = self.entities.create() else {
            return Err(Memory);
        };
        enter(&mut self.entities, &mut self.tables, entity, to);
        Ok(entity)
    }
}
