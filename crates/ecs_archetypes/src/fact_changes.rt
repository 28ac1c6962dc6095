//! Facts that come and go of several entities at once.
ghost use Rattle.std.specs.Prelude.{◌≡◌, ◌≤◌, ◌+◌, ◌++◌, ◌∷◌, not, [], Some, IfOk, IsSome, OnErr, OnOk, IsTrue};
ghost use Rattle.std.specs.Prelude.{is_some, nat_le};
ghost use Rattle.std.specs.List.{list_all};
ghost use Rattle.std.specs.List.Sorted.{IsStrictlySortedBy};
ghost use Rattle.ecs_id.specs.Id.{id_cmp};
ghost use Rattle.ecs_id.specs.declared.EntityId.{EntityId};
ghost use Rattle.ecs_model.specs.Map.{IsMap, keys};
ghost use Rattle.ecs_model.specs.World.{key_cmp};
ghost use Rattle.ecs_archetypes.specs.Archetypes.{known_in};
ghost use Rattle.ecs_archetypes.specs.FactChanges.{changed_shape, ids_among, ids_coming, is_among, with_facts_changed};
ghost use Rattle.ecs_archetypes.specs.Holdings.{HoldAlike, KeepsSizes, agrees, cells_at, held_at, holds_id, is_settled};
ghost use Rattle.ecs_archetypes.specs.Housing.{HasRoomMade, IsHoused, holdings_of};
ghost use Rattle.ecs_archetypes.specs.Lasting.{TablesLast};
ghost use Rattle.ecs_archetypes.specs.Moves.{AreReady, IsPlanned, are_deletable, moves_to, with_all_moved};
ghost use Rattle.ecs_archetypes.specs.Moves.{without_each};
ghost use Rattle.ecs_archetypes.specs.Tables.{HasGrown};
ghost use Rattle.table_store.specs.Rows.{shape_of_cells};
ghost use Rattle.table_store.specs.Store.{Shape, room_at, shape_at, table_at, with_id, without_id};

use crate::fact_plan::{FactPlan, SizedFact, count_coming, count_going, first_entity, merge_ids};
use crate::plans::{EntityMove, MovePlan};
use crate::{Archetypes, Memory};
use ecs_id::{EntityId, Id, TableKey};
use ecs_model::FactKey;
use std::alloc::Allocator;

impl<A: Allocator + Copy> Archetypes<A> {
    /// Takes the facts that went, brings those that came, with zeros as their values, and then deletes the dead; or
    /// does nothing of it.
    ///
    /// Both lists ascend by entity, then by id, and no fact comes that is held. Each entity moves once. What the plan
    /// had is let go. `Memory` where a growth is refused: each entity then holds what it held, and a table that was
    /// made on the way may stay.
    pub fn change_facts(
        &mut self,
        plan: &mut FactPlan<A>,
        came: &[SizedFact],
        went: &[FactKey],
        dead: &[EntityId],
    ) -> Result<(), Memory>
        requires came_ascend { IsStrictlySortedBy key_cmp (keys came.now) }
        requires went_ascend { IsStrictlySortedBy key_cmp went.now }
        requires settled { IsTrue (list_all (λ k. is_some (cells_at (holdings_of self.old) k.0))
            (keys came.now ++ went.now)) }
        requires unheld { IsTrue (list_all (λ k. not (holds_id (holdings_of self.old) k.0 k.1)) (keys came.now)) }
        requires small { IsTrue (list_all (λ c. nat_le c.1 64) came.now) }
        requires agree { IsTrue (list_all (λ c. agrees (known_in self.old.tables ++ ids_coming came.now) c.0 c.1)
            (ids_coming came.now)) }
        requires dead { IsTrue (are_deletable (holdings_of self.old) dead.now) }
        ensures changed { OnOk result (HoldAlike (holdings_of self.new)
            (without_each dead.now (with_facts_changed came.now went.now (holdings_of self.old)))) }
        ensures refused { OnErr result (HoldAlike (holdings_of self.new) (holdings_of self.old)) }
        ensures kept { TablesLast (ids_coming came.now) self.old self.new }
    {
        self.move_facts(plan, came, went)?;
        self.delete_each(dead);
        Ok(())
    }

    // Takes the facts that went and brings those that came, or does nothing of it.
    fn move_facts(
        &mut self,
        plan: &mut FactPlan<A>,
        came: &[SizedFact],
        went: &[FactKey],
    ) -> Result<(), Memory>
        requires came_ascend { IsStrictlySortedBy key_cmp (keys came.now) }
        requires went_ascend { IsStrictlySortedBy key_cmp went.now }
        requires settled { IsTrue (list_all (λ k. is_some (cells_at (holdings_of self.old) k.0))
            (keys came.now ++ went.now)) }
        requires unheld { IsTrue (list_all (λ k. not (holds_id (holdings_of self.old) k.0 k.1)) (keys came.now)) }
        requires small { IsTrue (list_all (λ c. nat_le c.1 64) came.now) }
        requires agree { IsTrue (list_all (λ c. agrees (known_in self.old.tables ++ ids_coming came.now) c.0 c.1)
            (ids_coming came.now)) }
        ensures changed { OnOk result (HoldAlike (holdings_of self.new)
            (with_facts_changed came.now went.now (holdings_of self.old))) }
        ensures refused { OnErr result (HoldAlike (holdings_of self.new) (holdings_of self.old)) }
        ensures kept { TablesLast (ids_coming came.now) self.old self.new }
    {
        if came.is_empty() && went.is_empty() {
            let _ = &self.entities;
            return Ok(());
        }
        self.plan_facts(plan, came, went)?;
        self.carry_out(&plan.moves);
        Ok(())
    }

    // Plans one move for each entity of the facts, after which all moves together change the facts.
    fn plan_facts(
        &mut self,
        plan: &mut FactPlan<A>,
        came: &[SizedFact],
        went: &[FactKey],
    ) -> Result<(), Memory>
        requires came_ascend { IsStrictlySortedBy key_cmp (keys came.now) }
        requires went_ascend { IsStrictlySortedBy key_cmp went.now }
        requires settled { IsTrue (list_all (λ k. is_some (cells_at (holdings_of self.old) k.0))
            (keys came.now ++ went.now)) }
        requires unheld { IsTrue (list_all (λ k. not (holds_id (holdings_of self.old) k.0 k.1)) (keys came.now)) }
        requires small { IsTrue (list_all (λ c. nat_le c.1 64) came.now) }
        requires agree { IsTrue (list_all (λ c. agrees (known_in self.old.tables ++ ids_coming came.now) c.0 c.1)
            (ids_coming came.now)) }
        ensures planned { OnOk result (with_all_moved self.new.tables plan.new.moves (holdings_of self.old)
            ≡ with_facts_changed came.now went.now (holdings_of self.old)) }
        ensures ready { OnOk result (AreReady self.new plan.new.moves) }
        ensures kept { HasRoomMade (ids_coming came.now) self.old self.new }
    {
        let _ = &self.entities;
        plan.moves.clear();
        let (mut came, mut went) = (came, went);
        while let Some(entity) = first_entity(came, went) {
            let (comes, later) = came.split_at(count_coming(came, entity));
            let (goes, after) = went.split_at(count_going(went, entity));
            self.plan_entity(plan, entity, comes, goes)?;
            came = later;
            went = after;
        }
        Ok(())
    }

    // Plans the move of one entity by those of its facts that come and go.
    fn plan_entity(
        &mut self,
        plan: &mut FactPlan<A>,
        index: u32,
        came: &[SizedFact],
        went: &[FactKey],
    ) -> Result<(), Memory>
        requires ready { AreReady self.old plan.old.moves }
        requires came_ascend { IsMap id_cmp (ids_coming came.now) }
        requires went_ascend { IsStrictlySortedBy id_cmp (ids_among went.now) }
        requires settled { IsTrue (is_some (cells_at (holdings_of self.old) index)) }
        requires unheld { IsTrue (list_all (λ c. not (holds_id (holdings_of self.old) index c.0))
            (ids_coming came.now)) }
        requires small { IsTrue (list_all (λ c. nat_le c.1 64) (ids_coming came.now)) }
        requires agree { IsTrue (list_all (λ c. agrees (known_in self.old.tables) c.0 c.1) (ids_coming came.now)) }
        ensures planned { OnOk result ((e : EntityId) × (e.index ≡ index)
            × IsPlanned self.new.tables plan.old.moves e (changed_shape (ids_coming came.now)
            (is_among (ids_among went.now))
            (shape_of_cells (held_at (holdings_of self.old) index))) plan.new.moves) }
        ensures ready { OnOk result (AreReady self.new plan.new.moves) }
        ensures kept { HasRoomMade (ids_coming came.now) self.old self.new }
    {
        let entity = self.entities.at(index).unwrap();
        let from = self.entities.place(entity).unwrap().table;
        let to = self.table_after(plan, entity, from, came, went)?;
        plan.moves.push(EntityMove { entity, from, to })?;
        Ok(())
    }

    // The table of an entity after facts of it have come and gone, with room for the planned moves to it and for a row
    // more: by an edge of its table where one id comes or goes, else by the list of its ids.
    pub(crate) fn table_after(
        &mut self,
        plan: &mut FactPlan<A>,
        entity: EntityId,
        from: TableKey,
        came: &[SizedFact],
        went: &[FactKey],
    ) -> Result<TableKey, Memory>
        requires there { shape_at self.old.tables from ≡ Some (shape_of_cells
            (held_at (holdings_of self.old) entity.index)) }
        requires settled { IsTrue (is_settled (holdings_of self.old) entity) }
        requires came_ascend { IsMap id_cmp (ids_coming came.now) }
        requires went_ascend { IsStrictlySortedBy id_cmp (ids_among went.now) }
        requires unheld { IsTrue (list_all (λ c. not (holds_id (holdings_of self.old) entity.index c.0))
            (ids_coming came.now)) }
        requires small { IsTrue (list_all (λ c. nat_le c.1 64) (ids_coming came.now)) }
        requires agree { IsTrue (list_all (λ c. agrees (known_in self.old.tables) c.0 c.1) (ids_coming came.now)) }
        ensures shape { IfOk result (λ key. shape_at self.new.tables key
            ≡ Some (changed_shape (ids_coming came.now) (is_among (ids_among went.now))
            (shape_of_cells (held_at (holdings_of self.old) entity.index)))) }
        ensures room { IfOk result (λ key. moves_to key plan.new.moves + 1 ≤ room_at self.new.tables key) }
        ensures moves { plan.new.moves ≡ plan.old.moves }
        ensures entities { self.new.entities ≡ self.old.entities }
        ensures grown { HasGrown self.old.tables self.new.tables }
        ensures held { HoldAlike (holdings_of self.new) (holdings_of self.old) }
        ensures sizes { KeepsSizes (known_in self.old.tables) (ids_coming came.now) (known_in self.new.tables) }
        ensures whole { IsHoused self.new }
    {
        let _ = &self.entities;
        if went.is_empty() && came.len() == 1 {
            return self.wider_beside(from, came[0].key().id(), came[0].size(), &plan.moves);
        }
        if came.is_empty() && went.len() == 1 {
            return self.narrower_beside(from, went[0].id(), &plan.moves);
        }
        let facts = self.facts(entity).unwrap();
        merge_ids(&mut plan.ids, &facts, came, went)?;
        self.prepare(plan.ids.as_slice(), &plan.moves)
    }

    // The table with one id more than this one, with room for the planned moves to it and for one more row.
    fn wider_beside(
        &mut self,
        from: TableKey,
        id: Id,
        size: usize,
        plan: &MovePlan<A>,
    ) -> Result<TableKey, Memory>
        requires stands { IsSome (table_at self.old.tables from) }
        requires small { size ≤ 64 }
        requires agree { IsTrue (agrees (known_in self.old.tables) id size) }
        ensures shape { (f : Shape) → shape_at self.old.tables from ≡ Some f
            → IfOk result (λ to. shape_at self.new.tables to ≡ Some (with_id f id size)) }
        ensures room { IfOk result (λ to. moves_to to plan.now + 1 ≤ room_at self.new.tables to) }
        ensures entities { self.new.entities ≡ self.old.entities }
        ensures kept { HasRoomMade ((id, size) ∷ []) self.old self.new }
    {
        self.tables.wider(from, id, size, plan)
    }

    // The table with one id less than this one, with room for the planned moves to it and for one more row.
    fn narrower_beside(
        &mut self,
        from: TableKey,
        id: Id,
        plan: &MovePlan<A>,
    ) -> Result<TableKey, Memory>
        requires stands { IsSome (table_at self.old.tables from) }
        ensures shape { (f : Shape) → shape_at self.old.tables from ≡ Some f
            → IfOk result (λ to. shape_at self.new.tables to ≡ Some (without_id f id)) }
        ensures room { IfOk result (λ to. moves_to to plan.now + 1 ≤ room_at self.new.tables to) }
        ensures entities { self.new.entities ≡ self.old.entities }
        ensures kept { HasRoomMade [] self.old self.new }
    {
        self.tables.narrower(from, id, plan)
    }
}
