//! Moves of several entities: all growth first, then writes that can't fail.
ghost use Rattle.std.specs.Prelude.{◌≡◌, ◌<◌, ◌≤◌, ◌+◌, Some, IfOk, IsTrue, nat_le};
ghost use Rattle.std.specs.List.{list_all};
ghost use Rattle.ecs_id.specs.Id.{id_cmp};
ghost use Rattle.ecs_model.specs.Map.{IsMap};
ghost use Rattle.ecs_archetypes.specs.Archetypes.{known_in};
ghost use Rattle.ecs_archetypes.specs.Holdings.{AreHoldings, HoldAlike, agrees, is_settled};
ghost use Rattle.ecs_archetypes.specs.Housing.{HasRoomMade, IsHoused, holdings_of};
ghost use Rattle.ecs_archetypes.specs.Moves.{AreReady, with_all_moved, with_moved};
ghost use Rattle.ecs_archetypes.specs.Tables.{StandAlike, TakesRoom};
ghost use Rattle.table_store.specs.Store.{Shape, room_at, shape_at};

use crate::Archetypes;
use crate::plans::{EntityMove, MovePlan, Room};
use crate::rows::carry;
use ecs_id::{EntityId, TableKey};
use raw_column::Memory;
use std::alloc::Allocator;
use table_store::SizedId;

impl<A: Allocator + Copy> Archetypes<A> {
    // The table of these ids, with room for so many rows. Other tables keep their room.
    pub(crate) fn prepare<R: Room>(&mut self, ids: &[SizedId], room: &R) -> Result<TableKey, Memory>
        requires ascend { IsMap id_cmp ids.now }
        requires small { IsTrue (list_all (λ c. nat_le c.1 64) ids.now) }
        requires agree { IsTrue (list_all (λ c. agrees (known_in self.old.tables) c.0 c.1) ids.now) }
        ensures shape { IfOk result (λ key. shape_at self.new.tables key ≡ Some ids.now) }
        ensures room { IfOk result (λ key. R.wanted room.now key ≤ room_at self.new.tables key) }
        ensures entities { self.new.entities ≡ self.old.entities }
        ensures kept { HasRoomMade ids.now self.old self.new }
    {
        self.tables.table_for(ids, room)
    }

    // Moves an entity to a table that has room. It keeps the values of the ids there, and the others are zeros.
    //
    // Where it stands in the table already, nothing is done. The table that it leaves keeps its memory: see `shrink`.
    fn move_to(&mut self, entity: EntityId, to: TableKey)
        requires settled { IsTrue (is_settled (holdings_of self.old) entity) }
        requires room { 0 < room_at self.old.tables to }
        ensures held { (f : Shape) → shape_at self.old.tables to ≡ Some f
            → HoldAlike (holdings_of self.new) (with_moved (holdings_of self.old) entity f) }
        ensures alike { StandAlike self.old.tables self.new.tables }
        ensures room { TakesRoom to self.old.tables self.new.tables }
        ensures whole { IsHoused self.new }
    {
        let place = self.entities.place(entity).unwrap();
        if place.table != to {
            carry(&mut self.entities, &mut self.tables, entity, place, to);
        }
    }

    // Carries out the moves that were planned, one after another. The tables that they left then give memory back.
    pub(crate) fn carry_out(&mut self, plan: &MovePlan<A>)
        requires ready { AreReady self.old plan.now }
        ensures held { HoldAlike (holdings_of self.new) (with_all_moved self.old.tables plan.now
            (holdings_of self.old)) }
        ensures alike { StandAlike self.old.tables self.new.tables }
        ensures holdings { AreHoldings (holdings_of self.new) }
        ensures whole { IsHoused self.new }
    {
        let moves = plan.moves();
        self.move_all(moves);
        self.shrink_left(moves);
    }

    // The moves, while each table keeps the room for those that are left.
    fn move_all(&mut self, moves: &[EntityMove])
        requires ready { AreReady self.old moves.now }
        ensures held { HoldAlike (holdings_of self.new) (with_all_moved self.old.tables moves.now
            (holdings_of self.old)) }
        ensures alike { StandAlike self.old.tables self.new.tables }
        ensures whole { IsHoused self.new }
    {
        for one in moves {
            self.move_to(one.entity, one.to);
        }
        let _ = &self.entities;
    }

    // Gives back the memory that rows have left in the tables from which the moves led.
    fn shrink_left(&mut self, moves: &[EntityMove])
        ensures held { HoldAlike (holdings_of self.new) (holdings_of self.old) }
        ensures alike { StandAlike self.old.tables self.new.tables }
        ensures whole { IsHoused self.new }
    {
        for one in moves {
            self.shrink(one.from);
        }
        let _ = &self.entities;
    }
}
