//! One entity's ids and values: what it holds is found, and then changed at its place.
ghost use Rattle.std.specs.Prelude.{◌≡◌, ◌≢◌, ℕ, ◌<◌, ◌≤◌, [], ◌∷◌, Some, IfOk, IfSome, OnOk, OnErr, IsTrue, is_some};
ghost use Rattle.std.specs.Prelude.{length, option_map, replicate, false};
ghost use Rattle.std.specs.Prelude.{true};
ghost use Rattle.ecs_id.specs.Id.{id_cmp, id_eq};
ghost use Rattle.ecs_model.specs.Map.{with_value, without};
ghost use Rattle.entity_index.specs.Entities.{place_of};
ghost use Rattle.ecs_archetypes.specs.Archetypes.{known_in};
ghost use Rattle.ecs_archetypes.specs.Holdings.{HoldAlike, agrees, held_at, holds_id, is_settled, with_cells};
ghost use Rattle.ecs_archetypes.specs.Holdings.{with_each_written};
ghost use Rattle.ecs_archetypes.specs.Housing.{IsHoused, holdings_of};
ghost use Rattle.ecs_archetypes.specs.Lasting.{TablesLast};
ghost use Rattle.ecs_archetypes.specs.Moves.{with_moved};
ghost use Rattle.ecs_archetypes.specs.Tables.{StandAlike};
ghost use Rattle.ecs_table.specs.Archetype.{Archetype};
ghost use Rattle.table_store.specs.Rows.{AreValues};
ghost use Rattle.table_store.specs.Store.{Shape, room_at, shape_at, size_in, table_at};

use crate::Archetypes;
use crate::fact_plan::{FactPlan, SizedFact};
use crate::plans::OneRow;
use crate::rows::carry_alone;
use ecs_id::{EntityId, Id, Place, TableKey};
use ecs_model::FactKey;
use raw_column::Memory;
use std::alloc::Allocator;

/// Where the row of an entity stands, whether the entity holds an id that was looked for, and how many ids it holds.
#[derive(Clone, Copy)]
pub struct FoundFact {
    pub place: Place,
    pub is_held: bool,
    pub count: usize,
}

impl<A: Allocator + Copy> Archetypes<A> {
    /// Gives an entity an id that it doesn't hold, with zeros as its value: its row moves to the table with the id.
    /// Answers where it stands then.
    pub fn add(
        &mut self,
        entity: EntityId,
        place: Place,
        id: Id,
        size: usize,
    ) -> Result<Place, Memory>
        requires there { place_of self.old.entities entity ≡ Some place }
        requires not_held { holds_id (holdings_of self.old) entity.index id ≡ false }
        requires small { size ≤ 64 }
        requires agree { IsTrue (agrees (known_in self.old.tables) id size) }
        ensures placed { IfOk result (λ now. place_of self.new.entities entity ≡ Some now) }
        ensures added { OnOk result (HoldAlike (holdings_of self.new)
            (with_cells (holdings_of self.old) entity.index (with_value id_cmp
            (held_at (holdings_of self.old) entity.index) id (replicate size 0)))) }
        ensures refused { OnErr result (HoldAlike (holdings_of self.new) (holdings_of self.old)) }
        ensures kept { TablesLast ((id, size) ∷ []) self.old self.new }
    {
        let to = self.tables.wider(place.table, id, size, &OneRow)?;
        let now = carry_alone(&mut self.entities, &mut self.tables, entity, place, to);
        Ok(now)
    }

    /// Gives an entity a value of an id with data, and the id where it doesn't hold it.
    #[inline(always)]
    pub fn put(
        &mut self,
        entity: EntityId,
        found: &FoundFact,
        id: Id,
        bytes: &[u8],
    ) -> Result<(), Memory>
        requires there { place_of self.old.entities entity ≡ Some (found.now).place }
        requires held { (found.now).is_held ≡ holds_id (holdings_of self.old) entity.index id }
        requires data { 0 < length bytes.now }
        requires small { length bytes.now ≤ 64 }
        requires agree { IsTrue (agrees (known_in self.old.tables) id (length bytes.now)) }
        ensures put { OnOk result (HoldAlike (holdings_of self.new)
            (with_cells (holdings_of self.old) entity.index (with_value id_cmp
            (held_at (holdings_of self.old) entity.index) id bytes.now))) }
        ensures refused { OnErr result (HoldAlike (holdings_of self.new) (holdings_of self.old)) }
        ensures kept { TablesLast ((id, length bytes.now) ∷ []) self.old self.new }
    {
        if found.is_held {
            self.set_value(entity, found.place, id, bytes);
            return Ok(());
        }
        let now = self.add(entity, found.place, id, bytes.len())?;
        self.set_value(entity, now, id, bytes);
        Ok(())
    }

    /// Takes an id from an entity that holds it: its row moves to the table without the id.
    pub fn remove(&mut self, entity: EntityId, place: Place, id: Id) -> Result<(), Memory>
        requires there { place_of self.old.entities entity ≡ Some place }
        requires held { holds_id (holdings_of self.old) entity.index id ≡ true }
        ensures removed { OnOk result (HoldAlike (holdings_of self.new)
            (with_cells (holdings_of self.old) entity.index (without id_cmp
            (held_at (holdings_of self.old) entity.index) (λ i. id_eq i id)))) }
        ensures refused { OnErr result (HoldAlike (holdings_of self.new) (holdings_of self.old)) }
        ensures kept { TablesLast [] self.old self.new }
    {
        let to = self.tables.narrower(place.table, id, &OneRow)?;
        carry_alone(&mut self.entities, &mut self.tables, entity, place, to);
        Ok(())
    }

    /// Gives an entity an id that it doesn't hold, with zeros as its value, in the place of one that it holds: its row
    /// moves once, to the table with the one and without the other. Answers where it stands then. The plan lends its
    /// room, and what moves it had are let go.
    pub fn replace(
        &mut self,
        plan: &mut FactPlan<A>,
        entity: EntityId,
        place: Place,
        old: Id,
        id: Id,
        size: usize,
    ) -> Result<Place, Memory>
        requires there { place_of self.old.entities entity ≡ Some place }
        requires not_held { holds_id (holdings_of self.old) entity.index id ≡ false }
        requires small { size ≤ 64 }
        requires agree { IsTrue (agrees (known_in self.old.tables) id size) }
        ensures placed { IfOk result (λ now. place_of self.new.entities entity ≡ Some now) }
        ensures replaced { OnOk result (HoldAlike (holdings_of self.new)
            (with_cells (holdings_of self.old) entity.index (with_value id_cmp
            (without id_cmp (held_at (holdings_of self.old) entity.index) (λ i. id_eq i old)) id (replicate size 0)))) }
        ensures refused { OnErr result (HoldAlike (holdings_of self.new) (holdings_of self.old)) }
        ensures kept { TablesLast ((id, size) ∷ []) self.old self.new }
    {
        let _ = &self.entities;
        let came = [SizedFact::new(FactKey::new(entity.index, id), size)];
        let went = [FactKey::new(entity.index, old)];
        plan.moves.clear();
        let to = self.table_after(plan, entity, place.table, &came, &went)?;
        Ok(self.carry_to(entity, place, to))
    }

    // Moves the row of an entity to another table that has room, and answers where it stands then. The table that it
    // leaves gives memory back.
    fn carry_to(&mut self, entity: EntityId, place: Place, to: TableKey) -> Place
        requires there { place_of self.old.entities entity ≡ Some place }
        requires apart { place.table ≢ to }
        requires room { 0 < room_at self.old.tables to }
        ensures placed { place_of self.new.entities entity ≡ Some result }
        ensures held { (f : Shape) → shape_at self.old.tables to ≡ Some f
            → HoldAlike (holdings_of self.new) (with_moved (holdings_of self.old) entity f) }
        ensures alike { StandAlike self.old.tables self.new.tables }
        ensures whole { IsHoused self.new }
    {
        carry_alone(&mut self.entities, &mut self.tables, entity, place, to)
    }
}

impl<A: Allocator> Archetypes<A> {
    /// Overwrites the value of an id with data that the entity holds, with as many bytes.
    pub fn set_value(&mut self, entity: EntityId, place: Place, id: Id, bytes: &[u8])
        requires there { place_of self.old.entities entity ≡ Some place }
        requires held { holds_id (holdings_of self.old) entity.index id ≡ true }
        requires data { 0 < length bytes.now }
        requires size { IsTrue (agrees (known_in self.old.tables) id (length bytes.now)) }
        ensures written { HoldAlike (holdings_of self.new) (with_cells (holdings_of self.old) entity.index
            (with_value id_cmp (held_at (holdings_of self.old) entity.index) id bytes.now)) }
        ensures entities { self.new.entities ≡ self.old.entities }
        ensures alike { StandAlike self.old.tables self.new.tables }
        ensures kept { TablesLast [] self.old self.new }
    {
        let _ = entity;
        self.tables.set_value(place.table, place.row, id, bytes);
    }

    /// Overwrites the values of an id with data of all entities of a table, by row, with as many bytes, those of one
    /// row after another.
    pub fn set_column(&mut self, key: TableKey, id: Id, bytes: &[u8])
        requires { AreValues self.old.tables key id bytes.now }
        ensures written { (t : Archetype) (n : ℕ) → table_at self.old.tables key ≡ Some t
            → size_in self.old.tables key id ≡ Some n
            → HoldAlike (holdings_of self.new) (with_each_written id n t.entities bytes.now (holdings_of self.old)) }
        ensures entities { self.new.entities ≡ self.old.entities }
        ensures alike { StandAlike self.old.tables self.new.tables }
        ensures kept { TablesLast [] self.old self.new }
    {
        self.tables.set_column(key, id, bytes);
    }

    /// Finds the row of a settled entity, and looks there for an id.
    // A call would write the answer to memory, and its caller clear that before.
    #[inline(always)]
    pub fn find(&self, entity: EntityId, id: Id) -> Option<FoundFact>
        ensures settled { is_some result ≡ is_settled (holdings_of self.now) entity }
        ensures place { option_map (λ f. f.place) result ≡ place_of self.now.entities entity }
        ensures held { IfSome result (λ f. f.is_held ≡ holds_id (holdings_of self.now) entity.index id) }
        ensures count { IfSome result (λ f. f.count ≡ length (held_at (holdings_of self.now) entity.index)) }
    {
        let place = self.entities.place(entity)?;
        let ids = self.tables.get(place.table)?.ids();
        Some(FoundFact {
            place,
            is_held: ids.contains(&id),
            count: ids.len(),
        })
    }
}
