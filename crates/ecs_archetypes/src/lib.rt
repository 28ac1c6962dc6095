//! The entities in their archetype tables: which live, where each stands, what each holds, and which tables stand.
//!
//! ```text
//! let mut entities = Archetypes::new(rt.alloc(), RandomState::new(&rt)?)?;
//! let (position, likes) = (SizedId::new(Id::plain(64), 8), SizedId::tag(Id::pair(65, 66)));
//!
//! // an entity in the table of its ids, with zeros as their values
//! let earth = entities.create(&[position])?;
//! let found = entities.find(earth, position.id()).unwrap();
//! entities.set_value(earth, found.place, position.id(), &[1, 0, 0, 0, 2, 0, 0, 0]);
//!
//! // facts that come and go of several entities, and deaths: all of it or nothing
//! let moon = entities.create(&[position])?;
//! let mut facts = FactPlan::new(rt.alloc());
//! let came = [SizedFact::new(FactKey::new(moon.index, position.id()), 8)];
//! entities.change_facts(&mut facts, &came, &[FactKey::new(earth.index, likes.id())], &[])?;
//!
//! // what queries read: the tables that have an id which a pattern matches, with their rows
//! let any = Pattern { first: Part::Is(65), second: Some(Part::Any) };
//! for key in entities.graph().tables_of(any) { .. }
//! ```
//!
//! What a call requires, as an entity that stands in a table, its caller proves: no call fails for want of it. A call
//! that can't get memory answers `Memory`, and each entity holds what it held; a table that was made on the way may
//! stay.
#![tactic(auto, using(ecs_id::specs::Id::id_tests))]

ghost use Rattle.std.specs.Prelude.{◌≡◌, IfOk};
ghost use Rattle.ecs_archetypes.specs.Holdings.{AreHoldings, first_holdings};
ghost use Rattle.ecs_archetypes.specs.Housing.{IsHoused, holdings_of};

mod births;
mod changes;
mod deaths;
mod entity_facts;
mod fact_changes;
mod fact_plan;
mod facts;
mod graph;
mod links;
mod plans;
mod readers;
mod rows;
mod tables;

use crate::tables::EnteredTables;
use ecs_id::LAST_INDEX;
pub use entity_facts::EntityFacts;
use entity_index::EntityIndex;
pub use fact_plan::{FactPlan, SizedFact};
pub use facts::FoundFact;
pub use graph::TableGraph;
pub use links::Links;
pub use raw_column::Memory;
use std::alloc::{Allocator, Global};
use std::hash::RandomState;
use std::marker::Model;

/// The entities in their archetype tables.
///
/// An entity is settled once it stands in a table. `settle`, `create`, `add`, `remove` and `replace` touch one row and
/// the last of its table. `change_facts` takes all memory that its moves need before the first of them. A table that
/// lost most of its rows gives memory back, after `add`, `remove` and `replace`, after the last move of `change_facts`,
/// and after each death. Readers take no memory, and look at no more than the ids of one table.
pub struct Archetypes<A: Allocator = Global> {
    entities: EntityIndex<A>,
    tables: EnteredTables<A>,
}

impl<A: Allocator> Drop for Archetypes<A> {
    fn drop(self) {
        let Self {
            entities: _,
            tables: _,
        } = self;
    }
}

impl<A: Allocator> Model for Archetypes<A> {
    ghost use Rattle.ecs_archetypes.specs.Archetypes.{IsSound};
    ghost use Rattle.ecs_archetypes.specs.Housing.{Housing};

    ghost Value = { Housing };

    ghost view = { λ a. record { entities = a.entities; tables = a.tables } };

    ghost invariant = { λ a. IsSound a.entities a.tables };
}

impl<A: Allocator + Copy> Archetypes<A> {
    /// The built-in entities, not yet in tables. Ids and tables are hashed with these random keys.
    pub fn new(alloc: A, random: RandomState) -> Result<Self, Memory>
        ensures first { IfOk result (λ a. holdings_of a ≡ first_holdings) }
        ensures holdings { IfOk result (λ a. AreHoldings (holdings_of a)) }
        ensures whole { IfOk result IsHoused }
    {
        let entities = EntityIndex::new(alloc, LAST_INDEX)?;
        let tables = EnteredTables::new(alloc, random);
        Ok(Archetypes { entities, tables })
    }
}
