//! A world of entities in archetype tables: what each holds, their names, and the fields of components.
//!
//! ```text
//! let mut world = World::new(rt.alloc(), RandomState::new(&rt)?)?;
//!
//! // a component with fields and a tag: the first two indexes that are given out
//! let fields = Schema::new(rt.alloc(), &[("x", Kind::I32), ("y", Kind::I32)])?;
//! world.component("Position", fields)?;
//! world.entity("Frozen")?;
//! let (position, frozen) = (Id::plain(64), Id::plain(65));
//!
//! // an entity with a value and a tag; each command answers what it has changed
//! if let Some(earth) = world.entity("Earth")?.born() {
//!     world.set(earth, position, &[150, -3])?;
//!     assert!(rt; world.add(earth, frozen)?.came().len() == 1);
//!     assert!(rt; world.ids_of(earth) == Some([position, frozen].as_slice()));
//!     assert!(rt; world.value(earth.index, position) == Some(Value::new(&[150, -3])));
//! }
//!
//! // a command against which there is a reason changes nothing
//! let taken = world.entity("Earth").map(|changes| changes.born());
//! assert!(rt; taken == Err(CommandError::Refused(Refusal::NameTaken)));
//! ```
//!
//! Each command is judged as a whole before anything is changed. Where memory is refused it answers `Memory`, and the
//! world is as it was. A command moves each entity whose ids it changes once, and takes time in what it changes and in
//! the ancestors and referrers that its rules ask for. Readers take no memory.
#![tactic(auto, using(ecs_id::specs::Id::id_tests))]

ghost use Rattle.std.specs.Prelude.{◌≡◌, IfOk};
ghost use Rattle.ecs_model.specs.World.{first_world};

mod additions;
mod birth_commands;
mod built_in;
mod changes;
mod columns;
mod death_names;
mod deletion;
mod fact_commands;
mod pins;
mod readers;
mod refusals;
mod releases;
mod single_facts;

pub use changes::{Changes, Death};
pub use columns::ColumnFault;
use deletion::Deletion;
use ecs_archetypes::{Archetypes, FactPlan};
pub use ecs_archetypes::{EntityFacts, Links, TableGraph};
pub use ecs_model::FactKey;
use ecs_schema::Schema;
use name_index::NameIndex;
pub use raw_column::Memory;
use rel_traits::PinCounts;
use rel_travel::Scratch;
use std::alloc::{Allocator, Global};
use std::collections::BTreeMap;
use std::hash::RandomState;
use std::marker::Model;

/// A world: its live entities in their tables, their names, and the fields of its components.
pub struct World<A: Allocator = Global> {
    archetypes: Archetypes<A>,
    names: NameIndex<A>,
    /// By the component's index.
    schemas: BTreeMap<u32, Schema<A>, A>,
    /// How many stored queries mention an entity, by its index. Every live entity is covered.
    pins: PinCounts<A>,
    /// How many commands were accepted.
    accepted: u64,
    /// Room for the searches along relationships.
    scratch: Scratch<A>,
    /// Room for the moves of one command.
    plan: FactPlan<A>,
    /// Room for the lists of one deletion.
    deletion: Deletion<A>,
    alloc: A,
}

// By hand, so that the drops of its parts are proved here, and not again wherever one goes.
impl<A: Allocator> Drop for World<A> {
    fn drop(self) {
        let Self {
            archetypes: _,
            names: _,
            schemas: _,
            pins: _,
            accepted: _,
            scratch: _,
            plan: _,
            deletion: _,
            alloc: _,
        } = self;
    }
}

impl<A: Allocator> Model for World<A> {
    ghost use Rattle.ecs_archetypes.specs.Housing.{holdings_of};
    ghost use Rattle.ecs_world.specs.Standing.{Standing};
    ghost use Rattle.ecs_world.specs.State.{IsWorld, parts_of, state_of};

    ghost Value = { Standing };

    ghost view = { λ w. record {
      state = state_of (parts_of (holdings_of w.archetypes) w.names w.schemas.entries w.pins w.accepted);
      tables = (w.archetypes).tables;
    } };

    ghost invariant = { λ w. IsWorld (parts_of (holdings_of w.archetypes) w.names w.schemas.entries w.pins
        w.accepted) };
}

impl<A: Allocator + Copy> World<A> {
    /// The world before any command: the built-in entities and their facts.
    ///
    /// Names, ids and tables are hashed with these random keys, so that nobody can choose any that make look-ups slow.
    pub fn new(alloc: A, random: RandomState) -> Result<Self, Memory>
        ensures { IfOk result (λ w. w.state ≡ first_world) }
    {
        Ok(World {
            archetypes: built_in::archetypes(alloc, random)?,
            names: built_in::names(alloc, random)?,
            schemas: BTreeMap::new(alloc),
            pins: built_in::pins(alloc)?,
            accepted: 0,
            scratch: Scratch::new(alloc),
            plan: FactPlan::new(alloc),
            deletion: Deletion::new(alloc),
            alloc,
        })
    }
}
