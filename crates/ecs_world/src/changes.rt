//! What an accepted command has changed.

ghost use Rattle.std.specs.Prelude.{◌≡◌, [], ◌∷◌, IfOk};
ghost use Rattle.std.specs.Option.{option_copied};
ghost use Rattle.ecs_world.specs.Changes.{changed_by, changed_in};
ghost use Rattle.ecs_world.specs.State.{no_change};

use crate::Memory;
use crate::death_names::DeathName;
use ecs_id::EntityId;
use ecs_model::FactKey;
use std::alloc::{Allocator, Global};
use std::marker::Model;
use std::slice;

/// An entity that died, with the name that it had.
#[derive(Drop)]
pub struct Death<A: Allocator = Global> {
    entity: EntityId,
    name: Option<DeathName<A>>,
}

impl<A: Allocator> Model for Death<A> {
    ghost use Rattle.std.specs.Prelude.{ℕ, List, Option};
    ghost use Rattle.ecs_id.specs.declared.EntityId.{EntityId};

    ghost Value = { EntityId × Option (List ℕ) };

    ghost view = { λ d. (d.entity, d.name) };
}

impl<A: Allocator> Death<A> {
    pub(crate) fn new(entity: EntityId, name: Option<DeathName<A>>) -> Self
        ensures { result ≡ (entity, name) }
    {
        Death { entity, name }
    }

    /// The entity.
    pub fn entity(&self) -> EntityId
        ensures { result ≡ self.now.0 }
    {
        self.entity
    }

    /// Its name, if it had one.
    pub fn name(&self) -> Option<&str>
        ensures { option_copied result ≡ self.now.1 }
    {
        match &self.name {
            Some(name) => Some(name.as_str()),
            None => None,
        }
    }
}

/// What changes where traits bring or take facts, or where entities die.
#[derive(Drop)]
struct Lists<A: Allocator> {
    died: Vec<Death<A>, A>,
    came: Vec<FactKey, A>,
    went: Vec<FactKey, A>,
    written: Option<FactKey>,
}

/// Lists of what changes. A command makes them before it changes its world, and fills them after, which takes no more
/// memory.
pub(crate) struct ChangeLists<A: Allocator> {
    lists: Box<Lists<A>, A>,
}

impl<A: Allocator> Drop for ChangeLists<A> {
    #[inline(always)]
    fn drop(self) {
        let Self { lists: _ } = self;
    }
}

impl<A: Allocator + Copy> ChangeLists<A> {
    /// Empty lists.
    pub(crate) fn new(alloc: A) -> Result<Self, Memory>
        ensures { IfOk result (λ lists. changed_in lists ≡ no_change) }
    {
        let lists = Lists {
            died: Vec::new(alloc),
            came: Vec::new(alloc),
            went: Vec::new(alloc),
            written: None,
        };
        match Box::new(alloc, lists) {
            Ok(lists) => Ok(ChangeLists { lists }),
            Err(_) => Err(Memory),
        }
    }
}

impl<A: Allocator> ChangeLists<A> {
    /// With the facts that came and those that went, in order.
    pub(crate) fn with_facts(mut self, came: Vec<FactKey, A>, went: Vec<FactKey, A>) -> Self
        ensures { changed_in result ≡ record (changed_in self) { came = came.items; went = went.items } }
    {
        self.lists.came = came;
        self.lists.went = went;
        self
    }

    /// With the entities that died, by ascending index.
    pub(crate) fn with_died(mut self, died: Vec<Death<A>, A>) -> Self
        ensures { changed_in result ≡ record (changed_in self) { died = died.items } }
    {
        self.lists.died = died;
        self
    }

    /// With the fact whose value was set.
    pub(crate) fn with_written(mut self, key: FactKey) -> Self
        ensures { changed_in result ≡ record (changed_in self) { written = key ∷ [] } }
    {
        self.lists.written = Some(key);
        self
    }
}

/// A fact that came, and the one that went in its place. (They stand in a block, since two facts would make the changes
/// of every command larger, and slower to hand on.)
#[derive(Drop)]
pub(crate) struct Replaced {
    pub(crate) came: FactKey,
    pub(crate) went: FactKey,
}

/// Entities that died, by ascending index, and the fact that went with them: one at most, so that it takes no list.
#[derive(Drop)]
pub(crate) struct Fallen<A: Allocator> {
    pub(crate) died: Vec<Death<A>, A>,
    pub(crate) went: Option<FactKey>,
}

/// What a command has changed: mostly one fact or one entity, which takes no memory. What takes memory is made before
/// the world changes.
#[derive(Drop)]
pub(crate) enum Told<A: Allocator> {
    Nothing,
    Born(EntityId),
    /// An entity was made that holds a fact. Its index is the fact's.
    BornWith { generation: u16, fact: FactKey },
    Came(FactKey),
    Went(FactKey),
    Replaced(Box<Replaced, A>),
    Written(FactKey),
    /// A fact came and its value was set.
    CameWritten(FactKey),
    Died(Box<Fallen<A>, A>),
    Lists(ChangeLists<A>),
}

/// What an accepted command has changed.
pub struct Changes<A: Allocator = Global> {
    told: Told<A>,
}

// By hand, so that the drop of each kind is proved here, and not again wherever one goes.
impl<A: Allocator> Drop for Changes<A> {
    #[inline(always)]
    fn drop(self) {
        let Self { told: _ } = self;
    }
}

impl<A: Allocator> Model for Changes<A> {
    ghost use Rattle.ecs_model.specs.steps.Outcomes.{Changed};
    ghost use Rattle.ecs_world.specs.Changes.{changed_by};

    ghost Value = { Changed };

    ghost view = { λ c. changed_by c.told };
}

impl<A: Allocator> Changes<A> {
    pub(crate) fn of(told: Told<A>) -> Changes<A>
        ensures { result ≡ changed_by told }
    {
        Changes { told }
    }

    /// The entity that was made.
    pub fn born(&self) -> Option<EntityId>
        ensures { result ≡ self.now.born }
    {
        match &self.told {
            Told::Born(entity) => Some(*entity),
            Told::BornWith { generation, fact } => Some(EntityId {
                index: fact.entity(),
                generation: *generation,
            }),
            _ => None,
        }
    }

    /// The entities that died, by ascending index.
    pub fn died(&self) -> &[Death<A>]
        ensures { result.now ≡ self.now.died }
    {
        match &self.told {
            Told::Died(fallen) => fallen.died.as_slice(),
            Told::Lists(changes) => changes.lists.died.as_slice(),
            _ => &[],
        }
    }

    /// The facts that came, in order.
    pub fn came(&self) -> &[FactKey]
        ensures { result.now ≡ self.now.came }
    {
        match &self.told {
            Told::BornWith { fact, .. } | Told::Came(fact) | Told::CameWritten(fact) => {
                slice::from_ref(fact)
            }
            Told::Replaced(facts) => slice::from_ref(&facts.came),
            Told::Lists(changes) => changes.lists.came.as_slice(),
            _ => &[],
        }
    }

    /// The facts that went, in order. A death takes all that mention the entity.
    pub fn went(&self) -> &[FactKey]
        ensures { result.now ≡ self.now.went }
    {
        match &self.told {
            Told::Went(fact) => slice::from_ref(fact),
            Told::Replaced(facts) => slice::from_ref(&facts.went),
            Told::Died(fallen) => fallen.went.as_slice(),
            Told::Lists(changes) => changes.lists.went.as_slice(),
            _ => &[],
        }
    }

    /// The facts whose values were set, in order. The values are those in the world now.
    pub fn written(&self) -> &[FactKey]
        ensures { result.now ≡ self.now.written }
    {
        match &self.told {
            Told::Written(fact) | Told::CameWritten(fact) => slice::from_ref(fact),
            Told::Lists(changes) => changes.lists.written.as_slice(),
            _ => &[],
        }
    }
}
