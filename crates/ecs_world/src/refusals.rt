//! Why commands are refused. All is judged before anything is changed.

ghost use Rattle.std.specs.Prelude.{◌≡◌, ◌++◌, ◌||◌, IfErr, IfOk, IsTrue, None, OnOk, Some, length, true};
ghost use Rattle.std.specs.List.{list_all};
ghost use Rattle.ecs_id.specs.Id.{mentioned};
ghost use Rattle.ecs_model.specs.steps.Outcomes.{birth_reasons, is_spent, name_reasons, next_entity, value_reasons};
ghost use Rattle.ecs_model.specs.Refusal.{first_reason};
ghost use Rattle.ecs_model.specs.World.{holds, ids_of, is_alive, is_built_in, is_live, type_of_id};
ghost use Rattle.ecs_model.specs.steps.Step.{Add, Remove, SetValue, reasons};
ghost use Rattle.rel_traits.specs.Additions.{is_of_built_in};
ghost use Rattle.rel_traits.specs.Simple.{Arrives, ComesAlone, ComesInPlace, is_unmirrored};
ghost use Rattle.ecs_world.specs.State.{IsEncoded, growth_reasons};

use crate::World;
use crate::built_in::COMPONENT;
use ecs_archetypes::FoundFact;
use ecs_id::{EntityId, Id};
use ecs_model::built_ins::SYMMETRIC;
use ecs_model::faults::Refusal;
use ecs_model::{FactKey, LAST_BUILT_IN, MOST_IDS, is_name};
use ecs_schema::ValueFault;
use rel_traits::{Arrival, arrival_of, judge_remove, plain_comes_alone};
use std::alloc::Allocator;

impl<A: Allocator> World<A> {
    /// Why no entity is made.
    pub(crate) fn birth_refusal(&self) -> Option<Refusal>
        ensures { result ≡ first_reason (birth_reasons self.now.state) }
    {
        if self.upcoming().is_none() || self.is_spent() {
            Some(Refusal::Full)
        } else {
            None
        }
    }

    /// Why no entity is made with this name, where none is made with any.
    pub(crate) fn refusal_of(&self, name: &str, full: Refusal) -> Refusal
        requires { first_reason (birth_reasons self.now.state) ≡ Some full }
        ensures { Some result ≡ first_reason (name_reasons self.now.state name.now ++ birth_reasons self.now.state) }
    {
        if !is_name(name.as_bytes()) {
            Refusal::BadName
        } else if self.find(name).is_some() {
            Refusal::NameTaken
        } else {
            full
        }
    }

    /// Why a fact that comes alone is not added to a live entity.
    pub(crate) fn single_refusal(
        &self,
        entity: EntityId,
        id: Id,
        found: &FoundFact,
    ) -> Option<Refusal>
        requires alone { ComesAlone (ids_of self.now.state) (entity.index, id) }
        requires alive { IsTrue (is_alive self.now.state entity) }
        requires held { (found.now).is_held ≡ holds self.now.state entity.index id }
        requires count { (found.now).count ≡ length (ids_of self.now.state entity.index) }
        ensures { result ≡ first_reason (reasons self.now.state (Add entity id)) }
    {
        self.keeps();
        if !self.mentions_live(id) {
            Some(Refusal::Dead)
        } else if is_fixed(entity, id) {
            Some(Refusal::BuiltIn)
        } else {
            self.growth_refusal(found)
        }
    }

    /// Writes the bytes of a value of a fact that comes alone, of a live entity, to the beginning of the buffer, and
    /// answers how many they are, or why it is not set.
    pub(crate) fn judge_single(
        &self,
        entity: EntityId,
        id: Id,
        values: &[i128],
        found: &FoundFact,
        buffer: &mut [u8; 64],
    ) -> Result<usize, Refusal>
        requires alone { ComesAlone (ids_of self.now.state) (entity.index, id) }
        requires alive { IsTrue (is_alive self.now.state entity) }
        requires held { (found.now).is_held ≡ holds self.now.state entity.index id }
        requires count { (found.now).count ≡ length (ids_of self.now.state entity.index) }
        ensures judged { OnOk result (first_reason (reasons self.now.state (SetValue entity id values.now)) ≡ None) }
        ensures encoded { IfOk result (λ size. IsEncoded (type_of_id self.now.state id) values.now size buffer.new) }
        ensures refused { IfErr result (λ refusal. first_reason (reasons self.now.state (SetValue entity id values.now))
            ≡ Some refusal) }
    {
        self.keeps();
        if !self.mentions_live(id) {
            return Err(Refusal::Dead);
        }
        if is_fixed(entity, id) {
            return Err(Refusal::BuiltIn);
        }
        let size = self.encode(id, values, buffer)?;
        match self.growth_refusal(found) {
            None => Ok(size),
            Some(refusal) => Err(refusal),
        }
    }

    /// Why a fact that comes in the place of another is not added to a live entity. It needs no room, since the other
    /// goes.
    pub(crate) fn replacing_refusal(&self, entity: EntityId, id: Id, old: Id) -> Option<Refusal>
        requires in_place { ComesInPlace (ids_of self.now.state) (entity.index, id) old }
        requires alive { IsTrue (is_alive self.now.state entity) }
        ensures { result ≡ first_reason (reasons self.now.state (Add entity id)) }
    {
        self.keeps();
        let _ = old;
        if !self.mentions_live(id) {
            Some(Refusal::Dead)
        } else if is_fixed(entity, id) {
            Some(Refusal::BuiltIn)
        } else if self.is_spent() {
            Some(Refusal::Full)
        } else {
            None
        }
    }

    /// Why an id is not taken from a live entity.
    pub(crate) fn remove_refusal(&self, entity: EntityId, id: Id) -> Option<Refusal>
        requires { IsTrue (is_alive self.now.state entity) }
        ensures { result ≡ first_reason (reasons self.now.state (Remove entity id)) }
    {
        if !self.mentions_live(id) {
            return Some(Refusal::Dead);
        }
        judge_remove(FactKey::new(entity.index, id), self.is_spent())
    }

    /// How an added fact is seen to come: alone, in the place of one other, or with others.
    #[inline(always)]
    pub(crate) fn arrival_of(&self, entity: EntityId, id: Id) -> Arrival
        ensures { Arrives (ids_of self.now.state) (entity.index, id) result }
    {
        match id.second() {
            None => {
                if plain_comes_alone(self.ids_at(id.first()), id) {
                    Arrival::Alone
                } else {
                    Arrival::WithOthers
                }
            }
            Some(_) => arrival_of(&self.links(), FactKey::new(entity.index, id)),
        }
    }

    /// Whether a fact of an id has no mirror.
    pub(crate) fn is_unmirrored(&self, id: Id) -> bool
        ensures { result ≡ is_unmirrored (ids_of self.now.state) id }
    {
        id.second().is_none() || !self.ids_at(id.first()).contains(&Id::plain(SYMMETRIC))
    }

    /// Writes the bytes of a value to the beginning of the buffer, and answers how many they are, or why the numbers
    /// are no value of the id.
    pub(crate) fn encode(
        &self,
        id: Id,
        values: &[i128],
        buffer: &mut [u8; 64],
    ) -> Result<usize, Refusal>
        ensures judged { OnOk result (first_reason (value_reasons (type_of_id self.now.state id) values.now) ≡ None) }
        ensures encoded { IfOk result (λ size. IsEncoded (type_of_id self.now.state id) values.now size buffer.new) }
        ensures refused { IfErr result (λ refusal. first_reason (value_reasons
            (type_of_id self.now.state id) values.now) ≡ Some refusal) }
    {
        let Some(schema) = self.type_of(id) else {
            return Err(Refusal::NoData);
        };
        let size = schema.size();
        match schema.encode(values, &mut buffer[..size]) {
            Ok(()) => Ok(size),
            Err(ValueFault::Count) => Err(Refusal::Count),
            Err(ValueFault::Range) => Err(Refusal::Range),
        }
    }

    /// Why an entity does not get one more id, if it gets one.
    fn growth_refusal(&self, found: &FoundFact) -> Option<Refusal>
        ensures { result ≡ first_reason (growth_reasons found.now (is_spent self.now.state)) }
    {
        if !found.is_held && found.count >= MOST_IDS {
            Some(Refusal::TooManyIds)
        } else if self.is_spent() {
            Some(Refusal::Full)
        } else {
            None
        }
    }

    /// Whether all that an id mentions is live.
    pub(crate) fn mentions_live(&self, id: Id) -> bool
        ensures { result ≡ list_all (is_live self.now.state) (mentioned id) }
    {
        self.is_live(id.first()) && id.second().is_none_or(|target| self.is_live(target))
    }

    /// No further command is counted.
    pub(crate) fn is_spent(&self) -> bool
        ensures { result ≡ is_spent self.now.state }
    {
        self.accepted == u64::MAX
    }

    /// The entity that the next birth makes, None where no index is left.
    pub(crate) fn upcoming(&self) -> Option<EntityId>
        ensures { result ≡ next_entity self.now.state }
    {
        self.archetypes.upcoming()
    }
}

/// Whether a fact is of a built-in entity, or is the tag of components.
fn is_fixed(entity: EntityId, id: Id) -> bool
    ensures { result ≡ is_of_built_in (entity.index, id) }
{
    is_built_in(entity.index) || id == Id::plain(COMPONENT)
}

pub(crate) fn is_built_in(index: u32) -> bool
    ensures { result ≡ is_built_in index }
{
    1 <= index && index <= LAST_BUILT_IN
}
