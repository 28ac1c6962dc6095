//! Commands on facts.

ghost use Rattle.std.specs.Prelude.{◌≡◌, None, All, IfErr, IfOk, OnErr, OnOk, false, true};
ghost use Rattle.std.specs.List.{list_all, list_any};
ghost use Rattle.ecs_archetypes.specs.Staying.{TablesStay};
ghost use Rattle.ecs_id.specs.Id.{mentioned};
ghost use Rattle.ecs_model.specs.Refusal.{first_reason};
ghost use Rattle.ecs_model.specs.World.{entities, is_alive, is_live};
ghost use Rattle.ecs_model.specs.steps.FactChanges.{facts_after_add};
ghost use Rattle.ecs_model.specs.steps.Outcomes.{AnswersStep, with_facts};
ghost use Rattle.ecs_model.specs.steps.Step.{Add, Remove, SetValue, add_reasons, step};
ghost use Rattle.ecs_model.specs.steps.Step.{adds_built_in as brings_built_in};
ghost use Rattle.ecs_world.specs.Changes.{TellsRefusal, changed_in, fact_reasons, sized_by};
ghost use Rattle.ecs_world.specs.Releases.{NoneGo, OnlyForgottenGo, gets_no_data};
ghost use Rattle.ecs_world.specs.State.{no_change};
ghost use Rattle.rel_traits.specs.Additions.{TellsAddition};
ghost use Rattle.rel_traits.specs.FactLists.{IsOfLive};
ghost use Rattle.table_store.specs.Going.{TablesGoOn};

use crate::changes::{ChangeLists, Told};
use crate::{Changes, World};
use ecs_id::{EntityId, Id};
use ecs_model::FactKey;
use ecs_model::faults::{CommandError, Refusal};
use rel_traits::{Additions, Arrival, adds_built_in};
use std::alloc::Allocator;

impl<A: Allocator + Copy> World<A> {
    /// Adds an id to an entity, with zeros as its value. A fact that is there already keeps its value.
    ///
    /// With it come the facts of With and the mirror of a Symmetric relationship, and the other targets of an Exclusive
    /// one go. Where it gives the entity a new base (IsA), copies of what the base holds come with their values, as
    /// OnInstantiate of each component says.
    pub fn add(&mut self, entity: EntityId, id: Id) -> Result<Changes<A>, CommandError>
        ensures answers { AnswersStep result (step self.old.state (Add entity id)) self.old.state self.new.state }
        ensures goes_on { TablesGoOn self.old.tables self.new.tables }
        ensures stay { OnlyForgottenGo self.old self.new }
    {
        match self.arrival_of(entity, id) {
            Arrival::Alone => self.add_single(entity, id),
            Arrival::InPlaceOf(old) => self.add_in_place(entity, id, old),
            Arrival::WithOthers => self.add_all(entity, id),
        }
    }

    /// Gives a fact a value, a number for each field of its id. A fact that isn't there comes first, as by `add`.
    pub fn set(
        &mut self,
        entity: EntityId,
        id: Id,
        values: &[i128],
    ) -> Result<Changes<A>, CommandError>
        ensures answers { AnswersStep result (step self.old.state (SetValue entity id values.now)) self.old.state
            self.new.state }
        ensures goes_on { TablesGoOn self.old.tables self.new.tables }
        ensures stay { OnlyForgottenGo self.old self.new }
    {
        match self.arrival_of(entity, id) {
            Arrival::Alone => self.set_single(entity, id, values),
            Arrival::InPlaceOf(_) | Arrival::WithOthers => self.set_all(entity, id, values),
        }
    }

    /// Takes an id from an entity, with the mirror of a Symmetric relationship. Where the entity doesn't hold it,
    /// nothing changes but the count of commands.
    pub fn remove(&mut self, entity: EntityId, id: Id) -> Result<Changes<A>, CommandError>
        ensures answers { AnswersStep result (step self.old.state (Remove entity id)) self.old.state self.new.state }
        ensures goes_on { TablesGoOn self.old.tables self.new.tables }
        ensures stay { NoneGo self.old self.new }
    {
        if self.is_unmirrored(id) {
            self.remove_single(entity, id)
        } else {
            self.remove_both(entity, id)
        }
    }

    /// `add` with all that traits bring and take.
    #[cold]
    #[inline(never)]
    fn add_all(&mut self, entity: EntityId, id: Id) -> Result<Changes<A>, CommandError>
        ensures answers { AnswersStep result (step self.old.state (Add entity id)) self.old.state self.new.state }
        ensures goes_on { TablesGoOn self.old.tables self.new.tables }
        ensures stay { OnlyForgottenGo self.old self.new }
    {
        self.keeps();
        let additions = self.additions_of(entity, id)?;
        let lists = self.bring_judged(entity, id, &additions)?;
        self.accepted += 1;
        let lists = lists.with_facts(additions.came, additions.went);
        Ok(Changes::of(Told::Lists(lists)))
    }

    /// `set` with all that traits bring and take.
    #[cold]
    #[inline(never)]
    fn set_all(
        &mut self,
        entity: EntityId,
        id: Id,
        values: &[i128],
    ) -> Result<Changes<A>, CommandError>
        ensures answers { AnswersStep result (step self.old.state (SetValue entity id values.now)) self.old.state
            self.new.state }
        ensures goes_on { TablesGoOn self.old.tables self.new.tables }
        ensures stay { OnlyForgottenGo self.old self.new }
    {
        self.keeps();
        let additions = self.additions_of(entity, id)?;
        let mut buffer = [0; 64];
        let size = match self.encode(id, values, &mut buffer) {
            Ok(size) => size,
            Err(refusal) => return Err(CommandError::Refused(refusal)),
        };
        let lists = self.bring_judged(entity, id, &additions)?;
        self.write(entity, id, &buffer[..size]);
        self.accepted += 1;
        let lists = lists.with_facts(additions.came, additions.went);
        let key = FactKey::new(entity.index, id);
        Ok(Changes::of(Told::Lists(lists.with_written(key))))
    }

    /// What comes and goes with a fact, where no reason is against it that comes before those against its value. The
    /// world stays as it is.
    fn additions_of(&mut self, entity: EntityId, id: Id) -> Result<Additions<A>, CommandError>
        ensures same { self.new ≡ self.old }
        ensures alive { OnOk result (is_alive self.old.state entity ≡ true) }
        ensures mentions { OnOk result (list_all (is_live self.old.state) (mentioned id) ≡ true) }
        ensures others { OnOk result (brings_built_in self.old.state entity.index id ≡ false) }
        ensures tells { IfOk result (λ additions. TellsAddition self.old.state (entity.index, id) additions.base
            additions.added.items additions.copies.items additions.came.items additions.went.items) }
        ensures live { IfOk result (λ additions. All (IsOfLive (entities self.old.state)) additions.added.items) }
        ensures copies_live { IfOk result (λ additions. All (IsOfLive (entities self.old.state))
            additions.copies.items) }
        ensures refused { IfErr result (TellsRefusal (first_reason (fact_reasons self.old.state entity id))) }
    {
        if !self.is_alive(entity) || !self.mentions_live(id) {
            return Err(CommandError::Refused(Refusal::Dead));
        }
        let mut additions = Additions::new(self.alloc);
        if self.list_additions(entity, id, &mut additions).is_err() {
            return Err(CommandError::Memory);
        }
        if adds_built_in(&additions.added) {
            return Err(CommandError::Refused(Refusal::BuiltIn));
        }
        Ok(additions)
    }

    /// Brings what comes with a fact of live entities, and takes what gives way to it, where nothing comes to what is
    /// built in and no reason is against what would be left. The command is not counted yet.
    ///
    /// It answers empty lists for what has changed. Their memory is got before any row moves.
    fn bring_judged(
        &mut self,
        entity: EntityId,
        id: Id,
        additions: &Additions<A>,
    ) -> Result<ChangeLists<A>, CommandError>
        requires alive { is_alive self.old.state entity ≡ true }
        requires mentions { list_all (is_live self.old.state) (mentioned id) ≡ true }
        requires others { brings_built_in self.old.state entity.index id ≡ false }
        requires tells { TellsAddition self.old.state (entity.index, id) additions.now.base additions.now.added.items
            additions.now.copies.items
            additions.now.came.items additions.now.went.items }
        requires live { All (IsOfLive (entities self.old.state)) additions.now.added.items }
        requires copies_live { All (IsOfLive (entities self.old.state)) additions.now.copies.items }
        ensures judged { OnOk result (first_reason (add_reasons self.old.state entity.index id) ≡ None) }
        ensures brought { OnOk result (self.new.state ≡ with_facts self.old.state
            (facts_after_add self.old.state entity.index id)) }
        ensures empty { IfOk result (λ lists. changed_in lists ≡ no_change) }
        ensures refused { IfErr result (TellsRefusal (first_reason (add_reasons self.old.state entity.index id))) }
        ensures unchanged { OnErr result (self.new.state ≡ self.old.state) }
        ensures goes_on { TablesGoOn self.old.tables self.new.tables }
        ensures stay { OnOk result (TablesStay (list_any (gets_no_data
            (sized_by self.old.state additions.now.came.items))) self.old.tables self.new.tables) }
        ensures kept { OnErr result (NoneGo self.old self.new) }
    {
        let Ok(judged) = self.addition_refusal(entity, id, &additions) else {
            return Err(CommandError::Memory);
        };
        if let Some(refusal) = judged {
            return Err(CommandError::Refused(refusal));
        }
        let Ok(lists) = ChangeLists::new(self.alloc) else {
            return Err(CommandError::Memory);
        };
        if self.bring(entity, id, &additions).is_err() {
            return Err(CommandError::Memory);
        }
        Ok(lists)
    }

    /// `remove` with the mirror.
    #[cold]
    #[inline(never)]
    fn remove_both(&mut self, entity: EntityId, id: Id) -> Result<Changes<A>, CommandError>
        ensures answers { AnswersStep result (step self.old.state (Remove entity id)) self.old.state self.new.state }
        ensures goes_on { TablesGoOn self.old.tables self.new.tables }
        ensures stay { NoneGo self.old self.new }
    {
        if !self.is_alive(entity) {
            return Err(CommandError::Refused(Refusal::Dead));
        }
        if let Some(refusal) = self.remove_refusal(entity, id) {
            return Err(CommandError::Refused(refusal));
        }
        let mut went = Vec::new(self.alloc);
        if self.list_removals(entity, id, &mut went).is_err() {
            return Err(CommandError::Memory);
        }
        let Ok(lists) = ChangeLists::new(self.alloc) else {
            return Err(CommandError::Memory);
        };
        if self.take(entity, id, &went).is_err() {
            return Err(CommandError::Memory);
        }
        self.accepted += 1;
        let lists = lists.with_facts(Vec::new(self.alloc), went);
        Ok(Changes::of(Told::Lists(lists)))
    }
}
