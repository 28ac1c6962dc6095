//! Storing queries, and dropping them.

ghost use Rattle.std.specs.Prelude.{◌≡◌, ◌≢◌, ◌<◌, ◌≤◌, All, length, false, None, OnErr, OnOk};
ghost use Rattle.std.specs.List.{list_any};
ghost use Rattle.std.specs.String.{string_bytes};
ghost use Rattle.ecs_model.specs.stored.Session.{Drop, Store, apply, most_stored};
ghost use Rattle.ecs_observe.specs.Answers.{AnswersApply, none_born};
ghost use Rattle.ecs_observe.specs.Following.{ListsOneLess, ListsOneMore};
ghost use Rattle.watch_stored.specs.Lists.{HasNewList};
ghost use Rattle.ecs_observe.specs.Parts.{held_of};
ghost use Rattle.watch_stored.specs.Held.{IsHeld, IsNow, is_compared};
ghost use Rattle.ecs_observe.specs.Standing.{session_of};
ghost use Rattle.ecs_observe.specs.Storing.{CountsStored, store_refusal, with_held};

use crate::pinning::{pin_all, unpin_all};
use crate::watched::read_watched;
use crate::{Session, SessionError};
use ecs_model::faults::{Refusal, SessionRefusal};
use ecs_model::is_name;
use ecs_model::watches::StoredKind;
use std::alloc::{AllocError, Allocator};
use watch_stored::{StoredQuery, stored_query};

/// How many stored queries a session has at most.
const MOST_STORED: usize = 1024;

impl<A: Allocator + Copy> Session<A> {
    /// Stores the query of a text under a new name. The entities that it names can't be deleted while it is stored.
    ///
    /// Refused in this order: while events wait; where the text of the name is no name; where a stored query has the
    /// name; where 1,024 queries are stored; with the fault of the text; and with the fault of the query for its kind:
    /// a monitor or an observer needs `$this`, and an observer has exactly one term.
    pub fn store(&mut self, kind: StoredKind, name: &str, text: &str) -> Result<(), SessionError>
        ensures answers { AnswersApply (none_born result) (apply (session_of self.old) (Store kind name.now text.now)) self.old
            self.new }
        ensures compared { list_any is_compared (self.new).stored ≡ false → (self.new).compared ≡ (self.old).compared }
        ensures counted { CountsStored result kind text.now self.old self.new }
        ensures grows { (self.old).compared ≤ (self.new).compared }
        ensures lists { ListsOneMore result name.now self.old self.new }
        ensures tables { (self.new).world.tables ≡ (self.old).world.tables }
    {
        if let Some(reason) = self.store_refusal(name) {
            return Err(SessionError::Refused(reason));
        }
        let alloc = self.alloc();
        let world = self.world();
        let mut compared = self.compared();
        let query = read_watched(alloc, world, kind, text)?;
        let stored = stored_query(alloc, world, kind, query, &mut compared)?;
        let name = String::from_str(alloc, name)?;
        self.hold(name, stored, compared)?;
        Ok(())
    }

    /// Drops the stored query with a name. Refused while events wait, and where no stored query has the name.
    pub fn drop_stored(&mut self, name: &str) -> Result<(), SessionError>
        ensures answers { AnswersApply (none_born result) (apply (session_of self.old) (Drop name.now)) self.old self.new }
        ensures compared { (self.new).compared ≡ (self.old).compared }
        ensures lists { ListsOneLess result name.now self.old self.new }
        ensures tables { (self.new).world.tables ≡ (self.old).world.tables }
    {
        if self.waiting.is_some() {
            return Err(SessionError::Refused(SessionRefusal::EventsPending));
        }
        let Some(dropped) = self.stored.remove(name) else {
            return Err(SessionError::Refused(SessionRefusal::UnknownQuery));
        };
        unpin_all(&mut self.world, dropped.value.value.plan.query().mentions());
        Ok(())
    }

    /// Why a query can't be stored under a name, whatever its text.
    fn store_refusal(&self, name: &str) -> Option<SessionRefusal>
        ensures { result ≡ store_refusal (session_of self.now) name.now }
    {
        if self.waiting.is_some() {
            return Some(SessionRefusal::EventsPending);
        }
        if !is_name(name.as_bytes()) {
            return Some(SessionRefusal::OfWorld(Refusal::BadName));
        }
        if self.stored.contains_key(name) {
            return Some(SessionRefusal::QueryTaken);
        }
        if self.stored.len() >= MOST_STORED {
            return Some(SessionRefusal::TooManyStored);
        }
        None
    }

    /// Appends a stored query under a name that no other has. `compared` is how often monitors were evaluated by then.
    ///
    /// Fails where memory is refused; then nothing has changed.
    fn hold(
        &mut self,
        name: String<A>,
        stored: StoredQuery<A>,
        compared: u64,
    ) -> Result<(), AllocError>
        requires idle { self.old.waiting ≡ None }
        requires free { All (λ h. h.name ≢ string_bytes name) self.old.stored }
        requires few { length self.old.stored < most_stored }
        requires held { IsHeld (self.old.world).state (held_of (name, stored)) }
        requires now { IsNow (self.old.world).state (held_of (name, stored)) }
        requires list { HasNewList stored }
        ensures held { OnOk result (self.new ≡ record (with_held self.old
            (held_of (name, stored))) { compared = compared }) }
        ensures refused { OnErr result (self.new ≡ self.old) }
    {
        let (key, made) = self.stored.prepare(self.alloc, name, stored)?;
        pin_all(&mut self.world, made.value.value.plan.query().mentions());
        self.stored.put(key, made);
        self.compared = compared;
        Ok(())
    }
}
