//! Setting the value of an id for all entities of a table at once.

ghost use Rattle.std.specs.Prelude.{◌≡◌, MatchResult, None, OnErr, OnOk, Some, length};
ghost use Rattle.ecs_observe.specs.Columns.{IsColumnSetIn, set_column_error};
ghost use Rattle.ecs_observe.specs.Standing.{session_of};
ghost use Rattle.ecs_world.specs.Releases.{NoneGo};
ghost use Rattle.table_store.specs.Going.{TablesGoOn};

use crate::{Session, SetColumnError};
use ecs_id::{Id, TableKey};
use std::alloc::Allocator;

impl<A: Allocator> Session<A> {
    /// Sets the value of an id for each entity of a table, row by row: `bytes` holds one value after another, as the
    /// column of a chunk does.
    ///
    /// It does what one `set` for each of the entities in turn would do. So it is refused while events wait; while a
    /// stored query observes that values of this id are set, and would have to be notified of each; and where the world
    /// refuses it. No other stored query is notified of anything, so no events wait. It looks nothing up for a row, and
    /// takes no memory.
    pub fn set_column(&mut self, key: TableKey, id: Id, bytes: &[u8]) -> Result<(), SetColumnError>
        ensures set { OnOk result (IsColumnSetIn self.old key id bytes.now (session_of self.new)) }
        ensures judged { MatchResult result (λ _. set_column_error self.old key id (length bytes.now) ≡ None)
            (λ error. set_column_error self.old key id (length bytes.now) ≡ Some error) }
        ensures unchanged { OnErr result (self.new ≡ self.old) }
        ensures rest { self.new ≡ record self.old { world = (self.new).world } }
        ensures goes_on { TablesGoOn (self.old).world.tables (self.new).world.tables }
        ensures stay { NoneGo (self.old).world (self.new).world }
    {
        if self.has_events() {
            return Err(SetColumnError::EventsPending);
        }
        if self.stored.may_tell_set(id) {
            return Err(SetColumnError::Watched);
        }
        // What each `set` would begin with.
        self.world.keeps();
        self.world.set_column(key, id, bytes)?;
        Ok(())
    }
}
