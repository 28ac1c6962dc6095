//! The values of an id that all entities of a table get at once.

ghost use Rattle.std.specs.Prelude.{◌≡◌, ◌≤◌, is_some, IfErr, IfOk, MatchResult, None, OnOk, OnErr, Some, length};
ghost use Rattle.std.specs.List.{list_any};
ghost use Rattle.ecs_model.specs.BuiltIns.{with_trait};
ghost use Rattle.ecs_model.specs.Links.{target_under};
ghost use Rattle.ecs_model.specs.World.{ids_of, type_of_id};
ghost use Rattle.ecs_world.specs.Releases.{NoneGo};
ghost use Rattle.table_store.specs.Going.{TablesGoOn};
ghost use Rattle.table_store.specs.Rows.{rows_in};
ghost use Rattle.ecs_archetypes.specs.Tables.{StandAlike};
ghost use Rattle.ecs_world.specs.Columns.{IsColumnSet, column_fault, may_bring};
ghost use Rattle.ecs_world.specs.State.{byte_count};

use crate::World;
use ecs_id::{Id, TableKey};
use ecs_model::built_ins::WITH;
use rel_travel::target_under;
use std::alloc::Allocator;
use thiserror::Error;

/// Why the values of a table's entities are not set. Of the faults that apply, the first in this order is answered.
#[derive(Clone, Copy, Debug, PartialEq, Eq, Error)]
pub enum ColumnFault {
    /// No table stands under the key.
    #[error("no table has this key")]
    Gone,
    /// The entities of the table don't hold the id.
    #[error("the table's entities don't hold this id")]
    NotHeld,
    /// The id has no fields. What built-in entities hold has none.
    #[error("the id has no fields")]
    NoData,
    /// A `set` may bring other facts: the id's component or relationship has a pair of With, or its relationship is
    /// Symmetric.
    #[error("a value of this id may bring other facts")]
    Brings,
    /// The bytes are not one value for each row.
    #[error("the bytes are not one value for each row")]
    Size,
    /// So many commands can't be counted any more.
    #[error("no further command is counted")]
    Full,
}

impl<A: Allocator> World<A> {
    /// Sets the value of an id for each entity of a table, by row: the bytes of one value stand after those of another,
    /// as in the column of a chunk.
    ///
    /// It is as one `set` of each of them in turn, and counted as so many commands. It looks nothing up for a row, and
    /// takes no memory.
    pub fn set_column(&mut self, key: TableKey, id: Id, bytes: &[u8]) -> Result<(), ColumnFault>
        ensures set { OnOk result (IsColumnSet self.old key id bytes.now self.new.state) }
        ensures judged { MatchResult result (λ _. column_fault self.old key id (length bytes.now) ≡ None)
            (λ fault. column_fault self.old key id (length bytes.now) ≡ Some fault) }
        ensures unchanged { OnErr result (self.new ≡ self.old) }
        ensures alike { StandAlike self.old.tables self.new.tables }
        ensures goes_on { TablesGoOn self.old.tables self.new.tables }
        ensures stay { NoneGo self.old self.new }
    {
        let rows = self.judge_column(key, id, bytes.len())?;
        // What is known of each row.
        let graph = self.archetypes.graph();
        let _ = graph.store();
        self.archetypes.set_column(key, id, bytes);
        self.accepted += rows as u64;
        Ok(())
    }

    /// How many rows a table has whose values of an id are set to so many bytes, or why they are not set.
    fn judge_column(&self, key: TableKey, id: Id, len: usize) -> Result<usize, ColumnFault>
        ensures judged { OnOk result (column_fault self.now key id len ≡ None) }
        ensures rows { IfOk result (λ rows. rows ≡ rows_in self.now.tables key) }
        ensures some { OnOk result (1 ≤ byte_count (type_of_id self.now.state id)) }
        ensures refused { IfErr result (λ fault. column_fault self.now key id len ≡ Some fault) }
    {
        let graph = self.archetypes.graph();
        let Some(table) = graph.store().get(key) else {
            return Err(ColumnFault::Gone);
        };
        let rows = table.rows().len();
        if !table.ids().contains(&id) {
            return Err(ColumnFault::NotHeld);
        }
        let Some(schema) = self.type_of(id) else {
            return Err(ColumnFault::NoData);
        };
        if self.may_bring(id) {
            return Err(ColumnFault::Brings);
        }
        let Some(whole) = rows.checked_mul(schema.size()) else {
            return Err(ColumnFault::Size);
        };
        if len != whole {
            return Err(ColumnFault::Size);
        }
        if u64::MAX - self.accepted < rows as u64 {
            return Err(ColumnFault::Full);
        }
        Ok(rows)
    }

    /// Whether a `set` of a fact of an id that is held may bring others.
    fn may_bring(&self, id: Id) -> bool
        ensures { result ≡ may_bring (ids_of self.now.state) id }
    {
        has_with(self.ids_at(id.first())) || !self.is_unmirrored(id)
    }
}

/// Whether one of the ids is a pair of With.
fn has_with(ids: &[Id]) -> bool
    ensures { result ≡ list_any (λ i. is_some (target_under with_trait i)) ids.now }
{
    ids.iter().any(|id| target_under(*id, WITH).is_some())
}
