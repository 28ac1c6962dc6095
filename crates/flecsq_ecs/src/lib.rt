//! The library under one roof: a world with stored queries, its commands, queries, rows, chunks and events.
//!
//! A [`Session`] is a world with stored queries, which notifies of what happens in it. An [`Asked`] is a query of any
//! other text, whose [`Rows`] come one at a time; [`Chunks`] give the same rows as slices, table by table. What each call
//! promises stands at the call, in the crate that has it.

pub use ecs_id::{EntityId, Id, ListedKey, TableKey};
pub use ecs_model::faults::{CommandError, Refusal, SessionRefusal};
pub use ecs_model::watches::{EventKind, StoredKind};
pub use ecs_model::{FactKey, Value, built_ins};
pub use ecs_observe::{
    Answer, ApplyAllError, Command, Event, IdReference, Reference, SendRowsError, Session,
    SessionError, SetColumnError, write_event,
};
pub use ecs_schema::{Kind, Schema, SchemaError, ValueFault};
pub use ecs_world::{Changes, ColumnFault, World};
pub use query_chunks::{Chunk, Chunks, Column, has_chunks};
pub use query_model::faults::{Fault, FaultKind, QueryFault};
pub use script_streams::Sink;
pub use world_query::{SendError, read_query, send_rows, write_rows};
pub use world_rows::{
    Asked, Binder, BoundRows, FactValue, Field, MatchError, Matcher, Rows, WorldView,
};
