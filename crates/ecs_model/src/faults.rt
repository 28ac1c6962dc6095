//! Why a list of fields is no schema, why values are none of a schema, and why a command is refused.

use query_model::faults::Fault;
use thiserror::Error;

/// Why a list of fields is no schema. The first that applies is answered.
#[derive(Clone, Copy, Debug, PartialEq, Eq, Error)]
pub enum SchemaFault {
    /// More than eight fields.
    #[error("more than eight fields")]
    TooManyFields,
    /// No field at all.
    #[error("no field")]
    NoFields,
    /// A field's name is no name, or two fields have one name.
    #[error("a field has a bad name, or that of another field")]
    BadField,
}

/// Why a command of a world is refused. Of the refusals that apply, the first in this order is answered, and a refused
/// command changes nothing.
#[derive(Clone, Copy, Debug, PartialEq, Eq, Error)]
pub enum Refusal {
    /// An entity handed in is not alive, or an id mentions an index that is not live.
    #[error("an entity is not alive")]
    Dead,
    /// No entity has the name.
    #[error("no entity has the name")]
    UnknownName,
    /// The new name is no name.
    #[error("the new name is no name")]
    BadName,
    /// An entity has the new name already.
    #[error("an entity has the new name")]
    NameTaken,
    /// A built-in entity would get or lose a fact.
    #[error("a built-in entity gets and loses no facts")]
    BuiltIn,
    /// Values for an id that has no fields.
    #[error("the id has no fields")]
    NoData,
    /// As many values as there are fields are needed.
    #[error("not as many values as fields")]
    Count,
    /// A value is outside the range of its field.
    #[error("a value is outside the range of its field")]
    Range,
    /// A trait would come to an entity that is in use as component or relationship, or a trait would go.
    #[error("a trait comes to no entity in use, and never goes")]
    TraitFixed,
    /// A stored query mentions an entity that would be deleted.
    #[error("a stored query mentions an entity that would be deleted")]
    InUse,
    /// An acyclic relationship would get a cycle.
    #[error("an acyclic relationship would get a cycle")]
    Cycle,
    /// An entity would hold more ids than `MOST_IDS`.
    #[error("an entity would hold too many ids")]
    TooManyIds,
    /// A deletion that a cleanup rule forbids.
    #[error("a cleanup rule forbids the deletion")]
    Panic,
    /// No index is left for a new entity, or the count of commands is spent.
    #[error("no index is left, or the count of commands is spent")]
    Full,
}

/// Why a command was not carried out: a refusal by the rules, or memory that was refused.
#[derive(Clone, Copy, Debug, PartialEq, Eq, Error)]
pub enum CommandError {
    #[error("{0}")]
    Refused(Refusal),
    #[error("out of memory")]
    Memory,
}

/// Why a command of a session is refused. What is wrong with a new stored query is answered in the order BadName,
/// QueryTaken, TooManyStored, and then the fault of its text. A refused command changes nothing.
#[derive(Clone, Copy, Debug, PartialEq, Eq, Error)]
pub enum SessionRefusal {
    /// A refusal of the world.
    #[error("{0}")]
    OfWorld(Refusal),
    /// Events wait: no command is carried out before they were delivered.
    #[error("events wait to be delivered")]
    EventsPending,
    /// No stored query has the name, or none that is kept.
    #[error("no such stored query has the name")]
    UnknownQuery,
    /// A stored query has the new name already.
    #[error("a stored query has the new name")]
    QueryTaken,
    /// As many queries are stored as there can be.
    #[error("as many queries are stored as there can be")]
    TooManyStored,
    /// A fault of a query's text, or of a query for its kind.
    #[error("{0}")]
    Faulty(Fault),
}
