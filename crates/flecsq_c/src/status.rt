//! What the calls answer, as numbers, and a text for each.
ghost use Rattle.std.specs.Prelude.{◌≡◌, Err, None, Some, MatchResult};
ghost use Rattle.ecs_observe.specs.declared.errors.SetColumnError.TheVariants.{OfWorld};
ghost use Rattle.flecsq_c.specs.Statuses as as_number;

use crate::asking::AskError;
use ecs_observe::{SessionError, SetColumnError};
use ecs_world::ColumnFault;
use world_rows::MatchError;
use world_script::{RunError, StepError};

/// The call was carried out.
pub const OK: i32 = 0;
/// The line or the command was refused, and changed nothing. A line's reason stands in the output.
pub const REFUSED: i32 = 1;
/// Memory was refused.
pub const MEMORY: i32 = 2;
/// The handle holds no engine.
pub const CLOSED: i32 = 3;
/// No entity has the name, or a number is of no entity, no id or no query.
pub const UNKNOWN: i32 = 4;
/// The buffer is too small for the output.
pub const ROOM: i32 = 5;
/// The script has too many bytes, or the engine has run too many lines.
pub const TOO_LONG: i32 = 6;
/// A line feed stands in the line.
pub const LINE_FEED: i32 = 7;
/// There are more values than a component may have.
pub const NUMBER: i32 = 8;
/// What the query names was deleted, or has other traits now.
pub const STALE: i32 = 9;
/// The query has no `$this`.
pub const NO_THIS: i32 = 10;
/// The rows of the query don't come by table.
pub const NOT_TABLED: i32 = 11;
/// The entity is not alive.
pub const DEAD: i32 = 12;
/// The table is not there any more.
pub const GONE: i32 = 13;
/// The table doesn't hold the id.
pub const NOT_HELD: i32 = 14;
/// The id has no fields.
pub const NO_DATA: i32 = 15;
/// A stored query observes that values of the id are set.
pub const WATCHED: i32 = 16;
/// To set the id may bring other facts.
pub const BRINGS: i32 = 17;
/// The bytes are not one value for each row.
pub const SIZE: i32 = 18;
/// The world has carried out nearly 2^64 commands.
pub const FULL: i32 = 19;

/// The text of a status.
pub(crate) fn status_text(status: i32) -> &'static str {
    match status {
        OK => "ok",
        REFUSED => "refused",
        MEMORY => "out of memory",
        CLOSED => "no engine is open",
        UNKNOWN => "no such entity, id or query",
        ROOM => "the output does not fit the buffer",
        TOO_LONG => "too many bytes or lines",
        LINE_FEED => "a line feed stands in the line",
        NUMBER => "too many values",
        STALE => "the query is outdated",
        NO_THIS => "the query has no $this",
        NOT_TABLED => "the rows of the query do not come by table",
        DEAD => "the entity is not alive",
        GONE => "the table is gone",
        NOT_HELD => "the table does not hold the id",
        NO_DATA => "the id has no fields",
        WATCHED => "a stored query observes that values are set",
        BRINGS => "setting the id may bring other facts",
        SIZE => "the bytes are not one value for each row",
        FULL => "too many commands",
        _ => "no such status",
    }
}

/// The status of a line.
pub(crate) fn line_status(answer: Result<bool, StepError>) -> i32
    ensures { result ≡ as_number.line_status answer }
{
    match answer {
        Ok(false) => OK,
        Ok(true) => REFUSED,
        Err(StepError::LineFeed) => LINE_FEED,
        Err(StepError::Memory) => MEMORY,
        Err(StepError::TooManyLines) => TOO_LONG,
    }
}

/// The status of a script that was not run to its end. A read of memory doesn't fail.
pub(crate) fn run_status(error: RunError) -> i32
    ensures { result ≡ as_number.run_status (Err error) }
{
    match error {
        RunError::Memory | RunError::Read => MEMORY,
        RunError::Write => ROOM,
        RunError::TooLong => TOO_LONG,
    }
}

/// The status of a command.
pub(crate) fn command_status<T: Copy>(answer: Result<T, SessionError>) -> i32
    ensures { result ≡ as_number.command_status answer }
{
    match answer {
        Ok(_) => OK,
        Err(SessionError::Refused(_)) => REFUSED,
        Err(SessionError::Memory) => MEMORY,
    }
}

/// The status of a query's text.
pub(crate) fn ask_status(answer: Result<usize, AskError>) -> i32
    ensures { result ≡ as_number.ask_status answer }
{
    match answer {
        Ok(_) => OK,
        Err(AskError::NotText) => REFUSED,
        Err(AskError::Faulty) => REFUSED,
        Err(AskError::NoThis) => NO_THIS,
        Err(AskError::Memory) => MEMORY,
    }
}

/// The status of a query that is asked of an entity.
pub(crate) fn match_status(answer: Result<bool, MatchError>) -> i32
    ensures { result ≡ as_number.match_status answer }
{
    match answer {
        Ok(_) => OK,
        Err(MatchError::NoThis) => NO_THIS,
        Err(MatchError::Dead) => DEAD,
        Err(MatchError::Memory) => MEMORY,
    }
}

/// The status of values that are set.
pub(crate) fn column_status(answer: Result<(), SetColumnError>) -> i32
    ensures { MatchResult answer (λ _. result ≡ as_number.column_status None)
        (λ error. result ≡ as_number.column_status (Some error)) }
{
    match answer {
        Ok(()) => OK,
        Err(SetColumnError::EventsPending) => MEMORY,
        Err(SetColumnError::Watched) => WATCHED,
        Err(SetColumnError::OfWorld(fault)) => fault_status(fault),
    }
}

/// The status of values that the world refuses.
fn fault_status(fault: ColumnFault) -> i32
    ensures { result ≡ as_number.column_status (Some (OfWorld fault)) }
{
    match fault {
        ColumnFault::Gone => GONE,
        ColumnFault::NotHeld => NOT_HELD,
        ColumnFault::NoData => NO_DATA,
        ColumnFault::Brings => BRINGS,
        ColumnFault::Size => SIZE,
        ColumnFault::Full => FULL,
    }
}
