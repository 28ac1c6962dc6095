//! Why a command of a session was not carried out.

use ecs_model::faults::{CommandError, SessionRefusal};
use ecs_world::ColumnFault;
use std::alloc::AllocError;
use thiserror::Error;
use world_query::SendError;

/// Why a command of a session was not carried out: it is refused by the rules, or memory was refused.
#[derive(Clone, Copy, Debug, PartialEq, Eq, Error)]
pub enum SessionError {
    #[error("refused: {0}")]
    Refused(SessionRefusal),
    #[error("out of memory")]
    Memory,
}

/// Why commands that were given together were not all carried out: how many were, and why the next was not.
#[derive(Clone, Copy, Debug, PartialEq, Eq, Error)]
#[error("after {done} commands: {error}")]
pub struct ApplyAllError {
    /// How many were carried out.
    pub done: usize,
    /// Why the next was not; or that memory was refused for the lines of the events of the last that was.
    pub error: SessionError,
}

/// Why the values of a table's entities are not set. If several reasons apply, the first in this order is answered.
#[derive(Clone, Copy, Debug, PartialEq, Eq, Error)]
pub enum SetColumnError {
    /// Events wait to be delivered.
    #[error("events wait to be delivered")]
    EventsPending,
    /// A stored query observes that values of this id are set, and would have to be notified of each.
    #[error("a stored query observes that values of this id are set")]
    Watched,
    /// The world refuses it.
    #[error("{0}")]
    OfWorld(ColumnFault),
}

impl From<ColumnFault> for SetColumnError {
    ghost use Rattle.std.specs.Prelude.{◌≡◌};
    ghost use Rattle.ecs_observe.specs.declared.errors.SetColumnError.TheVariants.{OfWorld};

    ghost from_gives = { λ fault e. e ≡ OfWorld fault };

    fn from(fault: ColumnFault) -> SetColumnError {
        SetColumnError::OfWorld(fault)
    }
}

impl From<AllocError> for SessionError {
    ghost use Rattle.std.specs.Prelude.{◌≡◌};
    ghost use Rattle.ecs_observe.specs.declared.errors.SessionError.TheVariants.{Memory};

    ghost from_gives = { λ _ e. e ≡ Memory };

    fn from(_error: AllocError) -> SessionError {
        SessionError::Memory
    }
}

impl From<SessionRefusal> for SessionError {
    ghost use Rattle.std.specs.Prelude.{◌≡◌};
    ghost use Rattle.ecs_observe.specs.declared.errors.SessionError.TheVariants.{Refused};

    ghost from_gives = { λ refusal e. e ≡ Refused refusal };

    fn from(refusal: SessionRefusal) -> SessionError {
        SessionError::Refused(refusal)
    }
}

impl From<CommandError> for SessionError {
    ghost use Rattle.std.specs.Prelude.{◌≡◌};
    ghost use Rattle.ecs_observe.specs.Answers.{session_error};

    ghost from_gives = { λ error e. e ≡ session_error error };

    fn from(error: CommandError) -> SessionError {
        match error {
            CommandError::Refused(refusal) => {
                SessionError::Refused(SessionRefusal::OfWorld(refusal))
            }
            CommandError::Memory => SessionError::Memory,
        }
    }
}

/// Why the rows of a kept query were not sent: no kept query has the name, or memory was refused, or a write failed.
#[derive(Clone, Copy, Debug, PartialEq, Eq, Error)]
pub enum SendRowsError {
    #[error("refused: {0}")]
    Refused(SessionRefusal),
    #[error("{0}")]
    Unsent(SendError),
}

impl From<SendError> for SendRowsError {
    ghost use Rattle.std.specs.Prelude.{◌≡◌};
    ghost use Rattle.ecs_observe.specs.declared.errors.SendRowsError.TheVariants.{Unsent};

    ghost from_gives = { λ error e. e ≡ Unsent error };

    fn from(error: SendError) -> SendRowsError {
        SendRowsError::Unsent(error)
    }
}
