//! Why a script was not run to its end, or a line not run.
use script_streams::{Fault, FillError};
use std::alloc::AllocError;
use thiserror::Error;
use world_query::SendError;

/// Why a script was not run to its end.
#[derive(Clone, Copy, Debug, PartialEq, Eq, Error)]
pub enum RunError {
    /// A read failed, or 65 in a row were interrupted.
    #[error("read fault")]
    Read,
    /// A write failed or took no byte, or 65 in a row were interrupted.
    #[error("write fault")]
    Write,
    /// Memory was refused.
    #[error("out of memory")]
    Memory,
    /// The script has more than 16,777,216 bytes.
    #[error("script too long")]
    TooLong,
}

/// Why a stepper did not run a line.
#[derive(Clone, Copy, Debug, PartialEq, Eq, Error)]
pub enum StepError {
    /// A line feed stands in the line.
    #[error("line feed in a line")]
    LineFeed,
    /// Memory was refused, in this call or in one before.
    #[error("out of memory")]
    Memory,
    /// 18,446,744,073,709,551,615 lines were run.
    #[error("too many lines")]
    TooManyLines,
}

impl From<AllocError> for RunError {
    ghost use Rattle.std.specs.Prelude.{◌≡◌};
    ghost use Rattle.world_script.specs.declared.errors.RunError.TheVariants.{Memory};

    ghost from_gives = { λ _ e. e ≡ Memory };

    fn from(_error: AllocError) -> RunError {
        RunError::Memory
    }
}

impl From<Fault> for RunError {
    ghost use Rattle.std.specs.Prelude.{◌≡◌};
    ghost use Rattle.world_script.specs.declared.errors.RunError.TheVariants.{Write};

    ghost from_gives = { λ _ e. e ≡ Write };

    /// The fault of a write.
    fn from(_fault: Fault) -> RunError {
        RunError::Write
    }
}

impl From<FillError> for RunError {
    ghost use Rattle.std.specs.Prelude.{◌≡◌};
    ghost use Rattle.world_script.specs.Running.{run_error};

    ghost from_gives = { λ error e. e ≡ run_error error };

    fn from(error: FillError) -> RunError {
        match error {
            FillError::Read => RunError::Read,
            FillError::TooLong => RunError::TooLong,
        }
    }
}

impl From<SendError> for RunError {
    ghost use Rattle.std.specs.Prelude.{◌≡◌};
    ghost use Rattle.world_script.specs.Running.{send_error};

    ghost from_gives = { λ error e. e ≡ send_error error };

    fn from(error: SendError) -> RunError {
        match error {
            SendError::Memory => RunError::Memory,
            SendError::Write => RunError::Write,
        }
    }
}
