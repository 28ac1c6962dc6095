//! Rows that go to a writer as soon as many bytes of them have come together.

ghost use Rattle.std.specs.Prelude.{◌≡◌, ◌≤◌, ℕ, List, [], OnErr, OnOk, length};
ghost use Rattle.world_query.specs.Sent.{Drains, FailsAtWrite, IsRefused, IsSent, StopsSending, most_usize};

use crate::sheet::Sheet;
use script_streams::{Fault, Sink, Stop, write_all};
use std::alloc::{AllocError, Allocator};
use thiserror::Error;

/// Why rows were not sent.
#[derive(Clone, Copy, Debug, PartialEq, Eq, Error)]
pub enum SendError {
    /// Memory was refused.
    #[error("out of memory")]
    Memory,
    /// A write failed or took no byte, or 65 in a row were interrupted.
    #[error("write fault")]
    Write,
}

impl From<AllocError> for SendError {
    ghost use Rattle.std.specs.Prelude.{◌≡◌};
    ghost use Rattle.world_query.specs.declared.sending.SendError.TheVariants.{Memory};

    ghost from_gives = { λ _ e. e ≡ Memory };

    fn from(_error: AllocError) -> SendError {
        SendError::Memory
    }
}

impl From<Fault> for SendError {
    ghost use Rattle.std.specs.Prelude.{◌≡◌};
    ghost use Rattle.world_query.specs.declared.sending.SendError.TheVariants.{Write};

    ghost from_gives = { λ _ e. e ≡ Write };

    fn from(_fault: Fault) -> SendError {
        SendError::Write
    }
}

/// A writer that takes nothing, for rows that stay where they are written.
#[derive(Clone, Copy, Drop)]
pub struct Nowhere;

impl Sink for Nowhere {
    ghost use Rattle.std.specs.Prelude.{Some, [], true};

    ghost contents = { λ _. Some [] };

    ghost calls = { λ _. record { interruptions = 0; has_failed = true } };

    fn write(&mut self, _bytes: &[u8]) -> Result<usize, Stop> {
        Err(Stop::Failed)
    }
}

/// Sends what a list holds to a writer where that is more than so many bytes. Then it holds nothing.
///
/// Fails where a write fails, and then a prefix of it may be sent; the list stays as it was.
pub fn send_list<A: Allocator, W: Sink>(
    most: usize,
    writer: &mut W,
    out: &mut Vec<u8, A>,
) -> Result<(), SendError>
    ensures sent { OnOk result (IsSent (W.contents writer.old) (W.contents writer.new) out.old.items out.new.items []) }
    ensures unsent { OnOk result (length out.new.items ≤ most) }
    ensures front { (text : List ℕ) → OnErr result (StopsSending (IsRefused result) (W.contents writer.old)
        (W.contents writer.new) out.old.items out.new.items text) }
    ensures same { OnErr result (out.new.items ≡ out.old.items) }
    ensures writes { FailsAtWrite (W.calls writer.old) result (W.calls writer.new) }
    ensures kept { most ≡ most_usize → writer.new ≡ writer.old }
{
    if out.len() <= most {
        return Ok(());
    }
    write_all(writer, out.as_slice())?;
    out.clear();
    Ok(())
}

/// Where rows go as they are written: to a writer, for which at most so many bytes wait.
#[derive(Drop)]
pub(crate) struct Outlet<'s, W> {
    pub(crate) most: usize,
    pub(crate) writer: &'s mut W,
}

impl<'s, W: Sink> Outlet<'s, W> {
    /// Sends what is written on a sheet where that is more than may wait. Then nothing is written there.
    #[inline(always)]
    pub(crate) fn send_beyond<A: Allocator>(
        &mut self,
        sheet: &mut Sheet<A>,
    ) -> Result<(), SendError>
        ensures { Drains W.contents W.calls self.old sheet.old result self.new sheet.new }
    {
        if sheet.len() <= self.most {
            return Ok(());
        }
        send(self.writer, sheet)
    }
}

/// Sends what is written on a sheet.
#[inline(never)]
fn send<A: Allocator, W: Sink>(writer: &mut W, sheet: &mut Sheet<A>) -> Result<(), SendError>
    ensures sent { OnOk result (IsSent (W.contents writer.old) (W.contents writer.new) sheet.old sheet.new []) }
    ensures none { OnOk result (sheet.new ≡ []) }
    ensures front { (text : List ℕ) → OnErr result (StopsSending (IsRefused result) (W.contents writer.old)
        (W.contents writer.new) sheet.old sheet.new text) }
    ensures same { OnErr result (sheet.new ≡ sheet.old) }
    ensures writes { FailsAtWrite (W.calls writer.old) result (W.calls writer.new) }
{
    write_all(writer, sheet.as_slice())?;
    sheet.clear();
    Ok(())
}
