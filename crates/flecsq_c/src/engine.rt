//! What stands behind a handle.
ghost use Rattle.std.specs.Prelude.{◌≡◌, [], IfOk};
ghost use Rattle.world_script.specs.Stepping.{first_stepping};

use crate::numbered::Numbered;
use crate::seed::random;
use std::alloc::{AllocError, Global};
use world_script::Stepper;

/// A session, what its lines have printed, and queries.
#[derive(Drop)]
pub struct Engine {
    pub(crate) stepper: Stepper<Global>,
    /// The queries that are asked by number: that of number n stands at n - 1, and none once it was dropped. The list only
    /// grows, so that no number is given twice.
    pub(crate) queries: Vec<Option<Numbered>, Global>,
}

/// A new engine on the heap, in which no line was run.
pub(crate) fn made(alloc: Global, low: u64, high: u64) -> Result<Box<Engine, Global>, AllocError>
    ensures first { IfOk result (λ engine. engine.value.stepper.stepping ≡ first_stepping) }
    ensures none { IfOk result (λ engine. engine.value.queries.items ≡ []) }
{
    let stepper = Stepper::new(alloc, random(low, high)?)?;
    let queries = Vec::new(alloc);
    Ok(Box::new(alloc, Engine { stepper, queries })?)
}
