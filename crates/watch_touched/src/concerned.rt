//! Changes that may concern a query besides facts.

ghost use Rattle.std.specs.Prelude.{◌≡◌};
ghost use Rattle.watch_touched.specs.Concerned.{has_births_or_deaths};

use ecs_world::Changes;
use std::alloc::Allocator;

/// Whether a command created or deleted an entity.
pub fn has_births_or_deaths<A: Allocator>(changes: &Changes<A>) -> bool
    ensures { result ≡ has_births_or_deaths changes.now }
{
    changes.born().is_some() || !changes.died().is_empty()
}
