//! From a text to the query that it asks in a world.

ghost use Rattle.std.specs.Prelude.{◌≡◌};
ghost use Rattle.world_query.specs.Reading.{AnswersAsked};

use crate::names::Names;
use ecs_world::World;
use query_check::{Query, check};
use query_model::faults::QueryFault;
use query_parser::{lex, parse};
use std::alloc::Allocator;

/// The query that a text asks in a world.
///
/// Fails with the first fault of the text, or where memory is refused.
pub fn read_query<A: Allocator, B: Allocator + Copy>(
    alloc: B,
    world: &World<A>,
    text: &str,
) -> Result<Query<B>, QueryFault>
    ensures { AnswersAsked world.now.state text.now result }
{
    let tokens = lex(alloc, text)?;
    let syntax = parse(alloc, tokens.as_slice())?;
    check(alloc, &Names(world), &syntax)
}
