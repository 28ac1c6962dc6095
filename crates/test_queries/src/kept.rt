//! The tables that are kept for a query.

ghost use Rattle.world_facts.specs.Kept.{AreTablesOf};

use ecs_id::ListedKey;
use ecs_world::World;
use query_cache::Kept;
use query_check::Query;
use std::alloc::Global;
use std::process::Abort;

/// The tables of a query, of a list that is brought up to date with a world.
pub(crate) fn tables_in(
    rt: &impl Abort,
    alloc: Global,
    world: &World,
    query: &Query,
) -> Vec<ListedKey>
    ensures { AreTablesOf query.now world.now.tables result.items }
{
    let mut kept = Kept::new(alloc, query).expect(rt, "out of memory");
    kept.sync(world.graph().store()).expect(rt, "out of memory");
    let mut tables = Vec::new(alloc);
    kept.push_tables(&mut tables).expect(rt, "out of memory");
    tables
}
