//! A local query judges an entity by its ids, and answers who leaves and who enters.

use crate::ask;
use ecs_id::Id;
use query_check::Query;
use query_local::{Touched, judge, local_told};
use std::alloc::{AllocError, Global};
use std::process::Abort;
use std::test::Fail;

const EARTH: u32 = 70;

/// Whether the query is local, and the earth is `$this` of one of its rows while it holds these ids.
fn is_judged(query: &Query, ids: &[Id]) -> bool {
    query.is_local() && judge(query, EARTH, ids)
}

fn judge_earth(rt: &impl Abort, alloc: Global, query: &Query) -> Result<(), AllocError> {
    let (planet, position) = (Id::plain(66), Id::plain(67));
    let ids = [position, planet];
    assert!(rt; !is_judged(query, &ids));
    assert!(rt; is_judged(query, &ids[..1]));
    if query.is_local() {
        let touched = [Touched {
            index: EARTH,
            before: Some(Vec::from_slice(alloc, &ids)?),
            after: Some(&ids[..1]),
        }];
        let told = local_told(alloc, query, &touched)?;
        assert!(rt; told.left.is_empty() && told.entered.as_slice() == [EARTH].as_slice());
    }
    Ok(())
}

#[test]
fn an_entity_is_judged_by_its_ids(rt: HostRuntime) -> Result<(), Fail> {
    let query = ask(rt.alloc(), "Position, !Planet")?;
    let done = judge_earth(&rt, rt.alloc(), &query);
    drop(query);
    Ok(done?)
}
