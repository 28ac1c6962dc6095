//! The lists of kept queries: which tables are judged for them, what they list, and how many probes a run through
//! them makes.

ghost use Rattle.ecs_observe.specs.Following.{IsUpToDateAt};

use crate::lines::{Line, Named, new_session, print_lines};
use crate::scripts::{EARTH, HOT, MOON, PLANET, POSITION, SYSTEM_LINES};
use ecs_id::Id;
use ecs_model::faults::SessionRefusal;
use ecs_model::watches::StoredKind;
use ecs_observe::{Session, SessionError, SetColumnError};
use std::alloc::{AllocError, Global};
use std::process::Abort;
use std::test::Fail;
use world_rows::{Asked, Rows, WorldView};

/// Two kept queries, of which one is asked for its rows.
static STORED: [Line; 3] = [
    Line::Store(StoredKind::Kept, "k", "Position, Planet"),
    Line::Store(StoredKind::Kept, "other", "Position, Planet"),
    Line::Store(StoredKind::Monitor, "m", "Position"),
];

static ROWS: [Line; 1] = [Line::Rows("k")];

/// The earth moves to a new table.
static HEATED: [Line; 4] = [
    Line::Entity("Hot"),
    Line::Events,
    Line::Add(EARTH, Named::Plain(HOT)),
    Line::Events,
];

/// And the moon becomes a planet with a position.
static SETTLED: [Line; 4] = [
    Line::Set(MOON, Named::Plain(POSITION), &[4, 4]),
    Line::Events,
    Line::Add(MOON, Named::Plain(PLANET)),
    Line::Events,
];

/// Carries out lines, whatever they print.
fn run(alloc: Global, session: &mut Session, lines: &[Line]) -> Result<(), Fail> {
    let mut printed = Vec::new(alloc);
    print_lines(session, alloc, lines, &mut printed)?;
    Ok(())
}

fn judged(rt: &impl Abort, session: &Session, name: &str) -> u64 {
    let judged = session.judged(name);
    assert!(rt; judged.is_ok());
    judged.unwrap_or(0)
}

/// Two values, for the entities of a table.
const PLACES: [u8; 8] = [1, 0, 0, 0, 255, 255, 255, 255];

/// The values of all entities of a table are set at once, also beside a monitor. Where a stored query observes that
/// values of the id are set, the call is refused.
fn expect_column(rt: &impl Abort, alloc: Global, session: &mut Session) -> Result<(), Fail> {
    let mut tables = Vec::new(alloc);
    session.kept_tables("k", &mut tables)?;
    let key = tables.first().expect(rt, "no table is kept").key();
    drop(tables);
    let position = Id::plain(POSITION);
    session.store(StoredKind::Monitor, "near", "Position")?;
    let set = session.set_column(key, position, &PLACES);
    assert!(rt; set.is_ok() && !session.has_events());
    session.store(StoredKind::OnSet, "moved", "Position")?;
    let set = session.set_column(key, position, &PLACES);
    assert!(rt; set == Err(SetColumnError::Watched));
    session.drop_stored("moved")?;
    session.drop_stored("near")?;
    Ok(())
}

/// So many tables were judged for a list.
fn expect_count(rt: &impl Abort, session: &Session, name: &str, count: u64) {
    assert!(rt; judged(rt, session, name) == count);
}

/// A `rows` line judges the tables that came, and none where none came. How many these were.
fn first_judged(rt: &impl Abort, alloc: Global, session: &mut Session) -> Result<u64, Fail> {
    expect_count(rt, session, "k", 0);
    run(alloc, session, &ROWS)?;
    let first = judged(rt, session, "k");
    assert!(rt; first > 0);
    expect_column(rt, alloc, session)?;
    run(alloc, session, &ROWS)?;
    expect_count(rt, session, "k", first);
    Ok(first)
}

/// One more is judged after the earth has moved; a list that isn't asked for judges none before it is brought up to
/// date.
fn expect_one_more(
    rt: &impl Abort,
    alloc: Global,
    session: &mut Session,
    first: u64,
) -> Result<(), Fail> {
    let second = first.saturating_add(1);
    run(alloc, session, &HEATED)?;
    run(alloc, session, &ROWS)?;
    expect_count(rt, session, "k", second);
    session.sync_kept("k")?;
    expect_count(rt, session, "k", second);
    expect_count(rt, session, "other", 0);
    session.sync_kept("other")?;
    expect_count(rt, session, "other", second);
    Ok(())
}

fn expect_judged(rt: &impl Abort, alloc: Global, session: &mut Session) -> Result<(), Fail> {
    run(alloc, session, &SYSTEM_LINES)?;
    run(alloc, session, &STORED[..2])?;
    let first = first_judged(rt, alloc, session)?;
    expect_one_more(rt, alloc, session, first)
}

#[test]
fn each_table_is_judged_once(rt: HostRuntime) -> Result<(), Fail> {
    let mut session = new_session(&rt)?;
    let done = expect_judged(&rt, rt.alloc(), &mut session);
    drop(session);
    done
}

/// There is no list of a monitor's name.
fn expect_no_list(rt: &impl Abort, alloc: Global, session: &mut Session) {
    let refused = Err(SessionError::Refused(SessionRefusal::UnknownQuery));
    let mut tables = Vec::new(alloc);
    assert!(rt; session.kept_tables("m", &mut tables) == refused);
    assert!(rt; session.sync_kept("m") == refused);
}

/// Takes in the entities of the rows to come.
fn take_entities(rows: &mut Rows<'_, Global>, found: &mut Vec<u32>) -> Result<(), AllocError> {
    for _ in 0..1000 {
        if !rows.next() {
            break;
        }
        found.extend_from_slice(rows.entities())?;
    }
    Ok(())
}

/// The entities of the rows that the list of a kept query leads to.
fn listed_rows(
    alloc: Global,
    session: &Session,
    name: &str,
    found: &mut Vec<u32>,
) -> Result<(), Fail>
    requires { IsUpToDateAt session.now name.now }
{
    let kept = session.kept_query(name)?;
    let query = kept.try_clone(alloc)?;
    let view = WorldView::new(session.world());
    let asked = Asked::of(alloc, &view, query)?;
    let mut tables = Vec::new(alloc);
    session.kept_tables(name, &mut tables)?;
    let mut rows = asked.rows_in(&view, tables.as_slice());
    let taken = take_entities(&mut rows, found);
    drop(rows.into_asked());
    drop(tables);
    Ok(taken?)
}

/// The rows of a kept query, once its list was brought up to date, have these entities.
fn expect_rows(
    rt: &impl Abort,
    alloc: Global,
    session: &mut Session,
    entities: &[u32],
) -> Result<(), Fail> {
    session.sync_kept("k")?;
    let mut found = Vec::new(alloc);
    listed_rows(alloc, session, "k", &mut found)?;
    found.sort()?;
    assert!(rt; found.as_slice() == entities);
    Ok(())
}

/// The rows of the kept query take some probes, and no more than one for each of its two items and each table of its
/// list.
fn expect_probes(rt: &impl Abort, alloc: Global, session: &mut Session) -> Result<(), Fail> {
    let mut printed = Vec::new(alloc);
    let probes = session.write_kept_rows("k", &mut printed)?.unwrap_or(0);
    let mut tables = Vec::new(alloc);
    session.kept_tables("k", &mut tables)?;
    let most = (tables.len() as u64).saturating_mul(2);
    assert!(rt; probes > 0 && probes <= most);
    Ok(())
}

/// The list of a kept query, as it is given, leads to the rows of the query, through changes.
fn expect_listed(rt: &impl Abort, alloc: Global, session: &mut Session) -> Result<(), Fail> {
    run(alloc, session, &SYSTEM_LINES)?;
    run(alloc, session, &STORED)?;
    expect_no_list(rt, alloc, session);
    expect_rows(rt, alloc, session, &[EARTH])?;
    run(alloc, session, &HEATED)?;
    expect_rows(rt, alloc, session, &[EARTH])?;
    expect_probes(rt, alloc, session)?;
    run(alloc, session, &SETTLED)?;
    expect_rows(rt, alloc, session, &[EARTH, MOON])?;
    expect_probes(rt, alloc, session)
}

#[test]
fn lists_lead_to_the_rows(rt: HostRuntime) -> Result<(), Fail> {
    let mut session = new_session(&rt)?;
    let done = expect_listed(&rt, rt.alloc(), &mut session);
    drop(session);
    done
}
