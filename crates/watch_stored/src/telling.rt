//! What one stored query reports of a command.

ghost use Rattle.std.specs.Prelude.{◌≡◌, ◌+◌, OnOk, IfOk, false, min, true};
ghost use Rattle.watch_stored.specs.Moves.{AreNoMoves};
ghost use Rattle.watch_stored.specs.Parts.{IsPut, put_in};
ghost use Rattle.watch_stored.specs.Held.{is_compared, is_monitor, is_taken_whole, is_told_locally, rows_put};
ghost use Rattle.watch_stored.specs.Telling.{AreTouchedBy, CountsWholeRows, IsListening, TellsListener, held_by};

use crate::moves::{RowsAfter, rows_after};
use crate::report::{Effect, Listener, Report, Searches};
use query_local::{Touched, local_told};
use std::alloc::{AllocError, Allocator};
use watch_events::{Audience, Event, Moves, may_tell, tell, tell_moves};

/// Appends the events of a stored query to the report, and its changed rows unless they stay. Counts where all rows are
/// found.
///
/// Fails where memory is refused; then some of these events, the first ones, may be appended.
pub fn tell_one<A: Allocator + Copy>(
    effect: &Effect<'_, A>,
    touched: &[Touched<'_, A>],
    listener: &Listener<'_, A>,
    report: &mut Report<A>,
) -> Result<(), AllocError>
    requires listening { IsListening effect.now listener.now }
    requires touched { is_told_locally (held_by listener.now) ≡ true
        → AreTouchedBy effect.now.world.now.state effect.now.changes.now touched.now }
    ensures rows { OnOk result (IsPut
        (rows_put effect.now.world.now.state effect.now.changes.now (held_by listener.now))
        listener.now.place listener.now.query.now report.old.rows.items report.new.rows.items) }
    ensures told { TellsListener effect.now listener.now result report.old.events.items report.new.events.items }
    ensures counted { CountsWholeRows effect.now listener.now
        report.old.searches.compared report.new.searches.compared }
    ensures taken { is_taken_whole effect.now.changes.now (held_by listener.now) ≡ true
        → OnOk result (report.new.searches.compared
        ≡ min (report.old.searches.compared + 1) 18446744073709551615) }
{
    if !listener.query.is_compared() {
        return tell_uncompared(effect, touched, listener, &mut report.events);
    }
    // the changes are made in the place where they are kept
    report.rows.push((listener.place, RowsAfter::new()))?;
    let last = report.rows.len() - 1;
    let put = tell_compared(
        effect,
        listener,
        &mut report.searches,
        &mut report.events,
        &mut report.rows[last].1,
    )?;
    if put {
        return Ok(());
    }
    report.rows.pop();
    Ok(())
}

/// Appends the events of a stored query that isn't a monitor of a query that isn't local. Whether there may be any is
/// tested first, since most observers get none.
///
/// Fails where memory is refused; then some of these events, the first ones, may be appended.
fn tell_uncompared<A: Allocator + Copy>(
    effect: &Effect<'_, A>,
    touched: &[Touched<'_, A>],
    listener: &Listener<'_, A>,
    events: &mut Vec<Event<A>, A>,
) -> Result<(), AllocError>
    requires listening { IsListening effect.now listener.now }
    requires uncompared { is_compared (held_by listener.now) ≡ false }
    requires touched { is_told_locally (held_by listener.now) ≡ true
        → AreTouchedBy effect.now.world.now.state effect.now.changes.now touched.now }
    ensures { TellsListener effect.now listener.now result events.old.items events.new.items }
{
    let query = listener.query;
    if !may_tell(query.kind, query.plan.query(), effect.changes) {
        return Ok(());
    }
    if query.is_told_locally() {
        return tell_locally(effect, touched, listener, events);
    }
    tell_observer(effect, listener, events)
}

/// Appends the events of a monitor whose query isn't local. Answers whether the command concerns the query; then `rows`
/// gets its changed rows. Counts where all rows are found.
///
/// Fails where memory is refused; then some of these events, the first ones, may be appended.
fn tell_compared<A: Allocator + Copy>(
    effect: &Effect<'_, A>,
    listener: &Listener<'_, A>,
    searches: &mut Searches<A>,
    events: &mut Vec<Event<A>, A>,
    rows: &mut RowsAfter<A>,
) -> Result<bool, AllocError>
    requires listening { IsListening effect.now listener.now }
    requires compared { is_compared (held_by listener.now) ≡ true }
    requires none { AreNoMoves rows.old }
    ensures rows { IfOk result (λ put. put_in put rows.new listener.now.query.now.these
        ≡ rows_put effect.now.world.now.state effect.now.changes.now (held_by listener.now)) }
    ensures told { TellsListener effect.now listener.now result events.old.items events.new.items }
    ensures counted { CountsWholeRows effect.now listener.now searches.old.compared searches.new.compared }
    ensures taken { is_taken_whole effect.now.changes.now (held_by listener.now) ≡ true
        → OnOk result (searches.new.compared ≡ min (searches.old.compared + 1) 18446744073709551615) }
{
    effect.world.keeps();
    if !rows_after(effect, listener.query, searches, rows)? {
        return Ok(false);
    }
    let moves = Moves {
        left: rows.left.as_slice(),
        entered: rows.entered.as_slice(),
    };
    let name = listener.name.as_bytes();
    tell_moves(
        searches.alloc,
        effect.world,
        effect.changes,
        name,
        moves,
        events,
    )?;
    Ok(true)
}

/// Appends the events of an observer.
fn tell_observer<A: Allocator + Copy>(
    effect: &Effect<'_, A>,
    listener: &Listener<'_, A>,
    events: &mut Vec<Event<A>, A>,
) -> Result<(), AllocError>
    requires listening { IsListening effect.now listener.now }
    requires observes { is_monitor listener.now.query.now.kind ≡ false }
    ensures { TellsListener effect.now listener.now result events.old.items events.new.items }
{
    let alloc = *events.allocator();
    let audience = Audience {
        name: listener.name.as_bytes(),
        kind: listener.query.kind,
        query: listener.query.plan.query(),
    };
    tell(alloc, effect.world, effect.changes, audience, events)
}

/// Appends the events of a monitor of a local query, from the entities that the command touched.
fn tell_locally<A: Allocator + Copy>(
    effect: &Effect<'_, A>,
    touched: &[Touched<'_, A>],
    listener: &Listener<'_, A>,
    events: &mut Vec<Event<A>, A>,
) -> Result<(), AllocError>
    requires listening { IsListening effect.now listener.now }
    requires local { is_told_locally (held_by listener.now) ≡ true }
    requires touched { AreTouchedBy effect.now.world.now.state effect.now.changes.now touched.now }
    ensures { TellsListener effect.now listener.now result events.old.items events.new.items }
{
    let alloc = *events.allocator();
    effect.world.keeps();
    let told = local_told(alloc, listener.query.plan.query(), touched)?;
    let moves = Moves {
        left: told.left.as_slice(),
        entered: told.entered.as_slice(),
    };
    let name = listener.name.as_bytes();
    tell_moves(alloc, effect.world, effect.changes, name, moves, events)
}
