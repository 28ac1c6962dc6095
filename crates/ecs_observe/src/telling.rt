//! Delivering the events of a command.

ghost use Rattle.std.specs.Prelude.{◌≡◌, ◌+◌, ◌≤◌, ◌++◌, IfOk, OnErr, OnOk, flat_map, min, false, true};
ghost use Rattle.std.specs.List.{list_any};
ghost use Rattle.ecs_model.specs.stored.Session.{after_events, events};
ghost use Rattle.ecs_model.specs.stored.Watches.{event_text};
ghost use Rattle.ecs_print.specs.Stops.{StopsWithin};
ghost use Rattle.ecs_observe.specs.Following.{lists_of};
ghost use Rattle.ecs_observe.specs.Lists.{KeepLists};
ghost use Rattle.ecs_observe.specs.Parts.{with_all_kept, with_kept_at};
ghost use Rattle.watch_stored.specs.Held.{is_compared};
ghost use Rattle.ecs_observe.specs.Standing.{has_searched, searched_in, session_of, taken_in};
ghost use Rattle.ecs_observe.specs.Stored.{IsStored, entries_of};
ghost use Rattle.watch_stored.specs.Telling.{AreTouchedBy};
ghost use Rattle.ecs_observe.specs.Telling.{AreAllLedTo, AreListening, TellsAll, any_locally_at};
ghost use Rattle.watch_concerns.specs.Since.{IsAfter};

use crate::Session;
use crate::queries::StoredQueries;
use query_local::Touched;
use short_list::ShortNumbers;
use std::alloc::{AllocError, Allocator};
use watch_events::{Event, write_event};
use watch_stored::{Effect, Listener, Report, RowsAfter, tell_one};
use watch_touched::touched;

/// The session keeps the room of at most so many events.
const FEW_EVENTS: usize = 4;

impl<A: Allocator + Copy> Session<A> {
    /// The events that wait, one stored query after another in the order in which they were stored. After the call none
    /// wait.
    ///
    /// For a monitor the entities that left its rows come first, then those that entered, each by ascending index. If
    /// its query is local, they follow from the entities that the command touched. Else, if the command doesn't concern
    /// its query, there are none. Else, if only a few candidates may have left or entered, these are judged; if there
    /// are more, or they can't be found, all rows are found and compared with those before.
    ///
    /// Fails where memory is refused; then the events still wait.
    pub fn events(&mut self) -> Result<Vec<Event<A>, A>, AllocError>
        ensures told { IfOk result (λ told. told.items ≡ events (session_of self.old)) }
        ensures after { OnOk result (session_of self.new ≡ after_events (session_of self.old)) }
        ensures refused { OnErr result (self.new ≡ self.old) }
        ensures compared { list_any is_compared (self.old).stored ≡ false → (self.new).compared ≡ (self.old).compared }
        ensures grows { (self.old).compared ≤ (self.new).compared }
        ensures few { (self.new).compared ≤ (self.old).compared + searched_in self.old }
        ensures counted { OnOk result (min ((self.old).compared + taken_in self.old) 18446744073709551615
            ≤ (self.new).compared) }
        ensures spared { has_searched self.old ≡ false → (self.new).compared ≡ (self.old).compared }
        ensures lists { lists_of self.new ≡ lists_of self.old }
        ensures world { (self.new).world ≡ (self.old).world }
    {
        let Some(changes) = &self.waiting else {
            return Ok(Vec::new(self.alloc));
        };
        self.world.keeps();
        self.report.begin(self.compared);
        let effect = Effect {
            world: &self.world,
            changes,
        };
        tell_led(&effect, &self.stored, &mut self.report)?;
        put_rows(&mut self.stored, &mut self.report.rows);
        self.waiting = None;
        self.compared = self.report.searches.compared;
        Ok(self.report.take_events())
    }

    /// Appends the lines of the events that wait, in their order, each as `write_event` writes it. After the call none
    /// wait.
    ///
    /// Room for a few events stays with the session, so that the next command takes none. Fails where memory is
    /// refused; then a prefix of the lines may be written, and the events still wait.
    // (out of line, so that a command without waiting events pays nothing for it)
    #[inline(never)]
    pub fn write_events(&mut self, output: &mut Vec<u8, A>) -> Result<(), AllocError>
        ensures written { OnOk result (output.new.items ≡ output.old.items
            ++ flat_map event_text (events (session_of self.old))) }
        ensures after { OnOk result (session_of self.new ≡ after_events (session_of self.old)) }
        ensures refused { OnErr result (self.new ≡ self.old) }
        ensures front { OnErr result (StopsWithin output.old.items output.new.items
            (flat_map event_text (events (session_of self.old)))) }
        ensures grows { (self.old).compared ≤ (self.new).compared }
        ensures few { (self.new).compared ≤ (self.old).compared + searched_in self.old }
        ensures counted { OnOk result (min ((self.old).compared + taken_in self.old) 18446744073709551615
            ≤ (self.new).compared) }
        ensures lists { lists_of self.new ≡ lists_of self.old }
        ensures world { (self.new).world ≡ (self.old).world }
    {
        let Some(changed) = &self.waiting else {
            return Ok(());
        };
        self.world.keeps();
        self.report.begin(self.compared);
        let effect = Effect {
            world: &self.world,
            changes: changed,
        };
        tell_led(&effect, &self.stored, &mut self.report)?;
        let counted = self.report.searches.compared;
        write_all(self.report.events.as_slice(), output)?;
        put_rows(&mut self.stored, &mut self.report.rows);
        self.waiting = None;
        self.compared = counted;
        keep_few(&mut self.report.events);
        Ok(())
    }
}

/// Gives the room back, if there were more than a few events.
fn keep_few<A: Allocator + Copy>(told: &mut Vec<Event<A>, A>) {
    if told.len() > FEW_EVENTS {
        *told = Vec::new(*told.allocator());
    }
}

/// Appends the lines of events. Where memory is refused, a prefix of them may be written.
fn write_all<A: Allocator>(events: &[Event<A>], output: &mut Vec<u8, A>) -> Result<(), AllocError>
    ensures written { OnOk result (output.new.items ≡ output.old.items ++ flat_map event_text events.now) }
    ensures front { OnErr result (StopsWithin output.old.items output.new.items (flat_map event_text events.now)) }
{
    for event in events {
        write_event(event, output)?;
    }
    Ok(())
}

/// Appends what all stored queries report of a command to the report. The index leads to the queries that may report
/// something.
#[inline(always)]
fn tell_led<A: Allocator + Copy>(
    effect: &Effect<'_, A>,
    stored: &StoredQueries<A>,
    report: &mut Report<A>,
) -> Result<(), AllocError>
    requires stored { IsStored stored.now }
    requires listening { AreListening effect.now (entries_of stored.now) report.old }
    ensures { OnOk result (TellsAll effect.now (entries_of stored.now) report.old report.new) }
{
    let mut found = ShortNumbers::new();
    stored.led(*report.events.allocator(), effect.changes, &mut found)?;
    let places = found.as_slice();
    if places.is_empty() {
        effect.world.keeps();
        return Ok(());
    }
    tell_places(effect, stored, places, report)
}

/// The same for the stored queries at these places.
#[inline(never)]
fn tell_places<A: Allocator + Copy>(
    effect: &Effect<'_, A>,
    stored: &StoredQueries<A>,
    places: &[u64],
    report: &mut Report<A>,
) -> Result<(), AllocError>
    requires listening { AreListening effect.now (entries_of stored.now) report.old }
    requires led { AreAllLedTo effect.now.changes.now (entries_of stored.now) places.now }
    ensures { OnOk result (TellsAll effect.now (entries_of stored.now) report.old report.new) }
{
    let alloc = *report.events.allocator();
    let touched = touched_if_asked(alloc, effect, stored, places)?;
    let touched = touched.as_slice();
    tell_all(effect, touched, stored, places, report)
}

/// The entities that a command touched, if the events of a monitor at one of these places follow from them; else none.
fn touched_if_asked<'w, A: Allocator + Copy>(
    alloc: A,
    effect: &Effect<'w, A>,
    stored: &StoredQueries<A>,
    places: &[u64],
) -> Result<Vec<Touched<'w, A>, A>, AllocError>
    requires after { IsAfter effect.now.world.now.state effect.now.changes.now }
    ensures touched { any_locally_at (entries_of stored.now) places.now ≡ true
        → IfOk result (λ touched. AreTouchedBy effect.now.world.now.state effect.now.changes.now touched.items) }
{
    if is_told_locally_at(stored, places) {
        touched(alloc, effect.world, effect.changes)
    } else {
        Ok(Vec::new(alloc))
    }
}

/// Whether the events of a stored query at one of these places follow from the entities that a command touched.
fn is_told_locally_at<A: Allocator>(stored: &StoredQueries<A>, places: &[u64]) -> bool
    ensures { result ≡ any_locally_at (entries_of stored.now) places.now }
{
    for place in places {
        if stored.is_told_locally_at(*place as usize) {
            return true;
        }
    }
    false
}

/// Appends what all stored queries report of a command to the report. Only those at these places report anything.
fn tell_all<A: Allocator + Copy>(
    effect: &Effect<'_, A>,
    touched: &[Touched<'_, A>],
    stored: &StoredQueries<A>,
    places: &[u64],
    report: &mut Report<A>,
) -> Result<(), AllocError>
    requires listening { AreListening effect.now (entries_of stored.now) report.old }
    requires touched { any_locally_at (entries_of stored.now) places.now ≡ true
        → AreTouchedBy effect.now.world.now.state effect.now.changes.now touched.now }
    requires led { AreAllLedTo effect.now.changes.now (entries_of stored.now) places.now }
    ensures { OnOk result (TellsAll effect.now (entries_of stored.now) report.old report.new) }
{
    effect.world.keeps();
    for place in places {
        let place = *place as usize;
        if let Some((name, query)) = stored.get_index(place) {
            let listener = Listener { place, name, query };
            tell_one(effect, touched, &listener, report)?;
        }
    }
    Ok(())
}

/// Keeps the changed rows of monitors, each with its stored query.
fn put_rows<A: Allocator>(stored: &mut StoredQueries<A>, rows: &mut Vec<(usize, RowsAfter<A>), A>)
    requires stored { IsStored stored.old }
    ensures held { entries_of stored.new ≡ with_all_kept rows.old.items (entries_of stored.old) }
    ensures lists { KeepLists (entries_of stored.old) (entries_of stored.new) }
    ensures stored { IsStored stored.new }
{
    'placed: while rows.len() > 0 {
        let last = rows.len() - 1;
        keep_placed(stored, &mut rows[last]);
        rows.pop();
    }
}

/// Keeps the changed rows of one monitor.
fn keep_placed<A: Allocator>(stored: &mut StoredQueries<A>, placed: &mut (usize, RowsAfter<A>))
    requires stored { IsStored stored.old }
    ensures held { entries_of stored.new ≡ with_kept_at placed.old.0 placed.old.1 (entries_of stored.old) }
    ensures lists { KeepLists (entries_of stored.old) (entries_of stored.new) }
    ensures stored { IsStored stored.new }
{
    stored.keep(placed.0, &mut placed.1);
}
