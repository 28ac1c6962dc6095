//! The stored queries of a session, in the order in which they were stored.

ghost use Rattle.std.specs.Prelude.{◌≡◌, ◌↔◌, ◌<◌, ◌++◌, ◌∷◌, [], All, IfNone, IfOk, IfSome, IsSome, None, OnErr, OnOk};
ghost use Rattle.std.specs.Prelude.{Some, is_some, length, map, option_map};
ghost use Rattle.std.specs.Prelude.{slice_get};
ghost use Rattle.std.specs.List.{list_any};
ghost use Rattle.std.specs.List.Sorted.{IsStrictlyIncreasing};
ghost use Rattle.std.specs.Map.{lookup, remove_entry};
ghost use Rattle.std.specs.Option.{option_copied};
ghost use Rattle.std.specs.String.{string_bytes};
ghost use Rattle.ecs_model.specs.stored.Watches.{is_told};
ghost use Rattle.ecs_observe.specs.Lists.{KeepLists};
ghost use Rattle.ecs_observe.specs.Parts.{with_kept_at};
ghost use Rattle.ecs_observe.specs.Stored.{AreLedTo, IsOpened, IsStored, entries_of, hears_set, made_of};
ghost use Rattle.ecs_observe.specs.Telling.{is_locally_at};
ghost use Rattle.watch_index.specs.NameOrder.{IsPlaceOf, is_key};

use ecs_id::Id;
use ecs_world::Changes;
use short_list::ShortNumbers;
use std::alloc::{AllocError, Allocator};
use std::hash::RandomState;
use watch_events::may_tell_set;
use watch_index::laws::whom_changes_concern_they_lead_to;
use watch_index::{Boxed, Happened, WatchOrder, Watcher, occasions_of};
use watch_stored::{RowsAfter, StoredQuery, is_told};
use watch_touched::has_births_or_deaths;

/// Stored queries in the order in which they were stored, with the changes that each listens for, and how many of them
/// are notified of commands.
pub(crate) struct StoredQueries<A: Allocator> {
    pub(crate) all: WatchOrder<StoredQuery<A>, A>,
    /// How many are notified of commands.
    watches: usize,
}

impl<A: Allocator> Drop for StoredQueries<A> {
    fn drop(self) {
        let Self { all: _, watches: _ } = self;
    }
}

impl<A: Allocator + Copy> StoredQueries<A> {
    pub(crate) fn new(alloc: A, random: RandomState) -> Self
        ensures none { entries_of result ≡ [] }
        ensures stored { IsStored result }
    {
        StoredQueries {
            all: WatchOrder::new(alloc, random),
            watches: 0,
        }
    }

    /// Makes a stored query ready for `put`, and lists it for the changes that it listens for. It has to be put next:
    /// until then the index lists a query that isn't there.
    ///
    /// Fails where memory is refused; then nothing has changed.
    pub(crate) fn prepare(
        &mut self,
        alloc: A,
        name: String<A>,
        query: StoredQuery<A>,
    ) -> Result<(String<A>, Boxed<StoredQuery<A>, A>), AllocError>
        requires stored { IsStored self.old }
        ensures same { entries_of self.new ≡ entries_of self.old }
        ensures opened { IfOk result (IsOpened self.new name query) }
        ensures refused { OnErr result (IsStored self.new) }
    {
        let anchored = query.plan.bonds().anchored;
        let occasions = occasions_of(alloc, query.kind, query.plan.query(), anchored)?;
        let watcher = Watcher {
            occasions,
            value: query,
        };
        self.all.prepare(alloc, name, watcher)
    }

    /// Puts the places of the stored queries that listen for one of the changes into an empty list, in ascending order.
    /// No other stored query is notified of anything.
    ///
    /// Fails where memory is refused.
    pub(crate) fn led(
        &self,
        alloc: A,
        changes: &Changes<A>,
        places: &mut ShortNumbers<A>,
    ) -> Result<(), AllocError>
        requires stored { IsStored self.now }
        requires empty { places.old.items ≡ [] }
        ensures ascend { OnOk result (IsStrictlyIncreasing places.new.items) }
        ensures within { OnOk result (All (λ i. i < length (entries_of self.now)) places.new.items) }
        ensures led { OnOk result (AreLedTo changes.now (entries_of self.now) places.new.items) }
    {
        let happened = Happened {
            lives: has_births_or_deaths(changes),
            came: changes.came(),
            went: changes.went(),
            written: changes.written(),
        };
        whom_changes_concern_they_lead_to();
        self.all.led(alloc, happened, places)?;
        Ok(())
    }
}

impl<A: Allocator> StoredQueries<A> {
    pub(crate) fn len(&self) -> usize
        ensures len { result ≡ length (entries_of self.now) }
    {
        self.all.order.len()
    }

    /// Whether one of them is notified of commands.
    pub(crate) fn has_watch(&self) -> bool
        requires stored { IsStored self.now }
        ensures { result ≡ list_any (λ query. is_told query.kind) (map (λ e. e.1) (entries_of self.now)) }
    {
        self.watches > 0
    }

    /// Whether one of them may be notified where the value of a held id is set.
    pub(crate) fn may_tell_set(&self, id: Id) -> bool
        requires stored { IsStored self.now }
        ensures { result ≡ list_any (hears_set id) (made_of self.now) }
    {
        if !self.has_watch() {
            return false;
        }
        let all = self.all.order.made.as_slice();
        for made in all {
            let query = &made.value.value;
            if may_tell_set(query.kind, query.plan.query(), id) {
                return true;
            }
        }
        false
    }

    /// The stored query with a name.
    pub(crate) fn get(&self, name: &str) -> Option<&StoredQuery<A>>
        requires stored { IsStored self.now }
        ensures { option_copied result ≡ lookup (is_key name.now) (entries_of self.now) }
    {
        match self.all.order.get(name) {
            Some(watcher) => Some(&watcher.value),
            None => None,
        }
    }

    /// The place of the stored query with a name.
    pub(crate) fn place_of(&self, name: &str) -> Option<usize>
        requires stored { IsStored self.now }
        ensures { IsPlaceOf name.now (made_of self.now) result }
    {
        self.all.order.place_of(name)
    }

    /// Whether a stored query has this name.
    pub(crate) fn contains_key(&self, name: &str) -> bool
        requires stored { IsStored self.now }
        ensures { result ≡ is_some (lookup (is_key name.now) (entries_of self.now)) }
    {
        self.get(name).is_some()
    }

    /// The stored query at a place, with its name.
    pub(crate) fn get_index(&self, place: usize) -> Option<(&String<A>, &StoredQuery<A>)>
        ensures entry { IfSome result (λ p. slice_get (entries_of self.now) place ≡ Some (p.0.now, p.1.now)) }
        ensures found { IsSome result ↔ (place < length (entries_of self.now)) }
    {
        match self.all.order.get_index(place) {
            Some((name, watcher)) => Some((name, &watcher.value)),
            None => None,
        }
    }

    /// Whether the stored query at a place is a monitor whose events follow from the entities that a command touched.
    pub(crate) fn is_told_locally_at(&self, place: usize) -> bool
        ensures { result ≡ is_locally_at (entries_of self.now) place }
    {
        match self.get_index(place) {
            Some((_, query)) => query.is_told_locally(),
            None => false,
        }
    }

    /// Appends a stored query that `prepare` made ready. No other has its name.
    pub(crate) fn put(&mut self, key: String<A>, made: Boxed<StoredQuery<A>, A>)
        requires opened { IsOpened self.old made.value.name made.value.value.value (key, made) }
        requires free { lookup (is_key (string_bytes made.value.name)) (entries_of self.old) ≡ None }
        ensures entries { entries_of self.new ≡ entries_of self.old ++ (made.value.name, made.value.value.value) ∷ [] }
        ensures stored { IsStored self.new }
    {
        let _few = self.all.order.len();
        self.watches += is_told(made.value.value.kind) as usize;
        self.all.put(key, made);
    }

    /// Removes the stored query with a name and returns it. No other is moved, and no memory is taken.
    pub(crate) fn remove(&mut self, name: &str) -> Option<Boxed<StoredQuery<A>, A>>
        requires stored { IsStored self.old }
        ensures value { option_map (λ b. b.value.value.value) result ≡ lookup (is_key name.now) (entries_of self.old) }
        ensures entries { IfSome result (λ _. entries_of self.new ≡ remove_entry (is_key name.now)
            (entries_of self.old)) }
        ensures none { IfNone result (self.new ≡ self.old) }
        ensures stored { IsStored self.new }
    {
        let Some(made) = self.all.remove(name) else {
            return None;
        };
        self.watches -= is_told(made.value.value.kind) as usize;
        Some(made)
    }

    /// Keeps the rows of the monitor at a place as they are after a command, if there is one.
    pub(crate) fn keep(&mut self, place: usize, rows: &mut RowsAfter<A>)
        requires stored { IsStored self.old }
        ensures held { entries_of self.new ≡ with_kept_at place rows.old (entries_of self.old) }
        ensures lists { KeepLists (entries_of self.old) (entries_of self.new) }
        ensures stored { IsStored self.new }
    {
        if place < self.all.order.made.len() {
            self.all.order.made[place].value.value.keep(rows);
        }
    }
}
