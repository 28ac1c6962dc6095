//! Values under names, in the order in which they were put in, each with the occasions that it listens for.
//!
//! ```text
//! let mut stored = WatchOrder::new(rt.alloc(), RandomState::new(&rt)?);
//!
//! // memory is taken first, and then nothing can fail
//! let (key, made) = stored.prepare(rt.alloc(), name, Watcher { occasions, value })?;
//! stored.put(key, made);
//!
//! // the places of those that listen for a change of a command
//! let mut places = ShortNumbers::new();
//! stored.led(rt.alloc(), happened, &mut places)?;
//! for place in places.as_slice() { .. }
//! ```

ghost use Rattle.std.specs.Prelude.{◌≡◌, ◌<◌, ◌++◌, ◌∷◌, [], All, IfNone, IfOk, IfSome, None, OnErr, OnOk, length};
ghost use Rattle.std.specs.Prelude.{option_map};
ghost use Rattle.std.specs.List.Sorted.{IsStrictlyIncreasing};
ghost use Rattle.std.specs.Map.{lookup, remove_entry};
ghost use Rattle.std.specs.String.{string_bytes};
ghost use Rattle.watch_index.specs.NameOrder.{IsTakenOut, entries_of, is_key};
ghost use Rattle.watch_index.specs.Occasions.{happening};
ghost use Rattle.watch_index.specs.WatchOrder.{AreLed, HasPlaces, IsOpen, IsWatched};

use crate::{Happened, NameOrder, Named, Occasion, WatchIndex};
use short_list::ShortNumbers;
use std::alloc::{AllocError, Allocator};
use std::hash::RandomState;

/// A value with the occasions that it listens for.
#[derive(Drop)]
pub struct Watcher<V, A: Allocator> {
    pub occasions: Vec<Occasion, A>,
    pub value: V,
}

/// A value with its occasions in a box, under its name.
pub type Boxed<V, A> = Box<Named<Watcher<V, A>, A>, A>;

/// Values in the order in which they were put in, and an index of the occasions that they listen for.
#[derive(Drop)]
pub struct WatchOrder<V, A: Allocator> {
    /// The values may be written; their occasions stay.
    pub order: NameOrder<Watcher<V, A>, A>,
    index: WatchIndex<A>,
}

impl<V, A: Allocator + Copy> WatchOrder<V, A> {
    /// An order without values, which hashes names and occasions with these random keys.
    pub fn new(alloc: A, random: RandomState) -> Self
        ensures none { result.order.made.items ≡ [] }
        ensures watched { IsWatched result }
    {
        WatchOrder {
            order: NameOrder::new(alloc, random),
            index: WatchIndex::new(alloc, random),
        }
    }

    /// Makes a value ready for `put`, and lists it for its occasions. It has to be put next: until then the index lists
    /// a value that isn't there.
    ///
    /// Fails where memory is refused; then nothing has changed.
    pub fn prepare(
        &mut self,
        alloc: A,
        name: String<A>,
        watcher: Watcher<V, A>,
    ) -> Result<(String<A>, Boxed<V, A>), AllocError>
    where
        V: Drop,
        requires watched { IsWatched self.old }
        ensures same { self.new.order.made.items ≡ self.old.order.made.items }
        ensures open { IfOk result (IsOpen self.new name watcher) }
        ensures refused { OnErr result (IsWatched self.new) }
    {
        let (key, made) = self.order.prepare(alloc, name, watcher)?;
        self.index
            .enter(made.number, made.value.occasions.as_slice())?;
        Ok((key, made))
    }

    /// Puts the places of the values that listen for one of these changes into an empty list, in ascending order.
    ///
    /// Takes time in the number of changes and of the values found, however many others are stored. Fails where memory
    /// is refused.
    pub fn led(
        &self,
        alloc: A,
        happened: Happened<'_>,
        places: &mut ShortNumbers<A>,
    ) -> Result<(), AllocError>
        requires watched { IsWatched self.now }
        requires empty { places.old.items ≡ [] }
        ensures ascend { OnOk result (IsStrictlyIncreasing places.new.items) }
        ensures within { OnOk result (All (λ i. i < length self.now.order.made.items) places.new.items) }
        ensures led { OnOk result (AreLed self.now.order.made.items
            (happening happened.entry.lives (happened.entry.came).now (happened.entry.went).now
            (happened.entry.written).now) places.new.items) }
    {
        let mut numbers = ShortNumbers::new();
        self.index.led(happened, &mut numbers)?;
        self.push_places(alloc, numbers.as_slice(), places)?;
        Ok(())
    }

    /// Puts the places of the values with these numbers into an empty list. Numbers ascend with places, so for
    /// ascending numbers the places ascend too.
    fn push_places(
        &self,
        alloc: A,
        numbers: &[u64],
        places: &mut ShortNumbers<A>,
    ) -> Result<(), AllocError>
        requires watched { IsWatched self.now }
        requires ascend { IsStrictlyIncreasing numbers.now }
        requires empty { places.old.items ≡ [] }
        ensures ascend { OnOk result (IsStrictlyIncreasing places.new.items) }
        ensures within { OnOk result (All (λ i. i < length self.now.order.made.items) places.new.items) }
        ensures all { OnOk result (HasPlaces self.now.order.made.items numbers.now places.new.items) }
    {
        for number in numbers {
            if let Some(place) = self.order.place_of_number(*number) {
                places.push(alloc, place as u64)?;
            }
        }
        Ok(())
    }
}

impl<V, A: Allocator> WatchOrder<V, A> {
    /// Appends a value that `prepare` made ready. No other value has its name.
    pub fn put(&mut self, key: String<A>, made: Boxed<V, A>)
        requires open { IsOpen self.old made.value.name made.value.value (key, made) }
        requires free { lookup (is_key (string_bytes made.value.name)) (entries_of self.old.order) ≡ None }
        ensures made { self.new.order.made.items ≡ self.old.order.made.items ++ made ∷ [] }
        ensures watched { IsWatched self.new }
    {
        self.order.put(key, made);
    }

    /// Removes the value with a name, and its occasions from the index. It takes no memory.
    pub fn remove(&mut self, name: &str) -> Option<Boxed<V, A>>
        requires watched { IsWatched self.old }
        ensures value { option_map (λ b. b.value.value) result ≡ lookup (is_key name.now) (entries_of self.old.order) }
        ensures entries { IfSome result (λ _. entries_of self.new.order
            ≡ remove_entry (is_key name.now) (entries_of self.old.order)) }
        ensures place { IfSome result (IsTakenOut self.old.order.made.items self.new.order.made.items) }
        ensures none { IfNone result (self.new ≡ self.old) }
        ensures watched { IsWatched self.new }
    {
        let Some(made) = self.order.remove(name) else {
            return None;
        };
        self.index
            .leave(made.number, made.value.occasions.as_slice());
        Some(made)
    }
}
