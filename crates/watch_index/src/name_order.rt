//! Values under names, in the order in which they were put in.
//!
//! ```text
//! let mut order = NameOrder::new(rt.alloc(), RandomState::new(&rt)?);
//!
//! // memory is taken first, and then nothing can fail
//! let (key, made) = order.prepare(rt.alloc(), String::from_str(rt.alloc(), "moving")?, query)?;
//! order.put(key, made);
//!
//! // by its name, and by its place
//! let place = order.place_of("moving");
//! let query = order.get("moving");
//! let dropped = order.remove("moving");
//! ```

ghost use Rattle.std.specs.Prelude.{◌≡◌, ◌↔◌, ◌<◌, ◌++◌, ◌∷◌, [], All, IfNone, IfOk, IfSome, IsSome, None, OnOk, Some};
ghost use Rattle.std.specs.Prelude.{is_some, length, option_map, slice_get};
ghost use Rattle.std.specs.Map.{lookup, remove_entry};
ghost use Rattle.std.specs.Option.{option_copied};
ghost use Rattle.std.specs.String.{string_bytes};
ghost use Rattle.watch_index.specs.NameOrder.{HasRoom, IsInOrder, IsPlaceOf, IsReady, IsTakenOut, StandsAt, entries_of};
ghost use Rattle.watch_index.specs.NameOrder.{is_key, number_in};

use indexmap::IndexMap;
use secret_hashing::Hashing;
use std::alloc::{AllocError, Allocator};
use std::hash::RandomState;

/// A value under its name.
#[derive(Drop)]
pub struct Named<V, A: Allocator> {
    /// The number of a value is greater than that of each value before it, and never changes.
    pub number: u64,
    pub name: String<A>,
    pub value: V,
}

/// Values in the order in which they were put in, each found by its name.
///
/// A look-up hashes the name and then searches by halves. A removal moves no other value, only a pointer for each value
/// after it.
#[derive(Drop)]
pub struct NameOrder<V, A: Allocator> {
    /// In boxes, so that a removal moves a pointer and not the value. The values may be written, and nothing else.
    pub made: Vec<Box<Named<V, A>, A>, A>,
    // the number of each value by its name
    numbers: IndexMap<String<A>, u64, Hashing, A>,
}

impl<V, A: Allocator + Copy> NameOrder<V, A> {
    /// An order without values, which hashes names with these random keys. It takes no memory until the first value
    /// comes.
    pub fn new(alloc: A, random: RandomState) -> Self
        ensures none { result.made.items ≡ [] }
        ensures order { IsInOrder result }
    {
        NameOrder {
            made: Vec::new(alloc),
            numbers: IndexMap::with_hasher(alloc, Hashing::new(random)),
        }
    }

    /// Makes a value ready for `put`: in a box, with its name as a key, and with room for both.
    ///
    /// Fails where memory is refused; then the order has what it had.
    pub fn prepare(
        &mut self,
        alloc: A,
        name: String<A>,
        value: V,
    ) -> Result<(String<A>, Box<Named<V, A>, A>), AllocError>
    where
        V: Drop,
        requires order { IsInOrder self.old }
        ensures same { self.new.made.items ≡ self.old.made.items }
        ensures order { IsInOrder self.new }
        ensures ready { IfOk result (IsReady self.new name value) }
    {
        let number = self.reserve()?;
        let key = String::from_str(alloc, name.as_str())?;
        let named = Named {
            number,
            name,
            value,
        };
        let made = Box::new(alloc, named)?;
        Ok((key, made))
    }
}

impl<V, A: Allocator> NameOrder<V, A> {
    /// How many values there are.
    pub fn len(&self) -> usize
        ensures len { result ≡ length (entries_of self.now) }
    {
        self.made.len()
    }

    /// The place of the value with a name.
    pub fn place_of(&self, name: &str) -> Option<usize>
        requires order { IsInOrder self.now }
        ensures { IsPlaceOf name.now self.now.made.items result }
    {
        let Some(number) = self.numbers.get(name) else {
            return None;
        };
        self.place_of_number(*number)
    }

    /// The place of the value with a number.
    pub fn place_of_number(&self, number: u64) -> Option<usize>
        requires order { IsInOrder self.now }
        ensures { StandsAt number self.now.made.items result }
    {
        match self.made.binary_search_by_key(&number, |made| made.number) {
            Ok(place) => Some(place),
            Err(_) => None,
        }
    }

    /// The value with a name.
    pub fn get(&self, name: &str) -> Option<&V>
        requires order { IsInOrder self.now }
        ensures { option_copied result ≡ lookup (is_key name.now) (entries_of self.now) }
    {
        match self.place_of(name) {
            Some(place) => Some(&self.made[place].value),
            None => None,
        }
    }

    /// Whether a value has this name.
    pub fn contains_key(&self, name: &str) -> bool
        requires order { IsInOrder self.now }
        ensures { result ≡ is_some (lookup (is_key name.now) (entries_of self.now)) }
    {
        self.get(name).is_some()
    }

    /// The value at a place, with its name.
    pub fn get_index(&self, place: usize) -> Option<(&String<A>, &V)>
        ensures entry { IfSome result (λ p. slice_get (entries_of self.now) place ≡ Some (p.0.now, p.1.now)) }
        ensures found { IsSome result ↔ (place < length (entries_of self.now)) }
    {
        if place >= self.made.len() {
            return None;
        }
        let made = &self.made[place];
        Some((&made.name, &made.value))
    }

    /// Makes room for one more value, and gives a number for it.
    fn reserve(&mut self) -> Result<u64, AllocError>
        requires order { IsInOrder self.old }
        ensures same { self.new.made.items ≡ self.old.made.items }
        ensures order { IsInOrder self.new }
        ensures number { IfOk result (λ number. All (λ b. number_in b < number) self.new.made.items) }
        ensures room { OnOk result (HasRoom self.new) }
    {
        self.made.reserve(1)?;
        self.numbers.reserve(1)?;
        self.next_number()
    }

    /// A number greater than each in use.
    fn next_number(&self) -> Result<u64, AllocError>
        requires order { IsInOrder self.now }
        ensures { IfOk result (λ number. All (λ b. number_in b < number) self.now.made.items) }
    {
        let Some(last) = self.made.last() else {
            return Ok(1);
        };
        match last.number.checked_add(1) {
            Some(number) => Ok(number),
            None => Err(AllocError),
        }
    }

    /// Appends a value that `prepare` made ready. No other value has its name.
    pub fn put(&mut self, key: String<A>, made: Box<Named<V, A>, A>)
        requires order { IsInOrder self.old }
        requires ready { IsReady self.old made.value.name made.value.value (key, made) }
        requires free { lookup (is_key (string_bytes made.value.name)) (entries_of self.old) ≡ None }
        ensures made { self.new.made.items ≡ self.old.made.items ++ made ∷ [] }
        ensures order { IsInOrder self.new }
    {
        self.numbers.insert(key, made.number).unwrap();
        self.made.push_reserved(made);
    }

    /// Removes the value with a name and returns it. Those after it close the gap by moves of pointers.
    pub fn remove(&mut self, name: &str) -> Option<Box<Named<V, A>, A>>
        requires order { IsInOrder self.old }
        ensures value { option_map (λ b. b.value.value) result ≡ lookup (is_key name.now) (entries_of self.old) }
        ensures entries { IfSome result (λ _. entries_of self.new ≡ remove_entry (is_key name.now)
            (entries_of self.old)) }
        ensures place { IfSome result (IsTakenOut self.old.made.items self.new.made.items) }
        ensures none { IfNone result (self.new ≡ self.old) }
        ensures order { IsInOrder self.new }
    {
        let Some(place) = self.place_of(name) else {
            return None;
        };
        self.numbers.swap_remove(name);
        Some(self.made.remove(place))
    }
}
