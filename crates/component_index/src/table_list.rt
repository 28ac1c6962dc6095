//! The list of the tables of one pattern.
ghost use Rattle.std.specs.Prelude.{◌≡◌, ◌∷◌, ◌++◌, [], ◌↔◌, IfOk, IsTrue, OnErr, OnOk, Some, length, position};
ghost use Rattle.std.specs.List.{IsDistinct};
ghost use Rattle.indexmap.specs.IndexSet.{insert_key};
ghost use Rattle.ecs_id.specs.TableKeys.{table_eq};
ghost use Rattle.component_index.specs.TableList.{IsNewOrLast, IsPlace, Loses, is_last};
ghost use Rattle.component_index.specs.Tables.{keys_of};

use crate::places::Places;
use ecs_id::{ListedKey, TableKey};
use std::alloc::{AllocError, Allocator, Global};
use std::marker::Model;

// How many tables a list has at most before it is noted where they stand: so few are searched as fast.
const FEW: usize = 16;

// How many tables a list gets room for once it has two.
const FEW_ROOM: usize = 4;

/// The tables of one pattern, each once. One takes no block of memory.
#[derive(Drop)]
pub struct TableList<A: Allocator> {
    tables: Tables<A>,
}

const _: () = prove!(size_of::<TableList<Global>>() == 32);

impl<A: Allocator> Model for TableList<A> {
    ghost use Rattle.std.specs.Prelude.{List};
    ghost use Rattle.std.specs.List.{IsDistinct};
    ghost use Rattle.ecs_id.specs.declared.TableKey.{TableKey as Key};
    ghost use Rattle.ecs_id.specs.TableKeys.{table_eq};
    ghost use Rattle.component_index.specs.Tables.{keys_of};

    ghost Value = { List Key };

    ghost view = { λ list. keys_of list.tables };

    ghost invariant = { λ list. IsDistinct table_eq (keys_of list.tables) };
}

impl<A: Allocator> TableList<A> {
    pub fn one(key: ListedKey) -> Self
        ensures { result ≡ key ∷ [] }
    {
        TableList {
            tables: Tables::One([key]),
        }
    }

    pub fn as_slice(&self) -> &[ListedKey]
        ensures keys { result.now ≡ self.now }
        ensures once { IsDistinct table_eq result.now }
    {
        self.tables.as_slice()
    }

    pub fn is_empty(&self) -> bool
        ensures { IsTrue result ↔ (length self.now ≡ 0) }
    {
        self.as_slice().is_empty()
    }

    /// Puts the table last, unless it stands there, and notes where it stands in a long list.
    pub fn insert(
        &mut self,
        alloc: A,
        places: &mut Places<A>,
        word: u64,
        key: ListedKey,
    ) -> Result<(), AllocError>
    where
        A: Copy,
        requires { IsNewOrLast self.old key }
        ensures inserted { OnOk result (self.new ≡ insert_key table_eq self.old key) }
        ensures refused { OnErr result (self.new ≡ self.old) }
    {
        self.tables.insert(alloc, places, word, key)
    }

    /// Takes the table out, where the list has it. The last takes its place.
    pub fn remove(&mut self, places: &mut Places<A>, word: u64, key: TableKey)
        ensures { Loses self.old self.new key }
    {
        self.tables.remove(places, word, key)
    }
}

// A list with a block of memory doesn't go back to a form with none.
#[derive(Drop)]
enum Tables<A: Allocator> {
    Empty,
    One([ListedKey; 1]),
    More(Vec<ListedKey, A>),
}

impl<A: Allocator> Tables<A> {
    fn as_slice(&self) -> &[ListedKey]
        ensures { result.now ≡ keys_of self.now }
    {
        match self {
            Tables::Empty => &[],
            Tables::One(only) => only.as_slice(),
            Tables::More(keys) => keys.as_slice(),
        }
    }

    fn insert(
        &mut self,
        alloc: A,
        places: &mut Places<A>,
        word: u64,
        key: ListedKey,
    ) -> Result<(), AllocError>
    where
        A: Copy,
        requires { IsNewOrLast (keys_of self.old) key }
        ensures inserted { OnOk result (keys_of self.new ≡ insert_key table_eq (keys_of self.old) key) }
        ensures refused { OnErr result (keys_of self.new ≡ keys_of self.old) }
    {
        let keys = self.as_slice();
        if is_last(keys, key) {
            return Ok(());
        }
        if FEW <= keys.len() {
            places.note(key.slot(), word, keys.len())?;
        }
        self.push(alloc, key)
    }

    fn push(&mut self, alloc: A, key: ListedKey) -> Result<(), AllocError>
        ensures pushed { OnOk result (keys_of self.new ≡ keys_of self.old ++ key ∷ []) }
        ensures refused { OnErr result (keys_of self.new ≡ keys_of self.old) }
    {
        match self {
            Tables::Empty => *self = Tables::One([key]),
            Tables::One(only) => {
                let first = key_of(only);
                *self = Tables::More(two(alloc, first, key)?);
            }
            Tables::More(keys) => list_growth::push(keys, key)?,
        }
        Ok(())
    }

    fn remove(&mut self, places: &mut Places<A>, word: u64, key: TableKey)
        requires { IsDistinct table_eq (keys_of self.old) }
        ensures lost { Loses (keys_of self.old) (keys_of self.new) key }
        ensures once { IsDistinct table_eq (keys_of self.new) }
    {
        match self {
            Tables::Empty => {}
            Tables::One(only) => {
                let first = key_of(only);
                if names(first, key) {
                    *self = Tables::Empty;
                }
            }
            Tables::More(keys) => {
                if let Some(place) = place_of(keys.as_slice(), places, word, key) {
                    note_last_at(place, keys.as_slice(), places, word);
                    keys.swap_remove(place);
                }
            }
        }
    }
}

fn key_of(only: &[ListedKey; 1]) -> ListedKey
    ensures { only.now ≡ result ∷ [] }
{
    only[0]
}

/// Whether it is the key of this table.
fn names(listed: ListedKey, key: TableKey) -> bool
    ensures { result ≡ table_eq key listed }
{
    key == listed.key()
}

fn is_last(keys: &[ListedKey], key: ListedKey) -> bool
    ensures { result ≡ is_last keys.now key }
{
    match keys.last() {
        Some(last) => names(*last, key.key()),
        None => false,
    }
}

fn stands_at(keys: &[ListedKey], place: usize, key: TableKey) -> bool
    ensures { IsTrue result → IsPlace keys.now key (Some place) }
{
    place < keys.len() && names(keys[place], key)
}

// Where the table stands: at the place that is noted, or else among the first.
fn place_of<A: Allocator>(
    keys: &[ListedKey],
    places: &mut Places<A>,
    word: u64,
    key: TableKey,
) -> Option<usize>
    ensures { IsPlace keys.now key result }
{
    if FEW < keys.len() {
        match places.next(key.slot, word) {
            Some(place) if stands_at(keys, place, key) => return Some(place),
            _ => {}
        }
    }
    searched(keys, key)
}

fn searched(keys: &[ListedKey], key: TableKey) -> Option<usize>
    ensures { result ≡ position (table_eq key) keys.now }
{
    keys.iter().position(|other| names(*other, key))
}

// Notes this place for the last table.
fn note_last_at<A: Allocator>(place: usize, keys: &[ListedKey], places: &mut Places<A>, word: u64) {
    if let Some(last) = keys.last() {
        places.moved(last.slot(), word, place);
    }
}

#[inline(never)]
fn two<A: Allocator>(
    alloc: A,
    first: ListedKey,
    second: ListedKey,
) -> Result<Vec<ListedKey, A>, AllocError>
    ensures { IfOk result (λ keys. keys.items ≡ first ∷ second ∷ []) }
{
    let mut keys = Vec::with_capacity(alloc, FEW_ROOM)?;
    keys.push_reserved(first);
    keys.push_reserved(second);
    Ok(keys)
}
