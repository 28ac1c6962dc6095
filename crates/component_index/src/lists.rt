//! The list of tables of each pattern.
ghost use Rattle.std.specs.Prelude.{◌≡◌, ◌&&◌, not, None, OnErr, OnOk};
ghost use Rattle.std.specs.HashMap.{get};
ghost use Rattle.std.specs.List.{list_any};
ghost use Rattle.ecs_id.specs.Id.{pair, plain};
ghost use Rattle.id_pattern.specs.Patterns.{matches, matches_some};
ghost use Rattle.id_pattern.specs.SamePattern.{pattern_eq};
ghost use Rattle.component_index.specs.Listed.{is_among, is_new, patterns_of, Adds, Drops, IsNewest, Keeps};

use crate::places::Places;
use crate::table_list::TableList;
use ecs_id::{Id, ListedKey, TableKey};
use id_pattern::{Part, Pattern};
use indexmap::IndexMap;
use secret_hashing::Hashing;
use std::alloc::{AllocError, Allocator};

// No list is empty: the entry of a pattern goes with the last table of its list.
pub type Lists<A> = IndexMap<Pattern, TableList<A>, Hashing, A>;

/// Puts the table into the list of the pattern, where it isn't in it.
fn list<A: Allocator + Copy>(
    lists: &mut Lists<A>,
    places: &mut Places<A>,
    pattern: &Pattern,
    key: ListedKey,
) -> Result<(), AllocError>
    requires { IsNewest lists.old key }
    ensures listed { OnOk result (Adds lists.old lists.new (pattern_eq pattern.now) key) }
    ensures refused { OnErr result (Keeps lists.old lists.new (pattern_eq pattern.now) key) }
    ensures newest { OnOk result (IsNewest lists.new key) }
{
    let alloc = *lists.allocator();
    if let Some(list) = lists.get_mut(pattern) {
        list.insert(alloc, places, pattern.packed(), key)?;
        return Ok(());
    }
    list_first(lists, pattern, key)
}

/// Puts the table into a list of its own, where the pattern has none yet.
#[cold]
#[inline(never)]
fn list_first<A: Allocator>(
    lists: &mut Lists<A>,
    pattern: &Pattern,
    key: ListedKey,
) -> Result<(), AllocError>
    requires none { get pattern_eq lists.old pattern.now ≡ None }
    requires newest { IsNewest lists.old key }
    ensures listed { OnOk result (Adds lists.old lists.new (pattern_eq pattern.now) key) }
    ensures refused { OnErr result (Keeps lists.old lists.new (pattern_eq pattern.now) key) }
    ensures newest { OnOk result (IsNewest lists.new key) }
{
    lists.insert(*pattern, TableList::one(key))?;
    Ok(())
}

/// Takes the table out of the list of the pattern, where it is in it.
fn unlist<A: Allocator>(
    lists: &mut Lists<A>,
    places: &mut Places<A>,
    pattern: &Pattern,
    key: TableKey,
)
    ensures { Drops lists.old lists.new (pattern_eq pattern.now) key }
{
    let Some(list) = lists.get_mut(pattern) else {
        return;
    };
    list.remove(places, pattern.packed(), key);
    if list.is_empty() {
        lists.swap_remove(pattern);
    }
}

/// Puts the table into the list of the pattern, but for one that matches the id before, in whose list the table is.
fn list_new<A: Allocator + Copy>(
    lists: &mut Lists<A>,
    places: &mut Places<A>,
    before: &Option<Id>,
    pattern: &Pattern,
    key: ListedKey,
) -> Result<(), AllocError>
    requires { IsNewest lists.old key }
    ensures listed { OnOk result (Adds lists.old lists.new (λ p. pattern_eq pattern.now p
        && not (matches_some p before.now)) key) }
    ensures refused { OnErr result (Keeps lists.old lists.new (λ p. pattern_eq pattern.now p
        && not (matches_some p before.now)) key) }
    ensures newest { OnOk result (IsNewest lists.new key) }
{
    if pattern.matches_some(before) {
        return Ok(());
    }
    list(lists, places, pattern, key)
}

fn list_each<A: Allocator + Copy>(
    lists: &mut Lists<A>,
    places: &mut Places<A>,
    before: &Option<Id>,
    patterns: &[Pattern],
    key: ListedKey,
) -> Result<(), AllocError>
    requires { IsNewest lists.old key }
    ensures listed { OnOk result (Adds lists.old lists.new (λ p. is_among patterns.now p
        && not (matches_some p before.now)) key) }
    ensures refused { OnErr result (Keeps lists.old lists.new (λ p. is_among patterns.now p
        && not (matches_some p before.now)) key) }
    ensures newest { OnOk result (IsNewest lists.new key) }
{
    for pattern in patterns {
        list_new(lists, places, before, pattern, key)?;
    }
    Ok(())
}

/// Takes the table out of the list of the pattern, but for one that matches the id before, out of whose list the table
/// is.
fn unlist_new<A: Allocator>(
    lists: &mut Lists<A>,
    places: &mut Places<A>,
    before: &Option<Id>,
    pattern: &Pattern,
    key: TableKey,
)
    ensures { Drops lists.old lists.new (λ p. pattern_eq pattern.now p && not (matches_some p before.now)) key }
{
    if !pattern.matches_some(before) {
        unlist(lists, places, pattern, key);
    }
}

fn unlist_each<A: Allocator>(
    lists: &mut Lists<A>,
    places: &mut Places<A>,
    before: &Option<Id>,
    patterns: &[Pattern],
    key: TableKey,
)
    ensures { Drops lists.old lists.new (λ p. is_among patterns.now p && not (matches_some p before.now)) key }
{
    for pattern in patterns {
        unlist_new(lists, places, before, pattern, key);
    }
}

/// Puts the table into the lists of the patterns that match the id, but for those that match the id before.
fn list_id<A: Allocator + Copy>(
    lists: &mut Lists<A>,
    places: &mut Places<A>,
    before: &Option<Id>,
    id: Id,
    key: ListedKey,
) -> Result<(), AllocError>
    requires { IsNewest lists.old key }
    ensures listed { OnOk result (Adds lists.old lists.new (is_new before.now id) key) }
    ensures refused { OnErr result (Keeps lists.old lists.new (is_new before.now id) key) }
    ensures newest { OnOk result (IsNewest lists.new key) }
{
    match id.second() {
        None => list_each(lists, places, before, &of_plain(id.first()), key),
        Some(target) => list_each(lists, places, before, &of_pair(id.first(), target), key),
    }
}

/// Takes the table out of the lists of the patterns that match the id, but for those that match the id before.
fn unlist_id<A: Allocator>(
    lists: &mut Lists<A>,
    places: &mut Places<A>,
    before: &Option<Id>,
    id: Id,
    key: TableKey,
)
    ensures { Drops lists.old lists.new (is_new before.now id) key }
{
    match id.second() {
        None => unlist_each(lists, places, before, &of_plain(id.first()), key),
        Some(target) => unlist_each(lists, places, before, &of_pair(id.first(), target), key),
    }
}

/// Puts the table into the lists of the patterns that match one of the ids. After an error it is in some of them.
pub fn list_all<A: Allocator + Copy>(
    lists: &mut Lists<A>,
    places: &mut Places<A>,
    ids: &[Id],
    key: ListedKey,
) -> Result<(), AllocError>
    requires { IsNewest lists.old key }
    ensures listed { OnOk result (Adds lists.old lists.new (λ pattern. list_any (matches pattern) ids.now) key) }
    ensures refused { OnErr result (Keeps lists.old lists.new (λ pattern. list_any (matches pattern) ids.now) key) }
    ensures newest { OnOk result (IsNewest lists.new key) }
{
    let mut before = None;
    for id in ids {
        list_id(lists, places, &before, *id, key)?;
        before = Some(*id);
    }
    Ok(())
}

/// Takes the table out of the lists of the patterns that match one of the ids.
pub fn unlist_all<A: Allocator>(
    lists: &mut Lists<A>,
    places: &mut Places<A>,
    ids: &[Id],
    key: TableKey,
)
    ensures { Drops lists.old lists.new (λ pattern. list_any (matches pattern) ids.now) key }
{
    let mut before = None;
    for id in ids {
        unlist_id(lists, places, &before, *id, key);
        before = Some(*id);
    }
}

// The patterns that match the plain id.
fn of_plain(index: u32) -> [Pattern; 2]
    ensures { result ≡ patterns_of (plain index) }
{
    let second = None;
    [
        Pattern {
            first: Part::Is(index),
            second,
        },
        Pattern {
            first: Part::Any,
            second,
        },
    ]
}

// The patterns that match the pair.
fn of_pair(relationship: u32, target: u32) -> [Pattern; 4]
    ensures { result ≡ patterns_of (pair relationship target) }
{
    let is_relationship = Part::Is(relationship);
    let is_target = Some(Part::Is(target));
    let any = Some(Part::Any);
    [
        Pattern {
            first: is_relationship,
            second: is_target,
        },
        Pattern {
            first: is_relationship,
            second: any,
        },
        Pattern {
            first: Part::Any,
            second: is_target,
        },
        Pattern {
            first: Part::Any,
            second: any,
        },
    ]
}
