//! The list of the tables that a kept query is about.

ghost use Rattle.std.specs.Prelude.{◌≡◌, ◌↔◌, ◌+◌, ◌++◌, ◌<◌, ◌≤◌, [], min, IfOk, IsTrue, OnErr, OnOk};
ghost use Rattle.std.specs.Prelude.{◌^◌, MatchOption, if◌then◌else◌, length};
ghost use Rattle.std.specs.List.{Contains, filter};
ghost use Rattle.ecs_id.specs.declared.TableKey.{TableKey};
ghost use Rattle.query_cache.specs.Kept.{has_rows, is_kept, Fits, IsRising, IsSynced, IsTakenIn, Judges, stands};
ghost use Rattle.query_cache.specs.Patterns.{AreListed, patterns_of};
ghost use Rattle.query_model.specs.Query as model;
ghost use Rattle.table_store.specs.Store.{Store};

use crate::judge::suits;
use crate::patterns::patterns_of;
use crate::{Keep, TableList};
use ecs_id::{ListedKey, TableKey};
use id_pattern::Pattern;
use query_check::Query;
use std::alloc::{AllocError, Allocator, Global};
use std::marker::Model;
use table_store::TableStore;

/// The tables whose ids have a hit for each cacheable item of a query, emptied tables among them, as of the last
/// `sync`.
///
/// Cacheable are the And terms outside all groups that ask `$this` itself for stored ids, and whose component and
/// target are no variables.
#[derive(Drop)]
pub struct Kept<A: Allocator = Global> {
    patterns: Vec<Pattern, A>,
    // by rising serial
    keys: TableList<A>,
    // the greatest serial of a table that was taken in or passed over
    last: u128,
    judged: u64,
}

impl<A: Allocator> Model for Kept<A> {
    ghost use Rattle.query_cache.specs.Kept as model;

    ghost Value = { model.Kept };

    ghost view = { λ k. record {
      patterns = k.patterns.items;
      keys = k.keys.items;
      last = k.last;
      judged = k.judged;
    } };
}

impl<A: Allocator + Copy> Kept<A> {
    /// The list of a query before the first `sync`: of no table. It fits every store. Fails where memory is refused.
    pub fn new(alloc: A, query: &Query<A>) -> Result<Self, AllocError>
        ensures patterns { IfOk result (λ kept. kept.patterns ≡ patterns_of query.now) }
        ensures keys { IfOk result (λ kept. kept.keys ≡ []) }
        ensures last { IfOk result (λ kept. kept.last ≡ 0) }
        ensures judged { IfOk result (λ kept. kept.judged ≡ 0) }
        ensures fits { IfOk result (λ kept. (s : Store) → Fits kept s) }
    {
        Ok(Kept {
            patterns: patterns_of(alloc, query)?,
            keys: TableList::new(alloc),
            last: 0,
            judged: 0,
        })
    }
}

impl<A: Allocator> Kept<A> {
    /// Appends the tables to a list, by rising serial.
    ///
    /// Where memory is refused, the list stays as it was.
    pub fn push_tables<B: Allocator>(
        &self,
        tables: &mut Vec<ListedKey, B>,
    ) -> Result<(), AllocError>
        ensures pushed { OnOk result (tables.new.items ≡ tables.old.items ++ self.now.keys) }
        ensures refused { OnErr result (tables.new.items ≡ tables.old.items) }
    {
        self.keys.push_onto(tables)
    }

    /// Appends those tables to a list that have rows, by rising serial. All tables of this list must stand, as they do
    /// after `sync`.
    ///
    /// Where memory is refused, the list stays as it was.
    pub fn push_filled<B: Allocator, C: Allocator>(
        &self,
        store: &TableStore<B>,
        tables: &mut Vec<ListedKey, C>,
    ) -> Result<(), AllocError>
        requires stand { (k : TableKey) → Contains self.now.keys k → IsTrue (stands store.now k) }
        ensures pushed { OnOk result (tables.new.items ≡ tables.old.items
            ++ filter (has_rows store.now) self.now.keys) }
        ensures refused { OnErr result (tables.new.items ≡ tables.old.items) }
    {
        self.keys.push_filled_onto(store, tables)
    }

    /// How many tables it has, counted by blocks of them. None where a `usize` doesn't count so many.
    pub fn count(&self) -> Option<usize>
        ensures { MatchOption result (2 ^ 64 ≤ length self.now.keys) (λ n. n ≡ length self.now.keys) }
    {
        self.keys.count()
    }

    /// How many tables were judged so far. It stays at its greatest number.
    pub fn judged(&self) -> u64
        ensures { result ≡ self.now.judged }
    {
        self.judged
    }

    /// Takes in the tables that came since the last `sync`, each judged once, and drops those that were released.
    ///
    /// Where memory is refused the list stays as it was, and a later `sync` goes on from it.
    pub fn sync<B: Allocator>(&mut self, tables: &TableStore<B>) -> Result<(), AllocError>
        requires { Fits self.old tables.now }
        ensures listed { (q : model.Query) → self.old.patterns ≡ patterns_of q
            → OnOk result (AreListed q tables.now self.new.keys) }
        ensures exact { OnOk result ((k : TableKey) → Contains self.new.keys k
            ↔ IsTrue (is_kept self.new.patterns tables.now k)) }
        ensures once { IsRising self.new.keys }
        ensures judged { Judges tables.now self.old.last result self.old.judged self.new.judged }
        ensures again { IsSynced self.old tables.now → self.new.judged ≡ self.old.judged }
        ensures synced { OnOk result (IsSynced self.new tables.now) }
        ensures patterns { self.new.patterns ≡ self.old.patterns }
        ensures refused { OnErr result (self.new ≡ record self.old { judged = self.new.judged }) }
        ensures fits { Fits self.new tables.now }
    {
        let last = take_in(
            &mut self.keys,
            &mut self.judged,
            self.patterns.as_slice(),
            tables,
            self.last,
        )?;
        drop_released(&mut self.keys, tables);
        self.last = last;
        Ok(())
    }
}

/// Whether the table under a key stands and is one of the query. This is where tables are judged, and counted.
#[inline(always)]
fn is_kept<B: Allocator>(
    patterns: &[Pattern],
    tables: &TableStore<B>,
    key: ListedKey,
    judged: &mut u64,
) -> bool
    ensures kept { result ≡ is_kept patterns.now tables.now key }
    ensures judged { judged.new ≡ (if stands tables.now key then min (judged.old + 1) 18446744073709551615
        else judged.old) }
{
    let Some(table) = tables.get(key.key()) else {
        return false;
    };
    *judged = judged.saturating_add(1);
    suits(patterns, table.ids())
}

/// Appends to the keys those tables above a serial that are of the query. Answers the greatest serial that was given.
fn take_in<A: Allocator, B: Allocator>(
    keys: &mut TableList<A>,
    judged: &mut u64,
    patterns: &[Pattern],
    tables: &TableStore<B>,
    last: u128,
) -> Result<u128, AllocError>
    requires { (k : TableKey) → Contains keys.old.items k → k.serial ≤ last }
    ensures { IsTakenIn tables.now patterns.now last result keys.old.items keys.new.items judged.old judged.new }
{
    // tables that were released may be among them: the one look-up of the judgement tells
    for key in newer(tables.remembered(), last) {
        if is_kept(patterns, tables, *key, judged) && keys.push(*key).is_err() {
            keys.retain(&Keep::<B>::UpTo(last));
            return Err(AllocError);
        }
    }
    Ok(last.max(tables.last()))
}

/// The keys with greater serials, among keys by rising serial.
fn newer(keys: &[ListedKey], serial: u128) -> &[ListedKey]
    requires { IsRising keys.now }
    ensures listed { (k : TableKey) → Contains keys.now k → serial < k.serial → Contains result.now k }
    ensures newer { (k : TableKey) → Contains result.now k → serial < k.serial }
    ensures rising { IsRising result.now }
{
    let known = keys.partition_point(|key| key.key().serial <= serial);
    &keys[known..]
}

/// Keeps the keys of the tables that stand.
fn drop_released<A: Allocator, B: Allocator>(keys: &mut TableList<A>, tables: &TableStore<B>)
    ensures { keys.new.items ≡ filter (stands tables.now) keys.old.items }
{
    keys.retain(&Keep::Standing(tables));
}
