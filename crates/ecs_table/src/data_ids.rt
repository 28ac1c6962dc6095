//! The ids with data of a table, and where each one stands.
ghost use Rattle.std.specs.Prelude.{◌≡◌, ℕ, ◌<◌, ◌≤◌, IfSome, IsTrue, length, slice_index_or};
ghost use Rattle.std.specs.declared.cmp.Ordering.TheVariants.{Less};
ghost use Rattle.ecs_id.specs.Id.{Id, id_cmp};
ghost use Rattle.ecs_table.specs.Archetype.{Ascend, index_in};

use arrayvec::ArrayVec;
use ecs_id::Id;
use std::alloc::Allocator;
use std::cmp::Ordering;
use std::marker::Model;

// So many ids take no block of their own.
const INSIDE: usize = 4;

// Among so few ids a scan is faster than a binary search.
const FEW: usize = 8;

/// A list of ids in a block. Where they ascend, each is found by a binary search.
#[derive(Drop)]
pub(crate) struct ManyIds<A: Allocator> {
    ids: Vec<Id, A>,
    ascending: bool,
}

#[derive(Drop)]
pub(crate) enum KeptIds<A: Allocator> {
    Few(ArrayVec<Id, INSIDE>),
    Many(ManyIds<A>),
}

/// A list of ids that stays as it is. Few of them take no memory beside the value.
#[derive(Drop)]
pub(crate) struct DataIds<A: Allocator> {
    kept: KeptIds<A>,
}

impl<A: Allocator> Model for ManyIds<A> {
    ghost use Rattle.std.specs.Prelude.{IsTrue, List};
    ghost use Rattle.ecs_id.specs.Id.{Id};
    ghost use Rattle.ecs_table.specs.Archetype.{Ascend};

    ghost Value = { List Id };

    ghost view = { λ d. d.ids.items };

    ghost invariant = { λ d. IsTrue d.ascending → Ascend d.ids.items };
}

impl<A: Allocator> Model for DataIds<A> {
    ghost use Rattle.std.specs.Prelude.{List};
    ghost use Rattle.ecs_id.specs.Id.{Id};
    ghost use Rattle.ecs_table.specs.DataIds.{data_ids_of};

    ghost Value = { List Id };

    ghost view = { λ d. data_ids_of d.kept };
}

impl<A: Allocator> DataIds<A> {
    /// These ids. Where they are few, their block is given back.
    pub(crate) fn new(ids: Vec<Id, A>) -> DataIds<A>
        ensures { result ≡ ids.items }
    {
        match few_of(ids.as_slice()) {
            Some(few) => DataIds {
                kept: KeptIds::Few(few),
            },
            None => DataIds {
                kept: KeptIds::Many(ManyIds::new(ids)),
            },
        }
    }

    pub(crate) fn as_slice(&self) -> &[Id]
        ensures { result.now ≡ self.now }
    {
        match &self.kept {
            KeptIds::Few(few) => few.as_slice(),
            KeptIds::Many(many) => many.as_slice(),
        }
    }

    /// Where an id stands.
    pub(crate) fn find(&self, id: Id) -> Option<usize>
        ensures index { result ≡ index_in self.now id }
        ensures within { IfSome result (λ index. index < length self.now) }
    {
        match &self.kept {
            KeptIds::Few(few) => scan(few.as_slice(), id),
            KeptIds::Many(many) => many.seek(id),
        }
    }

    /// Where an id stands, for many ids in turn: the search begins at `from`, 0 for the first id, and answers where
    /// that of the next one is to begin. Ids that ascend take one pass over these together. Any other `from` is only
    /// slower.
    pub(crate) fn find_from(&self, from: usize, id: Id) -> (usize, Option<usize>)
        ensures index { result.1 ≡ index_in self.now id }
        ensures within { IfSome result.1 (λ index. index < length self.now) }
    {
        match &self.kept {
            KeptIds::Few(few) => (0, scan(few.as_slice(), id)),
            KeptIds::Many(many) => many.seek_from(from, id),
        }
    }
}

impl<A: Allocator> ManyIds<A> {
    fn new(ids: Vec<Id, A>) -> ManyIds<A>
        ensures { result ≡ ids.items }
    {
        let ascending = ascend(ids.as_slice());
        ManyIds { ids, ascending }
    }

    fn as_slice(&self) -> &[Id]
        ensures { result.now ≡ self.now }
    {
        self.ids.as_slice()
    }

    // Most tables have few ids with data. Of others an id is found by a call, which keeps the rest short.
    #[inline(never)]
    fn seek(&self, id: Id) -> Option<usize>
        ensures index { result ≡ index_in self.now id }
        ensures within { IfSome result (λ index. index < length self.now) }
    {
        let ids = self.ids.as_slice();
        if self.ascending && FEW < ids.len() {
            search(ids, id)
        } else {
            scan(ids, id)
        }
    }

    #[inline(never)]
    fn seek_from(&self, from: usize, id: Id) -> (usize, Option<usize>)
        ensures index { result.1 ≡ index_in self.now id }
        ensures within { IfSome result.1 (λ index. index < length self.now) }
    {
        let ids = self.ids.as_slice();
        if self.ascending && FEW < ids.len() {
            search_from(ids, from, id)
        } else {
            (0, scan(ids, id))
        }
    }
}

/// The ids, if they are few.
fn few_of(ids: &[Id]) -> Option<ArrayVec<Id, INSIDE>>
    ensures { IfSome result (λ few. few.items ≡ ids.now) }
{
    if ids.len() <= INSIDE {
        let mut few = ArrayVec::new();
        if few.try_extend_from_slice(ids).is_ok() {
            return Some(few);
        }
    }
    None
}

/// Whether each id comes before the next.
fn ascend(ids: &[Id]) -> bool
    ensures { IsTrue result → Ascend ids.now }
{
    for k in 1..ids.len() {
        match ids[k - 1].cmp(&ids[k]) {
            Ordering::Less => {}
            _ => return false,
        }
    }
    true
}

#[tactic(auto, unfolding(crate::specs::Archetype::index_in))]
fn scan(ids: &[Id], id: Id) -> Option<usize>
    ensures index { result ≡ index_in ids.now id }
    ensures within { IfSome result (λ index. index < length ids.now) }
{
    ids.iter().position(|known| *known == id)
}

fn search(ids: &[Id], id: Id) -> Option<usize>
    requires { Ascend ids.now }
    ensures index { result ≡ index_in ids.now id }
    ensures within { IfSome result (λ index. index < length ids.now) }
{
    match ids.binary_search(&id) {
        Ok(index) => Some(index),
        Err(_) => None,
    }
}

fn search_from(ids: &[Id], from: usize, id: Id) -> (usize, Option<usize>)
    requires { Ascend ids.now }
    ensures index { result.1 ≡ index_in ids.now id }
    ensures within { IfSome result.1 (λ index. index < length ids.now) }
{
    for at in begin(ids, from, id)..ids.len() {
        match ids[at].cmp(&id) {
            Ordering::Less => {}
            Ordering::Equal => return (at + 1, Some(at)),
            Ordering::Greater => return (at, None),
        }
    }
    (ids.len(), None)
}

/// `from`, if the ids before it come before this one, and else 0.
fn begin(ids: &[Id], from: usize, id: Id) -> usize
    requires { Ascend ids.now }
    ensures before { (k : ℕ) (d : Id) → k < result → id_cmp (slice_index_or ids.now k d) id ≡ Less }
    ensures within { result ≤ length ids.now }
{
    if from == 0 || ids.len() < from {
        return 0;
    }
    match ids[from - 1].cmp(&id) {
        Ordering::Less => from,
        _ => 0,
    }
}
