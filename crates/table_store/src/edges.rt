//! The edges that lead from a table to others.
ghost use Rattle.std.specs.Prelude.{◌≡◌, ◌∷◌, [], ◌⊎◌, ◌<◌, IfOk, IfSome, OnErr, length, position};
ghost use Rattle.indexmap.specs.IndexMap.{get};
ghost use Rattle.ecs_id.specs.Id.{Id, id_eq};
ghost use Rattle.ecs_id.specs.declared.TableKey.{TableKey};
ghost use Rattle.table_store.specs.Kept.{HasNoEdge, IsEdgePut, IsWritten, edge_in, edge_of, one_of_several};

use ecs_id::{Id, ListedKey, TableKey};
use indexmap::IndexMap;
use secret_hashing::Hashing;
use std::alloc::{AllocError, Allocator, Global};
use std::mem;

// So many edges are searched one by one before others are hashed.
const FEW: usize = 8;

// How many edges a list gets room for once it has two.
const FEW_ROOM: usize = 3;

/// An edge: the id for which it leads, and where.
type Edge = (Id, ListedKey);

type ById<A> = IndexMap<Id, ListedKey, Hashing, A>;

/// More edges than a few. The few that came first are searched one by one, and the others are hashed.
#[derive(Drop)]
pub struct Several<A: Allocator> {
    few: Vec<Edge, A>,
    others: ById<A>,
}

/// For some ids, the key of a table.
///
/// Most tables have one edge or none, and these take no memory of their own. A few take a block, and those of tables
/// with many are hashed, so a look-up takes constant time whatever the ids.
pub enum Edges<A: Allocator> {
    Empty,
    One(Edge),
    Few(Vec<Edge, A>),
    // in a box, since few tables have so many
    Many(Box<Several<A>, A>),
}

impl<A: Allocator> Drop for Edges<A> {
    fn drop(self) {
        match self {
            Edges::Empty | Edges::One(_) | Edges::Few(_) | Edges::Many(_) => {}
        }
    }
}

const _: () = prove!(size_of::<Edges<Global>>() == 32);

impl<A: Allocator> Edges<A> {
    /// No edges, which take no memory.
    pub fn new() -> Edges<A>
        ensures { HasNoEdge result }
    {
        Edges::Empty
    }

    /// Where the edge for an id leads, if there is one.
    pub fn get(&self, id: Id) -> Option<TableKey>
        ensures { result ≡ edge_of self.now id }
    {
        match self {
            Edges::Empty => None,
            Edges::One((known, to)) => { if *known == id { Some(to.key()) } else { None } }
            Edges::Few(few) => edge_in(few.as_slice(), id),
            Edges::Many(several) => several.get(id),
        }
    }
}

impl<A: Allocator> Several<A> {
    fn get(&self, id: Id) -> Option<TableKey>
        ensures { result ≡ one_of_several self.now id }
    {
        if let Some(to) = edge_in(self.few.as_slice(), id) {
            return Some(to);
        }
        match self.others.get(&id) {
            Some(to) => Some(to.key()),
            None => None,
        }
    }

    #[inline(never)]
    fn write(&mut self, id: Id, to: ListedKey)
        ensures { IsEdgePut id to (one_of_several self.old) (one_of_several self.new) }
    {
        match place_in(self.few.as_slice(), id) {
            Some(place) => self.few[place] = (id, to),
            None => put_hashed(&mut self.others, id, to),
        }
    }
}

impl<A: Allocator + Copy> Edges<A> {
    /// Writes an edge, if there is memory for it, and the serial of the table has no more than 64 bits.
    pub fn keep(&mut self, alloc: A, hashing: Hashing, id: Id, to: TableKey)
        ensures { IsWritten id to self.old self.new }
    {
        if let Some(listed) = ListedKey::of(to) {
            self.write(alloc, hashing, id, listed);
        }
    }

    fn write(&mut self, alloc: A, hashing: Hashing, id: Id, to: ListedKey)
        ensures { IsWritten id to self.old self.new }
    {
        match self {
            Edges::Empty => *self = Edges::One((id, to)),
            Edges::One(only) => {
                let first = *only;
                if first.0 == id {
                    *self = Edges::One((id, to));
                } else if let Ok(both) = two_edges(alloc, first, id, to) {
                    *self = Edges::Few(both);
                }
            }
            Edges::Few(few) => {
                if few.len() < FEW {
                    put(few, id, to);
                } else if let Ok(several) = several_edges(alloc, hashing, few, id, to) {
                    *self = Edges::Many(several);
                }
            }
            Edges::Many(several) => several.write(id, to),
        }
    }
}

// Where the first of some edges for an id leads.
fn edge_in(edges: &[Edge], id: Id) -> Option<TableKey>
    ensures { result ≡ edge_in edges.now id }
{
    for edge in edges {
        if edge.0 == id {
            return Some(edge.1.key());
        }
    }
    None
}

// Where an edge for an id stands.
fn place_in(edges: &[Edge], id: Id) -> Option<usize>
    ensures place { result ≡ position (λ e. id_eq e.0 id) edges.now }
    ensures within { IfSome result (λ place. place < length edges.now) }
{
    edges.iter().position(|edge| edge.0 == id)
}

// Writes an edge in the place of that for the id, or after the others, if there is memory for it.
fn put<A: Allocator>(few: &mut Vec<Edge, A>, id: Id, to: ListedKey)
    ensures { IsEdgePut id to (edge_in few.old.items) (edge_in few.new.items) }
{
    match place_in(few.as_slice(), id) {
        Some(place) => few[place] = (id, to),
        None => {
            let _ = list_growth::push(few, (id, to));
        }
    }
}

// Writes an edge in the place of that for the id, or a further one, if there is memory for it.
fn put_hashed<A: Allocator>(others: &mut ById<A>, id: Id, to: ListedKey)
    ensures { IsEdgePut id to (get id_eq others.old) (get id_eq others.new) }
{
    let _ = others.insert(id, to);
}

// A first edge, and another one.
#[inline(never)]
fn two_edges<A: Allocator>(
    alloc: A,
    first: Edge,
    id: Id,
    to: ListedKey,
) -> Result<Vec<Edge, A>, AllocError>
    ensures { IfOk result (λ both. both.items ≡ first ∷ (id, to) ∷ []) }
{
    let mut both = Vec::with_capacity(alloc, FEW_ROOM)?;
    both.push_reserved(first);
    both.push_reserved((id, to));
    Ok(both)
}

// These edges, of which none is left, and another one that is hashed.
#[cold]
#[inline(never)]
fn several_edges<A: Allocator + Copy>(
    alloc: A,
    hashing: Hashing,
    few: &mut Vec<Edge, A>,
    id: Id,
    to: ListedKey,
) -> Result<Box<Several<A>, A>, AllocError>
    ensures few { IfOk result (λ several. several.value.few.items ≡ few.old.items) }
    ensures other { IfOk result (λ several. several.value.others.entries ≡ (id, to) ∷ []) }
    ensures kept { OnErr result (few.new.items ≡ few.old.items) }
{
    let mut others = IndexMap::with_hasher(alloc, hashing);
    others.insert(id, to)?;
    let none = Vec::new(alloc);
    let mut several = Box::new(alloc, Several { few: none, others })?;
    several.few = mem::replace(few, Vec::new(alloc));
    Ok(several)
}
