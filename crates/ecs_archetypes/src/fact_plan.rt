//! Facts that come with their sizes, what their changes are planned in, and the ids of one entity after such a change.
ghost use Rattle.std.specs.Prelude.{◌≡◌, ◌++◌, ◌∷◌, ◌==◌, not, [], OnOk, IsTrue};
ghost use Rattle.std.specs.List.{list_all, prefix_len};
ghost use Rattle.std.specs.List.Sorted.{IsStrictlySortedBy};
ghost use Rattle.ecs_id.specs.Id.{id_cmp};
ghost use Rattle.ecs_model.specs.Map.{IsMap, has_key, keys};
ghost use Rattle.ecs_archetypes.specs.FactChanges.{begins_before, begins_with, changed_shape, first_entity, ids_among};
ghost use Rattle.ecs_archetypes.specs.FactChanges.{ids_coming, is_among};
ghost use Rattle.table_store.specs.Rows.{shape_of_cells};

use crate::entity_facts::EntityFacts;
use crate::plans::MovePlan;
use ecs_id::Id;
use ecs_model::FactKey;
use raw_column::Memory;
use std::alloc::{Allocator, Global};
use std::marker::Model;
use table_store::SizedId;

/// A fact that comes, and how many bytes its value has in tables: 0 for a tag.
#[derive(Clone, Copy, Debug)]
pub struct SizedFact {
    key: FactKey,
    size: usize,
}

impl Model for SizedFact {
    ghost use Rattle.std.specs.Prelude.{ℕ};
    ghost use Rattle.ecs_model.specs.World.{Key};

    ghost Value = { Key × ℕ };

    ghost view = { λ f. (f.key, f.size) };

    ghost inverse = { λ f. record { key = f.0; size = f.1 } };
}

impl SizedFact {
    /// A fact whose value has so many bytes.
    pub fn new(key: FactKey, size: usize) -> SizedFact
        ensures { result ≡ (key, size) }
    {
        SizedFact { key, size }
    }

    /// The fact.
    pub fn key(self) -> FactKey
        ensures { result ≡ self.0 }
    {
        self.key
    }

    /// The bytes of its value.
    pub fn size(self) -> usize
        ensures { result ≡ self.1 }
    {
        self.size
    }
}

/// What changes of facts are planned in. Whoever makes many keeps one, so that its memory serves them all.
pub struct FactPlan<A: Allocator = Global> {
    pub(crate) moves: MovePlan<A>,
    /// The ids of one entity, while its move is planned.
    pub(crate) ids: Vec<SizedId, A>,
}

impl<A: Allocator> Drop for FactPlan<A> {
    fn drop(self) {
        let Self { moves: _, ids: _ } = self;
    }
}

impl<A: Allocator + Copy> FactPlan<A> {
    /// A plan without moves, which takes no memory.
    pub fn new(alloc: A) -> FactPlan<A>
        ensures { result.moves ≡ [] }
    {
        FactPlan {
            moves: MovePlan::new(alloc),
            ids: Vec::new(alloc),
        }
    }
}

/// The least entity of two lists of facts that ascend.
pub fn first_entity(came: &[SizedFact], went: &[FactKey]) -> Option<u32>
    ensures { result ≡ first_entity came.now went.now }
{
    match (came.first(), went.first()) {
        (None, None) => None,
        (Some(fact), None) => Some(fact.key.entity()),
        (None, Some(key)) => Some(key.entity()),
        (Some(fact), Some(key)) => Some(fact.key.entity().min(key.entity())),
    }
}

/// How many facts of an entity come first.
pub fn count_coming(came: &[SizedFact], entity: u32) -> usize
    ensures { result ≡ prefix_len (λ c. c.0.0 == entity) came.now }
{
    came.iter()
        .take_while(|fact| fact.key().entity() == entity)
        .count()
}

/// How many facts of an entity go first.
pub fn count_going(went: &[FactKey], entity: u32) -> usize
    ensures { result ≡ prefix_len (λ k. k.0 == entity) went.now }
{
    went.iter().take_while(|key| key.entity() == entity).count()
}

/// Puts the ids of an entity into a list, without those that go and with those that come. All lists ascend, and no id
/// comes that is held.
pub fn merge_ids<A: Allocator>(
    ids: &mut Vec<SizedId, A>,
    facts: &EntityFacts<'_, A>,
    came: &[SizedFact],
    went: &[FactKey],
) -> Result<(), Memory>
    requires held_ascend { IsMap id_cmp facts.now }
    requires came_ascend { IsMap id_cmp (ids_coming came.now) }
    requires went_ascend { IsStrictlySortedBy id_cmp (ids_among went.now) }
    requires unheld { IsTrue (list_all (λ c. not (has_key id_cmp facts.now c.0)) (ids_coming came.now)) }
    ensures { OnOk result (ids.new.items ≡ changed_shape (ids_coming came.now) (is_among (ids_among went.now))
        (shape_of_cells facts.now)) }
{
    ids.clear();
    let (mut came, mut went, mut place) = (came, went, 0);
    while place < facts.len() {
        let (id, bytes) = facts.at(place);
        if comes_before(came, id) {
            let (first, later) = came.split_at(1);
            push_coming(ids, first)?;
            came = later;
        } else if goes_before(went, id) {
            let (_, later) = went.split_at(1);
            went = later;
        } else {
            if !goes_first(went, id) {
                push_id(ids, SizedId::new(id, bytes.len()))?;
            }
            place += 1;
        }
    }
    push_coming(ids, came)
}

// Whether the first id that comes is below one.
fn comes_before(came: &[SizedFact], id: Id) -> bool
    ensures { result ≡ begins_before (keys (ids_coming came.now)) id }
{
    match came.first() {
        Some(fact) => fact.key.id() < id,
        None => false,
    }
}

// Whether the first id that goes is below one.
fn goes_before(went: &[FactKey], id: Id) -> bool
    ensures { result ≡ begins_before (ids_among went.now) id }
{
    match went.first() {
        Some(key) => key.id() < id,
        None => false,
    }
}

// Whether the first id that goes is this one.
fn goes_first(went: &[FactKey], id: Id) -> bool
    ensures { result ≡ begins_with (ids_among went.now) id }
{
    match went.first() {
        Some(key) => key.id() == id,
        None => false,
    }
}

fn push_coming<A: Allocator>(ids: &mut Vec<SizedId, A>, came: &[SizedFact]) -> Result<(), Memory>
    ensures { OnOk result (ids.new.items ≡ ids.old.items ++ ids_coming came.now) }
{
    for fact in came {
        push_id(ids, SizedId::new(fact.key.id(), fact.size))?;
    }
    Ok(())
}

fn push_id<A: Allocator>(ids: &mut Vec<SizedId, A>, id: SizedId) -> Result<(), Memory>
    ensures { OnOk result (ids.new.items ≡ ids.old.items ++ id ∷ []) }
{
    let Ok(()) = ids.push(id) else {
        return Err(Memory);
    };
    Ok(())
}
